//! Each call with ample memory.

use cv_rules::{Attrs, NodeSpec, Rule, is_key, meets};
use cv_token::{Pair, Text};
use sqlite_items::Boxed;
use std::alloc::{AllocError, Global};
use std::test::Fail;

// The attributes of a node that is called `node1`.
fn named_node1(alloc: Global) -> Result<Attrs, AllocError> {
    let key = Text::from_string(String::from_str(alloc, "node_name.name")?);
    let value = Text::from_string(String::from_str(alloc, "node1")?);
    let mut attrs = Attrs::new(alloc);
    attrs.push(Pair { key, value })?;
    Ok(attrs)
}

#[test]
fn specs_are_copied(rt: HostRuntime) -> Result<(), Fail> {
    let spec = NodeSpec {
        no: 1,
        room: 1024,
        window: 1,
        attrs: named_node1(rt.alloc())?,
    };
    let copy = spec.copy(rt.alloc())?;
    assert_eq!(rt; copy.attrs.as_slice().len(), 1);
    Ok(())
}

#[test]
fn rules_are_copied(rt: HostRuntime) -> Result<(), Fail> {
    let rule = Rule::Not(Boxed::new(rt.alloc(), Rule::Any)?);
    let copy = rule.copy(rt.alloc())?;
    assert!(rt; is_key("node_name.name") && !meets(&copy, &Attrs::new(rt.alloc())));
    Ok(())
}
