//! Three journals and their record.

ghost use Rattle.std.specs.Prelude.{◌≡◌, IfOk};

use cv_fixtures::node_spec;
use cv_merge::merge;
use cv_protocol::{Entry, Event, Journal};
use cv_token::OutOfMemory;
use std::alloc::Global;
use std::process::Abort;
use std::test::Fail;

/// The journal of a node that ticked at these stamps.
fn ticks(alloc: Global, no: u16, stamps: &[u64]) -> Result<Journal, OutOfMemory>
    ensures { IfOk result (λ journal. journal.spec.no ≡ no) }
{
    let mut entries = Vec::new(alloc);
    for stamp in stamps {
        let event = Event::Tick { now: *stamp };
        entries.push(Entry {
            stamp: *stamp,
            event,
        })?;
    }
    Ok(Journal {
        spec: node_spec(alloc, no, 8),
        dropped: 0,
        entries,
    })
}

// Three journals, one of them empty; the stamp 2 stands in both others.
#[test]
fn orders_by_stamps_and_then_by_nodes(rt: HostRuntime) -> Result<(), Fail> {
    let alloc = rt.alloc();
    let mut journals = Vec::new(alloc);
    journals.push(ticks(alloc, 1, &[2, 5])?)?;
    journals.push(ticks(alloc, 2, &[])?)?;
    journals.push(ticks(alloc, 4, &[1, 2, 3])?)?;
    let merged = merge(alloc, journals)?;
    let expected = [(1, 4), (2, 1), (2, 4), (3, 4), (5, 1)];
    assert_eq!(rt; merged.entries.len(), expected.len());
    for (place, step) in merged.entries.as_slice().iter().enumerate() {
        assert!(rt; (step.stamp, step.node) == expected[place]);
    }
    assert_eq!(rt; merged.specs.len(), 3);
    Ok(())
}
