//! The configuration of a node.

ghost use Rattle.std.specs.Prelude.{◌≡◌};

use cv_rules::{Attrs, NodeSpec};
use std::alloc::Global;

/// Node `no`, which takes so many actors, with a window of one and no attribute.
pub fn node_spec(alloc: Global, no: u16, room: u16) -> NodeSpec
    ensures number { result.no ≡ no }
    ensures window { result.window ≡ 1 }
{
    NodeSpec {
        no,
        room,
        window: 1,
        attrs: Attrs::new(alloc),
    }
}
