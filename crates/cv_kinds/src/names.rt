//! The names of the kinds and of their ports.

ghost use Rattle.std.specs.Prelude.{◌≡◌, ◌<◌, ◌≤◌, IfSome, Some, map, length};
ghost use Rattle.cv_kinds.specs.declared.kind.Kind.{Kind};
ghost use Rattle.cv_kinds.specs.KindRow.{row_of};
ghost use Rattle.cv_kinds.specs.Table.{line_of};
ghost use Rattle.cv_kinds.specs.Names.{first_named, kind_named, place_from, inport_named, outport_named};

use crate::kind::Kind;
use cv_calc::CalcKind;
use cv_flow::FlowKind;

/// All kinds, in the order of the table.
pub const KINDS: [Kind; 40] = [
    Kind::Flow(FlowKind::Constant),
    Kind::Flow(FlowKind::Counter),
    Kind::Flow(FlowKind::CountTimer),
    Kind::Flow(FlowKind::Identity),
    Kind::Flow(FlowKind::Sequence),
    Kind::Flow(FlowKind::Trigger),
    Kind::Flow(FlowKind::Delay),
    Kind::Flow(FlowKind::Sum),
    Kind::Flow(FlowKind::Tally),
    Kind::Flow(FlowKind::Print),
    Kind::Flow(FlowKind::Terminator),
    Kind::Flow(FlowKind::Init),
    Kind::Flow(FlowKind::Join),
    Kind::Flow(FlowKind::Alternate2),
    Kind::Flow(FlowKind::Alternate3),
    Kind::Flow(FlowKind::Dealternate2),
    Kind::Flow(FlowKind::Select),
    Kind::Flow(FlowKind::Switch),
    Kind::Flow(FlowKind::Batch),
    Kind::Flow(FlowKind::Unbatch),
    Kind::Flow(FlowKind::Take),
    Kind::Flow(FlowKind::Skip),
    Kind::Flow(FlowKind::Every),
    Kind::Flow(FlowKind::Valve),
    Kind::Flow(FlowKind::Zip),
    Kind::Flow(FlowKind::Unzip),
    Kind::Flow(FlowKind::Change),
    Kind::Calc(CalcKind::Add),
    Kind::Calc(CalcKind::Subtract),
    Kind::Calc(CalcKind::Multiply),
    Kind::Calc(CalcKind::Divide),
    Kind::Calc(CalcKind::Modulo),
    Kind::Calc(CalcKind::Compare),
    Kind::Calc(CalcKind::Concat),
    Kind::Calc(CalcKind::Length),
    Kind::Calc(CalcKind::Prefix),
    Kind::Calc(CalcKind::JsonText),
    Kind::Calc(CalcKind::JsonParse),
    Kind::Calc(CalcKind::JsonGet),
    Kind::Calc(CalcKind::Not),
];

/// The kind of that name; None exactly where no kind has it.
#[tactic(auto, unfolding(crate::specs::Names::kind_named))]
pub fn find(name: &str) -> Option<Kind>
    ensures named { result ≡ kind_named name.now }
    ensures found { IfSome result (λ kind. (line_of kind).name ≡ name.now) }
    ensures only { (kind : Kind) → (line_of kind).name ≡ name.now → result ≡ Some kind }
{
    first_named(&KINDS, name)
}

/// The first of these kinds that has the name.
fn first_named(kinds: &[Kind], name: &str) -> Option<Kind>
    ensures { result ≡ first_named kinds.now name.now }
{
    for kind in kinds {
        if name == kind.line().name {
            return Some(*kind);
        }
    }
    None
}

/// The name of a kind, as scripts write it.
pub fn name(kind: Kind) -> &'static str
    ensures { result.now ≡ (line_of kind).name }
{
    kind.line().name
}

/// The number of the inport of that name; None exactly where the kind has no such inport.
pub fn inport(kind: Kind, name: &str) -> Option<u8>
    ensures named { result ≡ inport_named kind name.now }
    ensures within { IfSome result (λ port. port < (row_of kind).inports) }
{
    port_named(kind.line().inports, name)
}

/// The number of the outport of that name; None exactly where the kind has no such outport.
pub fn outport(kind: Kind, name: &str) -> Option<u8>
    ensures named { result ≡ outport_named kind name.now }
    ensures within { IfSome result (λ port. port < (row_of kind).outports) }
{
    port_named(kind.line().outports, name)
}

/// The place of a name among those of some ports.
fn port_named(names: &[&str], name: &str) -> Option<u8>
    requires { length names.now ≤ 3 }
    ensures named { result ≡ place_from 0 (map (λ text. text.now) names.now) name.now }
    ensures within { IfSome result (λ port. port < length names.now) }
{
    for (place, port) in names.iter().enumerate() {
        if name == *port {
            return Some(place as u8);
        }
    }
    None
}
