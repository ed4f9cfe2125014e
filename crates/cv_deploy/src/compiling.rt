//! `compile`: from bytes to a network.

ghost use Rattle.std.specs.Prelude.{◌≡◌, ◌≤◌, ◌^◌, length, IfOk, IfErr};
ghost use Rattle.cv_kinds.specs.Net.{Net};
ghost use Rattle.cv_kinds.specs.Wired.{IsWired};
ghost use Rattle.cv_deploy.specs.Faults.{Means, Gives, Refuses, IsCaused, HasFault, HasScriptFault, IsScriptFault, first_fault};
ghost use Rattle.cv_deploy.specs.Meaning.{StandsFor};
ghost use Rattle.cv_deploy.specs.declared.fault.Fault.{Fault};
ghost use Rattle.cv_deploy.specs.declared.fault.NoNetwork.TheVariants as refusal;

use crate::fault::{Code, Fault, NoNetwork};
use crate::placing::fault_at;
use crate::reading::script_of;
use crate::telling::{first_word, of_expand, of_graph};
use cv_expand::expand;
use cv_graph::network;
use cv_kinds::Network;
use cv_syntax::Script;
use std::alloc::Global;

/// The fault at the first byte with this code.
fn at_first(of: Code) -> NoNetwork
    ensures { result ≡ refusal.Script (first_fault of) }
{
    NoNetwork::Script(Fault {
        line: 1,
        col: 1,
        code: of,
    })
}

/// The network that the bytes of a script stand for, or the script's first fault: no UTF-8, then the faults of its
/// lexemes, of its grammar, of its walk, of its kinds, arguments and joins, and last `Unbuilt` where it has a rule or an
/// apply.
pub fn compile(alloc: Global, bytes: &[u8]) -> Result<Network, NoNetwork>
    requires { length bytes.now ≤ 2 ^ 31 }
    // What is answered is the network that the bytes mean.
    ensures found { IfOk result (Means bytes.now) }
    // Its connections join ports that are there.
    ensures wired { IfOk result IsWired }
    // Bytes that mean a network are answered with it, unless memory runs out.
    ensures only { (net : Net) → Means bytes.now net → Gives result net }
    // A fault is the bytes', at its place.
    ensures fault { IfErr result (IsCaused bytes.now) }
    // Bytes that have a fault are answered with it, unless memory runs out.
    ensures faulty { (fault : Fault) → HasFault bytes.now fault → Refuses result fault }
{
    let Ok(source) = std::str::from_utf8(bytes) else {
        return Err(at_first(Code::NotUtf8))
    };
    let script = script_of(alloc, source)?;
    network_of(alloc, bytes, &script)
}

/// The network of a script that the bytes spell, or the script's first fault.
fn network_of(alloc: Global, bytes: &[u8], script: &Script) -> Result<Network, NoNetwork>
    requires { length bytes.now ≤ 2 ^ 31 }
    ensures found { IfOk result (StandsFor (script.now).items) }
    ensures only { (net : Net) → StandsFor (script.now).items net → Gives result net }
    ensures fault { IfErr result (IsScriptFault bytes.now (script.now).items) }
    ensures refused { (fault : Fault) → HasScriptFault bytes.now (script.now).items fault → Refuses result fault }
{
    let flat = match expand(alloc, script) {
        Ok(flat) => flat,
        Err(fault) => return Err(of_expand(bytes, fault)),
    };
    let net = match network(alloc, &flat) {
        Ok(net) => net,
        Err(fault) => return Err(of_graph(bytes, fault)),
    };
    match first_word(script.items.as_slice()) {
        Some(at) => Err(NoNetwork::Script(fault_at(bytes, at, Code::Unbuilt))),
        None => Ok(net),
    }
}
