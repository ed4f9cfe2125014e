//! The connections of an actor that comes to live at a node.

ghost use Rattle.std.specs.Prelude.{◌≡◌, ◌+◌, ◌≤◌, length, IfSome};
ghost use Rattle.cv_protocol.specs.Deliveries.{outs_noted, readers_noted};
ghost use Rattle.cv_state.specs.Arrivals.{readers_in};

use cv_queue::OutPort;
use cv_table::ConnTable;
use cv_token::ActorId;

/// How many readers the outports have, where that can be counted.
pub(crate) fn count_readers(outs: &[OutPort]) -> Option<usize>
    ensures { IfSome result (λ count. count ≡ readers_in outs.now) }
{
    let mut count: usize = 0;
    for out in outs {
        count = count.checked_add(usize::from(out.readers()))?;
    }
    Some(count)
}

/// The connections of the outport are the actor's.
fn note_readers(producers: &mut ConnTable<ActorId>, actor: ActorId, out: &OutPort)
    requires { length out.now.readers ≤ producers.old.spare }
    ensures map { producers.new.map ≡ readers_noted actor out.now.readers producers.old.map }
    ensures room { producers.old.spare ≤ producers.new.spare + length out.now.readers }
{
    for number in 0..out.readers() {
        let Some(reader) = out.reader(number) else {
            unreachable!()
        };
        let Ok(_old) = producers.insert(reader.conn, actor) else {
            unreachable!()
        };
    }
}

/// The connections of the outports are the actor's.
pub(crate) fn note_outs(producers: &mut ConnTable<ActorId>, actor: ActorId, outs: &[OutPort])
    requires { readers_in outs.now ≤ producers.old.spare }
    ensures { producers.new.map ≡ outs_noted actor outs.now producers.old.map }
{
    for out in outs {
        note_readers(producers, actor, out);
    }
}
