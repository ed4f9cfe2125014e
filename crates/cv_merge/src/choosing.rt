//! Which of several journals has the earliest entry left.

ghost use Rattle.std.specs.Prelude.{◌≡◌, ◌<◌, None, length, MatchOption, IfSome};
ghost use Rattle.cv_protocol.specs.Journals.{entry_of};
ghost use Rattle.cv_merge.specs.Choice.{better, least_from};
ghost use Rattle.cv_merge.specs.Lanes.{Ascends, NothingLeft, TakesLeast, numbers};

use crate::unmerged::Unmerged;
use cv_protocol::{Entry, Step};

/// The earlier one of the best so far and the next, by places and stamps; of equal stamps the one so far.
fn better(best: Option<(usize, u64)>, place: usize, stamp: Option<u64>) -> Option<(usize, u64)>
    ensures { result ≡ better best place stamp }
{
    let Some(stamp) = stamp else { return best };
    match best {
        Some(known) if known.1 <= stamp => best,
        _ => Some((place, stamp)),
    }
}

/// The place of the journal whose first entry is the earliest, with its stamp.
fn least(sources: &[Unmerged]) -> Option<(usize, u64)>
    ensures least { result ≡ least_from None 0 sources.now }
    ensures within { IfSome result (λ found. found.0 < length sources.now) }
{
    let mut best = None;
    for (place, source) in sources.iter().enumerate() {
        best = better(best, place, source.first_stamp());
    }
    best
}

/// Takes the earliest entry that is left; of equal stamps that of the least node.

pub fn next_step(sources: &mut [Unmerged]) -> Option<Step>
    requires { Ascends (numbers sources.old) }
    ensures { MatchOption result (NothingLeft sources.old) (λ step. TakesLeast sources.old step sources.new) }
{
    let Some((place, _stamp)) = least(sources) else {
        return None;
    };
    let source = &mut sources[place];
    let node = source.node();
    let Some(entry) = source.take() else {
        unreachable!()
    };
    Some(step_of(node, entry))
}

/// The entry as a step of its node.
fn step_of(node: u16, entry: Entry) -> Step
    ensures entry { entry_of result ≡ entry }
    ensures node { result.node ≡ node }
{
    let Entry { stamp, event } = entry;
    Step { stamp, node, event }
}
