//! The moments that live actors wait for.

ghost use Rattle.std.specs.Prelude.{◌≡◌, slice_get};
ghost use Rattle.std.specs.FinMap as map;
ghost use Rattle.cv_protocol.specs.Poll.{look};
ghost use Rattle.cv_state.specs.Waking.{IsNextDue, earlier, until_of, wake_of, wake_at};

use crate::state::State;
use cv_actor::{Live, Sight};
use cv_kinds::actions;
use cv_protocol::Need;

/// The earlier one of two moments, where there are any.
fn earlier(first: Option<u64>, second: Option<u64>) -> Option<u64>
    ensures { result ≡ earlier first second }
{
    match (first, second) {
        (Some(early), Some(late)) => {
            if early <= late {
                Some(early)
            } else {
                Some(late)
            }
        }
        (Some(early), None) => Some(early),
        (None, late) => late,
    }
}

/// The moment that the action waits for first, where it is one.
fn until(live: &Live, now: u64, action: u8) -> Option<u64>
    ensures { result ≡ until_of (look live.now now action) }
{
    match live.sight(now, action) {
        Sight::Lacks(Need::Until(moment)) => Some(moment),
        _ => None,
    }
}

/// The earliest of the moment found so far and those that the actor's actions wait for first.
fn wake_of(live: &Live, now: u64, found: Option<u64>) -> Option<u64>
    ensures { result ≡ wake_of now found live.now }
{
    let mut found = found;
    for action in 0..actions(live.kind()) {
        found = earlier(found, until(live, now, action));
    }
    found
}

impl State {
    /// The earliest of the moment found so far and those that the actions of the live actor of that place wait for first.
    fn wake_at(&self, place: usize, found: Option<u64>) -> Option<u64>
        ensures { result ≡ wake_at self.now.now found (slice_get (map.entries self.now.live) place) }
    {
        let Some(actor) = self.live.key_at(place) else {
            return found;
        };
        let Some(live) = self.live.get(actor) else {
            unreachable!()
        };
        wake_of(live, self.moment, found)
    }

    /// How many actors live here.
    fn live_count(&self) -> usize
        ensures { result ≡ map.len self.now.live }
    {
        self.live.len()
    }

    /// The least moment that an action of a live actor waits for first; None exactly where none waits for one.
    pub fn next_due(&self) -> Option<u64>
        ensures { IsNextDue self.now result }
    {
        let mut found = None;
        for place in 0..self.live_count() {
            found = self.wake_at(place, found);
        }
        found
    }
}
