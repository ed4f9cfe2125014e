//! Where joins come from: each way back is followed to its end.

ghost use Rattle.std.specs.Prelude.{◌≡◌, ◌<◌, ◌↔◌, ◌&&◌, not, ℕ, true, false, Option, Some, List, length, sum_by, slice_get};
ghost use Rattle.cv_graph.specs.declared.ways.Supply.{Supply};
ghost use Rattle.cv_graph.specs.declared.ways.Way.{Way};
ghost use Rattle.cv_graph.specs.Ways.{AreWithin, EndsIn, IsOn, IsBack, LeadsBack, is_back, still, leapt};

/// What is at the end of a way back.
#[derive(Debug, Clone, Copy, PartialEq, Eq)]
pub enum Supply {
    /// `voidport`.
    Void,
    /// An outport of an actor, both by their numbers.
    Outport { actor: u16, port: u8 },
}

/// What is known of where a join comes from.
#[derive(Debug, Clone, Copy, PartialEq, Eq)]
pub enum Way {
    /// It comes from this, or from a port to which nothing is joined.
    Ended(Option<Supply>),
    /// It goes on from the join of that number, and comes from where that one comes from.
    Back(usize),
}

impl Way {
    fn is_back(self) -> bool
        ensures { result ≡ is_back self }
    {
        matches!(self, Way::Back(_))
    }
}

/// Follows each way to its end. What stays `Back` goes round in a circle.
pub fn follow(ways: &mut [Way])
    requires { AreWithin ways.old }
    ensures { (i : ℕ) (s : Option Supply) → (slice_get ways.new i ≡ Some (Way.Ended s)) ↔ EndsIn ways.old s i }
{
    while round(ways) {}
}

/// Each way that goes on leaps as far as the way to which it goes on; whether one more has ended.
fn round(ways: &mut [Way]) -> bool
    requires { AreWithin ways.old }
    ensures within { AreWithin ways.new }
    ensures on { (o : List Way) → IsOn o ways.old → IsOn o ways.new }
    ensures stuck { result ≡ false → (o : List Way) → IsOn o ways.old → (i : ℕ) → IsBack ways.new i → (j : ℕ) × LeadsBack o j i × IsBack ways.new j }
    ensures fewer { result ≡ true → sum_by still ways.new < sum_by still ways.old }
{
    let mut found = false;
    for at in 0..ways.len() {
        let next = leap(ways, at);
        if has_ended(ways[at], next) {
            found = true;
        }
        ways[at] = next;
    }
    found
}

/// Whether a way ended between before and after.
fn has_ended(before: Way, after: Way) -> bool
    ensures { result ≡ (is_back before && not (is_back after)) }
{
    before.is_back() && !after.is_back()
}

/// The way of the join of that number, or where it goes on to.
fn leap(ways: &[Way], at: usize) -> Way
    requires within { AreWithin ways.now }
    requires there { at < length ways.now }
    ensures { Some result ≡ leapt ways.now at }
{
    match ways[at] {
        Way::Ended(supply) => Way::Ended(supply),
        Way::Back(join) => ways[join],
    }
}
