//! The laws of few numbers and of low moments. The functions do nothing: their clauses are laws.

ghost use Rattle.cv_bounds.specs.Few.{NoneIsSpent, OpenedIsNew, RaisesByOne, RecordsStayFew};
ghost use Rattle.cv_bounds.specs.Moments.{EmptyIsStart, OpenedIsStart, RunsAreTimely, RunsSpendNothing, WaitsStayBrief};

/// Where no actor moves and no application comes or goes: an entry raises no count and no attempt of its node by more than one;
/// after every beginning of every record no stamp, count and attempt is above the number of steps; and no event is refused for
/// a number while those and the moments are below 2^62. A node that opens with actors in their places has no number above 0.
pub fn numbers_stay_few()
    ensures rows { RaisesByOne }
    ensures records { RecordsStayFew }
    ensures spent { NoneIsSpent }
    ensures opened { OpenedIsNew }
{}

/// Where no actor moves and no application comes or goes: only a Tick leads to another moment, and each actor waits less than 2^31
/// milliseconds, from the start of its node on. In runs of nodes whose journals have fewer than 2^61 entries together no event is
/// refused for a number up to the moment 2^61.
pub fn moments_stay_low()
    ensures rows { WaitsStayBrief }
    ensures opened { OpenedIsStart }
    ensures empty { EmptyIsStart }
    ensures runs { RunsAreTimely }
    ensures spent { RunsSpendNothing }
{}
