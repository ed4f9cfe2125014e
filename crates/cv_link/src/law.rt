//! What holds of every run of a plan, and of the ends of a ring. The functions do nothing: their clauses are laws.

ghost use Rattle.cv_link.specs.Ring.{EndsStay, RxStays, TxStays};
ghost use Rattle.cv_link.specs.Runs.{EachAsPlanned};

/// The `k`-th frame of a link's run, counted from 1, is judged as the items of the words say: by the number `k` and by the number of the
/// first frame of its turn, whatever the run.
#[tactic(auto, using(crate::proofs::Turns::each_as_planned))]
pub fn frames_are_judged_as_planned()
    ensures { EachAsPlanned }
{}

/// An end stays the same end over any number of calls, and the two ends of one ring stay so.
#[tactic(auto, using(crate::proofs::Ends::ends_stay, crate::proofs::Ends::tx_stays, crate::proofs::Ends::rx_stays))]
pub fn ends_stay_ends()
    ensures ends { EndsStay }
    ensures tx { TxStays }
    ensures rx { RxStays }
{}
