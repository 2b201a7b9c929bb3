//! The run of a net of any blocks: what the active blocks program, the memory after each reaction, what is observed, and the
//! reactions one after another, from start or from any state that stands behind a reaction.
#![tactic(auto)]

ghost use Rattle.sci_run.specs.Laws.{SomeTrace, SomeRest, OneTrace, OneRest, OneState, OneFinish, AlikeRest, SameRest, RestGoesOn, RunGoesOn, RunIsOver};
ghost use Rattle.sci_run.specs.Laws.{NeverConflicts, InRangeFrom, ReachableInRange, FiredWithinLimit, NowWithinUntil, ReactionsAreCounted};
ghost use Rattle.sci_run.specs.Laws.{OrdersWithinReactions, ActivationsWithinReactions, FirstPending, PendingFrom, ReachablePending, FiresAhead};
ghost use Rattle.sci_run.specs.Laws.{NowNeverFalls};
ghost use Rattle.sci_run.specs.Anew.{NumberedAnewLaw};
ghost use Rattle.sci_run.specs.Worked.{WorkedRuns};

/// The run of small nets is what was worked out by hand.
pub fn worked_runs()
    ensures { WorkedRuns }
{}

/// Where no source has a loop a run has a trace, and from every state there is a rest of it.
pub fn some_trace()
    ensures whole { SomeTrace }
    ensures rest { SomeRest }
{}

/// And no other; and where as many events have fired, one state alone is reachable.
pub fn one_trace()
    ensures whole { OneTrace }
    ensures rest { OneRest }
    ensures state { OneState }
    ensures finish { OneFinish }
{}

/// From states that are the same at the blocks the run goes on alike, and so where only the orders of what is pending differ, but not the order
/// in which it fires. It may be numbered anew from the list of what falls due.
pub fn same_rest()
    ensures alike { AlikeRest }
    ensures in_order { SameRest }
    ensures anew { NumberedAnewLaw }
{}

/// What has been observed up to a reachable state, and then from there on, is the trace. Each run is over behind a last state, by an end
/// or by a stop, which is no conflict.
pub fn goes_on()
    ensures rest { RestGoesOn }
    ensures whole { RunGoesOn }
    ensures over { RunIsOver }
    ensures conflict { NeverConflicts }
{}

/// In every reachable state the memory is in range where the input file is, and the bounds are kept.
pub fn in_range()
    ensures later { InRangeFrom }
    ensures reachable { ReachableInRange }
    ensures fired { FiredWithinLimit }
    ensures now { NowWithinUntil }
    ensures reactions { ReactionsAreCounted }
    ensures orders { OrdersWithinReactions }
    ensures activations { ActivationsWithinReactions }
{}

/// In every reachable state at most one event of each activation output is pending, numbered as they were programmed, and due within
/// 2^31 ticks. Dates never fall.
pub fn pending_in_order()
    ensures first { FirstPending }
    ensures later { PendingFrom }
    ensures reachable { ReachablePending }
    ensures fires { FiresAhead }
    ensures now { NowNeverFalls }
{}
