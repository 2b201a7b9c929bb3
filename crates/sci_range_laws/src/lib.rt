//! What a safe table of ranges says: of each run on the input files that are meant, of one that goes on from a state on its way, and of the program in C,
//! run to its end or stepped.
#![tactic(auto)]

ghost use Rattle.sci_range_laws.specs.Laws.{SafeRunsEndWell, SafeRestsEndWell, SafeCodeEndsWell, SafeStepsEndWell};

/// Where a table that no rule widens is safe, each run on an input file whose columns keep within the given one's is over by an end, or by a sensor whose
/// column ends, whatever its bounds are; and so is one that goes on from a state on its way.
pub fn safe_runs_end_well()
    ensures runs { SafeRunsEndWell }
    ensures rests { SafeRestsEndWell }
{}

/// The generated program observes exactly such a run, and ends as it does.
pub fn safe_code_ends_well()
    ensures { SafeCodeEndsWell }
{}

/// Where a host steps it, behind k calls it has observed start and k events and waits for a call more, or it is over by then, and not by an overflow or a
/// divisor of 0. So it is for up to 2^51 calls.
pub fn safe_steps_end_well()
    ensures { SafeStepsEndWell }
{}
