//! Laws of what `ranges` tells: what it says of the runs of `simulate`, of those that `resume` goes on with, and of the C of `ccode`.
#![tactic(auto)]

ghost use Rattle.sci_range_command_laws.specs.Answers.{CodeIsWithin, RefusesAlike, ResumedIsWithin, SimulatedIsWithin};
ghost use Rattle.sci_range_command_laws.specs.Runs.{RestsAreTold, RunsAreTold, SafeHasNoFaults, SavedAreHeld};

/// Where no rule widens a table, each value that a run shows is within it, each stop is listed, and only blocks that may act show anything; on each
/// input file whose columns keep within the given ones. So it is of the run that goes on from what was saved, on another such file and by other bounds,
/// and what was saved is within the table too. A table that is safe tells no overflow and no division by 0.
pub fn runs_are_told()
    ensures runs { RunsAreTold }
    ensures rests { RestsAreTold }
    ensures saved { SavedAreHeld }
    ensures safe { SafeHasNoFaults }
{}

/// A refusal is due of `ranges` where the same is due of `simulate` on these files, whatever its bounds are.
pub fn refuses_alike()
    ensures { RefusesAlike }
{}

/// Where `ranges` is due to tell a table of a diagram and an input file, what is due of `simulate` on the diagram and an input file whose columns keep
/// within that one's is within the table; and where the last line is `safe`, it ends by no overflow and no division by 0.
pub fn simulated_is_within()
    ensures { SimulatedIsWithin }
{}

/// The same of what is due of `resume`, on what is due of `save` for such a run, with another such input file and any bounds.
pub fn resumed_is_within()
    ensures { ResumedIsWithin }
{}

/// The same of what is due of `crun` on the bytes that are due of `ccode`, within the bounds of a C file and of a command line.
pub fn code_is_within()
    ensures { CodeIsWithin }
{}
