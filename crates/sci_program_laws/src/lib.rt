//! What the C program of a net means: the trace of the net, run to its end or stepped, and what its memory stands for between two events; and that it is
//! within the bounds and rules of the subset of C.
#![tactic(auto)]

ghost use Rattle.sci_program.specs.Laws.{ProgramHasBlockFunctions, ProgramIsWhole, ProgramMeansRun};
ghost use Rattle.sci_program.specs.Stepping.{ProgramSteps};
ghost use Rattle.sci_program_laws.specs.Memory.{ProgramFollowsRun};

/// On every input file in range and within all bounds the program of a net and its schedule's rows
/// observes exactly the trace of the net, and ends as its run does. So it is never undefined.
pub fn program_law()
    ensures { ProgramMeansRun }
{}

/// Begun, and then stepped by a host that calls the function of one event itself, it observes exactly
/// the reactions of start and of as many events, or, where the run has fewer, all of it; and behind
/// each call a scalar holds the date of the next event, or -1.
pub fn steps_law()
    ensures { ProgramSteps }
{}

/// Begun, its memory stands for the state behind the reaction of start. From any memory that stands
/// for a state of the run one call of the function of one event observes the reaction of the next
/// event and leaves memory that stands for the state behind it; or it observes the stop of that
/// reaction, or the end of the run. A scalar of such a memory holds the date of the next event, or -1.
pub fn event_law()
    ensures { ProgramFollowsRun }
{}

/// It keeps the bounds of the subset of C and its static rules.
pub fn whole_law()
    ensures { ProgramIsWhole }
{}

/// Each block has exactly one function, which as many calls name as the schedule has entries of the
/// block; without an entry its body is empty.
pub fn block_functions_law()
    ensures { ProgramHasBlockFunctions }
{}
