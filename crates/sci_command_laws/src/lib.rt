//! Laws of the answers: that one is due; between the commands, what one is due on what another wrote; and of which commands a status comes.
#![tactic(auto)]

ghost use Rattle.sci_command_laws.specs.OneAnswer.{OneAnswer, OneAnswerOfBytes};
ghost use Rattle.sci_answers.specs.Defined.{DefinedCodeIsDue};
ghost use Rattle.sci_command_laws.specs.BulkRuns.{BulkEndsByEvents};
ghost use Rattle.sci_command_laws.specs.Ran.{CodeIsDefined, CodeRunsAlike, CodeRunsOnlySo};
ghost use Rattle.sci_command_laws.specs.DumpRuns.{DumpTellsRun};
ghost use Rattle.sci_command_laws.specs.Resumed.{ResumeIsDue, ResumesAlike};
ghost use Rattle.sci_command_laws.specs.RunsDue.{DumpIsDue, SaveIsDue};
ghost use Rattle.sci_command_laws.specs.Judging.{JudgeSaysYes, JudgeSaysYesOfNothingElse};
ghost use Rattle.sci_command_laws.specs.Statuses.{EachHasItsStatuses, EightIsOfJudge, SevenIsOfCrun, SixIsOfRuns};
ghost use Rattle.sci_command_laws.specs.Generated.{CodeIsNeverUndefined};
ghost use Rattle.sci_command_laws.specs.Counted.{CountsAddUp, StoppedCountsAddUp};

/// Of the words and the files' bytes at most one answer is due, with one list of names that are read for it, and the files tell their bytes;
/// but that any loop of the least source that has one may be told, and of `ccode` the text of any such program of the plan.
pub fn one_answer_is_due()
    ensures told { OneAnswer }
    ensures bytes { OneAnswerOfBytes }
{}

/// The text of the program that `sci_program` defines for the plan of a diagram is one of those that are due of `ccode`. It is the one that `top` gives.
pub fn defined_code_is_due()
    ensures { DefinedCodeIsDue }
{}

/// Where `simulate` on a diagram and an input file is due to run, and the bytes that are due of `ccode` on this diagram are no more than a C file
/// may have, `crun` on these bytes, with the same input file and the same bounds, is due the same answer, and no other: the same bytes and the
/// same status.
pub fn code_runs_alike()
    ensures alike { CodeRunsAlike }
    ensures only { CodeRunsOnlySo }
{}

/// Where `simulate` on a diagram and an input file is due to run, with the same files and bounds what is saved behind each of its reactions but the
/// last is due of `save`, and behind the last a refusal with how many there are; and a dump is due of `vcd`, with the same status.
pub fn runs_are_due()
    ensures saved { SaveIsDue }
    ensures dumped { DumpIsDue }
{}

/// Where `simulate` on a diagram and an input file is due to run, and `save` is due to save this run behind a reaction, `resume` on these bytes, with
/// the same diagram, input file and bounds, is due to go on: the lines of the reactions up to that one, and then what is due of `resume`, are what is
/// due of `simulate`, with the same status.
pub fn saved_runs_go_on()
    ensures alike { ResumesAlike }
    ensures due { ResumeIsDue }
{}

/// The run of which `bulk` tells ends by the bound on events.
pub fn bulk_ends_by_events()
    ensures { BulkEndsByEvents }
{}

/// Where a diagram is accepted and an input file has what its sensors need, what is due of `crun` on the bytes that are due of `ccode` has status 0
/// or 6, and never 7.
pub fn code_is_defined()
    ensures { CodeIsDefined }
{}

/// Where `vcd` on a diagram and an input file is due to run, and the bytes that are due are no more than a dump's file may have, `vcdat` on these
/// bytes is due to tell, at any tick, what the outputs hold behind the last reaction up to it, and nothing else.
pub fn dump_tells_run()
    ensures { DumpTellsRun }
{}

/// Where `simulate` on a diagram and an input file is due to run, `judge`, with the same files and bounds, is due to say yes, with the number of
/// observations, of a file with the bytes that are due of `simulate`, if these are no more than such a file may have; and yes is due of no others.
pub fn judge_says_yes_of_the_trace_alone()
    ensures yes { JudgeSaysYes }
    ensures only { JudgeSaysYesOfNothingElse }
{}

/// What is due of a command has one of the statuses of this command, and 2 is that of words that are no command. So 8 is due of `judge` alone, with
/// no and a line; 7 of `crun` alone, with the statement that has no meaning; and 6 of `simulate`, `resume`, `crun` and `vcd` alone.
pub fn statuses_of_their_commands()
    ensures each { EachHasItsStatuses }
    ensures eight { EightIsOfJudge }
    ensures seven { SevenIsOfCrun }
    ensures six { SixIsOfRuns }
{}

/// Where a diagram is accepted, what is due of `crun` on the bytes that are due of `ccode` has status 0, 1 or 6, and never 7, however long these bytes
/// and the input file are. If the input file is columns, they must have what the diagram's sensors need.
pub fn generated_code_is_never_undefined()
    ensures { CodeIsNeverUndefined }
{}

/// Where the run of a net has ended, the sum of what the banks of all kinds have counted is how many blocks were active, over all its reactions. Where
/// a reaction stopped it, that is at least how many were active before, and at most one more for each block that its source may activate.
pub fn counts_add_up()
    ensures ended { CountsAddUp }
    ensures stopped { StoppedCountsAddUp }
{}
