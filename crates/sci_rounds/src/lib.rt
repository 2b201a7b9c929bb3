//! Laws of a reaction by rounds, without a schedule: in each round the possible blocks all of whose dependencies are done, by number. It comes
//! to the one result of the reaction, stops included.
#![tactic(auto)]

ghost use Rattle.sci_rounds.specs.Laws.{ReadyIsNext, AllDoneIsWhole, ReadyIsAlike, RoundsBegin, RoundsGoOn, EarlierAreDone, SomeIsReady};

/// A block all of whose dependencies are done may be done next, whatever the order of the others was: it is active where the source or a
/// taken branch reaches it, and then has its values or stops the reaction. Once all possible blocks are done the values are those of the reaction.
pub fn ready_is_next()
    ensures next { ReadyIsNext }
    ensures whole { AllDoneIsWhole }
{}

/// It is active just as well, on the same activation inputs, and gives the same on all values that are the same at the blocks that are done.
pub fn ready_is_alike()
    ensures { ReadyIsAlike }
{}

/// Each round does the possible blocks of the next depth. So where a round goes by number, all that stands before a block by depth and number
/// is done before it.
pub fn rounds_go_by_depth()
    ensures begin { RoundsBegin }
    ensures go_on { RoundsGoOn }
    ensures earlier { EarlierAreDone }
{}

/// Where a source has no loop there is a ready block until all are done.
pub fn some_is_ready()
    ensures { SomeIsReady }
{}
