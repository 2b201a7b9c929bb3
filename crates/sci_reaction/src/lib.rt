//! What a reaction of a net is: which blocks a source of activation may activate, which are active, the equations that their values
//! meet, what depends on what, the result, and the schedule of a source. The laws, each the contract of a function, say that a
//! source without an algebraic loop has exactly one result, whatever the memory and the input are, and that one pass over its
//! schedule finds it.
#![tactic(auto)]

ghost use Rattle.sci_reaction.specs.Laws.{OneDepth, DepthRises, OneSolution, AtMostOneResult, SomeResult, ExactlyOneResult, SomeRow, OneRow, SomeSchedule};
ghost use Rattle.sci_reaction.specs.Laws.{OneSchedule, SourcesAreListed, PassFindsResult, PassBegins, PassGoesOn, PassEnds, EntriesAreExact};
ghost use Rattle.sci_reaction.specs.Laws.{MasksAreExact, OthersAreIdle, MasksInRange, InputsInRange, SignalsInRange, SomeNextMemory, OneNextMemory};
ghost use Rattle.sci_reaction.specs.Laws.{NextInRange, FirstInRange};
ghost use Rattle.sci_reaction.specs.Worked.{LoopThroughCondition, LoopOfFeedthrough, NoLoopAtOtherTimes, OtherTimesIsNet, NoLoopIntoFirst, LoopIntoSecond};
ghost use Rattle.sci_reaction.specs.Worked.{CountingStarts, OverflowStops};

mod entry;

pub use entry::{Entry, Guard};

/// Without a loop each possible block has one depth, greater than that of what it depends on.
pub fn depths()
    ensures one { OneDepth }
    ensures rises { DepthRises }
{}

/// Without a loop two assignments of values that meet the equations of all blocks are the same, and activate the same blocks.
pub fn one_solution()
    ensures { OneSolution }
{}

/// Without a loop a reaction has exactly one result: values, or a stop at the first block by depth and number that has none.
pub fn one_result()
    ensures most { AtMostOneResult }
    ensures some { SomeResult }
    ensures exactly { ExactlyOneResult }
{}

/// Without a loop a source has exactly one row, and a net exactly one schedule. The sources are start and the activation outputs
/// of blocks that aren't synchronous.
pub fn one_schedule()
    ensures some_row { SomeRow }
    ensures one_row { OneRow }
    ensures some { SomeSchedule }
    ensures one { OneSchedule }
    ensures sources { SourcesAreListed }
{}

/// One pass over the schedule of a source, from the held values, finds the result.
pub fn pass_finds_result()
    ensures { PassFindsResult }
{}

/// The same in steps: what is known before the first entry, at each next one, and after the last.
pub fn pass_in_steps()
    ensures begins { PassBegins }
    ensures goes_on { PassGoesOn }
    ensures ends { PassEnds }
{}

/// The entries of a schedule say which blocks are active, and on which activation inputs, whatever the values are.
pub fn entries_are_exact()
    ensures entries { EntriesAreExact }
    ensures masks { MasksAreExact }
    ensures others { OthersAreIdle }
{}

/// Masks and values are in range where the memory and the input file are.
pub fn in_range()
    ensures masks { MasksInRange }
    ensures inputs { InputsInRange }
    ensures signals { SignalsInRange }
{}

/// Values leave exactly one memory, which is in range where they and the memory before are; the first memory is in range.
pub fn next_memory()
    ensures some { SomeNextMemory }
    ensures one { OneNextMemory }
    ensures in_range { NextInRange }
    ensures first { FirstInRange }
{}

/// The definitions say what was worked out by hand for small nets: a loop through a condition, a loop of feedthrough, a cycle of the
/// drawing that is no loop, since its blocks are activated at different times, and one through a gated delay, which is a loop where it
/// leads through the second input, and none where it leads through the first.
pub fn worked_loops()
    ensures condition { LoopThroughCondition }
    ensures feedthrough { LoopOfFeedthrough }
    ensures none { NoLoopAtOtherTimes }
    ensures net { OtherTimesIsNet }
    ensures first_input { NoLoopIntoFirst }
    ensures second_input { LoopIntoSecond }
{}

/// The same of reactions: a first sum, and a stop.
pub fn worked_reactions()
    ensures values { CountingStarts }
    ensures stop { OverflowStops }
{}
