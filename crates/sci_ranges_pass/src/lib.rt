//! The pass over a table of ranges: whether a rule widens it, as a test over lists, and that a table which passes is one that no rule widens.
#![tactic(auto)]

ghost use Rattle.sci_ranges_pass.specs.Laws.{ClosedByTest, LiveByTest, PossibleByTest, WidestPasses};

/// A table that passes is one that no rule widens.
pub fn closed_by_test()
    ensures { ClosedByTest }
{}

/// Marks that pass have each live source.
pub fn live_by_test()
    ensures { LiveByTest }
{}

/// A block that some live source may activate passes the test of it.
pub fn possible_by_test()
    ensures { PossibleByTest }
{}

/// Where no branch is dead, the table in which everything may be any number of its type passes.
pub fn widest_passes()
    ensures { WidestPasses }
{}
