//! What each kind of block makes of intervals: beside each row of its meaning a rule that tells, from the intervals of a block's states and
//! inputs, which values each element of its outputs may have, which stops may be, and what its next state may be. The laws say that the rules
//! cover the meaning, whatever states, inputs and activation inputs there are.
#![tactic(auto)]

ghost use Rattle.sci_ranges_rules.specs.Laws.{RuleCovers, NextCovers, BranchCovers, ComparedCovers, RuleInType, NextInType};

mod patterns;

pub use patterns::Patterns;

/// Where the states, the mask and the inputs of a block are within the intervals, each element of its outputs is one of the cells that the rule of
/// its kind tells, a stop among them.
pub fn rule_covers()
    ensures { RuleCovers }
{}

/// The same of the next state.
pub fn next_covers()
    ensures { NextCovers }
{}

/// A synchronous block takes a branch on the numbers that take it alone.
pub fn branch_covers()
    ensures { BranchCovers }
{}

/// Where it is known how a comparison comes out, its inputs are numbers that may compare so.
pub fn compared_covers()
    ensures { ComparedCovers }
{}

/// Intervals of numbers of the types give such intervals.
pub fn rule_in_type()
    ensures { RuleInType }
{}

/// The same of the next state.
pub fn next_in_type()
    ensures { NextInType }
{}
