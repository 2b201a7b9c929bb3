//! The check of one block's fields against the form of its kind, and the spec that they give.
#![tactic(auto)]

ghost use Rattle.sci_check.specs.Laws.{CheckedLaw};

pub mod check;

pub use check::check_spec;

/// What the check gives has the counts and values that its kind's form asks.
pub fn checked_law()
    ensures { CheckedLaw }
{}
