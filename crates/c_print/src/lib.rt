//! Writes programs of the C subset in their one spelling.
#![tactic(auto)]

mod expression;
mod line;
mod printer;
mod program;
mod statement;

pub use program::print;
