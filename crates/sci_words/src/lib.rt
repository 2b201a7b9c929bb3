//! The words of a command line: which command they spell, or none.
#![tactic(auto)]

pub mod command;
pub mod words;
