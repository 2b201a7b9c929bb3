//! Which answer is expected of which words and files, and what a command has once it is prepared.
#![tactic(auto)]

pub mod prepared;
pub mod told;
