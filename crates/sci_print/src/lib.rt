//! Prints the lines of commands: of a refusal, of a word and numbers, of the map of a net, and of the values of a dump.
#![tactic(auto)]

pub mod net_map;
pub mod numbers;
pub mod report;
pub mod values;
