//! Builds the C program of a net: its blocks, its schedule, its pending events and its run.
#![tactic(auto)]

mod generator;

pub use generator::emit;
