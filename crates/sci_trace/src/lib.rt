//! The text of a trace: a line for each observation of a run.
#![tactic(auto)]

pub mod inputs;
mod write;

pub use write::{write_obs, write_value};
