//! The files of a command: each is asked for once, and judged by its limit and its rules.
#![tactic(auto)]

pub mod dump;
pub mod look;
pub mod rules;
pub mod run_files;
pub mod saved;
pub mod told;
