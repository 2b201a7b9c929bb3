//! Writes what is expected of a prepared command, as far as the sinks take it, and gives its status.
#![tactic(auto)]

pub mod deliver;
mod judged;
mod probe;
mod rest;
mod run_dump;
