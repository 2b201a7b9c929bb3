//! The events that wait, in the order in which they fire.
#![tactic(auto)]

pub mod agenda;
pub mod chain;
pub mod order;
pub mod wheel;
