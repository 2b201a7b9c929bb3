//! The commands: `top` does what the words ask for.
#![tactic(auto)]

pub mod top;
