//! The static rules of a C program, tested: which name they blame, if any.
#![tactic(auto)]

mod bodies;
pub mod events;
pub mod names;
mod rules;

pub use names::Names;
pub use rules::{fault, static_rules};
