//! The bulk diagram: a diagram of any size, made from a seed.
#![tactic(auto)]

mod data_block;
mod diagram;
mod laws;
mod objects;

pub use diagram::bulk_diagram;
pub use laws::{bulk_is_accepted, bulk_is_ready, forward_nets, restless_nets};
