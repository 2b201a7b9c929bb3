//! Flat nets: blocks without superblocks and pass-through objects, numbered from 1 in tree order, and which port feeds which. A
//! `Flat` has the types and sizes that the diagram declares, a `Net` those that were inferred.
#![tactic(auto)]

mod feeds;
mod flat;
mod net;
mod wiring;

pub use feeds::Feeds;
pub use flat::Flat;
pub use net::{Column, Net, columns};
pub use wiring::Wiring;

/// The regular output that feeds a regular input; block and port are counted from 1.
#[derive(Clone, Copy, Drop)]
pub struct Wire {
    pub block: u32,
    pub port: u32,
}

/// An activation output that feeds an activation input; block and port are counted from 1.
#[derive(Clone, Copy, Drop, PartialEq, Eq)]
pub struct Feed {
    pub block: u32,
    pub port: u32,
}

/// What sets off a reaction: the start of a run, or an event of an activation output.
#[derive(Clone, Copy, Drop)]
pub enum Source {
    Start,
    Port(Feed),
}
