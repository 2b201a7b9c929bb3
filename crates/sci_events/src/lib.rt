//! The pending events of a net as a list: at each step all of them are looked at for the one that fires next.
#![tactic(auto)]

mod events;

pub use events::{Event, Events};
