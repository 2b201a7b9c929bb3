//! Finds a table of ranges for a net and an input file: what each signal, each held value and each state of every run may be. A table that it gives
//! passed the test that no rule widens it.
#![tactic(auto)]

mod beside;
mod finding;
mod first;
mod following;
mod live;
mod pass;
mod reads;
mod search;
mod table;
mod thresholds;
mod widest;

pub use finding::{Found, find};
pub use pass::is_possible;
pub use table::RangeTable;
