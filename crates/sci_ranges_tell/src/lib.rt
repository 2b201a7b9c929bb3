//! Writes what is told of a table of ranges: a line for each range, each state, each stop and each idle block, and whether the table is safe.
#![tactic(auto)]

mod elements;
mod lines;
mod stops;
mod table;

pub use table::write_table;
