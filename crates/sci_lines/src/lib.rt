//! Lines of a reaction: how the line of a value starts, numbers in digits, and lines that wait before a sink.
#![tactic(auto)]

mod digit_table;
mod head;
mod lines;
mod pieces;

pub use head::Head;
pub use lines::Lines;
