//! What more is told of switches, as code: the comparison that a switch looks at, the sums that it takes, and what it takes where its condition says so.
#![tactic(auto)]

mod looking;
mod numbers;
mod parts;
mod shapes;
mod taking;

pub use looking::{addition, comparison};
pub use parts::Choice;
pub use shapes::{compares, is_choice};
pub use taking::taken_ranges;
