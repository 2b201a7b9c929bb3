//! The C program of a net and its schedule: what it is, what its memory shows of a run, and what is promised of it. It knows no code that builds it.
#![tactic(auto)]

mod part;

pub use part::Part;
