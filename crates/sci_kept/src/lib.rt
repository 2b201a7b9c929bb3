//! What a run keeps, as one value: the net with its tables, what changes from one reaction to the next, and the lines that wait. Its calls are the steps
//! of a reaction over a row.
#![tactic(auto)]

mod kept;

pub use kept::Kept;
