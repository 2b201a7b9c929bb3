//! The rows of a schedule with the blocks that each source may activate, as code: which blocks may act, whether an input takes what its feeder
//! shows, under which branch a block acts alone, and which masks it may have.
#![tactic(auto)]

mod first_event;
mod indexed_row;
mod lists;
mod marking;
mod marks;
mod reading;

pub use first_event::first_place;
pub use indexed_row::IndexedRow;
pub use lists::truth_at;
pub use marking::may_program;
pub use marks::RowMarks;
