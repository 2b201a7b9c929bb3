//! What is kept of a net's run: the values of all outputs, the cursors of sensors, the marks of a reaction, the lines that are written, and
//! what is counted; and the pass over the row of a source. It knows no schedule and no agenda.
#![tactic(auto)]

mod block;
mod entries;
mod frame;
mod heads;
mod marks;
mod pass;
mod row;
mod seats;
mod store;
mod tally;

pub use frame::Frame;
pub use marks::Mark;
pub use row::ReadyRow;
pub use seats::Seat;
pub use store::Store;
pub use tally::Tally;
