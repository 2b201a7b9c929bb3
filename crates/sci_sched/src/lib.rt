//! The static schedules of a net, and the algebraic loop that forbids them. For each source of activation, a schedule has the blocks that
//! the source may activate, each after those that it depends on, and says when they are active.
#![tactic(auto)]

mod depth;
mod marks;
mod masks;
mod measured;
mod outline;
mod planning;
mod ranks;
mod refusals;
mod rows;
mod schedule;
mod sizes;
mod write;

pub use measured::{Size, one_size};
pub use planning::{measure, plan};
pub use schedule::Schedule;
pub use sci_reaction::{Entry, Guard};
pub use write::write_plan;
