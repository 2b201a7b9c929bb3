//! What more is told of sums, as code: the difference that a sum follows, what it leaks, and the cells that come of it.
#![tactic(auto)]

mod following;
mod leaking;
mod parts;
mod shapes;
mod sums;

pub use following::{aim, same_wire};
pub use leaking::find_leak;
pub use parts::{Beside, Followed, Leak};
pub use shapes::is_sum;
pub use sums::told_sum;
