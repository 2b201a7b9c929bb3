//! The run of a net: its reactions one after another, over the schedule, the banks and the wheel of pending events, written as it
//! goes.
#![tactic(auto)]

mod end;
mod image;
mod laws;
mod programming;
mod reaction;
mod ready;
mod rest;
mod restore;
mod rows;

pub use end::{RunEnd, Step};
pub use laws::{a_step_may_be_done, the_banks_add_up, what_is_restored_is_saved};
pub use ready::Ready;
