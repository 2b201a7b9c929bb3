// Lists by number, and which numbers some starts lead to along lists of successors.
mod lists;
mod walk;

pub use lists::{empty_lists, push_at};
pub use walk::Walk;
