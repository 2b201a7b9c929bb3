// The line that tells a refusal.
mod line;

pub use line::{put_place, put_refused};
