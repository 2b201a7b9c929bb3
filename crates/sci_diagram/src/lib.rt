//! Reads a diagram from JSON (RFC 8259): the fields of `scs_m`, with the diagrams inside superblocks.
#![tactic(auto)]

mod counts;
mod diagram;
mod fields;
mod from_bytes;
mod keys;
mod laws;
mod links;
mod model;
mod numbers;
mod pass_through;
mod places;
mod sorts;
mod table;
mod walk;

pub use counts::{count_blocks, count_links};
pub use diagram::{BlockObj, Diagram, End, LinkObj, Obj};
pub use from_bytes::read;
pub use laws::{one_diagram, one_verdict, one_violation};
pub use pass_through::{is_pass_through, is_tag};
pub use places::child;
pub use sorts::{ObjectRole, Sort};
