//! What all texts of a generated program go by: its names, where the values of its blocks lie, and what its net has.
#![tactic(auto)]

mod block_layouts;
pub mod names;
mod net_parts;

pub use block_layouts::{layout, layouts, row, scheduled};
pub use net_parts::{
    due_table, has_groups, has_halt, has_several, has_sync, is_marked, port_count,
};
