//! The blocks of a diagram with their specs, and the rules on each object and each link.
#![tactic(auto)]

mod block;
mod class;
mod counts;
mod fed;
mod joint;
mod laws;
mod link;
mod link_walk;
mod pass_through;
mod placed_block;
mod superblock;
mod tally;
mod walk;

pub use class::{LinkType, PortClass};
pub use joint::has_its_ports;
pub use laws::{blocks_law, links_law, names_law, numbers_law, read_law};
pub use link_walk::links;
pub use pass_through::PassThrough;
pub use placed_block::PlacedBlock;
pub use walk::parts;
