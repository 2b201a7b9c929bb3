// The ports of a diagram by numbers, and the steps between them: along links, through splits and unions, between a superblock's ports
// and the port blocks inside, and from what gives a tag to what takes it.
mod link;
mod numbered;
mod numberer;
mod port_numbers;
mod tags;
mod through;

pub use numbered::{Numbered, number};
pub use port_numbers::PortNumbers;
pub(crate) use tags::join_tags;
