//! The outside of the program: folders that files are read from, and sinks that take bytes.
#![tactic(auto)]

mod asked;
mod buffered;
mod disk;
mod folder;
mod memory_folder;
mod memory_sink;
mod pieces;
mod real_folder;
mod real_sink;
mod sink;
mod sure;
mod transfer;

pub use buffered::BufferedSink;
pub use disk::{Disk, Machine};
pub use folder::{Folder, ReadEnd};
pub use memory_folder::MemFolder;
pub use memory_sink::MemSink;
pub use pieces::put_all;
pub use real_folder::RealFolder;
pub use real_sink::RealSink;
pub use sink::{Failed, Sink};
pub use sure::SureSink;
