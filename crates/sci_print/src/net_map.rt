// The map of a net: a line for each block, with its number, its place in the diagram, the name of its kind, and the types and sizes of its
// outputs.
mod map;

pub use map::write_map;
