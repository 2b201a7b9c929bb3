// The bounds that files and runs keep.

/// The most bytes of a diagram's file.
pub const DIAGRAM_BYTES: usize = 16777216;

/// The most bytes of an input file.
pub const INPUT_BYTES: usize = 16777216;

/// The most bytes of any other file: of a C text, a trace, a saved state, a dump.
pub const TEXT_BYTES: usize = 67108864;

/// The most levels of diagrams in diagrams.
pub const LEVELS: u32 = 16;

/// The most blocks that are neither superblocks nor pass-through objects.
pub const BLOCKS: u32 = 2048;

/// The most links over all levels.
pub const LINKS: u32 = 16384;

/// The most tag objects over all levels.
pub const TAGS: u32 = 1024;

/// The most inputs, and the most outputs, of a block: of values, and of activations.
pub const PORTS: u32 = 64;

/// The most elements of an output.
pub const PORT_ELEMENTS: u32 = 256;

/// The most elements of all outputs together.
pub const ALL_ELEMENTS: u32 = 65536;

/// The most entries and guards of the schedules.
pub const ENTRIES: u64 = 262144;

/// The greatest delay, in ticks.
pub const DELAY: i64 = 2147483647;

/// The greatest bound on time, in ticks: 2 to the 62.
pub const TICKS: u64 = 4611686018427387904;

/// The greatest bound on events.
pub const EVENTS: u64 = 1000000;
