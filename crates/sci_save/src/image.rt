/// What is saved of a run behind a reaction. Lists go by block, in the order of the net's blocks.
#[derive(Drop)]
pub struct Image {
    /// How many events have fired, at most 1,000,000.
    pub fired: u64,
    /// The date of the last reaction, in ticks, at most 2^62.
    pub now: u64,
    /// The state of each block, which has no values where the kind has no state.
    pub states: Vec<Vec<i64>>,
    /// The values that each block's regular outputs hold, by port and element.
    pub held: Vec<Vec<i64>>,
    /// How many values of its column each sensor has taken; 0 for any other block.
    pub cursors: Vec<u64>,
    /// The pending events in the order in which they fire: the date, less than 2^31 ticks past `now`, and the place of the activation output
    /// among the sources of the net.
    pub pending: Vec<(u64, u32)>,
}
