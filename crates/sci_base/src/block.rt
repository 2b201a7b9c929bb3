// The fields of a block.

/// What a block's `model` says, with each list as the file has it. An absent list is empty.
#[derive(Drop)]
pub struct BlockFields {
    /// The rows of the regular inputs.
    pub ins: Vec<i64>,
    /// The columns of the regular inputs; empty means one each.
    pub in2: Vec<i64>,
    /// The type codes of the regular inputs.
    pub intyp: Vec<i64>,
    /// The rows of the regular outputs.
    pub outs: Vec<i64>,
    /// The columns of the regular outputs; empty means one each.
    pub out2: Vec<i64>,
    /// The type codes of the regular outputs.
    pub outtyp: Vec<i64>,
    /// The number of activation inputs.
    pub evtin: u32,
    /// The number of activation outputs.
    pub evtout: u32,
    /// The initial discrete state.
    pub dstate: Vec<i64>,
    /// The integer parameters.
    pub ipar: Vec<i64>,
    /// The initial delays of the activation outputs, in ticks.
    pub firing: Vec<i64>,
    /// What `dep_ut` says; absent, the kind's own direct feedthrough holds.
    pub dep: Option<Dep>,
}

/// What `dep_ut` says of a block.
#[derive(Drop)]
pub struct Dep {
    /// Which regular inputs have direct feedthrough.
    pub part: DirectFeedthrough,
    /// Whether the block is always active.
    pub always: bool,
}

/// Which regular inputs have direct feedthrough.
#[derive(Drop)]
pub enum DirectFeedthrough {
    /// All of them, or none but those of the kind.
    All(bool),
    /// Each as its truth says, in order.
    Each(Vec<bool>),
}
