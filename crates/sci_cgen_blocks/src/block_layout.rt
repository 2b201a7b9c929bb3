// Where a block's places lie.
ghost use Rattle.std.specs.Prelude.{◌≡◌, slice_index_or};

/// Where the places of a block lie in the arrays of a program. Places are counted from 0.
#[derive(Drop)]
pub struct BlockLayout {
    /// The number of the block, from 1.
    pub number: u32,
    /// Of each input the place of its first element, in the array of all output values.
    pub ins: Vec<u32>,
    /// The place of the first element of the outputs, in the same array.
    pub outs: u32,
    /// The place of the first value of the state, in the array of all states.
    pub state: u32,
    /// The place of the mask, in the array of all masks.
    pub mask: u32,
}

impl BlockLayout {
    /// The place of the first element of an input, counted from 0; 0 where there is no such input.
    pub(crate) fn input(&self, port: u32) -> u32
        ensures { result ≡ slice_index_or self.now.ins.items port 0 }
    {
        let at = port as usize;
        if at < self.ins.len() { self.ins[at] } else { 0 }
    }
}
