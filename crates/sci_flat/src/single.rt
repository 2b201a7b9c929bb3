// At most one output feeds a regular input: a law of the rules on superblock ports and links.
ghost use Rattle.sci_flat.specs.Laws.{OneBefore, NoneInto, OwnPlace, OneSource};

/// In a diagram that breaks no rule no two steps between ports lead to the same regular port.
pub fn one_before()
    ensures { OneBefore }
{}

/// Each block has a place of its own, and no step leads to an output of a block: such a port is where chains begin.
pub fn blocks_begin()
    ensures places { OwnPlace }
    ensures outputs { NoneInto }
{}

/// A regular input has at most one source: chains of steps from two outputs of blocks to it are from the same output of the
/// same block.
pub fn one_source()
    ensures { OneSource }
{}
