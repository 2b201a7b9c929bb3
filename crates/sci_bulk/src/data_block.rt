// The data blocks of a bulk diagram, drawn one after the other.
ghost use Rattle.std.specs.Prelude.{◌≡◌, ◌≤◌, ◌<◌, ◌^◌, length, IfOk};
ghost use Rattle.sci_bulk.specs.Bulk.{stepped, drawn, data_block, behind_block, data_blocks};

use sci_base::NoMemory;
use std::alloc::Global;

/// A data block. It names the data blocks that feed it by their numbers, from 1.
#[derive(Clone, Copy, Drop)]
pub enum DataBlock {
    /// The constant 1.
    One,
    /// The delay of a data block's value, activated by a clock: the clock's number, from 1, and the data block.
    Delay(u32, u32),
    /// The sum of two data blocks' values.
    Sum(u32, u32),
    /// Three times a data block's value.
    Triple(u32),
}

// The number behind a draw.
#[tactic(auto, unfolding(crate::specs::Bulk::stepped))]
fn stepped(x: u32) -> u32
    ensures { result ≡ stepped x }
{
    ((1_664_525 * u64::from(x) + 1_013_904_223) % 4_294_967_296) as u32
}

// What a draw gives that leaves this number.
#[tactic(auto, unfolding(crate::specs::Bulk::drawn))]
fn drawn(x: u32) -> u32
    ensures value { result ≡ drawn x }
    ensures small { result < 2 ^ 16 }
{
    x / 65_536
}

// The data block of number i, drawn behind this number.
#[tactic(auto, unfolding(crate::specs::Bulk::data_block))]
fn data_block(i: u32, x: u32) -> DataBlock
    requires least { 2 ≤ i }
    requires most { i ≤ 2000 }
    ensures { result ≡ data_block i x }
{
    let choice = stepped(x);
    let first = stepped(choice);
    let second = stepped(first);
    let a = 1 + drawn(first) % (i - 1);
    let b = 1 + drawn(second) % (i - 1);
    match drawn(choice) % 3 {
        0 => DataBlock::Delay(1 + (a + b) % 8, a),
        1 => DataBlock::Sum(a, b),
        _ => DataBlock::Triple(a),
    }
}

// The number behind the three draws of a data block.
#[tactic(auto, unfolding(crate::specs::Bulk::behind_block))]
fn behind_block(x: u32) -> u32
    ensures { result ≡ behind_block x }
{
    stepped(stepped(stepped(x)))
}

/// The data blocks of a bulk diagram, by number.
pub(crate) fn data_blocks(alloc: Global, seed: u32, size: u32) -> Result<Vec<DataBlock>, NoMemory>
    requires least { 1 ≤ size }
    requires most { size ≤ 2000 }
    ensures blocks { IfOk result (λ blocks. blocks.items ≡ data_blocks seed size) }
    ensures long { IfOk result (λ blocks. length blocks.items ≡ size) }
{
    let mut blocks = Vec::new(alloc);
    blocks.push(DataBlock::One)?;
    let mut x = seed;
    for i in 2..size + 1 {
        blocks.push(data_block(i, x))?;
        x = behind_block(x);
    }
    Ok(blocks)
}
