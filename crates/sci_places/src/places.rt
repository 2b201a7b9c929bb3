// The places of a net's values.
ghost use Rattle.std.specs.Prelude.{◌≡◌, ◌≤◌, take, length, IfOk};

use crate::laying::{block_place, starts};
use sci_base::NoMemory;
use sci_net::Net;
use sci_span::{Place, Span, spans_length};
use std::alloc::Global;
use std::marker::Model;

/// Where the values of a net lie in one list of the values of all outputs, by block, port and element. Blocks are counted from 1.
#[derive(Drop)]
pub struct Places {
    blocks: Vec<Place>,
    longest: usize,
}

impl Model for Places {
    ghost use Rattle.sci_places.specs.Layout.{Layout};

    ghost Value = { Layout };

    ghost view = { λ p. record { blocks = p.blocks.items; longest = p.longest } };
}

impl Places {
    ghost use Rattle.sci_places.specs.Layout.{IsLayout, place_at};
    ghost use Rattle.sci_span.specs.Values.{gathered, spans_length, AreWithin};

    /// The places of a net's values.
    pub fn new(alloc: Global, net: &Net) -> Result<Places, NoMemory>
        ensures { IfOk result (λ p. IsLayout net.now p) }
    {
        net.well_formed();
        let starts = starts(alloc, net)?;
        let mut blocks = Vec::with_capacity(alloc, net.len() as usize)?;
        let mut longest = 1;
        for block in 0..net.len() {
            let place = block_place(alloc, net, &starts, block + 1)?;
            longest = longest.max(spans_length(place.ins.spans()));
            blocks.push(place)?;
        }
        Ok(Places { blocks, longest })
    }

    /// How many values go into a block at most, and at least 1.
    pub fn longest(&self) -> usize
        ensures { result ≡ self.now.longest }
    {
        self.longest
    }

    /// Where the values of each block lie, by block.
    #[inline(always)]
    pub fn blocks(&self) -> &[Place]
        ensures { result.now ≡ self.now.blocks }
    {
        &self.blocks
    }

    /// Where the outputs of a block lie.
    pub fn outs(&self, block: u32) -> Span
        requires least { 1 ≤ block }
        requires most { block ≤ length self.now.blocks }
        ensures { result ≡ (place_at self.now block).outs }
    {
        self.blocks[block as usize - 1].outs
    }

    /// Where the outputs lie that feed the inputs of a block, in the order of its inputs.
    pub fn ins(&self, block: u32) -> &[Span]
        requires least { 1 ≤ block }
        requires most { block ≤ length self.now.blocks }
        ensures { result.now ≡ (place_at self.now block).ins }
    {
        self.blocks[block as usize - 1].ins.spans()
    }

    /// Copies the values on all inputs of a block, one behind the other. The answer is how many they are.
    pub fn gather(&self, block: u32, values: &[i64], ins: &mut [i64]) -> usize
        requires least { 1 ≤ block }
        requires most { block ≤ length self.now.blocks }
        requires within { AreWithin values.now (place_at self.now block).ins }
        requires room { spans_length (place_at self.now block).ins ≤ length ins.old }
        ensures count { result ≡ spans_length (place_at self.now block).ins }
        ensures copied { take result ins.new ≡ gathered values.now (place_at self.now block).ins }
    {
        self.blocks[block as usize - 1].ins.gather(values, ins)
    }
}
