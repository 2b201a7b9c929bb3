// Which activation outputs feed which activation inputs.
ghost use Rattle.std.specs.Prelude.{◌≡◌, ◌≤◌, [], length};
ghost use Rattle.sci_net.specs.Parts.{numbered, rows_of, feed_lists, HaveLists};

use crate::Feed;
use std::marker::Model;

/// Which activation outputs feed each activation input. Inputs that are fed alike can share one list.
#[derive(Drop)]
pub struct Feeds {
    // activation outputs
    lists: Vec<Vec<Feed>>,
    // by block and activation input, the number of its list, counted from 0
    numbers: Vec<Vec<u32>>,
}

impl Model for Feeds {
    ghost use Rattle.std.specs.Prelude.{List, length};
    ghost use Rattle.sci_net.specs.declared.Feed.{Feed};
    ghost use Rattle.sci_net.specs.Parts.{rows_of, feed_lists, HaveLists};

    ghost Value = { List (List (List Feed)) };

    ghost view = { λ f. feed_lists (rows_of f.lists.items) (rows_of f.numbers.items) };

    ghost invariant = { λ f. HaveLists (length f.lists.items) (rows_of f.numbers.items) };
}

impl Feeds {
    /// These lists, and for each block and each of its activation inputs, in order, the number of its list, counted from 0.
    pub fn new(lists: Vec<Vec<Feed>>, numbers: Vec<Vec<u32>>) -> Feeds
        requires { HaveLists (length lists.items) (rows_of numbers.items) }
        ensures { result ≡ feed_lists (rows_of lists.items) (rows_of numbers.items) }
    {
        Feeds { lists, numbers }
    }

    /// The activation outputs that feed an activation input.
    pub fn of(&self, block: u32, input: u32) -> &[Feed]
        requires block_least { 1 ≤ block }
        requires block_most { block ≤ length self.now }
        requires input_least { 1 ≤ input }
        requires input_most { input ≤ length (numbered [] self.now block) }
        ensures { result.now ≡ numbered [] (numbered [] self.now block) input }
    {
        let number = self.numbers[block as usize - 1][input as usize - 1];
        self.lists[number as usize].as_slice()
    }
}
