// What activates each block, as it is kept.
ghost use Rattle.std.specs.Prelude.{◌≡◌, ◌<◌, ◌≤◌, ◌↔◌, [], length, Contains, IsTrue, slice_index_or};
ghost use Rattle.sci_loop.specs.Lists.{plain, list_at};
ghost use Rattle.sci_net.specs.Parts.{numbered, AreRising, precedes};

use crate::Fed;
use sci_net::Feed;
use std::marker::Model;

/// What activates each block of a net.
#[derive(Drop)]
pub struct Reach {
    pub(crate) always: Vec<Vec<u32>>,
    pub(crate) feeding: Vec<Vec<Fed>>,
    pub(crate) branches: Vec<Vec<Feed>>,
    pub(crate) onward: Vec<Vec<u32>>,
}

impl Model for Reach {
    ghost use Rattle.sci_loop.specs.Lists.{plain};
    ghost use Rattle.sci_inherit.specs.Origins.{Origins};

    ghost Value = { Origins };

    ghost view = { λ r. record {
      always = plain r.always.items;
      feeding = plain r.feeding.items;
      branches = plain r.branches.items;
      onward = plain r.onward.items;
    } };
}

impl Reach {
    /// The blocks that a source activates whatever the values are, each once: those that it sets off, and those that inherit from them. The
    /// source is given by its place in the net's order, where 0 is start.
    pub fn always(&self, source: u32) -> &[u32]
        requires { source < length self.now.always }
        ensures { result.now ≡ list_at self.now.always source }
    {
        self.always[source as usize].as_slice()
    }

    /// The activation inputs that a source feeds, by block and input, each once.
    pub fn feeding(&self, source: u32) -> &[Fed]
        requires { source < length self.now.feeding }
        ensures { result.now ≡ list_at self.now.feeding source }
    {
        self.feeding[source as usize].as_slice()
    }

    /// The activation outputs that reach a block, of synchronous blocks that some source may activate, by block and port: those that feed
    /// it, or a block from which it inherits.
    pub fn branches(&self, block: u32) -> &[Feed]
        requires least { 1 ≤ block }
        requires most { block ≤ length self.now.branches }
        ensures { result.now ≡ numbered [] self.now.branches block }
    {
        self.branches[block as usize - 1].as_slice()
    }

    /// For each number, from 0 on, the blocks that a branch of the synchronous block of this number reaches, each once; none for another
    /// block, and for 0, which is no block.
    pub fn onward(&self) -> &[Vec<u32>]
        ensures { plain result.now ≡ self.now.onward }
    {
        self.onward.as_slice()
    }
}

// Whether one feed stands before another, by block and port.
fn is_before(left: Feed, right: Feed) -> bool
    ensures { result ≡ precedes left right }
{
    left.block < right.block || (left.block == right.block && left.port < right.port)
}

// Whether an activation output stands at a place.
fn is_at(feeds: &[Feed], at: usize, feed: Feed) -> bool
    ensures { IsTrue result ↔ ((at < length feeds.now) × (slice_index_or feeds.now at feed ≡ feed)) }
{
    at < feeds.len() && feeds[at] == feed
}

/// Whether an activation output is among these, which are sorted by block and port, without repeats.
pub fn contains(feeds: &[Feed], feed: Feed) -> bool
    requires { AreRising feeds.now }
    ensures { IsTrue result ↔ Contains feeds.now feed }
{
    let at = feeds.partition_point(
        |each: &Feed| -> bool
            ensures { result ≡ precedes each.now feed }
        { is_before(*each, feed) },
    );
    is_at(feeds, at, feed)
}
