// What a net has beside its specs.
ghost use Rattle.std.specs.Prelude.{◌≡◌, ◌≤◌, [], length};
ghost use Rattle.sci_net.specs.Parts.{parts_of, numbered, path_of, wire_of, feeds_of};

use crate::{Feed, Feeds, Wire};
use sci_base::Place;
use std::marker::Model;

/// What a net has beside its specs: by block the place of its object in the diagram, and what feeds its inputs. Blocks and ports are
/// counted from 1.
#[derive(Drop)]
pub struct Wiring {
    paths: Vec<Place>,
    wires: Vec<Vec<Wire>>,
    feeds: Feeds,
}

impl Model for Wiring {
    ghost use Rattle.std.specs.Prelude.{[]};
    ghost use Rattle.sci_net.specs.Parts.{Parts, parts_of};

    ghost Value = { Parts };

    ghost view = { λ w. parts_of [] w.paths.items w.wires.items w.feeds };
}

impl Wiring {
    /// Exactly these.
    pub fn new(paths: Vec<Place>, wires: Vec<Vec<Wire>>, feeds: Feeds) -> Wiring
        ensures { result ≡ parts_of [] paths.items wires.items feeds }
    {
        Wiring {
            paths,
            wires,
            feeds,
        }
    }

    /// The place of a block's object in the diagram.
    pub fn path(&self, block: u32) -> &Place
        requires least { 1 ≤ block }
        requires most { block ≤ length self.now.paths }
        ensures { result.now.path.items ≡ path_of self.now block }
    {
        &self.paths[block as usize - 1]
    }

    /// The regular output that feeds a regular input.
    pub fn wire(&self, block: u32, port: u32) -> Wire
        requires block_least { 1 ≤ block }
        requires block_most { block ≤ length self.now.wires }
        requires port_least { 1 ≤ port }
        requires port_most { port ≤ length (numbered [] self.now.wires block) }
        ensures { result ≡ wire_of self.now block port }
    {
        self.wires[block as usize - 1][port as usize - 1]
    }

    /// The activation outputs that feed an activation input.
    pub fn feeds(&self, block: u32, port: u32) -> &[Feed]
        requires block_least { 1 ≤ block }
        requires block_most { block ≤ length self.now.feeds }
        requires port_least { 1 ≤ port }
        requires port_most { port ≤ length (numbered [] self.now.feeds block) }
        ensures { result.now ≡ feeds_of self.now block port }
    {
        self.feeds.of(block, port)
    }
}
