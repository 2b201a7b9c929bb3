// Flat nets as they are declared.
ghost use Rattle.std.specs.Prelude.{◌≡◌, ◌≤◌, length};
ghost use Rattle.sci_net.specs.Parts.{parts_of, with_specs, spec_of, path_of, wire_of, feeds_of};
ghost use Rattle.sci_net.specs.Flat.{IsFlat};

use crate::{Feed, Feeds, Wire, Wiring};
use sci_base::Place;
use sci_forms::Spec;
use std::marker::Model;

/// A flat net with the types and sizes that its diagram declares. Blocks and ports are counted from 1.
#[derive(Drop)]
pub struct Flat {
    specs: Vec<Spec>,
    wiring: Wiring,
}

impl Model for Flat {
    ghost use Rattle.sci_net.specs.Parts.{Parts, with_specs};
    ghost use Rattle.sci_net.specs.Flat.{IsFlat};

    ghost Value = { Parts };

    ghost view = { λ n. with_specs n.wiring n.specs.items };

    ghost invariant = { λ n. IsFlat (with_specs n.wiring n.specs.items) };
}

impl Flat {
    /// The net of exactly these parts. It takes no memory.
    pub fn new(specs: Vec<Spec>, wires: Vec<Vec<Wire>>, feeds: Feeds, paths: Vec<Place>) -> Flat
        requires { IsFlat (parts_of specs.items paths.items wires.items feeds) }
        ensures { result ≡ parts_of specs.items paths.items wires.items feeds }
    {
        Flat {
            specs,
            wiring: Wiring::new(paths, wires, feeds),
        }
    }

    /// What holds of every flat net.
    pub fn well_formed(&self)
        ensures { IsFlat self.now }
    {
        let _blocks = self.specs.len();
    }

    /// How many blocks there are, at most 2,048.
    pub fn len(&self) -> u32
        ensures { result ≡ length self.now.specs }
    {
        self.specs.len() as u32
    }

    /// What is declared of a block.
    pub fn spec(&self, block: u32) -> &Spec
        requires least { 1 ≤ block }
        requires most { block ≤ length self.now.specs }
        ensures { result.now ≡ spec_of self.now block }
    {
        &self.specs[block as usize - 1]
    }

    /// The place of a block's object in the diagram.
    pub fn path(&self, block: u32) -> &Place
        requires least { 1 ≤ block }
        requires most { block ≤ length self.now.specs }
        ensures { result.now.path.items ≡ path_of self.now block }
    {
        self.wiring.path(block)
    }

    /// The regular output that feeds a regular input.
    pub fn wire(&self, block: u32, port: u32) -> Wire
        requires block_least { 1 ≤ block }
        requires block_most { block ≤ length self.now.specs }
        requires port_least { 1 ≤ port }
        requires port_most { port ≤ length (spec_of self.now block).ins }
        ensures { result ≡ wire_of self.now block port }
    {
        self.wiring.wire(block, port)
    }

    /// The activation outputs that feed an activation input, by block and port, without repeats.
    pub fn feeds(&self, block: u32, port: u32) -> &[Feed]
        requires block_least { 1 ≤ block }
        requires block_most { block ≤ length self.now.specs }
        requires port_least { 1 ≤ port }
        requires port_most { port ≤ (spec_of self.now block).evtin }
        ensures { result.now ≡ feeds_of self.now block port }
    {
        self.wiring.feeds(block, port)
    }

    /// Its specs, and what it has beside them.
    pub fn apart(self) -> (Vec<Spec>, Wiring)
        ensures specs { result.0.items ≡ self.specs }
        ensures rest { with_specs result.1 self.specs ≡ self }
    {
        let Flat { specs, wiring } = self;
        (specs, wiring)
    }
}
