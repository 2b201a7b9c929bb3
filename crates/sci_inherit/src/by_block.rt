// What activates each block, by block: the activation outputs that reach it, and start.
ghost use Rattle.std.specs.Prelude.{◌≡◌, ◌≤◌, ◌+◌, [], false, length, IfOk};
ghost use Rattle.sci_net.specs.Parts.{numbered};
ghost use Rattle.sci_inherit.specs.Followers.{AreFollowers};
ghost use Rattle.sci_inherit.specs.ByBlock.{AreByBlock, AreMarksOf, AreAtStart};

use crate::always::find_always;
use crate::followers::Followers;
use crate::gather::{Senders, reaching};
use crate::rows::FedRows;
use sci_base::NoMemory;
use sci_loop::walk::Walk;
use sci_net::{Feed, Net, Source};
use std::alloc::Global;
use std::marker::Model;

/// For each block of a net, the activation outputs that reach it, and whether start activates it.
#[derive(Drop)]
pub struct ReachByBlock {
    reaching: Vec<Vec<Feed>>,
    at_start: Vec<bool>,
}

impl Model for ReachByBlock {
    ghost use Rattle.sci_loop.specs.Lists.{plain};
    ghost use Rattle.sci_inherit.specs.ByBlock.{ByBlock};

    ghost Value = { ByBlock };

    ghost view = { λ r. record { reaching = plain r.reaching.items; at_start = r.at_start.items } };
}

impl ReachByBlock {
    /// The activation outputs that reach a block, by block and port, each once: those that feed it, and, if it inherits, those that reach
    /// the source block of one of its inputs. Blocks are counted from 1.
    pub fn of(&self, block: u32) -> &[Feed]
        requires least { 1 ≤ block }
        requires most { block ≤ length self.now.reaching }
        ensures { result.now ≡ numbered [] self.now.reaching block }
    {
        self.reaching[block as usize - 1].as_slice()
    }

    /// Whether start activates a block: it has neither inputs nor activation inputs, or it inherits, directly or through other blocks that
    /// inherit, from a block that has neither. Blocks are counted from 1.
    pub fn at_start(&self, block: u32) -> bool
        requires least { 1 ≤ block }
        requires most { block ≤ length self.now.at_start }
        ensures { result ≡ numbered false self.now.at_start block }
    {
        self.at_start[block as usize - 1]
    }
}

// By block, whether the walk has found it.
fn marks(alloc: Global, net: &Net, walk: &Walk) -> Result<Vec<bool>, NoMemory>
    requires { walk.now.count ≡ length net.now.specs + 1 }
    ensures { IfOk result (λ v. AreMarksOf walk.now.found (length net.now.specs) v.items) }
{
    net.well_formed();
    let mut marks = Vec::new(alloc);
    for at in 0..net.len() {
        marks.push(walk.has(at + 1))?;
    }
    Ok(marks)
}

// By block, whether start activates it.
fn at_start(
    alloc: Global,
    net: &Net,
    links: &Followers,
    walk: &mut Walk,
) -> Result<Vec<bool>, NoMemory>
    requires links { AreFollowers net.now links.now }
    requires walk { walk.old.count ≡ length net.now.specs + 1 }
    ensures { IfOk result (λ v. AreAtStart net.now v.items) }
{
    find_always(alloc, net, links, walk, Source::Start, &[])?;
    marks(alloc, net, walk)
}

/// What activates each block of a net, by block.
pub fn made(alloc: Global, net: &Net) -> Result<ReachByBlock, NoMemory>
    ensures { IfOk result (λ r. AreByBlock net.now r) }
{
    net.well_formed();
    let links = Followers::of(alloc, net)?;
    let all = vec![in alloc; true; net.len() as usize + 1]?;
    let rows = FedRows::of(alloc, net, all)?;
    let mut walk = Walk::new(alloc, net.len() as usize + 1)?;
    let reaching = reaching(alloc, net, &links, &rows, &mut walk, Senders::Each)?;
    let at_start = at_start(alloc, net, &links, &mut walk)?;
    Ok(ReachByBlock { reaching, at_start })
}
