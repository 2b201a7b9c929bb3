//! What activates each block: what each source activates whatever the values are, and the branches that reach each block.
#![tactic(auto)]

ghost use Rattle.std.specs.Prelude.{IfOk};
ghost use Rattle.sci_inherit.specs.ByBlock.{AreByBlock};
ghost use Rattle.sci_inherit.specs.Origins.{AreOrigins};

mod always;
mod by_block;
mod followers;
mod gather;
mod live;
mod reach;
mod rows;

use always::{always, feeding};
pub use by_block::ReachByBlock;
use followers::Followers;
use gather::{Senders, onward, reaching};
use live::{find_live, wanted};
pub use reach::{Reach, contains};
use rows::FedRows;
use sci_base::NoMemory;
use sci_loop::walk::Walk;
use sci_net::Net;
use std::alloc::Global;

/// An activation input of a block, both counted from 1.
#[derive(Clone, Copy, Drop)]
pub struct Fed {
    pub block: u32,
    pub input: u32,
}

// What activates each block.
fn made(alloc: Global, net: &Net) -> Result<Reach, NoMemory>
    ensures { IfOk result (λ o. AreOrigins net.now o) }
{
    net.well_formed();
    let links = Followers::of(alloc, net)?;
    let mut walk = Walk::new(alloc, net.len() as usize + 1)?;
    let onward = onward(alloc, net, &links, &mut walk)?;
    find_live(alloc, net, &links, &onward, &mut walk)?;
    let wanted = wanted(alloc, net, &walk)?;
    let rows = FedRows::of(alloc, net, wanted)?;
    let feeding = feeding(alloc, net, &rows)?;
    let always = always(alloc, net, &links, &mut walk, &feeding)?;
    let branches = reaching(alloc, net, &links, &rows, &mut walk, Senders::Synchronous)?;
    Ok(Reach {
        always,
        feeding,
        branches,
        onward,
    })
}

/// What activates each block of a net. It takes time and memory for what each source and each activation output of a block that some source
/// may activate reaches; of the other synchronous blocks it finds what each reaches, once for all its outputs. Want of memory is the only error.
pub fn origins(alloc: Global, net: &Net) -> Result<Reach, NoMemory>
    ensures { IfOk result (λ o. AreOrigins net.now o) }
{
    made(alloc, net)
}

/// What activates each block of a net, by block. It takes memory for each block that each activation output reaches. Want of memory is the
/// only error.
pub fn reach_by_block(alloc: Global, net: &Net) -> Result<ReachByBlock, NoMemory>
    ensures { IfOk result (λ r. AreByBlock net.now r) }
{
    by_block::made(alloc, net)
}
