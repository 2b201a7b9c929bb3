// The lists by block: the activation outputs, each or those of synchronous blocks, that reach it, and the blocks that its own reach.
ghost use Rattle.std.specs.Prelude.{◌≡◌, ℕ, ◌≤◌, ◌+◌, ◌-◌, ◌↔◌, length, All, Contains, IfOk, OnOk, IsTrue, vec_len, nat_eq};
ghost use Rattle.std.specs.List.{IsDistinct};
ghost use Rattle.sci_loop.specs.Lists.{plain};
ghost use Rattle.sci_loop.specs.Walk.{IsMarked};
ghost use Rattle.sci_reaction.specs.Active.{Reaches, IsSync};
ghost use Rattle.sci_inherit.specs.declared.gather.Senders.{Senders};
ghost use Rattle.sci_inherit.specs.Followers.{AreFedBy, AreFollowers, AreFedRows};
ghost use Rattle.sci_inherit.specs.Gather.{AreEach, Pushes, IsSender, Gathered, OfBlocks, AreOnward};

use crate::Fed;
use crate::always::blocks_of;
use crate::followers::Followers;
use crate::rows::FedRows;
use sci_base::NoMemory;
use sci_loop::walk::{Walk, empty_lists, push_at};
use sci_net::{Feed, Net};
use std::alloc::Global;

/// The blocks whose activation outputs are gathered, of those whose rows are filled.
#[derive(Clone, Copy, Drop)]
pub enum Senders {
    /// All of them.
    Each,
    /// The synchronous ones.
    Synchronous,
}

// Puts an activation output at the end of the lists of these blocks.
fn push_to_all(lists: &mut Vec<Vec<Feed>>, blocks: &[u32], feed: Feed) -> Result<(), NoMemory>
    requires within { All (λ b. (1 ≤ b) × (b ≤ vec_len lists.old)) blocks.now }
    requires once { IsDistinct nat_eq blocks.now }
    ensures lists { OnOk result (Pushes (Contains blocks.now) feed (plain lists.old.items) (plain lists.new.items)) }
    ensures len { OnOk result (vec_len lists.new ≡ vec_len lists.old) }
{
    for block in blocks {
        push_at(lists, *block as usize - 1, feed)?;
    }
    Ok(())
}

// Gathers an activation output, from what it feeds.
fn gather_output(
    alloc: Global,
    reaching: &mut Vec<Vec<Feed>>,
    net: &Net,
    links: &Followers,
    walk: &mut Walk,
    feed: Feed,
    fed: &[Fed],
) -> Result<(), NoMemory>
    requires links { AreFollowers net.now links.now }
    requires walk { walk.old.count ≡ length net.now.specs + 1 }
    requires fed { AreFedBy net.now feed fed.now }
    requires len { vec_len reaching.old ≡ length net.now.specs }
    ensures lists { OnOk result (Pushes (Reaches net.now feed) feed (plain reaching.old.items) (plain reaching.new.items)) }
    ensures len { OnOk result (vec_len reaching.new ≡ vec_len reaching.old) }
    ensures count { walk.new.count ≡ walk.old.count }
{
    net.well_formed();
    let starts = blocks_of(alloc, fed)?;
    walk.walk(&links.heirs, &starts)?;
    push_to_all(reaching, walk.found(), feed)
}

// Gathers the activation outputs of a block whose rows are filled.
fn gather_ports(
    alloc: Global,
    reaching: &mut Vec<Vec<Feed>>,
    net: &Net,
    links: &Followers,
    rows: &FedRows,
    walk: &mut Walk,
    block: u32,
) -> Result<(), NoMemory>
    requires least { 1 ≤ block }
    requires most { block ≤ length net.now.specs }
    requires wanted { IsMarked rows.now.wanted.items block }
    requires links { AreFollowers net.now links.now }
    requires rows { AreFedRows net.now rows.now }
    requires walk { walk.old.count ≡ length net.now.specs + 1 }
    requires len { vec_len reaching.old ≡ length net.now.specs }
    ensures gathered { OnOk result ((s : Senders) → IsSender net.now rows.now.wanted.items s block
        → Gathered net.now (OfBlocks (IsSender net.now rows.now.wanted.items s) (block - 1)) (plain reaching.old.items)
        → Gathered net.now (OfBlocks (IsSender net.now rows.now.wanted.items s) block) (plain reaching.new.items)) }
    ensures count { walk.new.count ≡ walk.old.count }
{
    net.well_formed();
    let fed = &rows.fed[block as usize];
    for at in 0..net.spec(block).evtout {
        let feed = Feed {
            block,
            port: at + 1,
        };
        gather_output(
            alloc,
            reaching,
            net,
            links,
            walk,
            feed,
            &fed[at as usize + 1],
        )?;
    }
    Ok(())
}

// Whether the activation outputs of a block are gathered.
fn is_sender(net: &Net, rows: &FedRows, senders: Senders, block: u32) -> bool
    requires least { 1 ≤ block }
    requires most { block ≤ length net.now.specs }
    requires rows { AreFedRows net.now rows.now }
    ensures { IsTrue result ↔ IsSender net.now rows.now.wanted.items senders block }
{
    match senders {
        Senders::Each => rows.wanted[block as usize],
        Senders::Synchronous => rows.wanted[block as usize] && net.spec(block).kind.is_sync(),
    }
}

// Gathers the activation outputs of a block, if it is to send them.
fn gather_block(
    alloc: Global,
    reaching: &mut Vec<Vec<Feed>>,
    net: &Net,
    links: &Followers,
    rows: &FedRows,
    walk: &mut Walk,
    senders: Senders,
    block: u32,
) -> Result<(), NoMemory>
    requires least { 1 ≤ block }
    requires most { block ≤ length net.now.specs }
    requires links { AreFollowers net.now links.now }
    requires rows { AreFedRows net.now rows.now }
    requires walk { walk.old.count ≡ length net.now.specs + 1 }
    requires gathered { Gathered net.now (OfBlocks (IsSender net.now rows.now.wanted.items senders) (block - 1)) (plain reaching.old.items) }
    ensures gathered { OnOk result (Gathered net.now (OfBlocks (IsSender net.now rows.now.wanted.items senders) block) (plain reaching.new.items)) }
    ensures count { walk.new.count ≡ walk.old.count }
{
    if is_sender(net, rows, senders, block) {
        gather_ports(alloc, reaching, net, links, rows, walk, block)
    } else {
        Ok(())
    }
}

/// By block, the activation outputs of the senders that reach it, by block and port.
pub fn reaching(
    alloc: Global,
    net: &Net,
    links: &Followers,
    rows: &FedRows,
    walk: &mut Walk,
    senders: Senders,
) -> Result<Vec<Vec<Feed>>, NoMemory>
    requires links { AreFollowers net.now links.now }
    requires rows { AreFedRows net.now rows.now }
    requires walk { walk.old.count ≡ length net.now.specs + 1 }
    ensures gathered { IfOk result (λ v. Gathered net.now (OfBlocks (IsSender net.now rows.now.wanted.items senders) (length net.now.specs)) (plain v.items)) }
    ensures count { walk.new.count ≡ walk.old.count }
{
    net.well_formed();
    let mut reaching = empty_lists(alloc, net.len() as usize)?;
    for at in 0..net.len() {
        gather_block(
            alloc,
            &mut reaching,
            net,
            links,
            rows,
            walk,
            senders,
            at + 1,
        )?;
    }
    Ok(reaching)
}

// The blocks that the activation outputs of a synchronous block reach.
fn onward_of_sync(
    alloc: Global,
    net: &Net,
    links: &Followers,
    walk: &mut Walk,
    block: u32,
) -> Result<Vec<u32>, NoMemory>
    requires least { 1 ≤ block }
    requires most { block ≤ length net.now.specs }
    requires sync { IsSync net.now block }
    requires links { AreFollowers net.now links.now }
    requires walk { walk.old.count ≡ length net.now.specs + 1 }
    ensures onward { IfOk result (λ v. AreOnward net.now block v.items) }
    ensures count { walk.new.count ≡ walk.old.count }
{
    net.well_formed();
    walk.walk(&links.heirs, &links.targets[block as usize])?;
    Ok(Vec::from_slice(alloc, walk.found())?)
}

// The blocks that a branch of a block reaches.
fn onward_of(
    alloc: Global,
    net: &Net,
    links: &Followers,
    walk: &mut Walk,
    block: u32,
) -> Result<Vec<u32>, NoMemory>
    requires least { 1 ≤ block }
    requires most { block ≤ length net.now.specs }
    requires links { AreFollowers net.now links.now }
    requires walk { walk.old.count ≡ length net.now.specs + 1 }
    ensures onward { IfOk result (λ v. AreOnward net.now block v.items) }
    ensures count { walk.new.count ≡ walk.old.count }
{
    if net.spec(block).kind.is_sync() {
        onward_of_sync(alloc, net, links, walk, block)
    } else {
        Ok(Vec::new(alloc))
    }
}

/// By number, from 0 on, the blocks that a branch of the block reaches.
pub fn onward(
    alloc: Global,
    net: &Net,
    links: &Followers,
    walk: &mut Walk,
) -> Result<Vec<Vec<u32>>, NoMemory>
    requires links { AreFollowers net.now links.now }
    requires walk { walk.old.count ≡ length net.now.specs + 1 }
    ensures onward { IfOk result (λ v. AreEach (AreOnward net.now) (plain v.items)) }
    ensures len { IfOk result (λ v. vec_len v ≡ length net.now.specs + 1) }
    ensures count { walk.new.count ≡ walk.old.count }
{
    net.well_formed();
    let mut onward = Vec::new(alloc);
    onward.push(Vec::new(alloc))?;
    for at in 0..net.len() {
        onward.push(onward_of(alloc, net, links, walk, at + 1)?)?;
    }
    Ok(onward)
}
