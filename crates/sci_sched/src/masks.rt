// The activation inputs of a block that a branch feeds, and the guards of a block.
ghost use Rattle.std.specs.Prelude.{◌≡◌, ◌+◌, ◌≤◌, ◌<◌, List, ℕ, AllPairs, Contains, length, take, IfOk, nat_lt};
ghost use Rattle.sci_net.specs.Parts.{spec_of, feeds_of, AreRising};
ghost use Rattle.sci_reaction.specs.Equations.{HasBits};
ghost use Rattle.sci_sched.specs.Guards.{AreGuards, HasBitsTo, IsFirstFrom, EndsRun};

use crate::Guard;
use sci_base::NoMemory;
use sci_base::bits::set_bit;
use sci_inherit::contains;
use sci_net::{Feed, Net};
use std::alloc::Global;

// The mask with activation input `at + 1`, if the activation output feeds it.
fn with_input(net: &Net, block: u32, feed: Feed, mask: u64, at: u32) -> u64
    requires least { 1 ≤ block }
    requires most { block ≤ length net.now.specs }
    requires input { at < (spec_of net.now block).evtin }
    requires so_far { HasBitsTo mask at (λ p. Contains (feeds_of net.now block p) feed) }
    ensures { HasBitsTo result (at + 1) (λ p. Contains (feeds_of net.now block p) feed) }
{
    net.well_formed();
    if contains(net.feeds(block, at + 1), feed) {
        set_bit(mask, at)
    } else {
        mask
    }
}

/// The activation inputs that an activation output feeds.
pub fn fed_mask(net: &Net, block: u32, feed: Feed) -> u64
    requires least { 1 ≤ block }
    requires most { block ≤ length net.now.specs }
    ensures { HasBits result (λ p. Contains (feeds_of net.now block p) feed) }
{
    net.well_formed();
    let mut mask = 0;
    for at in 0..net.spec(block).evtin {
        mask = with_input(net, block, feed, mask, at);
    }
    mask
}

// The place of the first of these branches that is of this block or a later one.
fn first_of(branches: &[Feed], block: u32) -> usize
    requires { AreRising branches.now }
    ensures { IsFirstFrom branches.now 0 block result }
{
    branches.partition_point(
        |branch: &Feed| -> bool
            ensures { result ≡ nat_lt branch.now.block block }
        { branch.block < block },
    )
}

// The same of those from a place on, which is often that place.
fn first_from(branches: &[Feed], from: usize, block: u32) -> usize
    requires rising { AreRising branches.now }
    requires from { from ≤ length branches.now }
    ensures { IsFirstFrom branches.now from block result }
{
    if from < branches.len() && branches[from].block < block {
        first_of(branches, block)
    } else {
        from
    }
}

// Puts a guard for each branch of a synchronous block, from a place on, and tells the place after them.
fn push_run(
    guards: &mut Vec<Guard>,
    net: &Net,
    branches: &[Feed],
    from: usize,
    condition: u32,
    block: u32,
) -> Result<usize, NoMemory>
    requires least { 1 ≤ block }
    requires most { block ≤ length net.now.specs }
    requires from { from ≤ length branches.now }
    ensures end { IfOk result (λ at. EndsRun branches.now from condition at) }
    ensures guards { IfOk result (λ at. (possible : List ℕ) → Contains possible condition
        → AreGuards net.now possible (take from branches.now) block guards.old.items
        → AreGuards net.now possible (take at branches.now) block guards.new.items) }
{
    let mut at = from;
    while at < branches.len() && branches[at].block == condition {
        guards.push(Guard {
            block: branches[at].block,
            port: branches[at].port,
            mask: fed_mask(net, block, branches[at]),
        })?;
        at += 1;
    }
    Ok(at)
}

/// A guard for each of these branches whose block is one of the conditions. No other branch is looked at, but by halving where the next
/// branch is not of the next condition.
pub fn guards(
    alloc: Global,
    net: &Net,
    conditions: &[u32],
    branches: &[Feed],
    block: u32,
) -> Result<Vec<Guard>, NoMemory>
    requires least { 1 ≤ block }
    requires most { block ≤ length net.now.specs }
    requires sorted { AllPairs (λ c d. c ≤ d) conditions.now }
    requires rising { AreRising branches.now }
    ensures { IfOk result (λ v. AreGuards net.now conditions.now branches.now block v.items) }
{
    let mut guards = Vec::new(alloc);
    let mut at = 0;
    for condition in conditions {
        let from = first_from(branches, at, *condition);
        at = push_run(&mut guards, net, branches, from, *condition, block)?;
    }
    Ok(guards)
}
