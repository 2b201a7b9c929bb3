// When a possible block is active, and on which activation inputs.
ghost use Rattle.std.specs.Prelude.{◌≡◌, ◌<◌, ◌+◌, ℕ, [], length, Contains, IfOk};
ghost use Rattle.sci_net.specs.declared.Feed.{Feed};
ghost use Rattle.sci_net.specs.Parts.{IsBlock, spec_of, feeds_of, numbered};
ghost use Rattle.sci_net.specs.Sources.{sources_of, source_of};
ghost use Rattle.sci_reaction.specs.Links.{SourceFeeds};
ghost use Rattle.sci_reaction.specs.Equations.{HasBits};
ghost use Rattle.sci_inherit.specs.Origins.{AreOrigins};
ghost use Rattle.sci_dep.specs.Tables.{ArePossible};
ghost use Rattle.sci_rounds.specs.Rounds.{TellsActivation};
ghost use Rattle.sci_judge.specs.Entries.{HasBitsTo, AreBranches, AreAlways};
ghost use Rattle.sci_reaction.specs.Kept.{guards_of, entry_of};

use crate::rounds::BlockRound;
use sci_base::NoMemory;
use sci_base::bits::set_bit;
use sci_inherit::{Reach, contains};
use sci_loop::walk::Walk;
use sci_net::{Feed, Net, Source};
use sci_reaction::{Entry, Guard};
use std::alloc::Global;

// The mask with activation input `at + 1`, if the activation output feeds it.
fn with_input(net: &Net, block: u32, feed: Feed, mask: u64, at: u32) -> u64
    requires block { IsBlock net.now block }
    requires input { at < (spec_of net.now block).evtin }
    requires so_far { HasBitsTo mask at (λ p. Contains (feeds_of net.now block p) feed) }
    ensures { HasBitsTo result (at + 1) (λ p. Contains (feeds_of net.now block p) feed) }
{
    net.well_formed();
    if contains(net.feeds(block, at + 1), feed) {
        set_bit(mask, at)
    } else {
        mask
    }
}

// The activation inputs of a block that an activation output feeds.
fn fed_mask(net: &Net, block: u32, feed: Feed) -> u64
    requires { IsBlock net.now block }
    ensures { HasBits result (λ p. Contains (feeds_of net.now block p) feed) }
{
    net.well_formed();
    let mut mask = 0;
    for at in 0..net.spec(block).evtin {
        mask = with_input(net, block, feed, mask, at);
    }
    mask
}

// The activation inputs of a block that a source feeds.
fn source_mask(net: &Net, source: u32, block: u32) -> u64
    requires source { source < length (sources_of net.now) }
    requires block { IsBlock net.now block }
    ensures { HasBits result (SourceFeeds net.now (source_of net.now source) block) }
{
    match net.source(source) {
        Source::Start => 0,
        Source::Port(q) => fed_mask(net, block, q),
    }
}

// The branches that reach a block, of synchronous blocks that were found.
fn guards(
    alloc: Global,
    net: &Net,
    reach: &Reach,
    found: &Walk,
    block: u32,
) -> Result<Vec<Guard>, NoMemory>
    requires reach { AreOrigins net.now reach.now }
    requires count { found.now.count ≡ length net.now.specs + 1 }
    requires block { IsBlock net.now block }
    ensures { IfOk result (λ v. AreBranches net.now found.now.found (numbered [] reach.now.branches block) block (guards_of v.items)) }
{
    let mut guards = Vec::new(alloc);
    for branch in reach.branches(block) {
        if found.has(branch.block) {
            guards.push(Guard {
                block: branch.block,
                port: branch.port,
                mask: fed_mask(net, block, *branch),
            })?;
        }
    }
    Ok(guards)
}

/// The entry of a possible block of the source at this place, of which the two walks have found the possible blocks, and those that it
/// activates whatever the values are. Want of memory is the only error.
pub fn entry_for(
    alloc: Global,
    net: &Net,
    reach: &Reach,
    source: u32,
    possible: &Walk,
    always: &Walk,
    rank: BlockRound,
) -> Result<Entry, NoMemory>
    requires reach { AreOrigins net.now reach.now }
    requires source { source < length (sources_of net.now) }
    requires count { possible.now.count ≡ length net.now.specs + 1 }
    requires always_count { always.now.count ≡ length net.now.specs + 1 }
    requires possible { ArePossible net.now (source_of net.now source) possible.now.found }
    requires always { AreAlways net.now (source_of net.now source) always.now.found }
    requires block { IsBlock net.now rank.block }
    ensures block { IfOk result (λ e. e.block ≡ rank.block) }
    ensures depth { IfOk result (λ e. e.depth ≡ rank.depth) }
    ensures tells { IfOk result (λ e. TellsActivation net.now (source_of net.now source) (entry_of e)) }
{
    let guards = guards(alloc, net, reach, possible, rank.block)?;
    Ok(Entry {
        block: rank.block,
        depth: rank.depth,
        always: always.has(rank.block),
        mask: source_mask(net, source, rank.block),
        guards,
    })
}
