// What is found of each source before its row is built: its loop, or its blocks in their order.
ghost use Rattle.std.specs.Prelude.{◌≡◌, ℕ, ◌<◌, ◌+◌, ◌↔◌, All, AllPairs, Contains, ◌++◌, ◌∷◌, [], length, IfOk, OnOk, IfErr};
ghost use Rattle.sci_loop.specs.Table.{IsTable, Needs};
ghost use Rattle.sci_loop.specs.Sorted.{IsOrder};
ghost use Rattle.sci_net.specs.Sources.{sources_of, source_of};
ghost use Rattle.sci_inherit.specs.Origins.{AreOrigins};
ghost use Rattle.sci_dep.specs.Tables.{AreWaits, IsTableOf};
ghost use Rattle.sci_reaction.specs.Depends.{HasDepth};
ghost use Rattle.sci_loop.specs.Depth.{IsDepth};
ghost use Rattle.sci_sched.specs.Depths.{Outranks, AreDepthsOf};
ghost use Rattle.sci_sched.specs.Answer.{IsLoopStop, IsFirstLoopStop};
ghost use Rattle.sci_sched.specs.Outlines.{AreOrdered, IsOutline, AreCounts, AreOutlines};

use crate::depth::set_depths;
use crate::ranks::{by_depth, depths_of};
use crate::refusals::loop_stop;
use crate::sizes::{guard_counts, guards_by};
use sci_base::{NoMemory, Stop};
use sci_dep::{Waits, depends, possible};
use sci_inherit::Reach;
use sci_loop::walk::Walk;
use sci_loop::{DepTable, Sorted, sort};
use sci_net::{Net, Source};
use std::alloc::Global;

// Blocks by depth and number, and the depth of each.
#[derive(Drop)]
struct DepthOrder {
    blocks: Vec<u32>,
    depths: Vec<usize>,
}

/// What a source without a loop may activate.
#[derive(Drop)]
pub struct Outline {
    /// The possible blocks, by depth and number.
    pub blocks: Vec<u32>,
    /// The depth of each.
    pub depths: Vec<usize>,
    /// How many guards their entries have.
    pub guards: u64,
}

// The members of a table without a loop, by depth and number.
fn in_order(
    alloc: Global,
    table: &DepTable,
    order: &[u32],
    depths: &mut [usize],
) -> Result<DepthOrder, NoMemory>
    requires table { IsTable table.now }
    requires order { IsOrder table.now order.now }
    requires below { All (λ b. b < length depths.old) table.now.members.items }
    ensures exactly { IfOk result (λ o. (b : ℕ) → Contains o.blocks.items b ↔ Contains table.now.members.items b) }
    ensures ordered { IfOk result (λ o. AllPairs (Outranks (Needs table.now)) o.blocks.items) }
    ensures depths { IfOk result (λ o. AreDepthsOf (IsDepth (Needs table.now)) o.blocks.items o.depths.items) }
{
    set_depths(table, order, depths);
    let blocks = by_depth(alloc, depths, &table.members)?;
    let depths = depths_of(alloc, depths, &blocks)?;
    Ok(DepthOrder { blocks, depths })
}

// The members of the table of a source, by depth and number; or the refusal of a loop.
fn ranked(
    alloc: Global,
    net: &Net,
    source: Source,
    table: &DepTable,
    depths: &mut [usize],
) -> Result<DepthOrder, Stop>
    requires table { IsTableOf net.now source table.now }
    requires depths { length depths.old ≡ length net.now.specs + 1 }
    ensures ok { IfOk result (λ o. AreOrdered net.now source o.blocks.items) }
    ensures depths { IfOk result (λ o. AreDepthsOf (HasDepth net.now source) o.blocks.items o.depths.items) }
    ensures stop { IfErr result (λ e. IsLoopStop net.now source e) }
{
    net.well_formed();
    match sort(alloc, table)? {
        Sorted::Loop(found) => Err(loop_stop(alloc, net, source, &found)),
        Sorted::Order(order) => {
            let ordered = in_order(alloc, table, &order, depths)?;
            Ok(ordered)
        }
    }
}

// The same. Where no block depends on another, all have one depth, and stand by number already.
fn ordered(
    alloc: Global,
    net: &Net,
    source: Source,
    table: DepTable,
    depths: &mut [usize],
) -> Result<DepthOrder, Stop>
    requires table { IsTableOf net.now source table }
    requires depths { length depths.old ≡ length net.now.specs + 1 }
    ensures ok { IfOk result (λ o. AreOrdered net.now source o.blocks.items) }
    ensures depths { IfOk result (λ o. AreDepthsOf (HasDepth net.now source) o.blocks.items o.depths.items) }
    ensures stop { IfErr result (λ e. IsLoopStop net.now source e) }
{
    if table.has_needs() {
        ranked(alloc, net, source, &table, depths)
    } else {
        let DepTable { members, needs: _ } = table;
        let depths = vec![in alloc; 1; members.len()]?;
        Ok(DepthOrder {
            blocks: members,
            depths,
        })
    }
}

// The outline of the source at this place, by how many guards each block gives. The walk is over all numbers, and there is a depth for each; what they
// hold does not count.
fn outline_of(
    alloc: Global,
    net: &Net,
    reach: &Reach,
    waits: &Waits,
    counts: &[u64],
    at: u32,
    walk: &mut Walk,
    depths: &mut [usize],
) -> Result<Outline, Stop>
    requires reach { AreOrigins net.now reach.now }
    requires waits { AreWaits net.now waits.now }
    requires counts { AreCounts reach.now counts.now }
    requires at { at < length (sources_of net.now) }
    requires count { walk.old.count ≡ length net.now.specs + 1 }
    requires depths { length depths.old ≡ length net.now.specs + 1 }
    ensures ok { IfOk result (λ o. IsOutline net.now (source_of net.now at) o) }
    ensures count { IfOk result (λ o. walk.new.count ≡ length net.now.specs + 1) }
    ensures stop { IfErr result (λ e. IsLoopStop net.now (source_of net.now at) e) }
{
    net.well_formed();
    possible(net, reach, at, walk)?;
    let table = depends(alloc, net, waits, walk)?;
    let DepthOrder { blocks, depths } = ordered(alloc, net, net.source(at), table, depths)?;
    let guards = guards_by(counts, &blocks);
    Ok(Outline {
        blocks,
        depths,
        guards,
    })
}

fn keep(outlines: &mut Vec<Outline>, outline: Outline) -> Result<(), NoMemory>
    ensures { OnOk result (outlines.new.items ≡ outlines.old.items ++ outline ∷ []) }
{
    outlines.push(outline)?;
    Ok(())
}

/// One for each source, in order; or the refusal of the first that has a loop.
pub fn outlines(
    alloc: Global,
    net: &Net,
    reach: &Reach,
    waits: &Waits,
) -> Result<Vec<Outline>, Stop>
    requires reach { AreOrigins net.now reach.now }
    requires waits { AreWaits net.now waits.now }
    ensures ok { IfOk result (λ v. AreOutlines net.now (length (sources_of net.now)) v.items) }
    ensures stop { IfErr result (λ e. IsFirstLoopStop net.now e) }
{
    net.well_formed();
    let counts = guard_counts(alloc, net, reach)?;
    let mut walk = Walk::new(alloc, net.len() as usize + 1)?;
    let mut depths = vec![in alloc; 0; net.len() as usize + 1]?;
    let mut outlines = Vec::new(alloc);
    for at in 0..net.source_count() {
        let outline = outline_of(
            alloc,
            net,
            reach,
            waits,
            &counts,
            at,
            &mut walk,
            &mut depths,
        )?;
        keep(&mut outlines, outline)?;
    }
    Ok(outlines)
}
