// The rows of a schedule.
ghost use Rattle.std.specs.Prelude.{◌≡◌, ◌≤◌, ◌<◌, ◌+◌, ◌↔◌, ℕ, [], All, AllPairs, Contains, length, map, IfOk};
ghost use Rattle.sci_net.specs.Parts.{IsBlock, numbered};
ghost use Rattle.sci_net.specs.Sources.{sources_of, source_of};
ghost use Rattle.sci_reaction.specs.Schedule.{IsRow, IsSchedule};
ghost use Rattle.sci_inherit.specs.Origins.{AreOrigins};
ghost use Rattle.sci_sched.specs.Plain.{row_of, lists_of};
ghost use Rattle.sci_sched.specs.Marks.{AreSized, AreClear};
ghost use Rattle.sci_sched.specs.Outlines.{IsOutline, AreOutlines};
ghost use Rattle.sci_sched.specs.Guards.{AreGuards};
ghost use Rattle.sci_sched.specs.Rows.{IsMarkedEntry, AreEntries};

use crate::marks::Marks;
use crate::masks::guards;
use crate::outline::Outline;
use crate::{Entry, Guard};
use sci_base::NoMemory;
use sci_inherit::Reach;
use sci_net::Net;
use std::alloc::Global;

// The same blocks by number.
fn by_number(alloc: Global, blocks: &[u32]) -> Result<Vec<u32>, NoMemory>
    ensures exactly { IfOk result (λ v. (c : ℕ) → Contains v.items c ↔ Contains blocks.now c) }
    ensures sorted { IfOk result (λ v. AllPairs (λ c d. c ≤ d) v.items) }
{
    let mut sorted = blocks.to_vec(alloc)?;
    sorted.sort_unstable();
    Ok(sorted)
}

// The guards of a possible block of the source that is marked. Most blocks have none.
fn guards_for(
    alloc: Global,
    net: &Net,
    reach: &Reach,
    conditions: &[u32],
    block: u32,
) -> Result<Vec<Guard>, NoMemory>
    requires reach { AreOrigins net.now reach.now }
    requires least { 1 ≤ block }
    requires most { block ≤ length net.now.specs }
    ensures { IfOk result (λ v. AreGuards net.now conditions.now (numbered [] reach.now.branches block) block v.items) }
{
    if conditions.is_empty() {
        return Ok(Vec::new(alloc));
    }
    net.well_formed();
    let sorted = by_number(alloc, conditions)?;
    let guards = guards(alloc, net, &sorted, reach.branches(block), block)?;
    Ok(guards)
}

// The entry of a possible block of the source that is marked.
fn entry_for(
    alloc: Global,
    net: &Net,
    reach: &Reach,
    marks: &Marks,
    block: u32,
    depth: usize,
) -> Result<Entry, NoMemory>
    requires reach { AreOrigins net.now reach.now }
    requires marks { AreSized (length net.now.specs + 1) marks.now }
    requires least { 1 ≤ block }
    requires most { block ≤ length net.now.specs }
    ensures block { IfOk result (λ e. e.block ≡ block) }
    ensures depth { IfOk result (λ e. e.depth ≡ depth) }
    ensures entry { IfOk result (λ e. IsMarkedEntry net.now reach.now marks.now e) }
{
    let guards = guards_for(alloc, net, reach, &marks.conditions[block as usize], block)?;
    Ok(Entry {
        block,
        depth,
        always: marks.always.has(block),
        mask: marks.masks[block as usize],
        guards,
    })
}

// The entries of these blocks.
fn entries(
    alloc: Global,
    net: &Net,
    reach: &Reach,
    marks: &Marks,
    blocks: &[u32],
    depths: &[usize],
) -> Result<Vec<Entry>, NoMemory>
    requires reach { AreOrigins net.now reach.now }
    requires marks { AreSized (length net.now.specs + 1) marks.now }
    requires blocks { All (IsBlock net.now) blocks.now }
    requires depths { length depths.now ≡ length blocks.now }
    ensures entries { IfOk result (λ v. AreEntries net.now reach.now marks.now blocks.now v.items) }
    ensures depths { IfOk result (λ v. map (λ e. e.depth) v.items ≡ depths.now) }
{
    let mut entries = Vec::with_capacity(alloc, blocks.len())?;
    for at in 0..blocks.len() {
        entries.push(entry_for(alloc, net, reach, marks, blocks[at], depths[at])?)?;
    }
    Ok(entries)
}

// The row of the source at this place. Nothing is marked before and after.
fn row(
    alloc: Global,
    net: &Net,
    reach: &Reach,
    at: u32,
    outline: &Outline,
    marks: &mut Marks,
) -> Result<Vec<Entry>, NoMemory>
    requires reach { AreOrigins net.now reach.now }
    requires at { at < length (sources_of net.now) }
    requires outline { IsOutline net.now (source_of net.now at) outline.now }
    requires sized { AreSized (length net.now.specs + 1) marks.old }
    requires clear { AreClear marks.old }
    ensures row { IfOk result (λ v. IsRow net.now (source_of net.now at) (row_of v.items)) }
    ensures sized { IfOk result (λ v. AreSized (length net.now.specs + 1) marks.new) }
    ensures clear { IfOk result (λ v. AreClear marks.new) }
{
    net.well_formed();
    marks.mark(net, reach, at, &outline.blocks)?;
    let row = entries(alloc, net, reach, marks, &outline.blocks, &outline.depths)?;
    marks.clear(net, reach, at, &outline.blocks);
    Ok(row)
}

/// The rows of all sources.
pub fn rows(
    alloc: Global,
    net: &Net,
    reach: &Reach,
    outlines: &[Outline],
) -> Result<Vec<Vec<Entry>>, NoMemory>
    requires reach { AreOrigins net.now reach.now }
    requires outlines { AreOutlines net.now (length (sources_of net.now)) outlines.now }
    ensures { IfOk result (λ v. IsSchedule net.now (lists_of v.items)) }
{
    net.well_formed();
    let mut marks = Marks::new(alloc, net.len() as usize + 1)?;
    let mut rows = Vec::with_capacity(alloc, outlines.len())?;
    for at in 0..net.source_count() {
        let outline = &outlines[at as usize];
        rows.push(row(alloc, net, reach, at, outline, &mut marks)?)?;
    }
    Ok(rows)
}
