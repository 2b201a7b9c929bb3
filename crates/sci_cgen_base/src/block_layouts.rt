// Where the values of all blocks lie, and which blocks a schedule has.
ghost use Rattle.std.specs.Prelude.{ℕ, ◌≡◌, ◌-◌, ◌<◌, ◌≤◌, ◌^◌, ◌||◌, [], false, nat_eq, length, map, slice_index_or, IfOk, All};
ghost use Rattle.std.specs.List.{list_any};
ghost use Rattle.sci_net.specs.Parts.{IsBlock, numbered};
ghost use Rattle.sci_reaction.specs.Schedule.{blocks_of};
ghost use Rattle.sci_sched.specs.Plain.{row_of, rows_of};
ghost use Rattle.sci_places.specs.Layout.{IsLayout};
ghost use Rattle.sci_cgen_blocks.specs.Plain.{plain_places};
ghost use Rattle.sci_program.specs.Program.{states_before, places_of};
ghost use Rattle.sci_cgen_base.specs.Layouts.{AreLaid, AreNamed, AreMarked, laid_at};

use sci_base::NoMemory;
use sci_cgen_blocks::BlockLayout;
use sci_net::Net;
use sci_places::{Places, Span};
use sci_sched::{Entry, Schedule};
use std::alloc::Global;

/// Where these spans begin.
fn starts(alloc: Global, spans: &[Span]) -> Result<Vec<u32>, NoMemory>
    requires { All (λ s. s.start < 2 ^ 32) spans.now }
    ensures { IfOk result (λ v. v.items ≡ map (λ s. s.start) spans.now) }
{
    let mut starts = Vec::with_capacity(alloc, spans.len())?;
    for span in spans {
        starts.push(span.start as u32)?;
    }
    Ok(starts)
}

/// Where the values of a block lie. Its state begins at place `state`.
fn block_layout(
    alloc: Global,
    net: &Net,
    places: &Places,
    block: u32,
    state: u32,
) -> Result<BlockLayout, NoMemory>
    requires block { IsBlock net.now block }
    requires places { IsLayout net.now places.now }
    requires state { state ≡ states_before net.now.specs (block - 1) }
    ensures { IfOk result (λ l. plain_places l ≡ places_of net.now block) }
{
    net.well_formed();
    let ins = starts(alloc, places.ins(block))?;
    let outs = places.outs(block).start as u32;
    Ok(BlockLayout {
        number: block,
        ins,
        outs,
        state,
        mask: block - 1,
    })
}

/// Where the values of each block lie.
pub fn layouts(alloc: Global, net: &Net) -> Result<Vec<BlockLayout>, NoMemory>
    ensures { IfOk result (λ v. AreLaid net.now v.items) }
{
    net.well_formed();
    let places = Places::new(alloc, net)?;
    let mut layouts = Vec::with_capacity(alloc, net.len() as usize)?;
    let mut state = 0;
    for block in 0..net.len() {
        layouts.push(block_layout(alloc, net, &places, block + 1, state)?)?;
        state += net.spec(block + 1).state_len() as u32;
    }
    Ok(layouts)
}

/// The row of a source.
#[tactic(auto, using(crate::proofs::RowLemmas::row_at))]
pub fn row(schedule: &Schedule, source: u32) -> &[Entry]
    requires { source < length (rows_of schedule.now) }
    ensures { row_of result.now ≡ slice_index_or (rows_of schedule.now) source [] }
{
    schedule.rows[source as usize].as_slice()
}

/// Marks the blocks of a row's entries.
fn mark_row(marks: &mut [bool], row: &[Entry])
    requires { All (λ e. (1 ≤ e.block) × (e.block ≤ length marks.old)) row.now }
    ensures long { length marks.new ≡ length marks.old }
    ensures each { (b : ℕ) → numbered false marks.new b ≡ (numbered false marks.old b || list_any (nat_eq b) (blocks_of (row_of row.now))) }
{
    for entry in row {
        marks[entry.block as usize - 1] = true;
    }
}

/// Of each block, whether the schedule has an entry of it.
pub fn scheduled(alloc: Global, net: &Net, schedule: &Schedule) -> Result<Vec<bool>, NoMemory>
    requires { All (AreNamed net.now) (rows_of schedule.now) }
    ensures { IfOk result (λ v. AreMarked net.now (rows_of schedule.now) v.items) }
{
    let mut marks = vec![in alloc; false; net.len() as usize]?;
    for row in &schedule.rows {
        mark_row(&mut marks, row);
    }
    Ok(marks)
}

/// Where the values of a block lie.
pub fn layout(layouts: &[BlockLayout], block: u32) -> &BlockLayout
    requires least { 1 ≤ block }
    requires most { block ≤ length layouts.now }
    ensures { plain_places result.now ≡ laid_at layouts.now block }
{
    &layouts[block as usize - 1]
}
