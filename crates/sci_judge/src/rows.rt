// What each source may do in a reaction.
ghost use Rattle.std.specs.Prelude.{◌≡◌, ◌<◌, ◌+◌, length, map, All, IfOk, IsTrue, ◌↔◌};
ghost use Rattle.sci_net.specs.Parts.{IsBlock};
ghost use Rattle.sci_net.specs.Sources.{sources_of, source_of};
ghost use Rattle.sci_reaction.specs.Depends.{IsLoopFree};
ghost use Rattle.sci_reaction.specs.Schedule.{blocks_of};
ghost use Rattle.sci_inherit.specs.Origins.{AreOrigins};
ghost use Rattle.sci_dep.specs.Tables.{AreWaits, ArePossible};
ghost use Rattle.sci_rounds.specs.Rounds.{TellsActivation};
ghost use Rattle.sci_judge.specs.Entries.{AreAlways};
ghost use Rattle.sci_reaction.specs.Kept.{entries_of};
ghost use Rattle.sci_judge.specs.Programming.{IsDelayed, AreSourcesOf};
ghost use Rattle.sci_judge.specs.Rounds.{ranked};
ghost use Rattle.sci_judge.specs.Rows.{IsPlanOf, ArePlans, IsOfFound};

use crate::entries::entry_for;
use crate::rounds::{BlockRound, by_rounds};
use sci_base::NoMemory;
use sci_dep::{Waits, depends, possible, waits};
use sci_inherit::{Reach, origins};
use sci_kept::Kept;
use sci_loop::walk::Walk;
use sci_net::{Net, Source};
use sci_reaction::Entry;
use sci_store::ReadyRow;
use std::alloc::Global;

/// What a source may do in a reaction.
#[derive(Drop)]
pub struct SourcePlan {
    /// Its possible blocks.
    pub row: ReadyRow,
    /// The sources that they are, by place, where they have delays.
    pub sources: Vec<u32>,
}

// The entries of these blocks.
fn entries(
    alloc: Global,
    net: &Net,
    reach: &Reach,
    source: u32,
    possible: &Walk,
    always: &Walk,
    ranks: &[BlockRound],
) -> Result<Vec<Entry>, NoMemory>
    requires reach { AreOrigins net.now reach.now }
    requires source { source < length (sources_of net.now) }
    requires count { possible.now.count ≡ length net.now.specs + 1 }
    requires always_count { always.now.count ≡ length net.now.specs + 1 }
    requires possible { ArePossible net.now (source_of net.now source) possible.now.found }
    requires always { AreAlways net.now (source_of net.now source) always.now.found }
    requires blocks { All (λ r. IsBlock net.now r.block) ranks.now }
    ensures blocks { IfOk result (λ v. blocks_of (entries_of v.items) ≡ ranked ranks.now) }
    ensures depths { IfOk result (λ v. map (λ e. e.depth) v.items ≡ map (λ r. r.depth) ranks.now) }
    ensures tells { IfOk result (λ v. All (TellsActivation net.now (source_of net.now source)) (entries_of v.items)) }
{
    let mut entries = Vec::with_capacity(alloc, ranks.len())?;
    for rank in ranks {
        entries.push(entry_for(alloc, net, reach, source, possible, always, *rank)?)?;
    }
    Ok(entries)
}

// Whether the source at this place is an activation output of a block with delays that was found.
fn is_delayed(net: &Net, found: &Walk, source: u32) -> bool
    requires source { source < length (sources_of net.now) }
    requires count { found.now.count ≡ length net.now.specs + 1 }
    ensures { IsTrue result ↔ (IsDelayed net.now source × IsOfFound net.now found.now.found source) }
{
    match net.source(source) {
        Source::Start => false,
        Source::Port(q) => found.has(q.block) && net.spec(q.block).kind.has_delay(),
    }
}

// The activation outputs of the blocks with delays that were found, by place.
fn delayed(alloc: Global, net: &Net, found: &Walk) -> Result<Vec<u32>, NoMemory>
    requires { found.now.count ≡ length net.now.specs + 1 }
    ensures { IfOk result (λ v. AreSourcesOf net.now found.now.found v.items) }
{
    let mut sources = Vec::new(alloc);
    for source in 0..net.source_count() {
        if is_delayed(net, found, source) {
            sources.push(source)?;
        }
    }
    Ok(sources)
}

// What the source at this place may do. The two walks are over all numbers of blocks and 0.
fn plan_for(
    alloc: Global,
    kept: &Kept,
    reach: &Reach,
    waits: &Waits,
    source: u32,
    found: &mut Walk,
    always: &mut Walk,
) -> Result<SourcePlan, NoMemory>
    requires reach { AreOrigins kept.now.fixed.net reach.now }
    requires waits { AreWaits kept.now.fixed.net waits.now }
    requires source { source < length (sources_of kept.now.fixed.net) }
    requires free { IsLoopFree kept.now.fixed.net (source_of kept.now.fixed.net source) }
    requires count { found.old.count ≡ length kept.now.fixed.net.specs + 1 }
    requires always_count { always.old.count ≡ length kept.now.fixed.net.specs + 1 }
    ensures plan { IfOk result (λ p. IsPlanOf kept.now.fixed (source_of kept.now.fixed.net source) p) }
    ensures count { found.new.count ≡ found.old.count }
    ensures always_count { always.new.count ≡ always.old.count }
{
    kept.well_formed();
    let net = kept.net();
    possible(net, reach, source, found)?;
    let table = depends(alloc, net, waits, found)?;
    let order = by_rounds(alloc, net, &table)?;
    always.take(reach.always(source))?;
    let entries = entries(alloc, net, reach, source, found, always, &order)?;
    let sources = delayed(alloc, net, found)?;
    Ok(SourcePlan {
        row: kept.row_of(alloc, entries)?,
        sources,
    })
}

/// What each source of a net may do, in their order. Want of memory is the only error.
pub fn plans(alloc: Global, kept: &Kept) -> Result<Vec<SourcePlan>, NoMemory>
    ensures { IfOk result (λ v. ArePlans kept.now.fixed v.items) }
{
    kept.well_formed();
    let net = kept.net();
    let reach = origins(alloc, net)?;
    let waits = waits(alloc, net, &reach)?;
    let mut found = Walk::new(alloc, net.len() as usize + 1)?;
    let mut always = Walk::new(alloc, net.len() as usize + 1)?;
    let mut plans = Vec::with_capacity(alloc, net.source_count() as usize)?;
    for source in 0..net.source_count() {
        plans.push(plan_for(alloc, kept, &reach, &waits, source, &mut found, &mut always)?)?;
    }
    Ok(plans)
}
