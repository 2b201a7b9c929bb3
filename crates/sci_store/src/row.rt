// The row of a source: the blocks that it may activate, made ready for its reactions.
ghost use Rattle.std.specs.Prelude.{◌≡◌, ◌≢◌, ◌<◌, ◌↔◌, ℕ, List, map, length, true, nat_eq, All, AllPairs, Contains, IfOk, OnOk, IsTrue, is_none, ◌&&◌};
ghost use Rattle.std.specs.List.{IsDistinct};
ghost use Rattle.sci_forms.specs.Form.{has_delay, is_halt, remembers};
ghost use Rattle.sci_net.specs.Parts.{IsBlock};
ghost use Rattle.sci_reaction.specs.declared.entry.Entry.{Entry};
ghost use Rattle.sci_reaction.specs.Kept.{entries_of};
ghost use Rattle.sci_reaction.specs.Schedule.{blocks_of};
ghost use Rattle.sci_store.specs.Blocks.{AreBlocksByNumber};
ghost use Rattle.sci_store.specs.Chosen.{of_kinds};
ghost use Rattle.sci_store.specs.Frame.{seat_of};
ghost use Rattle.sci_store.specs.Ranks.{are_alike, IsRankOf, AreRanked, AreCallsBy, AreRunsBy, AreGuardedBy};
ghost use Rattle.sci_store.specs.Members.{AreGuardedMembers, shown_members};
ghost use Rattle.sci_store.specs.Rows.{is_guarded, IsAlone, Join, then_block, IsRowFor, AreByNumber, guarded_blocks};

use crate::frame::Frame;
use sci_bank::Call;
use sci_base::NoMemory;
use sci_kinds::Kind;
use sci_reaction::Entry;
use std::alloc::Global;
use std::marker::Model;
use std::mem::replace;

/// Blocks of one depth and one kind, by number.
#[derive(Clone, Copy, Drop)]
pub(crate) struct Run {
    pub kind: Kind,
    /// Whether their bank does them in one call.
    pub together: bool,
    /// Whether it depends on guards which of them are active, and on which activation inputs.
    pub guarded: bool,
    /// Whether it is the last of its depth.
    pub last: bool,
    /// Their calls are those from `start` to before `end`.
    pub start: usize,
    pub end: usize,
    /// Where they are guarded, the place of the entry of the first.
    pub entries: usize,
}

/// Calls of blocks, and the runs that they form.
#[derive(Drop)]
pub(crate) struct Runs {
    pub runs: Vec<Run>,
    pub calls: Vec<Call>,
}

/// Values that are shown in one piece, from `start` to before `end`.
#[derive(Clone, Copy, Drop)]
pub(crate) struct Show {
    pub start: usize,
    pub end: usize,
    /// The block that is asked whether it is active; none where the source activates all of these whatever the values are.
    pub asked: Option<u32>,
}

/// The blocks that a source may activate, made ready for its reactions.
#[derive(Drop)]
pub struct ReadyRow {
    // the outputs, by depth
    pub(crate) values: Runs,
    // the entries of the guarded blocks, in the order of their calls
    pub(crate) entries: Vec<Entry>,
    // the next states, of the blocks that remember more than their outputs
    pub(crate) states: Runs,
    // by block
    pub(crate) shows: Vec<Show>,
    /// All blocks, by number.
    pub blocks: Vec<u32>,
    /// Those with delays, which program events.
    pub delays: Vec<u32>,
    /// Those that end the run.
    pub halts: Vec<u32>,
}

// Where a block stands among the calls: by depth, those without guards first, and those first that their bank does in one call.
#[derive(Clone, Copy, Drop, PartialEq, Eq, PartialOrd, Ord)]
struct CallRank {
    depth: usize,
    guarded: bool,
    alone: bool,
    kind: u8,
    block: u32,
    // the place of its entry
    at: usize,
}

impl CallRank {
    // Whether two blocks that follow one another are of one run.
    fn is_with(&self, next: &CallRank) -> bool
        ensures { result ≡ are_alike self.now next.now }
    {
        self.depth == next.depth
            && self.guarded == next.guarded
            && self.alone == next.alone
            && self.kind == next.kind
    }
}

// Whether guards may leave the block idle, or activate it on more activation inputs.
fn is_guarded(entry: &Entry) -> bool
    ensures { result ≡ is_guarded entry.now }
{
    !entry.always || !entry.guards.is_empty()
}

// Whether a block is done by itself: some input has not one element, it has more elements of outputs than one, or it does more than give values.
fn is_alone(frame: &Frame, block: u32) -> bool
    requires { IsBlock frame.now.net block }
    ensures { IsTrue result ↔ IsAlone frame.now block }
{
    let kind = frame.seat(block).kind;
    kind.is_sync() || kind.is_sensor() || !frame.places.blocks()[block as usize - 1].is_lone()
}

// Where the block of an entry stands among blocks of these depths.
fn rank_of(frame: &Frame, entry: &Entry, depth: usize, at: usize) -> CallRank
    requires { IsBlock frame.now.net entry.now.block }
    ensures rank { IsRankOf frame.now entry.now result }
    ensures depth { result.depth ≡ depth }
    ensures at { result.at ≡ at }
{
    CallRank {
        depth,
        guarded: is_guarded(entry),
        alone: is_alone(frame, entry.block),
        kind: frame.seat(entry.block).kind.number(),
        block: entry.block,
        at,
    }
}

// The entries in the order in which their values are found.
fn by_depth(alloc: Global, frame: &Frame, entries: &[Entry]) -> Result<Vec<CallRank>, NoMemory>
    requires { All (λ e. IsBlock frame.now.net e.block) entries.now }
    ensures { IfOk result (λ v. AreRanked frame.now (λ e. true) (λ e. e.depth) entries.now v.items) }
{
    let mut ranks = Vec::with_capacity(alloc, entries.len())?;
    for at in 0..entries.len() {
        let entry = &entries[at];
        ranks.push(rank_of(frame, entry, entry.depth, at))?;
    }
    ranks.sort_unstable();
    Ok(ranks)
}

// Those that remember more than their outputs, in an order in which their states are stepped.
fn remembering(alloc: Global, frame: &Frame, entries: &[Entry]) -> Result<Vec<CallRank>, NoMemory>
    requires { All (λ e. IsBlock frame.now.net e.block) entries.now }
    ensures { IfOk result (λ v. AreRanked frame.now (λ e. remembers (seat_of frame.now e.block).kind) (λ e. 0) entries.now v.items) }
{
    let mut ranks = Vec::new(alloc);
    for at in 0..entries.len() {
        let entry = &entries[at];
        if frame.seat(entry.block).kind.remembers() {
            ranks.push(rank_of(frame, entry, 0, at))?;
        }
    }
    ranks.sort_unstable();
    Ok(ranks)
}

// The calls of blocks in an order, on the activation inputs that the source feeds.
fn calls(
    alloc: Global,
    frame: &Frame,
    entries: &[Entry],
    order: &[CallRank],
) -> Result<Vec<Call>, NoMemory>
    requires places { All (λ r. r.at < length entries.now) order.now }
    requires blocks { All (λ r. IsBlock frame.now.net r.block) order.now }
    ensures { IfOk result (λ v. AreCallsBy frame.now entries.now order.now v.items) }
{
    let mut calls = Vec::with_capacity(alloc, order.len())?;
    for rank in order {
        calls.push(Call {
            slot: frame.seat(rank.block).slot,
            block: rank.block,
            mask: entries[rank.at].mask,
        })?;
    }
    Ok(calls)
}

// The runs of blocks in an order.
fn runs_of(alloc: Global, frame: &Frame, order: &[CallRank]) -> Result<Vec<Run>, NoMemory>
    requires { All (λ r. IsBlock frame.now.net r.block) order.now }
    ensures runs { IfOk result (λ v. AreRunsBy frame.now order.now v.items) }
    ensures joined { IfOk result (λ v. Join 0 (length order.now) v.items) }
{
    let mut runs = Vec::new(alloc);
    let mut start = 0;
    let mut entries = 0;
    for at in 0..order.len() {
        let rank = &order[at];
        let end = at + 1;
        if end < order.len() && rank.is_with(&order[end]) {
            continue;
        }
        runs.push(Run {
            kind: frame.seat(rank.block).kind,
            together: !rank.alone,
            guarded: rank.guarded,
            last: end == order.len() || rank.depth != order[end].depth,
            start,
            end,
            entries,
        })?;
        if rank.guarded {
            entries += end - start;
        }
        start = end;
    }
    Ok(runs)
}

// The runs and the calls of blocks in an order.
fn in_runs(
    alloc: Global,
    frame: &Frame,
    entries: &[Entry],
    order: &[CallRank],
) -> Result<Runs, NoMemory>
    requires places { All (λ r. r.at < length entries.now) order.now }
    requires blocks { All (λ r. IsBlock frame.now.net r.block) order.now }
    ensures runs { IfOk result (λ v. AreRunsBy frame.now order.now v.runs.items) }
    ensures joined { IfOk result (λ v. Join 0 (length order.now) v.runs.items) }
    ensures calls { IfOk result (λ v. AreCallsBy frame.now entries.now order.now v.calls.items) }
{
    Ok(Runs {
        runs: runs_of(alloc, frame, order)?,
        calls: calls(alloc, frame, entries, order)?,
    })
}

// The entries of the guarded ones of some blocks in an order.
fn guarded(alloc: Global, entries: &mut [Entry], order: &[CallRank]) -> Result<Vec<Entry>, NoMemory>
    requires places { All (λ r. r.at < length entries.old) order.now }
    requires apart { AllPairs (λ r q. r.at ≢ q.at) order.now }
    ensures { IfOk result (λ v. AreGuardedBy entries.old order.now v.items) }
{
    let mut kept = Vec::new(alloc);
    for rank in order {
        let entry = &mut entries[rank.at];
        if rank.guarded {
            kept.push(Entry {
                block: entry.block,
                depth: entry.depth,
                always: entry.always,
                mask: entry.mask,
                guards: replace(&mut entry.guards, Vec::new(alloc)),
            })?;
        }
    }
    Ok(kept)
}

// A block of a row, and whether it is guarded.
#[derive(Clone, Copy, Drop, PartialEq, Eq, PartialOrd, Ord)]
struct Member {
    block: u32,
    guarded: bool,
}

// The blocks of some entries by number.
fn members(alloc: Global, entries: &[Entry]) -> Result<Vec<Member>, NoMemory>
    requires { IsDistinct nat_eq (blocks_of (entries_of entries.now)) }
    ensures blocks { IfOk result (λ v. AreByNumber (blocks_of (entries_of entries.now)) (map (λ m. m.block) v.items)) }
    ensures guarded { IfOk result (λ v. All (λ m. (m.guarded ≡ true) ↔ Contains (guarded_blocks entries.now) m.block) v.items) }
{
    let mut members = Vec::with_capacity(alloc, entries.len())?;
    for entry in entries {
        members.push(Member {
            block: entry.block,
            guarded: is_guarded(entry),
        })?;
    }
    members.sort_unstable();
    Ok(members)
}

// The numbers of blocks.
fn numbers(alloc: Global, members: &[Member]) -> Result<Vec<u32>, NoMemory>
    ensures { IfOk result (λ v. v.items ≡ map (λ m. m.block) members.now) }
{
    Ok(members.iter().map(|member| member.block).collect(alloc)?)
}

// Whether values follow upon those of a piece, and neither are asked.
fn adjoins(last: &Show, show: &Show) -> bool
    ensures { result ≡ (nat_eq last.now.end show.now.start && (is_none last.now.asked && is_none show.now.asked)) }
{
    last.end == show.start && last.asked.is_none() && show.asked.is_none()
}

// Adds the values of a block behind those that are shown before; they are one piece where they adjoin and none of them is asked.
fn push_show(shows: &mut Vec<Show>, show: Show) -> Result<(), NoMemory>
    ensures { OnOk result (shows.new.items ≡ then_block shows.old.items show) }
{
    if show.start == show.end {
        return Ok(());
    }
    let count = shows.len();
    if count == 0 {
        return Ok(shows.push(show)?);
    }
    if adjoins(&shows[count - 1], &show) {
        shows[count - 1].end = show.end;
        return Ok(());
    }
    Ok(shows.push(show)?)
}

// The values of some blocks that are shown, by block.
fn shows(alloc: Global, frame: &Frame, members: &[Member]) -> Result<Vec<Show>, NoMemory>
    requires { All (λ m. IsBlock frame.now.net m.block) members.now }
    ensures { (guarded : List ℕ) → AreGuardedMembers guarded members.now → IfOk result (λ v. v.items ≡ shown_members frame.now guarded members.now) }
{
    let mut shows = Vec::new(alloc);
    for member in members {
        let place = frame.places.outs(member.block);
        push_show(
            &mut shows,
            Show {
                start: place.start,
                end: place.start + place.len,
                asked: if member.guarded {
                    Some(member.block)
                } else {
                    None
                },
            },
        )?;
    }
    Ok(shows)
}

// Those of some blocks that have delays.
fn delays(alloc: Global, frame: &Frame, blocks: &[u32]) -> Result<Vec<u32>, NoMemory>
    requires { AreBlocksByNumber frame.now.net blocks.now }
    ensures { IfOk result (λ v. v.items ≡ of_kinds frame.now.net has_delay blocks.now) }
{
    frame.well_formed();
    let mut some = Vec::new(alloc);
    for block in blocks {
        if frame.seat(*block).kind.has_delay() {
            some.push(*block)?;
        }
    }
    Ok(some)
}

// Those of some blocks that end the run.
fn halts(alloc: Global, frame: &Frame, blocks: &[u32]) -> Result<Vec<u32>, NoMemory>
    requires { AreBlocksByNumber frame.now.net blocks.now }
    ensures { IfOk result (λ v. v.items ≡ of_kinds frame.now.net is_halt blocks.now) }
{
    frame.well_formed();
    let mut some = Vec::new(alloc);
    for block in blocks {
        if frame.seat(*block).kind.is_halt() {
            some.push(*block)?;
        }
    }
    Ok(some)
}

impl Model for ReadyRow {
    ghost use Rattle.sci_store.specs.Rows.{ReadyRow as Plain};

    ghost Value = { Plain };

    ghost use Rattle.sci_store.specs.Views.{seen_row};

    ghost view = { seen_row };
}

impl ReadyRow {
    /// The row of these entries.
    pub fn of(alloc: Global, frame: &Frame, entries: Vec<Entry>) -> Result<ReadyRow, NoMemory>
        requires blocks { All (λ e. IsBlock frame.now.net e.block) entries.items }
        requires once { IsDistinct nat_eq (blocks_of (entries_of entries.items)) }
        ensures { IfOk result (λ r. IsRowFor frame.now entries.items r) }
    {
        let mut entries = entries;
        let members = members(alloc, &entries)?;
        let blocks = numbers(alloc, &members)?;
        let shows = shows(alloc, frame, &members)?;
        let delays = delays(alloc, frame, &blocks)?;
        let halts = halts(alloc, frame, &blocks)?;
        let steps = remembering(alloc, frame, &entries)?;
        let states = in_runs(alloc, frame, &entries, &steps)?;
        let order = by_depth(alloc, frame, &entries)?;
        let values = in_runs(alloc, frame, &entries, &order)?;
        let entries = guarded(alloc, &mut entries, &order)?;
        Ok(ReadyRow {
            values,
            entries,
            states,
            shows,
            blocks,
            delays,
            halts,
        })
    }
}
