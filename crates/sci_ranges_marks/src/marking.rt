// Marking the blocks of each row that its source may activate.
ghost use Rattle.std.specs.Prelude.{◌≡◌, ◌<◌, ◌≤◌, [], slice_set, true, false, None, if◌then◌else◌, All, IfOk, OnOk, length, map};
ghost use Rattle.std.specs.List.{list_any};
ghost use Rattle.sci_net.specs.Parts.{IsBlock, rows_of, spec_of};
ghost use Rattle.sci_base.specs.Lists.{truth_at};
ghost use Rattle.sci_reaction.specs.Schedule.{IsSchedule};
ghost use Rattle.sci_reaction.specs.Kept.{guard_of, entry_of as plain_entry, entries_of};
ghost use Rattle.sci_run.specs.Laws.{AreLoopFree};
ghost use Rattle.sci_ranges_reads.specs.Live.{may_program};
ghost use Rattle.sci_ranges_rows.specs.Marks.{dead_of, lets, is_let, acts_in};
ghost use Rattle.sci_ranges_marks.specs.Branches.{AreFewBranches};
ghost use Rattle.sci_ranges_marks.specs.View.{lists_of, row_of};

use crate::indexed_row::IndexedRow;
use crate::lists::truth_at;
use crate::marks::{RowMarks, lets};
use sci_base::NoMemory;
use sci_kinds::{Kind, Spec};
use sci_net::{Feed, Net};
use sci_reaction::{Entry, Guard};
use std::alloc::Global;

/// Whether one of these branches may be taken.
fn lets_some(dead: &[Vec<bool>], acts: &[bool], guards: &[Guard]) -> bool
    ensures { result ≡ list_any (λ g. lets (dead_of (rows_of dead.now)) acts.now (guard_of g)) guards.now }
{
    guards.iter().any(|guard| lets(dead, acts, guard))
}

/// Whether the block of an entry may act, where the blocks before it are marked.
fn is_let(dead: &[Vec<bool>], acts: &[bool], entry: &Entry) -> bool
    ensures { result ≡ is_let (dead_of (rows_of dead.now)) acts.now (plain_entry entry.now) }
{
    entry.always || lets_some(dead, acts, &entry.guards)
}

/// Of so many blocks, counted from 1, the marks of those that the source of a row may activate.
fn mark_row(
    alloc: Global,
    dead: &[Vec<bool>],
    count: u32,
    row: &[Entry],
) -> Result<Vec<bool>, NoMemory>
    requires { All (λ e. e.block ≤ count) row.now }
    ensures { IfOk result (λ v. v.items ≡ acts_in (dead_of (rows_of dead.now)) count (entries_of row.now)) }
{
    let mut acts = vec![in alloc; false; count as usize + 1]?;
    for k in 0..row.len() {
        let on = is_let(dead, &acts, &row[k]);
        acts[row[k].block as usize] = on;
    }
    Ok(acts)
}

/// The same of each row.
fn mark_rows(
    alloc: Global,
    dead: &[Vec<bool>],
    net: &Net,
    rows: &[IndexedRow],
) -> Result<Vec<Vec<bool>>, NoMemory>
    requires { IsSchedule net.now (map row_of rows.now) }
    ensures { IfOk result (λ v. rows_of v.items ≡ map (acts_in (dead_of (rows_of dead.now)) (length net.now.specs)) (map row_of rows.now)) }
{
    let mut acts = Vec::with_capacity(alloc, rows.len())?;
    for k in 0..rows.len() {
        acts.push(mark_row(alloc, dead, net.len(), rows[k].entries())?)?;
    }
    Ok(acts)
}

/// Whether a block may program its activation output.
pub fn may_program(spec: &Spec) -> bool
    ensures { result ≡ may_program spec.now }
{
    match spec.kind {
        Kind::EvtDly => 0 <= spec.params.at(0),
        Kind::EvtVarDly => true,
        _ => false,
    }
}

/// Whether none of the marked blocks of a row may program its activation output.
fn programs_none(net: &Net, row: &[Entry], acts: &[bool]) -> bool
    requires { All (λ e. IsBlock net.now e.block) row.now }
    ensures { result ≡ true → All (λ e. truth_at acts.now e.block ≡ true → may_program (spec_of net.now e.block) ≡ false) row.now }
{
    for k in 0..row.len() {
        let block = row[k].block;
        if truth_at(acts, block as usize) && may_program(net.spec(block)) {
            return false;
        }
    }
    true
}

/// The one branch that a row may take to an entry, where the entry isn't always activated.
fn only_branch(dead: &[Vec<bool>], acts: &[bool], entry: &Entry) -> Option<Feed> {
    if entry.always {
        return None;
    }
    for guard in entry.guards.iter() {
        if lets(dead, acts, guard) {
            return Some(Feed {
                block: guard.block,
                port: guard.port,
            });
        }
    }
    None
}

/// A branch under which the block of an entry may act, where none was found by an earlier row.
fn note_branch(under: &mut [Option<Feed>], dead: &[Vec<bool>], acts: &[bool], entry: &Entry) {
    let at = entry.block as usize;
    if at < under.len() && under[at].is_none() && truth_at(acts, at) {
        under[at] = only_branch(dead, acts, entry);
    }
}

/// The same for each entry of a row.
fn note_branches(under: &mut [Option<Feed>], dead: &[Vec<bool>], acts: &[bool], row: &[Entry]) {
    for entry in row {
        note_branch(under, dead, acts, entry);
    }
}

/// Of so many blocks, counted from 1, a branch under which each may act.
fn branches(
    alloc: Global,
    dead: &[Vec<bool>],
    acts: &[Vec<bool>],
    count: u32,
    rows: &[IndexedRow],
) -> Result<Vec<Option<Feed>>, NoMemory> {
    let mut under = vec![in alloc; None; count as usize + 1]?;
    for k in 0..rows.len() {
        if k < acts.len() {
            note_branches(&mut under, dead, &acts[k], rows[k].entries());
        }
    }
    Ok(under)
}

/// The place of the first event, where start is quiet.
fn first_if(quiet: bool, first: Option<u32>) -> Option<u32>
    ensures { result ≡ (if quiet then first else None) }
{
    if quiet { first } else { None }
}

/// The rows made ready for so many blocks.
fn indexed(alloc: Global, net: &Net, rows: Vec<Vec<Entry>>) -> Result<Vec<IndexedRow>, NoMemory>
    requires { IsSchedule net.now (lists_of rows.items) }
    ensures { IfOk result (λ v. map row_of v.items ≡ lists_of rows.items) }
{
    let mut ready = Vec::with_capacity(alloc, rows.len())?;
    for row in rows {
        ready.push(IndexedRow::of(alloc, row, net.len())?)?;
    }
    Ok(ready)
}

impl RowMarks {
    ghost use Rattle.sci_ranges_marks.specs.View.{marks_of, with_live, IsFirstPlace, AreMarked};

    /// The rows of a net's schedule, with these branches dead and these sources live; no block is marked yet.
    pub fn new(
        alloc: Global,
        net: &Net,
        rows: Vec<Vec<Entry>>,
        dead: Vec<Vec<bool>>,
        live: Vec<bool>,
    ) -> Result<RowMarks, NoMemory>
        requires rows { IsSchedule net.now (lists_of rows.items) }
        requires few { AreFewBranches dead.items }
        ensures { IfOk result (λ m. (marks_of m).rows ≡ lists_of rows.items) }
    {
        Ok(RowMarks {
            rows: indexed(alloc, net, rows)?,
            dead,
            live,
            acts: Vec::new(alloc),
            first: None,
            under: Vec::new(alloc),
        })
    }

    /// Tells anew which sources are live.
    pub fn set_live(&mut self, live: Vec<bool>)
        ensures rows { (marks_of self.new).rows ≡ (marks_of self.old).rows }
        ensures changed { marks_of self.new ≡ with_live (marks_of self.old) live.items }
    {
        self.live = live;
    }

    /// The source of a place is live as well.
    pub fn add_live(&mut self, place: u32)
        requires { place < length (marks_of self.old).live }
        ensures { marks_of self.new ≡ with_live (marks_of self.old) (slice_set (marks_of self.old).live place true) }
    {
        self.live[place as usize] = true;
    }

    /// A branch of a block is dead no longer.
    pub fn revive(&mut self, block: u32, port: u32)
        ensures { (marks_of self.new).rows ≡ (marks_of self.old).rows }
    {
        let block = block as usize;
        let port = port as usize;
        if block < self.dead.len() && port < self.dead[block].len() {
            self.dead[block][port] = false;
        }
    }

    /// No branch is dead any longer.
    pub fn revive_all(&mut self, alloc: Global)
        ensures rows { (marks_of self.new).rows ≡ (marks_of self.old).rows }
        ensures dead { (marks_of self.new).dead ≡ [] }
    {
        self.dead = Vec::new(alloc);
    }

    /// Marks anew, for the dead branches as they are, which blocks each source may activate; the place of the first event, where start programs
    /// nothing; and for each block a branch under which it may act.
    pub fn mark(&mut self, alloc: Global, net: &Net, first: Option<u32>) -> Result<(), NoMemory>
        requires free { AreLoopFree net.now }
        requires rows { IsSchedule net.now (marks_of self.old).rows }
        requires first { IsFirstPlace net.now first }
        ensures marked { OnOk result (AreMarked net.now (marks_of self.new)) }
        ensures rows { (marks_of self.new).rows ≡ (marks_of self.old).rows }
        ensures dead { (marks_of self.new).dead ≡ (marks_of self.old).dead }
        ensures live { (marks_of self.new).live ≡ (marks_of self.old).live }
    {
        net.well_formed();
        let acts = mark_rows(alloc, &self.dead, net, &self.rows)?;
        let quiet = programs_none(net, self.rows[0].entries(), &acts[0]);
        let under = branches(alloc, &self.dead, &acts, net.len(), &self.rows)?;
        self.first = first_if(quiet, first);
        self.under = under;
        self.acts = acts;
        Ok(())
    }
}
