// Which sources may ever react, and which branches may be taken. Nothing is proved of them while a table is widened, since the pass decides; of the table
// that is told exactly the sources that may ever react are marked.
ghost use Rattle.std.specs.Prelude.{◌≡◌, ◌<◌, ◌≤◌, ◌+◌, ◌^◌, true, length, IfOk, OnOk};
ghost use Rattle.sci_base.specs.declared.limits.TheConstants.{PORTS};
ghost use Rattle.sci_forms.specs.Typed.{typed};
ghost use Rattle.sci_net.specs.Sources.{sources_of};
ghost use Rattle.sci_reaction.specs.Schedule.{IsSchedule};
ghost use Rattle.sci_run.specs.Laws.{AreLoopFree};
ghost use Rattle.sci_ranges_pass.specs.Pass.{marks_live};
ghost use Rattle.sci_ranges_marks.specs.Branches.{AreFewBranches};
ghost use Rattle.sci_ranges_marks.specs.View.{marks_of, lists_of, AreMarked};
ghost use Rattle.sci_ranges_find.specs.Live.{AreSound};

use crate::pass::{first_missing, is_dated, marks_place};
use sci_base::NoMemory;
use sci_kinds::Spec;
use sci_net::{Net, Source};
use sci_ranges_marks::{RowMarks, may_program};
use sci_reaction::Entry;
use std::alloc::Global;

/// Branches 1 to `count` are dead; there is no branch 0.
fn dead_to(alloc: Global, count: u32) -> Result<Vec<bool>, NoMemory>
    requires { count ≤ PORTS }
    ensures { IfOk result (λ v. length v.items ≡ count + 1) }
{
    let mut dead = vec![in alloc; true; count as usize + 1]?;
    dead[0] = false;
    Ok(dead)
}

/// By branch of a block, whether it is dead: each one of a condition.
fn first_dead(alloc: Global, spec: &Spec) -> Result<Vec<bool>, NoMemory>
    requires { typed spec.now ≡ true }
    ensures { IfOk result (λ v. length v.items < 2 ^ 32) }
{
    if spec.kind.is_sync() {
        let dead = dead_to(alloc, spec.evtout)?;
        return Ok(dead);
    }
    Ok(Vec::new(alloc))
}

/// By block and branch: none is taken yet.
fn dead_branches(alloc: Global, net: &Net) -> Result<Vec<Vec<bool>>, NoMemory>
    ensures { IfOk result (λ v. AreFewBranches v.items) }
{
    let mut dead = Vec::new(alloc);
    dead.push(Vec::new(alloc))?;
    for block in 0..net.len() {
        let branches = first_dead(alloc, net.spec(block + 1))?;
        dead.push(branches)?;
    }
    Ok(dead)
}

/// Marks of rows in which no branch is taken and no source is live yet.
pub fn first_marks(alloc: Global, net: &Net, rows: Vec<Vec<Entry>>) -> Result<RowMarks, NoMemory>
    requires { IsSchedule net.now (lists_of rows.items) }
    ensures { IfOk result (λ m. (marks_of m).rows ≡ lists_of rows.items) }
{
    let dead = dead_branches(alloc, net)?;
    RowMarks::new(alloc, net, rows, dead, Vec::new(alloc))
}

/// By block the place of the source that it programs, if it may program one.
fn programmed(alloc: Global, net: &Net) -> Result<Vec<Option<u32>>, NoMemory> {
    let mut places = vec![in alloc; None; net.len() as usize + 1]?;
    for place in 0..net.source_count() {
        if let Source::Port(q) = net.source(place) {
            let block = q.block as usize;
            if block < places.len() && may_program(net.spec(q.block)) {
                places[block] = Some(place);
            }
        }
    }
    Ok(places)
}

/// Whether a source reacts before any block programs it: start, and where it has a first event.
fn is_first(net: &Net, place: u32) -> bool
    requires { place < length (sources_of net.now) }
{
    match net.source(place) {
        Source::Start => true,
        Source::Port(q) => is_dated(net, q),
    }
}

/// By place whether a source is live, and the places of those that are, in the order in which they came to be.
#[derive(Drop)]
struct Spread {
    live: Vec<bool>,
    order: Vec<u32>,
}

impl Spread {
    /// A source is live.
    fn add(&mut self, place: u32) -> Result<(), NoMemory> {
        let at = place as usize;
        if at < self.live.len() && !self.live[at] {
            self.live[at] = true;
            self.order.push(place)?;
        }
        Ok(())
    }

    /// Start, and the sources that have a first event.
    fn first(alloc: Global, net: &Net) -> Result<Spread, NoMemory> {
        let mut spread = Spread {
            live: vec![in alloc; false; net.source_count() as usize]?,
            order: Vec::new(alloc),
        };
        for place in 0..net.source_count() {
            if is_first(net, place) {
                spread.add(place)?;
            }
        }
        Ok(spread)
    }

    /// The sources that the blocks of a live source's row program.
    fn follow(
        &mut self,
        marks: &RowMarks,
        places: &[Option<u32>],
        k: usize,
    ) -> Result<(), NoMemory> {
        for entry in marks.row(k) {
            let block = entry.block as usize;
            if block < places.len() && marks.acts(k, entry.block) {
                if let Some(place) = places[block] {
                    self.add(place)?;
                }
            }
        }
        Ok(())
    }

    /// All sources that the marked blocks make live.
    fn of(alloc: Global, net: &Net, marks: &RowMarks) -> Result<Spread, NoMemory> {
        let places = programmed(alloc, net)?;
        let mut spread = Spread::first(alloc, net)?;
        for at in 0..net.source_count() as usize {
            if at >= spread.order.len() {
                break;
            }
            let place = spread.order[at];
            spread.follow(marks, &places, place as usize)?;
        }
        Ok(spread)
    }
}

/// Tells the marks which sources are live, where the blocks are marked.
pub fn make_live(alloc: Global, net: &Net, marks: &mut RowMarks) -> Result<(), NoMemory>
    ensures { (marks_of marks.new).rows ≡ (marks_of marks.old).rows }
{
    let spread = Spread::of(alloc, net, marks)?;
    marks.set_live(spread.live);
    Ok(())
}

/// Marks the source of a place, where by the marks so far it has to be.
fn mark_missing(net: &Net, marks: &mut RowMarks, place: u32)
    requires free { AreLoopFree net.now }
    requires sound { AreSound net.now (marks_of marks.old) }
    ensures sound { AreSound net.now (marks_of marks.new) }
    ensures dead { (marks_of marks.new).dead ≡ (marks_of marks.old).dead }
{
    net.well_formed();
    if place >= net.source_count() {
        return;
    }
    if marks_place(net, marks, place) {
        return;
    }
    marks.add_live(place);
}

/// The same of each of these places, in their order.
fn mark_in_order(net: &Net, marks: &mut RowMarks, order: &[u32])
    requires free { AreLoopFree net.now }
    requires sound { AreSound net.now (marks_of marks.old) }
    ensures sound { AreSound net.now (marks_of marks.new) }
    ensures dead { (marks_of marks.new).dead ≡ (marks_of marks.old).dead }
{
    for place in order {
        mark_missing(net, marks, *place);
    }
}

/// The same of all places, until none is missing.
fn mark_rest(net: &Net, marks: &mut RowMarks)
    requires free { AreLoopFree net.now }
    requires sound { AreSound net.now (marks_of marks.old) }
    ensures sound { AreSound net.now (marks_of marks.new) }
    ensures all { marks_live net.now (marks_of marks.new) ≡ true }
    ensures dead { (marks_of marks.new).dead ≡ (marks_of marks.old).dead }
{
    net.well_formed();
    while let Some(place) = first_missing(net, marks) {
        marks.add_live(place);
    }
}

/// Marks exactly the sources that may ever react, where the blocks are marked.
pub fn mark_live(alloc: Global, net: &Net, marks: &mut RowMarks) -> Result<(), NoMemory>
    requires free { AreLoopFree net.now }
    requires marked { AreMarked net.now (marks_of marks.old) }
    ensures sound { OnOk result (AreSound net.now (marks_of marks.new)) }
    ensures all { OnOk result (marks_live net.now (marks_of marks.new) ≡ true) }
    ensures dead { OnOk result ((marks_of marks.new).dead ≡ (marks_of marks.old).dead) }
{
    let spread = Spread::of(alloc, net, marks)?;
    let none = vec![in alloc; false; net.source_count() as usize]?;
    marks.set_live(none);
    mark_in_order(net, marks, &spread.order);
    mark_rest(net, marks);
    Ok(())
}
