// Widening a table by the rules until nothing changes. Nothing is proved of what comes of it, since the pass decides.
ghost use Rattle.std.specs.Prelude.{◌≡◌, ◌<◌, length, IfOk, IfSome};
ghost use Rattle.sci_forms.specs.Ports.{total};
ghost use Rattle.sci_net.specs.Parts.{IsBlock, spec_of};
ghost use Rattle.sci_net.specs.Sources.{sources_of};
ghost use Rattle.sci_ranges_marks.specs.View.{marks_of};

use crate::first::first_table;
use crate::following::{Choosing, Following, choosing_of, followed_in, following_of, told_inputs};
use crate::pass::{first_state, is_possible};
use crate::reads::{Reading, entered, masks_for, readings_of};
use crate::table::{RangeTable, elements_of, range_at};
use crate::thresholds::{Moves, Thresholds};
use sci_base::NoMemory;
use sci_net::Net;
use sci_ranges_base::{Cells, Interval, Masks, join, meet, within};
use sci_ranges_kinds::{cells, next_range, taking};
use sci_ranges_marks::RowMarks;
use sci_ranges_sums::{Beside, Leak, aim, find_leak, is_sum, told_sum};
use sci_trace::inputs::Inputs;
use std::alloc::Global;

/// The most sweeps over the blocks. A table that isn't stable then doesn't pass.
const SWEEPS: u32 = 65536;

/// How often each block of a settled table is narrowed.
const NARROWINGS: u32 = 4;

/// A table that is being widened.
#[derive(Drop)]
pub struct Search {
    table: RangeTable,
    // how often the ends of what is shown have moved, and those of the states
    shown: Vec<Vec<Moves>>,
    kept: Vec<Vec<Moves>>,
    thresholds: Thresholds,
    // by block, from 1: the blocks that read what it shows, and whether it is to be visited
    readers: Vec<Vec<u32>>,
    waiting: Vec<bool>,
}

/// What the marks tell of a block that may act: how it takes each of its inputs, the masks that it may have, and what goes in with a sum or a switch.
#[derive(Drop)]
pub struct Acting {
    readings: Vec<Reading>,
    masks: Vec<Masks>,
    following: Option<Following>,
    leak: Option<Leak>,
    choosing: Option<Choosing>,
}

/// The same of any block; nothing of one that never acts and is no condition. The dead branches of a condition that never acts are looked at as well.
fn acting_of(
    alloc: Global,
    net: &Net,
    marks: &RowMarks,
    block: u32,
) -> Result<Option<Acting>, NoMemory>
    requires rows { length (marks_of marks.now).rows ≡ length (sources_of net.now) }
    requires block { IsBlock net.now block }
{
    if !is_possible(marks, block) && !net.spec(block).kind.is_sync() {
        return Ok(None);
    }
    let readings = readings_of(alloc, net, marks, block)?;
    let masks = masks_for(alloc, net, marks, block)?;
    let aimed = aim(net, marks, block);
    let following = following_of(alloc, net, marks, aimed)?;
    let leak = find_leak(net, marks, block);
    let choosing = choosing_of(alloc, net, marks, block)?;
    Ok(Some(Acting {
        readings,
        masks,
        following,
        leak,
        choosing,
    }))
}

/// By block, from 1, what the marks tell of it.
pub fn acting_blocks(
    alloc: Global,
    net: &Net,
    marks: &RowMarks,
) -> Result<Vec<Option<Acting>>, NoMemory>
    requires { length (marks_of marks.now).rows ≡ length (sources_of net.now) }
{
    let mut all = Vec::new(alloc);
    all.push(None)?;
    for block in 0..net.len() {
        let told = acting_of(alloc, net, marks, block + 1)?;
        all.push(told)?;
    }
    Ok(all)
}

/// What is told of a block.
fn acting_at(acting: &[Option<Acting>], block: u32) -> Option<&Acting> {
    if (block as usize) < acting.len() {
        acting[block as usize].as_ref()
    } else {
        None
    }
}

/// As many moves as there are elements in each list: none yet.
fn no_moves<T>(alloc: Global, lists: &[Vec<T>]) -> Result<Vec<Vec<Moves>>, NoMemory> {
    let mut moves = Vec::with_capacity(alloc, lists.len())?;
    for k in 0..lists.len() {
        moves.push(vec![in alloc; Moves::none(); lists[k].len()]?)?;
    }
    Ok(moves)
}

/// Notes a reader of those that feed a block: the block itself, or one that it is looked at with.
fn note_reader(net: &Net, readers: &mut [Vec<u32>], block: u32, reader: u32) -> Result<(), NoMemory>
    requires { IsBlock net.now block }
{
    let spec = net.spec(block);
    for k in 0..spec.ins.len() {
        let port = k as u32 + 1;
        let wire = net.wire(block, port);
        let feeder = wire.block as usize;
        if feeder < readers.len() {
            readers[feeder].push(reader)?;
        }
    }
    Ok(())
}

/// Notes a block as a reader of those that feed a block that it is looked at with.
fn note_following(
    net: &Net,
    readers: &mut [Vec<u32>],
    following: Option<&Following>,
    block: u32,
) -> Result<(), NoMemory> {
    let Some(following) = following else {
        return Ok(());
    };
    let followed = following.block;
    if followed < 1 || followed > net.len() {
        return Ok(());
    }
    note_reader(net, readers, followed, block)
}

/// Notes a block as a reader of those that feed it, and of those that feed the blocks that it is looked at with.
fn note_readings(
    net: &Net,
    readers: &mut [Vec<u32>],
    acting: Option<&Acting>,
    block: u32,
) -> Result<(), NoMemory>
    requires { IsBlock net.now block }
{
    note_reader(net, readers, block, block)?;
    let Some(acting) = acting else {
        return Ok(());
    };
    note_following(net, readers, acting.following.as_ref(), block)?;
    let Some(choosing) = &acting.choosing else {
        return Ok(());
    };
    note_following(net, readers, choosing.compared.as_ref(), block)?;
    note_following(net, readers, choosing.first.as_ref(), block)?;
    note_following(net, readers, choosing.third.as_ref(), block)
}

/// By block, from 1, the blocks that read what it shows.
fn readers(alloc: Global, net: &Net, acting: &[Option<Acting>]) -> Result<Vec<Vec<u32>>, NoMemory> {
    let mut readers = vec_of_lists(alloc, net.len() as usize + 1)?;
    for at in 0..net.len() {
        let block = at + 1;
        note_readings(net, &mut readers, acting_at(acting, block), block)?;
    }
    Ok(readers)
}

/// So many lists, with nothing in them.
fn vec_of_lists(alloc: Global, count: usize) -> Result<Vec<Vec<u32>>, NoMemory> {
    let mut lists = Vec::new(alloc);
    for _ in 0..count {
        lists.push(Vec::new(alloc))?;
    }
    Ok(lists)
}

/// The blocks in the order in which rows first have them, each once.
pub fn visiting_order(alloc: Global, net: &Net, marks: &RowMarks) -> Result<Vec<u32>, NoMemory> {
    let mut order = Vec::new(alloc);
    let mut seen = vec![in alloc; false; net.len() as usize + 1]?;
    for k in 0..marks.sources() {
        push_new(&mut order, &mut seen, marks, k)?;
    }
    Ok(order)
}

/// The blocks of a row that weren't seen before.
fn push_new(
    order: &mut Vec<u32>,
    seen: &mut [bool],
    marks: &RowMarks,
    k: usize,
) -> Result<(), NoMemory> {
    for entry in marks.row(k) {
        let at = entry.block as usize;
        if at < seen.len() && !seen[at] {
            seen[at] = true;
            order.push(entry.block)?;
        }
    }
    Ok(())
}

/// The readers of a block are to be visited.
fn wake(readers: &[Vec<u32>], waiting: &mut [bool], block: usize) {
    if block < readers.len() {
        for reader in &readers[block] {
            if (*reader as usize) < waiting.len() {
                waiting[*reader as usize] = true;
            }
        }
    }
}

impl Search {
    /// A search from the table of first states.
    pub fn new(alloc: Global, net: &Net, inputs: &Inputs) -> Result<Search, NoMemory> {
        let table = first_table(alloc, net)?;
        Ok(Search {
            shown: no_moves(alloc, &table.shows)?,
            kept: no_moves(alloc, &table.states)?,
            table,
            thresholds: Thresholds::of(alloc, net, inputs)?,
            readers: Vec::new(alloc),
            waiting: vec![in alloc; true; net.len() as usize + 1]?,
        })
    }

    /// The table as far as it is widened.
    pub fn into_table(self) -> RangeTable {
        let Search {
            table,
            shown: _,
            kept: _,
            thresholds: _,
            readers: _,
            waiting: _,
        } = self;
        table
    }

    /// Lists the stops of a block, and tells whether any is new.
    fn stop(&mut self, block: usize, cells: Cells) -> bool {
        if block >= self.table.overflows.len() || block >= self.table.zeros.len() {
            return false;
        }
        let new = cells.overflow && !self.table.overflows[block]
            || cells.zero && !self.table.zeros[block];
        self.table.overflows[block] = self.table.overflows[block] || cells.overflow;
        self.table.zeros[block] = self.table.zeros[block] || cells.zero;
        new
    }

    /// Widens what an element shows, and tells whether it changed.
    fn show(&mut self, whole: Interval, block: usize, e: usize, told: Option<Interval>) -> bool {
        if block >= self.table.shows.len() || block >= self.shown.len() {
            return false;
        }
        let row = &mut self.table.shows[block];
        let moves = &mut self.shown[block];
        if e >= row.len() || e >= moves.len() || within(told, row[e]) {
            return false;
        }
        row[e] = match (row[e], told) {
            (Some(old), Some(told)) => Some(moves[e].widened(&self.thresholds, whole, old, told)),
            (old, told) => join(old, told),
        };
        true
    }

    /// Widens a value of the state.
    fn keep(&mut self, whole: Interval, block: usize, k: usize, told: Interval) -> bool {
        if block >= self.table.states.len() || block >= self.kept.len() {
            return false;
        }
        let row = &mut self.table.states[block];
        let moves = &mut self.kept[block];
        let at = if row.len() == 1 { 0 } else { k };
        if at >= row.len() || at >= moves.len() || told.is_within(row[at]) {
            return false;
        }
        row[at] = moves[at].widened(&self.thresholds, whole, row[at], told);
        true
    }

    /// What goes into a block, as its rule is told.
    fn entering(
        &self,
        alloc: Global,
        net: &Net,
        inputs: &Inputs,
        acting: &Acting,
        block: u32,
    ) -> Result<Vec<Option<Interval>>, NoMemory>
        requires { IsBlock net.now block }
    {
        let ins = entered(alloc, net, inputs, &acting.readings, &self.table, block)?;
        let choosing = acting.choosing.as_ref();
        told_inputs(alloc, net, inputs, &self.table, choosing, block, ins)
    }

    /// What goes in with a sum.
    fn beside_of(
        &self,
        alloc: Global,
        net: &Net,
        inputs: &Inputs,
        acting: &Acting,
    ) -> Result<Beside, NoMemory>
        ensures { IfOk result (λ b. IfSome b.followed (λ f. IsBlock net.now f.block)) }
    {
        let followed = followed_in(alloc, net, inputs, &self.table, acting.following.as_ref())?;
        let leak = acting.leak;
        Ok(Beside { followed, leak })
    }

    /// What element `e` of a block may be.
    fn told(
        &self,
        net: &Net,
        masks: &[Masks],
        block: u32,
        ins: &[Option<Interval>],
        beside: &Beside,
        e: usize,
    ) -> Cells
        requires block { IsBlock net.now block }
        requires element { e < total (spec_of net.now block).outs }
        requires followed { IfSome beside.now.followed (λ f. IsBlock net.now f.block) }
    {
        let spec = net.spec(block);
        if is_sum(spec.kind) {
            told_sum(net, block, ins, beside, e)
        } else {
            cells(spec, self.table.state(block), masks, ins, e)
        }
    }

    /// Widens what a block shows by what is told of it, and tells whether anything changed.
    fn show_all(
        &mut self,
        net: &Net,
        masks: &[Masks],
        block: u32,
        ins: &[Option<Interval>],
        beside: &Beside,
    ) -> bool
        requires block { IsBlock net.now block }
        requires followed { IfSome beside.now.followed (λ f. IsBlock net.now f.block) }
    {
        net.well_formed();
        let spec = net.spec(block);
        let whole = Interval::whole(spec.outs.port(0).kind_of_type());
        let mut changed = false;
        for e in 0..elements_of(&spec.outs) {
            let told = self.told(net, masks, block, ins, beside, e);
            changed = self.stop(block as usize, told) || changed;
            changed = self.show(whole, block as usize, e, told.values) || changed;
        }
        changed
    }

    /// The same of its state.
    fn keep_all(&mut self, net: &Net, block: u32, ins: &[Option<Interval>]) -> bool
        requires { IsBlock net.now block }
    {
        let spec = net.spec(block);
        let whole = Interval::whole(spec.outs.port(0).kind_of_type());
        let mut changed = false;
        for k in 0..spec.state_len() {
            if let Some(told) = next_range(spec, self.table.state(block), ins, k) {
                changed = self.keep(whole, block as usize, k, told) || changed;
            }
        }
        changed
    }

    /// Widens what a block that may act shows and remembers by its rule.
    fn widen(
        &mut self,
        alloc: Global,
        net: &Net,
        inputs: &Inputs,
        acting: &Acting,
        block: u32,
    ) -> Result<bool, NoMemory>
        requires { IsBlock net.now block }
    {
        let ins = self.entering(alloc, net, inputs, acting, block)?;
        let beside = self.beside_of(alloc, net, inputs, acting)?;
        let shows = self.show_all(net, &acting.masks, block, &ins, &beside);
        let keeps = self.keep_all(net, block, &ins);
        Ok(shows || keeps)
    }

    /// The same of any block.
    fn visit(
        &mut self,
        alloc: Global,
        net: &Net,
        inputs: &Inputs,
        acting: &[Option<Acting>],
        block: u32,
    ) -> Result<bool, NoMemory>
        requires { IsBlock net.now block }
    {
        match acting_at(acting, block) {
            Some(told) => self.widen(alloc, net, inputs, told, block),
            None => Ok(false),
        }
    }

    /// Whether a block was to be visited; it is no longer.
    fn take(&mut self, block: u32) -> bool {
        let at = block as usize;
        if at < self.waiting.len() && self.waiting[at] {
            self.waiting[at] = false;
            true
        } else {
            false
        }
    }

    /// Visits each block once that is to be visited, and tells whether anything changed.
    fn sweep(
        &mut self,
        alloc: Global,
        net: &Net,
        inputs: &Inputs,
        acting: &[Option<Acting>],
        order: &[u32],
    ) -> Result<bool, NoMemory> {
        let mut any = false;
        for block in order {
            if 1 <= *block && *block <= net.len() && self.take(*block) {
                if self.visit(alloc, net, inputs, acting, *block)? {
                    any = true;
                    self.waiting_again(*block);
                }
            }
        }
        Ok(any)
    }

    /// A block that changed and its readers are to be visited.
    fn waiting_again(&mut self, block: u32) {
        let at = block as usize;
        if at < self.waiting.len() {
            self.waiting[at] = true;
        }
        wake(&self.readers, &mut self.waiting, at);
    }

    /// Widens the table, where this is told of the blocks, until nothing changes.
    pub fn settle(
        &mut self,
        alloc: Global,
        net: &Net,
        inputs: &Inputs,
        acting: &[Option<Acting>],
        order: &[u32],
    ) -> Result<(), NoMemory> {
        self.readers = readers(alloc, net, acting)?;
        self.waiting = vec![in alloc; true; net.len() as usize + 1]?;
        for _ in 0..SWEEPS {
            if !self.sweep(alloc, net, inputs, acting, order)? {
                break;
            }
        }
        Ok(())
    }

    /// What an element shows is one of these as well.
    fn keep_to(&mut self, block: usize, e: usize, told: Option<Interval>) {
        if block < self.table.shows.len() && e < self.table.shows[block].len() {
            self.table.shows[block][e] = meet(self.table.shows[block][e], told);
        }
    }

    /// The stops of a block are these.
    fn set_stops(&mut self, block: usize, overflow: bool, zero: bool) {
        if block < self.table.overflows.len() && block < self.table.zeros.len() {
            self.table.overflows[block] = overflow;
            self.table.zeros[block] = zero;
        }
    }

    /// A block shows no more than is told of it, and stops only so.
    fn narrow_shows(
        &mut self,
        net: &Net,
        masks: &[Masks],
        block: u32,
        ins: &[Option<Interval>],
        beside: &Beside,
    )
        requires block { IsBlock net.now block }
        requires followed { IfSome beside.now.followed (λ f. IsBlock net.now f.block) }
    {
        net.well_formed();
        let spec = net.spec(block);
        let mut overflow = false;
        let mut zero = false;
        for e in 0..elements_of(&spec.outs) {
            let told = self.told(net, masks, block, ins, beside, e);
            overflow = overflow || told.overflow;
            zero = zero || told.zero;
            self.keep_to(block as usize, e, told.values);
        }
        self.set_stops(block as usize, overflow, zero);
    }

    /// A value of the state is one of these as well.
    fn keep_state_to(&mut self, block: usize, k: usize, told: Option<Interval>) {
        if block < self.table.states.len() && k < self.table.states[block].len() {
            if let Some(both) = meet(Some(self.table.states[block][k]), told) {
                self.table.states[block][k] = both;
            }
        }
    }

    /// A block remembers no more than its first state and what its rule tells, where each value has an interval of its own.
    fn narrow_state(&mut self, net: &Net, block: u32, ins: &[Option<Interval>])
        requires { IsBlock net.now block }
    {
        let spec = net.spec(block);
        if self.table.state(block).len() != spec.state_len() {
            return;
        }
        for k in 0..spec.state_len() {
            let first = Interval::one(first_state(spec, k));
            let told = next_range(spec, self.table.state(block), ins, k);
            self.keep_state_to(block as usize, k, join(Some(first), told));
        }
    }

    /// A block that may act tells no more than its rule does.
    fn narrow_block(
        &mut self,
        alloc: Global,
        net: &Net,
        inputs: &Inputs,
        acting: &Acting,
        block: u32,
    ) -> Result<(), NoMemory>
        requires { IsBlock net.now block }
    {
        let ins = self.entering(alloc, net, inputs, acting, block)?;
        let beside = self.beside_of(alloc, net, inputs, acting)?;
        self.narrow_shows(net, &acting.masks, block, &ins, &beside);
        self.narrow_state(net, block, &ins);
        Ok(())
    }

    /// The same of each block, in this order.
    fn narrow_once(
        &mut self,
        alloc: Global,
        net: &Net,
        inputs: &Inputs,
        acting: &[Option<Acting>],
        order: &[u32],
    ) -> Result<(), NoMemory> {
        for block in order {
            if 1 <= *block && *block <= net.len() {
                if let Some(told) = acting_at(acting, *block) {
                    self.narrow_block(alloc, net, inputs, told, *block)?;
                }
            }
        }
        Ok(())
    }

    /// Narrows a settled table by the rules. As they tell less of less, nothing is told of it then that it hasn't.
    pub fn narrow(
        &mut self,
        alloc: Global,
        net: &Net,
        inputs: &Inputs,
        acting: &[Option<Acting>],
        order: &[u32],
    ) -> Result<(), NoMemory> {
        for _ in 0..NARROWINGS {
            self.narrow_once(alloc, net, inputs, acting, order)?;
        }
        Ok(())
    }

    /// What a block reads to decide; nothing of one that never acts, or is no condition.
    fn read(
        &self,
        alloc: Global,
        net: &Net,
        inputs: &Inputs,
        acting: &[Option<Acting>],
        block: u32,
    ) -> Result<Option<Interval>, NoMemory>
        requires { IsBlock net.now block }
    {
        if !net.spec(block).kind.is_sync() {
            return Ok(None);
        }
        match acting_at(acting, block) {
            Some(told) => {
                let ins = entered(alloc, net, inputs, &told.readings, &self.table, block)?;
                Ok(range_at(&ins, 0))
            }
            None => Ok(None),
        }
    }

    /// Takes back which branches are dead, and tells whether any is so no longer.
    pub fn revive(
        &self,
        alloc: Global,
        net: &Net,
        inputs: &Inputs,
        acting: &[Option<Acting>],
        marks: &mut RowMarks,
    ) -> Result<bool, NoMemory>
        ensures { (marks_of marks.new).rows ≡ (marks_of marks.old).rows }
    {
        let mut changed = false;
        for at in 0..net.len() {
            let read = self.read(alloc, net, inputs, acting, at + 1)?;
            let revived = revive_taken(net, marks, at + 1, read);
            changed = changed || revived;
        }
        Ok(changed)
    }
}

/// A branch of a condition that numbers take is dead no longer; tells whether it was.
fn revive_branch(
    net: &Net,
    marks: &mut RowMarks,
    block: u32,
    branch: u32,
    read: Option<Interval>,
) -> bool
    requires { IsBlock net.now block }
    ensures { (marks_of marks.new).rows ≡ (marks_of marks.old).rows }
{
    if !marks.is_dead(block, branch) {
        return false;
    }
    if meet(read, Some(taking(net.spec(block), branch))).is_none() {
        return false;
    }
    marks.revive(block, branch);
    true
}

/// The same of each branch.
fn revive_taken(net: &Net, marks: &mut RowMarks, block: u32, read: Option<Interval>) -> bool
    requires { IsBlock net.now block }
    ensures { (marks_of marks.new).rows ≡ (marks_of marks.old).rows }
{
    let mut changed = false;
    for p in 1..marks.branches(block) {
        let revived = revive_branch(net, marks, block, p, read);
        changed = changed || revived;
    }
    changed
}
