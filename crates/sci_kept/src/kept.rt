// What a run keeps.
ghost use Rattle.std.specs.Prelude.{◌≡◌, ℕ, ◌-◌, ◌<◌, ◌≤◌, ◌^◌, ◌∷◌, [], ◌<ℤ◌, pos, length, nat_eq, true, All, Contains, IfOk, OnOk, OnErr};
ghost use Rattle.std.specs.List.{IsDistinct};
ghost use Rattle.sci_io.specs.Taken.{Writes};
ghost use Rattle.sci_trace.specs.Lines.{line, text};
ghost use Rattle.sci_forms.specs.declared.Kind.{Kind};
ghost use Rattle.sci_forms.specs.Form.{has_delay};
ghost use Rattle.sci_forms.specs.Typed.{typed};
ghost use Rattle.sci_net.specs.declared.Source.{Source};
ghost use Rattle.sci_net.specs.Parts.{IsBlock, spec_of, rows_of};
ghost use Rattle.sci_net.specs.Sources.{sources_of, source_of};
ghost use Rattle.sci_reaction.specs.Depends.{IsLoopFree};
ghost use Rattle.sci_reaction.specs.Equations.{AreInRange};
ghost use Rattle.sci_reaction.specs.Kept.{entries_of};
ghost use Rattle.sci_reaction.specs.Memory.{Memory, IsMemory, AreColumns};
ghost use Rattle.sci_reaction.specs.Schedule.{blocks_of};
ghost use Rattle.sci_run.specs.Laws.{AreLoopFree};
ghost use Rattle.sci_run.specs.Observed.{header as header_of};
ghost use Rattle.sci_places.specs.Flat.{values_at, IsWhole};
ghost use Rattle.sci_bank.specs.Library.{bank_of, IsFull};
ghost use Rattle.sci_store.specs.Blocks.{AreBlocksByNumber};
ghost use Rattle.sci_store.specs.Delays.{delays_in};
ghost use Rattle.sci_store.specs.Frame.{IsFrame, AreSeated, seat_of};
ghost use Rattle.sci_store.specs.Marks.{idle, mark_at};
ghost use Rattle.sci_store.specs.Passed.{AreAlikeCounts, KeepsValues};
ghost use Rattle.sci_store.specs.Rows.{IsRowFor, IsRowOf, IsReadyRow, HasBegun, KeepsBegun};
ghost use Rattle.sci_store.specs.Runs.{MayStep};
ghost use Rattle.sci_store.specs.Seating.{IsSeating, IsSeatingBy, begun};
ghost use Rattle.sci_store.specs.Store.{IsStore, AreIdle, ShowsMemory};
ghost use Rattle.sci_store.specs.Written.{IsPlain, tallied};
ghost use Rattle.sci_lines.specs.Lines.{IsHeader};
ghost use Rattle.sci_kept.specs.Kept.{IsFirst, IsUntold};
ghost use Rattle.sci_store.specs.Reaction.{Passes, IfSeen, Steps, TellsHalt};

use sci_bank::Bank;
use sci_bank::library::Library;
use sci_base::{NoMemory, Obs, StopWord};
use sci_io::{Failed, Sink};
use sci_lines::Lines;
use sci_net::Net;
use sci_reaction::Entry;
use sci_store::{Frame, ReadyRow, Seat, Store, Tally};
use sci_trace::inputs::Inputs;
use std::alloc::Global;
use std::marker::Model;

/// What a run keeps, with all memory that its reactions need: a net, none of whose sources has a loop, with the tables that stay as they are; what
/// changes from one reaction to the next, which fits them; and lines that wait, which the next reaction forgets.
#[derive(Drop)]
pub struct Kept {
    frame: Frame,
    store: Store,
    lines: Lines,
}

impl Model for Kept {
    ghost use Rattle.sci_store.specs.Store.{IsStore};
    ghost use Rattle.sci_kept.specs.Kept.{Kept};

    ghost Value = { Kept };

    ghost view = { λ k. record { fixed = k.frame; store = k.store } };

    ghost invariant = { λ k. IsStore k.frame k.store };
}

impl Kept {
    /// What is kept before a run of a net, none of whose sources has a loop, with an instance of each block in a full library. It resets all banks.
    /// Where memory is wanting, the banks may hold any instances.
    pub fn new<B: Bank>(alloc: Global, net: Net, lib: &mut Library<B>) -> Result<Kept, NoMemory>
        requires free { AreLoopFree net }
        requires full { IsFull lib.old }
        ensures net { IfOk result (λ k. k.fixed.net ≡ net) }
        ensures seated { IfOk result (λ k. IsSeating k.fixed.net k.fixed.seats lib.new) }
        ensures first { IfOk result IsFirst }
        ensures untold { IfOk result IsUntold }
        ensures full { IsFull lib.new }
    {
        let frame = Frame::new(alloc, net, lib)?;
        let store = Store::new(alloc, &frame)?;
        let lines = Lines::new(alloc)?;
        Ok(Kept {
            frame,
            store,
            lines,
        })
    }

    /// The same where a run goes on: blocks have these states, with which their specs are typed still, outputs hold these values, by block, port and
    /// element, and sensors have taken so many values, by block. Nothing is marked or counted.
    pub fn in_states<B: Bank>(
        alloc: Global,
        net: Net,
        states: &[Vec<i64>],
        values: Vec<i64>,
        cursors: Vec<usize>,
        lib: &mut Library<B>,
    ) -> Result<Kept, NoMemory>
        requires free { AreLoopFree net }
        requires full { IsFull lib.old }
        requires one_each { length states.now ≡ length net.specs }
        requires is_typed { (b : ℕ) → IsBlock net b → typed (begun net (rows_of states.now) b) ≡ true }
        requires values { IsWhole net values.items }
        requires cursors { length cursors.items ≡ length net.specs }
        ensures net { IfOk result (λ k. k.fixed.net ≡ net) }
        ensures seated { IfOk result (λ k. IsSeatingBy k.fixed.net (begun k.fixed.net (rows_of states.now)) k.fixed.seats lib.new) }
        ensures values { IfOk result (λ k. k.store.values ≡ values.items) }
        ensures cursors { IfOk result (λ k. k.store.cursors ≡ cursors.items) }
        ensures untold { IfOk result IsUntold }
        ensures full { IsFull lib.new }
    {
        let frame = Frame::in_states(alloc, net, states, lib)?;
        let store = Store::of(alloc, &frame, values, cursors)?;
        let lines = Lines::new(alloc)?;
        Ok(Kept {
            frame,
            store,
            lines,
        })
    }

    /// What holds of all that a run keeps.
    pub fn well_formed(&self)
        ensures frame { IsFrame self.now.fixed }
        ensures store { IsStore self.now.fixed self.now.store }
    {
        self.frame.well_formed();
    }

    /// The net.
    #[inline(always)]
    pub fn net(&self) -> &Net
        ensures { result.now ≡ self.now.fixed.net }
    {
        &self.frame.net
    }

    /// Where a block's instance is kept.
    #[inline(always)]
    pub fn seat(&self, block: u32) -> Seat
        requires { IsBlock self.now.fixed.net block }
        ensures { result ≡ seat_of self.now.fixed block }
    {
        self.frame.seat(block)
    }

    /// The row of these entries, one for each of their blocks.
    pub fn row_of(&self, alloc: Global, entries: Vec<Entry>) -> Result<ReadyRow, NoMemory>
        requires blocks { All (λ e. IsBlock self.now.fixed.net e.block) entries.items }
        requires once { IsDistinct nat_eq (blocks_of (entries_of entries.items)) }
        ensures { IfOk result (λ r. IsRowFor self.now.fixed entries.items r) }
    {
        ReadyRow::of(alloc, &self.frame, entries)
    }

    /// What is observed of a source that fires at a date, in ticks, by the source's place among those of the net.
    #[inline(always)]
    pub fn header(&self, source: u32, date: u64) -> Obs
        requires source { source < length (sources_of self.now.fixed.net) }
        requires date { date < 2 ^ 63 }
        ensures { result ≡ header_of date (source_of self.now.fixed.net source) }
    {
        self.frame.header(source, date)
    }

    /// Takes back what a reaction activated among these blocks.
    #[inline(always)]
    pub fn clear(&mut self, blocks: &[u32])
        requires { AreBlocksByNumber self.old.fixed.net blocks.now }
        ensures cleared { (b : ℕ) → Contains blocks.now b → mark_at self.new.store.marks b ≡ idle }
        ensures others { (b : ℕ) → (Contains blocks.now b → ⊥) → mark_at self.new.store.marks b ≡ mark_at self.old.store.marks b }
        ensures rest { self.new.store ≡ record self.old.store { marks = self.new.store.marks } }
        ensures fixed { self.new.fixed ≡ self.old.fixed }
    {
        self.store.clear(&self.frame, blocks);
    }

    /// Marks the blocks of a row that its source activates whatever the values are, on the same activation inputs; no block is marked before.
    #[inline(always)]
    pub fn begin_row(&mut self, row: &ReadyRow)
        requires idle { AreIdle self.old.fixed self.old.store }
        requires row { IsReadyRow self.old.fixed row.now }
        ensures begun { HasBegun self.old.fixed row.now self.new.store }
        ensures rest { self.new.store ≡ record self.old.store { marks = self.new.store.marks } }
        ensures fixed { self.new.fixed ≡ self.old.fixed }
    {
        self.store.begin_row(&self.frame, row);
    }

    /// Takes back what a reaction marked of the blocks of a row that guards may leave idle, so that the same row is passed again.
    #[inline(always)]
    pub fn begin_again(&mut self, row: &ReadyRow)
        requires row { IsReadyRow self.old.fixed row.now }
        requires passed { KeepsBegun self.old.fixed row.now self.old.store }
        ensures begun { HasBegun self.old.fixed row.now self.new.store }
        ensures rest { self.new.store ≡ record self.old.store { marks = self.new.store.marks } }
        ensures fixed { self.new.fixed ≡ self.old.fixed }
    {
        self.store.begin_again(&self.frame, row);
    }

    /// Gives the active blocks of a row their values; or the block that has none, with the word that says why. Also then all values are in range.
    #[inline(always)]
    pub fn pass<B: Bank>(
        &mut self,
        lib: &mut Library<B>,
        inputs: &Inputs,
        row: &ReadyRow,
    ) -> Option<(u32, StopWord)>
        requires seated { AreSeated self.old.fixed lib.old }
        requires begun { HasBegun self.old.fixed row.now self.old.store }
        requires columns { AreColumns self.old.fixed.net inputs.now }
        requires row { (s : Source) × IsLoopFree self.old.fixed.net s × IsRowOf self.old.fixed s row.now }
        requires counts { (k : Kind) → (bank_of lib.old k).outs ≤ 18446744073709551615 }
        requires memory { (m : Memory) × ShowsMemory self.old.fixed self.old.store lib.old m × IsMemory self.old.fixed.net m }
        ensures passed { Passes self.old.fixed inputs.now row.now self.old.store self.new.store lib.old lib.new result }
        ensures seated { AreSeated self.old.fixed lib.new }
        ensures values { AreInRange self.old.fixed.net (values_at self.old.fixed.net self.new.store.values) }
        ensures kept { KeepsBegun self.old.fixed row.now self.new.store }
        ensures lines { self.new.store.lines ≡ self.old.store.lines }
        ensures sum { self.new.store.sum ≡ self.old.store.sum }
        ensures fixed { self.new.fixed ≡ self.old.fixed }
    {
        self.store.pass(&self.frame, lib, inputs, row)
    }

    /// Writes an observation without a value.
    #[inline(always)]
    pub fn observe<S: Sink>(&mut self, o: &Obs, out: &mut S) -> Result<(), Failed>
        requires { IsPlain o.now }
        ensures written { Writes (S.state out.old) (S.state out.new) (line o.now) result }
        ensures counted { OnOk result (self.new.store ≡ tallied self.old.store (o.now ∷ [])) }
        ensures kept { OnErr result (self.new.store ≡ self.old.store) }
        ensures fixed { self.new.fixed ≡ self.old.fixed }
    {
        self.store.observe(o, out)
    }

    /// Writes the line of a reaction's source, and behind it those of the values of the active blocks of its row, by block, port and element. Where
    /// the sink takes them unseen, they are counted alone.
    #[inline(always)]
    pub fn write_reaction<S: Sink>(
        &mut self,
        row: &ReadyRow,
        header: &Obs,
        out: &mut S,
    ) -> Result<(), Failed>
        requires row { IsReadyRow self.old.fixed row.now }
        requires begun { KeepsBegun self.old.fixed row.now self.old.store }
        requires header { IsHeader header.now }
        ensures written { IfSeen self.old.fixed self.old.store row.now (λ seen. Writes (S.state out.old) (S.state out.new) (text (header.now ∷ seen)) result) }
        ensures counted { OnOk result (IfSeen self.old.fixed self.old.store row.now (λ seen. self.new.store ≡ tallied self.old.store (header.now ∷ seen))) }
        ensures same { self.new.store ≡ record self.old.store { lines = self.new.store.lines; sum = self.new.store.sum } }
        ensures fixed { self.new.fixed ≡ self.old.fixed }
    {
        self.store
            .write_reaction(&self.frame, row, header, &mut self.lines, out)
    }

    /// After how many ticks an activation output of an active block fires next, on the values that go in; -1 where nothing is programmed.
    #[inline(always)]
    pub fn delay<B: Bank>(&mut self, lib: &Library<B>, block: u32, port: u32) -> i64
        requires seated { AreSeated self.old.fixed lib.now }
        requires block { IsBlock self.old.fixed.net block }
        requires delayed { has_delay (spec_of self.old.fixed.net block).kind ≡ true }
        requires active { (mark_at self.old.store.marks block).active ≡ true }
        requires values { AreInRange self.old.fixed.net (values_at self.old.fixed.net self.old.store.values) }
        ensures value { result ≡ delays_in self.old.fixed self.old.store (record { block = block; port = port }) }
        ensures small { result <ℤ pos (2 ^ 31) }
        ensures same { self.new.store ≡ record self.old.store { room = self.new.store.room } }
        ensures room { length self.new.store.room ≡ length self.old.store.room }
        ensures fixed { self.new.fixed ≡ self.old.fixed }
    {
        self.store.delay(&self.frame, lib, block, port)
    }

    /// The active blocks of a row step their states, and sensors go on in their columns.
    #[inline(always)]
    pub fn update_all<B: Bank>(&mut self, lib: &mut Library<B>, inputs: &Inputs, row: &ReadyRow)
        requires seated { AreSeated self.old.fixed lib.old }
        requires row { IsReadyRow self.old.fixed row.now }
        requires begun { KeepsBegun self.old.fixed row.now self.old.store }
        requires may_step { MayStep self.old.fixed inputs.now self.old.store lib.old }
        ensures stepped { Steps self.old.fixed row.now self.old.store self.new.store lib.old lib.new }
        ensures values { KeepsValues self.old.store self.new.store }
        ensures seated { AreSeated self.old.fixed lib.new }
        ensures counts { AreAlikeCounts lib.old lib.new }
        ensures fixed { self.new.fixed ≡ self.old.fixed }
    {
        self.store.update_all(&self.frame, row, lib, inputs);
    }

    /// Whether one of these blocks ends the run and is active. Blocks that never end it may be left out.
    #[inline(always)]
    pub fn halts(&self, blocks: &[u32]) -> bool
        requires { AreBlocksByNumber self.now.fixed.net blocks.now }
        ensures { TellsHalt self.now.fixed self.now.store blocks.now result }
    {
        self.store.halts(&self.frame, blocks)
    }

    /// Whether the last reaction activated the block.
    #[inline(always)]
    pub fn is_active(&self, block: u32) -> bool
        requires { IsBlock self.now.fixed.net block }
        ensures { result ≡ (mark_at self.now.store.marks block).active }
    {
        self.store.is_active(block)
    }

    /// The values that a block's outputs hold, by port and element.
    #[inline(always)]
    pub fn held(&self, block: u32) -> &[i64]
        requires { IsBlock self.now.fixed.net block }
        ensures { result.now ≡ values_at self.now.fixed.net self.now.store.values block }
    {
        self.store.held(&self.frame, block)
    }

    /// The values that the outputs of all blocks hold, by block, port and element.
    #[inline(always)]
    pub fn values(&self) -> &[i64]
        ensures values { result.now ≡ self.now.store.values }
        ensures whole { IsWhole self.now.fixed.net result.now }
    {
        self.store.values()
    }

    /// How many values of its column each sensor has taken, by block; 0 for a block that is no sensor.
    #[inline(always)]
    pub fn cursors(&self) -> &[usize]
        ensures { result.now ≡ self.now.store.cursors }
    {
        self.store.cursors()
    }

    /// What was counted of the run.
    #[inline(always)]
    pub fn tally(&self) -> Tally
        ensures lines { result.lines ≡ self.now.store.lines }
        ensures sum { result.sum ≡ self.now.store.sum }
    {
        self.store.tally()
    }
}
