// A net that is ready to run, and its run.
ghost use Rattle.std.specs.Prelude.{◌≡◌, ℕ, ◌+◌, ◌-◌, ◌<◌, ◌≤◌, ◌↔◌, List, length, true, None, IfOk, if◌then◌else◌, AllPairs, Contains};
ghost use Rattle.sci_base.specs.declared.limits.TheConstants.{TICKS, EVENTS};
ghost use Rattle.sci_base.specs.declared.observation.Obs.{Obs};
ghost use Rattle.sci_io.specs.Taken.{Writes};
ghost use Rattle.sci_trace.specs.Lines.{text};
ghost use Rattle.sci_net.specs.Parts.{IsBlock};
ghost use Rattle.sci_reaction.specs.Active.{Possible};
ghost use Rattle.sci_reaction.specs.Memory.{AreColumns};
ghost use Rattle.sci_sched.specs.Plain.{rows_of};
ghost use Rattle.sci_sched.specs.Answer.{IsPlan};
ghost use Rattle.sci_run.specs.Run.{State, IsRun};
ghost use Rattle.sci_net.specs.Sources.{source_of};
ghost use Rattle.sci_bank.specs.Library.{IsFull};
ghost use Rattle.sci_bank.specs.Bank.{Meaning};

use crate::end::{RunEnd, Step};
use crate::programming::program_first;
use crate::reaction::finish;
use crate::rows::rows;
use sci_agenda::agenda::Agenda;
use sci_agenda::wheel::WheelAgenda;
use sci_bank::Bank;
use sci_bank::library::Library;
use sci_base::{EndWord, NoMemory, Obs, StopWord};
use sci_io::{Failed, Sink};
use sci_kept::Kept;
use sci_net::Net;
use sci_sched::Schedule;
use sci_store::ReadyRow;
use sci_trace::inputs::Inputs;
use std::alloc::Global;
use std::marker::Model;

/// A net that is ready to run, or whose run is under way, with all memory that the run needs.
#[derive(Drop)]
pub struct Ready {
    pub(crate) kept: Kept,
    // one for each source of the net, in order
    pub(crate) rows: Vec<ReadyRow>,
    // its dates are less by `offset`
    pub(crate) wheel: WheelAgenda,
    pub(crate) offset: u64,
    pub(crate) now: u64,
    pub(crate) fired: u64,
    // the source of the last reaction, or 0 before the first
    pub(crate) row: u32,
    // whether its blocks are marked
    pub(crate) has_row: bool,
    pub(crate) started: bool,
    pub(crate) halted: bool,
}

impl Model for Ready {
    ghost use Rattle.sci_sim.specs.At.{Running, IsReady};

    ghost Value = { Running };

    ghost use Rattle.sci_sim.specs.Ready.{running};

    ghost view = { running };

    ghost invariant = { λ r. IsReady (running r) };
}

impl Ready {
    ghost use Rattle.sci_places.specs.Flat.{values_at, IsWhole};
    ghost use Rattle.sci_store.specs.Marks.{mark_at};
    ghost use Rattle.sci_store.specs.Frame.{AreSeated};
    ghost use Rattle.sci_store.specs.Rows.{HasBegun};
    ghost use Rattle.sci_sim.specs.Rows.{row_in};
    ghost use Rattle.sci_sim.specs.At.{IsAt, IsAtStart, KeepsPending, HaveActive};
    ghost use Rattle.sci_sim.specs.Reacting.{MayStep, MayFire, SetsOut, IsFiring, ReactsTo, TellsHalted};
    ghost use Rattle.sci_sim.specs.Steps.{StepsTo, TellsEnd, HasRun};

    /// The net before its run, over the schedule of the net and a full library. It resets all banks and adds an instance for each block; it takes
    /// all memory of the run. Where memory is wanting, the banks may hold any instances.
    pub fn new<B: Bank>(
        alloc: Global,
        n: Net,
        p: Schedule,
        lib: &mut Library<B>,
    ) -> Result<Ready, NoMemory>
        requires full { IsFull lib.old }
        requires plan { IsPlan n (rows_of p) }
        ensures start { IfOk result (λ r. IsAtStart n r lib.new) }
        ensures full { IsFull lib.new }
    {
        let mut wheel = WheelAgenda::new(alloc, n.source_count() - 1)?;
        program_first(&n, &mut wheel);
        let kept = Kept::new(alloc, n, lib)?;
        kept.well_formed();
        lib.well_formed();
        let rows = rows(alloc, &kept, p)?;
        Ok(Ready {
            kept,
            rows,
            wheel,
            offset: 0,
            now: 0,
            fired: 0,
            row: 0,
            has_row: false,
            started: false,
            halted: false,
        })
    }

    // The row of a source is passed next: only its blocks that are active whatever the values are are marked.
    fn enter_row(&mut self, source: u32)
        requires { source < length self.old.rows }
        ensures begun { HasBegun self.old.fixed (row_in self.old.rows source) self.new.store }
        ensures rest { self.new ≡ record self.old { store = self.new.store; row = source; has_row = true } }
        ensures marks { self.new.store ≡ record self.old.store { marks = self.new.store.marks } }
    {
        let row = &self.rows[source as usize];
        if self.has_row && self.row == source {
            self.kept.begin_again(row);
            return;
        }
        let last = &self.rows[self.row as usize];
        self.kept.clear(&last.blocks);
        self.kept.begin_row(row);
        self.row = source;
        self.has_row = true;
    }

    // The source reacts at the date `now`: what is observed is written. The word of a stop, if there was one.
    fn react<S: Sink, B: Bank>(
        &mut self,
        lib: &mut Library<B>,
        ins: &Inputs,
        source: u32,
        out: &mut S,
    ) -> Result<Option<StopWord>, Failed>
        requires source { source < length self.old.rows }
        requires date { self.old.now ≤ TICKS }
        requires columns { AreColumns self.old.fixed.net ins.now }
        requires shown { (st : State) × IsFiring self.old lib.old st }
        ensures reacted { ReactsTo ins.now source self.old self.new lib.old lib.new (S.state out.old) (S.state out.new) result }
        ensures halted { IfOk result (λ stop. stop ≡ None → TellsHalted source self.old self.new) }
        ensures rest { self.new ≡ record self.old { store = self.new.store; wheel = self.new.wheel; row = source; has_row = true; halted = self.new.halted } }
        ensures seated { AreSeated self.old.fixed lib.new }
    {
        self.enter_row(source);
        let row = &self.rows[source as usize];
        let header = self.kept.header(source, self.now);
        if let Some((block, word)) = self.kept.pass(lib, ins, row) {
            self.kept.observe(&header, out)?;
            self.kept
                .observe(&Obs::Stop(word, i64::from(block), 0), out)?;
            return Ok(Some(word));
        }
        self.kept.write_reaction(row, &header, out)?;
        finish(
            &mut self.kept,
            &mut self.wheel,
            lib,
            ins,
            row,
            self.now - self.offset,
        );
        self.halted = self.kept.halts(&row.halts);
        Ok(None)
    }

    // The source that reacts next: start, and then those of the events, which are taken from the wheel.
    fn next_source(&mut self) -> u32
        requires before { MayFire self.old }
        ensures fires { SetsOut self.old self.new result }
        ensures source { result < length self.old.rows }
        ensures fired { self.new.fired ≡ (if self.old.started then self.old.fired + 1 else self.old.fired) }
        ensures rest { self.new ≡ record self.old { wheel = self.new.wheel; now = self.new.now; fired = self.new.fired; started = true } }
    {
        if !self.started {
            self.started = true;
            return 0;
        }
        match self.wheel.take() {
            Some((date, source)) => {
                self.now = date + self.offset;
                self.fired += 1;
                source
            }
            None => unreachable!(),
        }
    }

    /// Whether the run ends behind the last reaction, and how: by a halt that was active in it; where `limit` events have fired;
    /// where none is pending; where the next is later than `until`, a date in ticks of at most 2^62.
    pub fn due_end(&self, until: u64, limit: u64) -> Option<EndWord>
        requires { until ≤ TICKS }
        ensures { TellsEnd until limit self.entry.now result }
    {
        if self.halted {
            return Some(EndWord::Halt);
        }
        if self.fired >= limit {
            return Some(EndWord::Events);
        }
        match self.wheel.next_date() {
            None => Some(EndWord::Empty),
            Some(date) => if until < date.saturating_add(self.offset) {
                Some(EndWord::Until)
            } else {
                None
            },
        }
    }

    /// Does the next reaction of the run, start first, and writes what is observed of it, and the end of the run where it ends there.
    /// The net stands before start, or at a state in which an event fires next: within `until`, a date in ticks of at most 2^62, and where fewer than
    /// `limit` events have fired, at most 1,000,000. Each sensor's column is in range. It takes no memory. It fails only where the sink does, which
    /// then took a front of these lines; a net whose step failed or whose run is over is of no more use but for the calls that read it. Where
    /// the run stops they tell the date, the source and the events that have fired of the reaction that stopped.
    pub fn step<S: Sink, B: Bank>(
        &mut self,
        lib: &mut Library<B>,
        ins: &Inputs,
        until: u64,
        limit: u64,
        out: &mut S,
    ) -> Result<Step, Failed>
        requires until { until ≤ TICKS }
        requires limit { limit ≤ EVENTS }
        requires columns { AreColumns self.old.fixed.net ins.now }
        requires before { MayStep until limit self.old lib.old }
        ensures reacted { StepsTo ins.now until limit self.old self.new lib.old lib.new (S.state out.old) (S.state out.new) result }
        ensures started { self.new.started ≡ true }
        ensures fired { self.new.fired ≡ (if self.old.started then self.old.fired + 1 else self.old.fired) }
        ensures offset { self.new.offset ≡ self.old.offset }
        ensures net { self.new.fixed ≡ self.old.fixed }
        ensures full { IsFull lib.new }
    {
        let source = self.next_source();
        if let Some(word) = self.react(lib, ins, source, out)? {
            return Ok(Step::Over(RunEnd::Stop(word)));
        }
        match self.due_end(until, limit) {
            None => Ok(Step::More),
            Some(word) => {
                self.kept.observe(&Obs::End(word), out)?;
                Ok(Step::Over(RunEnd::End(word)))
            }
        }
    }

    /// Runs the net from before start until the end of its run, past no date over `until` and for at most `limit` events, and writes
    /// the trace. The bounds, inputs and failures are those of `step`. A block without a value is the one cause of a stop; a conflict never comes.
    /// It takes no memory.
    pub fn run<S: Sink, B: Bank>(
        &mut self,
        lib: &mut Library<B>,
        ins: &Inputs,
        until: u64,
        limit: u64,
        out: &mut S,
    ) -> Result<RunEnd, Failed>
        requires until { until ≤ TICKS }
        requires limit { limit ≤ EVENTS }
        requires columns { AreColumns self.old.fixed.net ins.now }
        requires start { IsAtStart self.old.fixed.net self.old lib.old }
        ensures written { (os : List Obs) → IsRun self.old.fixed.net ins.now until limit os → Writes (S.state out.old) (S.state out.new) (text os) result }
        ensures finished { IfOk result (HasRun self.old.fixed.net ins.now until limit self.new lib.new) }
        ensures offset { self.new.offset ≡ self.old.offset }
        ensures net { self.new.fixed ≡ self.old.fixed }
        ensures full { IsFull lib.new }
    {
        self.kept.well_formed();
        for _reaction in 0..limit + 1 {
            if let Step::Over(end) = self.step(lib, ins, until, limit, out)? {
                return Ok(end);
            }
        }
        unreachable!()
    }

    /// The values that the outputs of all blocks hold, by block, port and element.
    pub fn values(&self) -> &[i64]
        ensures values { result.now ≡ self.entry.now.store.values }
        ensures whole { IsWhole self.entry.now.fixed.net result.now }
        ensures held { (banks : List Meaning) (st : State) → IsAt self.entry.now banks st → (b : ℕ) → IsBlock self.entry.now.fixed.net b
            → values_at self.entry.now.fixed.net result.now b ≡ st.memory.held b }
    {
        self.kept.values()
    }

    /// The net.
    pub fn net(&self) -> &Net
        ensures { result.now ≡ self.entry.now.fixed.net }
    {
        self.kept.net()
    }

    /// The date of the last reaction, in ticks; 0 before the first.
    pub fn now(&self) -> u64
        ensures { result ≡ self.entry.now.now }
    {
        self.now
    }

    /// How many events have fired.
    pub fn fired(&self) -> u64
        ensures { result ≡ self.entry.now.fired }
    {
        self.fired
    }

    /// How many observations were counted since `new` or `restore`: where no write failed, all that were written since. The count stays at
    /// 2^64 - 1 once there.
    pub fn lines(&self) -> u64
        ensures { result ≡ self.entry.now.store.lines }
    {
        self.kept.tally().lines
    }

    /// The sum of the values among them, modulo 2^32.
    pub fn sum(&self) -> u32
        ensures { result ≡ self.entry.now.store.sum }
    {
        self.kept.tally().sum
    }

    /// The pending events. Their dates, in ticks, are counted from the date at which the run began, which is 0 after `new`.
    pub fn wheel(&self) -> &WheelAgenda
        ensures value { result.now ≡ self.entry.now.wheel }
        ensures pending { KeepsPending self.entry.now result.now }
    {
        &self.wheel
    }

    /// The blocks that the source of the last reaction may activate, by number; before the first reaction those of start.
    /// No block but these was active in it.
    pub fn possible(&self) -> &[u32]
        ensures value { result.now ≡ (row_in self.entry.now.rows self.entry.now.row).blocks }
        ensures rising { AllPairs (λ b c. b < c) result.now }
        ensures possible { (b : ℕ) → Contains result.now b ↔ Possible self.entry.now.fixed.net (source_of self.entry.now.fixed.net self.entry.now.row) b }
        ensures active { HaveActive self.entry.now result.now }
    {
        let row = &self.rows[self.row as usize];
        row.blocks.as_slice()
    }

    /// Whether the last reaction activated the block. The run hasn't stopped.
    pub fn is_active(&self, block: u32) -> bool
        requires { IsBlock self.now.fixed.net block }
        ensures mark { result ≡ (mark_at self.entry.now.store.marks block).active }
        ensures active { (banks : List Meaning) (st : State) → IsAt self.entry.now banks st → result ≡ st.active block }
    {
        self.kept.is_active(block)
    }
}
