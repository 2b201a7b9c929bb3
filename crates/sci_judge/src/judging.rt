// A net that is run to be judged: its reactions one after another.
ghost use Rattle.std.specs.Prelude.{◌≡◌, ◌+◌, ◌<◌, ◌≤◌, ◌^◌, length, IfOk, IsSome};
ghost use Rattle.sci_base.specs.declared.limits.TheConstants.{TICKS, EVENTS};
ghost use Rattle.sci_net.specs.Sources.{sources_of};
ghost use Rattle.sci_reaction.specs.Memory.{AreColumns};
ghost use Rattle.sci_base.specs.declared.observation.Obs.{Obs};
ghost use Rattle.sci_bank.specs.Library.{IsFull};
ghost use Rattle.sci_run.specs.Laws.{AreLoopFree};
ghost use Rattle.sci_run.specs.Run.{State};
ghost use Rattle.sci_store.specs.Frame.{AreSeated};
ghost use Rattle.sci_store.specs.Store.{AreIdle};
ghost use Rattle.sci_store.specs.Passed.{AreAlikeCounts};
ghost use Rattle.sci_judge.specs.Programming.{AreSourcesOf, ProgramsNext};
ghost use Rattle.sci_store.specs.Runs.{MayStep};
ghost use Rattle.sci_store.specs.Rows.{IsReadyRow, KeepsBegun};
ghost use Rattle.sci_store.specs.Reaction.{Steps};
ghost use Rattle.sci_judge.specs.Reacting.{IsSound, IsAt, IsAtStart, MarksOnly, ReactsTo, TellsDue, StepsTo, WritesRun, blocks_at};

use crate::programming::{program_all, program_first};
use crate::rows::{SourcePlan, plans};
use sci_bank::Bank;
use sci_bank::library::Library;
use sci_base::{EndWord, NoMemory, Obs};
use sci_events::{Event, Events};
use sci_io::{Failed, Sink};
use sci_kept::Kept;
use sci_net::Net;
use sci_trace::inputs::Inputs;
use std::alloc::Global;

// A reaction whose values are known and written: the active blocks program their events and step their states.
fn finish<B: Bank>(
    kept: &mut Kept,
    events: &mut Events,
    lib: &mut Library<B>,
    inputs: &Inputs,
    plan: &SourcePlan,
    date: u64,
)
    requires seated { AreSeated kept.old.fixed lib.old }
    requires row { IsReadyRow kept.old.fixed plan.now.row }
    requires begun { KeepsBegun kept.old.fixed plan.now.row kept.old.store }
    requires delayed { AreSourcesOf kept.old.fixed.net plan.now.row.blocks plan.now.sources.items }
    requires may_step { MayStep kept.old.fixed inputs.now kept.old.store lib.old }
    requires date { date < 2 ^ 63 }
    requires sources { events.old.sources ≡ length (sources_of kept.old.fixed.net) }
    requires few { events.old.pending.programmed + length (sources_of kept.old.fixed.net) < 2 ^ 63 }
    ensures programmed { ProgramsNext kept.old plan.now.row.blocks date events.old.pending events.new.pending }
    ensures stepped { Steps kept.old.fixed plan.now.row kept.old.store kept.new.store lib.old lib.new }
    ensures marks { (kept.new.store.values ≡ kept.old.store.values) × (kept.new.store.marks ≡ kept.old.store.marks) }
    ensures fixed { kept.new.fixed ≡ kept.old.fixed }
    ensures seated { AreSeated kept.old.fixed lib.new }
    ensures counts { AreAlikeCounts lib.old lib.new }
    ensures same_sources { events.new.sources ≡ events.old.sources }
{
    kept.well_formed();
    program_all(kept, &plan.sources, lib, date, events);
    kept.update_all(lib, inputs, &plan.row);
}

/// A source that fires.
#[derive(Clone, Copy, Drop)]
pub struct Firing {
    /// Its place among the net's sources.
    pub source: u32,
    /// The date, in ticks.
    pub date: u64,
}

/// What comes behind a reaction.
#[derive(Clone, Copy, Drop)]
pub enum Due {
    /// The run is over.
    Over(EndWord),
    /// An event fires.
    Fires(Event),
}

/// A net that is run to be judged, with all memory that the run needs.
#[derive(Drop)]
pub struct Judging {
    kept: Kept,
    // one for each source, in order
    plans: Vec<SourcePlan>,
    events: Events,
}

impl Judging {
    /// The net before its run. It resets all banks and adds an instance for each block.
    pub fn new<B: Bank>(alloc: Global, net: Net, lib: &mut Library<B>) -> Result<Judging, NoMemory>
        requires free { AreLoopFree net }
        requires full { IsFull lib.old }
        ensures net { IfOk result (λ j. j.kept.fixed.net ≡ net) }
        ensures sound { IfOk result IsSound }
        ensures start { IfOk result (λ j. IsAtStart j lib.new) }
        ensures full { IsFull lib.new }
    {
        let kept = Kept::new(alloc, net, lib)?;
        kept.well_formed();
        lib.well_formed();
        let plans = plans(alloc, &kept)?;
        let mut events = Events::new(alloc, kept.net().source_count())?;
        program_first(kept.net(), &mut events);
        Ok(Judging {
            kept,
            plans,
            events,
        })
    }

    // The source reacts at its date: what is observed of it is written. Whether it stopped; no value is written then.
    fn react<S: Sink, B: Bank>(
        &mut self,
        lib: &mut Library<B>,
        inputs: &Inputs,
        firing: Firing,
        out: &mut S,
    ) -> Result<bool, Failed>
        requires source { firing.source < length (sources_of self.old.kept.fixed.net) }
        requires date { firing.date ≤ TICKS }
        requires sound { IsSound self.old }
        requires idle { AreIdle self.old.kept.fixed self.old.kept.store }
        requires columns { AreColumns self.old.kept.fixed.net inputs.now }
        requires few { self.old.events.pending.programmed + length (sources_of self.old.kept.fixed.net) < 2 ^ 63 }
        requires shown { (st : State) × IsAt self.old lib.old st }
        ensures reacted { ReactsTo inputs.now firing self.old self.new lib.old lib.new (S.state out.old) (S.state out.new) result }
        ensures seated { AreSeated self.old.kept.fixed lib.new }
        ensures marked { MarksOnly self.old.kept.fixed (blocks_at self.old.plans.items firing.source) self.new.kept.store }
        ensures sound { IsSound self.new }
        ensures same { (self.new.kept.fixed ≡ self.old.kept.fixed) × (self.new.plans ≡ self.old.plans) }
    {
        self.kept.well_formed();
        let plan = &self.plans[firing.source as usize];
        self.kept.begin_row(&plan.row);
        let header = self.kept.header(firing.source, firing.date);
        match self.kept.pass(lib, inputs, &plan.row) {
            Some((block, word)) => {
                self.kept.observe(&header, out)?;
                self.kept
                    .observe(&Obs::Stop(word, i64::from(block), 0), out)?;
                Ok(true)
            }
            None => {
                self.kept.write_reaction(&plan.row, &header, out)?;
                finish(
                    &mut self.kept,
                    &mut self.events,
                    lib,
                    inputs,
                    plan,
                    firing.date,
                );
                Ok(false)
            }
        }
    }

    // What comes behind a reaction of this source whose marks these are, where so many events may still fire.
    fn comes_behind(&self, source: u32, until: u64, left: u64) -> Due
        requires source { source < length (sources_of self.now.kept.fixed.net) }
        requires sound { IsSound self.now }
        ensures { TellsDue source until left self.now result }
    {
        if self.kept.halts(&self.plans[source as usize].row.halts) {
            return Due::Over(EndWord::Halt);
        }
        if left == 0 {
            return Due::Over(EndWord::Events);
        }
        match self.events.next() {
            None => Due::Over(EndWord::Empty),
            Some(event) => if until < event.date {
                Due::Over(EndWord::Until)
            } else {
                Due::Fires(event)
            },
        }
    }

    // The source reacts at its date, where so many events may fire behind it: what is observed of it is written, and the end of the run where it
    // ends there. What fires next, whose event is taken from those that are pending; None where the run is over. It fails only where the sink does.
    fn step<S: Sink, B: Bank>(
        &mut self,
        lib: &mut Library<B>,
        inputs: &Inputs,
        firing: Firing,
        until: u64,
        left: u64,
        out: &mut S,
    ) -> Result<Option<Event>, Failed>
        requires source { firing.source < length (sources_of self.old.kept.fixed.net) }
        requires date { firing.date ≤ TICKS }
        requires sound { IsSound self.old }
        requires idle { AreIdle self.old.kept.fixed self.old.kept.store }
        requires columns { AreColumns self.old.kept.fixed.net inputs.now }
        requires few { self.old.events.pending.programmed + length (sources_of self.old.kept.fixed.net) < 2 ^ 63 }
        requires shown { (st : State) × IsAt self.old lib.old st }
        ensures reacted { StepsTo inputs.now firing until left self.old self.new lib.old lib.new (S.state out.old) (S.state out.new) result }
        ensures cleared { IfOk result (λ next. IsSome next → AreIdle self.old.kept.fixed self.new.kept.store) }
        ensures seated { AreSeated self.old.kept.fixed lib.new }
        ensures sound { IsSound self.new }
        ensures same { (self.new.kept.fixed ≡ self.old.kept.fixed) × (self.new.plans ≡ self.old.plans) }
    {
        if self.react(lib, inputs, firing, out)? {
            return Ok(None);
        }
        match self.comes_behind(firing.source, until, left) {
            Due::Over(word) => {
                self.kept.observe(&Obs::End(word), out)?;
                Ok(None)
            }
            Due::Fires(event) => {
                self.events.remove(event);
                let blocks = &self.plans[firing.source as usize].row.blocks;
                self.kept.clear(blocks);
                Ok(Some(event))
            }
        }
    }

    /// Runs the net from before start until the end of its run, past no date over `until`, in ticks of at most 2^62, and for at most `limit` events,
    /// at most 1,000,000, and writes the trace. It takes no memory, and fails only where the sink does, which then took a front of the trace.
    pub fn run<S: Sink, B: Bank>(
        &mut self,
        lib: &mut Library<B>,
        inputs: &Inputs,
        until: u64,
        limit: u64,
        out: &mut S,
    ) -> Result<(), Failed>
        requires until { until ≤ TICKS }
        requires limit { limit ≤ EVENTS }
        requires columns { AreColumns self.old.kept.fixed.net inputs.now }
        requires sound { IsSound self.old }
        requires start { IsAtStart self.old lib.old }
        ensures written { WritesRun self.old.kept.fixed.net inputs.now until limit (S.state out.old) (S.state out.new) result }
        ensures seated { AreSeated self.old.kept.fixed lib.new }
    {
        self.kept.well_formed();
        let mut firing = Firing { source: 0, date: 0 };
        for fired in 0..limit + 1 {
            match self.step(lib, inputs, firing, until, limit - fired, out)? {
                None => return Ok(()),
                Some(event) => {
                    firing = Firing {
                        source: event.source,
                        date: event.date,
                    };
                }
            }
        }
        unreachable!()
    }
}
