// The rest of a run.
ghost use Rattle.std.specs.Prelude.{◌≡◌, ◌≤◌, true};
ghost use Rattle.sci_base.specs.declared.limits.TheConstants.{TICKS, EVENTS};
ghost use Rattle.sci_base.specs.declared.observation.Obs.{Obs};
ghost use Rattle.sci_reaction.specs.Memory.{AreColumns};
ghost use Rattle.sci_run.specs.Run.{State};
ghost use Rattle.sci_bank.specs.Library.{IsFull};

use crate::end::{RunEnd, Step};
use crate::ready::Ready;
use sci_bank::Bank;
use sci_bank::library::Library;
use sci_base::Obs;
use sci_io::{Failed, Sink};
use sci_trace::inputs::Inputs;

impl Ready {
    ghost use Rattle.sci_sim.specs.At.{IsAt};
    ghost use Rattle.sci_sim.specs.Rest.{WritesRest, FinishesRest};

    /// Runs the net on from the state behind a reaction, at which it stands, until the end of its run, past no date over `until` and until `limit` events
    /// have fired, those before this state included; and writes what is observed from there on. Where an end is due at once, this is its line alone. The
    /// bounds, inputs and failures are those of `step`. It takes no memory.
    pub fn run_on<S: Sink, B: Bank>(
        &mut self,
        lib: &mut Library<B>,
        ins: &Inputs,
        until: u64,
        limit: u64,
        out: &mut S,
    ) -> Result<RunEnd, Failed>
        requires until { until ≤ TICKS }
        requires limit { limit ≤ EVENTS }
        requires columns { AreColumns self.old.fixed.net ins.now }
        requires started { self.old.started ≡ true }
        requires at { (st : State) × IsAt self.old lib.old st }
        ensures written { WritesRest ins.now until limit self.old lib.old (S.state out.old) (S.state out.new) result }
        ensures finished { FinishesRest ins.now until limit self.old self.new lib.old lib.new result }
        ensures offset { self.new.offset ≡ self.old.offset }
        ensures net { self.new.fixed ≡ self.old.fixed }
        ensures full { IsFull lib.new }
    {
        self.kept.well_formed();
        if let Some(word) = self.due_end(until, limit) {
            self.kept.observe(&Obs::End(word), out)?;
            return Ok(RunEnd::End(word));
        }
        for _reaction in 0..limit {
            if let Step::Over(end) = self.step(lib, ins, until, limit, out)? {
                return Ok(end);
            }
        }
        unreachable!()
    }
}
