// A run that is written as a dump.
ghost use Rattle.std.specs.Prelude.{◌≡◌, ◌≤◌, List, IfOk, IfSome, IfNone};
ghost use Rattle.sci_base.specs.declared.limits.TheConstants.{TICKS, EVENTS};
ghost use Rattle.sci_base.specs.declared.observation.StopWord.{StopWord as Word};
ghost use Rattle.sci_io.specs.Taken.{Writes};
ghost use Rattle.sci_net.specs.Net.{IsNet};
ghost use Rattle.sci_reaction.specs.Memory.{AreColumns};
ghost use Rattle.sci_run.specs.Laws.{AreLoopFree};
ghost use Rattle.sci_run.specs.Run.{State};
ghost use Rattle.sci_bank.specs.Bank.{Meaning};
ghost use Rattle.sci_bank.specs.Library.{IsFull};
ghost use Rattle.sci_sim.specs.At.{IsAt, IsAtStart};
ghost use Rattle.sci_sim.specs.Steps.{HasRun};
ghost use Rattle.sci_vcd.specs.Waveforms.{Waveforms};
ghost use Rattle.sci_vcd.specs.Spelling.{spelling};
ghost use Rattle.sci_vcd.specs.Writing.{IsWriting, IsOutset, MayClose};
ghost use Rattle.sci_wave.specs.Noted.{IsOf, NotesActive};
ghost use Rattle.sci_wave.specs.Following.{due_text, moved_to};
ghost use Rattle.sci_wave.specs.RunDump.{IsRunDump};

use crate::noting::{note_active, note_all};
use sci_bank::Bank;
use sci_bank::library::Library;
use sci_base::StopWord;
use sci_io::{Failed, Sink, SureSink};
use sci_sim::{Ready, RunEnd, Step};
use sci_trace::inputs::Inputs;
use sci_vcd::VcdOut;

/// The word of a stop, where the step came to one.
fn stop_of(step: Step) -> Option<StopWord>
    ensures some { IfSome result (λ w. step ≡ Step.Over (RunEnd.Stop w)) }
    ensures none { IfNone result ((w : Word) → step ≡ Step.Over (RunEnd.Stop w) → ⊥) }
{
    match step {
        Step::More => None,
        Step::Over(end) => match end {
            RunEnd::End(_) => None,
            RunEnd::Stop(word) => Some(word),
        },
    }
}

/// Closes the tick of this date where the last reaction has a later one, and writes what is due for it.
fn close_past<S: Sink>(dump: &mut VcdOut, date: u64, now: u64, out: &mut S) -> Result<(), Failed>
    requires may { MayClose dump.old.closed date }
    requires early { date ≤ TICKS }
    ensures written { Writes (S.state out.old) (S.state out.new) (due_text dump.old date now) result }
    ensures moved { IfOk result (λ u. dump.new ≡ moved_to dump.old date now) }
{
    if now == date {
        return Ok(());
    }
    dump.close_tick(date, out)
}

/// Follows a reaction with values: closes the tick of this date where the reaction has a later one, and notes what the active blocks hold.
fn follow<S: Sink>(ready: &Ready, dump: &mut VcdOut, date: u64, out: &mut S) -> Result<(), Failed>
    requires may { MayClose dump.old.closed date }
    requires early { date ≤ TICKS }
    requires net { IsNet ready.now.fixed.net }
    requires of { IsOf ready.now.fixed.net dump.old }
    requires stands { (banks : List Meaning) × (st : State) × IsAt ready.now banks st }
    ensures written { Writes (S.state out.old) (S.state out.new) (due_text dump.old date ready.entry.now.now) result }
    ensures moved { IfOk result (λ u. dump.new ≡ record (moved_to dump.old date ready.entry.now.now) { noted = dump.new.noted }) }
    ensures noted { IfOk result (λ u. NotesActive ready.entry.now dump.old dump.new) }
    ensures writing { IfOk result (λ u. IsWriting dump.new) }
{
    close_past(dump, date, ready.now(), out)?;
    note_active(ready, dump);
    dump.well_formed();
    Ok(())
}

/// Runs the net from before start until the end of its run, as `Ready::run` does with the same bounds and inputs, and writes the dump of the run
/// in place of its trace, up to where it ends or stops. No source of the net has a loop, and `dump` is new, of the same net. It takes no memory.
/// It fails only where the sink does, which then took a front of the text.
pub fn dump_run<S: Sink, B: Bank>(
    ready: &mut Ready,
    dump: &mut VcdOut,
    lib: &mut Library<B>,
    ins: &Inputs,
    until: u64,
    limit: u64,
    out: &mut S,
) -> Result<RunEnd, Failed>
    requires net { IsNet ready.old.fixed.net }
    requires free { AreLoopFree ready.old.fixed.net }
    requires until { until ≤ TICKS }
    requires limit { limit ≤ EVENTS }
    requires columns { AreColumns ready.old.fixed.net ins.now }
    requires start { IsAtStart ready.old.fixed.net ready.old lib.old }
    requires outset { IsOutset ready.old.fixed.net dump.old }
    ensures written { (w : Waveforms) × IsRunDump ready.old.fixed.net ins.now until limit w × Writes (S.state out.old) (S.state out.new) (spelling w) result }
    ensures finished { IfOk result (HasRun ready.old.fixed.net ins.now until limit ready.new lib.new) }
    ensures net { ready.new.fixed ≡ ready.old.fixed }
    ensures full { IsFull lib.new }
{
    note_all(ready, dump);
    dump.well_formed();
    let mut trace = SureSink;
    let mut date = 0;
    for _reaction in 0..limit + 1 {
        let step = ready.step(lib, ins, until, limit, &mut trace)?;
        if let Some(word) = stop_of(step) {
            dump.close_tick(date, out)?;
            return Ok(RunEnd::Stop(word));
        }
        follow(ready, dump, date, out)?;
        date = ready.now();
        if let Step::Over(end) = step {
            dump.close_tick(date, out)?;
            return Ok(end);
        }
    }
    unreachable!()
}
