//! A run that is done up to a reaction, to be saved there: its state behind that reaction, where it goes on.
#![tactic(auto)]

ghost use Rattle.std.specs.Prelude.{◌≡◌, ◌≤◌, IfOk, IfSome, IfNone};
ghost use Rattle.sci_base.specs.declared.limits.TheConstants.{TICKS, EVENTS};
ghost use Rattle.sci_net.specs.Net.{IsNet};
ghost use Rattle.sci_reaction.specs.Memory.{AreColumns};
ghost use Rattle.sci_run.specs.Laws.{AreLoopFree};
ghost use Rattle.sci_bank.specs.Library.{IsFull};
ghost use Rattle.sci_sim.specs.At.{IsAtStart};
ghost use Rattle.sci_resume.specs.Behind.{HasEnded, IsReached};
ghost use Rattle.sci_resume.specs.Stands.{StandsBehind};
ghost use Rattle.sci_resume.specs.Laws.{OneSaved, OneEnd, NotBoth, SomeReached, SavedIsValid, RunGoesOn};

use sci_bank::Bank;
use sci_bank::library::Library;
use sci_base::NoMemory;
use sci_io::{Failed, SureSink};
use sci_save::Image;
use sci_sim::{Ready, Step};
use sci_trace::inputs::Inputs;
use std::alloc::Global;

/// What a run comes to of which the state behind a reaction is asked for.
#[derive(Drop)]
pub enum Reached {
    /// What is saved behind that reaction. The run goes on there.
    Saved(Image),
    /// How many reactions the run has, one that stops included. It has none behind that reaction.
    Ended(u64),
}

// Does the first so many reactions of the run, start's first. Where the run is over by then, the answer is how many it has.
fn react_times<B: Bank>(
    ready: &mut Ready,
    lib: &mut Library<B>,
    ins: &Inputs,
    until: u64,
    limit: u64,
    count: u64,
) -> Option<u64>
    requires until { until ≤ TICKS }
    requires limit { limit ≤ EVENTS }
    requires columns { AreColumns ready.old.fixed.net ins.now }
    requires start { IsAtStart ready.old.fixed.net ready.old lib.old }
    requires some { 1 ≤ count }
    ensures ended { IfSome result (λ k. HasEnded ready.old.fixed.net ins.now until limit count k) }
    ensures stands { IfNone result (StandsBehind ins.now until limit count ready.new lib.new) }
    ensures net { ready.new.fixed ≡ ready.old.fixed }
    ensures full { IsFull lib.new }
{
    let mut nowhere = SureSink;
    for done in 0..count {
        match ready.step(lib, ins, until, limit, &mut nowhere) {
            Ok(Step::More) => {}
            Ok(Step::Over(_)) => return Some(done + 1),
            Err(Failed) => unreachable!(),
        }
    }
    None
}

/// Runs the net from before start through the reaction of this number, at most 1,000,001, start's being 1, past no date over `until` and for at
/// most `limit` events. What is observed is not kept. Where the run goes on behind this reaction, its state is saved; else the answer is how many
/// reactions it has. The net is of use for its reader of the net alone then.
pub fn run_to<B: Bank>(
    alloc: Global,
    ready: &mut Ready,
    lib: &mut Library<B>,
    ins: &Inputs,
    until: u64,
    limit: u64,
    reaction: u64,
) -> Result<Reached, NoMemory>
    requires until { until ≤ TICKS }
    requires limit { limit ≤ EVENTS }
    requires net { IsNet ready.old.fixed.net }
    requires free { AreLoopFree ready.old.fixed.net }
    requires columns { AreColumns ready.old.fixed.net ins.now }
    requires start { IsAtStart ready.old.fixed.net ready.old lib.old }
    requires some { 1 ≤ reaction }
    ensures reached { IfOk result (λ x. IsReached ready.old.fixed.net ins.now until limit reaction x) }
    ensures net { ready.new.fixed ≡ ready.old.fixed }
    ensures full { IsFull lib.new }
{
    match react_times(ready, lib, ins, until, limit, reaction) {
        Some(count) => Ok(Reached::Ended(count)),
        None => {
            let image = ready.image(alloc, lib)?;
            Ok(Reached::Saved(image))
        }
    }
}

/// Behind each reaction of a run one thing is saved, which may be read again, or the run is over; and not both. What was observed up to there, and what
/// is observed of the run that goes on from what was saved, are the whole run.
pub fn one_is_saved()
    ensures saved { OneSaved }
    ensures ended { OneEnd }
    ensures not_both { NotBoth }
    ensures some { SomeReached }
    ensures valid { SavedIsValid }
    ensures goes_on { RunGoesOn }
{}
