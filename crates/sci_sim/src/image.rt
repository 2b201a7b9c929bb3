// What is saved of a run behind a reaction.
ghost use Rattle.std.specs.Prelude.{◌≡◌, ℕ, ◌+◌, ◌<◌, ◌^◌, [], map, All, IfOk};
ghost use Rattle.sci_kinds.specs.Asks.{IsState};
ghost use Rattle.sci_net.specs.Parts.{IsBlock, spec_of, rows_of};
ghost use Rattle.sci_places.specs.Flat.{values_at};
ghost use Rattle.sci_run.specs.Run.{State};
ghost use Rattle.sci_save.specs.Saved.{Saved, saved_of};
ghost use Rattle.sci_save.specs.Resumed.{IsSavedOf};
ghost use Rattle.sci_store.specs.Frame.{AreSeated};
ghost use Rattle.sci_store.specs.Store.{state_of};
ghost use Rattle.sci_sim.specs.Saving.{IsByBlock, more};

use crate::ready::Ready;
use sci_agenda::agenda::Agenda;
use sci_bank::Bank;
use sci_bank::library::Library;
use sci_base::NoMemory;
use sci_kept::Kept;
use sci_save::Image;
use std::alloc::Global;

/// The state of a block.
fn state<B: Bank>(
    alloc: Global,
    kept: &Kept,
    lib: &Library<B>,
    block: u32,
) -> Result<Vec<i64>, NoMemory>
    requires seated { AreSeated kept.now.fixed lib.now }
    requires block { IsBlock kept.now.fixed.net block }
    requires state { IsState (spec_of kept.now.fixed.net block) (state_of kept.now.fixed lib.now block) }
    ensures { IfOk result (λ v. v.items ≡ state_of kept.now.fixed lib.now block) }
{
    kept.well_formed();
    let seat = kept.seat(block);
    let count = kept.net().spec(block).state_len();
    let mut values = Vec::with_capacity(alloc, count)?;
    for at in 0..count {
        values.push(lib.state_at(seat.kind, seat.slot, at))?;
    }
    Ok(values)
}

/// The states of all blocks.
fn states<B: Bank>(alloc: Global, kept: &Kept, lib: &Library<B>) -> Result<Vec<Vec<i64>>, NoMemory>
    requires seated { AreSeated kept.now.fixed lib.now }
    requires states { (b : ℕ) → IsBlock kept.now.fixed.net b → IsState (spec_of kept.now.fixed.net b) (state_of kept.now.fixed lib.now b) }
    ensures { IfOk result (λ v. IsByBlock kept.now.fixed.net [] (state_of kept.now.fixed lib.now) (rows_of v.items)) }
{
    let mut states = Vec::with_capacity(alloc, kept.net().len() as usize)?;
    for block in 0..kept.net().len() {
        states.push(state(alloc, kept, lib, block + 1)?)?;
    }
    Ok(states)
}

/// The values that the outputs of all blocks hold.
fn held(alloc: Global, kept: &Kept) -> Result<Vec<Vec<i64>>, NoMemory>
    ensures { IfOk result (λ v. IsByBlock kept.now.fixed.net [] (values_at kept.now.fixed.net kept.now.store.values) (rows_of v.items)) }
{
    let mut held = Vec::with_capacity(alloc, kept.net().len() as usize)?;
    for block in 0..kept.net().len() {
        held.push(kept.held(block + 1).to_vec(alloc)?)?;
    }
    Ok(held)
}

/// How many values of its column each sensor has taken.
fn cursors(alloc: Global, kept: &Kept) -> Result<Vec<u64>, NoMemory>
    ensures { IfOk result (λ v. v.items ≡ kept.now.store.cursors) }
{
    let taken = kept.cursors();
    let mut cursors = Vec::with_capacity(alloc, taken.len())?;
    for cursor in taken {
        cursors.push(*cursor as u64)?;
    }
    Ok(cursors)
}

/// Takes the pending events out of an agenda, whose dates are less by `offset`, in the order in which they fire.
fn pending<A: Agenda>(
    alloc: Global,
    agenda: &mut A,
    offset: u64,
) -> Result<Vec<(u64, u32)>, NoMemory>
    requires { All (λ e. e.0 + offset < 2 ^ 64) (A.meaning agenda.old).events }
    ensures { IfOk result (λ v. v.items ≡ map (more offset) (A.meaning agenda.old).events) }
{
    let mut events = Vec::new(alloc);
    while let Some((date, source)) = agenda.take() {
        events.push((date + offset, source))?;
    }
    Ok(events)
}

impl Ready {
    ghost use Rattle.sci_sim.specs.At.{IsAt};

    /// What is saved of the state behind the last reaction, at which the net stands with its library. The state is one of which something is saved,
    /// as each is that a run reaches. It takes the pending events out, so the net goes on no more; all else that it shows stays, also where memory is
    /// wanting, so it is of use for the calls that read it, those of pending events apart.
    pub fn image<B: Bank>(&mut self, alloc: Global, lib: &Library<B>) -> Result<Image, NoMemory>
        requires { (st : State) × (m : Saved) × IsAt self.old lib.now st × IsSavedOf self.old.fixed.net st m }
        ensures image { (st : State) (m : Saved) → IsAt self.old lib.now st → IsSavedOf self.old.fixed.net st m → IfOk result (λ image. saved_of image ≡ m) }
        ensures rest { self.new ≡ record self.old { wheel = self.new.wheel } }
    {
        self.kept.well_formed();
        let states = states(alloc, &self.kept, lib)?;
        let held = held(alloc, &self.kept)?;
        let cursors = cursors(alloc, &self.kept)?;
        let pending = pending(alloc, &mut self.wheel, self.offset)?;
        Ok(Image {
            fired: self.fired,
            now: self.now,
            states,
            held,
            cursors,
            pending,
        })
    }
}
