// What changes from one reaction to the next.
ghost use Rattle.std.specs.Prelude.{◌≡◌, ℕ, ◌+◌, ◌-◌, ◌<◌, ◌≤◌, ◌^◌, ◌++◌, ◌∷◌, [], ◌<ℤ◌, pos, slice_set, take, length, All, Contains, true, IfOk, IsSome};
ghost use Rattle.std.specs.Prelude.{OnOk, OnErr};
ghost use Rattle.sci_base.specs.Lists.{at, listed};
ghost use Rattle.sci_io.specs.Taken.{Writes};
ghost use Rattle.sci_trace.specs.Lines.{line, text};
ghost use Rattle.sci_forms.specs.Form.{has_delay};
ghost use Rattle.sci_kinds.specs.Asks.{IsMask, IsState};
ghost use Rattle.sci_forms.specs.Words.{held_of};
ghost use Rattle.sci_net.specs.Parts.{IsBlock, spec_of};
ghost use Rattle.sci_forms.specs.Form.{is_sensor};
ghost use Rattle.sci_reaction.specs.Memory.{AreColumns, next_value, first_memory};
ghost use Rattle.sci_reaction.specs.Equations.{AreInRange};
ghost use Rattle.sci_places.specs.Flat.{values_at, IsWhole};

use crate::block::{compute, place, take_branch};
use crate::frame::Frame;
use crate::marks::{IDLE, Mark, clear};
use crate::row::{ReadyRow, Run, Show};
use crate::tally::Tally;
use sci_bank::library::Library;
use sci_bank::{Bank, Call, Fate};
use sci_base::{NoMemory, Obs, StopWord};
use sci_io::{Failed, Sink};
use sci_kinds::Spec;
use sci_lines::Lines;
use sci_trace::inputs::Inputs;
use sci_trace::write_obs;
use std::alloc::Global;
use std::marker::Model;

/// The values of a net's outputs, the cursors of its sensors, and what the last reaction activated.
#[derive(Drop)]
pub struct Store {
    /// By block, port and element.
    pub(crate) values: Vec<i64>,
    /// By block; 0 for a block that is no sensor.
    cursors: Vec<usize>,
    /// By block.
    pub(crate) marks: Vec<Mark>,
    // room for what goes into one block
    ins: Vec<i64>,
    // room for the calls of a run
    pub(crate) chosen: Vec<Call>,
    tally: Tally,
}

impl Model for Store {
    ghost use Rattle.sci_store.specs.Store.{Standing};

    ghost Value = { Standing };

    ghost use Rattle.sci_store.specs.Views.{standing};

    ghost view = { standing };
}

/// Adds the values that a block holds before its first activation.
fn push_held(values: &mut Vec<i64>, spec: &Spec, count: usize) -> Result<(), NoMemory>
    ensures { OnOk result (values.new.items ≡ values.old.items ++ listed (held_of spec.now.kind spec.now) count) }
{
    for at in 0..count {
        values.push(spec.held(at))?;
    }
    Ok(())
}

/// The values that all blocks hold before the run.
fn all_held(alloc: Global, frame: &Frame) -> Result<Vec<i64>, NoMemory>
    ensures whole { IfOk result (λ v. IsWhole frame.now.net v.items) }
    ensures held { IfOk result (λ v. (b : ℕ) → IsBlock frame.now.net b → values_at frame.now.net v.items b ≡ (first_memory frame.now.net).held b) }
{
    let mut values = Vec::new(alloc);
    for block in 0..frame.net.len() {
        let count = frame.places.outs(block + 1).len;
        push_held(&mut values, frame.net.spec(block + 1), count)?;
    }
    Ok(values)
}

impl Store {
    ghost use Rattle.sci_store.specs.Marks.{idle, mark_at};
    ghost use Rattle.sci_store.specs.Blocks.{AreBlocksByNumber};
    ghost use Rattle.sci_store.specs.Frame.{AreSeated};
    ghost use Rattle.sci_store.specs.Store.{Standing, IsStore, AreIdle, cursor_at, state_of};
    ghost use Rattle.sci_store.specs.Passed.{IsAnswered, IsStateStepped, IsBlockStepped, AreAlikeCounts, KeepsValues};
    ghost use Rattle.sci_store.specs.Written.{IsPlain, tallied, tallied_values};
    ghost use Rattle.sci_lines.specs.Lines.{IsHeader};
    ghost use Rattle.sci_store.specs.Rows.{IsReadyRow, KeepsBegun, IsShowOf, is_shown, between, active_calls, state_calls_in, shown_values};
    ghost use Rattle.sci_store.specs.Runs.{AreStepped, AreCalledOnce, called_blocks, MayStep, MayStepAmong, lines_of};
    ghost use Rattle.sci_store.specs.Delays.{delays_in};
    ghost use Rattle.sci_lines.specs.Paged.{paged};
    ghost use Rattle.sci_store.specs.Entering.{IsEntered, inputs_of, HasNext};
    ghost use Rattle.sci_store.specs.Reaction.{IfSeen, Steps, TellsHalt};

    /// The store before a run.
    pub fn new(alloc: Global, frame: &Frame) -> Result<Store, NoMemory>
        ensures store { IfOk result (λ s. IsStore frame.now s) }
        ensures held { IfOk result (λ s. (b : ℕ) → IsBlock frame.now.net b → values_at frame.now.net s.values b ≡ (first_memory frame.now.net).held b) }
        ensures cursors { IfOk result (λ s. (b : ℕ) → IsBlock frame.now.net b → cursor_at s b ≡ 0) }
        ensures idle { IfOk result (λ s. AreIdle frame.now s) }
        ensures lines { IfOk result (λ s. s.lines ≡ 0) }
        ensures sum { IfOk result (λ s. s.sum ≡ 0) }
    {
        let values = all_held(alloc, frame)?;
        let cursors = vec![in alloc; 0; frame.net.len() as usize]?;
        Store::of(alloc, frame, values, cursors)
    }

    /// The store of these values, by block, port and element, and these cursors, by block; nothing is marked or counted.
    pub fn of(
        alloc: Global,
        frame: &Frame,
        values: Vec<i64>,
        cursors: Vec<usize>,
    ) -> Result<Store, NoMemory>
        requires values { IsWhole frame.now.net values.items }
        requires cursors { length cursors.items ≡ length frame.now.net.specs }
        ensures store { IfOk result (λ s. IsStore frame.now s) }
        ensures values { IfOk result (λ s. s.values ≡ values.items) }
        ensures cursors { IfOk result (λ s. s.cursors ≡ cursors.items) }
        ensures idle { IfOk result (λ s. AreIdle frame.now s) }
        ensures lines { IfOk result (λ s. s.lines ≡ 0) }
        ensures sum { IfOk result (λ s. s.sum ≡ 0) }
    {
        let marks = vec![in alloc; IDLE; frame.net.len() as usize]?;
        let ins = vec![in alloc; 0; frame.places.longest()]?;
        let chosen = vec![in alloc; Call {
            slot: 0,
            block: 0,
            mask: 0
        }; frame.net.len() as usize]?;
        Ok(Store {
            values,
            cursors,
            marks,
            ins,
            chosen,
            tally: Tally::new(),
        })
    }

    /// The values that a block's outputs hold, by port and element.
    pub fn held(&self, frame: &Frame, block: u32) -> &[i64]
        requires store { IsStore frame.now self.now }
        requires block { IsBlock frame.now.net block }
        ensures { result.now ≡ values_at frame.now.net self.now.values block }
    {
        let place = place(frame, block);
        &self.values[place.start..place.start + place.len]
    }

    /// The values that the outputs of all blocks hold, by block, port and element.
    pub fn values(&self) -> &[i64]
        ensures { result.now ≡ self.now.values }
    {
        &self.values
    }

    /// How many values of its column each sensor has taken, by block; 0 for a block that is no sensor.
    pub fn cursors(&self) -> &[usize]
        ensures { result.now ≡ self.now.cursors }
    {
        &self.cursors
    }

    /// What was counted of the run.
    pub fn tally(&self) -> Tally
        ensures lines { result.lines ≡ self.now.lines }
        ensures sum { result.sum ≡ self.now.sum }
    {
        self.tally
    }

    /// Writes an observation without a value.
    pub fn observe<S: Sink>(&mut self, o: &Obs, out: &mut S) -> Result<(), Failed>
        requires { IsPlain o.now }
        ensures written { Writes (S.state out.old) (S.state out.new) (line o.now) result }
        ensures counted { OnOk result (self.new ≡ tallied self.old (o.now ∷ [])) }
        ensures kept { OnErr result (self.new ≡ self.old) }
    {
        write_obs(o, out)?;
        self.tally.count();
        Ok(())
    }

    /// Whether the last reaction activated the block.
    pub fn is_active(&self, block: u32) -> bool
        requires least { 1 ≤ block }
        requires most { block ≤ length self.now.marks }
        ensures { result ≡ (mark_at self.now.marks block).active }
    {
        self.marks[block as usize - 1].active
    }

    /// What is known of each block in the last reaction, by number.
    pub fn marks(&self) -> &[Mark]
        ensures { result.now ≡ self.now.marks }
    {
        self.marks.as_slice()
    }

    /// Takes back what a reaction activated among these blocks.
    pub fn clear(&mut self, frame: &Frame, blocks: &[u32])
        requires store { IsStore frame.now self.old }
        requires blocks { AreBlocksByNumber frame.now.net blocks.now }
        ensures cleared { (b : ℕ) → Contains blocks.now b → mark_at self.new.marks b ≡ idle }
        ensures others { (b : ℕ) → (Contains blocks.now b → ⊥) → mark_at self.new.marks b ≡ mark_at self.old.marks b }
        ensures rest { self.new ≡ record self.old { marks = self.new.marks } }
        ensures store { IsStore frame.now self.new }
    {
        clear(&mut self.marks, blocks);
    }

    // The next value of a sensor's column, where it has one. It is a call of its own, since few blocks are sensors.
    #[inline(never)]
    fn sense(&self, frame: &Frame, inputs: &Inputs, block: u32) -> Option<i64>
        requires store { IsStore frame.now self.now }
        requires block { IsBlock frame.now.net block }
        ensures value { result ≡ next_value inputs.now (spec_of frame.now.net block) (cursor_at self.now block) }
        ensures small { IsSome result → cursor_at self.now block < 2 ^ 63 }
    {
        let at = frame.column(block).checked_sub(1)?;
        let column = inputs.columns().get(at)?;
        let value = column.get(self.cursors[block as usize - 1])?;
        Some(*value)
    }

    // What goes into a block: the next value of a sensor's column, or the values on all inputs. None at the end of the column.
    #[inline(always)]
    fn enter(&mut self, frame: &Frame, inputs: &Inputs, block: u32) -> Option<usize>
        requires store { IsStore frame.now self.old }
        requires block { IsBlock frame.now.net block }
        ensures entered { IsEntered frame.now inputs.now self.old block self.new.room result }
        ensures same { self.new ≡ record self.old { room = self.new.room } }
        ensures room { length self.new.room ≡ length self.old.room }
    {
        frame.well_formed();
        if frame.seat(block).kind.is_sensor() {
            self.ins[0] = self.sense(frame, inputs, block)?;
            return Some(1);
        }
        Some(self.gather(frame, block))
    }

    // The values on all inputs of a block.
    #[inline(always)]
    fn gather(&mut self, frame: &Frame, block: u32) -> usize
        requires store { IsStore frame.now self.old }
        requires block { IsBlock frame.now.net block }
        ensures within { result ≤ length self.new.room }
        ensures gathered { take result self.new.room ≡ inputs_of frame.now self.old block }
        ensures same { self.new ≡ record self.old { room = self.new.room } }
        ensures room { length self.new.room ≡ length self.old.room }
    {
        frame.well_formed();
        frame.places.gather(block, &self.values, &mut self.ins)
    }

    /// Gives an active block its values; or the word that says why it has none.
    #[inline(always)]
    pub fn evaluate<B: Bank>(
        &mut self,
        frame: &Frame,
        lib: &mut Library<B>,
        inputs: &Inputs,
        block: u32,
        mask: u64,
    ) -> Option<StopWord>
        requires store { IsStore frame.now self.old }
        requires seated { AreSeated frame.now lib.old }
        requires block { IsBlock frame.now.net block }
        requires mask { IsMask (spec_of frame.now.net block) mask }
        requires values { AreInRange frame.now.net (values_at frame.now.net self.old.values) }
        requires columns { AreColumns frame.now.net inputs.now }
        ensures answer { let before = lib.old in IsAnswered frame.now inputs.now before lib.new self.old self.new block mask result }
        ensures store { IsStore frame.now self.new }
        ensures seated { AreSeated frame.now lib.new }
        ensures values { AreInRange frame.now.net (values_at frame.now.net self.new.values) }
    {
        frame.well_formed();
        let Some(count) = self.enter(frame, inputs, block) else {
            return Some(StopWord::Input);
        };
        let ins = &self.ins[..count];
        match compute(frame, lib, block, mask, ins, &mut self.values) {
            Fate::Overflow => return Some(StopWord::Overflow),
            Fate::Zero => return Some(StopWord::Zero),
            Fate::Done => {}
        }
        let branch = take_branch(frame, lib, block, ins);
        // field by field, so that the bytes between them aren't written
        let mark = &mut self.marks[block as usize - 1];
        mark.active = true;
        mark.branch = branch;
        mark.mask = mask;
        None
    }

    // Whether values are shown: none is asked, or the one that is asked is active.
    #[inline(always)]
    fn is_shown(&self, show: &Show) -> bool
        requires { IsShowOf self.now show.now }
        ensures { result ≡ is_shown self.now.marks show.now }
    {
        match show.asked {
            None => true,
            Some(block) => self.is_active(block),
        }
    }

    // Writes the lines of values that are shown in one piece.
    #[inline(always)]
    fn write_show<S: Sink>(
        &mut self,
        frame: &Frame,
        show: &Show,
        lines: &mut Lines,
        out: &mut S,
    ) -> Result<(), Failed>
        requires store { IsStore frame.now self.old }
        requires show { IsShowOf self.old show.now }
        ensures written { Writes (paged (S.state out.old) lines.old) (paged (S.state out.new) lines.new) (lines_of frame.now self.old show.now) result }
        ensures counted { OnOk result (self.new ≡ tallied_values self.old (between self.old.values show.now.start show.now.end)) }
        ensures same { self.new ≡ record self.old { lines = self.new.lines; sum = self.new.sum } }
        ensures emptied { OnErr result (lines.new ≡ []) }
    {
        frame.well_formed();
        let values = &self.values[show.start..show.end];
        lines.put_all(frame.heads(show.start, show.end), values, out)?;
        self.tally.count_values(values);
        Ok(())
    }

    // Writes the values of the active blocks of a row, by block, port and element, behind what waits among the lines; then no line waits.
    fn write_values<S: Sink>(
        &mut self,
        frame: &Frame,
        row: &ReadyRow,
        lines: &mut Lines,
        out: &mut S,
    ) -> Result<(), Failed>
        requires store { IsStore frame.now self.old }
        requires row { IsReadyRow frame.now row.now }
        requires begun { KeepsBegun frame.now row.now self.old }
        ensures written { IfSeen frame.now self.old row.now (λ seen. Writes (paged (S.state out.old) lines.old) (S.state out.new) (text seen) result) }
        ensures counted { OnOk result (IfSeen frame.now self.old row.now (λ seen. self.new ≡ tallied self.old seen)) }
        ensures same { self.new ≡ record self.old { lines = self.new.lines; sum = self.new.sum } }
        ensures empty { lines.new ≡ [] }
    {
        frame.well_formed();
        for show in &row.shows {
            if self.is_shown(show) {
                self.write_show(frame, show, lines, out)?;
            }
        }
        lines.give(out)
    }

    // Counts the values of the active blocks of a row, which nobody reads.
    fn count_values(&mut self, row: &ReadyRow)
        requires { All (IsShowOf self.old) row.now.shows }
        ensures { self.new ≡ tallied_values self.old (shown_values self.old row.now.shows) }
    {
        for show in &row.shows {
            if self.is_shown(show) {
                self.tally.count_values(&self.values[show.start..show.end]);
            }
        }
    }

    /// Writes the line of a reaction's source, and behind it those of the values of the active blocks of its row, by block, port and element. Where
    /// the sink takes them unseen, they are counted alone.
    pub fn write_reaction<S: Sink>(
        &mut self,
        frame: &Frame,
        row: &ReadyRow,
        header: &Obs,
        lines: &mut Lines,
        out: &mut S,
    ) -> Result<(), Failed>
        requires store { IsStore frame.now self.old }
        requires row { IsReadyRow frame.now row.now }
        requires begun { KeepsBegun frame.now row.now self.old }
        requires header { IsHeader header.now }
        ensures written { IfSeen frame.now self.old row.now (λ seen. Writes (S.state out.old) (S.state out.new) (text (header.now ∷ seen)) result) }
        ensures counted { OnOk result (IfSeen frame.now self.old row.now (λ seen. self.new ≡ tallied self.old (header.now ∷ seen))) }
        ensures same { self.new ≡ record self.old { lines = self.new.lines; sum = self.new.sum } }
    {
        frame.well_formed();
        self.tally.count();
        if out.take_unseen() {
            self.count_values(row);
            return Ok(());
        }
        lines.begin(header);
        self.write_values(frame, row, lines, out)
    }

    /// After how many ticks an activation output of an active block fires next, on the values that go in; -1 where nothing is programmed.
    pub fn delay<B: Bank>(&mut self, frame: &Frame, lib: &Library<B>, block: u32, port: u32) -> i64
        requires store { IsStore frame.now self.old }
        requires seated { AreSeated frame.now lib.now }
        requires block { IsBlock frame.now.net block }
        requires delayed { has_delay (spec_of frame.now.net block).kind ≡ true }
        requires active { (mark_at self.old.marks block).active ≡ true }
        requires values { AreInRange frame.now.net (values_at frame.now.net self.old.values) }
        ensures value { result ≡ delays_in frame.now self.old (record { block = block; port = port }) }
        ensures small { result <ℤ pos (2 ^ 31) }
        ensures same { self.new ≡ record self.old { room = self.new.room } }
        ensures room { length self.new.room ≡ length self.old.room }
    {
        frame.well_formed();
        let seat = frame.seat(block);
        let count = self.gather(frame, block);
        lib.delay(seat.kind, seat.slot, port, &self.ins[..count])
    }

    // An active block steps its state, where its kind has one.
    #[inline(always)]
    fn update_state<B: Bank>(&mut self, frame: &Frame, lib: &mut Library<B>, block: u32)
        requires store { IsStore frame.now self.old }
        requires seated { AreSeated frame.now lib.old }
        requires block { IsBlock frame.now.net block }
        requires values { AreInRange frame.now.net (values_at frame.now.net self.old.values) }
        requires mask { IsMask (spec_of frame.now.net block) (mark_at self.old.marks block).mask }
        requires state { IsState (spec_of frame.now.net block) (state_of frame.now lib.old block) }
        ensures { IsStateStepped frame.now block self.old self.new lib.old lib.new }
    {
        frame.well_formed();
        let seat = frame.seat(block);
        if !seat.kind.has_state() {
            return;
        }
        let count = self.gather(frame, block);
        let mask = self.marks[block as usize - 1].mask;
        lib.update(seat.kind, seat.slot, mask, &self.ins[..count]);
    }

    // A sensor whose column has a value goes on to the next.
    fn go_on(&mut self, frame: &Frame, inputs: &Inputs, block: u32)
        requires store { IsStore frame.now self.old }
        requires block { IsBlock frame.now.net block }
        requires sensed { HasNext frame.now inputs.now self.old block }
        ensures { self.new ≡ record self.old { cursors = slice_set self.old.cursors (block - 1) (cursor_at self.old block + 1) } }
    {
        if self.sense(frame, inputs, block).is_some() {
            self.cursors[block as usize - 1] += 1;
        }
    }

    // An active block steps its state; a sensor goes on in its column.
    #[inline(always)]
    fn update<B: Bank>(&mut self, frame: &Frame, lib: &mut Library<B>, inputs: &Inputs, block: u32)
        requires store { IsStore frame.now self.old }
        requires seated { AreSeated frame.now lib.old }
        requires block { IsBlock frame.now.net block }
        requires values { AreInRange frame.now.net (values_at frame.now.net self.old.values) }
        requires mask { IsMask (spec_of frame.now.net block) (mark_at self.old.marks block).mask }
        requires sensed { is_sensor (spec_of frame.now.net block).kind ≡ true → HasNext frame.now inputs.now self.old block }
        requires state { IsState (spec_of frame.now.net block) (state_of frame.now lib.old block) }
        ensures { IsBlockStepped frame.now block self.old self.new lib.old lib.new }
    {
        frame.well_formed();
        let seat = frame.seat(block);
        if seat.kind.is_sensor() {
            self.go_on(frame, inputs, block);
        } else {
            self.update_state(frame, lib, block);
        }
    }

    // Puts the calls of the active ones in front of the chosen, each on the activation inputs that are activated. The answer is how many they are.
    fn choose_active(&mut self, calls: &[Call]) -> usize
        requires blocks { All (λ c. (1 ≤ c.block) × (c.block ≤ length self.old.marks)) calls.now }
        requires room { length calls.now ≤ length self.old.chosen }
        ensures chosen { take result self.new.chosen ≡ active_calls self.old.marks calls.now }
        ensures count { result ≤ length self.new.chosen }
        ensures long { length self.new.chosen ≡ length self.old.chosen }
        ensures rest { self.new ≡ record self.old { chosen = self.new.chosen } }
    {
        let mut count = 0;
        for call in calls {
            let mark = self.marks[call.block as usize - 1];
            if mark.active {
                self.chosen[count] = Call {
                    mask: mark.mask,
                    ..*call
                };
                count += 1;
            }
        }
        count
    }

    // The active blocks of some calls step their states one after the other, or go on in their columns.
    fn update_alone<B: Bank>(
        &mut self,
        frame: &Frame,
        lib: &mut Library<B>,
        inputs: &Inputs,
        calls: &[Call],
    )
        requires store { IsStore frame.now self.old }
        requires seated { AreSeated frame.now lib.old }
        requires calls { AreCalledOnce frame.now calls.now }
        requires may_step { MayStepAmong frame.now inputs.now (called_blocks calls.now) self.old lib.old }
        ensures { AreStepped frame.now (called_blocks calls.now) self.old self.new lib.old lib.new }
    {
        for call in calls {
            if self.is_active(call.block) {
                self.update(frame, lib, inputs, call.block);
            }
        }
    }

    // The active blocks of a run step their states, or go on in their columns.
    #[inline(always)]
    fn update_run<B: Bank>(
        &mut self,
        frame: &Frame,
        lib: &mut Library<B>,
        inputs: &Inputs,
        row: &ReadyRow,
        run: &Run,
    )
        requires store { IsStore frame.now self.old }
        requires seated { AreSeated frame.now lib.old }
        requires row { IsReadyRow frame.now row.now }
        requires begun { KeepsBegun frame.now row.now self.old }
        requires run { Contains row.now.state_runs run.now }
        requires may_step { MayStepAmong frame.now inputs.now (called_blocks (state_calls_in row.now run.now)) self.old lib.old }
        ensures { AreStepped frame.now (called_blocks (state_calls_in row.now run.now)) self.old self.new lib.old lib.new }
    {
        frame.well_formed();
        let calls = &row.states.calls[run.start..run.end];
        if !run.together {
            return self.update_alone(frame, lib, inputs, calls);
        }
        let places = frame.places.blocks();
        if !run.guarded {
            return lib.update_run(run.kind, calls, places, &self.values);
        }
        let count = self.choose_active(calls);
        if count > 0 {
            lib.update_run(run.kind, &self.chosen[..count], places, &self.values);
        }
    }

    /// The active blocks of a row step their states, and sensors go on in their columns.
    pub fn update_all<B: Bank>(
        &mut self,
        frame: &Frame,
        row: &ReadyRow,
        lib: &mut Library<B>,
        inputs: &Inputs,
    )
        requires store { IsStore frame.now self.old }
        requires seated { AreSeated frame.now lib.old }
        requires row { IsReadyRow frame.now row.now }
        requires begun { KeepsBegun frame.now row.now self.old }
        requires may_step { MayStep frame.now inputs.now self.old lib.old }
        ensures stepped { Steps frame.now row.now self.old self.new lib.old lib.new }
        ensures values { KeepsValues self.old self.new }
        ensures store { IsStore frame.now self.new }
        ensures seated { AreSeated frame.now lib.new }
        ensures counts { AreAlikeCounts lib.old lib.new }
    {
        frame.well_formed();
        for run in &row.states.runs {
            self.update_run(frame, lib, inputs, row, run);
        }
    }

    /// Whether one of these blocks ends the run and is active. Blocks that never end it may be left out.
    pub fn halts(&self, frame: &Frame, blocks: &[u32]) -> bool
        requires store { IsStore frame.now self.now }
        requires blocks { AreBlocksByNumber frame.now.net blocks.now }
        ensures { TellsHalt frame.now self.now blocks.now result }
    {
        for block in blocks {
            if frame.is_halt(*block) && self.is_active(*block) {
                return true;
            }
        }
        false
    }
}
