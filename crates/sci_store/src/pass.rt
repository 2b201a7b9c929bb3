// The values of a reaction: the pass over the runs of a row.
ghost use Rattle.std.specs.Prelude.{◌≡◌, ◌≤◌, ◌+◌, ◌-◌, true, false, take, map, length, All, Contains};
ghost use Rattle.sci_forms.specs.declared.Kind.{Kind};
ghost use Rattle.sci_net.specs.declared.Source.{Source};
ghost use Rattle.sci_reaction.specs.Depends.{IsLoopFree};
ghost use Rattle.sci_reaction.specs.Memory.{Memory, IsMemory, AreColumns};
ghost use Rattle.sci_reaction.specs.Equations.{AreInRange};
ghost use Rattle.sci_reaction.specs.Kept.{entry_of, entries_of};
ghost use Rattle.sci_places.specs.Flat.{values_at};
ghost use Rattle.sci_bank.specs.Library.{bank_of};
ghost use Rattle.sci_store.specs.Entries.{HasMark};
ghost use Rattle.sci_store.specs.Frame.{AreSeated};
ghost use Rattle.sci_store.specs.Store.{IsStore, AreIdle, ShowsMemory};
ghost use Rattle.sci_store.specs.Reaction.{Passes};
ghost use Rattle.sci_store.specs.Rows.{IsReadyRow, IsRowOf, HasBegun, KeepsBegun, calls_in, guarded_calls, run_calls, IsMarked, marked, chosen_calls};
ghost use Rattle.sci_store.specs.Runs.{IsCallIn, AreApart, AreDone, IsRunDone, IsSoundBehind, stop_of, lesser};

use crate::entries::activation;
use crate::frame::Frame;
use crate::marks::{IDLE, Mark};
use crate::row::{ReadyRow, Run};
use crate::store::Store;
use sci_bank::library::Library;
use sci_bank::{Bank, Call, Stuck};
use sci_base::StopWord;
use sci_reaction::Entry;
use sci_trace::inputs::Inputs;

// The block of a run without values, as a stop.
#[cold]
fn stop_at(stuck: Stuck) -> Option<(u32, StopWord)>
    ensures { result ≡ stop_of stuck }
{
    Some((stuck.block, stuck.fate.word()?))
}

// The stop at the lesser block, of two of one depth.
#[cold]
fn lesser(a: Option<(u32, StopWord)>, b: Option<(u32, StopWord)>) -> Option<(u32, StopWord)>
    ensures { result ≡ lesser a b }
{
    match (a, b) {
        (Some(x), Some(y)) => if x.0 < y.0 { Some(x) } else { Some(y) },
        (Some(x), None) => Some(x),
        (None, _) => b,
    }
}

impl Store {
    // Marks the blocks of these calls as active on what each call says.
    fn mark_active(&mut self, calls: &[Call])
        requires { All (λ c. (1 ≤ c.block) × (c.block ≤ length self.old.marks)) calls.now }
        ensures { self.new ≡ record self.old { marks = marked self.old.marks calls.now } }
    {
        for call in calls {
            self.marks[call.block as usize - 1] = Mark {
                active: true,
                branch: 0,
                mask: call.mask,
            };
        }
    }

    /// Marks the blocks of a row that its source activates whatever the values are, on the same activation inputs; no block is marked before.
    pub fn begin_row(&mut self, frame: &Frame, row: &ReadyRow)
        requires store { IsStore frame.now self.old }
        requires idle { AreIdle frame.now self.old }
        requires row { IsReadyRow frame.now row.now }
        ensures begun { HasBegun frame.now row.now self.new }
        ensures rest { self.new ≡ record self.old { marks = self.new.marks } }
        ensures store { IsStore frame.now self.new }
    {
        frame.well_formed();
        for run in &row.values.runs {
            if !run.guarded {
                self.mark_active(&row.values.calls[run.start..run.end]);
            }
        }
    }

    /// Takes back what a reaction marked of the blocks of a row that guards may leave idle, so that the same row is passed again.
    pub fn begin_again(&mut self, frame: &Frame, row: &ReadyRow)
        requires store { IsStore frame.now self.old }
        requires row { IsReadyRow frame.now row.now }
        requires passed { KeepsBegun frame.now row.now self.old }
        ensures begun { HasBegun frame.now row.now self.new }
        ensures rest { self.new ≡ record self.old { marks = self.new.marks } }
        ensures store { IsStore frame.now self.new }
    {
        frame.well_formed();
        for entry in &row.entries {
            self.marks[entry.block as usize - 1] = IDLE;
        }
    }

    // Puts the calls of those that are active in front of the chosen, each on the activation inputs that are activated, and marks them. The answer
    // is how many they are.
    fn choose(&mut self, calls: &[Call], entries: &[Entry]) -> usize
        requires one_each { length entries.now ≡ length calls.now }
        requires blocks { All (λ c. (1 ≤ c.block) × (c.block ≤ length self.old.marks)) calls.now }
        requires apart { All (λ e. All (λ g. Contains (map (λ c. c.block) calls.now) g.block → ⊥) (entry_of e).guards) entries.now }
        requires guards { All (λ e. All (HasMark self.old.marks) (entry_of e).guards) entries.now }
        requires room { length calls.now ≤ length self.old.chosen }
        ensures chosen { take result self.new.chosen ≡ chosen_calls self.old.marks calls.now (entries_of entries.now) }
        ensures count { result ≤ length self.new.chosen }
        ensures long { length self.new.chosen ≡ length self.old.chosen }
        ensures marks { self.new.marks ≡ marked self.old.marks (take result self.new.chosen) }
        ensures rest { self.new ≡ record self.old { marks = self.new.marks; chosen = self.new.chosen } }
    {
        let mut count = 0;
        for at in 0..entries.len() {
            if let Some(mask) = activation(&self.marks, &entries[at]) {
                let call = Call { mask, ..calls[at] };
                self.marks[call.block as usize - 1] = Mark {
                    active: true,
                    branch: 0,
                    mask,
                };
                self.chosen[count] = call;
                count += 1;
            }
        }
        count
    }

    // Gives blocks their values one after the other; or the first that has none.
    fn do_alone<B: Bank>(
        &mut self,
        frame: &Frame,
        lib: &mut Library<B>,
        inputs: &Inputs,
        calls: &[Call],
    ) -> Option<(u32, StopWord)>
        requires store { IsStore frame.now self.old }
        requires seated { AreSeated frame.now lib.old }
        requires calls { All (IsCallIn frame.now) calls.now }
        requires apart { AreApart frame.now calls.now }
        requires values { AreInRange frame.now.net (values_at frame.now.net self.old.values) }
        requires columns { AreColumns frame.now.net inputs.now }
        ensures done { AreDone frame.now inputs.now calls.now self.old self.new lib.old lib.new result }
        ensures sound { IsSoundBehind frame.now self.new lib.new }
        ensures values { AreInRange frame.now.net (values_at frame.now.net self.new.values) }
    {
        frame.well_formed();
        for call in calls {
            if let Some(word) = self.evaluate(frame, lib, inputs, call.block, call.mask) {
                return Some((call.block, word));
            }
        }
        None
    }

    // The same of the first of those that were chosen.
    fn do_chosen_alone<B: Bank>(
        &mut self,
        frame: &Frame,
        lib: &mut Library<B>,
        inputs: &Inputs,
        count: usize,
    ) -> Option<(u32, StopWord)>
        requires store { IsStore frame.now self.old }
        requires seated { AreSeated frame.now lib.old }
        requires count { count ≤ length self.old.chosen }
        requires calls { All (IsCallIn frame.now) (take count self.old.chosen) }
        requires apart { AreApart frame.now (take count self.old.chosen) }
        requires values { AreInRange frame.now.net (values_at frame.now.net self.old.values) }
        requires columns { AreColumns frame.now.net inputs.now }
        ensures done { AreDone frame.now inputs.now (take count self.old.chosen) self.old self.new lib.old lib.new result }
        ensures sound { IsSoundBehind frame.now self.new lib.new }
        ensures values { AreInRange frame.now.net (values_at frame.now.net self.new.values) }
    {
        frame.well_formed();
        for at in 0..count {
            let call = self.chosen[at];
            if let Some(word) = self.evaluate(frame, lib, inputs, call.block, call.mask) {
                return Some((call.block, word));
            }
        }
        None
    }

    // Gives those blocks of a run that are active by its guards their values; or the first that has none.
    fn do_guarded<B: Bank>(
        &mut self,
        frame: &Frame,
        lib: &mut Library<B>,
        inputs: &Inputs,
        row: &ReadyRow,
        run: &Run,
    ) -> Option<(u32, StopWord)>
        requires store { IsStore frame.now self.old }
        requires seated { AreSeated frame.now lib.old }
        requires row { IsReadyRow frame.now row.now }
        requires run { Contains row.now.runs run.now }
        requires values { AreInRange frame.now.net (values_at frame.now.net self.old.values) }
        requires columns { AreColumns frame.now.net inputs.now }
        requires guarded { run.now.guarded ≡ true }
        ensures done { IsRunDone frame.now inputs.now run.now.kind (guarded_calls row.now run.now self.old.marks) self.old self.new lib.old lib.new result }
        ensures sound { IsSoundBehind frame.now self.new lib.new }
        ensures values { AreInRange frame.now.net (values_at frame.now.net self.new.values) }
    {
        frame.well_formed();
        let calls = &row.values.calls[run.start..run.end];
        let count = self.choose(calls, &row.entries[run.entries..run.entries + calls.len()]);
        if !run.together {
            return self.do_chosen_alone(frame, lib, inputs, count);
        }
        if count == 0 {
            return None;
        }
        let places = frame.places.blocks();
        stop_at(lib.out_run(run.kind, &self.chosen[..count], places, &mut self.values)?)
    }

    // Gives the active blocks of a run their values; or the first that has none. Those that are active whatever the values are are marked already.
    #[inline(always)]
    fn do_run<B: Bank>(
        &mut self,
        frame: &Frame,
        lib: &mut Library<B>,
        inputs: &Inputs,
        row: &ReadyRow,
        run: &Run,
    ) -> Option<(u32, StopWord)>
        requires store { IsStore frame.now self.old }
        requires seated { AreSeated frame.now lib.old }
        requires row { IsReadyRow frame.now row.now }
        requires run { Contains row.now.runs run.now }
        requires values { AreInRange frame.now.net (values_at frame.now.net self.old.values) }
        requires columns { AreColumns frame.now.net inputs.now }
        requires begun { run.now.guarded ≡ false → All (IsMarked self.old.marks) (calls_in row.now run.now) }
        ensures done { IsRunDone frame.now inputs.now run.now.kind (run_calls row.now run.now self.old.marks) self.old self.new lib.old lib.new result }
        ensures sound { IsSoundBehind frame.now self.new lib.new }
        ensures values { AreInRange frame.now.net (values_at frame.now.net self.new.values) }
    {
        frame.well_formed();
        if run.guarded {
            return self.do_guarded(frame, lib, inputs, row, run);
        }
        let calls = &row.values.calls[run.start..run.end];
        if !run.together {
            return self.do_alone(frame, lib, inputs, calls);
        }
        let places = frame.places.blocks();
        stop_at(lib.out_run(run.kind, calls, places, &mut self.values)?)
    }

    /// Gives the active blocks of a row their values; or the block that has none, with the word that says why. Also then all values are in range.
    pub fn pass<B: Bank>(
        &mut self,
        frame: &Frame,
        lib: &mut Library<B>,
        inputs: &Inputs,
        row: &ReadyRow,
    ) -> Option<(u32, StopWord)>
        requires store { IsStore frame.now self.old }
        requires seated { AreSeated frame.now lib.old }
        requires begun { HasBegun frame.now row.now self.old }
        requires columns { AreColumns frame.now.net inputs.now }
        requires row { (s : Source) × IsLoopFree frame.now.net s × IsRowOf frame.now s row.now }
        requires counts { (k : Kind) → (bank_of lib.old k).outs ≤ 18446744073709551615 }
        requires memory { (m : Memory) × ShowsMemory frame.now self.old lib.old m × IsMemory frame.now.net m }
        ensures passed { Passes frame.now inputs.now row.now self.old self.new lib.old lib.new result }
        ensures sound { IsSoundBehind frame.now self.new lib.new }
        ensures values { AreInRange frame.now.net (values_at frame.now.net self.new.values) }
        ensures kept { KeepsBegun frame.now row.now self.new }
        ensures lines { self.new.lines ≡ self.old.lines }
        ensures sum { self.new.sum ≡ self.old.sum }
    {
        frame.well_formed();
        let mut stop = None;
        for run in &row.values.runs {
            let found = self.do_run(frame, lib, inputs, row, run);
            if found.is_some() || stop.is_some() {
                stop = lesser(stop, found);
                if run.last {
                    return stop;
                }
            }
        }
        None
    }
}
