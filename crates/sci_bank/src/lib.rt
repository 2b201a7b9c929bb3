//! Banks: each holds the blocks of one kind, with their states, and computes them; and the library of all banks.
#![tactic(auto)]

ghost use Rattle.std.specs.Prelude.{◌≡◌, ℕ, ◌+◌, ◌<◌, true, List, length, IfOk, OnErr};
ghost use Rattle.sci_base.specs.declared.Ty.{Ty};
ghost use Rattle.sci_base.specs.Lists.{at};
ghost use Rattle.sci_forms.specs.Form.{is_sync, has_delay};
ghost use Rattle.sci_forms.specs.Ports.{total, Fills};
ghost use Rattle.sci_forms.specs.Typed.{typed};
ghost use Rattle.sci_kinds.specs.Asks.{entering};
ghost use Rattle.sci_kinds.specs.Table.{branch, delay, out, state_len};
ghost use Rattle.sci_bank.specs.Bank.{Meaning, IsCall, Tells, word_of, row_at, spec_at, after_reset, after_add, after_out, after_update};
ghost use Rattle.sci_bank.specs.Runs.{run_of, calls_made, after_outs, EndsRun, after_updates, AreOfTypes, ArePlaced, MayRun};

use sci_base::{NoMemory, StopWord};
use sci_kinds::{Kind, Spec};
use sci_span::Place;

mod boxed;
mod instance;
pub mod library;
mod runs;
pub mod words;

pub use instance::Instance;
pub use runs::{Call, Stuck};

/// How a call of `out` ended.
#[derive(Clone, Copy, Drop, PartialEq, Eq)]
pub enum Fate {
    /// Every element has a value.
    Done,
    /// The first element without a value is out of its type's range, and the block's mode is to stop.
    Overflow,
    /// The first element without a value has a divisor of 0.
    Zero,
}

impl Fate {
    /// The word of the stop, where there is one.
    pub fn word(self) -> Option<StopWord>
        ensures { result ≡ word_of self }
    {
        match self {
            Fate::Done => None,
            Fate::Overflow => Some(StopWord::Overflow),
            Fate::Zero => Some(StopWord::Zero),
        }
    }
}

/// The blocks of one kind. In every call `ins` holds all elements of all inputs in order, down the columns; for a sensor it is
/// the next value of its column alone. A mask has bit p - 1 set where activation input p is activated.
pub trait Bank: Drop {
    ghost meaning: { Self → Meaning };

    /// The kind of the bank's blocks.
    fn kind(&self) -> Kind
        ensures { result ≡ (meaning self.now).kind };

    /// The calls of `out` since the last reset; the count stays at 2^64 - 1 once there.
    fn outs(&self) -> u64
        ensures { result ≡ (meaning self.now).outs };

    /// Drops all instances, and counts from 0.
    fn reset(&mut self)
        ensures { meaning self.new ≡ after_reset (meaning self.old) };

    /// Adds an instance in its first state. The answer is its slot, counted from 0.
    fn add(&mut self, spec: &Spec) -> Result<usize, NoMemory>
        requires is_typed { typed spec.now ≡ true }
        requires of_kind { spec.now.kind ≡ (meaning self.old).kind }
        ensures added { IfOk result (λ slot. (slot ≡ length (meaning self.old).rows) × (meaning self.new ≡ after_add (meaning self.old) spec.now)) }
        ensures kept { OnErr result (meaning self.new ≡ meaning self.old) };

    /// Computes the outputs of an instance, all elements in order. Where an element has no value, the numbers that are left in
    /// `outs` are in range if those before were.
    fn out(&mut self, slot: usize, mask: u64, ins: &[i64], outs: &mut [i64]) -> Fate
        requires call { IsCall (meaning self.old).rows slot mask ins.now }
        requires room { length outs.old ≡ total (spec_at (meaning self.old) slot).outs }
        ensures answer { Tells (out (spec_at (meaning self.old) slot) (row_at (meaning self.old) slot).state mask ins.now) result outs.new }
        ensures in_range { Fills (spec_at (meaning self.old) slot).outs outs.old → Fills (spec_at (meaning self.old) slot).outs outs.new }
        ensures counted { meaning self.new ≡ after_out (meaning self.old) };

    /// Computes blocks one after the other as `out` does, each on the values at the places of its inputs, and writes what it has at the place of
    /// its outputs, up to the first that has no values. Places are by block.
    fn out_run(&mut self, calls: &[Call], places: &[Place], values: &mut [i64]) -> Option<Stuck>
        requires { MayRun (meaning self.old) places.now values.old calls.now }
        ensures ended { EndsRun (run_of (meaning self.old) places.now calls.now values.old) result values.new }
        ensures in_range { (types : List Ty) → AreOfTypes types values.old → ArePlaced (meaning self.old) places.now types calls.now
            → AreOfTypes types values.new }
        ensures counted { meaning self.new ≡ after_outs (meaning self.old)
            (calls_made (length calls.now) (run_of (meaning self.old) places.now calls.now values.old)) };

    /// The branch that a synchronous block takes, from 1.
    fn branch(&self, slot: usize, ins: &[i64]) -> u32
        requires known { slot < length (meaning self.now).rows }
        requires filled { Fills (entering (spec_at (meaning self.now) slot)) ins.now }
        requires sync { is_sync (meaning self.now).kind ≡ true }
        ensures { result ≡ branch (spec_at (meaning self.now) slot) ins.now };

    /// The delay that a block gives its activation output, in ticks; -1 programs nothing.
    fn delay(&self, slot: usize, port: u32, ins: &[i64]) -> i64
        requires known { slot < length (meaning self.now).rows }
        requires filled { Fills (entering (spec_at (meaning self.now) slot)) ins.now }
        requires delayed { has_delay (meaning self.now).kind ≡ true }
        ensures { result ≡ delay (spec_at (meaning self.now) slot) port ins.now };

    /// Steps the state of an instance; the other instances stay.
    fn update(&mut self, slot: usize, mask: u64, ins: &[i64])
        requires call { IsCall (meaning self.old).rows slot mask ins.now }
        ensures { meaning self.new ≡ after_update (meaning self.old) slot mask ins.now };

    /// Steps the states of blocks one after the other as `update` does, each on the values at the places of its inputs.
    fn update_run(&mut self, calls: &[Call], places: &[Place], values: &[i64])
        requires { MayRun (meaning self.old) places.now values.now calls.now }
        ensures { meaning self.new ≡ after_updates (meaning self.old) places.now values.now calls.now };

    /// Value `i` of an instance's state, counted from 0.
    fn state_at(&self, slot: usize, i: usize) -> i64
        requires known { slot < length (meaning self.now).rows }
        requires place { i < state_len (spec_at (meaning self.now) slot) }
        ensures { result ≡ at (row_at (meaning self.now) slot).state i };
}
