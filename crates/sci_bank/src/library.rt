// The library: one bank a kind, seen as the list of what the banks mean.
ghost use Rattle.std.specs.Prelude.{◌≡◌, ℕ, Some, ◌+◌, ◌<◌, ◌^◌, true, min, map, List, length, OnOk, OnErr, IfOk, IfErr, IsNone, IsSome, IfSome, IsTrue};
ghost use Rattle.std.specs.Prelude.{◌↔◌, ◌++◌, ◌∷◌, [], slice_set, sum_by};
ghost use Rattle.sci_base.specs.declared.Ty.{Ty};
ghost use Rattle.sci_base.specs.Lists.{at};
ghost use Rattle.sci_forms.specs.Form.{is_sync, has_delay};
ghost use Rattle.sci_forms.specs.Ports.{total, Fills};
ghost use Rattle.sci_forms.specs.Typed.{typed};
ghost use Rattle.sci_kinds.specs.Asks.{entering};
ghost use Rattle.sci_kinds.specs.Table.{branch, delay, out, state_len};
ghost use Rattle.sci_bank.specs.Bank.{Meaning, IsCall, Tells, row_at, spec_at, after_reset, after_add, after_out, after_update};
ghost use Rattle.sci_bank.specs.Runs.{run_of, calls_made, after_outs, EndsRun, after_updates, AreOfTypes, ArePlaced, MayRun};
ghost use Rattle.sci_bank.specs.Library.{place_of, bank_of, with_bank, Holds, AreInOrder, IsFull, next_of, total_outs};
ghost use Rattle.sci_forms.specs.Numbers.{kinds};

use crate::{Bank, Call, Fate, Stuck};
use sci_base::NoMemory;
use sci_forms::KINDS;
use sci_kinds::{Kind, Spec};
use sci_span::Place;
use std::alloc::Global;
use std::marker::Model;

/// The banks, in the order of the kinds' numbers. A clause sees the list of what they mean.
#[derive(Drop)]
pub struct Library<B: Bank> {
    banks: Vec<B>,
}

impl<B: Bank> Model for Library<B> {
    ghost use Rattle.std.specs.Prelude.{List, map};
    ghost use Rattle.sci_bank.specs.Bank.{Meaning};
    ghost use Rattle.sci_bank.specs.Library.{AreInOrder};

    ghost Value = { List Meaning };

    ghost view = { λ l. map B.meaning l.banks.items };

    ghost invariant = { λ l. AreInOrder (map B.meaning l.banks.items) };
}

impl<B: Bank> Library<B> {
    /// A library without banks.
    pub fn new(alloc: Global) -> Library<B>
        ensures { result ≡ [] }
    {
        Library {
            banks: Vec::new(alloc),
        }
    }

    /// The library of these banks.
    pub fn of(banks: Vec<B>) -> Library<B>
        requires { AreInOrder (map B.meaning banks.items) }
        ensures { result ≡ map B.meaning banks.items }
    {
        Library { banks }
    }

    /// Each bank stands at the place of its kind.
    #[inline(always)]
    pub fn well_formed(&self)
        ensures { AreInOrder self.now }
    {
        let _ = &self.banks;
    }

    /// Whether the banks of all kinds are there.
    pub fn is_full(&self) -> bool
        ensures { IsTrue result ↔ IsFull self.now }
    {
        self.banks.len() == usize::from(KINDS)
    }

    /// Takes the bank of the next kind. A box that finds no memory comes back.
    pub fn put(&mut self, bank: B) -> Result<(), B>
        requires { next_of (length self.old) ≡ Some (B.meaning bank).kind }
        ensures put { OnOk result (self.new ≡ self.old ++ B.meaning bank ∷ []) }
        ensures kept { IfErr result (λ b. (B.meaning b ≡ B.meaning bank) × (self.new ≡ self.old)) }
    {
        match self.banks.push(bank) {
            Ok(()) => Ok(()),
            Err(e) => Err(e.value),
        }
    }

    /// The sum of the banks' counts of `out` calls, at most 2^64 - 1.
    pub fn outs(&self) -> u64
        ensures { result ≡ total_outs self.now }
    {
        let mut all = 0u64;
        for i in 0..self.banks.len() {
            all = all.saturating_add(self.banks[i].outs());
        }
        all
    }

    /// Drops all instances of a kind, and counts its calls from 0.
    pub fn reset(&mut self, kind: Kind)
        requires known { Holds self.old kind }
        ensures changed { self.new ≡ with_bank self.old kind (after_reset (bank_of self.old kind)) }
        ensures full { IsFull self.old → IsFull self.new }
    {
        self.banks[place(kind)].reset();
    }

    /// Adds an instance of a kind in its first state. The answer is its slot.
    pub fn add(&mut self, kind: Kind, spec: &Spec) -> Result<usize, NoMemory>
        requires known { Holds self.old kind }
        requires is_typed { typed spec.now ≡ true }
        requires of_kind { spec.now.kind ≡ (bank_of self.old kind).kind }
        ensures added { let before = self.old in IfOk result (λ slot. (slot ≡ length (bank_of before kind).rows)
            × (self.new ≡ with_bank before kind (after_add (bank_of before kind) spec.now))) }
        ensures kept { OnErr result (self.new ≡ self.old) }
        ensures full { IsFull self.old → IsFull self.new }
    {
        self.banks[place(kind)].add(spec)
    }

    /// Computes the outputs of an instance of a kind, as its bank does.
    pub fn out(&mut self, kind: Kind, slot: usize, mask: u64, ins: &[i64], outs: &mut [i64]) -> Fate
        requires known { Holds self.old kind }
        requires call { IsCall (bank_of self.old kind).rows slot mask ins.now }
        requires room { length outs.old ≡ total (spec_at (bank_of self.old kind) slot).outs }
        ensures answer { let b = bank_of self.old kind in Tells (out (spec_at b slot) (row_at b slot).state mask ins.now) result outs.new }
        ensures in_range { let ps = (spec_at (bank_of self.old kind) slot).outs in Fills ps outs.old → Fills ps outs.new }
        ensures changed { self.new ≡ with_bank self.old kind (after_out (bank_of self.old kind)) }
        ensures full { IsFull self.old → IsFull self.new }
    {
        self.banks[place(kind)].out(slot, mask, ins, outs)
    }

    /// Computes blocks of a kind one after the other, as its bank does.
    #[inline(always)]
    pub fn out_run(
        &mut self,
        kind: Kind,
        calls: &[Call],
        places: &[Place],
        values: &mut [i64],
    ) -> Option<Stuck>
        requires known { Holds self.old kind }
        requires calls { MayRun (bank_of self.old kind) places.now values.old calls.now }
        ensures ended { EndsRun (run_of (bank_of self.old kind) places.now calls.now values.old) result values.new }
        ensures in_range { (types : List Ty) → AreOfTypes types values.old → ArePlaced (bank_of self.old kind) places.now types calls.now
            → AreOfTypes types values.new }
        ensures changed { let b = bank_of self.old kind in self.new ≡ with_bank self.old kind
            (after_outs b (calls_made (length calls.now) (run_of b places.now calls.now values.old))) }
        ensures full { IsFull self.old → IsFull self.new }
    {
        self.banks[place(kind)].out_run(calls, places, values)
    }

    /// The branch that an instance of a synchronous kind takes.
    pub fn branch(&self, kind: Kind, slot: usize, ins: &[i64]) -> u32
        requires known { Holds self.now kind }
        requires slot { slot < length (bank_of self.now kind).rows }
        requires filled { Fills (entering (spec_at (bank_of self.now kind) slot)) ins.now }
        requires sync { is_sync (bank_of self.now kind).kind ≡ true }
        ensures { result ≡ branch (spec_at (bank_of self.now kind) slot) ins.now }
    {
        self.banks[place(kind)].branch(slot, ins)
    }

    /// The delay that an instance of a kind gives its activation output, in ticks; -1 programs nothing.
    pub fn delay(&self, kind: Kind, slot: usize, port: u32, ins: &[i64]) -> i64
        requires known { Holds self.now kind }
        requires slot { slot < length (bank_of self.now kind).rows }
        requires filled { Fills (entering (spec_at (bank_of self.now kind) slot)) ins.now }
        requires delayed { has_delay (bank_of self.now kind).kind ≡ true }
        ensures { result ≡ delay (spec_at (bank_of self.now kind) slot) port ins.now }
    {
        self.banks[place(kind)].delay(slot, port, ins)
    }

    /// Steps the state of an instance of a kind.
    pub fn update(&mut self, kind: Kind, slot: usize, mask: u64, ins: &[i64])
        requires known { Holds self.old kind }
        requires call { IsCall (bank_of self.old kind).rows slot mask ins.now }
        ensures changed { self.new ≡ with_bank self.old kind (after_update (bank_of self.old kind) slot mask ins.now) }
        ensures full { IsFull self.old → IsFull self.new }
    {
        self.banks[place(kind)].update(slot, mask, ins);
    }

    /// Steps the states of blocks of a kind one after the other, as its bank does.
    #[inline(always)]
    pub fn update_run(&mut self, kind: Kind, calls: &[Call], places: &[Place], values: &[i64])
        requires known { Holds self.old kind }
        requires calls { MayRun (bank_of self.old kind) places.now values.now calls.now }
        ensures changed { self.new ≡ with_bank self.old kind (after_updates (bank_of self.old kind) places.now values.now calls.now) }
        ensures full { IsFull self.old → IsFull self.new }
    {
        self.banks[place(kind)].update_run(calls, places, values)
    }

    /// Value `i` of the state of an instance of a kind.
    pub fn state_at(&self, kind: Kind, slot: usize, i: usize) -> i64
        requires known { Holds self.now kind }
        requires slot { slot < length (bank_of self.now kind).rows }
        requires place { i < state_len (spec_at (bank_of self.now kind) slot) }
        ensures { result ≡ at (row_at (bank_of self.now kind) slot).state i }
    {
        self.banks[place(kind)].state_at(slot, i)
    }
}

/// The place of a kind's bank.
fn place(kind: Kind) -> usize
    ensures { result ≡ place_of kind }
{
    usize::from(kind.number()) - 1
}
