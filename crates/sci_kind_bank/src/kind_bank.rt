// A bank over the functions of one kind.
ghost use Rattle.std.specs.Prelude.{◌≡◌, ℕ, ◌+◌, ◌<◌, true, List, [], ◌∷◌, length, min, IfOk, OnErr, slice_set};
ghost use Rattle.sci_span.specs.Values.{gathered, AreWithin, IsLone};
ghost use Rattle.sci_base.specs.declared.Ty.{Ty};
ghost use Rattle.sci_bank.specs.Runs.{IsWritten, run_of, calls_made, EndsRun, AreOfTypes, ArePlaced, MayRun};
ghost use Rattle.sci_forms.specs.Ports.{total, Fills};
ghost use Rattle.sci_kinds.specs.Asks.{IsState, IsMask, entering_of};
ghost use Rattle.sci_kinds.specs.Table.{branch, delay, out, state_len, first_state, next};
ghost use Rattle.sci_bank.specs.Bank.{Meaning, IsOfKind, Tells, Held, bank_with, counted, row_in, row_after_update};

use crate::rule::Rule;
use sci_bank::words::Words;
use sci_bank::{Bank, Call, Fate, Instance, Stuck};
use sci_base::{Ints, NoMemory};
use sci_kinds::{Cell, Kind, Spec};
use sci_span::{Entering, Place};
use std::alloc::Global;
use std::marker::Model;

/// The blocks of the kind whose functions are `R`.
#[derive(Drop)]
pub struct KindBank<R: Rule> {
    rule: R,
    alloc: Global,
    rows: Vec<Instance>,
    outs: u64,
}

impl<R: Rule> Model for KindBank<R> {
    ghost use Rattle.sci_bank.specs.Bank.{Held, AreRows};

    ghost Value = { Held };

    ghost view = { λ b. record { rows = b.rows.items; outs = b.outs } };

    ghost invariant = { λ b. AreRows R.kind b.rows.items };
}

impl<R: Rule> KindBank<R> {
    /// A bank of this kind without instances.
    pub fn new(alloc: Global) -> Self
        ensures rows { result.rows ≡ [] }
        ensures outs { result.outs ≡ 0 }
    {
        KindBank::of(alloc, R::rule())
    }

    /// A bank of this rule's kind without instances.
    pub fn of(alloc: Global, rule: R) -> KindBank<R>
        ensures rows { result.rows ≡ [] }
        ensures outs { result.outs ≡ 0 }
    {
        KindBank {
            rule,
            alloc,
            rows: Vec::new(alloc),
            outs: 0,
        }
    }
}

impl<R: Rule> KindBank<R> {
    // Counts a call of `out`.
    #[inline(always)]
    fn count(&mut self)
        ensures rows { self.new.rows ≡ self.old.rows }
        ensures outs { self.new.outs ≡ counted self.old.outs }
    {
        self.outs = self.outs.saturating_add(1);
    }

    // Counts some calls of `out`.
    #[inline(always)]
    fn count_calls(&mut self, made: usize)
        ensures rows { self.new.rows ≡ self.old.rows }
        ensures outs { self.new.outs ≡ min (self.old.outs + made) 18446744073709551615 }
    {
        self.outs = self.outs.saturating_add(made as u64);
    }

    // Computes blocks one after the other, up to the first that has no values, without a count of them. The answer is how many calls were made, and
    // this block.
    #[inline(always)]
    fn fill_run(
        &self,
        calls: &[Call],
        places: &[Place],
        values: &mut [i64],
    ) -> (usize, Option<Stuck>)
        requires { MayRun (bank_with R.kind self.now) places.now values.old calls.now }
        ensures made { result.0 ≡ calls_made (length calls.now) (run_of (bank_with R.kind self.now) places.now calls.now values.old) }
        ensures ended { EndsRun (run_of (bank_with R.kind self.now) places.now calls.now values.old) result.1 values.new }
        ensures in_range { (types : List Ty) → AreOfTypes types values.old → ArePlaced (bank_with R.kind self.now) places.now types calls.now
            → AreOfTypes types values.new }
    {
        for (at, call) in calls.iter().enumerate() {
            let row = &self.rows[call.slot];
            let fate = fill_at(
                &self.rule,
                row,
                call.mask,
                &places[call.block as usize - 1],
                values,
            );
            if fate != Fate::Done {
                return (
                    at + 1,
                    Some(Stuck {
                        block: call.block,
                        fate,
                    }),
                );
            }
        }
        (calls.len(), None)
    }
}

/// Fills the outputs of one instance.
fn fill<R: Rule>(
    rule: &R,
    spec: &Words,
    state: &Ints,
    mask: u64,
    ins: &Entering,
    outs: &mut [i64],
) -> Fate
    requires typed { IsOfKind R.kind spec.now }
    requires state { IsState spec.now state.now }
    requires mask { IsMask spec.now mask }
    requires ins { Fills (entering_of R.kind spec.now) ins.now }
    requires room { length outs.old ≡ total spec.now.outs }
    ensures answer { Tells (out spec.now state.now mask ins.now) result outs.new }
    ensures in_range { Fills spec.now.outs outs.old → Fills spec.now.outs outs.new }
{
    for at in 0..outs.len() {
        match rule.cell(spec, state, mask, ins, at) {
            Cell::Value(v) => outs[at] = v,
            Cell::Overflow => return Fate::Overflow,
            Cell::Zero => return Fate::Zero,
        }
    }
    Fate::Done
}

/// What goes into a block whose inputs have one element each.
#[inline(always)]
fn entering<'a>(place: &'a Place, values: &'a [i64]) -> Entering<'a>
    requires lone { IsLone place.now }
    requires within { AreWithin values.now place.now.ins }
    ensures { result ≡ gathered values.now place.now.ins }
{
    let Some(singles) = place.ins.singles() else {
        unreachable!()
    };
    Entering::placed(values, singles)
}

/// Writes the one output of an instance, or none where it has none, at its place, on the values at the places of its inputs.
#[inline(always)]
fn fill_at<R: Rule>(rule: &R, row: &Instance, mask: u64, place: &Place, values: &mut [i64]) -> Fate
    requires typed { IsOfKind R.kind row.now.spec }
    requires state { IsState row.now.spec row.now.state }
    requires mask { IsMask row.now.spec mask }
    requires lone { IsLone place.now }
    requires within { AreWithin values.old place.now.ins }
    requires there { 0 < place.now.outs.len → place.now.outs.start < length values.old }
    requires ins { Fills (entering_of R.kind row.now.spec) (gathered values.old place.now.ins) }
    requires room { place.now.outs.len ≡ total row.now.spec.outs }
    ensures answer { IsWritten (out row.now.spec row.now.state mask (gathered values.old place.now.ins)) place.now.outs.start values.old values.new result }
{
    if place.outs.len == 0 {
        return Fate::Done;
    }
    let cell = rule.cell(&row.spec, &row.state, mask, &entering(place, values), 0);
    match cell {
        Cell::Value(v) => values[place.outs.start] = v,
        Cell::Overflow => return Fate::Overflow,
        Cell::Zero => return Fate::Zero,
    }
    Fate::Done
}

/// Steps the state of one instance.
fn advance<R: Rule>(rule: &R, spec: &Words, state: &mut Ints, mask: u64, ins: &Entering)
    requires typed { IsOfKind R.kind spec.now }
    requires state { IsState spec.now state.old }
    requires mask { IsMask spec.now mask }
    requires ins { Fills (entering_of R.kind spec.now) ins.now }
    ensures { state.new ≡ next spec.now state.old mask ins.now }
{
    for at in 0..state.len() {
        let v = rule.next(spec, state, mask, ins, at);
        state.set(at, v);
    }
}

impl<R: Rule> Bank for KindBank<R> {
    ghost meaning = { λ b. bank_with R.kind b };

    fn kind(&self) -> Kind {
        self.rule.kind()
    }

    fn outs(&self) -> u64 {
        self.outs
    }

    fn reset(&mut self) {
        self.rows.clear();
        self.outs = 0;
    }

    fn add(&mut self, spec: &Spec) -> Result<usize, NoMemory> {
        let slot = self.rows.len();
        let words = Words::of(spec.copy(self.alloc)?);
        let state = Ints::spread(self.alloc, &spec.state, spec.state_len())?;
        self.rows.push(Instance { spec: words, state })?;
        Ok(slot)
    }

    // not inlined: the match over all kinds that calls it then needs no stack frame of its own
    #[inline(never)]
    fn out(&mut self, slot: usize, mask: u64, ins: &[i64], outs: &mut [i64]) -> Fate {
        let row = &self.rows[slot];
        let fate = fill(
            &self.rule,
            &row.spec,
            &row.state,
            mask,
            &Entering::of(ins),
            outs,
        );
        self.count();
        fate
    }

    #[inline(never)]
    fn out_run(&mut self, calls: &[Call], places: &[Place], values: &mut [i64]) -> Option<Stuck> {
        let (made, stuck) = self.fill_run(calls, places, values);
        self.count_calls(made);
        stuck
    }

    fn branch(&self, slot: usize, ins: &[i64]) -> u32 {
        self.rule.branch(&self.rows[slot].spec, &Entering::of(ins))
    }

    fn delay(&self, slot: usize, port: u32, ins: &[i64]) -> i64 {
        self.rule
            .delay(&self.rows[slot].spec, port, &Entering::of(ins))
    }

    fn update(&mut self, slot: usize, mask: u64, ins: &[i64]) {
        let row = &mut self.rows[slot];
        advance(
            &self.rule,
            &row.spec,
            &mut row.state,
            mask,
            &Entering::of(ins),
        );
    }

    #[inline(never)]
    fn update_run(&mut self, calls: &[Call], places: &[Place], values: &[i64]) {
        for call in calls {
            let row = &mut self.rows[call.slot];
            let ins = entering(&places[call.block as usize - 1], values);
            advance(&self.rule, &row.spec, &mut row.state, call.mask, &ins);
        }
    }

    fn state_at(&self, slot: usize, i: usize) -> i64 {
        self.rows[slot].state.get(i)
    }
}
