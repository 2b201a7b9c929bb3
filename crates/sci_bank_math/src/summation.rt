// SUMMATION: one fit of the exact sum of the inputs, each with its sign.
ghost use Rattle.std.specs.Prelude.{refl, ◌≡◌, ◌<◌, ◌+◌, ◌*ℤ◌, ◌≤ℤ◌, pos, negsuc, length};
ghost use Rattle.sci_forms.specs.Ports.{total, Fills};
ghost use Rattle.sci_base.specs.Fit.{fit, InRange};
ghost use Rattle.sci_forms.specs.Words.{out_type, param, size};
ghost use Rattle.sci_kinds.specs.Table.{sum_to, input, fitted, mode_of};
ghost use Rattle.sci_bank.specs.Bank.{IsOfKind};
ghost use Rattle.sci_forms.specs.declared.Kind.TheVariants.{Summation as SummationKind};

use sci_bank::words::{Words, alike_input, fitted_cell, param};
use sci_forms::values::is_equal;
use sci_kind_bank::{CellRule, KindBank, Plain};
use sci_kinds::{Cell, Kind};
use sci_span::Entering;

/// One element of the output.
#[derive(Drop)]
pub struct SummationRule;

/// The bank of `Summation` blocks.
pub type Summation = KindBank<Plain<SummationRule>>;

/// An element of input `k`, and its range. Most blocks have inputs of one element, whose places need not be worked out.
#[inline(always)]
fn term(spec: &Words, ins: &Entering, k: usize, at: usize) -> i64
    requires typed { IsOfKind SummationKind spec.now }
    requires ins { Fills spec.now.ins ins.now }
    requires port { k < length spec.now.ins }
    requires at { at < total spec.now.outs }
    ensures value { result ≡ input (size spec.now) ins.now k at }
    ensures in_range { InRange (out_type spec.now) result }
{
    if ins.len() == spec.in_count() {
        return ins.get(k);
    }
    alike_input(spec, ins, k, at)
}

/// Input `k` with its sign.
#[inline(always)]
fn signed_term(spec: &Words, ins: &Entering, k: usize, at: usize) -> i64
    requires typed { IsOfKind SummationKind spec.now }
    requires ins { Fills spec.now.ins ins.now }
    requires port { k < length spec.now.ins }
    requires at { at < total spec.now.outs }
    ensures value { result ≡ param spec.now (k + 1) *ℤ input (size spec.now) ins.now k at }
    ensures low { negsuc 4294967295 ≤ℤ result }
    ensures high { result ≤ℤ pos 4294967296 }
{
    let u = term(spec, ins, k, at);
    if is_equal(param(spec, k + 1), 1) {
        u
    } else {
        -u
    }
}

/// The exact sum at one element.
#[inline(always)]
fn signed_sum(spec: &Words, ins: &Entering, at: usize) -> i64
    requires typed { IsOfKind SummationKind spec.now }
    requires ins { Fills spec.now.ins ins.now }
    requires at { at < total spec.now.outs }
    ensures { result ≡ sum_to (λ k. param spec.now (k + 1) *ℤ input (size spec.now) ins.now k at) (length spec.now.ins) }
{
    let mut sum = 0i64;
    for k in 0..spec.in_count() {
        sum += signed_term(spec, ins, k, at);
    }
    sum
}

impl CellRule for SummationRule {
    ghost kind = { SummationKind };

    fn rule() -> Self {
        SummationRule
    }

    fn kind(&self) -> Kind {
        Kind::Summation
    }

    #[inline(always)]
    fn cell(&self, spec: &Words, _mask: u64, ins: &Entering, at: usize) -> Cell {
        fitted_cell(spec, signed_sum(spec, ins, at))
    }

    ghost no_state = { λ s. refl };

    ghost no_branch = { refl };

    ghost no_delay = { refl };
}
