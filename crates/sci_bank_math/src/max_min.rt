// MAXMIN: the least or the greatest input.
ghost use Rattle.std.specs.Prelude.{refl, ◌≡◌, ◌<◌, ◌≤◌, ◌-◌, length};
ghost use Rattle.sci_base.specs.declared.limits.TheConstants.{PORT_ELEMENTS};
ghost use Rattle.sci_forms.specs.Words.{size};
ghost use Rattle.sci_kinds.specs.Table.{least_to, greatest_to, input};
ghost use Rattle.sci_forms.specs.declared.Kind.TheVariants.{MaxMin as MaxMinKind};

use sci_bank::words::{Words, input, param};
use sci_forms::values::is_equal;
use sci_kind_bank::{CellRule, KindBank, Plain};
use sci_kinds::{Cell, Kind};
use sci_span::Entering;

/// One element of the output.
#[derive(Drop)]
pub struct MaxMinRule;

/// The bank of `MaxMin` blocks.
pub type MaxMin = KindBank<Plain<MaxMinRule>>;

/// The least input at one element.
fn least(spec: &Words, ins: &Entering, at: usize) -> i64
    requires small { size spec.now ≤ PORT_ELEMENTS }
    requires some { 1 ≤ length spec.now.ins }
    ensures { result ≡ least_to (λ k. input (size spec.now) ins.now k at) (length spec.now.ins - 1) }
{
    let mut least = input(spec, ins, 0, at);
    for k in 1..spec.in_count() {
        least = least.min(input(spec, ins, k, at));
    }
    least
}

/// The greatest input at one element.
fn greatest(spec: &Words, ins: &Entering, at: usize) -> i64
    requires small { size spec.now ≤ PORT_ELEMENTS }
    requires some { 1 ≤ length spec.now.ins }
    ensures { result ≡ greatest_to (λ k. input (size spec.now) ins.now k at) (length spec.now.ins - 1) }
{
    let mut greatest = input(spec, ins, 0, at);
    for k in 1..spec.in_count() {
        greatest = greatest.max(input(spec, ins, k, at));
    }
    greatest
}

impl CellRule for MaxMinRule {
    ghost kind = { MaxMinKind };

    fn rule() -> Self {
        MaxMinRule
    }

    fn kind(&self) -> Kind {
        Kind::MaxMin
    }

    #[inline(always)]
    fn cell(&self, spec: &Words, _mask: u64, ins: &Entering, at: usize) -> Cell {
        if is_equal(param(spec, 0), 1) {
            Cell::Value(least(spec, ins, at))
        } else {
            Cell::Value(greatest(spec, ins, at))
        }
    }

    ghost no_state = { λ s. refl };

    ghost no_branch = { refl };

    ghost no_delay = { refl };
}
