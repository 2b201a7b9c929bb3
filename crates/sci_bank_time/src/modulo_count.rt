// Modulo_Count: y is the state; the next state is one more, and again 0 at the base.
ghost use Rattle.std.specs.Prelude.{refl, ◌≡◌, pos, ◌≤ℤ◌, ◌+ℤ◌};
ghost use Rattle.std.specs.Int.{int_rem_euclid};
ghost use Rattle.sci_forms.specs.declared.Kind.TheVariants.{ModuloCount as ModuloCountKind};

use crate::stateful::{StateRule, Stateful};
use sci_bank::words::{Words, param};
use sci_base::Ints;
use sci_kind_bank::KindBank;
use sci_kinds::{Cell, Kind};
use sci_span::Entering;

/// The output and the next state.
#[derive(Drop)]
pub struct ModuloCountRule;

/// The bank of `ModuloCount` blocks.
pub type ModuloCount = KindBank<Stateful<ModuloCountRule>>;

/// One more, of the numbers below `base`. A remainder is taken only where the count turns over.
fn counted(count: i64, base: i64) -> i64
    requires some { pos 1 ≤ℤ base }
    requires small { count ≤ℤ pos 4294967295 }
    ensures { result ≡ int_rem_euclid (count +ℤ pos 1) base }
{
    let next = count + 1;
    if 0 <= next && next < base {
        next
    } else {
        next.rem_euclid(base)
    }
}

impl StateRule for ModuloCountRule {
    ghost kind = { ModuloCountKind };

    fn rule() -> Self {
        ModuloCountRule
    }

    fn kind(&self) -> Kind {
        Kind::ModuloCount
    }

    fn cell(&self, _spec: &Words, state: &Ints, _mask: u64, _ins: &Entering, _at: usize) -> Cell {
        Cell::Value(state.at(0))
    }

    fn next(&self, spec: &Words, state: &Ints, _mask: u64, _ins: &Entering, _at: usize) -> i64 {
        counted(state.at(0), param(spec, 0))
    }

    ghost no_branch = { refl };

    ghost no_delay = { refl };
}
