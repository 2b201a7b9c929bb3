// DOLLAR_m: y is the state; the next state is the input.
ghost use Rattle.std.specs.Prelude.{refl};
ghost use Rattle.sci_forms.specs.declared.Kind.TheVariants.{Dollar as DollarKind};

use crate::stateful::{StateRule, Stateful};
use sci_bank::words::{Words, element};
use sci_base::Ints;
use sci_kind_bank::KindBank;
use sci_kinds::{Cell, Kind};
use sci_span::Entering;

/// One element of the output, and of the next state.
#[derive(Drop)]
pub struct DollarRule;

/// The bank of `Dollar` blocks.
pub type Dollar = KindBank<Stateful<DollarRule>>;

impl StateRule for DollarRule {
    ghost kind = { DollarKind };

    fn rule() -> Self {
        DollarRule
    }

    fn kind(&self) -> Kind {
        Kind::Dollar
    }

    fn cell(&self, _spec: &Words, state: &Ints, _mask: u64, _ins: &Entering, at: usize) -> Cell {
        Cell::Value(state.at(at))
    }

    fn next(&self, _spec: &Words, _state: &Ints, _mask: u64, ins: &Entering, at: usize) -> i64 {
        element(ins, at)
    }

    ghost no_branch = { refl };

    ghost no_delay = { refl };
}
