// REGISTER: y is the first value of the state; the next state drops it and has the input last.
ghost use Rattle.std.specs.Prelude.{refl};
ghost use Rattle.sci_forms.specs.declared.Kind.TheVariants.{Register as RegisterKind};

use crate::stateful::{StateRule, Stateful};
use sci_bank::words::{Words, element};
use sci_base::Ints;
use sci_kind_bank::KindBank;
use sci_kinds::{Cell, Kind};
use sci_span::Entering;

/// The output, and one value of the next state.
#[derive(Drop)]
pub struct RegisterRule;

/// The bank of `Register` blocks.
pub type Register = KindBank<Stateful<RegisterRule>>;

impl StateRule for RegisterRule {
    ghost kind = { RegisterKind };

    fn rule() -> Self {
        RegisterRule
    }

    fn kind(&self) -> Kind {
        Kind::Register
    }

    fn cell(&self, _spec: &Words, state: &Ints, _mask: u64, _ins: &Entering, _at: usize) -> Cell {
        Cell::Value(state.at(0))
    }

    fn next(&self, spec: &Words, state: &Ints, _mask: u64, ins: &Entering, at: usize) -> i64 {
        let len = spec.state_count();
        if at + 1 < len {
            state.at(at + 1)
        } else {
            element(ins, 0)
        }
    }

    ghost no_branch = { refl };

    ghost no_delay = { refl };
}
