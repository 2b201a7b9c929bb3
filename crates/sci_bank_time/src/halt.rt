// HALT_f: nothing is computed; its activation ends the run.
ghost use Rattle.std.specs.Prelude.{refl};
ghost use Rattle.sci_forms.specs.declared.Kind.TheVariants.{Halt as HaltKind};

use sci_bank::words::Words;
use sci_kind_bank::{CellRule, KindBank, Plain};
use sci_kinds::{Cell, Kind};
use sci_span::Entering;

/// A kind without outputs.
#[derive(Drop)]
pub struct HaltRule;

/// The bank of `Halt` blocks.
pub type Halt = KindBank<Plain<HaltRule>>;

impl CellRule for HaltRule {
    ghost kind = { HaltKind };

    fn rule() -> Self {
        HaltRule
    }

    fn kind(&self) -> Kind {
        Kind::Halt
    }

    fn cell(&self, _spec: &Words, _mask: u64, _ins: &Entering, _at: usize) -> Cell {
        Cell::Value(0)
    }

    ghost no_state = { λ s. refl };

    ghost no_branch = { refl };

    ghost no_delay = { refl };
}
