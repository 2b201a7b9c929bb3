// SAMPHOLD_m: y is the input.
ghost use Rattle.std.specs.Prelude.{refl};
ghost use Rattle.sci_forms.specs.declared.Kind.TheVariants.{SampHold as SampHoldKind};

use sci_bank::words::{Words, element};
use sci_kind_bank::{CellRule, KindBank, Plain};
use sci_kinds::{Cell, Kind};
use sci_span::Entering;

/// One element of the output.
#[derive(Drop)]
pub struct SampHoldRule;

/// The bank of `SampHold` blocks.
pub type SampHold = KindBank<Plain<SampHoldRule>>;

impl CellRule for SampHoldRule {
    ghost kind = { SampHoldKind };

    fn rule() -> Self {
        SampHoldRule
    }

    fn kind(&self) -> Kind {
        Kind::SampHold
    }

    fn cell(&self, _spec: &Words, _mask: u64, ins: &Entering, at: usize) -> Cell {
        Cell::Value(element(ins, at))
    }

    ghost no_state = { λ s. refl };

    ghost no_branch = { refl };

    ghost no_delay = { refl };
}
