// MUX: the inputs one below the other.
ghost use Rattle.std.specs.Prelude.{refl};
ghost use Rattle.sci_forms.specs.declared.Kind.TheVariants.{Mux as MuxKind};

use sci_bank::words::{Words, element};
use sci_kind_bank::{CellRule, KindBank, Plain};
use sci_kinds::{Cell, Kind};
use sci_span::Entering;

/// One element of the output.
#[derive(Drop)]
pub struct MuxRule;

/// The bank of `Mux` blocks.
pub type Mux = KindBank<Plain<MuxRule>>;

impl CellRule for MuxRule {
    ghost kind = { MuxKind };

    fn rule() -> Self {
        MuxRule
    }

    fn kind(&self) -> Kind {
        Kind::Mux
    }

    fn cell(&self, _spec: &Words, _mask: u64, ins: &Entering, at: usize) -> Cell {
        Cell::Value(element(ins, at))
    }

    ghost no_state = { λ s. refl };

    ghost no_branch = { refl };

    ghost no_delay = { refl };
}
