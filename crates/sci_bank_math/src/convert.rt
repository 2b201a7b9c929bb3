// CONVERT: each element fitted to the type of the output.
ghost use Rattle.std.specs.Prelude.{refl};
ghost use Rattle.sci_forms.specs.declared.Kind.TheVariants.{Convert as ConvertKind};

use sci_bank::words::{Words, element, fitted_cell};
use sci_kind_bank::{CellRule, KindBank, Plain};
use sci_kinds::{Cell, Kind};
use sci_span::Entering;

/// One element of the output.
#[derive(Drop)]
pub struct ConvertRule;

/// The bank of `Convert` blocks.
pub type Convert = KindBank<Plain<ConvertRule>>;

impl CellRule for ConvertRule {
    ghost kind = { ConvertKind };

    fn rule() -> Self {
        ConvertRule
    }

    fn kind(&self) -> Kind {
        Kind::Convert
    }

    #[inline(always)]
    fn cell(&self, spec: &Words, _mask: u64, ins: &Entering, at: usize) -> Cell {
        fitted_cell(spec, element(ins, at))
    }

    ghost no_state = { λ s. refl };

    ghost no_branch = { refl };

    ghost no_delay = { refl };
}
