// EXTRACTOR: chosen elements of the input, counted from 1 down the columns.
ghost use Rattle.std.specs.Prelude.{refl, ◌≡◌, ◌≤ℤ◌, ◌-◌, pos, unsigned_abs};
ghost use Rattle.sci_base.specs.Lists.{at};
ghost use Rattle.sci_kinds.specs.declared.Cell.TheVariants.{Value};
ghost use Rattle.sci_forms.specs.declared.Kind.TheVariants.{Extractor as ExtractorKind};

use sci_bank::words::{Words, element, param};
use sci_kind_bank::{CellRule, KindBank, Plain};
use sci_kinds::{Cell, Kind};
use sci_span::Entering;

/// One element of the output.
#[derive(Drop)]
pub struct ExtractorRule;

/// The bank of `Extractor` blocks.
pub type Extractor = KindBank<Plain<ExtractorRule>>;

/// The element of this number, counted from 1.
fn element_numbered(ins: &Entering, number: i64) -> Cell
    requires { pos 1 ≤ℤ number }
    ensures { result ≡ Value (at ins.now (unsigned_abs number - 1)) }
{
    Cell::Value(element(ins, (number.unsigned_abs() - 1) as usize))
}

impl CellRule for ExtractorRule {
    ghost kind = { ExtractorKind };

    fn rule() -> Self {
        ExtractorRule
    }

    fn kind(&self) -> Kind {
        Kind::Extractor
    }

    fn cell(&self, spec: &Words, _mask: u64, ins: &Entering, at: usize) -> Cell {
        element_numbered(ins, param(spec, at))
    }

    ghost no_state = { λ s. refl };

    ghost no_branch = { refl };

    ghost no_delay = { refl };
}
