// SATURATION: each element brought into a range.
ghost use Rattle.std.specs.Prelude.{refl, ◌≡◌};
ghost use Rattle.sci_kinds.specs.Table.{brought};
ghost use Rattle.sci_forms.specs.declared.Kind.TheVariants.{Saturation as SaturationKind};

use sci_bank::words::{Words, element, param};
use sci_kind_bank::{CellRule, KindBank, Plain};
use sci_kinds::{Cell, Kind};
use sci_span::Entering;

/// One element of the output.
#[derive(Drop)]
pub struct SaturationRule;

/// The bank of `Saturation` blocks.
pub type Saturation = KindBank<Plain<SaturationRule>>;

/// A number brought into `low` to `high`.
fn brought(low: i64, high: i64, v: i64) -> i64
    ensures { result ≡ brought low high v }
{
    if v < low {
        low
    } else if high < v {
        high
    } else {
        v
    }
}

impl CellRule for SaturationRule {
    ghost kind = { SaturationKind };

    fn rule() -> Self {
        SaturationRule
    }

    fn kind(&self) -> Kind {
        Kind::Saturation
    }

    fn cell(&self, spec: &Words, _mask: u64, ins: &Entering, at: usize) -> Cell {
        Cell::Value(brought(param(spec, 0), param(spec, 1), element(ins, at)))
    }

    ghost no_state = { λ s. refl };

    ghost no_branch = { refl };

    ghost no_delay = { refl };
}
