// DEADBAND: what each element has beyond a range.
ghost use Rattle.std.specs.Prelude.{refl, ◌≡◌};
ghost use Rattle.sci_base.specs.Fit.{InRange};
ghost use Rattle.sci_kinds.specs.Table.{beyond_cell};
ghost use Rattle.sci_forms.specs.declared.Kind.TheVariants.{DeadBand as DeadBandKind};

use sci_bank::words::{Words, cell_of, mode, only_input, out_type, param};
use sci_base::{Mode, Ty, fit};
use sci_kind_bank::{CellRule, KindBank, Plain};
use sci_kinds::{Cell, Kind};
use sci_span::Entering;

/// One element of the output.
#[derive(Drop)]
pub struct DeadBandRule;

/// The bank of `DeadBand` blocks.
pub type DeadBand = KindBank<Plain<DeadBandRule>>;

/// What a number has above `high` or below `low`, fitted.
fn beyond_cell(t: Ty, m: Mode, low: i64, high: i64, v: i64) -> Cell
    requires low { InRange t low }
    requires high { InRange t high }
    requires value { InRange t v }
    ensures { result ≡ beyond_cell t m low high v }
{
    if high < v {
        cell_of(fit(t, m, v - high))
    } else if v < low {
        cell_of(fit(t, m, v - low))
    } else {
        Cell::Value(0)
    }
}

impl CellRule for DeadBandRule {
    ghost kind = { DeadBandKind };

    fn rule() -> Self {
        DeadBandRule
    }

    fn kind(&self) -> Kind {
        Kind::DeadBand
    }

    #[inline(always)]
    fn cell(&self, spec: &Words, _mask: u64, ins: &Entering, at: usize) -> Cell {
        beyond_cell(
            out_type(spec),
            mode(spec),
            param(spec, 1),
            param(spec, 2),
            only_input(spec, ins, at),
        )
    }

    ghost no_state = { λ s. refl };

    ghost no_branch = { refl };

    ghost no_delay = { refl };
}
