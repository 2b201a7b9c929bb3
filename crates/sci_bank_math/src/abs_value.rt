// ABS_VALUE: the magnitude of each element.
ghost use Rattle.std.specs.Prelude.{refl, ◌≡◌};
ghost use Rattle.sci_base.specs.Fit.{InRange};
ghost use Rattle.sci_kinds.specs.Table.{abs_cell};
ghost use Rattle.sci_forms.specs.declared.Kind.TheVariants.{AbsValue as AbsValueKind};

use sci_bank::words::{Words, cell_of, mode, only_input, out_type};
use sci_base::{Mode, Ty, fit};
use sci_kind_bank::{CellRule, KindBank, Plain};
use sci_kinds::{Cell, Kind};
use sci_span::Entering;

/// One element of the output.
#[derive(Drop)]
pub struct AbsValueRule;

/// The bank of `AbsValue` blocks.
pub type AbsValue = KindBank<Plain<AbsValueRule>>;

/// The fitted magnitude of a number of the type.
fn abs_cell(t: Ty, m: Mode, v: i64) -> Cell
    requires { InRange t v }
    ensures { result ≡ abs_cell t m v }
{
    if v < 0 {
        cell_of(fit(t, m, 0 - v))
    } else {
        Cell::Value(v)
    }
}

impl CellRule for AbsValueRule {
    ghost kind = { AbsValueKind };

    fn rule() -> Self {
        AbsValueRule
    }

    fn kind(&self) -> Kind {
        Kind::AbsValue
    }

    #[inline(always)]
    fn cell(&self, spec: &Words, _mask: u64, ins: &Entering, at: usize) -> Cell {
        abs_cell(out_type(spec), mode(spec), only_input(spec, ins, at))
    }

    ghost no_state = { λ s. refl };

    ghost no_branch = { refl };

    ghost no_delay = { refl };
}
