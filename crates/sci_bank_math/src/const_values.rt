// CONST_m: y is the parameters, one for all elements or one for each.
ghost use Rattle.std.specs.Prelude.{refl};
ghost use Rattle.sci_forms.specs.declared.Kind.TheVariants.{Const as ConstKind};

use sci_bank::words::{Words, param};
use sci_kind_bank::{CellRule, KindBank, Plain};
use sci_kinds::{Cell, Kind};
use sci_span::Entering;

/// One element of the output.
#[derive(Drop)]
pub struct ConstRule;

/// The bank of `Const` blocks.
pub type Const = KindBank<Plain<ConstRule>>;

impl CellRule for ConstRule {
    ghost kind = { ConstKind };

    fn rule() -> Self {
        ConstRule
    }

    fn kind(&self) -> Kind {
        Kind::Const
    }

    fn cell(&self, spec: &Words, _mask: u64, _ins: &Entering, at: usize) -> Cell {
        if spec.param_count() == 1 {
            Cell::Value(param(spec, 0))
        } else {
            Cell::Value(param(spec, at))
        }
    }

    ghost no_state = { λ s. refl };

    ghost no_branch = { refl };

    ghost no_delay = { refl };
}
