// ANDLOG_f: 1 where both activation inputs are activated, else -1.
ghost use Rattle.std.specs.Prelude.{refl};
ghost use Rattle.sci_forms.specs.declared.Kind.TheVariants.{AndLog as AndLogKind};

use sci_bank::words::Words;
use sci_kind_bank::{CellRule, KindBank, Plain};
use sci_kinds::{Cell, Kind};
use sci_span::Entering;

/// One element of the output.
#[derive(Drop)]
pub struct AndLogRule;

/// The bank of `AndLog` blocks.
pub type AndLog = KindBank<Plain<AndLogRule>>;

impl CellRule for AndLogRule {
    ghost kind = { AndLogKind };

    fn rule() -> Self {
        AndLogRule
    }

    fn kind(&self) -> Kind {
        Kind::AndLog
    }

    fn cell(&self, _spec: &Words, mask: u64, _ins: &Entering, _at: usize) -> Cell {
        if mask == 3 {
            Cell::Value(1)
        } else {
            Cell::Value(-1)
        }
    }

    ghost no_state = { λ s. refl };

    ghost no_branch = { refl };

    ghost no_delay = { refl };
}
