// SIGNUM: -1, 0 or 1 by the sign of each element.
ghost use Rattle.std.specs.Prelude.{refl, ◌≡◌};
ghost use Rattle.sci_kinds.specs.Table.{sign};
ghost use Rattle.sci_forms.specs.declared.Kind.TheVariants.{Signum as SignumKind};

use sci_bank::words::{Words, element};
use sci_kind_bank::{CellRule, KindBank, Plain};
use sci_kinds::{Cell, Kind};
use sci_span::Entering;

/// One element of the output.
#[derive(Drop)]
pub struct SignumRule;

/// The bank of `Signum` blocks.
pub type Signum = KindBank<Plain<SignumRule>>;

/// The sign of a number.
fn sign(v: i64) -> i64
    ensures { result ≡ sign v }
{
    if v < 0 {
        -1
    } else if 0 < v {
        1
    } else {
        0
    }
}

impl CellRule for SignumRule {
    ghost kind = { SignumKind };

    fn rule() -> Self {
        SignumRule
    }

    fn kind(&self) -> Kind {
        Kind::Signum
    }

    fn cell(&self, _spec: &Words, _mask: u64, ins: &Entering, at: usize) -> Cell {
        Cell::Value(sign(element(ins, at)))
    }

    ghost no_state = { λ s. refl };

    ghost no_branch = { refl };

    ghost no_delay = { refl };
}
