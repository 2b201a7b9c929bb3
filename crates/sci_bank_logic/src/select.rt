// SELECT_m: the input whose number is that of the least activation input that is activated.
ghost use Rattle.std.specs.Prelude.{refl, ◌≡◌};
ghost use Rattle.sci_kinds.specs.Table.{least_set};
ghost use Rattle.sci_forms.specs.declared.Kind.TheVariants.{Select as SelectKind};

use sci_bank::words::{Words, input};
use sci_kind_bank::{CellRule, KindBank, Plain};
use sci_kinds::{Cell, Kind};
use sci_span::Entering;

/// One element of the output.
#[derive(Drop)]
pub struct SelectRule;

/// The bank of `Select` blocks.
pub type Select = KindBank<Plain<SelectRule>>;

/// The number of the least bit that is set, of `n` bits; `n` where none is.
fn least_set(mask: u64, n: u32) -> usize
    ensures { result ≡ least_set mask n }
{
    let mut rest = mask;
    for k in 0..n {
        if rest % 2 == 1 {
            return k as usize;
        }
        rest /= 2;
    }
    n as usize
}

impl CellRule for SelectRule {
    ghost kind = { SelectKind };

    fn rule() -> Self {
        SelectRule
    }

    fn kind(&self) -> Kind {
        Kind::Select
    }

    fn cell(&self, spec: &Words, mask: u64, ins: &Entering, at: usize) -> Cell {
        Cell::Value(input(spec, ins, least_set(mask, spec.evtin()), at))
    }

    ghost no_state = { λ s. refl };

    ghost no_branch = { refl };

    ghost no_delay = { refl };
}
