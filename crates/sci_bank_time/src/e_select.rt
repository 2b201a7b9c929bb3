// ESELECT_f: the branch is the input, brought into the numbers of the activation outputs.
ghost use Rattle.std.specs.Prelude.{refl, ◌≡◌, pos, unsigned_abs};
ghost use Rattle.sci_kinds.specs.Table.{brought};
ghost use Rattle.sci_forms.specs.declared.Kind.TheVariants.{ESelect as ESelectKind};

use crate::branching::{BranchRule, Branching};
use sci_bank::words::{Words, element};
use sci_kind_bank::KindBank;
use sci_kinds::Kind;
use sci_span::Entering;

/// The branch.
#[derive(Drop)]
pub struct ESelectRule;

/// The bank of `ESelect` blocks.
pub type ESelect = KindBank<Branching<ESelectRule>>;

/// The branch that a number selects of `n`: the first for lesser numbers, the last for greater ones.
fn branch_at(v: i64, n: u32) -> u32
    ensures { result ≡ unsigned_abs (brought (pos 1) (pos n) v) }
{
    if v < 1 {
        1
    } else if (n as i64) < v {
        n
    } else {
        v as u32
    }
}

impl BranchRule for ESelectRule {
    ghost kind = { ESelectKind };

    fn rule() -> Self {
        ESelectRule
    }

    fn kind(&self) -> Kind {
        Kind::ESelect
    }

    fn branch(&self, spec: &Words, ins: &Entering) -> u32 {
        branch_at(element(ins, 0), spec.evtout())
    }

    ghost no_values = { λ s x m u e. refl };

    ghost no_state = { λ s. refl };

    ghost no_delay = { refl };
}
