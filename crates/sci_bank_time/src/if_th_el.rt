// IFTHEL_f: branch 1 where the input is positive, and else 2.
ghost use Rattle.std.specs.Prelude.{refl};
ghost use Rattle.sci_forms.specs.declared.Kind.TheVariants.{IfThEl as IfThElKind};

use crate::branching::{BranchRule, Branching};
use sci_bank::words::{Words, element};
use sci_kind_bank::KindBank;
use sci_kinds::Kind;
use sci_span::Entering;

/// The branch.
#[derive(Drop)]
pub struct IfThElRule;

/// The bank of `IfThEl` blocks.
pub type IfThEl = KindBank<Branching<IfThElRule>>;

impl BranchRule for IfThElRule {
    ghost kind = { IfThElKind };

    fn rule() -> Self {
        IfThElRule
    }

    fn kind(&self) -> Kind {
        Kind::IfThEl
    }

    fn branch(&self, _spec: &Words, ins: &Entering) -> u32 {
        if 0 < element(ins, 0) { 1 } else { 2 }
    }

    ghost no_values = { λ s x m u e. refl };

    ghost no_state = { λ s. refl };

    ghost no_delay = { refl };
}
