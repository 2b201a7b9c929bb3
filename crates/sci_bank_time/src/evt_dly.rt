// EVTDLY_c: the delay is the parameter.
ghost use Rattle.std.specs.Prelude.{refl};
ghost use Rattle.sci_forms.specs.declared.Kind.TheVariants.{EvtDly as EvtDlyKind};

use crate::delayed::{DelayRule, Delayed};
use sci_bank::words::{Words, param};
use sci_kind_bank::KindBank;
use sci_kinds::Kind;
use sci_span::Entering;

/// The delay.
#[derive(Drop)]
pub struct EvtDlyRule;

/// The bank of `EvtDly` blocks.
pub type EvtDly = KindBank<Delayed<EvtDlyRule>>;

impl DelayRule for EvtDlyRule {
    ghost kind = { EvtDlyKind };

    fn rule() -> Self {
        EvtDlyRule
    }

    fn kind(&self) -> Kind {
        Kind::EvtDly
    }

    fn delay(&self, spec: &Words, _port: u32, _ins: &Entering) -> i64 {
        param(spec, 0)
    }

    ghost no_values = { λ s x m u e. refl };

    ghost no_state = { λ s. refl };

    ghost no_branch = { refl };
}
