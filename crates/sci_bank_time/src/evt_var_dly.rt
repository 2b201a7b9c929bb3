// EVTVARDLY: the delay is the input, none where that is negative, at most 2^31 - 1.
ghost use Rattle.std.specs.Prelude.{refl, ◌≡◌, pos, negsuc, int_lt, if◌then◌else◌};
ghost use Rattle.std.specs.Int.{int_min};
ghost use Rattle.sci_base.specs.declared.limits.TheConstants.{DELAY};
ghost use Rattle.sci_forms.specs.declared.Kind.TheVariants.{EvtVarDly as EvtVarDlyKind};

use crate::delayed::{DelayRule, Delayed};
use sci_bank::words::{Words, element};
use sci_base::limits;
use sci_kind_bank::KindBank;
use sci_kinds::Kind;
use sci_span::Entering;

/// The delay.
#[derive(Drop)]
pub struct EvtVarDlyRule;

/// The bank of `EvtVarDly` blocks.
pub type EvtVarDly = KindBank<Delayed<EvtVarDlyRule>>;

/// The delay of a number: -1 where it is negative, and else at most `MOST`.
fn delay_by(v: i64) -> i64
    ensures { result ≡ (if int_lt v (pos 0) then negsuc 0 else int_min v DELAY) }
{
    if v < 0 { -1 } else { v.min(limits::DELAY) }
}

impl DelayRule for EvtVarDlyRule {
    ghost kind = { EvtVarDlyKind };

    fn rule() -> Self {
        EvtVarDlyRule
    }

    fn kind(&self) -> Kind {
        Kind::EvtVarDly
    }

    fn delay(&self, _spec: &Words, _port: u32, ins: &Entering) -> i64 {
        delay_by(element(ins, 0))
    }

    ghost no_values = { λ s x m u e. refl };

    ghost no_state = { λ s. refl };

    ghost no_branch = { refl };
}
