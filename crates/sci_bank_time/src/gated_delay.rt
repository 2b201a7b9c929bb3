// GATED_DELAY: y is the state where the gate, the second input, is positive, and else 0; the next state is the first input.
ghost use Rattle.std.specs.Prelude.{refl, ◌≡◌, ◌≤◌, pos, int_lt, if◌then◌else◌};
ghost use Rattle.sci_base.specs.declared.limits.TheConstants.{PORT_ELEMENTS};
ghost use Rattle.sci_base.specs.Lists.{at};
ghost use Rattle.sci_forms.specs.Words.{size};
ghost use Rattle.sci_forms.specs.declared.Kind.TheVariants.{GatedDelay as GatedDelayKind};

use crate::stateful::{StateRule, Stateful};
use sci_bank::words::{Words, element, size};
use sci_base::Ints;
use sci_kind_bank::KindBank;
use sci_kinds::{Cell, Kind};
use sci_span::Entering;

/// One element of the output, and of the next state.
#[derive(Drop)]
pub struct GatedDelayRule;

/// The bank of `GatedDelay` blocks.
pub type GatedDelay = KindBank<Stateful<GatedDelayRule>>;

/// The second input's one element, which stands behind those of the first.
fn gate(spec: &Words, ins: &Entering) -> i64
    requires { size spec.now ≤ PORT_ELEMENTS }
    ensures { result ≡ at ins.now (size spec.now) }
{
    element(ins, size(spec))
}

/// A number where the gate is positive, and else 0.
fn gated(gate: i64, v: i64) -> i64
    ensures { result ≡ (if int_lt (pos 0) gate then v else pos 0) }
{
    if 0 < gate { v } else { 0 }
}

impl StateRule for GatedDelayRule {
    ghost kind = { GatedDelayKind };

    fn rule() -> Self {
        GatedDelayRule
    }

    fn kind(&self) -> Kind {
        Kind::GatedDelay
    }

    fn cell(&self, spec: &Words, state: &Ints, _mask: u64, ins: &Entering, at: usize) -> Cell {
        Cell::Value(gated(gate(spec, ins), state.at(at)))
    }

    fn next(&self, _spec: &Words, _state: &Ints, _mask: u64, ins: &Entering, at: usize) -> i64 {
        element(ins, at)
    }

    ghost no_branch = { refl };

    ghost no_delay = { refl };
}
