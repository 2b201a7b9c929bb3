// BITCLEAR: one bit of each element made 0.
ghost use Rattle.std.specs.Prelude.{refl, ◌≡◌, ◌<◌};
ghost use Rattle.sci_base.specs.Bits.{pattern, clear_bit};
ghost use Rattle.sci_base.specs.Fit.{InRange, width};
ghost use Rattle.sci_kinds.specs.Table.{number};
ghost use Rattle.sci_forms.specs.declared.Kind.TheVariants.{BitClear as BitClearKind};

use crate::patterns::{number, pattern, place};
use sci_bank::words::{Words, only_input, out_type};
use sci_base::Ty;
use sci_base::bits::two_to;
use sci_kind_bank::{CellRule, KindBank, Plain};
use sci_kinds::{Cell, Kind};
use sci_span::Entering;

/// One element of the output.
#[derive(Drop)]
pub struct BitClearRule;

/// The bank of `BitClear` blocks.
pub type BitClear = KindBank<Plain<BitClearRule>>;

/// A pattern with bit `k` made 0.
fn cleared(p: u64, k: u32) -> u64
    requires { k < 64 }
    ensures { result ≡ clear_bit p k }
{
    if (p >> k) % 2 == 1 { p - two_to(k) } else { p }
}

/// A number with bit `k` of its pattern made 0.
fn without_bit(t: Ty, v: i64, k: u32) -> Cell
    requires in_range { InRange t v }
    requires place { k < width t }
    ensures { result ≡ number t (clear_bit (pattern t v) k) }
{
    number(t, cleared(pattern(t, v), k))
}

impl CellRule for BitClearRule {
    ghost kind = { BitClearKind };

    fn rule() -> Self {
        BitClearRule
    }

    fn kind(&self) -> Kind {
        Kind::BitClear
    }

    fn cell(&self, spec: &Words, _mask: u64, ins: &Entering, at: usize) -> Cell {
        without_bit(out_type(spec), only_input(spec, ins, at), place(spec, 0))
    }

    ghost no_state = { λ s. refl };

    ghost no_branch = { refl };

    ghost no_delay = { refl };
}
