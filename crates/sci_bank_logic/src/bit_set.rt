// BITSET: one bit of each element made 1.
ghost use Rattle.std.specs.Prelude.{refl, ◌≡◌, ◌<◌};
ghost use Rattle.sci_base.specs.Bits.{pattern, set_bit};
ghost use Rattle.sci_base.specs.Fit.{InRange, width};
ghost use Rattle.sci_kinds.specs.Table.{number};
ghost use Rattle.sci_forms.specs.declared.Kind.TheVariants.{BitSet as BitSetKind};

use crate::patterns::{number, pattern, place};
use sci_bank::words::{Words, only_input, out_type};
use sci_base::Ty;
use sci_base::bits::set_bit;
use sci_kind_bank::{CellRule, KindBank, Plain};
use sci_kinds::{Cell, Kind};
use sci_span::Entering;

/// One element of the output.
#[derive(Drop)]
pub struct BitSetRule;

/// The bank of `BitSet` blocks.
pub type BitSet = KindBank<Plain<BitSetRule>>;

/// A number with bit `k` of its pattern made 1.
fn with_bit(t: Ty, v: i64, k: u32) -> Cell
    requires in_range { InRange t v }
    requires place { k < width t }
    ensures { result ≡ number t (set_bit (pattern t v) k) }
{
    number(t, set_bit(pattern(t, v), k))
}

impl CellRule for BitSetRule {
    ghost kind = { BitSetKind };

    fn rule() -> Self {
        BitSetRule
    }

    fn kind(&self) -> Kind {
        Kind::BitSet
    }

    fn cell(&self, spec: &Words, _mask: u64, ins: &Entering, at: usize) -> Cell {
        with_bit(out_type(spec), only_input(spec, ins, at), place(spec, 0))
    }

    ghost no_state = { λ s. refl };

    ghost no_branch = { refl };

    ghost no_delay = { refl };
}
