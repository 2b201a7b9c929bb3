// EXTRACTBITS: the bits of each element from a start to an end, as a number.
ghost use Rattle.std.specs.Prelude.{refl, ◌≡◌, ◌<◌, ◌≤◌};
ghost use Rattle.sci_base.specs.Bits.{pattern, bits_from_to};
ghost use Rattle.sci_base.specs.Fit.{InRange, width};
ghost use Rattle.sci_kinds.specs.Table.{number};
ghost use Rattle.sci_forms.specs.declared.Kind.TheVariants.{ExtractBits as ExtractBitsKind};

use crate::patterns::{number, pattern, place};
use sci_bank::words::{Words, only_input, out_type};
use sci_base::Ty;
use sci_base::bits::two_to;
use sci_kind_bank::{CellRule, KindBank, Plain};
use sci_kinds::{Cell, Kind};
use sci_span::Entering;

/// One element of the output.
#[derive(Drop)]
pub struct ExtractBitsRule;

/// The bank of `ExtractBits` blocks.
pub type ExtractBits = KindBank<Plain<ExtractBitsRule>>;

/// Bits `start` to `end` of a pattern.
fn bits_between(p: u64, start: u32, end: u32) -> u64
    requires order { start ≤ end }
    requires few { end < 63 }
    ensures value { result ≡ bits_from_to p start end }
    ensures no_more { result ≤ p }
{
    (p >> start) & (two_to(end - start + 1) - 1)
}

/// Bits `start` to `end` of a number's pattern.
fn between_bits(t: Ty, v: i64, start: u32, end: u32) -> Cell
    requires in_range { InRange t v }
    requires order { start ≤ end }
    requires place { end < width t }
    ensures { result ≡ number t (bits_from_to (pattern t v) start end) }
{
    number(t, bits_between(pattern(t, v), start, end))
}

impl CellRule for ExtractBitsRule {
    ghost kind = { ExtractBitsKind };

    fn rule() -> Self {
        ExtractBitsRule
    }

    fn kind(&self) -> Kind {
        Kind::ExtractBits
    }

    fn cell(&self, spec: &Words, _mask: u64, ins: &Entering, at: usize) -> Cell {
        between_bits(
            out_type(spec),
            only_input(spec, ins, at),
            place(spec, 0),
            place(spec, 1),
        )
    }

    ghost no_state = { λ s. refl };

    ghost no_branch = { refl };

    ghost no_delay = { refl };
}
