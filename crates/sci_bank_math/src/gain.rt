// GAINBLK: each element times a number.
ghost use Rattle.std.specs.Prelude.{refl};
ghost use Rattle.sci_forms.specs.declared.Kind.TheVariants.{GainBlk as GainBlkKind};

use sci_bank::words::{Words, only_input, param, product_cell};
use sci_kind_bank::{CellRule, KindBank, Plain};
use sci_kinds::{Cell, Kind};
use sci_span::Entering;

/// One element of the output.
#[derive(Drop)]
pub struct GainBlkRule;

/// The bank of `GainBlk` blocks.
pub type GainBlk = KindBank<Plain<GainBlkRule>>;

impl CellRule for GainBlkRule {
    ghost kind = { GainBlkKind };

    fn rule() -> Self {
        GainBlkRule
    }

    fn kind(&self) -> Kind {
        Kind::GainBlk
    }

    #[inline(always)]
    fn cell(&self, spec: &Words, _mask: u64, ins: &Entering, at: usize) -> Cell {
        product_cell(spec, param(spec, 1), only_input(spec, ins, at))
    }

    ghost no_state = { λ s. refl };

    ghost no_branch = { refl };

    ghost no_delay = { refl };
}
