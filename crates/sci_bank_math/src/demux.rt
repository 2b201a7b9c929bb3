// DEMUX: the input cut in order.
ghost use Rattle.std.specs.Prelude.{refl};
ghost use Rattle.sci_forms.specs.declared.Kind.TheVariants.{Demux as DemuxKind};

use sci_bank::words::{Words, element};
use sci_kind_bank::{CellRule, KindBank, Plain};
use sci_kinds::{Cell, Kind};
use sci_span::Entering;

/// One element of the output.
#[derive(Drop)]
pub struct DemuxRule;

/// The bank of `Demux` blocks.
pub type Demux = KindBank<Plain<DemuxRule>>;

impl CellRule for DemuxRule {
    ghost kind = { DemuxKind };

    fn rule() -> Self {
        DemuxRule
    }

    fn kind(&self) -> Kind {
        Kind::Demux
    }

    fn cell(&self, _spec: &Words, _mask: u64, ins: &Entering, at: usize) -> Cell {
        Cell::Value(element(ins, at))
    }

    ghost no_state = { λ s. refl };

    ghost no_branch = { refl };

    ghost no_delay = { refl };
}
