// SENSOR: y is the value that enters.
ghost use Rattle.std.specs.Prelude.{refl};
ghost use Rattle.sci_forms.specs.declared.Kind.TheVariants.{Sensor as SensorKind};

use sci_bank::words::{Words, element};
use sci_kind_bank::{CellRule, KindBank, Plain};
use sci_kinds::{Cell, Kind};
use sci_span::Entering;

/// The output.
#[derive(Drop)]
pub struct SensorRule;

/// The bank of `Sensor` blocks.
pub type Sensor = KindBank<Plain<SensorRule>>;

impl CellRule for SensorRule {
    ghost kind = { SensorKind };

    fn rule() -> Self {
        SensorRule
    }

    fn kind(&self) -> Kind {
        Kind::Sensor
    }

    fn cell(&self, _spec: &Words, _mask: u64, ins: &Entering, _at: usize) -> Cell {
        Cell::Value(element(ins, 0))
    }

    ghost no_state = { λ s. refl };

    ghost no_branch = { refl };

    ghost no_delay = { refl };
}
