// SWITCH2_m: the first or the third input, by the second against a threshold.
ghost use Rattle.std.specs.Prelude.{refl, ◌≡◌, ◌≤◌};
ghost use Rattle.sci_kinds.specs.Table.{switches};
ghost use Rattle.sci_forms.specs.declared.Kind.TheVariants.{Switch2 as Switch2Kind};

use sci_bank::words::{Words, element, param, size};
use sci_kind_bank::{CellRule, KindBank, Plain};
use sci_kinds::{Cell, Kind};
use sci_span::Entering;

/// One element of the output.
#[derive(Drop)]
pub struct Switch2Rule;

/// The bank of `Switch2` blocks.
pub type Switch2 = KindBank<Plain<Switch2Rule>>;

/// Whether the first input is taken, by a code: at least the threshold, above it, other than it.
fn switches(code: i64, threshold: i64, v: i64) -> bool
    ensures { result ≡ switches code threshold v }
{
    match code {
        0 => v >= threshold,
        1 => v > threshold,
        _ => v != threshold,
    }
}

impl CellRule for Switch2Rule {
    ghost kind = { Switch2Kind };

    fn rule() -> Self {
        Switch2Rule
    }

    fn kind(&self) -> Kind {
        Kind::Switch2
    }

    fn cell(&self, spec: &Words, _mask: u64, ins: &Entering, at: usize) -> Cell {
        let size = size(spec);
        if switches(param(spec, 0), param(spec, 1), element(ins, size)) {
            Cell::Value(element(ins, at))
        } else {
            Cell::Value(element(ins, size + 1 + at))
        }
    }

    ghost no_state = { λ s. refl };

    ghost no_branch = { refl };

    ghost no_delay = { refl };
}
