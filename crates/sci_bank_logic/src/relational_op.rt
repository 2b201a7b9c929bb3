// RELATIONALOP: whether two inputs stand in a relation.
ghost use Rattle.std.specs.Prelude.{refl, ◌≡◌};
ghost use Rattle.sci_kinds.specs.Table.{relation};
ghost use Rattle.sci_forms.specs.declared.Kind.TheVariants.{RelationalOp as RelationalOpKind};

use crate::patterns::truth;
use sci_bank::words::{Words, input, param};
use sci_kind_bank::{CellRule, KindBank, Plain};
use sci_kinds::{Cell, Kind};
use sci_span::Entering;

/// One element of the output.
#[derive(Drop)]
pub struct RelationalOpRule;

/// The bank of `RelationalOp` blocks.
pub type RelationalOp = KindBank<Plain<RelationalOpRule>>;

/// Whether two numbers stand in the relation of a code: equal, not equal, less, at most, greater, at least.
fn relation(op: i64, a: i64, b: i64) -> bool
    ensures { result ≡ relation op a b }
{
    match op {
        0 => a == b,
        1 => a != b,
        2 => a < b,
        3 => a <= b,
        4 => a > b,
        _ => a >= b,
    }
}

impl CellRule for RelationalOpRule {
    ghost kind = { RelationalOpKind };

    fn rule() -> Self {
        RelationalOpRule
    }

    fn kind(&self) -> Kind {
        Kind::RelationalOp
    }

    fn cell(&self, spec: &Words, _mask: u64, ins: &Entering, at: usize) -> Cell {
        let a = input(spec, ins, 0, at);
        let b = input(spec, ins, 1, at);
        Cell::Value(truth(relation(param(spec, 0), a, b)))
    }

    ghost no_state = { λ s. refl };

    ghost no_branch = { refl };

    ghost no_delay = { refl };
}
