// LOGIC: the row of a table of truths that the inputs say.
ghost use Rattle.std.specs.Prelude.{refl, ◌≡◌, ◌<◌, ◌≤◌, ◌+◌, ◌*◌, ◌^◌, length};
ghost use Rattle.sci_base.specs.Lists.{at};
ghost use Rattle.sci_forms.specs.Words.{param};
ghost use Rattle.sci_kinds.specs.Table.{row_to};
ghost use Rattle.sci_kinds.specs.declared.Cell.TheVariants.{Value};
ghost use Rattle.sci_forms.specs.declared.Kind.TheVariants.{Logic as LogicKind};

use crate::patterns::digit;
use sci_bank::words::{Words, element, param};
use sci_kind_bank::{CellRule, KindBank, Plain};
use sci_kinds::{Cell, Kind};
use sci_span::Entering;

/// One element of the output.
#[derive(Drop)]
pub struct LogicRule;

/// The bank of `Logic` blocks.
pub type Logic = KindBank<Plain<LogicRule>>;

/// The number whose binary digits are the truths of the inputs, the first the most significant.
fn row(ins: &Entering, n: usize) -> usize
    requires { n ≤ 8 }
    ensures value { result ≡ row_to (at ins.now) n }
    ensures below { result < 256 }
{
    let mut row = 0;
    for k in 0..n {
        row = 2 * row + digit(element(ins, k));
    }
    row
}

/// The entry of a row for one output.
fn entry(spec: &Words, row: usize, at: usize) -> Cell
    requires rows { row < 256 }
    requires outs { length spec.now.outs ≤ 8 }
    requires at { at < length spec.now.outs }
    ensures { result ≡ Value (param spec.now (row * length spec.now.outs + at)) }
{
    Cell::Value(param(spec, row * spec.out_count() + at))
}

impl CellRule for LogicRule {
    ghost kind = { LogicKind };

    fn rule() -> Self {
        LogicRule
    }

    fn kind(&self) -> Kind {
        Kind::Logic
    }

    fn cell(&self, spec: &Words, _mask: u64, ins: &Entering, at: usize) -> Cell {
        entry(spec, row(ins, spec.in_count()), at)
    }

    ghost no_state = { λ s. refl };

    ghost no_branch = { refl };

    ghost no_delay = { refl };
}
