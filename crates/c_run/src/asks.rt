// Questions to the surroundings.

ghost use Rattle.std.specs.Prelude.{◌≡◌, ℕ, Some, None, map, if◌then◌else◌};
ghost use Rattle.c_ast.specs.View.{exp_of, place_of, asked_of};
ghost use Rattle.c_mean.specs.Meaning.{has_left, column, column_place, told_more, received, asked, quietly, going, undefined};
ghost use Rattle.c_run.specs.Running.{left_of, world};
ghost use Rattle.c_run.specs.Layout.{slots};

use crate::effects::give;
use crate::machine::{ColumnRest, Limits};
use crate::memory::Memory;
use crate::values::eval;
use c_ast::{Ask, Expr, Target};

/// The place of a column among all: columns are counted from 1.
fn place(number: i64) -> Option<usize>
    ensures { result ≡ column_place number }
{
    if number < 1 {
        None
    } else {
        Some((number - 1) as usize)
    }
}

fn has_value(columns: &[ColumnRest<'_>], number: i64) -> bool
    ensures { result ≡ has_left (column (map left_of columns.now) number) }
{
    let Some(i) = place(number) else {
        return false;
    };
    if i < columns.len() {
        let left = columns[i].left;
        return !left.is_empty();
    }
    false
}

/// Tells the target whether the column has a value left.
fn more(memory: &mut Memory<'_>, columns: &[ColumnRest<'_>], target: &Target, column: &Expr) -> bool
    ensures { (if result then Some (slots memory.new) else None) ≡ told_more (place_of target.now) (exp_of column.now) (world memory.old columns.now) }
{
    let Some(number) = eval(memory, column) else {
        return false;
    };
    let answer = i64::from(has_value(columns, number));
    give(memory, target, answer)
}

/// Takes the column's next value for the target.
fn receive(
    memory: &mut Memory<'_>,
    columns: &mut [ColumnRest<'_>],
    target: &Target,
    column: &Expr,
) -> bool
    ensures { (if result then Some (world memory.new columns.new) else None)
        ≡ received (place_of target.now) (exp_of column.now) (world memory.old columns.old) }
{
    let Some(number) = eval(memory, column) else {
        return false;
    };
    let Some(i) = place(number) else {
        return false;
    };
    if i >= columns.len() {
        return false;
    }
    let left = columns[i].left;
    let Some((value, rest)) = left.split_first() else {
        return false;
    };
    if !give(memory, target, *value) {
        return false;
    }
    columns[i] = ColumnRest { left: rest };
    true
}

/// Asks, and gives the target the answer. False where the statement is undefined: where the target has no place or the column's number is
/// undefined, and where an input is asked of a column that isn't there or has no value left.
pub fn ask(
    memory: &mut Memory<'_>,
    columns: &mut [ColumnRest<'_>],
    limits: Limits,
    target: &Target,
    ask: &Ask,
) -> bool
    ensures { (n : ℕ) → asked limits.until limits.limit n (place_of target.now) (asked_of ask.now) (world memory.old columns.old)
        ≡ quietly (if result then going (world memory.new columns.new) else undefined n) }
{
    match ask {
        Ask::More(column) => more(memory, columns, target, column),
        Ask::Input(column) => receive(memory, columns, target, column),
        Ask::Until => give(memory, target, limits.until),
        Ask::Limit => give(memory, target, limits.limit),
    }
}
