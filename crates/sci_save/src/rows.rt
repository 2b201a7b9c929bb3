// A line for each block.
ghost use Rattle.std.specs.Prelude.{◌≡◌, true, IfOk};
ghost use Rattle.sci_forms.specs.Typed.{typed};
ghost use Rattle.sci_net.specs.Parts.{rows_of};
ghost use Rattle.sci_trace.specs.Columns.{columns_view};
ghost use Rattle.sci_save.specs.Bounds.{word_of, bounds_of};
ghost use Rattle.sci_save.specs.Reading.{Gives, row_at, rows_at, firsts_of};

use crate::bounds::BlockLine;
use crate::line::{after_start, numbers};
use crate::stop::LineStop;
use sci_base::NoMemory;
use sci_forms::Spec;
use sci_net::Net;
use std::alloc::Global;

/// The numbers of a block, which has no line where it has none.
fn row<'a>(
    alloc: Global,
    part: BlockLine,
    block: u32,
    spec: &Spec,
    columns: &[Vec<i64>],
    bytes: &'a [u8],
) -> Result<(Vec<i64>, &'a [u8]), LineStop>
    requires { typed spec.now ≡ true }
    ensures { Gives (λ x. (x.0.items, x.1.now)) result (row_at (word_of part) block (bounds_of part (columns_view columns.now) spec.now) bytes.now) }
{
    let bounds = part.bounds(alloc, spec, columns)?;
    if bounds.is_empty() {
        return Ok((Vec::new(alloc), bytes));
    }
    let left = bytes.len();
    match after_start(bytes, part.word(), block) {
        Some(rest) => numbers(alloc, &bounds, left, rest),
        None => Err(LineStop::Broken(left)),
    }
}

/// The numbers of all blocks.
pub fn rows<'a>(
    alloc: Global,
    part: BlockLine,
    net: &Net,
    columns: &[Vec<i64>],
    bytes: &'a [u8],
) -> Result<(Vec<Vec<i64>>, &'a [u8]), LineStop>
    ensures { Gives (λ x. (rows_of x.0.items, x.1.now)) result (rows_at part (columns_view columns.now) 1 net.now.specs bytes.now) }
{
    let mut rows = Vec::new(alloc);
    let mut rest = bytes;
    for block in 0..net.len() {
        let (row, behind) = row(alloc, part, block + 1, net.spec(block + 1), columns, rest)?;
        rows.push(row)?;
        rest = behind;
    }
    Ok((rows, rest))
}

/// The first number of each row, or 0 where it has none.
pub fn firsts(alloc: Global, rows: &[Vec<i64>]) -> Result<Vec<u64>, NoMemory>
    ensures { IfOk result (λ v. v.items ≡ firsts_of (rows_of rows.now)) }
{
    let mut firsts = Vec::new(alloc);
    for row in rows {
        match row.as_slice() {
            [] => firsts.push(0)?,
            [first, ..] => firsts.push(first.unsigned_abs())?,
        }
    }
    Ok(firsts)
}
