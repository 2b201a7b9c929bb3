// A whole text.
ghost use Rattle.std.specs.Prelude.{◌≡◌, ◌≤◌, ◌+◌, ◌-◌, ℕ, length, take, count_by, nat_eq};
ghost use Rattle.sci_trace.specs.Columns.{columns_view};
ghost use Rattle.sci_save.specs.Saved.{Saved, saved_of};
ghost use Rattle.sci_save.specs.Blame.{Spells, IsBlamed};
ghost use Rattle.sci_save.specs.Reading.{Gives, saved_at};
ghost use Rattle.sci_save.specs.Answers.{Answers, Accepts, Blames};

use crate::bounds::{BlockLine, Bounds};
use crate::events::pending;
use crate::line::line;
use crate::rows::{firsts, rows};
use crate::stop::LineStop;
use crate::{Image, SaveStop};
use sci_base::limits;
use sci_net::Net;
use sci_trace::inputs::Inputs;
use std::alloc::Global;

/// How many events have fired, and the date of the last reaction.
const STANDS: [Bounds; 2] = [
    Bounds {
        low: 0,
        high: limits::EVENTS as i64,
    },
    Bounds {
        low: 0,
        high: limits::TICKS as i64,
    },
];

/// All lines, and what stands behind them.
#[tactic(auto, unfolding(crate::specs::Reading::saved_at))]
fn saved<'a>(
    alloc: Global,
    net: &Net,
    columns: &[Vec<i64>],
    bytes: &'a [u8],
) -> Result<(Image, &'a [u8]), LineStop>
    ensures { Gives (λ x. (saved_of x.0, x.1.now)) result (saved_at net.now (columns_view columns.now) bytes.now) }
{
    let (_, rest) = line(alloc, b"save 1", &[], bytes)?;
    let (stands, rest) = line(alloc, b"at", &STANDS, rest)?;
    let (states, rest) = rows(alloc, BlockLine::State, net, columns, rest)?;
    let (held, rest) = rows(alloc, BlockLine::Held, net, columns, rest)?;
    let (cursors, rest) = rows(alloc, BlockLine::Cursor, net, columns, rest)?;
    let now = stands[1].unsigned_abs();
    let (pending, rest) = pending(alloc, net, now, rest)?;
    let image = Image {
        fired: stands[0].unsigned_abs(),
        now,
        states,
        held,
        cursors: firsts(alloc, &cursors)?,
        pending,
    };
    Ok((image, rest))
}

/// The number of the line that begins where so many bytes are left, counted from 1.
fn line_number(bytes: &[u8], left: usize) -> u64
    requires { left ≤ length bytes.now }
    ensures { result ≡ count_by (nat_eq 10) (take (length bytes.now - left) bytes.now) + 1 }
{
    let front = &bytes[..bytes.len() - left];
    front.iter().filter(|byte| 10 == **byte).count() as u64 + 1
}

/// What is due for the bytes.
fn answer(alloc: Global, net: &Net, columns: &[Vec<i64>], bytes: &[u8]) -> Result<Image, SaveStop>
    ensures { Answers net.now (columns_view columns.now) bytes.now result }
{
    net.well_formed();
    match saved(alloc, net, columns, bytes) {
        Ok((image, rest)) => {
            if rest.is_empty() {
                Ok(image)
            } else {
                Err(SaveStop::NotSave(line_number(bytes, rest.len())))
            }
        }
        Err(LineStop::Broken(left)) => Err(SaveStop::NotSave(line_number(bytes, left))),
        Err(LineStop::Memory) => Err(SaveStop::Memory),
    }
}

/// Reads what was saved of a run of a net on these columns of an input file: exactly where the bytes are its text, line by line. Else it
/// tells the first line with which the bytes go on as no such text, or that there was no memory.
pub fn read_save(alloc: Global, net: &Net, ins: &Inputs, bytes: &[u8]) -> Result<Image, SaveStop>
    ensures answer { Answers net.now ins.now bytes.now result }

    // Each text for which something saved or a line is due gets that answer, and no other.
    ensures saved { (m : Saved) → Spells net.now ins.now bytes.now m → Accepts result m }
    ensures line { (k : ℕ) → IsBlamed net.now ins.now bytes.now k → Blames result k }
{
    net.well_formed();
    let columns = ins.columns();
    answer(alloc, net, columns, bytes)
}
