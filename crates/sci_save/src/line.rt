// One line: the text with which it begins, and numbers.
ghost use Rattle.std.specs.Prelude.{◌≡◌, ◌<◌, ◌^◌, length, codes, IfOk};
ghost use Rattle.std.specs.Option.{option_map};
ghost use Rattle.sci_save.specs.Bounds.{AreWithin};
ghost use Rattle.sci_save.specs.Numbers.{below_zero, signed_at, next_number, numbers_at, behind_start};
ghost use Rattle.sci_save.specs.Reading.{Gives, told, line_at};

use crate::bounds::Bounds;
use crate::stop::LineStop;
use itoa::Buffer;
use sci_text::{after_text, number};
use std::alloc::Global;

/// The number below 0 of this size.
fn below_zero(size: u64, rest: &[u8]) -> Option<(i64, &[u8])>
    requires { size < 2 ^ 63 }
    ensures { option_map (λ x. (x.0, x.1.now)) result ≡ below_zero size rest.now }
{
    if size == 0 {
        return None;
    }
    Some((-(size as i64), rest))
}

/// A number with its sign.
#[tactic(auto, unfolding(crate::specs::Numbers::signed_at))]
fn signed(bytes: &[u8]) -> Option<(i64, &[u8])>
    ensures { option_map (λ x. (x.0, x.1.now)) result ≡ signed_at bytes.now }
{
    match after_text(bytes, b"-") {
        Some(rest) => {
            let (size, rest) = number(1 << 63, rest)?;
            below_zero(size, rest)
        }
        None => {
            let (value, rest) = number(1 << 63, bytes)?;
            Some((value as i64, rest))
        }
    }
}

/// A number within the bounds, behind a space.
#[tactic(auto, unfolding(crate::specs::Numbers::next_number))]
fn next_number(bounds: Bounds, bytes: &[u8]) -> Option<(i64, &[u8])>
    ensures { option_map (λ x. (x.0, x.1.now)) result ≡ next_number bounds bytes.now }
{
    let rest = after_text(bytes, b" ")?;
    let (number, rest) = signed(rest)?;
    if bounds.hold(number) {
        Some((number, rest))
    } else {
        None
    }
}

/// A number within each of the bounds, and the end of the line, which begins where so many bytes are left.
pub fn numbers<'a>(
    alloc: Global,
    bounds: &[Bounds],
    left: usize,
    bytes: &'a [u8],
) -> Result<(Vec<i64>, &'a [u8]), LineStop>
    ensures { Gives (λ x. (x.0.items, x.1.now)) result (told left (numbers_at bounds.now bytes.now)) }
{
    let mut numbers = Vec::new(alloc);
    let mut rest = bytes;
    for bound in bounds {
        match next_number(*bound, rest) {
            None => return Err(LineStop::Broken(left)),
            Some((number, behind)) => {
                numbers.push(number)?;
                rest = behind;
            }
        }
    }
    match after_text(rest, b"\n") {
        Some(end) => Ok((numbers, end)),
        None => Err(LineStop::Broken(left)),
    }
}

/// A line that begins with this text, and has a number within each of the bounds.
pub fn line<'a>(
    alloc: Global,
    start: &[u8],
    bounds: &[Bounds],
    bytes: &'a [u8],
) -> Result<(Vec<i64>, &'a [u8]), LineStop>
    ensures gives { Gives (λ x. (x.0.items, x.1.now)) result (line_at start.now bounds.now bytes.now) }
    ensures within { IfOk result (λ x. AreWithin bounds.now x.0.items) }
{
    let left = bytes.len();
    match after_text(bytes, start) {
        Some(rest) => numbers(alloc, bounds, left, rest),
        None => Err(LineStop::Broken(left)),
    }
}

/// What stands behind the beginning of a block's line.
#[tactic(auto, unfolding(crate::specs::Numbers::behind_start))]
pub fn after_start<'a>(bytes: &'a [u8], word: &str, block: u32) -> Option<&'a [u8]>
    ensures { option_map (λ r. r.now) result ≡ behind_start word.now block bytes.now }
{
    let rest = after_text(bytes, word.as_bytes())?;
    let rest = after_text(rest, b" ")?;
    let mut digits = Buffer::new();
    after_text(rest, digits.format(block).as_bytes())
}
