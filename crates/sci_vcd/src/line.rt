// What single lines say.

ghost use Rattle.std.specs.Prelude.{◌≡◌, ◌<◌, ◌≤◌, ◌^◌, length, IfSome};
ghost use Rattle.std.specs.Option.{option_map};
ghost use Rattle.sci_base.specs.Fit.{width};
ghost use Rattle.sci_text.specs.Reading.{ended};
ghost use Rattle.sci_vcd.specs.Reading.{bits_of, number_of, decoded, type_at, name_at, signal_at, change_at, tick_at};

use crate::Signal;
use sci_base::bits::two_to;
use sci_base::{Ty, limits};
use sci_text::{after_text, digits_len, number};

/// A variable's kind and width, and what stands behind them.
#[tactic(auto, unfolding(crate::specs::Reading::type_at))]
fn type_front(bytes: &[u8]) -> Option<(Ty, &[u8])>
    ensures { option_map (λ x. (x.0, x.1.now)) result ≡ type_at bytes.now }
{
    if let Some(rest) = after_text(bytes, b"integer 32") {
        return Some((Ty::I32, rest));
    }
    if let Some(rest) = after_text(bytes, b"integer 16") {
        return Some((Ty::I16, rest));
    }
    if let Some(rest) = after_text(bytes, b"integer 8") {
        return Some((Ty::I8, rest));
    }
    if let Some(rest) = after_text(bytes, b"wire 32") {
        return Some((Ty::U32, rest));
    }
    if let Some(rest) = after_text(bytes, b"wire 16") {
        return Some((Ty::U16, rest));
    }
    if let Some(rest) = after_text(bytes, b"wire 8") {
        return Some((Ty::U8, rest));
    }
    None
}

/// A signal of this type by its name, and the end of its line.
#[tactic(auto, unfolding(crate::specs::Reading::name_at))]
fn name(ty: Ty, bytes: &[u8]) -> Option<Signal>
    ensures { result ≡ name_at ty bytes.now }
{
    let (block, rest) = number(1 << 32, bytes)?;
    let rest = after_text(rest, b"_")?;
    let (port, rest) = number(1 << 32, rest)?;
    let rest = after_text(rest, b"_")?;
    let (element, rest) = number(1 << 32, rest)?;
    let rest = after_text(rest, b" $end")?;
    if rest.is_empty() {
        Some(Signal {
            block: block as u32,
            port: port as u32,
            element: element as u32,
            ty,
        })
    } else {
        None
    }
}

/// The number of a signal, and the signal.
#[tactic(auto, unfolding(crate::specs::Reading::signal_at))]
pub fn read_signal(line: &[u8]) -> Option<(u32, Signal)>
    ensures { result ≡ signal_at line.now }
{
    let rest = after_text(line, b"$var ")?;
    let (ty, rest) = type_front(rest)?;
    let rest = after_text(rest, b" v")?;
    let (place, rest) = number(1 << 32, rest)?;
    let rest = after_text(rest, b" b")?;
    let signal = name(ty, rest)?;
    Some((place as u32, signal))
}

/// The digits of a value, and the number of its signal.
#[tactic(auto, unfolding(crate::specs::Reading::change_at))]
pub fn read_change(line: &[u8]) -> Option<(&[u8], u32)>
    ensures { option_map (λ x. (x.0.now, x.1)) result ≡ change_at line.now }
{
    let rest = after_text(line, b"b")?;
    let (digits, rest) = rest.split_at(digits_len(rest));
    let rest = after_text(rest, b" v")?;
    let (place, rest) = number(1 << 32, rest)?;
    if rest.is_empty() {
        Some((digits, place as u32))
    } else {
        None
    }
}

/// A tick, behind its #.
#[tactic(auto, unfolding(crate::specs::Reading::tick_at))]
pub fn read_tick(bytes: &[u8]) -> Option<u64>
    ensures { result ≡ tick_at bytes.now }
{
    let (tick, rest) = number(limits::TICKS + 1, bytes)?;
    if rest.is_empty() { Some(tick) } else { None }
}

/// The number of these binary digits.
fn bits_value(digits: &[u8]) -> Option<u64>
    requires { length digits.now ≤ 32 }
    ensures read { result ≡ bits_of 0 digits.now }
    ensures below { IfSome result (λ p. p < 2 ^ 32) }
{
    let mut bits: u64 = 0;
    for digit in digits {
        if *digit < b'0' || b'1' < *digit {
            return None;
        }
        bits = 2 * bits + u64::from(*digit - b'0');
    }
    Some(bits)
}

/// The number of the type that a pattern stands for.
fn number_of(ty: Ty, pattern: u64) -> i64
    requires { pattern < 2 ^ 32 }
    ensures { result ≡ number_of ty pattern }
{
    if pattern <= ty.high().unsigned_abs() {
        pattern as i64
    } else {
        pattern as i64 - two_to(ty.width()) as i64
    }
}

/// The value that these digits, one for each bit of the type, stand for.
#[tactic(auto, unfolding(crate::specs::Reading::decoded))]
pub fn decoded(ty: Ty, digits: &[u8]) -> Option<i64>
    ensures { result ≡ decoded ty digits.now }
{
    if digits.len() != ty.width() as usize {
        return None;
    }
    let pattern = bits_value(digits)?;
    Some(number_of(ty, pattern))
}
