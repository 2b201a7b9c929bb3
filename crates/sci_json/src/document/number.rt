// The numbers of a text.
ghost use Rattle.std.specs.Prelude.{◌≡◌, ◌==◌, ◌<◌, ◌^◌, true, false, length, slice_index, IsTrue, is_some, option_and_then, IfSome};
ghost use Rattle.std.specs.Str.Parse.{IsNumeral, digits_value};
ghost use Rattle.fast_float.specs.Text.{scan};
ghost use Rattle.serde_json.specs.Find.{as_i64};
ghost use Rattle.serde_json.specs.Read.{number_of, number_from, float_of};

use fast_float::Numeral;

// The whole number that a token writes, where it is one and fits.
#[inline(always)]
pub(crate) fn whole_number(text: &str) -> Option<i64>
    ensures { result ≡ option_and_then as_i64 (number_of text.now) }
{
    let bytes = text.as_bytes();
    if has_minus(bytes) {
        negative(&bytes[1..])
    } else {
        unsigned(bytes)
    }
}

#[inline(always)]
fn unsigned(bytes: &[u8]) -> Option<i64>
    ensures { result ≡ option_and_then as_i64 (number_from false (scan bytes.now)) }
{
    match few_digits(bytes) {
        Some(n) => Some(n as i64),
        None => scanned_unsigned(bytes),
    }
}

// `-0` is no whole number.
#[inline(always)]
fn negative(bytes: &[u8]) -> Option<i64>
    ensures { result ≡ option_and_then as_i64 (number_from true (scan bytes.now)) }
{
    match few_digits(bytes) {
        Some(n) if n > 0 => Some(-(n as i64)),
        _ => scanned_negative(bytes),
    }
}

#[inline(never)]
fn scanned_unsigned(bytes: &[u8]) -> Option<i64>
    ensures { result ≡ option_and_then as_i64 (number_from false (scan bytes.now)) }
{
    match Numeral::scan(bytes).to_u64() {
        Some(n) => if n <= i64::MAX as u64 {
            Some(n as i64)
        } else {
            None
        },
        None => None,
    }
}

#[inline(never)]
fn scanned_negative(bytes: &[u8]) -> Option<i64>
    ensures { result ≡ option_and_then as_i64 (number_from true (scan bytes.now)) }
{
    match Numeral::scan(bytes).to_i64(true) {
        Some(n) => if n < 0 { Some(n) } else { None },
        None => None,
    }
}

// Whether the number that a token writes is in the range of the floats.
#[inline(always)]
pub(crate) fn is_in_range(text: &str) -> bool
    ensures { result ≡ is_some (number_of text.now) }
{
    let bytes = text.as_bytes();
    if has_minus(bytes) {
        is_negative_in_range(&bytes[1..])
    } else {
        is_unsigned_in_range(bytes)
    }
}

// Few digits need no float.
#[inline(always)]
fn is_unsigned_in_range(bytes: &[u8]) -> bool
    ensures { result ≡ is_some (number_from false (scan bytes.now)) }
{
    match few_digits(bytes) {
        Some(_) => true,
        None => is_scanned_unsigned_in_range(bytes),
    }
}

#[inline(always)]
fn is_negative_in_range(bytes: &[u8]) -> bool
    ensures { result ≡ is_some (number_from true (scan bytes.now)) }
{
    match few_digits(bytes) {
        Some(n) if n > 0 => true,
        _ => is_scanned_negative_in_range(bytes),
    }
}

#[inline(never)]
fn is_scanned_unsigned_in_range(bytes: &[u8]) -> bool
    ensures { result ≡ is_some (number_from false (scan bytes.now)) }
{
    let numeral = Numeral::scan(bytes);
    numeral.to_u64().is_some() || is_finite(false, &numeral)
}

#[inline(never)]
fn is_scanned_negative_in_range(bytes: &[u8]) -> bool
    ensures { result ≡ is_some (number_from true (scan bytes.now)) }
{
    let numeral = Numeral::scan(bytes);
    match numeral.to_i64(true) {
        Some(n) if n < 0 => true,
        _ => is_finite(true, &numeral),
    }
}

#[inline(always)]
fn is_finite(negative: bool, numeral: &Numeral<'_>) -> bool
    ensures { result ≡ is_some (float_of negative numeral.now) }
{
    numeral.to_float::<f64>(negative).is_finite()
}

// The number that 1 to 18 digits write, where nothing else stands there.
#[inline(always)]
fn few_digits(bytes: &[u8]) -> Option<u64>
    ensures { IfSome result
        (λ n. IsNumeral 10 bytes.now × (n ≡ digits_value 10 bytes.now) × (n < 10 ^ 18)) }
{
    if bytes.is_empty() || bytes.len() > 18 {
        return None;
    }
    let mut value = 0u64;
    for byte in bytes {
        let byte = *byte;
        if byte < b'0' || byte > b'9' {
            return None;
        }
        value = value * 10 + (byte - b'0') as u64;
    }
    Some(value)
}

#[inline(always)]
fn has_minus(bytes: &[u8]) -> bool
    ensures value { result ≡ (slice_index bytes.now 0 == 45) }
    ensures len { IsTrue result → 0 < length bytes.now }
{
    !bytes.is_empty() && bytes[0] == b'-'
}
