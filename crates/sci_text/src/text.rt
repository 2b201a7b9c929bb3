// Texts and numbers that stand in front.

ghost use Rattle.std.specs.Prelude.{◌≡◌, ◌<◌, ◌≤◌, ◌^◌, length, take, drop, IfSome, IfNone};
ghost use Rattle.std.specs.Option.{option_map};
ghost use Rattle.sci_text.specs.Reading.{after};
ghost use Rattle.sci_text.specs.Numbers.{digits_front, digits_rest, read_on, number_at};

/// What stands after the text, where it stands in front.
pub fn after_text<'a>(bytes: &'a [u8], text: &[u8]) -> Option<&'a [u8]>
    ensures { option_map (λ r. r.now) result ≡ after text.now bytes.now }
{
    bytes.strip_prefix(text)
}

/// How many decimal digits stand in front.
pub fn digits_len(bytes: &[u8]) -> usize
    ensures within { result ≤ length bytes.now }
    ensures front { take result bytes.now ≡ digits_front bytes.now }
    ensures rest { drop result bytes.now ≡ digits_rest bytes.now }
{
    let mut len = 0;
    while len < bytes.len() && bytes[len].is_ascii_digit() {
        len += 1;
    }
    len
}

/// The number of these digits, where it is below 2^63; in part above that.
fn value_of(digits: &[u8]) -> Option<u64>
    ensures some { IfSome result (λ n. n ≡ read_on 0 digits.now) }
    ensures none { IfNone result (2 ^ 63 ≤ read_on 0 digits.now) }
{
    let mut value: u64 = 0;
    for digit in digits {
        if value > 922_337_203_685_477_580 {
            return None;
        }
        value = value * 10 + u64::from(digit.saturating_sub(48));
    }
    Some(value)
}

/// The number that stands in front, where it is below the limit and has no zero in front of another digit, and what stands behind it. The
/// limit is at most 2^63.
#[tactic(auto, unfolding(crate::specs::Numbers::number_at))]
pub fn number(limit: u64, bytes: &[u8]) -> Option<(u64, &[u8])>
    requires { limit ≤ 2 ^ 63 }
    ensures read { option_map (λ x. (x.0, x.1.now)) result ≡ number_at limit bytes.now }
    ensures below { IfSome result (λ x. x.0 < limit) }
{
    let len = digits_len(bytes);
    let (digits, rest) = bytes.split_at(len);
    if len == 0 || len > 1 && digits[0] == b'0' {
        return None;
    }
    let value = value_of(digits)?;
    if value < limit {
        Some((value, rest))
    } else {
        None
    }
}
