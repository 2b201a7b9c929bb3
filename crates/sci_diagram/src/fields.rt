ghost use Rattle.std.specs.Prelude.{◌≡◌, ◌≤◌, Ok, IfOk, IfErr, pos, string_bytes, ◌<◌, ◌^◌};
ghost use Rattle.std.specs.List.{list_all};
ghost use Rattle.serde_json.specs.Find.{as_str};
ghost use Rattle.sci_json.specs.View.{view};
ghost use Rattle.sci_json.specs.Field.{field, as_ints};
ghost use Rattle.sci_diagram.specs.Names.{name_of};
ghost use Rattle.sci_diagram.specs.Tree.{missing, wrong, too_deep, required, optional, small_list, is_small};
ghost use Rattle.sci_base.specs.Stops.{IsViolation, Stops};
ghost use Rattle.sci_diagram.specs.Count.{too_many};

use crate::table::Fields;
use sci_base::{Rule, Stop, limits};
use sci_json::FieldStop;
use std::alloc::Global;

/// The refusal of a field that must be there.
pub(crate) fn missing(alloc: Global, at: &[u32], code: u32) -> Stop
    ensures { IsViolation (missing at.now (pos code)) result }
{
    Stop::by(alloc, Rule::MissingField, at, &[i64::from(code)])
}

/// The refusal of a field that has not its form.
pub(crate) fn wrong(alloc: Global, at: &[u32], code: u32) -> Stop
    ensures { IsViolation (wrong at.now (pos code)) result }
{
    Stop::by(alloc, Rule::WrongField, at, &[i64::from(code)])
}

#[inline(always)]
pub(crate) fn required_text(
    alloc: Global,
    v: &Fields<'_, '_, '_>,
    code: u32,
    at: &[u32],
) -> Result<String, Stop>
    requires first { 1 ≤ code }
    requires last { code ≤ 21 }
    ensures ok { IfOk result
        (λ s. required at.now (pos code) (field as_str (name_of code) (view v.now)) ≡ Ok (string_bytes s)) }
    ensures stop { IfErr result
        (λ e. Stops (required at.now (pos code) (field as_str (name_of code) (view v.now))) e) }
{
    match v.get(code) {
        None => Err(missing(alloc, at, code)),
        Some(found) => match sci_json::text_of(alloc, found) {
            Ok(s) => Ok(s),
            Err(FieldStop::Memory) => Err(Stop::Memory),
            Err(_) => Err(wrong(alloc, at, code)),
        },
    }
}

#[inline(always)]
pub(crate) fn optional_ints(
    alloc: Global,
    v: &Fields<'_, '_, '_>,
    code: u32,
    at: &[u32],
) -> Result<Vec<i64>, Stop>
    requires first { 1 ≤ code }
    requires last { code ≤ 21 }
    ensures ok { IfOk result
        (λ xs. optional at.now (pos code) (field as_ints (name_of code) (view v.now)) ≡ Ok xs.items) }
    ensures stop { IfErr result
        (λ e. Stops (optional at.now (pos code) (field as_ints (name_of code) (view v.now))) e) }
{
    match v.get(code) {
        None => Ok(Vec::new(alloc)),
        Some(found) => match sci_json::ints_of(alloc, found) {
            Ok(xs) => Ok(xs),
            Err(FieldStop::Memory) => Err(Stop::Memory),
            Err(_) => Err(wrong(alloc, at, code)),
        },
    }
}

pub(crate) fn is_small(n: i64) -> bool
    ensures { result ≡ is_small n }
{
    n >= -2147483648 && n < 2147483648
}

#[inline(always)]
pub(crate) fn small_ints(
    alloc: Global,
    v: &Fields<'_, '_, '_>,
    code: u32,
    at: &[u32],
) -> Result<Vec<i64>, Stop>
    requires first { 1 ≤ code }
    requires last { code ≤ 21 }
    ensures ok { IfOk result (λ xs. small_list at.now (pos code) (name_of code) (view v.now) ≡ Ok xs.items) }
    ensures stop { IfErr result (λ e. Stops (small_list at.now (pos code) (name_of code) (view v.now)) e) }
{
    let xs = optional_ints(alloc, v, code, at)?;
    if !all_small(xs.as_slice()) {
        return Err(wrong(alloc, at, code));
    }
    Ok(xs)
}

fn all_small(xs: &[i64]) -> bool
    ensures { result ≡ list_all is_small xs.now }
{
    xs.iter().all(|n| is_small(*n))
}

/// The refusal of a diagram past the last level.
pub(crate) fn too_deep(alloc: Global, at: &[u32]) -> Stop
    ensures { IsViolation (too_deep at.now) result }
{
    Stop::by(alloc, Rule::TooDeep, at, &[i64::from(limits::LEVELS)])
}

/// The refusal of a count.
pub(crate) fn too_many(alloc: Global, rule: Rule, count: u64) -> Stop
    requires { count < 2 ^ 63 }
    ensures { IsViolation (too_many rule count) result }
{
    Stop::by(alloc, rule, &[], &[count as i64])
}
