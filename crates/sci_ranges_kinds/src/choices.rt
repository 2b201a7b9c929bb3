// SWITCH2_m, SELECT_m, ANDLOG_f, GATED_DELAY.
ghost use Rattle.sci_forms.specs.Words.{size};
ghost use Rattle.std.specs.Prelude.{◌≡◌, ◌<◌, true, [], unwrap_or, Some, pos, int_lt, int_le};
ghost use Rattle.sci_forms.specs.declared.Kind.TheVariants.{Switch2 as Switch2Kind, Select as SelectKind, AndLog as AndLogKind, GatedDelay as GatedDelayKind};
ghost use Rattle.sci_forms.specs.declared.spec.Spec.{Spec};
ghost use Rattle.sci_forms.specs.Typed.{typed};
ghost use Rattle.sci_ranges_base.specs.Intervals.{one, join};
ghost use Rattle.sci_ranges_base.specs.Cells.{nothing};
ghost use Rattle.sci_ranges_rules.specs.Rules.{cells_of};
ghost use Rattle.sci_ranges_rules.specs.Words.{may_take_first, may_take_third, if_so};

use crate::words::{input_range, is_only, range_at, size, state_range};
use sci_kinds::Spec;
use sci_ranges_base::masks::{may_be_both, may_lack_one, some_choose};
use sci_ranges_base::{Cells, Interval, Masks, join};

/// Whether a switch may take its first input: where the second is at least a number, above it, or not it, by a code.
fn may_take_first(code: i64, number: i64, i: Interval) -> bool
    ensures { result ≡ may_take_first code number i }
{
    match code {
        0 => number <= i.greatest,
        1 => number < i.greatest,
        _ => !is_only(i, number),
    }
}

/// Whether it may take the third.
fn may_take_third(code: i64, number: i64, i: Interval) -> bool
    ensures { result ≡ may_take_third code number i }
{
    match code {
        0 => i.least < number,
        1 => i.least <= number,
        _ => i.has(number),
    }
}

/// The interval, where a truth holds.
pub fn if_so(so: bool, i: Option<Interval>) -> Option<Interval>
    ensures { result ≡ if_so so i }
{
    if so { i } else { None }
}

/// The values of both inputs that may be taken.
fn switched(
    code: i64,
    number: i64,
    i: Interval,
    first: Option<Interval>,
    third: Option<Interval>,
) -> Option<Interval>
    ensures { result ≡ join (if_so (may_take_first code number i) first) (if_so (may_take_third code number i) third) }
{
    let first = if_so(may_take_first(code, number, i), first);
    let third = if_so(may_take_third(code, number, i), third);
    join(first, third)
}

pub fn switch2(spec: &Spec, ins: &[Option<Interval>], e: usize) -> Option<Cells>
    requires is_typed { typed spec.now ≡ true }
    requires element { e < size spec.now }
    ensures { unwrap_or result nothing ≡ cells_of Switch2Kind spec.now [] [] ins.now e }
{
    let n = size(spec);
    let i = range_at(ins, n)?;
    let code = spec.params.at(0);
    let number = spec.params.at(1);
    let first = range_at(ins, e);
    let third = range_at(ins, n + 1 + e);
    let all = switched(code, number, i, first, third);
    Some(Cells::valued(all))
}

pub fn select(spec: &Spec, masks: &[Masks], ins: &[Option<Interval>], e: usize) -> Option<Cells>
    requires kind { spec.now.kind ≡ SelectKind }
    requires is_typed { typed spec.now ≡ true }
    requires element { e < size spec.now }
    ensures { unwrap_or result nothing ≡ cells_of SelectKind spec.now [] masks.now ins.now e }
{
    let mut all = None;
    for k in 0..spec.evtin {
        let chosen = some_choose(masks, k);
        let i = input_range(spec, ins, k as usize, e);
        all = join(all, if_so(chosen, i));
    }
    Some(Cells::valued(all))
}

pub fn and_log(masks: &[Masks]) -> Option<Cells>
    ensures { (s : Spec) → unwrap_or result nothing ≡ cells_of AndLogKind s [] masks.now [] 0 }
{
    let both = if_so(may_be_both(masks), Some(Interval::one(1)));
    let lack = if_so(may_lack_one(masks), Some(Interval::one(-1)));
    Some(Cells::valued(join(both, lack)))
}

/// What is kept where the gate may be above 0, and 0 where it may not be.
fn gated(gate: Interval, kept: Interval) -> Option<Interval>
    ensures { result ≡ join (if_so (int_lt (pos 0) gate.greatest) (Some kept)) (if_so (int_le gate.least (pos 0)) (Some (one (pos 0)))) }
{
    let passed = if_so(0 < gate.greatest, Some(kept));
    let shut = if_so(gate.least <= 0, Some(Interval::one(0)));
    join(passed, shut)
}

pub fn gated_delay(
    spec: &Spec,
    state: &[Interval],
    ins: &[Option<Interval>],
    e: usize,
) -> Option<Cells>
    requires is_typed { typed spec.now ≡ true }
    ensures { unwrap_or result nothing ≡ cells_of GatedDelayKind spec.now state.now [] ins.now e }
{
    let n = size(spec);
    let gate = range_at(ins, n)?;
    let kept = state_range(state, e);
    let all = gated(gate, kept);
    Some(Cells::valued(all))
}
