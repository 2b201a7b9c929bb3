// LOGICAL_OP on truths, and LOGIC.
ghost use Rattle.std.specs.Prelude.{◌≡◌, ◌<◌, ◌≤◌, ◌+◌, ◌*◌, ◌^◌, true, [], unwrap_or, option_map, length, pos, IfSome};
ghost use Rattle.sci_base.specs.declared.limits.TheConstants.{PORTS};
ghost use Rattle.sci_forms.specs.declared.Kind.TheVariants.{Logic as LogicKind};
ghost use Rattle.sci_forms.specs.Typed.{typed};
ghost use Rattle.sci_ranges_base.specs.Cells.{nothing, valued};
ghost use Rattle.sci_ranges_rules.specs.Rules.{cells_of};
ghost use Rattle.sci_forms.specs.Words.{param, size};
ghost use Rattle.sci_kinds.specs.Table.{truth, logical};
ghost use Rattle.sci_ranges_rules.specs.Words.{truth_range, logical_range, input_range, sums, allows, may_be_digit};
ghost use Rattle.sci_ranges_base.specs.Intervals.{from_to, one};

use crate::choices::if_so;
use crate::words::{input_range, is_only, range_at, truth};
use sci_kinds::Spec;
use sci_ranges_base::{Cells, Interval, join};

/// How many truths there are, at least and at most.
#[derive(Clone, Copy, Drop)]
struct TruthCounts {
    sure: usize,
    may: usize,
}

/// The truths of one interval: of one that doesn't have 0 one truth is sure, of any but 0 alone one may be.
fn truth_counts(i: Interval) -> TruthCounts
    ensures range { from_to (pos result.sure) (pos result.may) ≡ truth_range i }
    ensures order { result.sure ≤ result.may }
    ensures few { result.may ≤ 1 }
{
    if is_only(i, 0) {
        TruthCounts { sure: 0, may: 0 }
    } else if i.has(0) {
        TruthCounts { sure: 0, may: 1 }
    } else {
        TruthCounts { sure: 1, may: 1 }
    }
}

/// Whether an operation is true where `count` of `n` are: AND, OR, NAND, NOR, exclusive OR, NOT by their codes.
fn logical(op: i64, n: usize, count: usize) -> bool
    ensures { result ≡ logical op n count }
{
    match op {
        0 => count == n,
        1 => 0 < count,
        2 => count != n,
        3 => count == 0,
        4 => count % 2 == 1,
        _ => count == 0,
    }
}

/// How many inputs are true at an element.
fn true_inputs(spec: &Spec, ins: &[Option<Interval>], e: usize) -> Option<TruthCounts>
    requires is_typed { typed spec.now ≡ true }
    requires few { length spec.now.ins ≤ PORTS }
    requires element { e < size spec.now }
    ensures value { option_map (λ c. from_to (pos c.sure) (pos c.may)) result
        ≡ sums (λ k. option_map truth_range (input_range (size spec.now) ins.now k e)) (length spec.now.ins) }
    ensures order { IfSome result (λ c. (c.sure ≤ c.may) × (c.may ≤ PORTS)) }
{
    let mut sure = 0;
    let mut may = 0;
    for k in 0..spec.ins.len() {
        let i = input_range(spec, ins, k, e)?;
        let more = truth_counts(i);
        sure += more.sure;
        may += more.may;
    }
    Some(TruthCounts { sure, may })
}

/// The operation where so many are true, as a truth.
fn logical_truth(op: i64, n: usize, count: usize) -> Interval
    ensures { result ≡ one (truth (logical op n count)) }
{
    Interval::one(truth(logical(op, n, count)))
}

/// The operation where of `n` so many are true, from a least to a greatest count.
fn logical_range(op: i64, n: usize, sure: usize, may: usize) -> Interval
    requires order { sure ≤ may }
    requires few { may ≤ PORTS }
    ensures { result ≡ logical_range op n (from_to (pos sure) (pos may)) }
{
    let mut all = logical_truth(op, n, sure);
    for more in 1..may - sure + 1 {
        all = all.hull(logical_truth(op, n, sure + more));
    }
    all
}

/// The operation on the truths of the inputs.
pub fn logical_truths(spec: &Spec, ins: &[Option<Interval>], e: usize) -> Option<Cells>
    requires is_typed { typed spec.now ≡ true }
    requires few { length spec.now.ins ≤ PORTS }
    requires element { e < size spec.now }
    ensures { unwrap_or result nothing ≡ valued (option_map (logical_range (param spec.now 0) (length spec.now.ins))
        (sums (λ k. option_map truth_range (input_range (size spec.now) ins.now k e)) (length spec.now.ins))) }
{
    let counts = true_inputs(spec, ins, e)?;
    let op = spec.params.at(0);
    let n = spec.ins.len();
    let range = logical_range(op, n, counts.sure, counts.may);
    Some(Cells::of(range))
}

/// Whether an input may have this truth.
fn may_be_digit(input: Option<Interval>, digit: usize) -> bool
    ensures { result ≡ may_be_digit input (pos digit) }
{
    match input {
        Some(i) => {
            let counts = truth_counts(i);
            counts.sure <= digit && digit <= counts.may
        }
        None => false,
    }
}

/// Whether these truths of `n` inputs, the last one the last digit, are possible.
fn allows(ins: &[Option<Interval>], n: usize, row: usize) -> bool
    ensures { result ≡ allows ins.now n row }
{
    let mut digits = row;
    for k in 0..n {
        if may_be_digit(range_at(ins, n - 1 - k), digits % 2) {
            digits /= 2;
        } else {
            return false;
        }
    }
    true
}

/// How many rows `n` truths have.
fn rows(n: usize) -> usize
    requires { n ≤ 8 }
    ensures { result ≡ 2 ^ n }
{
    1 << n
}

/// The truth that a row of the table has for output `e`.
fn row_truth(spec: &Spec, row: usize, e: usize) -> Interval
    requires rows { row < 256 }
    requires outs { length spec.now.outs ≤ 8 }
    requires element { e < length spec.now.outs }
    ensures { result ≡ one (param spec.now (row * length spec.now.outs + e)) }
{
    let place = row * spec.outs.len() + e;
    Interval::one(spec.params.at(place))
}

pub fn logic(spec: &Spec, ins: &[Option<Interval>], e: usize) -> Option<Cells>
    requires kind { spec.now.kind ≡ LogicKind }
    requires is_typed { typed spec.now ≡ true }
    requires element { e < length spec.now.outs }
    ensures { unwrap_or result nothing ≡ cells_of LogicKind spec.now [] [] ins.now e }
{
    let n = spec.ins.len();
    let mut all = None;
    for row in 0..rows(n) {
        let chosen = allows(ins, n, row);
        let value = row_truth(spec, row, e);
        all = join(all, if_so(chosen, Some(value)));
    }
    Some(Cells::valued(all))
}
