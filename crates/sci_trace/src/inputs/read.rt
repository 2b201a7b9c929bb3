ghost use Rattle.std.specs.Prelude.{◌≡◌, Ok, Err, Some, None, IfOk, IfErr, OnOk, map, not};
ghost use Rattle.std.specs.List.{position};
ghost use Rattle.serde_json.specs.View.{view, items_view};
ghost use Rattle.sci_base.specs.Fit.{in_range};
ghost use Rattle.sci_base.specs.Plain.{of_the_whole, violation_of};
ghost use Rattle.sci_json.specs.Field.{wholes};
ghost use Rattle.sci_trace.specs.Columns.{columns_view, needed_of, column_at};
ghost use Rattle.sci_trace.specs.Reading.{shaped, whole_list, whole_lists, columns_of, greatest, outside, first_outside, judge_columns, judge_value, IsRead};
ghost use Rattle.sci_base.specs.Stops.{Stops, IsFound};

use crate::inputs::inputs::{Inputs, Need};
use sci_base::{Refusal, Rule, Stop, Ty};
use serde_json::Value;
use std::alloc::Global;

/// The file is no list of lists of whole numbers.
fn ill_shaped(alloc: Global) -> Refusal
    ensures { violation_of result ≡ of_the_whole Rule.InputShape }
{
    Refusal::of_the_whole(alloc, Rule::InputShape)
}

#[tactic(auto, using(crate::proofs::Reading::shape_refused))]
fn whole_numbers(alloc: Global, items: &[Value]) -> Result<Vec<i64>, Stop>
    ensures ok { IfOk result (λ xs. wholes (items_view items.now) ≡ Some xs.items) }
    ensures stop { IfErr result (λ e. Stops (shaped (wholes (items_view items.now))) e) }
{
    let mut xs = Vec::new(alloc);
    for item in items {
        let Some(n) = item.as_i64() else {
            return Err(Stop::Refused(ill_shaped(alloc)));
        };
        xs.push(n)?;
    }
    Ok(xs)
}

#[tactic(auto, using(crate::proofs::Reading::shape_refused))]
fn whole_list(alloc: Global, v: &Value) -> Result<Vec<i64>, Stop>
    ensures ok { IfOk result (λ xs. whole_list (view v.now) ≡ Some xs.items) }
    ensures stop { IfErr result (λ e. Stops (shaped (whole_list (view v.now))) e) }
{
    match v.as_array() {
        None => Err(Stop::Refused(ill_shaped(alloc))),
        Some(items) => whole_numbers(alloc, items.as_slice()),
    }
}

#[tactic(auto, using(crate::proofs::Reading::shape_refused))]
fn whole_lists(alloc: Global, items: &[Value]) -> Result<Vec<Vec<i64>>, Stop>
    ensures ok { IfOk result (λ cs. whole_lists (items_view items.now) ≡ Some (columns_view cs.items)) }
    ensures stop { IfErr result (λ e. Stops (shaped (whole_lists (items_view items.now))) e) }
{
    let mut columns = Vec::new(alloc);
    for item in items {
        columns.push(whole_list(alloc, item)?)?;
    }
    Ok(columns)
}

#[tactic(auto, using(crate::proofs::Reading::shape_refused))]
fn columns_of(alloc: Global, v: &Value) -> Result<Vec<Vec<i64>>, Stop>
    ensures ok { IfOk result (λ cs. columns_of (view v.now) ≡ Some (columns_view cs.items)) }
    ensures stop { IfErr result (λ e. Stops (shaped (columns_of (view v.now))) e) }
{
    match v.as_array() {
        None => Err(Stop::Refused(ill_shaped(alloc))),
        Some(items) => whole_lists(alloc, items.as_slice()),
    }
}

fn greatest(need: &[Need]) -> u32
    ensures { result ≡ greatest (map needed_of need.now) }
{
    let mut most = 0;
    for n in need {
        most = most.max(n.column);
    }
    most
}

/// The refusal by a rule at a place, with these numbers.
#[tactic(auto, using(crate::proofs::Reading::found))]
fn numbered(alloc: Global, rule: Rule, at: &[u32], detail: &[i64]) -> Stop
    ensures { IsFound (Some (record { rule = rule; place = at.now; detail = detail.now })) result }
{
    Stop::by(alloc, rule, at, detail)
}

/// The first value that is outside the type.
fn first_wrong(ty: Ty, values: &[i64]) -> Option<usize>
    ensures { result ≡ position (λ v. not (in_range ty v)) values.now }
{
    values.iter().position(|v| !ty.holds(*v))
}

/// The values of column k, counted from 1; none where there is no such column.
fn column_at(columns: &[Vec<i64>], k: u32) -> &[i64]
    ensures { result.now ≡ column_at (columns_view columns.now) k }
{
    if k == 0 {
        return &[];
    }
    match columns.get((k - 1) as usize) {
        None => &[],
        Some(column) => column.as_slice(),
    }
}

fn within_type(alloc: Global, n: &Need, values: &[i64]) -> Result<(), Stop>
    ensures ok { OnOk result (outside (needed_of n.now) values.now ≡ None) }
    ensures stop { IfErr result (λ e. IsFound (outside (needed_of n.now) values.now) e) }
{
    match first_wrong(n.ty, values) {
        None => Ok(()),
        Some(i) => {
            let detail = [i64::from(n.column), i as i64 + 1, values[i]];
            Err(numbered(alloc, Rule::InputRange, n.place.path.as_slice(), &detail))
        }
    }
}

fn within_types(alloc: Global, columns: &[Vec<i64>], need: &[Need]) -> Result<(), Stop>
    ensures ok { OnOk result (first_outside (map needed_of need.now) (columns_view columns.now) ≡ None) }
    ensures stop { IfErr result (λ e. IsFound (first_outside (map needed_of need.now) (columns_view columns.now)) e) }
{
    for n in need {
        within_type(alloc, n, column_at(columns, n.column))?;
    }
    Ok(())
}

#[tactic(auto, using(crate::proofs::Reading::stops_columns))]
fn judged(alloc: Global, columns: Vec<Vec<i64>>, need: &[Need]) -> Result<Inputs, Stop>
    ensures ok { IfOk result (λ r. judge_columns (map needed_of need.now) (columns_view columns.items) ≡ Ok r) }
    ensures stop { IfErr result (λ e. Stops (judge_columns (map needed_of need.now) (columns_view columns.items)) e) }
{
    let needed = greatest(need);
    let found = columns.len();
    if found < needed as usize {
        let detail = [i64::from(needed), found as i64];
        return Err(numbered(alloc, Rule::InputShape, &[], &detail));
    }
    within_types(alloc, columns.as_slice(), need)?;
    Ok(Inputs::of(columns))
}

#[tactic(auto, using(sci_base::proofs::Stopping::stops_then))]
fn read_value(alloc: Global, v: &Value, need: &[Need]) -> Result<Inputs, Stop>
    ensures ok { IfOk result (λ r. judge_value (map needed_of need.now) (view v.now) ≡ Ok r) }
    ensures stop { IfErr result (λ e. Stops (judge_value (map needed_of need.now) (view v.now)) e) }
{
    let columns = columns_of(alloc, v)?;
    judged(alloc, columns, need)
}

/// Reads the columns of an input file, for blocks that need these of them. Refused are bytes that are no JSON list of lists of whole
/// numbers that fit an `i64` (rule 27, without detail); then fewer columns than the greatest that is needed (rule 27, with the two
/// numbers); then, by the order of `need`, the first value of a needed column that is outside its type (rule 28, at the place of the
/// block, with the column, the value's position from 1, and the value). Columns that nobody needs may hold any numbers of an `i64`.
pub fn read_inputs(alloc: Global, bytes: &[u8], need: &[Need]) -> Result<Inputs, Stop>
    ensures { IsRead bytes.now (map needed_of need.now) result }
{
    match Value::from_slice(alloc, bytes) {
        Ok(v) => read_value(alloc, &v, need),
        Err(e) => if e.is_memory() {
            Err(Stop::Memory)
        } else {
            Err(Stop::Refused(ill_shaped(alloc)))
        },
    }
}
