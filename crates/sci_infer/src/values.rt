// One value for each class of numbers, some of which are declared: where a class has two, and where it has none.
ghost use Rattle.std.specs.Prelude.{IsTrue, ◌↔◌, ◌≡◌, ◌≢◌, ℕ, ℤ, pos, ◌<◌, ◌<ℤ◌, List, length, Option, IfOk, IfSome, IfNone, MatchOption, All};
ghost use Rattle.std.specs.Prelude.{slice_index, slice_index_or};
ghost use Rattle.sci_infer.specs.Classes.{Joins, AreClasses, IsWithin};
ghost use Rattle.sci_infer.specs.Values.{IsSpanOf, AreSpans, IsVerdict, IsSplitAt, AreOne, IsFilled, declared_at, widened};

use crate::classes::{Tie, classes};
use sci_base::NoMemory;
use std::alloc::Global;

/// The least and the greatest of some numbers.
#[derive(Clone, Copy, Debug, Drop)]
pub struct Extremes {
    pub least: i64,
    pub greatest: i64,
}

/// What the declared numbers say.
#[derive(Drop)]
pub enum Resolution {
    /// The class of this number has two declared ones.
    Conflict(usize, Extremes),
    /// The class of this number has no declared one.
    Open(usize),
    /// The values.
    Values(Vec<i64>),
}

/// Whether a number is declared.
fn is_declared(declared: &[i64], at: usize) -> bool
    requires { at < length declared.now }
    ensures { IsTrue result ↔ (pos 0 <ℤ declared_at declared.now at) }
{
    declared[at] > 0
}

/// A span with one more number.
fn widen(span: Option<Extremes>, declared: &[i64], at: usize) -> Extremes
    requires { at < length declared.now }
    ensures { result ≡ widened span (declared_at declared.now at) }
{
    let v = declared[at];
    match span {
        None => Extremes {
            least: v,
            greatest: v,
        },
        Some(s) => Extremes {
            least: s.least.min(v),
            greatest: s.greatest.max(v),
        },
    }
}

/// The spans of the labels' declared numbers.
fn spans(
    alloc: Global,
    declared: &[i64],
    labels: &[usize],
) -> Result<Vec<Option<Extremes>>, NoMemory>
    requires length { length labels.now ≡ length declared.now }
    requires labels { (i : ℕ) → i < length labels.now → slice_index labels.now i < length labels.now }
    ensures length { IfOk result (λ v. length v.items ≡ length labels.now) }
    ensures spans { IfOk result (λ v. AreSpans declared.now labels.now (length labels.now) v.items) }
{
    let mut spans = vec![in alloc; None; labels.len()]?;
    for i in 0..labels.len() {
        if is_declared(declared, i) {
            let label = labels[i];
            spans[label] = Some(widen(spans[label], declared, i));
        }
    }
    Ok(spans)
}

/// Whether a span has one number.
fn is_one(span: &Extremes) -> bool
    ensures { IsTrue result ↔ (span.now.least ≡ span.now.greatest) }
{
    span.least == span.greatest
}

/// The first thing whose label has two declared numbers.
fn first_split(labels: &[usize], spans: &[Option<Extremes>]) -> Option<(usize, Extremes)>
    requires { (i : ℕ) → i < length labels.now → slice_index labels.now i < length spans.now }
    ensures some { IfSome result (λ r. IsSplitAt labels.now spans.now r.0 r.1) }
    ensures none { IfNone result (AreOne labels.now spans.now (length labels.now)) }
{
    for i in 0..labels.len() {
        if let Some(span) = spans[labels[i]] {
            if !is_one(&span) {
                return Some((i, span));
            }
        }
    }
    None
}

/// The values of the labels, or the first thing whose label has none.
fn fill(alloc: Global, labels: &[usize], spans: &[Option<Extremes>]) -> Result<Resolution, NoMemory>
    requires { (i : ℕ) → i < length labels.now → slice_index labels.now i < length spans.now }
    ensures { IfOk result (λ v. IsFilled labels.now spans.now v) }
{
    let mut values = Vec::new(alloc);
    for i in 0..labels.len() {
        match spans[labels[i]] {
            None => return Ok(Resolution::Open(i)),
            Some(span) => values.push(span.least)?,
        }
    }
    Ok(Resolution::Values(values))
}

/// What the declared numbers say of the classes that ties make.
pub fn judge(alloc: Global, declared: &[i64], ties: &[Tie]) -> Result<Resolution, NoMemory>
    requires { All (IsWithin (length declared.now)) ties.now }
    ensures { IfOk result (λ v. IsVerdict (Joins ties.now) declared.now v) }
{
    let labels = classes(alloc, declared.len(), ties)?;
    let spans = spans(alloc, declared, labels.as_slice())?;
    match first_split(labels.as_slice(), spans.as_slice()) {
        Some((at, span)) => Ok(Resolution::Conflict(at, span)),
        None => fill(alloc, labels.as_slice(), spans.as_slice()),
    }
}
