//! Readers of one field of a JSON value (RFC 8259). A value that is no object has no fields; of fields with one name the last
//! counts.
#![tactic(auto)]

ghost use Rattle.std.specs.Prelude.{◌≡◌, ◌≢◌, Some, None, IfOk, IfErr, MatchOption, is_some, option_and_then, if◌then◌else◌, string_bytes, ◌∷◌, []};
ghost use Rattle.serde_json.specs.Find.{as_str, as_array};
ghost use Rattle.sci_json.specs.View.{view, items_view};
ghost use Rattle.sci_base.specs.Plain.{dependence_of, feedthrough_of};
ghost use Rattle.sci_json.specs.Field.{holds, absent, field, formed, wholes, as_ints, StopsAt, entries, truths, as_feedthrough, as_dep, DepStops};
ghost use Rattle.sci_json.specs.Field.{PartStops, TruthsStop};

use crate::document::{Items, Value};
use sci_base::{Dep, DirectFeedthrough};
use std::alloc::Global;

pub mod document;

/// Why a field was not read.
#[derive(Clone, Copy, Drop)]
pub enum FieldStop {
    /// The field is absent.
    Missing,
    /// The field hasn't the form that is asked for.
    Wrong,
    /// There was no memory.
    Memory,
}

/// The items of a list. Missing where the field is absent, Wrong where it is no list.
pub fn list<'t, 'a>(v: &Value<'t, 'a>, name: &str) -> Result<Items<'t, 'a>, FieldStop>
    ensures ok { IfOk result (λ s. field as_array name.now (view v.now) ≡ holds (items_view s)) }
    ensures stop { IfErr result (λ e. StopsAt (field as_array name.now (view v.now)) e) }
    ensures no_memory { result ≢ Err FieldStop.Memory }
{
    match v.get(name) {
        None => Err(FieldStop::Missing),
        Some(found) => match found.items() {
            None => Err(FieldStop::Wrong),
            Some(items) => Ok(items),
        },
    }
}

/// A text, in a copy. Missing where the field is absent, Wrong where it is no text.
pub fn text(alloc: Global, v: &Value<'_, '_>, name: &str) -> Result<String, FieldStop>
    ensures ok { IfOk result (λ s. field as_str name.now (view v.now) ≡ holds (string_bytes s)) }
    ensures stop { IfErr result (λ e. StopsAt (field as_str name.now (view v.now)) e) }
{
    match v.get(name) {
        None => Err(FieldStop::Missing),
        Some(found) => text_of(alloc, &found),
    }
}

/// The text that a value is, in a copy. Wrong where it is no text.
pub fn text_of(alloc: Global, found: &Value<'_, '_>) -> Result<String, FieldStop>
    ensures ok { IfOk result (λ s. formed (as_str (view found.now)) ≡ holds (string_bytes s)) }
    ensures stop { IfErr result (λ e. StopsAt (formed (as_str (view found.now))) e) }
{
    match found.as_str() {
        None => Err(FieldStop::Wrong),
        Some(s) => match String::from_str(alloc, s) {
            Ok(copy) => Ok(copy),
            Err(_) => Err(FieldStop::Memory),
        },
    }
}

/// A list of whole numbers, those that fit an `i64`; a single one stands for the list of it. Missing where the field is absent,
/// Wrong where it is neither.
#[inline(always)]
pub fn ints(alloc: Global, v: &Value<'_, '_>, name: &str) -> Result<Vec<i64>, FieldStop>
    ensures ok { IfOk result (λ xs. field as_ints name.now (view v.now) ≡ holds xs.items) }
    ensures stop { IfErr result (λ e. StopsAt (field as_ints name.now (view v.now)) e) }
{
    match v.get(name) {
        None => Err(FieldStop::Missing),
        Some(found) => ints_of(alloc, &found),
    }
}

/// The list of whole numbers, those that fit an `i64`, that a value is; a single one stands for the list of it. Wrong where it is
/// neither.
pub fn ints_of(alloc: Global, found: &Value<'_, '_>) -> Result<Vec<i64>, FieldStop>
    ensures ok { IfOk result (λ xs. formed (as_ints (view found.now)) ≡ holds xs.items) }
    ensures stop { IfErr result (λ e. StopsAt (formed (as_ints (view found.now))) e) }
{
    match found.items() {
        Some(items) => whole_numbers(alloc, items),
        None => match found.as_i64() {
            None => Err(FieldStop::Wrong),
            Some(n) => one(alloc, n),
        },
    }
}

#[inline]
fn one(alloc: Global, n: i64) -> Result<Vec<i64>, FieldStop>
    ensures ok { IfOk result (λ xs. xs.items ≡ n ∷ []) }
    ensures stop { IfErr result (λ e. e ≡ FieldStop.Memory) }
{
    let mut xs = Vec::new(alloc);
    match xs.push(n) {
        Ok(()) => Ok(xs),
        Err(_) => Err(FieldStop::Memory),
    }
}

fn whole_numbers(alloc: Global, mut items: Items<'_, '_>) -> Result<Vec<i64>, FieldStop>
    ensures ok { IfOk result (λ xs. formed (wholes (items_view items.entry)) ≡ holds xs.items) }
    ensures stop { IfErr result (λ e. StopsAt (formed (wholes (items_view items.entry))) e) }
{
    let mut xs = Vec::new(alloc);
    while let Some(item) = items.next() {
        let Some(n) = item.as_i64() else {
            return Err(FieldStop::Wrong);
        };
        if xs.push(n).is_err() {
            return Err(without_memory(are_whole(items)));
        }
    }
    Ok(xs)
}

// Why a list was not read for which there was no memory: one that hasn't its form counts as wrong first.
fn without_memory(formed: bool) -> FieldStop
    ensures { result ≡ if formed then FieldStop.Memory else FieldStop.Wrong }
{
    if formed {
        FieldStop::Memory
    } else {
        FieldStop::Wrong
    }
}

fn are_whole(mut items: Items<'_, '_>) -> bool
    ensures { result ≡ is_some (wholes (items_view items.entry)) }
{
    while let Some(item) = items.next() {
        if item.as_i64().is_none() {
            return false;
        }
    }
    true
}

/// What a list of two entries says of a block: the first, a truth value or a list of truth values, which regular inputs have direct
/// feedthrough; the second, a truth value, whether the block is always active. None where the field is absent, Wrong where it is
/// anything else. Only the list of truth values takes memory.
pub fn dep(alloc: Global, v: &Value<'_, '_>, name: &str) -> Result<Option<Dep>, FieldStop>
    ensures ok { IfOk result
        (λ o. MatchOption o (field as_dep name.now (view v.now) ≡ absent)
        (λ d. field as_dep name.now (view v.now) ≡ holds (dependence_of d))) }
    ensures stop { IfErr result (λ e. DepStops (field as_dep name.now (view v.now)) e) }
{
    match v.get(name) {
        None => Ok(None),
        Some(found) => Ok(Some(dep_of(alloc, &found)?)),
    }
}

/// What a value says of a block, as `dep` has it. Wrong where it isn't such a list of two entries.
pub fn dep_of(alloc: Global, found: &Value<'_, '_>) -> Result<Dep, FieldStop>
    ensures ok { IfOk result (λ d. formed (as_dep (view found.now)) ≡ holds (dependence_of d)) }
    ensures stop { IfErr result (λ e. DepStops (formed (as_dep (view found.now))) e) }
{
    let Some((first, always)) = entries(found) else {
        return Err(FieldStop::Wrong);
    };
    let part = part_of(alloc, &first)?;
    Ok(Dep { part, always })
}

// The first of two entries, and the truth value that the second is.
fn entries<'t, 'a>(found: &Value<'t, 'a>) -> Option<(Value<'t, 'a>, bool)>
    ensures { MatchOption result (option_and_then entries (as_array (view found.now)) ≡ None)
        (λ p. option_and_then entries (as_array (view found.now)) ≡ Some (view p.0, p.1)) }
{
    let mut items = found.items()?;
    let first = items.next()?;
    let second = items.next()?;
    if items.next().is_some() {
        return None;
    }
    Some((first, second.as_bool()?))
}

fn part_of(alloc: Global, first: &Value<'_, '_>) -> Result<DirectFeedthrough, FieldStop>
    ensures ok { IfOk result (λ p. as_feedthrough (view first.now) ≡ Some (feedthrough_of p)) }
    ensures stop { IfErr result (λ e. PartStops (as_feedthrough (view first.now)) e) }
{
    match first.items() {
        Some(items) => Ok(DirectFeedthrough::Each(truths(alloc, items)?)),
        None => match first.as_bool() {
            Some(truth) => Ok(DirectFeedthrough::All(truth)),
            None => Err(FieldStop::Wrong),
        },
    }
}

fn truths(alloc: Global, mut items: Items<'_, '_>) -> Result<Vec<bool>, FieldStop>
    ensures ok { IfOk result (λ bs. truths (items_view items.entry) ≡ Some bs.items) }
    ensures stop { IfErr result (λ e. TruthsStop (truths (items_view items.entry)) e) }
{
    let mut truths = Vec::new(alloc);
    while let Some(item) = items.next() {
        let Some(truth) = item.as_bool() else {
            return Err(FieldStop::Wrong);
        };
        if truths.push(truth).is_err() {
            return Err(without_memory(are_truths(items)));
        }
    }
    Ok(truths)
}

fn are_truths(mut items: Items<'_, '_>) -> bool
    ensures { result ≡ is_some (truths (items_view items.entry)) }
{
    while let Some(item) = items.next() {
        if item.as_bool().is_none() {
            return false;
        }
    }
    true
}
