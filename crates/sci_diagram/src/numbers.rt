// The numbers of a field, looked at where they stand: no list is made of them.
ghost use Rattle.std.specs.Prelude.{◌≡◌, ◌<◌, ◌^◌};
ghost use Rattle.sci_json.specs.View.{view, items_view};
ghost use Rattle.sci_json.specs.Field.{whole, wholes};
ghost use Rattle.sci_diagram.specs.Numbers.{small_whole, all_whole, count_small, small_count, side_in, as_end, as_kind};
ghost use Rattle.sci_diagram.specs.Weight.{weight, items_weight};

use crate::diagram::End;
use crate::fields::is_small;
use sci_json::document::{Items, Value};

fn is_small_number(v: &Value<'_, '_>) -> bool
    ensures { result ≡ small_whole (whole (view v.now)) }
{
    match v.as_i64() {
        None => false,
        Some(n) => is_small(n),
    }
}

fn are_whole(mut items: Items<'_, '_>) -> bool
    ensures { result ≡ all_whole (items_view items.entry) }
{
    while let Some(item) = items.next() {
        if item.as_i64().is_none() {
            return false;
        }
    }
    true
}

fn count_items(mut items: Items<'_, '_>) -> Option<u32>
    requires light { items_weight (items_view items) < 2 ^ 32 }
    ensures { result ≡ count_small (wholes (items_view items.entry)) }
{
    let mut count = 0;
    while let Some(item) = items.next() {
        if !is_small_number(&item) {
            return None;
        }
        count += 1;
    }
    Some(count)
}

/// How many numbers from -2^31 to 2^31-1 a list has that has no others; a single one stands for the list of it. None for any other
/// value.
pub(crate) fn small_count(found: &Value<'_, '_>) -> Option<u32>
    requires light { weight (view found.now) < 2 ^ 32 }
    ensures { result ≡ small_count (view found.now) }
{
    match found.items() {
        Some(items) => count_items(items),
        None => if is_small_number(found) {
            Some(1)
        } else {
            None
        },
    }
}

/// The side of an end by the one number that is left, or else the side that it has without it. None where more is left.
fn side_of(mut items: Items<'_, '_>, side: i64) -> Option<i64>
    ensures { result ≡ side_in side (items_view items.entry) }
{
    let Some(third) = items.next() else {
        return Some(side);
    };
    if items.next().is_some() {
        return None;
    }
    third.as_i64()
}

/// The end of a link by a list of two or three whole numbers, of which the third is its side. None for any other value.
pub(crate) fn end_of(found: &Value<'_, '_>, side: i64) -> Option<End>
    ensures { result ≡ as_end side (view found.now) }
{
    let mut items = found.items()?;
    let block = items.next()?.as_i64()?;
    let port = items.next()?.as_i64()?;
    let side = side_of(items, side)?;
    Some(End { block, port, side })
}

/// The second number of a list of at least two whole numbers. None for any other value.
pub(crate) fn kind_of(found: &Value<'_, '_>) -> Option<i64>
    ensures { result ≡ as_kind (view found.now) }
{
    let mut items = found.items()?;
    let _first = items.next()?.as_i64()?;
    let kind = items.next()?.as_i64()?;
    if are_whole(items) { Some(kind) } else { None }
}
