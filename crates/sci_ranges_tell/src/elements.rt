// What the elements of a block's outputs show and hold.
ghost use Rattle.std.specs.Prelude.{◌≡◌, ◌+◌, ◌<◌, ◌≤◌, ◌∷◌, [], length, pos, codes, if◌then◌else◌, Some};
ghost use Rattle.sci_base.specs.declared.limits.TheConstants.{PORTS, ALL_ELEMENTS};
ghost use Rattle.sci_forms.specs.Ports.{port_at, elements, total};
ghost use Rattle.sci_io.specs.Taken.{Writes};
ghost use Rattle.sci_net.specs.Parts.{spec_of};
ghost use Rattle.sci_ranges_text.specs.Text.{interval_line, same_interval, shown_text, held_text, element_text, elements_text, block_text};
ghost use Rattle.sci_ranges_tell.specs.Told.{plain_table};
ghost use Rattle.sci_ranges_find.specs.View.{ranges_of};

use crate::lines::{Place, put_line};
use sci_io::{Failed, Sink};
use sci_net::Net;
use sci_ranges_base::Interval;
use sci_ranges_find::RangeTable;

/// A line with a place and the ends of an interval.
fn put_range<S: Sink>(word: &str, place: Place, i: Interval, out: &mut S) -> Result<(), Failed>
    requires { 0 < length word.now }
    ensures { Writes (S.state out.old) (S.state out.new) (interval_line word.now (pos place.block ∷ pos place.port ∷ pos place.element ∷ []) i) result }
{
    put_line(
        word,
        &[
            i64::from(place.block),
            i64::from(place.port),
            i64::from(place.element),
            i.least,
            i.greatest,
        ],
        out,
    )
}

fn put_shown<S: Sink>(place: Place, shown: Option<Interval>, out: &mut S) -> Result<(), Failed>
    ensures { Writes (S.state out.old) (S.state out.new) (shown_text (pos place.block ∷ pos place.port ∷ pos place.element ∷ []) shown) result }
{
    match shown {
        None => Ok(()),
        Some(i) => put_range("range", place, i, out),
    }
}

fn is_same(one: Interval, other: Interval) -> bool
    ensures { result ≡ same_interval one other }
{
    one.least == other.least && one.greatest == other.greatest
}

/// What is held, where it isn't what is shown.
fn put_other<S: Sink>(
    place: Place,
    shown: Interval,
    held: Interval,
    out: &mut S,
) -> Result<(), Failed>
    ensures { Writes (S.state out.old) (S.state out.new) (if same_interval shown held then []
        else interval_line (codes "held") (pos place.block ∷ pos place.port ∷ pos place.element ∷ []) held) result }
{
    if is_same(shown, held) {
        Ok(())
    } else {
        put_range("held", place, held, out)
    }
}

fn put_held_as<S: Sink>(
    place: Place,
    shown: Option<Interval>,
    held: Interval,
    out: &mut S,
) -> Result<(), Failed>
    ensures { Writes (S.state out.old) (S.state out.new) (held_text (pos place.block ∷ pos place.port ∷ pos place.element ∷ []) shown (Some held)) result }
{
    match shown {
        None => put_range("held", place, held, out),
        Some(i) => put_other(place, i, held, out),
    }
}

fn put_held<S: Sink>(
    place: Place,
    shown: Option<Interval>,
    held: Option<Interval>,
    out: &mut S,
) -> Result<(), Failed>
    ensures { Writes (S.state out.old) (S.state out.new) (held_text (pos place.block ∷ pos place.port ∷ pos place.element ∷ []) shown held) result }
{
    match held {
        None => Ok(()),
        Some(h) => put_held_as(place, shown, h, out),
    }
}

/// Element `at` of all elements of a block's outputs.
fn put_element<S: Sink>(
    net: &Net,
    table: &RangeTable,
    place: Place,
    at: usize,
    out: &mut S,
) -> Result<(), Failed>
    requires least { 1 ≤ place.block }
    requires most { place.block ≤ length net.now.specs }
    requires element { at < total (spec_of net.now place.block).outs }
    ensures { Writes (S.state out.old) (S.state out.new) (element_text net.now (plain_table net.now (ranges_of table.now)) place.block place.port
        place.element at) result }
{
    let shown = table.shown(place.block, at);
    put_shown(place, shown, out)?;
    put_held(place, shown, table.held(net, place.block, at), out)
}

/// The elements of an output, of which the first is element `at` of all.
fn put_elements<S: Sink>(
    net: &Net,
    table: &RangeTable,
    block: u32,
    port: u32,
    at: usize,
    count: u32,
    out: &mut S,
) -> Result<(), Failed>
    requires least { 1 ≤ block }
    requires most { block ≤ length net.now.specs }
    requires inside { at + count ≤ total (spec_of net.now block).outs }
    requires small { total (spec_of net.now block).outs ≤ ALL_ELEMENTS }
    ensures { Writes (S.state out.old) (S.state out.new) (elements_text net.now (plain_table net.now (ranges_of table.now)) block port 1 at count) result }
{
    for e in 0..count {
        let place = Place {
            block,
            port,
            element: e + 1,
        };
        put_element(net, table, place, at + e as usize, out)?;
    }
    Ok(())
}

/// How many elements output `k` of a block has, counted from 0.
fn count_of(net: &Net, block: u32, k: usize) -> u32
    requires least { 1 ≤ block }
    requires most { block ≤ length net.now.specs }
    requires port { k < length (spec_of net.now block).outs }
    requires small { total (spec_of net.now block).outs ≤ ALL_ELEMENTS }
    ensures { result ≡ elements (port_at (spec_of net.now block).outs k) }
{
    net.spec(block).outs.port(k).elements() as u32
}

/// All elements of a block's outputs.
pub fn put_outputs<S: Sink>(
    net: &Net,
    table: &RangeTable,
    block: u32,
    out: &mut S,
) -> Result<(), Failed>
    requires least { 1 ≤ block }
    requires most { block ≤ length net.now.specs }
    requires few { length (spec_of net.now block).outs ≤ PORTS }
    requires small { total (spec_of net.now block).outs ≤ ALL_ELEMENTS }
    ensures { Writes (S.state out.old) (S.state out.new) (block_text net.now (plain_table net.now (ranges_of table.now)) block) result }
{
    let ports = net.spec(block).outs.len();
    let mut at = 0;
    for k in 0..ports {
        let count = count_of(net, block, k);
        put_elements(net, table, block, k as u32 + 1, at, count, out)?;
        at += count as usize;
    }
    Ok(())
}
