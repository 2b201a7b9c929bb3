// Old and new values of all signals, by pages of 32 of which some are marked: those of the others are the same.

ghost use Rattle.std.specs.Prelude.{◌≡◌, ℕ, ◌≤◌, ◌<◌, ◌*◌, ◌/◌, ◌^◌, ◌+◌, ◌++◌, min, take, drop, length, slice_index_or, IfOk, All, true, false};
ghost use Rattle.sci_base.specs.declared.limits.TheConstants.{ALL_ELEMENTS};
ghost use Rattle.sci_io.specs.Taken.{Writes};
ghost use Rattle.sci_text.specs.Lines.{joined};
ghost use Rattle.sci_vcd.specs.Spelling.{change_lines};
ghost use Rattle.sci_vcd.specs.Writing.{changes_at, changes_within, told_behind, page_end, settled, AreMarked};

use crate::put::{TEXT, change_before, next_tick_before, text_from};
use crate::signal_lines::SignalLines;
use sci_io::{Failed, Sink};

pub const PAGE: usize = 32;

/// The place behind the last value of a page.
fn page_end(page: usize, count: usize) -> usize
    requires within { page * 32 ≤ count }
    requires few { count ≤ ALL_ELEMENTS }
    ensures { result ≡ page_end page count }
{
    count.min(page * PAGE + PAGE)
}

/// The lines of the changes of a page at a tick that is told, at the end of a text.
fn changes_before(
    text: &mut [u8; TEXT],
    signals: &SignalLines,
    old: &[i64],
    new: &[i64],
    page: usize,
) -> usize
    requires few { length signals.now ≤ ALL_ELEMENTS }
    requires old { length old.now ≡ length signals.now }
    requires new { length new.now ≡ length signals.now }
    requires within { page * 32 ≤ length signals.now }
    ensures text { (t : ℕ) → drop result text.new
        ≡ joined (change_lines signals.now t (changes_within t (page * 32) (page_end page (length signals.now)) old.now new.now)) }
    ensures room { 22 ≤ result }
    ensures start { result ≤ 1856 }
{
    let start = page * PAGE;
    let end = page_end(page, old.len());
    let mut at = TEXT;
    for turn in 0..end - start {
        let place = end - 1 - turn;
        at = change_before(text, at, signals, place, old[place], new[place]);
    }
    at
}

/// Writes the changes of a page at a tick, where `told` is the tick that was told last; and tells that behind them.
fn put_page<S: Sink>(
    signals: &SignalLines,
    old: &[i64],
    new: &[i64],
    page: usize,
    told: u64,
    tick: u64,
    out: &mut S,
) -> Result<u64, Failed>
    requires few { length signals.now ≤ ALL_ELEMENTS }
    requires old { length old.now ≡ length signals.now }
    requires new { length new.now ≡ length signals.now }
    requires within { page * 32 ≤ length signals.now }
    ensures written { Writes (S.state out.old) (S.state out.new) (joined
        (change_lines signals.now told (changes_within tick (page * 32) (page_end page (length signals.now)) old.now new.now))) result }
    ensures told { IfOk result (λ t. t ≡ told_behind told (changes_within tick (page * 32) (page_end page (length signals.now)) old.now new.now)) }
{
    let mut text = [0; TEXT];
    let at = changes_before(&mut text, signals, old, new, page);
    if at == TEXT {
        return Ok(told);
    }
    let start = next_tick_before(&mut text, at, told, tick);
    out.put(text_from(&text, start))?;
    Ok(tick)
}

/// The same, of a page that may not be marked.
fn put_any_page<S: Sink>(
    signals: &SignalLines,
    old: &[i64],
    new: &[i64],
    marked: &[bool],
    page: usize,
    told: u64,
    tick: u64,
    out: &mut S,
) -> Result<u64, Failed>
    requires few { length signals.now ≤ ALL_ELEMENTS }
    requires old { length old.now ≡ length signals.now }
    requires new { length new.now ≡ length signals.now }
    requires marked { AreMarked old.now new.now marked.now }
    requires page { page < length marked.now }
    ensures written { Writes (S.state out.old) (S.state out.new) (joined
        (change_lines signals.now told (changes_within tick (page * 32) (page_end page (length signals.now)) old.now new.now))) result }
    ensures told { IfOk result (λ t. t ≡ told_behind told (changes_within tick (page * 32) (page_end page (length signals.now)) old.now new.now)) }
{
    if !marked[page] {
        return Ok(told);
    }
    put_page(signals, old, new, page, told, tick, out)
}

/// Writes all changes at a tick, where `told` is the tick that was told last.
pub fn put_changes<S: Sink>(
    signals: &SignalLines,
    old: &[i64],
    new: &[i64],
    marked: &[bool],
    told: u64,
    tick: u64,
    out: &mut S,
) -> Result<(), Failed>
    requires few { length signals.now ≤ ALL_ELEMENTS }
    requires old { length old.now ≡ length signals.now }
    requires new { length new.now ≡ length signals.now }
    requires marked { AreMarked old.now new.now marked.now }
    ensures { Writes (S.state out.old) (S.state out.new) (joined (change_lines signals.now told (changes_at tick 1 old.now new.now))) result }
{
    let mut last = told;
    for page in 0..marked.len() {
        last = put_any_page(signals, old, new, marked, page, last, tick, out)?;
    }
    Ok(())
}

/// Puts values in place of others, from a place on.
pub fn note_from(noted: &mut [i64], start: usize, values: &[i64])
    requires { start + length values.now ≤ length noted.old }
    ensures { noted.new ≡ take start noted.old ++ (values.now ++ drop (start + length values.now) noted.old) }
{
    noted[start..start + values.len()].copy_from_slice(values);
}

/// Marks the pages of the values from one place to before another.
pub fn mark_pages(marked: &mut [bool], start: usize, end: usize)
    requires order { start ≤ end }
    requires within { end ≤ 32 * length marked.old }
    requires small { 32 * length marked.old < 2 ^ 32 }
    ensures marked { (k : ℕ) → start ≤ k → k < end → slice_index_or marked.new (k / 32) false ≡ true }
    ensures kept { (page : ℕ) → slice_index_or marked.new page false ≡ false → slice_index_or marked.old page false ≡ false }
    ensures len { length marked.new ≡ length marked.old }
{
    for page in start / PAGE..(end + PAGE - 1) / PAGE {
        marked[page] = true;
    }
}

/// The new values of a page in place of the old.
fn settle_page(old: &mut [i64], new: &[i64], page: usize)
    requires few { length old.old ≤ ALL_ELEMENTS }
    requires one_each { length new.now ≡ length old.old }
    requires within { page * 32 ≤ length old.old }
    ensures { old.new ≡ settled old.old new.now (page * 32) (page_end page (length old.old)) }
{
    let start = page * PAGE;
    let end = page_end(page, old.len());
    old[start..end].copy_from_slice(&new[start..end]);
}

/// All new values in place of the old; no page is marked then.
pub fn settle(old: &mut [i64], new: &[i64], marked: &mut [bool])
    requires few { length old.old ≤ ALL_ELEMENTS }
    requires one_each { length new.now ≡ length old.old }
    requires marked { AreMarked old.old new.now marked.old }
    ensures old { old.new ≡ new.now }
    ensures marked { length marked.new ≡ length marked.old }
    ensures unmarked { All (λ m. m ≡ false) marked.new }
{
    for page in 0..marked.len() {
        if marked[page] {
            settle_page(old, new, page);
            marked[page] = false;
        }
    }
}
