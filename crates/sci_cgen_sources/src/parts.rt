// How blocks take part in what follows a reaction, and whether each source has a text of its own for it.
ghost use Rattle.std.specs.Prelude.{ℕ, ◌≡◌, ◌≤◌, ◌-◌, ◌&&◌, List, nat_le, if◌then◌else◌, length, slice_set, IfOk};
ghost use Rattle.sci_net.specs.Parts.{IsBlock, numbered};
ghost use Rattle.sci_net.specs.Sources.{sources_of};
ghost use Rattle.sci_reaction.specs.Kept.{guards_of, entry_of};
ghost use Rattle.sci_reaction.specs.Schedule.{Entry as PlainEntry};
ghost use Rattle.sci_sched.specs.Plain.{row_of, rows_of};
ghost use Rattle.sci_program.specs.declared.part.Part.TheVariants as variants;
ghost use Rattle.sci_program.specs.Program.{part_under as part_under_of, part_by as part_by_of, entry_part as entry_part_of, part_in};
ghost use Rattle.sci_program.specs.Program.{is_marked as is_marked_of, scheduled_count as scheduled_count_of, rows_fit as rows_fit_of, has_own as has_own_of};
ghost use Rattle.sci_cgen_base.specs.Layouts.{AreNamed, AreMarked};
ghost use Rattle.sci_cgen_sources.specs.Taking.{takes, is_absent as is_absent_of};

use sci_base::NoMemory;
use sci_cgen_base::{is_marked, row};
use sci_net::{Feed, Net};
use sci_program::Part;
use sci_sched::{Entry, Guard, Schedule};
use std::alloc::Global;

/// How blocks take part in a text: in a source's own by the entries of its row, in that for all sources where they are marked.
#[derive(Drop)]
pub(crate) struct Taking {
    own: bool,
    parts: Vec<Part>,
}

/// How a block takes part under these guards: where the branch is taken, if there is just one, and else where it is marked.
fn part_under(guards: &[Guard]) -> Part
    ensures { result ≡ part_under_of (guards_of guards.now) }
{
    if guards.len() == 1 {
        let guard = &guards[0];
        Part::Taken(Feed {
            block: guard.block,
            port: guard.port,
        })
    } else {
        Part::Marked
    }
}

/// How the block of an entry takes part in a text of its source's own.
fn part_by(net: &Net, entry: &Entry) -> Part
    requires { IsBlock net.now entry.now.block }
    ensures { result ≡ part_by_of net.now (entry_of entry.now) }
{
    if entry.always {
        Part::Sure
    } else if net.spec(entry.block).kind.reads_mask() {
        Part::Marked
    } else {
        part_under(&entry.guards)
    }
}

/// How the block of an entry takes part, in a text of its source's own or where one follows for all sources.
pub(crate) fn entry_part(own: bool, net: &Net, entry: &Entry) -> Part
    requires { IsBlock net.now entry.now.block }
    ensures { result ≡ entry_part_of own net.now (entry_of entry.now) }
{
    if own {
        part_by(net, entry)
    } else if entry.always {
        Part::Sure
    } else {
        Part::Marked
    }
}

/// Whether a block takes part where it is marked.
fn by_mark(part: Part) -> bool
    ensures { result ≡ is_marked_of part }
{
    match part {
        Part::Marked => true,
        Part::Absent | Part::Sure | Part::Taken(_) => false,
    }
}

/// Whether the call of an entry's block tests its mark.
pub(crate) fn tests_mark(own: bool, net: &Net, entry: &Entry) -> bool
    requires { IsBlock net.now entry.now.block }
    ensures { result ≡ is_marked_of (entry_part_of own net.now (entry_of entry.now)) }
{
    by_mark(entry_part(own, net, entry))
}

/// Notes how the block of an entry takes part.
fn note(parts: &mut Vec<Part>, net: &Net, entry: &Entry)
    requires block { IsBlock net.now entry.now.block }
    requires within { entry.now.block ≤ length parts.old.items }
    ensures { parts.new.items ≡ slice_set parts.old.items (entry.now.block - 1) (part_by_of net.now (entry_of entry.now)) }
{
    let at = entry.block as usize - 1;
    parts[at] = part_by(net, entry);
}

/// Notes how the blocks of a row take part, where none is noted yet.
fn note_row(parts: &mut Vec<Part>, net: &Net, row: &[Entry])
    requires named { AreNamed net.now (row_of row.now) }
    requires long { length parts.old.items ≡ length net.now.specs }
    requires absent { (b : ℕ) → numbered variants.Absent parts.old.items b ≡ variants.Absent }
    ensures { (b : ℕ) → numbered variants.Absent parts.new.items b ≡ part_in net.now (row_of row.now) b }
{
    let count = row.len();
    for at in (0..count).rev() {
        let entry = &row[at];
        note(parts, net, entry);
    }
}

/// How blocks take part in the text of a source of its own.
pub(crate) fn row_taking(alloc: Global, net: &Net, row: &[Entry]) -> Result<Taking, NoMemory>
    requires { AreNamed net.now (row_of row.now) }
    ensures { IfOk result (λ t. takes t ≡ part_in net.now (row_of row.now)) }
{
    let mut parts = vec![in alloc; Part::Absent; net.len() as usize]?;
    note_row(&mut parts, net, row);
    Ok(Taking { own: true, parts })
}

/// How blocks take part in the text for all sources.
pub(crate) fn marked_taking(alloc: Global) -> Taking
    ensures { takes result ≡ (λ b. variants.Marked) }
{
    Taking {
        own: false,
        parts: Vec::new(alloc),
    }
}

/// How a block takes part.
pub(crate) fn part_of(taking: &Taking, block: u32) -> Part
    requires { 1 ≤ block }
    ensures { result ≡ takes taking.now block }
{
    if !taking.own {
        return Part::Marked;
    }
    let at = block as usize - 1;
    if at < taking.parts.len() {
        taking.parts[at]
    } else {
        Part::Absent
    }
}

/// Whether a block that takes part so has no text.
fn is_absent(part: Part) -> bool
    ensures { result ≡ is_absent_of part }
{
    match part {
        Part::Absent => true,
        Part::Sure | Part::Marked | Part::Taken(_) => false,
    }
}

/// Whether a block takes no part, so that its text needn't be built.
pub(crate) fn takes_no_part(taking: &Taking, block: u32) -> bool
    requires { 1 ≤ block }
    ensures { result ≡ is_absent_of (takes taking.now block) }
{
    is_absent(part_of(taking, block))
}

/// One for a block that the schedule has, none for another.
fn one_where(marked: bool) -> u32
    ensures { result ≡ (if marked then 1 else 0) }
{
    if marked { 1 } else { 0 }
}

/// How many blocks the schedule has.
fn scheduled_count(net: &Net, marks: &[bool]) -> u32
    ensures { (rows : List (List PlainEntry)) → AreMarked net.now rows marks.now → result ≡ scheduled_count_of rows (length net.now.specs) }
{
    let mut count = 0;
    for at in 0..net.len() {
        count += one_where(is_marked(marks, at + 1));
    }
    count
}

/// How many entries a row has.
fn entry_count(row: &[Entry]) -> u64
    ensures { result ≡ length (row_of row.now) }
{
    row.len() as u64
}

/// Whether so many entries are left beside those before.
fn still_fits(fits: bool, entries: u64, left: u64) -> bool
    ensures { result ≡ (fits && nat_le entries left) }
{
    fits && entries <= left
}

/// How many are left beside these.
fn lessened(left: u64, entries: u64) -> u64
    ensures { result ≡ left - entries }
{
    if entries <= left { left - entries } else { 0 }
}

/// Whether all rows have so many entries at most.
fn rows_fit(schedule: &Schedule, rows: u32, most: u64) -> bool
    requires { rows ≡ length (rows_of schedule.now) }
    ensures { result ≡ rows_fit_of most (rows_of schedule.now) }
{
    let mut left = most;
    let mut fits = true;
    for source in 0..rows {
        let entries = entry_count(row(schedule, source));
        fits = still_fits(fits, entries, left);
        left = lessened(left, entries);
    }
    fits
}

/// Whether each source has a text of its own for what follows its reaction.
pub fn has_own(net: &Net, marks: &[bool], schedule: &Schedule) -> bool
    requires marked { AreMarked net.now (rows_of schedule.now) marks.now }
    requires rows { length (rows_of schedule.now) ≡ length (sources_of net.now) }
    ensures { result ≡ has_own_of net.now (rows_of schedule.now) }
{
    let count = scheduled_count(net, marks);
    rows_fit(schedule, net.source_count(), 3 * u64::from(count))
}
