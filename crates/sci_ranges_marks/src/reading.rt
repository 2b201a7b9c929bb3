// Tests over marks: what acts together, what has acted, under which branch a block acts, and its masks.
ghost use Rattle.std.specs.Prelude.{◌≡◌, ◌<◌, ◌≤◌, ◌+◌, ◌++◌, ◌||◌, not, length, nat_eq, bit_or, if◌then◌else◌, IfOk, OnOk, option_map, option_to_list};
ghost use Rattle.sci_ranges_rows.specs.Marks.{dead_of, lets, acts_at};
ghost use Rattle.std.specs.Int.{bit_at};
ghost use Rattle.std.specs.List.{list_all};
ghost use Rattle.sci_net.specs.Parts.{IsInput};
ghost use Rattle.sci_net.specs.Sources.{sources_of, source_of};
ghost use Rattle.sci_reaction.specs.Kept.{guard_of, guards_of, entry_of as plain_entry};
ghost use Rattle.sci_ranges_rows.specs.Tests.{feeds_port, covers, acts_too, fed_too, acts_by_entry, is_always, same_feed, is_port, acted_first, has_acted, shows_at, is_shown, along_at, is_along, is_branch, under_at, is_under, fed_by, masks_of};
ghost use Rattle.sci_ranges_marks.specs.View.{marks_of, masks_here};

use crate::marks::RowMarks;
use sci_base::NoMemory;
use sci_base::bits::two_to;
use sci_kinds::Kind;
use sci_net::{Feed, Net, Source};
use sci_ranges_base::Masks;
use sci_reaction::{Entry, Guard};
use std::alloc::Global;

/// Whether a mask has the bit of an activation input, counted from 0.
fn has_bit(mask: u64, p: u32) -> bool
    ensures { result ≡ nat_eq (bit_at mask p) 1 }
{
    p < 64 && mask / two_to(p) % 2 == 1
}

/// Whether one of two activation outputs is the other.
fn same_feed(one: Feed, other: Feed) -> bool
    ensures { result ≡ same_feed one other }
{
    one.block == other.block && one.port == other.port
}

fn is_port(source: Source, feed: Feed) -> bool
    ensures { result ≡ is_port source feed }
{
    match source {
        Source::Start => false,
        Source::Port(q) => same_feed(q, feed),
    }
}

fn is_always(entry: Option<&Entry>) -> bool
    ensures { result ≡ is_always (option_map (λ e. plain_entry e.now) entry.entry) }
{
    match entry {
        Some(entry) => entry.always,
        None => false,
    }
}

/// The source of a place; start where there is none.
fn source_at(net: &Net, place: u32) -> Source
    ensures { result ≡ source_of net.now place }
{
    if place < net.source_count() {
        net.source(place)
    } else {
        Source::Start
    }
}

/// Masks behind those of the places before, where there are any.
fn push_some(all: &mut Vec<Masks>, masks: Option<Masks>) -> Result<(), NoMemory>
    ensures { OnOk result (all.new.items ≡ all.old.items ++ option_to_list masks) }
{
    if let Some(masks) = masks {
        all.push(masks)?;
    }
    Ok(())
}

impl RowMarks {
    /// Whether each branch of a block is one of the feeder's.
    fn covers_all(&self, k: usize, feeder: &[Guard], reader: &[Guard]) -> bool
        ensures { result ≡ list_all (λ g. covers (marks_of self.now) k (guards_of feeder.now) (guard_of g)) reader.now }
    {
        reader.iter().all(|guard| self.covers(k, feeder, guard))
    }

    /// Whether at the source of a place the feeder of the first entry acts wherever the block of the second does.
    fn acts_too(&self, k: usize, feeder: Option<&Entry>, reader: &Entry) -> bool
        ensures { result ≡ acts_too (marks_of self.now) k (option_map (λ e. plain_entry e.now) feeder.entry) (plain_entry reader.now) }
    {
        match feeder {
            Some(a) => {
                a.always || !reader.always && self.covers_all(k, &a.guards, &reader.guards)
            }
            None => false,
        }
    }

    /// Whether a branch that feeds an activation input is one of the feeder's.
    fn covers_fed(&self, k: usize, feeder: &[Guard], guard: &Guard, p: u32) -> bool
        ensures { result ≡ (not (feeds_port p (guard_of guard.now)) || covers (marks_of self.now) k (guards_of feeder.now) (guard_of guard.now)) }
    {
        !has_bit(guard.mask, p) || self.covers(k, feeder, guard)
    }

    /// Whether each branch that feeds an activation input is one of the feeder's.
    fn covers_all_fed(&self, k: usize, feeder: &[Guard], reader: &[Guard], p: u32) -> bool
        ensures { result ≡ list_all (λ g. not (feeds_port p (guard_of g)) || covers (marks_of self.now) k (guards_of feeder.now) (guard_of g)) reader.now }
    {
        reader
            .iter()
            .all(|guard| self.covers_fed(k, feeder, guard, p))
    }

    /// Whether the feeder acts wherever activation input `p` of the reader, from 0, is activated.
    fn fed_too(&self, k: usize, feeder: Option<&Entry>, reader: &Entry, p: u32) -> bool
        ensures { result ≡ fed_too (marks_of self.now) k (option_map (λ e. plain_entry e.now) feeder.entry) (plain_entry reader.now) p }
    {
        match feeder {
            Some(a) => {
                a.always
                    || !has_bit(reader.mask, p)
                        && self.covers_all_fed(k, &a.guards, &reader.guards, p)
            }
            None => false,
        }
    }

    /// Whether the event of the first source activated the block, and the source is another.
    fn acted_first(&self, net: &Net, source: Feed, block: u32) -> bool
        ensures { result ≡ acted_first net.now (marks_of self.now) (marks_of self.now).first source block }
    {
        match self.first {
            Some(f) => {
                !is_port(source_at(net, f), source) && is_always(self.entry(f as usize, block))
            }
            None => false,
        }
    }

    /// Whether the block has acted before the source reacts.
    fn has_acted(&self, net: &Net, source: Source, block: u32) -> bool
        ensures { result ≡ has_acted net.now (marks_of self.now) source block }
    {
        match source {
            Source::Start => false,
            Source::Port(q) => is_always(self.entry(0, block)) || self.acted_first(net, q, block),
        }
    }

    /// Whether input `p` of the block of an entry, from 0, takes what the feeder of another entry shows.
    fn acts_by_entry(
        &self,
        kind: Kind,
        k: usize,
        feeder: Option<&Entry>,
        reader: Option<&Entry>,
        p: u32,
    ) -> bool
        ensures { result ≡ acts_by_entry kind (marks_of self.now) k (option_map (λ e. plain_entry e.now) feeder.entry)
            (option_map (λ e. plain_entry e.now) reader.entry) p }
    {
        match reader {
            Some(c) => match kind {
                Kind::Select => self.fed_too(k, feeder, c, p),
                _ => self.acts_too(k, feeder, c),
            },
            None => false,
        }
    }

    /// Whether input `p` of a block, from 0, takes what its feeder shows at the source of a place.
    fn shows_at(&self, net: &Net, k: u32, block: u32, p: u32) -> bool
        requires place { k < length (sources_of net.now) }
        requires input { IsInput net.now block (p + 1) }
        ensures { result ≡ shows_at net.now (marks_of self.now) k block p }
    {
        let at = k as usize;
        let spec = net.spec(block);
        if !self.may_act(at, block) {
            return true;
        }
        let feeder = net.wire(block, p + 1).block;
        self.has_acted(net, net.source(k), feeder)
            || self.acts_by_entry(
                spec.kind,
                at,
                self.entry(at, feeder),
                self.entry(at, block),
                p,
            )
    }

    /// Whether input `p` of a block, from 0, takes what its feeder shows, wherever the block may act.
    pub fn is_shown(&self, net: &Net, block: u32, p: u32) -> bool
        requires rows { length (marks_of self.now).rows ≡ length (sources_of net.now) }
        requires input { IsInput net.now block (p + 1) }
        ensures { result ≡ is_shown net.now (marks_of self.now) block p }
    {
        for k in 0..net.source_count() {
            if !self.shows_at(net, k, block, p) {
                return false;
            }
        }
        true
    }

    /// Whether another block acts at the source of a place, where that may activate the block.
    fn along_at(&self, k: usize, other: u32, block: u32) -> bool
        ensures { result ≡ along_at (marks_of self.now) k other block }
    {
        if !self.may_act(k, block) {
            return true;
        }
        match self.entry(k, block) {
            Some(reader) => self.acts_too(k, self.entry(k, other), reader),
            None => false,
        }
    }

    /// Whether another block acts wherever the block does.
    pub fn is_along(&self, other: u32, block: u32) -> bool
        ensures { result ≡ is_along (marks_of self.now) other block }
    {
        for k in 0..self.rows.len() {
            if !self.along_at(k, other, block) {
                return false;
            }
        }
        true
    }

    /// Whether a guard whose branch may be taken is this branch.
    fn is_branch(&self, k: usize, branch: Feed, guard: &Guard) -> bool
        ensures { result ≡ is_branch (marks_of self.now) k branch (guard_of guard.now) }
    {
        !self.lets(k, guard) || guard.block == branch.block && guard.port == branch.port
    }

    /// Whether each guard whose branch may be taken is this branch.
    fn are_branch(&self, k: usize, branch: Feed, guards: &[Guard]) -> bool
        ensures { result ≡ list_all (λ g. is_branch (marks_of self.now) k branch (guard_of g)) guards.now }
    {
        guards.iter().all(|guard| self.is_branch(k, branch, guard))
    }

    /// Whether the source of a place activates the block by this branch alone, where it may.
    fn under_at(&self, branch: Feed, k: usize, block: u32) -> bool
        ensures { result ≡ under_at (marks_of self.now) branch k block }
    {
        if !self.may_act(k, block) {
            return true;
        }
        match self.entry(k, block) {
            Some(entry) => !entry.always && self.are_branch(k, branch, &entry.guards),
            None => false,
        }
    }

    /// Whether a block acts under this branch alone.
    pub fn is_under(&self, branch: Feed, block: u32) -> bool
        ensures { result ≡ is_under (marks_of self.now) branch block }
    {
        for k in 0..self.rows.len() {
            if !self.under_at(branch, k, block) {
                return false;
            }
        }
        true
    }

    /// These activation inputs, and those that a guard may feed at the source of a place.
    fn fed_with(&self, k: usize, guard: &Guard, fed: u64) -> u64
        ensures { result ≡ (if lets (dead_of (marks_of self.now).dead) (acts_at (marks_of self.now) k) (guard_of guard.now)
            then bit_or guard.now.mask fed else fed) }
    {
        if self.lets(k, guard) {
            guard.mask | fed
        } else {
            fed
        }
    }

    /// The activation inputs that guards may feed at the source of a place.
    fn fed_by(&self, k: usize, guards: &[Guard]) -> u64
        ensures { result ≡ fed_by (marks_of self.now) k (guards_of guards.now) }
    {
        let mut fed = 0;
        for g in (0..guards.len()).rev() {
            fed = self.fed_with(k, &guards[g], fed);
        }
        fed
    }

    /// The masks that a block may have at the source of a place, where it may act.
    fn masks_at(&self, k: usize, block: u32) -> Option<Masks>
        ensures { option_to_list result ≡ masks_here (marks_of self.now) k block }
    {
        if !self.may_act(k, block) {
            return None;
        }
        let entry = self.entry(k, block)?;
        Some(Masks {
            certain: entry.mask,
            may: entry.mask | self.fed_by(k, &entry.guards),
        })
    }

    /// The masks that a block may have, one for each live source that may activate it.
    pub fn masks_of(&self, alloc: Global, block: u32) -> Result<Vec<Masks>, NoMemory>
        ensures { IfOk result (λ v. v.items ≡ masks_of (marks_of self.now) block) }
    {
        let mut all = Vec::new(alloc);
        for k in 0..self.rows.len() {
            push_some(&mut all, self.masks_at(k, block))?;
        }
        Ok(all)
    }
}
