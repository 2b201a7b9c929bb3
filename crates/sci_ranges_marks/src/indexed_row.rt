// A row of a schedule whose entries are found by their blocks.
ghost use Rattle.std.specs.Prelude.{◌≡◌, ◌≤◌, All, IfOk, option_map};
ghost use Rattle.sci_reaction.specs.Kept.{entry_of as plain_entry, entries_of};
ghost use Rattle.sci_ranges_rows.specs.Marks.{entry_of};
ghost use Rattle.sci_ranges_marks.specs.Places.{ArePlaces};

use sci_base::NoMemory;
use sci_reaction::Entry;
use std::alloc::Global;

/// A row of a schedule whose entries are found by their blocks.
#[derive(Drop)]
pub struct IndexedRow {
    entries: Vec<Entry>,
    // by block the place of its entry, counted from 1; 0 where it has none
    places: Vec<usize>,
    ghost placed: { ArePlaces entries.items places.items },
}

impl IndexedRow {
    /// The row of these entries, whose blocks have numbers up to `count`.
    pub fn of(alloc: Global, entries: Vec<Entry>, count: u32) -> Result<IndexedRow, NoMemory>
        requires { All (λ e. e.block ≤ count) entries.items }
        ensures { IfOk result (λ r. r.entries ≡ entries) }
    {
        let mut places = vec![in alloc; 0; count as usize + 1]?;
        for k in 0..entries.len() {
            let block = entries[k].block as usize;
            if places[block] == 0 {
                places[block] = k + 1;
            }
        }
        Ok(IndexedRow { entries, places })
    }

    /// All entries, in their order.
    pub fn entries(&self) -> &[Entry]
        ensures { result.now ≡ self.now.entries.items }
    {
        self.entries.as_slice()
    }

    /// The entry of a block, if the row has one.
    pub fn entry(&self, block: u32) -> Option<&Entry>
        ensures { option_map (λ e. plain_entry e.now) result ≡ entry_of (entries_of self.now.entries.items) block }
    {
        let block = block as usize;
        if block >= self.places.len() {
            return None;
        }
        let place = self.places[block];
        if place == 0 || place > self.entries.len() {
            return None;
        }
        Some(&self.entries[place - 1])
    }
}
