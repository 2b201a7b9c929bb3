// The search for a loop: a walk from member to member along needs. A member is settled once all that it needs is settled. The walk keeps
// its trail; a need that is on the trail closes a loop.
ghost use Rattle.std.specs.Prelude.{◌≡◌, ℕ, ◌+◌, ◌-◌, ◌<◌, ◌↔◌, ◌++◌, List, [], ◌∷◌, length, IfSome, IfNone, IfOk, OnOk, IsTrue, slice_index};
ghost use Rattle.std.specs.Prelude.{slice_index_or, slice_set, true, false, take, drop};
ghost use Rattle.std.proofs.Math.ListN.{replicate};
ghost use Rattle.sci_loop.specs.Table.{IsTable, NeedsAt, ArePlaces};
ghost use Rattle.sci_loop.specs.Progress.{SeenTo, IsMet, IsOpenNeed, IsSearch, left, SettledStay, IsSettling};
ghost use Rattle.sci_loop.specs.Rounds.{IsRound};

use crate::table::DepTable;
use sci_base::NoMemory;
use std::alloc::Global;

/// A need of a member that isn't settled: its index among the needs, and its place among the members.
#[derive(Clone, Copy)]
pub struct OpenNeed {
    pub index: usize,
    pub place: usize,
}

/// What the search has come to. Members go by their places.
#[derive(Drop)]
pub struct Search {
    /// Whether all chains of needs from a member are known to end.
    pub settled: Vec<bool>,
    /// How many needs of a member are known to be settled.
    pub looked: Vec<usize>,
    /// Where a member of the trail stands in it.
    pub depths: Vec<usize>,
    /// The walk: each member needs the next.
    pub trail: Vec<usize>,
    /// The settled members, in the order in which they were settled.
    pub order: Vec<usize>,
}

// The first need of the member at a place of the table, from the index `from` on, that isn't settled.
fn open_need(
    table: &DepTable,
    places: &[usize],
    settled: &[bool],
    at: usize,
    from: usize,
) -> Option<OpenNeed>
    requires table { IsTable table.now }
    requires places { ArePlaces table.now.members.items places.now }
    requires settled { length settled.now ≡ length table.now.members.items }
    requires within { at < length table.now.members.items }
    requires seen { SeenTo table.now settled.now at from }
    ensures some { IfSome result (λ o. IsOpenNeed table.now settled.now at o.place) }
    ensures seen { IfSome result (λ o. SeenTo table.now settled.now at o.index) }
    ensures none { IfNone result (IsMet table.now settled.now at) }
{
    let needs = table.needs[at].as_slice();
    for index in from..needs.len() {
        let place = places[needs[index] as usize];
        if !settled[place] {
            return Some(OpenNeed { index, place });
        }
    }
    None
}

impl Search {
    /// A search over so many members, with nothing settled and no trail.
    pub fn new(alloc: Global, count: usize) -> Result<Search, NoMemory>
        ensures settled { IfOk result (λ s. s.settled.items ≡ replicate count false) }
        ensures looked { IfOk result (λ s. s.looked.items ≡ replicate count 0) }
        ensures depths { IfOk result (λ s. s.depths.items ≡ replicate count 0) }
        ensures trail { IfOk result (λ s. s.trail.items ≡ []) }
        ensures order { IfOk result (λ s. s.order.items ≡ []) }
    {
        let settled = vec![in alloc; false; count]?;
        let looked = vec![in alloc; 0; count]?;
        let depths = vec![in alloc; 0; count]?;
        let trail = Vec::new(alloc);
        let order = Vec::new(alloc);
        Ok(Search {
            settled,
            looked,
            depths,
            trail,
            order,
        })
    }

    // The trail's last member is settled, and leaves it.
    fn settle(&mut self, at: usize) -> Result<(), NoMemory>
        requires { at < length self.old.settled.items }
        ensures settled { OnOk result (self.new.settled.items ≡ slice_set self.old.settled.items at true) }
        ensures looked { OnOk result (self.new.looked.items ≡ self.old.looked.items) }
        ensures depths { OnOk result (self.new.depths.items ≡ self.old.depths.items) }
        ensures trail { OnOk result (self.new.trail.items ≡ take (length self.old.trail.items - 1) self.old.trail.items) }
        ensures order { OnOk result (self.new.order.items ≡ self.old.order.items ++ at ∷ []) }
    {
        self.order.push(at)?;
        self.settled[at] = true;
        self.trail.pop();
        Ok(())
    }

    // The needs of a member before this index are settled.
    fn look(&mut self, at: usize, index: usize)
        requires { at < length self.old.looked.items }
        ensures settled { self.new.settled.items ≡ self.old.settled.items }
        ensures looked { self.new.looked.items ≡ slice_set self.old.looked.items at index }
        ensures depths { self.new.depths.items ≡ self.old.depths.items }
        ensures trail { self.new.trail.items ≡ self.old.trail.items }
        ensures order { self.new.order.items ≡ self.old.order.items }
    {
        self.looked[at] = index;
    }

    // The trail goes on to this member.
    fn enter(&mut self, place: usize) -> Result<(), NoMemory>
        requires { place < length self.old.depths.items }
        ensures settled { self.new.settled.items ≡ self.old.settled.items }
        ensures looked { self.new.looked.items ≡ self.old.looked.items }
        ensures depths { OnOk result (self.new.depths.items ≡ slice_set self.old.depths.items place (length self.old.trail.items)) }
        ensures trail { OnOk result (self.new.trail.items ≡ self.old.trail.items ++ place ∷ []) }
        ensures order { self.new.order.items ≡ self.old.order.items }
    {
        self.depths[place] = self.trail.len();
        self.trail.push(place)?;
        Ok(())
    }

    // Whether this member stands there on the trail.
    fn is_at(&self, place: usize, depth: usize) -> bool
        ensures { IsTrue result ↔ ((depth < length self.now.trail.items) × (slice_index self.now.trail.items depth ≡ place)) }
    {
        depth < self.trail.len() && self.trail[depth] == place
    }

    // One step of the walk: the last member goes on to a need that isn't settled, or is settled itself. A need that is on the trail closes
    // a round: its depth is the answer.
    fn step(&mut self, table: &DepTable, places: &[usize]) -> Result<Option<usize>, NoMemory>
        requires table { IsTable table.now }
        requires places { ArePlaces table.now.members.items places.now }
        requires search { IsSearch table.now self.old }
        requires some { 0 < length self.old.trail.items }
        requires order { IsSettling table.now self.old.settled.items self.old.order.items }
        ensures search { IfOk result (λ o. IsSearch table.now self.new) }
        ensures order { IfOk result (λ o. IsSettling table.now self.new.settled.items self.new.order.items) }
        ensures round { IfOk result (λ o. IfSome o (λ k. IsRound (NeedsAt table.now) (drop k self.new.trail.items))) }
        ensures falls { IfOk result (λ o. IfNone o (left table.now self.new < left table.now self.old)) }
        ensures stay { IfOk result (λ o. SettledStay self.old self.new) }
        ensures first { IfOk result (λ o. IfNone o (0 < length self.new.trail.items
            → slice_index self.new.trail.items 0 ≡ slice_index self.old.trail.items 0)) }
        ensures last { IfOk result (λ o. IfNone o (length self.new.trail.items ≡ 0
            → slice_index_or self.new.settled.items (slice_index self.old.trail.items 0) false ≡ true)) }
    {
        let at = self.trail[self.trail.len() - 1];
        match open_need(table, places, &self.settled, at, self.looked[at]) {
            None => {
                self.settle(at)?;
                Ok(None)
            }
            Some(need) => {
                self.look(at, need.index);
                let depth = self.depths[need.place];
                if self.is_at(need.place, depth) {
                    return Ok(Some(depth));
                }
                self.enter(need.place)?;
                Ok(None)
            }
        }
    }

    // A walk from a member that isn't settled, until it is settled or a round closes.
    fn walk(
        &mut self,
        table: &DepTable,
        places: &[usize],
        start: usize,
    ) -> Result<Option<usize>, NoMemory>
        requires table { IsTable table.now }
        requires places { ArePlaces table.now.members.items places.now }
        requires search { IsSearch table.now self.old }
        requires trail { self.old.trail.items ≡ [] }
        requires within { start < length table.now.members.items }
        requires off { slice_index_or self.old.settled.items start false ≡ false }
        requires order { IsSettling table.now self.old.settled.items self.old.order.items }
        ensures search { IfOk result (λ o. IsSearch table.now self.new) }
        ensures order { IfOk result (λ o. IsSettling table.now self.new.settled.items self.new.order.items) }
        ensures round { IfOk result (λ o. IfSome o (λ k. IsRound (NeedsAt table.now) (drop k self.new.trail.items))) }
        ensures trail { IfOk result (λ o. IfNone o (self.new.trail.items ≡ [])) }
        ensures stay { IfOk result (λ o. SettledStay self.old self.new) }
        ensures done { IfOk result (λ o. IfNone o (slice_index_or self.new.settled.items start false ≡ true)) }
    {
        self.enter(start)?;
        while !self.trail.is_empty() {
            if let Some(depth) = self.step(table, places)? {
                return Ok(Some(depth));
            }
        }
        Ok(None)
    }

    /// Settles every member, or stops at a round: the trail from this depth on.
    pub fn all(&mut self, table: &DepTable, places: &[usize]) -> Result<Option<usize>, NoMemory>
        requires table { IsTable table.now }
        requires places { ArePlaces table.now.members.items places.now }
        requires search { IsSearch table.now self.old }
        requires trail { self.old.trail.items ≡ [] }
        requires order { IsSettling table.now self.old.settled.items self.old.order.items }
        ensures search { IfOk result (λ o. IsSearch table.now self.new) }
        ensures order { IfOk result (λ o. IsSettling table.now self.new.settled.items self.new.order.items) }
        ensures round { IfOk result (λ o. IfSome o (λ k. IsRound (NeedsAt table.now) (drop k self.new.trail.items))) }
        ensures done { IfOk result (λ o. IfNone o ((i : ℕ) → i < length table.now.members.items → slice_index_or self.new.settled.items i false ≡ true)) }
    {
        for start in 0..table.members.len() {
            if !self.settled[start] {
                if let Some(depth) = self.walk(table, places, start)? {
                    return Ok(Some(depth));
                }
            }
        }
        Ok(None)
    }
}
