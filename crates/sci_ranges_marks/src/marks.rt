// The rows of a schedule, and what is marked of them.
ghost use Rattle.std.specs.Prelude.{◌≡◌, ◌||◌, ◌&&◌, not, length, [], None, option_map, slice_index_or};
ghost use Rattle.std.specs.List.{list_any};
ghost use Rattle.sci_base.specs.Lists.{truth_at};
ghost use Rattle.sci_net.specs.Parts.{rows_of};
ghost use Rattle.sci_reaction.specs.Kept.{guard_of, guards_of, entry_of as plain_entry, entries_of};
ghost use Rattle.sci_ranges_rows.specs.Marks.{dead_of, lets, acts_at, row_at, entry_at, may_act};
ghost use Rattle.sci_ranges_rows.specs.Tests.{same_branch, covers};
ghost use Rattle.sci_ranges_marks.specs.Branches.{AreFewBranches};

use crate::indexed_row::IndexedRow;
use crate::lists::{list_at, truth_at};
use sci_net::Feed;
use sci_reaction::{Entry, Guard};

/// The rows of a schedule by the place of their source, and what is marked of them.
#[derive(Drop)]
pub struct RowMarks {
    pub(crate) rows: Vec<IndexedRow>,
    // by block and branch, both from 1, whether the branch is never taken
    pub(crate) dead: Vec<Vec<bool>>,
    // by the place of a source, whether it may ever react
    pub(crate) live: Vec<bool>,
    // by the place of a source, and block from 1, whether the source may activate the block
    pub(crate) acts: Vec<Vec<bool>>,
    // the place of the event that fires first, where start programs nothing
    pub(crate) first: Option<u32>,
    // by block, the branch under which alone it may act, where one was found
    pub(crate) under: Vec<Option<Feed>>,
    ghost few: { AreFewBranches dead.items },
}

/// Whether a branch of a block is dead.
fn is_dead(dead: &[Vec<bool>], block: u32, port: u32) -> bool
    ensures { result ≡ dead_of (rows_of dead.now) block port }
{
    truth_at(list_at(dead, block as usize), port as usize)
}

/// Whether the branch of a guard may be taken: its block is marked, and it isn't dead.
pub(crate) fn lets(dead: &[Vec<bool>], acts: &[bool], guard: &Guard) -> bool
    ensures { result ≡ lets (dead_of (rows_of dead.now)) acts.now (guard_of guard.now) }
{
    truth_at(acts, guard.block as usize) && !is_dead(dead, guard.block, guard.port)
}

/// Whether two guards are of one branch.
fn same_branch(one: &Guard, other: &Guard) -> bool
    ensures { result ≡ same_branch (guard_of one.now) (guard_of other.now) }
{
    one.block == other.block && one.port == other.port
}

/// Whether one of these guards is of the branch.
fn has_branch(guards: &[Guard], guard: &Guard) -> bool
    ensures { result ≡ list_any (λ h. same_branch (guard_of guard.now) (guard_of h)) guards.now }
{
    guards.iter().any(|other| same_branch(guard, other))
}

impl RowMarks {
    ghost use Rattle.sci_ranges_marks.specs.View.{marks_of};

    /// How many sources there are.
    pub fn sources(&self) -> usize
        ensures { result ≡ length (marks_of self.now).rows }
    {
        self.rows.len()
    }

    /// The entries of the row of a place.
    pub fn row(&self, k: usize) -> &[Entry]
        ensures { entries_of result.now ≡ row_at (marks_of self.now) k }
    {
        if k < self.rows.len() {
            self.rows[k].entries()
        } else {
            &[]
        }
    }

    /// Whether a source is live.
    pub fn is_live(&self, k: usize) -> bool
        ensures { result ≡ truth_at (marks_of self.now).live k }
    {
        truth_at(&self.live, k)
    }

    /// Whether a source may activate a block, should it be live.
    pub fn acts(&self, k: usize, block: u32) -> bool
        ensures { result ≡ truth_at (acts_at (marks_of self.now) k) block }
    {
        truth_at(list_at(&self.acts, k), block as usize)
    }

    /// The number of a block's branches and one more; 0 of a block that isn't synchronous.
    pub fn branches(&self, block: u32) -> u32
        ensures { result ≡ length (slice_index_or (marks_of self.now).dead block []) }
    {
        list_at(&self.dead, block as usize).len() as u32
    }

    /// Whether a branch of a block is dead.
    pub fn is_dead(&self, block: u32, port: u32) -> bool
        ensures { result ≡ dead_of (marks_of self.now).dead block port }
    {
        is_dead(&self.dead, block, port)
    }

    /// The branch under which alone a block may act, where one was found.
    pub fn under(&self, block: u32) -> Option<Feed>
        ensures { result ≡ slice_index_or (marks_of self.now).under block None }
    {
        if (block as usize) < self.under.len() {
            self.under[block as usize]
        } else {
            None
        }
    }

    /// The entry of a block in the row of a place.
    pub fn entry(&self, k: usize, block: u32) -> Option<&Entry>
        ensures { option_map (λ e. plain_entry e.now) result ≡ entry_at (marks_of self.now) k block }
    {
        if k < self.rows.len() {
            self.rows[k].entry(block)
        } else {
            None
        }
    }

    /// Whether the branch of a guard may be taken at the source of a place.
    pub fn lets(&self, k: usize, guard: &Guard) -> bool
        ensures { result ≡ lets (dead_of (marks_of self.now).dead) (acts_at (marks_of self.now) k) (guard_of guard.now) }
    {
        lets(&self.dead, list_at(&self.acts, k), guard)
    }

    /// Whether the source of a place is live and may activate the block.
    pub fn may_act(&self, k: usize, block: u32) -> bool
        ensures { result ≡ may_act (marks_of self.now) k block }
    {
        self.is_live(k) && self.acts(k, block)
    }

    /// Whether a guard whose branch may be taken is one of these.
    pub fn covers(&self, k: usize, guards: &[Guard], guard: &Guard) -> bool
        ensures { result ≡ covers (marks_of self.now) k (guards_of guards.now) (guard_of guard.now) }
    {
        !self.lets(k, guard) || has_branch(guards, guard)
    }
}
