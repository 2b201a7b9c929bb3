// Tables of dependencies.
ghost use Rattle.std.specs.Prelude.{◌≡◌, ℕ, ◌<◌, ◌↔◌, length, All, Contains, IfOk, IsTrue, slice_index};
ghost use Rattle.std.specs.List.Sorted.{IsStrictlyIncreasing};
ghost use Rattle.sci_loop.specs.Table.{Needs, HasNeeds, HasNumber, IsTable, IsRow, ArePlaces};

use sci_base::NoMemory;
use std::alloc::Global;

/// Which blocks depend on which. A table is well formed where `members` rises strictly, `needs` has one list for each member,
/// and each of these lists rises strictly and holds members alone.
#[derive(Drop)]
pub struct DepTable {
    /// The blocks, by number.
    pub members: Vec<u32>,
    /// For each member the members that it depends on, by number.
    pub needs: Vec<Vec<u32>>,
}

impl DepTable {
    /// Whether the table is well formed.
    pub fn is_well_formed(&self) -> bool
        ensures { IsTrue result ↔ IsTable self.now }
    {
        if !rises(&self.members) {
            return false;
        }
        if self.needs.len() != self.members.len() {
            return false;
        }
        rows_fit(&self.members, &self.needs)
    }

    /// Whether some member depends on some member. The table is well formed.
    pub fn has_needs(&self) -> bool
        requires { IsTable self.now }
        ensures { IsTrue result ↔ HasNeeds self.now }
    {
        some_number(&self.needs)
    }

    /// The members that a member depends on, by number, each once. The table is well formed.
    pub fn needs_of(&self, member: u32) -> &[u32]
        requires table { IsTable self.now }
        requires member { Contains self.now.members.items member }
        ensures rising { IsStrictlyIncreasing result.now }
        ensures exactly { (b : ℕ) → Contains result.now b ↔ Needs self.now member b }
    {
        self.needs[place_of(&self.members, member)].as_slice()
    }
}

// Whether some list has a number.
fn some_number(rows: &[Vec<u32>]) -> bool
    ensures { IsTrue result ↔ HasNumber rows.now }
{
    for i in 0..rows.len() {
        if !rows[i].is_empty() {
            return true;
        }
    }
    false
}

// Whether each number is less than the next.
fn rises(numbers: &[u32]) -> bool
    ensures { IsTrue result ↔ IsStrictlyIncreasing numbers.now }
{
    for i in 1..numbers.len() {
        if numbers[i] <= numbers[i - 1] {
            return false;
        }
    }
    true
}

// Whether the number is a member.
fn is_member(members: &[u32], number: u32) -> bool
    requires { IsStrictlyIncreasing members.now }
    ensures { IsTrue result ↔ Contains members.now number }
{
    members.binary_search(&number).is_ok()
}

// Whether each number is a member.
fn all_members(members: &[u32], numbers: &[u32]) -> bool
    requires { IsStrictlyIncreasing members.now }
    ensures { IsTrue result ↔ All (Contains members.now) numbers.now }
{
    for i in 0..numbers.len() {
        if !is_member(members, numbers[i]) {
            return false;
        }
    }
    true
}

// Whether the numbers rise and are members.
fn row_fits(members: &[u32], row: &[u32]) -> bool
    requires { IsStrictlyIncreasing members.now }
    ensures { IsTrue result ↔ (IsStrictlyIncreasing row.now × All (Contains members.now) row.now) }
{
    rises(row) && all_members(members, row)
}

// Whether each list rises and holds members alone.
fn rows_fit(members: &[u32], rows: &[Vec<u32>]) -> bool
    requires { IsStrictlyIncreasing members.now }
    ensures { IsTrue result ↔ All (IsRow members.now) rows.now }
{
    for i in 0..rows.len() {
        if !row_fits(members, &rows[i]) {
            return false;
        }
    }
    true
}

/// The place of a member.
pub fn place_of(members: &[u32], number: u32) -> usize
    requires rising { IsStrictlyIncreasing members.now }
    requires member { Contains members.now number }
    ensures within { result < length members.now }
    ensures found { slice_index members.now result ≡ number }
{
    match members.binary_search(&number) {
        Ok(place) => place,
        Err(_) => unreachable!(),
    }
}

// How long a list by number is that has each member: one more than the last, and 0 where there is none.
fn size_of_places(members: &[u32]) -> usize
    requires { IsStrictlyIncreasing members.now }
    ensures { (k : ℕ) → k < length members.now → slice_index members.now k < result }
{
    match members.last() {
        Some(last) => *last as usize + 1,
        None => 0,
    }
}

/// The place of each member, at the member's number. What stands at other numbers does not count.
pub fn places_by_number(alloc: Global, members: &[u32]) -> Result<Vec<usize>, NoMemory>
    requires { IsStrictlyIncreasing members.now }
    ensures { IfOk result (λ v. ArePlaces members.now v.items) }
{
    let mut places = vec![in alloc; 0; size_of_places(members)]?;
    for place in 0..members.len() {
        places[members[place] as usize] = place;
    }
    Ok(places)
}
