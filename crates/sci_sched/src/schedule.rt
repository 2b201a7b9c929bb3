// Schedules.
ghost use Rattle.std.specs.Prelude.{◌≡◌, ◌<◌, ◌^◌, ◌+◌, ℕ};
ghost use Rattle.sci_sched.specs.Plain.{row_of, lists_of, rows_of};
ghost use Rattle.sci_sched.specs.Size.{entry_count, guard_count, guards_in};

use sci_reaction::Entry;

/// The static schedule of each source: the blocks that it may activate, each after those that it depends on.
#[derive(Drop)]
pub struct Schedule {
    /// One row for each source, in the order of the net's sources. A row has its blocks by depth and number.
    pub rows: Vec<Vec<Entry>>,
}

// How many guards the entries of a row have.
fn guards_in(row: &[Entry]) -> u64
    requires { guards_in (row_of row.now) < 2 ^ 63 }
    ensures { result ≡ guards_in (row_of row.now) }
{
    let mut count = 0;
    for entry in row {
        count += entry.guards.len() as u64;
    }
    count
}

// How many entries some rows have.
fn entries_in(rows: &[Vec<Entry>]) -> u64
    requires { entry_count (lists_of rows.now) < 2 ^ 63 }
    ensures { result ≡ entry_count (lists_of rows.now) }
{
    let mut count = 0;
    for row in rows {
        count += row.len() as u64;
    }
    count
}

// How many guards their entries have.
fn all_guards_in(rows: &[Vec<Entry>]) -> u64
    requires { guard_count (lists_of rows.now) < 2 ^ 63 }
    ensures { result ≡ guard_count (lists_of rows.now) }
{
    let mut count = 0;
    for row in rows {
        count += guards_in(row.as_slice());
    }
    count
}

impl Schedule {
    /// How many entries all rows have.
    pub fn entry_count(&self) -> u64
        requires { entry_count (rows_of self.now) < 2 ^ 63 }
        ensures { result ≡ entry_count (rows_of self.now) }
    {
        entries_in(self.rows.as_slice())
    }

    /// How many guards the entries of all rows have.
    pub fn guard_count(&self) -> u64
        requires { guard_count (rows_of self.now) < 2 ^ 63 }
        ensures { result ≡ guard_count (rows_of self.now) }
    {
        all_guards_in(self.rows.as_slice())
    }
}
