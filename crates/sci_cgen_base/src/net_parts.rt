// What a net has, as far as its texts differ by it.
ghost use Rattle.std.specs.Prelude.{◌≡◌, ◌≤◌, false, nat_lt};
ghost use Rattle.sci_net.specs.Parts.{numbered};
ghost use Rattle.sci_due.specs.Due.{are_grouped as are_grouped_of, due_table as due_table_of};
ghost use Rattle.sci_program.specs.Program.{has_sync as has_sync_of, has_halt as has_halt_of, port_count as port_count_of};

use sci_due::{DueTable, GROUP};
use sci_net::Net;

/// Whether a block chooses a branch.
pub fn has_sync(net: &Net) -> bool
    ensures { result ≡ has_sync_of net.now }
{
    for at in 0..net.len() {
        if net.spec(at + 1).kind.is_sync() {
            return true;
        }
    }
    false
}

/// Whether a block ends the run.
pub fn has_halt(net: &Net) -> bool
    ensures { result ≡ has_halt_of net.now }
{
    for at in 0..net.len() {
        if net.spec(at + 1).kind.is_halt() {
            return true;
        }
    }
    false
}

/// How many sources have events: all but start.
pub fn port_count(net: &Net) -> u32
    ensures { result ≡ port_count_of net.now }
{
    net.source_count() - 1
}

/// Whether there are several of them.
pub fn has_several(net: &Net) -> bool
    ensures { result ≡ nat_lt 1 (port_count_of net.now) }
{
    1 < port_count(net)
}

/// What the table of their due dates keeps.
pub fn due_table(net: &Net) -> DueTable
    ensures { result ≡ due_table_of (port_count_of net.now) }
{
    if has_groups(net) {
        DueTable::Groups
    } else if has_several(net) {
        DueTable::Orders
    } else {
        DueTable::Dates
    }
}

/// Whether there are so many that they stand in groups.
pub fn has_groups(net: &Net) -> bool
    ensures { result ≡ are_grouped_of (port_count_of net.now) }
{
    GROUP < port_count(net)
}

/// Whether a block is marked.
pub fn is_marked(marks: &[bool], block: u32) -> bool
    requires { 1 ≤ block }
    ensures { result ≡ numbered false marks.now block }
{
    let at = block as usize - 1;
    if at < marks.len() { marks[at] } else { false }
}
