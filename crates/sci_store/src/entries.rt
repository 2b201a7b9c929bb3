// Which entries of a row apply in a reaction.
ghost use Rattle.std.specs.Prelude.{◌≡◌, All};
ghost use Rattle.sci_reaction.specs.Kept.{guard_of, entry_of};
ghost use Rattle.sci_store.specs.Entries.{HasMark, is_taken, activation};

use crate::marks::Mark;
use sci_reaction::{Entry, Guard};

// Whether the guard's block is active and takes the guard's port.
fn is_taken(marks: &[Mark], guard: &Guard) -> bool
    requires { HasMark marks.now (guard_of guard.now) }
    ensures { result ≡ is_taken marks.now (guard_of guard.now) }
{
    let mark = marks[guard.block as usize - 1];
    mark.active && mark.branch == guard.port
}

/// The mask of an entry's block, if the entry applies: the source activates the block whatever the values are, or the block of one of
/// its guards takes the guard's port.
pub fn activation(marks: &[Mark], entry: &Entry) -> Option<u64>
    requires { All (HasMark marks.now) (entry_of entry.now).guards }
    ensures { result ≡ activation marks.now (entry_of entry.now) }
{
    let mut active = entry.always;
    let mut mask = entry.mask;
    for guard in entry.guards.iter() {
        if is_taken(marks, guard) {
            active = true;
            mask |= guard.mask;
        }
    }
    if active { Some(mask) } else { None }
}
