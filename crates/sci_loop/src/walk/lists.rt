// Lists by number.
ghost use Rattle.std.specs.Prelude.{◌≡◌, ℕ, ◌<◌, [], ◌∷◌, ◌++◌, IfOk, OnOk, OnErr, vec_len, replicate, slice_set};
ghost use Rattle.sci_loop.specs.Lists.{plain, list_at};

use sci_base::NoMemory;
use std::alloc::Global;

/// So many empty lists.
pub fn empty_lists<T: Drop>(alloc: Global, count: usize) -> Result<Vec<Vec<T>>, NoMemory>
    ensures empty { IfOk result (λ v. plain v.items ≡ replicate count []) }
    ensures len { IfOk result (λ v. vec_len v ≡ count) }
{
    let mut lists = Vec::new(alloc);
    for _turn in 0..count {
        lists.push(Vec::new(alloc))?;
    }
    Ok(lists)
}

/// Puts an item at the end of a list. An error leaves the lists as they were.
pub fn push_at<T: Drop>(lists: &mut Vec<Vec<T>>, at: usize, item: T) -> Result<(), NoMemory>
    requires { at < vec_len lists.old }
    ensures lists { OnOk result (plain lists.new.items
        ≡ slice_set (plain lists.old.items) at (list_at (plain lists.old.items) at ++ item ∷ [])) }
    ensures err { OnErr result (plain lists.new.items ≡ plain lists.old.items) }
    ensures len { OnOk result (vec_len lists.new ≡ vec_len lists.old) }
{
    lists[at].push(item)?;
    Ok(())
}
