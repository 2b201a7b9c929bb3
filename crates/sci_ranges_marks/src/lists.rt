// Lists of truths.
ghost use Rattle.std.specs.Prelude.{◌≡◌, slice_index_or, []};
ghost use Rattle.sci_base.specs.Lists.{truth_at};
ghost use Rattle.sci_net.specs.Parts.{rows_of};

/// Truth `k` of a list, false where there is none.
pub fn truth_at(truths: &[bool], k: usize) -> bool
    ensures { result ≡ truth_at truths.now k }
{
    if k < truths.len() { truths[k] } else { false }
}

/// List `k` of truths, the empty one where there is none.
pub fn list_at(lists: &[Vec<bool>], k: usize) -> &[bool]
    ensures { result.now ≡ slice_index_or (rows_of lists.now) k [] }
{
    if k < lists.len() {
        lists[k].as_slice()
    } else {
        &[]
    }
}
