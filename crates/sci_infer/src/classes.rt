// Classes of things that are tied in pairs: the least equivalence that holds the ties, by union-find with path halving.
ghost use Rattle.std.specs.Prelude.{◌≡◌, ℕ, ◌<◌, List, length, IfOk, All, slice_index};
ghost use Rattle.sci_infer.specs.Classes.{Joins, Tied, Points, IsForest, IsRenewed, AreClasses, AreFlat, IsWithin, IsLinked, IsAcross, IsFlattened};

use sci_base::NoMemory;
use std::alloc::Global;

/// Two things, by their numbers, that belong to one class.
#[derive(Clone, Copy, Drop)]
pub struct Tie {
    pub left: usize,
    pub right: usize,
}

/// The root of a thing's tree. On the way each second thing is hung one higher.
fn root(parents: &mut Vec<usize>, from: usize) -> usize
    requires forest { IsForest parents.old.items }
    requires within { from < length parents.old.items }
    ensures within { result < length parents.new.items }
    ensures root { slice_index parents.new.items result ≡ result }
    ensures leads { Tied (Points parents.new.items) from result }
    ensures renewed { IsRenewed parents.old.items parents.new.items }
{
    let mut at = from;
    while parents[at] != at {
        let above = parents[parents[at]];
        parents[at] = above;
        at = above;
    }
    at
}

/// Makes one class of the classes of two things.
fn join(parents: &mut Vec<usize>, left: usize, right: usize)
    requires forest { IsForest parents.old.items }
    requires left { left < length parents.old.items }
    requires right { right < length parents.old.items }
    ensures { IsLinked parents.old.items parents.new.items left right }
{
    let a = root(parents, left);
    let b = root(parents, right);
    if a < b {
        parents[b] = a;
    } else {
        parents[a] = b;
    }
}

/// Hangs each thing at its root.
fn flatten(parents: &mut Vec<usize>)
    requires { IsForest parents.old.items }
    ensures { IsFlattened parents.old.items parents.new.items }
{
    for i in 0..parents.len() {
        let above = parents[parents[i]];
        parents[i] = above;
    }
}

/// Makes classes along all ties.
fn join_all(parents: &mut Vec<usize>, ties: &[Tie])
    requires forest { IsForest parents.old.items }
    requires ties { All (IsWithin (length parents.old.items)) ties.now }
    ensures { IsAcross parents.old.items parents.new.items ties.now }
{
    for tie in ties {
        join(parents, tie.left, tie.right);
    }
}

/// Each of n things at itself.
fn alone(alloc: Global, n: usize) -> Result<Vec<usize>, NoMemory>
    ensures length { IfOk result (λ v. length v.items ≡ n) }
    ensures alone { IfOk result (λ v. (k : ℕ) → k < n → slice_index v.items k ≡ k) }
{
    let mut parents = Vec::new(alloc);
    for i in 0..n {
        parents.push(i)?;
    }
    Ok(parents)
}

/// One label for each class: two of n things have the same exactly where ties join them.
pub fn classes(alloc: Global, n: usize, ties: &[Tie]) -> Result<Vec<usize>, NoMemory>
    requires { All (IsWithin n) ties.now }
    ensures { IfOk result (λ labels. AreClasses (Joins ties.now) n labels.items) }
{
    let mut parents = alone(alloc, n)?;
    join_all(&mut parents, ties);
    flatten(&mut parents);
    Ok(parents)
}
