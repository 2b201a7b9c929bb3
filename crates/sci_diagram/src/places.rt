// Places of objects.
ghost use Rattle.std.specs.Prelude.{◌≡◌, ◌++◌, ◌∷◌, [], IfOk};

use sci_base::NoMemory;
use smallvec::SmallVec;
use std::alloc::Global;

/// The place of the object at a position of the diagram at a place. It is short enough to stand in line at every level.
#[inline(always)]
pub fn child(
    alloc: Global,
    at: &[u32],
    position: u32,
) -> Result<SmallVec<u32, 16, Global>, NoMemory>
    ensures { IfOk result (λ p. p.items ≡ at.now ++ position ∷ []) }
{
    let mut path = SmallVec::from_slice(alloc, at)?;
    path.push(position)?;
    Ok(path)
}
