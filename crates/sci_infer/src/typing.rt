// The one typing of a flat net, or where and why there is none.
ghost use Rattle.std.specs.Prelude.{◌≡◌, ℕ, map, IfOk};
ghost use Rattle.sci_infer.specs.Classes.{Joins};
ghost use Rattle.sci_infer.specs.Typing.{AreDeclaredWell, IsAlike, Decides};
ghost use Rattle.sci_infer.specs.PortParts.{parts_in, AreTied};
ghost use Rattle.sci_infer.specs.Layout.{IsLayout};

use crate::classes::Tie;
use crate::parts::{PartLayout, PortPart};
use crate::ties::{tie_shared, tie_wires};
use crate::values::{Resolution, judge};
use sci_base::NoMemory;
use sci_net::Flat;
use std::alloc::Global;

/// The declared numbers.
fn declared_numbers(alloc: Global, parts: &[PortPart]) -> Result<Vec<i64>, NoMemory>
    ensures { IfOk result (λ v. v.items ≡ map (λ (p : PortPart). p.declared) parts.now) }
{
    Ok(parts.iter().map(|part| part.declared).collect(alloc)?)
}

/// The one typing of parts that are tied, or where and why there is none.
fn decide(alloc: Global, parts: &[PortPart], ties: &[Tie]) -> Result<Resolution, NoMemory>
    requires declared { AreDeclaredWell parts.now }
    requires alike { (i j : ℕ) → Joins ties.now i j → IsAlike parts.now i j }
    ensures { IfOk result (λ v. Decides parts.now (Joins ties.now) v) }
{
    let declared = declared_numbers(alloc, parts)?;
    judge(alloc, declared.as_slice(), ties)
}

/// The one typing of a flat net, or where and why there is none.
pub fn verdict(alloc: Global, flat: &Flat, layout: &PartLayout) -> Result<Resolution, NoMemory>
    requires { IsLayout flat.now layout.now }
    ensures { IfOk result (λ v. Decides (parts_in flat.now) (AreTied flat.now) v) }
{
    flat.well_formed();
    let mut ties = Vec::new(alloc);
    tie_wires(flat, layout, &mut ties)?;
    tie_shared(layout, &mut ties)?;
    decide(alloc, layout.parts.as_slice(), ties.as_slice())
}
