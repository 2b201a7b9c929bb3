// The specs of a diagram's blocks, and their places.
ghost use Rattle.std.specs.Prelude.{◌≡◌, length, map, IfOk};
ghost use Rattle.sci_blocks.specs.Blocks.{part_view};
ghost use Rattle.sci_flat.specs.Placed.{placed_all};

use sci_base::{NoMemory, Place};
use sci_blocks::PlacedBlock;
use sci_forms::Spec;
use std::alloc::Global;

/// The blocks of a diagram in tree order.
#[derive(Drop)]
pub struct Blocks {
    pub specs: Vec<Spec>,
    pub places: Vec<Place>,
}

impl Blocks {
    /// Specs and places apart.
    pub(crate) fn of(alloc: Global, parts: Vec<PlacedBlock>) -> Result<Blocks, NoMemory>
        ensures same { IfOk result (λ b. placed_all b.specs.items b.places.items ≡ map part_view parts.items) }
        ensures long { IfOk result (λ b. length b.places.items ≡ length b.specs.items) }
    {
        let mut specs = Vec::with_capacity(alloc, parts.len())?;
        let mut places = Vec::with_capacity(alloc, parts.len())?;
        for part in parts {
            let PlacedBlock { place, spec } = part;
            specs.push(spec)?;
            places.push(place)?;
        }
        Ok(Blocks { specs, places })
    }
}
