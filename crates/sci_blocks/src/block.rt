// The rules on one block.
ghost use Rattle.std.specs.Prelude.{◌≡◌, ◌++◌, ◌∷◌, [], map, IfOk, IfErr, OnOk, Ok};
ghost use Rattle.sci_base.specs.Plain.{fields_of};
ghost use Rattle.sci_blocks.specs.Rows.{pass_through};
ghost use Rattle.sci_blocks.specs.Blocks.{block_parts, part_view};
ghost use Rattle.sci_blocks.specs.Adding.{onto};
ghost use Rattle.sci_base.specs.Stops.{Stops};

use crate::joint::joint_checked;
use crate::pass_through::PassThrough;
use crate::placed_block::PlacedBlock;
use sci_base::{BlockFields, Place, Stop};
use sci_check::check_spec;
use std::alloc::Global;

/// Adds a block of some kind.
fn add_kind(
    alloc: Global,
    here: &[u32],
    gui: &str,
    f: &BlockFields,
    parts: &mut Vec<PlacedBlock>,
) -> Result<(), Stop>
    ensures ok { OnOk result (onto (map part_view parts.old.items) (block_parts here.now gui.now (fields_of f.now) None) ≡ Ok (map part_view parts.new.items)) }
    ensures stop { IfErr result (λ e. Stops (block_parts here.now gui.now (fields_of f.now) None) e) }
{
    let place = Place::of(alloc, here)?;
    let spec = check_spec(alloc, gui, f, &place)?;
    parts.push(PlacedBlock { place, spec })?;
    Ok(())
}

/// Adds a block that is no superblock, where it is no pass-through object.
#[tactic(auto, using(sci_base::proofs::Stopping::stops_then, sci_diagram::proofs::Told::told_then))]
pub(crate) fn add_block(
    alloc: Global,
    here: &[u32],
    gui: &str,
    f: &BlockFields,
    parts: &mut Vec<PlacedBlock>,
) -> Result<(), Stop>
    ensures ok { OnOk result (onto (map part_view parts.old.items) (block_parts here.now gui.now (fields_of f.now) (pass_through gui.now))
        ≡ Ok (map part_view parts.new.items)) }
    ensures stop { IfErr result (λ e. Stops (block_parts here.now gui.now (fields_of f.now) (pass_through gui.now)) e) }
{
    match PassThrough::of(gui) {
        None => add_kind(alloc, here, gui, f, parts),
        Some(p) => joint_checked(alloc, here, p, f),
    }
}
