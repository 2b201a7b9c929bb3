//! What a net needs of its input file: the columns that its sensors read.
#![tactic(auto)]

ghost use Rattle.std.specs.Prelude.{◌≡◌, map, IfOk};
ghost use Rattle.sci_trace.specs.Columns.{needed_of};
ghost use Rattle.sci_needs.specs.Needs.{needs_of, AreOfSensors, ColumnsInRange};

use sci_base::NoMemory;
use sci_net::{Net, columns};
use sci_trace::inputs::Need;
use std::alloc::Global;

/// What the net needs of its input file, by block: of each sensor the column that it reads, the type of its values and the block's
/// place, and nothing else. `read_inputs` judges an input file by it.
pub fn needs_of_net(alloc: Global, net: &Net) -> Result<Vec<Need>, NoMemory>
    ensures in_order { IfOk result (λ v. map needed_of v.items ≡ needs_of net.now) }
    ensures exact { IfOk result (λ v. AreOfSensors net.now (map needed_of v.items)) }
{
    net.well_formed();
    let mut needs = Vec::new(alloc);
    for column in columns(alloc, net)?.iter() {
        needs.push(Need {
            column: column.number,
            ty: column.ty,
            place: net.path(column.block).copy(alloc)?,
        })?;
    }
    Ok(needs)
}

/// An input file that has what a net needs of it gives each sensor a column in range.
pub fn columns_in_range()
    ensures { ColumnsInRange }
{}
