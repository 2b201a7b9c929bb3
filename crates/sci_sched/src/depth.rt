// The depth of each member of a table: how many members the longest chain of dependencies that ends at it has.
ghost use Rattle.std.specs.Prelude.{◌<◌, All, length};
ghost use Rattle.sci_loop.specs.Table.{IsTable};
ghost use Rattle.sci_loop.specs.Sorted.{IsOrder};
ghost use Rattle.sci_sched.specs.Depths.{IsDeepest, HaveDepths};

use sci_loop::DepTable;

// The greatest depth of some blocks; 0 where there is none.
fn deepest(depths: &[usize], blocks: &[u32]) -> usize
    requires { All (λ b. b < length depths.now) blocks.now }
    ensures { IsDeepest depths.now blocks.now result }
{
    let mut deepest = 0;
    for block in blocks {
        deepest = deepest.max(depths[*block as usize]);
    }
    deepest
}

/// Sets the depth of each member of a table that has no loop, by number. What was there before does not count.
pub fn set_depths(table: &DepTable, order: &[u32], depths: &mut [usize])
    requires table { IsTable table.now }
    requires order { IsOrder table.now order.now }
    requires below { All (λ b. b < length depths.old) table.now.members.items }
    ensures { HaveDepths table.now depths.new }
{
    for block in order {
        let depth = deepest(depths, table.needs_of(*block)) + 1;
        depths[*block as usize] = depth;
    }
}
