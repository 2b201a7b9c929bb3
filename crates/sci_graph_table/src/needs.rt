// Tables of what members depend on.
ghost use Rattle.std.specs.Prelude.{IfOk};
ghost use Rattle.sci_loop.specs.Table.{IsTable};

use anyhow::bail;
use sci_loop::{DepTable, Sorted, find, sort};
use sci_table::list;
use std::alloc::Global;

/// The table of these members, with `;` between what each depends on.
fn table(alloc: Global, words: &[&str]) -> anyhow::Result<DepTable>
    ensures { IfOk result IsTable }
{
    if words.len() != 2 {
        bail!("two words");
    }
    let mut needs = Vec::new(alloc);
    for each in words[1].split(';') {
        needs.push(list(alloc, each)?)?;
    }
    let table = DepTable {
        members: list(alloc, words[0])?,
        needs,
    };
    if !table.is_well_formed() {
        bail!("no table");
    }
    Ok(table)
}

/// Prints whether any member of a table depends on another, and a loop.
pub fn show_loop(rt: &impl Print, alloc: Global, words: &[&str]) -> anyhow::Result<()> {
    let table = table(alloc, words)?;
    let has_needs = table.has_needs();
    let Ok(found) = find(alloc, &table) else {
        bail!("out of memory");
    };
    print!(rt; " {has_needs} {found:?}")?;
    Ok(())
}

/// Prints the members of a table in an order.
pub fn show_order(rt: &impl Print, alloc: Global, words: &[&str]) -> anyhow::Result<()> {
    let table = table(alloc, words)?;
    let Ok(sorted) = sort(alloc, &table) else {
        bail!("out of memory");
    };
    match sorted {
        Sorted::Order(order) => print!(rt; " {order:?}")?,
        Sorted::Loop(found) => print!(rt; " loop {found:?}")?,
    }
    Ok(())
}
