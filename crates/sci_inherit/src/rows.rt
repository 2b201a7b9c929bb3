// What each activation output feeds, from where it begins, for the blocks of which this is wanted.
ghost use Rattle.std.specs.Prelude.{◌≡◌, ◌≤◌, ◌+◌, ◌-◌, [], ◌∷◌, length, All, Contains, IfOk, OnOk};
ghost use Rattle.sci_net.specs.Parts.{AreRising};
ghost use Rattle.sci_net.specs.declared.Feed.{Feed};
ghost use Rattle.sci_inherit.specs.Followers.{row_at, AreInOrder, ComeBefore, Appends, plain_rows, HasRow, HaveRows, AreEmptyRows, Fills, RowGets, FeedGets};
ghost use Rattle.sci_inherit.specs.Followers.{BlockFed, AreRows};

use crate::Fed;
use sci_base::NoMemory;
use sci_loop::walk::{empty_lists, push_at};
use sci_net::{Feed, Net};
use std::alloc::Global;

/// What the activation outputs of some blocks feed, by number, from 0 on, which is no block and no port.
#[derive(Drop)]
pub struct FedRows {
    /// By block, whether the rows of its activation outputs are filled; those of the others are empty.
    pub wanted: Vec<bool>,
    /// By block and port of an activation output, the activation inputs that it feeds.
    pub fed: Vec<Vec<Vec<Fed>>>,
}

// So many rows for each block as it has activation outputs, and one more, all empty.
fn empty_rows(alloc: Global, net: &Net) -> Result<Vec<Vec<Vec<Fed>>>, NoMemory>
    ensures { IfOk result (λ v. AreEmptyRows net.now (length net.now.specs) (plain_rows v.items)) }
{
    let mut rows = Vec::new(alloc);
    rows.push(Vec::new(alloc))?;
    for at in 0..net.len() {
        rows.push(empty_lists(alloc, net.spec(at + 1).evtout as usize + 1)?)?;
    }
    Ok(rows)
}

// Gives an activation input to an output that feeds it.
fn push_to_feed(rows: &mut Vec<Vec<Vec<Fed>>>, feed: Feed, fed: Fed) -> Result<(), NoMemory>
    requires { HasRow (plain_rows rows.old.items) feed }
    ensures fills { OnOk result (Fills (RowGets feed fed) (plain_rows rows.old.items) (plain_rows rows.new.items)) }
    ensures appends { OnOk result (Appends (λ q. feed ≡ q) fed (plain_rows rows.old.items) (plain_rows rows.new.items)) }
{
    push_at(&mut rows[feed.block as usize], feed.port as usize, fed)
}

// The same, if the rows of its block are wanted.
fn push_if_wanted(
    rows: &mut Vec<Vec<Vec<Fed>>>,
    wanted: &[bool],
    feed: Feed,
    fed: Fed,
) -> Result<(), NoMemory>
    requires row { HasRow (plain_rows rows.old.items) feed }
    requires wanted { length wanted.now ≡ length (plain_rows rows.old.items) }
    ensures fills { OnOk result (Fills (FeedGets wanted.now (feed ∷ []) fed) (plain_rows rows.old.items) (plain_rows rows.new.items)) }
    ensures appends { OnOk result (Appends (λ q. feed ≡ q) fed (plain_rows rows.old.items) (plain_rows rows.new.items)) }
{
    if wanted[feed.block as usize] {
        push_to_feed(rows, feed, fed)
    } else {
        Ok(())
    }
}

// Gives an activation input to all outputs that feed it and whose rows are wanted.
fn push_to_feeds(
    rows: &mut Vec<Vec<Vec<Fed>>>,
    wanted: &[bool],
    feeds: &[Feed],
    fed: Fed,
) -> Result<(), NoMemory>
    requires rows { All (HasRow (plain_rows rows.old.items)) feeds.now }
    requires wanted { length wanted.now ≡ length (plain_rows rows.old.items) }
    requires rising { AreRising feeds.now }
    ensures fills { OnOk result (Fills (FeedGets wanted.now feeds.now fed) (plain_rows rows.old.items) (plain_rows rows.new.items)) }
    ensures appends { OnOk result (Appends (Contains feeds.now) fed (plain_rows rows.old.items) (plain_rows rows.new.items)) }
{
    for feed in feeds {
        push_if_wanted(rows, wanted, *feed, fed)?;
    }
    Ok(())
}

// Gives the activation inputs of a block to all outputs that feed them and whose rows are wanted.
fn push_block(
    rows: &mut Vec<Vec<Vec<Fed>>>,
    net: &Net,
    wanted: &[bool],
    block: u32,
) -> Result<(), NoMemory>
    requires least { 1 ≤ block }
    requires most { block ≤ length net.now.specs }
    requires wanted { length wanted.now ≡ length net.now.specs + 1 }
    requires shape { HaveRows net.now (plain_rows rows.old.items) }
    requires before { ComeBefore (record { block = block; input = 1 }) (plain_rows rows.old.items) }
    ensures fills { OnOk result (Fills (BlockFed net.now wanted.now (block - 1)) (plain_rows rows.old.items) (plain_rows rows.new.items)) }
    ensures before { OnOk result (ComeBefore (record { block = block + 1; input = 1 }) (plain_rows rows.new.items)) }
{
    net.well_formed();
    for at in 0..net.spec(block).evtin {
        let input = at + 1;
        push_to_feeds(rows, wanted, net.feeds(block, input), Fed { block, input })?;
    }
    Ok(())
}

// By number of the block and of the port, the activation inputs that the output feeds, if its rows are wanted.
fn rows(alloc: Global, net: &Net, wanted: &[bool]) -> Result<Vec<Vec<Vec<Fed>>>, NoMemory>
    requires { length wanted.now ≡ length net.now.specs + 1 }
    ensures shape { IfOk result (λ v. HaveRows net.now (plain_rows v.items)) }
    ensures rows { IfOk result (λ v. AreRows net.now wanted.now (plain_rows v.items)) }
    ensures in_order { IfOk result (λ v. (q : Feed) → AreInOrder (row_at (plain_rows v.items) q)) }
{
    net.well_formed();
    let mut rows = empty_rows(alloc, net)?;
    for at in 0..net.len() {
        push_block(&mut rows, net, wanted, at + 1)?;
    }
    Ok(rows)
}

impl FedRows {
    ghost use Rattle.sci_inherit.specs.Followers.{AreFedRows};

    /// Those of a net, for the blocks that are wanted.
    pub fn of(alloc: Global, net: &Net, wanted: Vec<bool>) -> Result<FedRows, NoMemory>
        requires { length wanted.items ≡ length net.now.specs + 1 }
        ensures rows { IfOk result (λ r. AreFedRows net.now r) }
        ensures wanted { IfOk result (λ r. r.wanted.items ≡ wanted.items) }
    {
        let fed = rows(alloc, net, &wanted)?;
        Ok(FedRows { wanted, fed })
    }

    /// The activation inputs that an activation output feeds, if the rows of its block are filled; none otherwise.
    pub fn of_output(&self, feed: Feed) -> &[Fed]
        requires { HasRow (plain_rows self.now.fed.items) feed }
        ensures { result.now ≡ row_at (plain_rows self.now.fed.items) feed }
    {
        self.fed[feed.block as usize][feed.port as usize].as_slice()
    }
}
