// States, stops and idle blocks.
ghost use Rattle.std.specs.Prelude.{◌≡◌, ◌≤◌, ◌++◌, ◌||◌, ◌∷◌, [], length, pos, codes};
ghost use Rattle.sci_base.specs.Lists.{truth_at};
ghost use Rattle.sci_base.specs.declared.observation.StopWord.TheVariants.{Overflow, Zero};
ghost use Rattle.sci_io.specs.Taken.{Writes};
ghost use Rattle.sci_ranges_text.specs.Text.{interval_line, state_hull, block_state, block_stops, idle_line, is_open};
ghost use Rattle.sci_ranges_pass.specs.Pass.{is_possible};
ghost use Rattle.sci_ranges_marks.specs.View.{marks_of};
ghost use Rattle.sci_ranges_find.specs.View.{ranges_of};
ghost use Rattle.sci_ranges_tell.specs.Told.{plain_table, listed_line};

use crate::lines::put_line;
use sci_base::{Obs, StopWord};
use sci_io::{Failed, Sink};
use sci_net::Net;
use sci_ranges_base::Interval;
use sci_ranges_find::{RangeTable, is_possible};
use sci_ranges_kinds::state_range;
use sci_ranges_marks::RowMarks;
use sci_trace::write_obs;

/// The hull of the intervals of values 0 to `last` of a state.
fn hull_of_state(state: &[Interval], last: usize) -> Interval
    ensures { result ≡ state_hull state.now last }
{
    let mut all = state_range(state, 0);
    for k in 0..last {
        all = all.hull(state_range(state, k + 1));
    }
    all
}

/// The hull of a state, of which value `last` is the last one.
fn put_state<S: Sink>(
    block: u32,
    state: &[Interval],
    last: usize,
    out: &mut S,
) -> Result<(), Failed>
    ensures { Writes (S.state out.old) (S.state out.new) (interval_line (codes "state") (pos block ∷ []) (state_hull state.now last)) result }
{
    let all = hull_of_state(state, last);
    put_line("state", &[i64::from(block), all.least, all.greatest], out)
}

/// The hull of what a block remembers, where it remembers anything.
pub fn put_block_state<S: Sink>(
    net: &Net,
    table: &RangeTable,
    block: u32,
    out: &mut S,
) -> Result<(), Failed>
    requires least { 1 ≤ block }
    requires most { block ≤ length net.now.specs }
    ensures { Writes (S.state out.old) (S.state out.new) (block_state net.now (plain_table net.now (ranges_of table.now)) block) result }
{
    let count = net.spec(block).state_len();
    if count == 0 {
        return Ok(());
    }
    put_state(block, table.state(block), count - 1, out)
}

fn put_stop<S: Sink>(word: StopWord, block: u32, listed: bool, out: &mut S) -> Result<(), Failed>
    ensures { Writes (S.state out.old) (S.state out.new) (listed_line block word listed) result }
{
    if listed {
        write_obs(&Obs::Stop(word, i64::from(block), 0), out)
    } else {
        Ok(())
    }
}

fn put_faults<S: Sink>(table: &RangeTable, block: u32, out: &mut S) -> Result<(), Failed>
    ensures { Writes (S.state out.old) (S.state out.new) (listed_line block Overflow (truth_at (ranges_of table.now).overflows block)
        ++ listed_line block Zero (truth_at (ranges_of table.now).zeros block)) result }
{
    put_stop(StopWord::Overflow, block, table.may_overflow(block), out)?;
    put_stop(StopWord::Zero, block, table.may_divide_by_zero(block), out)
}

/// The stops that a block may come to.
pub fn put_block_stops<S: Sink>(
    net: &Net,
    table: &RangeTable,
    block: u32,
    out: &mut S,
) -> Result<(), Failed>
    requires least { 1 ≤ block }
    requires most { block ≤ length net.now.specs }
    ensures { Writes (S.state out.old) (S.state out.new) (block_stops (plain_table net.now (ranges_of table.now)) block) result }
{
    put_stop(
        StopWord::Input,
        block,
        net.spec(block).kind.is_sensor(),
        out,
    )?;
    put_faults(table, block, out)
}

/// A block that never acts.
pub fn put_idle<S: Sink>(marks: &RowMarks, block: u32, out: &mut S) -> Result<(), Failed>
    ensures { Writes (S.state out.old) (S.state out.new) (idle_line (is_possible (marks_of marks.now)) block) result }
{
    if is_possible(marks, block) {
        Ok(())
    } else {
        put_line("idle", &[i64::from(block)], out)
    }
}

/// Whether a block may stop by an overflow or a divisor of 0.
fn may_stop_at(table: &RangeTable, block: u32) -> bool
    ensures { result ≡ (truth_at (ranges_of table.now).overflows block || truth_at (ranges_of table.now).zeros block) }
{
    table.may_overflow(block) || table.may_divide_by_zero(block)
}

/// Whether some block may stop by an overflow or a divisor of 0.
pub fn may_stop(net: &Net, table: &RangeTable) -> bool
    ensures { result ≡ is_open net.now (plain_table net.now (ranges_of table.now)) }
{
    for at in 0..net.len() {
        if may_stop_at(table, at + 1) {
            return true;
        }
    }
    false
}
