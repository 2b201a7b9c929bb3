// All that is told, part by part.
ghost use Rattle.std.specs.Prelude.{◌≤◌, ◌++◌, All, length};
ghost use Rattle.sci_io.specs.Taken.{Writes};
ghost use Rattle.sci_ranges_text.specs.Text.{ranges_text, states_text, stops_text, idle_text, last_word, is_open};
ghost use Rattle.sci_ranges_pass.specs.Pass.{is_possible};
ghost use Rattle.sci_ranges_marks.specs.View.{marks_of};
ghost use Rattle.sci_ranges_find.specs.View.{ranges_of};
ghost use Rattle.sci_ranges_tell.specs.Told.{plain_table, told};

use crate::elements::put_outputs;
use crate::stops::{may_stop, put_block_state, put_block_stops, put_idle};
use sci_io::{Failed, Sink};
use sci_net::Net;
use sci_ranges_find::RangeTable;
use sci_ranges_marks::RowMarks;

fn put_ranges<S: Sink>(net: &Net, table: &RangeTable, out: &mut S) -> Result<(), Failed>
    ensures { Writes (S.state out.old) (S.state out.new) (ranges_text net.now (plain_table net.now (ranges_of table.now))) result }
{
    net.well_formed();
    for at in 0..net.len() {
        put_outputs(net, table, at + 1, out)?;
    }
    Ok(())
}

fn put_states<S: Sink>(net: &Net, table: &RangeTable, out: &mut S) -> Result<(), Failed>
    ensures { Writes (S.state out.old) (S.state out.new) (states_text net.now (plain_table net.now (ranges_of table.now))) result }
{
    for at in 0..net.len() {
        put_block_state(net, table, at + 1, out)?;
    }
    Ok(())
}

fn put_stops<S: Sink>(net: &Net, table: &RangeTable, out: &mut S) -> Result<(), Failed>
    ensures { Writes (S.state out.old) (S.state out.new) (stops_text net.now (plain_table net.now (ranges_of table.now))) result }
{
    for at in 0..net.len() {
        put_block_stops(net, table, at + 1, out)?;
    }
    Ok(())
}

fn put_idles<S: Sink>(net: &Net, marks: &RowMarks, out: &mut S) -> Result<(), Failed>
    ensures { Writes (S.state out.old) (S.state out.new) (idle_text net.now (is_possible (marks_of marks.now))) result }
{
    for at in 0..net.len() {
        put_idle(marks, at + 1, out)?;
    }
    Ok(())
}

fn put_word<S: Sink>(stops: bool, out: &mut S) -> Result<(), Failed>
    ensures { Writes (S.state out.old) (S.state out.new) (last_word stops) result }
{
    if stops {
        out.put("open\n".as_bytes())
    } else {
        out.put("safe\n".as_bytes())
    }
}

fn put_end<S: Sink>(
    net: &Net,
    marks: &RowMarks,
    table: &RangeTable,
    out: &mut S,
) -> Result<(), Failed>
    ensures { Writes (S.state out.old) (S.state out.new) (idle_text net.now (is_possible (marks_of marks.now))
        ++ last_word (is_open net.now (plain_table net.now (ranges_of table.now)))) result }
{
    put_idles(net, marks, out)?;
    put_word(may_stop(net, table), out)
}

fn put_stops_on<S: Sink>(
    net: &Net,
    marks: &RowMarks,
    table: &RangeTable,
    out: &mut S,
) -> Result<(), Failed>
    ensures { Writes (S.state out.old) (S.state out.new) (stops_text net.now (plain_table net.now (ranges_of table.now))
        ++ (idle_text net.now (is_possible (marks_of marks.now)) ++ last_word (is_open net.now (plain_table net.now (ranges_of table.now))))) result }
{
    put_stops(net, table, out)?;
    put_end(net, marks, table, out)
}

fn put_states_on<S: Sink>(
    net: &Net,
    marks: &RowMarks,
    table: &RangeTable,
    out: &mut S,
) -> Result<(), Failed>
    ensures { Writes (S.state out.old) (S.state out.new) (states_text net.now (plain_table net.now (ranges_of table.now))
        ++ (stops_text net.now (plain_table net.now (ranges_of table.now))
        ++ (idle_text net.now (is_possible (marks_of marks.now)) ++ last_word (is_open net.now (plain_table net.now (ranges_of table.now)))))) result }
{
    put_states(net, table, out)?;
    put_stops_on(net, marks, table, out)
}

/// Writes what is told of a table of a net. It fails where the sink does.
pub fn write_table<S: Sink>(
    net: &Net,
    marks: &RowMarks,
    table: &RangeTable,
    out: &mut S,
) -> Result<(), Failed>
    ensures { Writes (S.state out.old) (S.state out.new) (told net.now (marks_of marks.now) (ranges_of table.now)) result }
{
    put_ranges(net, table, out)?;
    put_states_on(net, marks, table, out)
}
