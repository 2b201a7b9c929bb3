// Writes what a call comes to, as far as the sinks take it.
ghost use Rattle.std.specs.Prelude.{◌<◌, length};
ghost use Rattle.sci_base.specs.Plain.{violation_of};
ghost use Rattle.sci_print.specs.Line.{refused_line};
ghost use Rattle.sci_answers.specs.Answer.{prints, read_fault_line, write_fault_line, no_memory_line};
ghost use Rattle.sci_answers.specs.Written.{Written};
ghost use Rattle.sci_range_commands.specs.Due.{usage_line};
ghost use Rattle.sci_range_commands.specs.Prepared.{ranged_text};
ghost use Rattle.sci_range_commands.specs.Deliver.{Gives, Said, Delivers};

use crate::prepare::{Prepared, Ranged};
use sci_base::Refusal;
use sci_io::{Failed, Sink};
use sci_print::report::put_refused;
use sci_ranges_tell::write_table;

const USAGE: &str = "usage: ranges D I\n";

fn give<S: Sink>(text: &str, out: &mut S) -> Result<(), Failed>
    requires { 0 < length text.now }
    ensures { Gives (S.state out.old) (S.state out.new) text.now result }
{
    out.put(text.as_bytes())?;
    out.flush()
}

fn give_refusal<S: Sink>(refusal: &Refusal, out: &mut S) -> Result<(), Failed>
    ensures { Gives (S.state out.old) (S.state out.new) (refused_line (violation_of refusal.now)) result }
{
    put_refused(refusal, out)?;
    out.flush()
}

#[tactic(auto, using(crate::proofs::Giving::some_text))]
fn say<E: Sink>(status: u8, text: &str, err: &mut E) -> u8
    requires { 0 < length text.now }
    ensures { Said status text.now (E.state err.old) (E.state err.new) result }
{
    match give(text, err) {
        Ok(()) => status,
        Err(Failed) => 4,
    }
}

#[tactic(auto, using(crate::proofs::Giving::some_refusal))]
fn refuse<E: Sink>(refusal: &Refusal, err: &mut E) -> u8
    ensures { Said 1 (refused_line (violation_of refusal.now)) (E.state err.old) (E.state err.new) result }
{
    match give_refusal(refusal, err) {
        Ok(()) => 1,
        Err(Failed) => 4,
    }
}

#[tactic(auto, unfolding(crate::specs::Due::usage_line))]
fn say_usage<E: Sink>(err: &mut E) -> u8
    ensures { Said 2 usage_line (E.state err.old) (E.state err.new) result }
{
    say(2, USAGE, err)
}

#[tactic(auto, unfolding(sci_answers::specs::Answer::read_fault_line))]
fn say_read_fault<E: Sink>(err: &mut E) -> u8
    ensures { Said 3 read_fault_line (E.state err.old) (E.state err.new) result }
{
    say(3, "read fault\n", err)
}

#[tactic(auto, unfolding(sci_answers::specs::Answer::write_fault_line))]
fn say_write_fault<E: Sink>(err: &mut E) -> u8
    ensures { Said 4 write_fault_line (E.state err.old) (E.state err.new) result }
{
    say(4, "write fault\n", err)
}

#[tactic(auto, unfolding(sci_answers::specs::Answer::no_memory_line))]
fn say_no_memory<E: Sink>(err: &mut E) -> u8
    ensures { Said 5 no_memory_line (E.state err.old) (E.state err.new) result }
{
    say(5, "out of memory\n", err)
}

// Writes a table and gives it on.
fn give_table<O: Sink>(ranged: &Ranged, out: &mut O) -> Result<(), Failed>
    ensures { Gives (O.state out.old) (O.state out.new) (ranged_text ranged.now) result }
{
    write_table(&ranged.net, &ranged.found.marks, &ranged.found.table, out)?;
    out.flush()
}

// Prints a table, or tells the failure of out.
fn print_table<O: Sink, E: Sink>(ranged: &Ranged, out: &mut O, err: &mut E) -> u8
    ensures { Written (prints (ranged_text ranged.now)) (O.state out.old) (O.state out.new) (E.state err.old) (E.state err.new) result }
{
    match give_table(ranged, out) {
        Ok(()) => 0,
        Err(_) => say_write_fault(err),
    }
}

/// Writes what a call comes to, and gives the status.
pub fn deliver<O: Sink, E: Sink>(prepared: Prepared, out: &mut O, err: &mut E) -> u8
    ensures { Delivers prepared (O.state out.old) (O.state out.new) (E.state err.old) (E.state err.new) result }
{
    match prepared {
        Prepared::Usage => say_usage(err),
        Prepared::Refused(refusal) => refuse(&refusal, err),
        Prepared::ReadFault => say_read_fault(err),
        Prepared::Memory => say_no_memory(err),
        Prepared::Ranges(ranged) => print_table(&ranged, out, err),
    }
}
