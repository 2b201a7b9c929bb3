ghost use Rattle.std.specs.Prelude.{◌≡◌, ◌≢◌, false, ◌≤◌, ◌<◌, IsTrue, IfOk, [], length, pos};
ghost use Rattle.sci_base.specs.declared.limits.TheConstants.{TICKS, EVENTS};
ghost use Rattle.sci_bank.specs.Library.{IsFull};
ghost use Rattle.sci_base.specs.Plain.{violation_of};
ghost use Rattle.sci_print.specs.Line.{refused_line};
ghost use Rattle.sci_words.specs.Words.{usage_line};
ghost use Rattle.sci_io.specs.Taken.{Writes};
ghost use Rattle.c_ast.specs.View.{whole_of};
ghost use Rattle.c_ast.specs.Spelling.{spelling};
ghost use Rattle.c_ast.specs.Bounds.{IsWhole};
ghost use Rattle.c_mean.specs.Meaning.{meaning};
ghost use Rattle.sci_answers.specs.declared.told.Told.TheVariants.{Check};
ghost use Rattle.sci_answers.specs.Answer.{IsDone, prints, write_fault_line, read_fault_line, no_memory_line};
ghost use Rattle.sci_answers.specs.RunC.{undefined_line};
ghost use Rattle.sci_answers.specs.Prepared.{counted_line, told_text, HasRows, IsReadyToRun, IsPrepared, LeavesBanks};
ghost use Rattle.sci_answers.specs.Counts.{CountsRun};
ghost use Rattle.sci_print.specs.Values.{values_text};
ghost use Rattle.sci_answers.specs.Judge.{judged};
ghost use Rattle.sci_save.specs.Saved.{saved_of};
ghost use Rattle.sci_save.specs.Text.{saved_text};
ghost use Rattle.sci_save.specs.Valid.{IsShaped};
ghost use Rattle.sci_print.specs.Numbers.{numbers_line};
ghost use Rattle.sci_answers.specs.Written.{Written};
ghost use Rattle.sci_deliver.specs.Deliver.{Gives, Said, PrintsTrace, Finished, RunsOut, RanC, FinishedC, Delivers};

use crate::judged::{give_verdict, status_of};
use crate::probe::silent_end;
use crate::rest::print_rest;
use crate::run_dump::print_dump;
use c_ast::Program;
use c_run::{CEnd, RunStop, run};
use itoa::Buffer;
use sci_agree::Verdict;
use sci_answers::prepared::{BulkCounts, Prepared, SavedRun, Simulation};
use sci_answers::told::Told;
use sci_bank::Bank;
use sci_bank::library::Library;
use sci_base::{NoMemory, Refusal};
use sci_io::{Failed, Sink, put_all};
use sci_print::net_map::write_map;
use sci_print::numbers::put_line;
use sci_print::report::put_refused;
use sci_print::values::write_values;
use sci_save::write_save;
use sci_sched::write_plan;
use sci_sim::RunEnd;
use sci_trace::inputs::Inputs;
use sci_vcd::Dump;
use sci_verdict::Measured;
use std::alloc::Global;

const USAGE: &str =
    "usage: scicos check D | map D | schedule D | simulate D I T N | ccode D | crun C I T N | host | bulk SEED SIZE | judge D I V T N | save D I T N K | resume D I S T N | vcd D I T N | vcdat V K\n";

fn give<S: Sink>(text: &str, out: &mut S) -> Result<(), Failed>
    requires { 0 < length text.now }
    ensures { Gives (S.state out.old) (S.state out.new) text.now result }
{
    out.put(text.as_bytes())?;
    out.flush()
}

fn give_refusal<S: Sink>(refusal: &Refusal, out: &mut S) -> Result<(), Failed>
    ensures { Gives (S.state out.old) (S.state out.new) (refused_line (violation_of refusal.now)) result }
{
    put_refused(refusal, out)?;
    out.flush()
}

#[tactic(auto, using(crate::proofs::Giving::some_text))]
fn say<E: Sink>(status: u8, text: &str, err: &mut E) -> u8
    requires { 0 < length text.now }
    ensures { Said status text.now (E.state err.old) (E.state err.new) result }
{
    match give(text, err) {
        Ok(()) => status,
        Err(Failed) => 4,
    }
}

#[tactic(auto, using(crate::proofs::Giving::some_refusal))]
fn refuse<E: Sink>(refusal: &Refusal, err: &mut E) -> u8
    ensures { Said 1 (refused_line (violation_of refusal.now)) (E.state err.old) (E.state err.new) result }
{
    match give_refusal(refusal, err) {
        Ok(()) => 1,
        Err(Failed) => 4,
    }
}

#[tactic(auto, unfolding(sci_words::specs::Words::usage_line))]
fn say_usage<E: Sink>(err: &mut E) -> u8
    ensures { Said 2 usage_line (E.state err.old) (E.state err.new) result }
{
    say(2, USAGE, err)
}

#[tactic(auto, unfolding(sci_answers::specs::Answer::read_fault_line))]
fn say_read_fault<E: Sink>(err: &mut E) -> u8
    ensures { Said 3 read_fault_line (E.state err.old) (E.state err.new) result }
{
    say(3, "read fault\n", err)
}

#[tactic(auto, unfolding(sci_answers::specs::Answer::write_fault_line))]
fn say_write_fault<E: Sink>(err: &mut E) -> u8
    ensures { Said 4 write_fault_line (E.state err.old) (E.state err.new) result }
{
    say(4, "write fault\n", err)
}

#[tactic(auto, unfolding(sci_answers::specs::Answer::no_memory_line))]
fn say_no_memory<E: Sink>(err: &mut E) -> u8
    ensures { Said 5 no_memory_line (E.state err.old) (E.state err.new) result }
{
    say(5, "out of memory\n", err)
}

// Runs to the end and gives the last byte on.
fn print_trace<O: Sink, B: Bank>(
    simulation: Simulation,
    lib: &mut Library<B>,
    out: &mut O,
) -> Result<RunEnd, Failed>
    requires { IsReadyToRun lib.old simulation }
    ensures printed { PrintsTrace simulation (O.state out.old) (O.state out.new) result }
    ensures counts_run { IfOk result (λ e. CountsRun simulation.ready.fixed.net simulation.inputs simulation.until simulation.limit lib.new) }
    ensures full { IsFull lib.new }
{
    let Simulation {
        mut ready,
        inputs,
        until,
        limit,
    } = simulation;
    let end = ready.run(lib, &inputs, until, limit, out)?;
    out.flush()?;
    Ok(end)
}

// Prints the verdict on a trace, or tells the failure of out.
#[tactic(auto, using(crate::proofs::Verdicts::verdict_written, crate::proofs::Verdicts::verdict_cut))]
fn print_verdict<O: Sink, E: Sink>(verdict: Verdict, out: &mut O, err: &mut E) -> u8
    ensures { Written (judged verdict) (O.state out.old) (O.state out.new) (E.state err.old) (E.state err.new) result }
{
    match give_verdict(verdict, out) {
        Ok(()) => status_of(verdict),
        Err(_) => say_write_fault(err),
    }
}

// Writes what is saved and gives it on.
fn give_saved<O: Sink>(saved: &SavedRun, out: &mut O) -> Result<(), Failed>
    requires { IsShaped saved.now.ready.fixed.net (saved_of saved.now.image) }
    ensures { Gives (O.state out.old) (O.state out.new) (saved_text saved.now.ready.fixed.net (saved_of saved.now.image)) result }
{
    write_save(saved.ready.net(), &saved.image, out)?;
    out.flush()
}

// Prints what is saved of a run, or tells the failure of out.
#[tactic(auto, using(crate::proofs::Rests::saved_some, crate::proofs::Giving::told_written, crate::proofs::Giving::told_cut))]
fn print_saved<O: Sink, E: Sink>(saved: &SavedRun, out: &mut O, err: &mut E) -> u8
    requires { IsShaped saved.now.ready.fixed.net (saved_of saved.now.image) }
    ensures { Written (prints (saved_text saved.now.ready.fixed.net (saved_of saved.now.image))) (O.state out.old) (O.state out.new)
        (E.state err.old) (E.state err.new) result }
{
    match give_saved(saved, out) {
        Ok(()) => 0,
        Err(_) => say_write_fault(err),
    }
}

// Prints a text, or tells the failure of out.
#[tactic(auto, using(crate::proofs::Giving::printed_written, crate::proofs::Giving::cut_written))]
fn print<O: Sink, E: Sink>(text: &str, out: &mut O, err: &mut E) -> u8
    requires { 0 < length text.now }
    ensures { Written (prints text.now) (O.state out.old) (O.state out.new) (E.state err.old) (E.state err.new) result }
{
    match give(text, out) {
        Ok(()) => 0,
        Err(_) => say_write_fault(err),
    }
}

fn put_counts<O: Sink>(measured: &Measured, out: &mut O) -> Result<(), Failed>
    ensures { Writes (O.state out.old) (O.state out.new) (told_text (Check measured.now)) result }
{
    put_line(
        "ok",
        &[
            measured.net.len() as u64,
            measured.net.source_count() as u64,
            measured.size.entries,
            measured.size.guards,
        ],
        out,
    )
}

fn put_told<O: Sink>(told: &Told, out: &mut O) -> Result<(), Failed>
    requires { HasRows told.now }
    ensures { Writes (O.state out.old) (O.state out.new) (told_text told.now) result }
{
    match told {
        Told::Check(measured) => put_counts(measured, out),
        Told::Map(net) => write_map(net, out),
        Told::Schedule(checked) => write_plan(&checked.net, &checked.schedule, out),
    }
}

fn give_told<O: Sink>(told: &Told, out: &mut O) -> Result<(), Failed>
    requires { HasRows told.now }
    ensures { Gives (O.state out.old) (O.state out.new) (told_text told.now) result }
{
    put_told(told, out)?;
    out.flush()
}

// Whether nothing is told: the map of a diagram without blocks.
fn is_silent(told: &Told) -> bool
    requires { HasRows told.now }
    ensures silent { IsTrue result → told_text told.now ≡ [] }
    ensures loud { result ≡ false → told_text told.now ≢ [] }
{
    match told {
        Told::Check(_) => false,
        Told::Map(net) => net.len() == 0,
        Told::Schedule(_) => false,
    }
}

// Prints what is told of a diagram, or tells the failure of out.
#[tactic(auto, using(crate::proofs::Giving::silent_written, crate::proofs::Giving::told_written, crate::proofs::Giving::told_cut))]
fn tell<O: Sink, E: Sink>(told: &Told, out: &mut O, err: &mut E) -> u8
    requires { HasRows told.now }
    ensures { Written (prints (told_text told.now)) (O.state out.old) (O.state out.new) (E.state err.old) (E.state err.new) result }
{
    if is_silent(told) {
        return 0;
    }
    match give_told(told, out) {
        Ok(()) => 0,
        Err(_) => say_write_fault(err),
    }
}

// Writes the line of a word and numbers and gives it on.
fn give_line<S: Sink>(word: &str, numbers: &[u64], out: &mut S) -> Result<(), Failed>
    requires { 0 < length word.now }
    ensures { Gives (S.state out.old) (S.state out.new) (numbers_line word.now numbers.now) result }
{
    put_line(word, numbers, out)?;
    out.flush()
}

// Prints the line of a word and numbers, or tells the failure of out.
fn print_line<O: Sink, E: Sink>(word: &str, numbers: &[u64], out: &mut O, err: &mut E) -> u8
    requires { 0 < length word.now }
    ensures { Written (prints (numbers_line word.now numbers.now)) (O.state out.old) (O.state out.new) (E.state err.old) (E.state err.new) result }
{
    match give_line(word, numbers, out) {
        Ok(()) => 0,
        Err(_) => say_write_fault(err),
    }
}

// Prints what is counted of a bulk diagram, or tells the failure of out.
#[tactic(auto, unfolding(sci_answers::specs::Bulk::bulk_line))]
fn print_bulk<O: Sink, E: Sink>(counts: &BulkCounts, out: &mut O, err: &mut E) -> u8
    ensures { Written (prints (counted_line counts.now)) (O.state out.old) (O.state out.new) (E.state err.old) (E.state err.new) result }
{
    print_line(
        "bulk",
        &[
            counts.blocks as u64,
            counts.sources as u64,
            counts.entries,
            counts.guards,
            counts.lines,
            counts.sum as u64,
        ],
        out,
        err,
    )
}

fn give_code<O: Sink>(program: &Program, out: &mut O) -> Result<(), Failed>
    requires { IsWhole (whole_of program.now) }
    ensures { Gives (O.state out.old) (O.state out.new) (spelling (whole_of program.now)) result }
{
    c_print::print(program, out)?;
    out.flush()
}

// Prints a C program, or tells the failure of out.
#[tactic(auto, using(crate::proofs::Silent::code_some, crate::proofs::Giving::told_written, crate::proofs::Giving::told_cut))]
fn print_code<O: Sink, E: Sink>(program: &Program, out: &mut O, err: &mut E) -> u8
    requires { IsWhole (whole_of program.now) }
    ensures { Written (prints (spelling (whole_of program.now))) (O.state out.old) (O.state out.new) (E.state err.old) (E.state err.new) result }
{
    match give_code(program, out) {
        Ok(()) => 0,
        Err(_) => say_write_fault(err),
    }
}

fn finish<E: Sink>(ran: Result<RunEnd, Failed>, err: &mut E) -> u8
    ensures { Finished ran (E.state err.old) (E.state err.new) result }
{
    match ran {
        Ok(RunEnd::End(_)) => 0,
        Ok(RunEnd::Stop(_)) => 6,
        Err(Failed) => say_write_fault(err),
    }
}

// Runs a C program to the end and gives the last byte on.
fn run_out<O: Sink>(
    alloc: Global,
    program: &Program,
    inputs: &Inputs,
    until: u64,
    limit: u64,
    out: &mut O,
) -> Result<CEnd, RunStop>
    requires until { until ≤ TICKS }
    requires limit { limit ≤ EVENTS }
    ensures { RunsOut (meaning (whole_of program.now) inputs.now (pos until) (pos limit)) (O.state out.old) (O.state out.new) result }
{
    let end = run(alloc, program, inputs, until, limit, out)?;
    match out.flush() {
        Ok(()) => Ok(end),
        Err(_) => Err(RunStop::Failed),
    }
}

// Runs a C program. Where it observes nothing, out is not written to.
#[tactic(auto, using(crate::proofs::Giving::c_observed, crate::proofs::Giving::c_silent))]
fn print_run<O: Sink>(
    alloc: Global,
    program: &Program,
    inputs: &Inputs,
    until: u64,
    limit: u64,
    out: &mut O,
) -> Result<CEnd, RunStop>
    requires until { until ≤ TICKS }
    requires limit { limit ≤ EVENTS }
    ensures { RanC (meaning (whole_of program.now) inputs.now (pos until) (pos limit)) (O.state out.old) (O.state out.new) result }
{
    match silent_end(alloc, program, inputs, until, limit) {
        Ok(Some(end)) => Ok(end),
        Ok(None) => run_out(alloc, program, inputs, until, limit, out),
        Err(NoMemory) => Err(RunStop::Memory),
    }
}

fn put_undefined<E: Sink>(statement: u64, err: &mut E) -> Result<(), Failed>
    ensures { Writes (E.state err.old) (E.state err.new) (undefined_line statement) result }
{
    let mut number = Buffer::new();
    put_all(
        err,
        &[
            "undefined at ".as_bytes(),
            number.format(statement).as_bytes(),
            "\n".as_bytes(),
        ],
    )
}

fn give_undefined<E: Sink>(statement: u64, err: &mut E) -> Result<(), Failed>
    ensures { Gives (E.state err.old) (E.state err.new) (undefined_line statement) result }
{
    put_undefined(statement, err)?;
    err.flush()
}

#[tactic(auto, using(crate::proofs::Giving::some_statement))]
fn say_undefined<E: Sink>(statement: u64, err: &mut E) -> u8
    ensures { Said 7 (undefined_line statement) (E.state err.old) (E.state err.new) result }
{
    match give_undefined(statement, err) {
        Ok(()) => 7,
        Err(Failed) => 4,
    }
}

fn finish_run<E: Sink>(ran: Result<CEnd, RunStop>, err: &mut E) -> u8
    ensures { FinishedC ran (E.state err.old) (E.state err.new) result }
{
    match ran {
        Ok(CEnd::End) => 0,
        Ok(CEnd::Stop) => 6,
        Ok(CEnd::Undefined(statement)) => say_undefined(statement, err),
        Err(RunStop::Failed) => say_write_fault(err),
        Err(RunStop::Memory) => say_no_memory(err),
    }
}

fn give_values<O: Sink>(dump: &Dump, tick: u64, out: &mut O) -> Result<(), Failed>
    ensures { Gives (O.state out.old) (O.state out.new) (values_text dump.now tick) result }
{
    write_values(dump, tick, out)?;
    out.flush()
}

// Prints the values of a dump at a tick, or tells the failure of out. A dump without signals has none.
#[tactic(auto, using(sci_print::proofs::ValueLines::no_values, sci_print::proofs::ValueLines::some_values, crate::proofs::Giving::silent_written, crate::proofs::Giving::told_written, crate::proofs::Giving::told_cut))]
fn print_values<O: Sink, E: Sink>(dump: &Dump, tick: u64, out: &mut O, err: &mut E) -> u8
    ensures { Written (prints (values_text dump.now tick)) (O.state out.old) (O.state out.new) (E.state err.old) (E.state err.new) result }
{
    if dump.count() == 0 {
        return 0;
    }
    match give_values(dump, tick, out) {
        Ok(()) => 0,
        Err(_) => say_write_fault(err),
    }
}

/// Writes a prepared command, and gives its status.
pub fn deliver<O: Sink, E: Sink, B: Bank>(
    alloc: Global,
    prepared: Prepared,
    out: &mut O,
    err: &mut E,
    lib: &mut Library<B>,
) -> u8
    requires prepared { IsPrepared lib.old prepared }
    requires full { IsFull lib.old }
    ensures delivered { Delivers prepared (O.state out.old) (O.state out.new) (E.state err.old) (E.state err.new) result }
    ensures left { IsDone result → LeavesBanks prepared lib.old lib.new }
    ensures full { IsFull lib.new }
{
    match prepared {
        Prepared::Usage => say_usage(err),
        Prepared::Refused(refusal) => refuse(&refusal, err),
        Prepared::ReadFault => say_read_fault(err),
        Prepared::Memory => say_no_memory(err),
        Prepared::Print(text) => print(text, out, err),
        Prepared::Report(told) => tell(&told, out, err),
        Prepared::Code(program) => print_code(&program, out, err),
        Prepared::Bulk(counts) => print_bulk(&counts, out, err),
        Prepared::Simulate(simulation) => finish(print_trace(simulation, lib, out), err),
        Prepared::Judge(verdict) => print_verdict(verdict, out, err),
        Prepared::Save(saved) => print_saved(&saved, out, err),
        Prepared::Resume(resumed) => finish(print_rest(resumed, lib, out), err),
        Prepared::RunC(program, inputs, until, limit) => finish_run(
            print_run(alloc, &program, &inputs, until, limit, out),
            err,
        ),
        Prepared::Dump(simulation, dump) => finish(print_dump(simulation, dump, lib, out), err),
        Prepared::DumpAt(dump, tick) => print_values(&dump, tick, out, err),
    }
}
