// A command with all that it needs: its files are looked at, and nothing is written.
ghost use Rattle.std.specs.Prelude.{◌≡◌, ◌+◌, ◌≤◌, List, map, string_bytes};
ghost use Rattle.sci_base.specs.declared.limits.TheConstants.{TICKS, EVENTS};
ghost use Rattle.sci_bank.specs.Bank.{Meaning};
ghost use Rattle.sci_bank.specs.Library.{IsFull};
ghost use Rattle.sci_io.specs.Files.{FolderState};
ghost use Rattle.sci_words.specs.Words.{report as tell, simulate, judge, save, resume, code, run_c, bulk, dump, dump_at, InBounds, asked_by};
ghost use Rattle.sci_answers.specs.Coming.{Reaches, ReachesCounted};
ghost use Rattle.sci_answers.specs.Answer.{Answer, no_memory};
ghost use Rattle.sci_files.specs.Look.{IsRefusal, stop_answer};
ghost use Rattle.sci_answers.specs.Save.{run_ended};
ghost use Rattle.sci_answers.specs.Prepared.{IsAnswerOf, IsPrepared, LeavesBanks, MayLack};
ghost use Rattle.sci_prepare.specs.Prepare.{LooksAt, LooksWithoutBanks};
ghost use Rattle.sci_prepare.specs.Defined.{LooksAtCode, LooksDefined, PreparesDefined};

use crate::bulk::count_bulk;
use crate::host::host;
use sci_answers::prepared::{Prepared, ResumedRun, SavedRun, Simulation};
use sci_bank::Bank;
use sci_bank::library::Library;
use sci_base::{NoMemory, Rule, Stop};
use sci_cgen::emit;
use sci_files::dump::DumpRules;
use sci_files::look::{LookStop, look, look_text, refused_by};
use sci_files::rules::{CRules, ColumnRules, DiagramRules, PlanRules};
use sci_files::run_files::{RunFiles, look_at_run};
use sci_files::saved::SavedRules;
use sci_io::Folder;
use sci_judge::judge_trace;
use sci_resume::{Reached, run_to};
use sci_sim::Ready;
use sci_vcd::VcdOut;
use sci_words::command::{Command, Report, RunWords};
use sci_words::words::parse;
use std::alloc::Global;

fn for_report<F: Folder>(
    alloc: Global,
    folder: &mut F,
    report: Report,
    file: &str,
) -> Result<Prepared, LookStop>
    ensures looks { LooksWithoutBanks (F.state folder.old) (F.state folder.new) (tell report file.now) result }
    ensures kept { (F.state folder.new).files ≡ (F.state folder.old).files }
{
    let told = look(alloc, folder, file, 1, &DiagramRules { report })?;
    Ok(Prepared::Report(told))
}

fn for_simulate<F: Folder, B: Bank>(
    alloc: Global,
    folder: &mut F,
    run: RunWords<'_>,
    lib: &mut Library<B>,
) -> Result<Prepared, LookStop>
    requires until { run.until ≤ TICKS }
    requires limit { run.limit ≤ EVENTS }
    requires full { IsFull lib.old }
    ensures looks { LooksAt (F.state folder.old) (F.state folder.new) lib.new
        (simulate run.entry.file.now run.entry.inputs_file.now run.entry.until run.entry.limit) result }
    ensures kept { (F.state folder.new).files ≡ (F.state folder.old).files }
    ensures full { IsFull lib.new }
{
    let files = look_at_run(alloc, folder, run.file, run.inputs_file)?;
    let ready = Ready::new(alloc, files.checked.net, files.checked.schedule, lib)?;
    Ok(Prepared::Simulate(Simulation {
        ready,
        inputs: files.inputs,
        until: run.until,
        limit: run.limit,
    }))
}

fn for_judge<F: Folder, B: Bank>(
    alloc: Global,
    folder: &mut F,
    run: RunWords<'_>,
    trace_file: &str,
    lib: &mut Library<B>,
) -> Result<Prepared, LookStop>
    requires until { run.until ≤ TICKS }
    requires limit { run.limit ≤ EVENTS }
    requires full { IsFull lib.old }
    ensures looks { LooksAt (F.state folder.old) (F.state folder.new) lib.new
        (judge run.entry.file.now run.entry.inputs_file.now trace_file.now run.entry.until run.entry.limit) result }
    ensures kept { (F.state folder.new).files ≡ (F.state folder.old).files }
    ensures full { IsFull lib.new }
{
    let files = look_at_run(alloc, folder, run.file, run.inputs_file)?;
    let trace = look_text(alloc, folder, trace_file)?;
    let RunFiles { checked, inputs } = files;
    let verdict = judge_trace(
        alloc,
        checked.net,
        lib,
        &inputs,
        run.until,
        run.limit,
        &trace,
    )?;
    Ok(Prepared::Judge(verdict))
}

// The refusal of a run that has no reaction behind this one: it has so many.
fn ended_by(alloc: Global, reaction: u64, count: u64) -> LookStop
    requires reaction { reaction ≤ EVENTS + 1 }
    requires count { count ≤ EVENTS + 1 }
    ensures { IsRefusal (run_ended reaction count) result }
{
    refused_by(alloc, Rule::RunEnded, &[reaction as i64, count as i64])
}

fn for_save<F: Folder, B: Bank>(
    alloc: Global,
    folder: &mut F,
    run: RunWords<'_>,
    reaction: u64,
    lib: &mut Library<B>,
) -> Result<Prepared, LookStop>
    requires until { run.until ≤ TICKS }
    requires limit { run.limit ≤ EVENTS }
    requires least { 1 ≤ reaction }
    requires most { reaction ≤ EVENTS + 1 }
    requires full { IsFull lib.old }
    ensures looks { LooksAt (F.state folder.old) (F.state folder.new) lib.new
        (save run.entry.file.now run.entry.inputs_file.now run.entry.until run.entry.limit reaction) result }
    ensures kept { (F.state folder.new).files ≡ (F.state folder.old).files }
    ensures full { IsFull lib.new }
{
    let files = look_at_run(alloc, folder, run.file, run.inputs_file)?;
    let RunFiles { checked, inputs } = files;
    let mut ready = Ready::new(alloc, checked.net, checked.schedule, lib)?;
    match run_to(
        alloc, &mut ready, lib, &inputs, run.until, run.limit, reaction,
    ) {
        Ok(Reached::Saved(image)) => Ok(Prepared::Save(SavedRun { ready, image })),
        Ok(Reached::Ended(count)) => Err(ended_by(alloc, reaction, count)),
        Err(NoMemory) => Err(LookStop::Memory),
    }
}

fn for_resume<F: Folder, B: Bank>(
    alloc: Global,
    folder: &mut F,
    run: RunWords<'_>,
    saved_file: &str,
    lib: &mut Library<B>,
) -> Result<Prepared, LookStop>
    requires until { run.until ≤ TICKS }
    requires limit { run.limit ≤ EVENTS }
    requires full { IsFull lib.old }
    ensures looks { LooksAt (F.state folder.old) (F.state folder.new) lib.new
        (resume run.entry.file.now run.entry.inputs_file.now saved_file.now run.entry.until run.entry.limit) result }
    ensures kept { (F.state folder.new).files ≡ (F.state folder.old).files }
    ensures full { IsFull lib.new }
{
    let files = look_at_run(alloc, folder, run.file, run.inputs_file)?;
    let RunFiles { checked, inputs } = files;
    let rules = SavedRules {
        net: checked.net,
        inputs,
    };
    let image = look(alloc, folder, saved_file, 3, &rules)?;
    let SavedRules { net, inputs } = rules;
    let ready = Ready::restore(alloc, net, checked.schedule, lib, &image)?;
    let simulation = Simulation {
        ready,
        inputs,
        until: run.until,
        limit: run.limit,
    };
    Ok(Prepared::Resume(ResumedRun {
        image,
        run: simulation,
    }))
}

fn for_code<F: Folder>(alloc: Global, folder: &mut F, file: &str) -> Result<Prepared, LookStop>
    ensures looks { LooksWithoutBanks (F.state folder.old) (F.state folder.new) (code file.now) result }
    ensures coded { LooksAtCode (F.state folder.old) (F.state folder.new) file.now result }
    ensures kept { (F.state folder.new).files ≡ (F.state folder.old).files }
{
    let checked = look(alloc, folder, file, 1, &PlanRules)?;
    let program = emit(alloc, &checked.net, &checked.schedule)?;
    Ok(Prepared::Code(program))
}

fn for_bulk<B: Bank>(
    alloc: Global,
    seed: u32,
    size: u32,
    lib: &mut Library<B>,
) -> Result<Prepared, LookStop>
    requires least { 1 ≤ size }
    requires most { size ≤ 2000 }
    requires full { IsFull lib.old }
    ensures looks { (s : FolderState) → LooksAt s s lib.new (bulk seed size) result }
    ensures full { IsFull lib.new }
{
    match count_bulk(alloc, seed, size, lib) {
        Ok(counts) => Ok(Prepared::Bulk(counts)),
        Err(Stop::Refused(refusal)) => Err(LookStop::Refused(refusal)),
        Err(Stop::Memory) => Err(LookStop::Memory),
    }
}

fn for_run_c<F: Folder>(
    alloc: Global,
    folder: &mut F,
    run: RunWords<'_>,
) -> Result<Prepared, LookStop>
    requires until { run.until ≤ TICKS }
    requires limit { run.limit ≤ EVENTS }
    ensures looks { LooksWithoutBanks (F.state folder.old) (F.state folder.new)
        (run_c run.entry.file.now run.entry.inputs_file.now run.entry.until run.entry.limit) result }
    ensures kept { (F.state folder.new).files ≡ (F.state folder.old).files }
{
    let program = look(alloc, folder, run.file, 1, &CRules)?;
    let rules = ColumnRules {
        needs: Vec::new(alloc),
    };
    let inputs = look(alloc, folder, run.inputs_file, 2, &rules)?;
    Ok(Prepared::RunC(program, inputs, run.until, run.limit))
}

fn for_dump<F: Folder, B: Bank>(
    alloc: Global,
    folder: &mut F,
    run: RunWords<'_>,
    lib: &mut Library<B>,
) -> Result<Prepared, LookStop>
    requires until { run.until ≤ TICKS }
    requires limit { run.limit ≤ EVENTS }
    requires full { IsFull lib.old }
    ensures looks { LooksAt (F.state folder.old) (F.state folder.new) lib.new
        (dump run.entry.file.now run.entry.inputs_file.now run.entry.until run.entry.limit) result }
    ensures kept { (F.state folder.new).files ≡ (F.state folder.old).files }
    ensures full { IsFull lib.new }
{
    let files = look_at_run(alloc, folder, run.file, run.inputs_file)?;
    let dump = VcdOut::new(alloc, &files.checked.net)?;
    let ready = Ready::new(alloc, files.checked.net, files.checked.schedule, lib)?;
    let simulation = Simulation {
        ready,
        inputs: files.inputs,
        until: run.until,
        limit: run.limit,
    };
    Ok(Prepared::Dump(simulation, dump))
}

fn for_dump_at<F: Folder>(
    alloc: Global,
    folder: &mut F,
    file: &str,
    tick: u64,
) -> Result<Prepared, LookStop>
    ensures looks { LooksWithoutBanks (F.state folder.old) (F.state folder.new) (dump_at file.now tick) result }
    ensures kept { (F.state folder.new).files ≡ (F.state folder.old).files }
{
    let dump = look(alloc, folder, file, 1, &DumpRules)?;
    Ok(Prepared::DumpAt(dump, tick))
}

#[tactic(auto, using(crate::proofs::Looked::host_looks))]
fn for_command<F: Folder, B: Bank>(
    alloc: Global,
    folder: &mut F,
    command: Command<'_>,
    lib: &mut Library<B>,
) -> Result<Prepared, LookStop>
    requires bounds { InBounds (asked_by command) }
    requires full { IsFull lib.old }
    ensures looks { LooksAt (F.state folder.old) (F.state folder.new) lib.new (asked_by command.entry) result }
    ensures coded { LooksDefined (F.state folder.old) (F.state folder.new) (asked_by command.entry) result }
    ensures kept { (F.state folder.new).files ≡ (F.state folder.old).files }
    ensures full { IsFull lib.new }
{
    match command {
        Command::Report(report, file) => for_report(alloc, folder, report, file),
        Command::Host => Ok(Prepared::Print(host())),
        Command::Code(file) => for_code(alloc, folder, file),
        Command::Bulk(seed, size) => for_bulk(alloc, seed, size, lib),
        Command::Simulate(run) => for_simulate(alloc, folder, run, lib),
        Command::Judge(run, trace_file) => for_judge(alloc, folder, run, trace_file, lib),
        Command::Save(run, reaction) => for_save(alloc, folder, run, reaction, lib),
        Command::Resume(run, saved_file) => for_resume(alloc, folder, run, saved_file, lib),
        Command::RunC(run) => for_run_c(alloc, folder, run),
        Command::Dump(run) => for_dump(alloc, folder, run, lib),
        Command::DumpAt(file, tick) => for_dump_at(alloc, folder, file, tick),
    }
}

// What is told of a file that gives nothing.
fn stopped(stop: LookStop) -> Prepared
    ensures answer { (a : Answer) → IsAnswerOf result a → a ≡ stop_answer stop }
    ensures prepared { (banks : List Meaning) → IsPrepared banks result }
    ensures lacks { MayLack result → ⊥ }
{
    match stop {
        LookStop::Refused(refusal) => Prepared::Refused(refusal),
        LookStop::Fault => Prepared::ReadFault,
        LookStop::Memory => Prepared::Memory,
    }
}

/// Looks at the words and the files, and writes nothing.
pub fn prepare<F: Folder, B: Bank>(
    alloc: Global,
    words: &[String],
    folder: &mut F,
    lib: &mut Library<B>,
) -> Prepared
    requires { IsFull lib.old }
    ensures reaches { (a : Answer) → IsAnswerOf result a → ReachesCounted (map string_bytes words.now) (F.state folder.old) (F.state folder.new) a
        (LeavesBanks result lib.new) }
    ensures prepared { IsPrepared lib.new result }
    ensures lacks { MayLack result → Reaches (map string_bytes words.now) (F.state folder.old) (F.state folder.new) no_memory }
    ensures coded { PreparesDefined (map string_bytes words.now) (F.state folder.old) (F.state folder.new) result }
    ensures kept { (F.state folder.new).files ≡ (F.state folder.old).files }
    ensures full { IsFull lib.new }
{
    match parse(words) {
        None => Prepared::Usage,
        Some(command) => match for_command(alloc, folder, command, lib) {
            Ok(prepared) => prepared,
            Err(stop) => stopped(stop),
        },
    }
}
