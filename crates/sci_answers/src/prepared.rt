// A command with all that it needs, before it writes.
use crate::told::Told;
use c_ast::Program;
use sci_agree::Verdict;
use sci_base::Refusal;
use sci_save::Image;
use sci_sim::Ready;
use sci_trace::inputs::Inputs;
use sci_vcd::{Dump, VcdOut};

/// What is counted of a bulk diagram and of its run.
#[derive(Clone, Copy)]
pub struct BulkCounts {
    /// Blocks of the net.
    pub blocks: u32,
    /// Sources of the net.
    pub sources: u32,
    /// Entries of its schedules.
    pub entries: u64,
    /// Guards of its schedules.
    pub guards: u64,
    /// Observations of the run.
    pub lines: u64,
    /// The sum of the values observed, modulo 2^32.
    pub sum: u32,
}

/// What is saved of a run.
#[derive(Drop)]
pub struct SavedRun {
    /// The net behind the reaction.
    pub ready: Ready,
    /// What is saved of it.
    pub image: Image,
}

/// A run of a net, before it begins.
#[derive(Drop)]
pub struct Simulation {
    /// The net before start's reaction, or behind the last one.
    pub ready: Ready,
    /// The columns of the input file.
    pub inputs: Inputs,
    /// The last date in ticks, up to 2^62.
    pub until: u64,
    /// The most events, up to 1,000,000.
    pub limit: u64,
}

/// A run that goes on from what was saved, before it does.
#[derive(Drop)]
pub struct ResumedRun {
    /// What was saved.
    pub image: Image,
    /// The run behind the reaction of which this was saved.
    pub run: Simulation,
}

/// A command with all that it needs, before it writes.
#[derive(Drop)]
pub enum Prepared {
    /// The words are no command.
    Usage,
    /// The first rule that a file breaks.
    Refused(Refusal),
    /// A read of a file failed.
    ReadFault,
    /// Memory fell short.
    Memory,
    /// A text to be printed.
    Print(&'static str),
    /// What is told of a diagram.
    Report(Told),
    /// A run whose trace is written.
    Simulate(Simulation),
    /// The verdict on a trace.
    Judge(Verdict),
    /// What is saved of a run.
    Save(SavedRun),
    /// A run that goes on from what was saved.
    Resume(ResumedRun),
    /// The C program of a diagram.
    Code(Program),
    /// A C program with the columns of its input file, the last date in ticks (up to 2^62) and the most events (up to 1,000,000).
    RunC(Program, Inputs, u64, u64),
    /// What is counted of a bulk diagram.
    Bulk(BulkCounts),
    /// A simulation, of which the value change dump is written.
    Dump(Simulation, VcdOut),
    /// A value change dump, of which the values at this tick are told.
    DumpAt(Dump, u64),
}
