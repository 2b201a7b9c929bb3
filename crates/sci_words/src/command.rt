/// What is told of a diagram.
#[derive(Clone, Copy, Drop)]
pub enum Report {
    /// How many blocks, sources, schedule entries and guards it has.
    Check,
    /// Its blocks, with their places, kinds, and the types and sizes of their outputs.
    Map,
    /// Its static schedules.
    Schedule,
}

/// A run's files and bounds.
#[derive(Clone, Copy)]
pub struct RunWords<'a> {
    /// The file of the diagram, or of the C program.
    pub file: &'a str,
    /// The input file.
    pub inputs_file: &'a str,
    /// The last date, in ticks.
    pub until: u64,
    /// The most events.
    pub limit: u64,
}

/// What the words ask for.
#[derive(Clone, Copy)]
pub enum Command<'a> {
    /// To tell this of a diagram's file.
    Report(Report, &'a str),
    /// To simulate a diagram.
    Simulate(RunWords<'a>),
    /// To judge a trace of a run, by its file.
    Judge(RunWords<'a>, &'a str),
    /// To save a run behind a reaction, counted from 1.
    Save(RunWords<'a>, u64),
    /// To go on with a saved run, by the file that was saved.
    Resume(RunWords<'a>, &'a str),
    /// To write the C of a diagram's file.
    Code(&'a str),
    /// To run a C program.
    RunC(RunWords<'a>),
    /// The host file.
    Host,
    /// To count a bulk diagram and its run, by its seed and its size.
    Bulk(u32, u32),
    /// To write the value change dump of a run.
    Dump(RunWords<'a>),
    /// To tell the values of a value change dump's file at a tick.
    DumpAt(&'a str, u64),
}
