//! Tells ranges of all signals of a Scicos block diagram, and what may stop its runs.
#![tactic(auto)]

use sci_base::NoMemory;
use sci_io::{BufferedSink, Machine, RealFolder, RealSink, Sink};
use sci_range_commands::top::top;
use std::alloc::Global;
use std::env;
use std::io::ErrorKind;
use std::process::ExitCode;

/// The room of the buffer before standard output, in bytes.
const ROOM: usize = 65_536;

/// That of the buffer before standard error, which takes one line.
const LINE_ROOM: usize = 256;

// The words behind the program's name. Where one is no UTF-8, which is no name of a file here, there are none.
fn words_of(rt: &HostRuntime, alloc: Global) -> Result<Vec<String>, NoMemory> {
    match env::args(rt) {
        Ok(args) => match args.skip(1).collect::<Vec<String>>(alloc) {
            Ok(words) => Ok(words),
            Err(_) => Err(NoMemory),
        },
        Err(error) if error.kind() != ErrorKind::OutOfMemory => Ok(Vec::new(alloc)),
        Err(_) => Err(NoMemory),
    }
}

// Does what the words ask for, with the machine's files and streams.
fn run(rt: &HostRuntime, alloc: Global) -> Result<u8, NoMemory> {
    let words = words_of(rt, alloc)?;
    let mut out = BufferedSink::new(alloc, RealSink::new(rt.stdout()), ROOM)?;
    let mut err = BufferedSink::new(alloc, RealSink::new(rt.stderr()), LINE_ROOM)?;
    let mut folder = RealFolder::new(Machine::new(rt), alloc);
    Ok(top(alloc, &words, &mut folder, &mut out, &mut err))
}

// Tells that there is no memory to begin with.
fn no_memory(rt: &HostRuntime) -> ExitCode {
    let _ = RealSink::new(rt.stderr()).put("out of memory\n".as_bytes());
    ExitCode::from(5)
}

fn main(rt: HostRuntime) -> ExitCode {
    match run(&rt, rt.alloc()) {
        Ok(status) => ExitCode::from(status),
        Err(NoMemory) => no_memory(&rt),
    }
}
