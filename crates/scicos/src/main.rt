//! Checks, simulates and compiles Scicos block diagrams in discrete time over integer signals.
#![tactic(auto)]

ghost use Rattle.std.specs.Prelude.{map};
ghost use Rattle.sci_commands.specs.Banks.{AreAllBanks};

use sci_bank::Bank;
use sci_bank::library::Library;
use sci_base::NoMemory;
use sci_commands::top::top;
use sci_io::{BufferedSink, Machine, RealFolder, RealSink, Sink};
use sci_library::{AnyBank, next_kind, put_fresh};
use std::alloc::Global;
use std::env;
use std::io::ErrorKind;
use std::process::ExitCode;

/// The room of the buffer before standard output, in bytes.
const ROOM: usize = 65_536;

/// That of the buffer before standard error, which takes one line.
const LINE_ROOM: usize = 256;

// The words behind the program's name. Where one is no UTF-8, which is no word of a command, there are none.
fn words_of(rt: &HostRuntime, alloc: Global) -> Result<Vec<String>, NoMemory> {
    match env::args(rt) {
        Ok(args) => match args.skip(1).collect::<Vec<String>>(alloc) {
            Ok(words) => Ok(words),
            Err(_) => Err(NoMemory),
        },
        Err(error) if error.kind() != ErrorKind::OutOfMemory => Ok(Vec::new(alloc)),
        Err(_) => Err(NoMemory),
    }
}

// Does what the words ask for, with the machine's files and streams.
fn run<B: Bank>(rt: &HostRuntime, alloc: Global, banks: Vec<B>) -> Result<u8, NoMemory>
    requires { AreAllBanks (map B.meaning banks.items) }
{
    let mut lib = Library::of(banks);
    let words = words_of(rt, alloc)?;
    let mut out = BufferedSink::new(alloc, RealSink::new(rt.stdout()), ROOM)?;
    let mut err = BufferedSink::new(alloc, RealSink::new(rt.stderr()), LINE_ROOM)?;
    let mut folder = RealFolder::new(Machine::new(rt), alloc);
    Ok(top(alloc, &words, &mut folder, &mut out, &mut err, &mut lib))
}

// Tells that there is no memory to begin with.
fn no_memory(rt: &HostRuntime) -> ExitCode {
    let _ = RealSink::new(rt.stderr()).put("out of memory\n".as_bytes());
    ExitCode::from(5)
}

fn main(rt: HostRuntime) -> ExitCode {
    let alloc = rt.alloc();
    let mut banks: Vec<Box<dyn Bank>> = Vec::new(alloc);
    while let Some(kind) = next_kind(banks.len()) {
        let Ok(bank) = Box::new(alloc, AnyBank::of_kind(alloc, kind)) else {
            return no_memory(&rt);
        };
        if put_fresh(&mut banks, kind, bank).is_err() {
            return no_memory(&rt);
        }
    }
    match run(&rt, alloc, banks) {
        Ok(status) => ExitCode::from(status),
        Err(NoMemory) => no_memory(&rt),
    }
}
