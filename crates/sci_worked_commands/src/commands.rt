ghost use Rattle.std.specs.Prelude.{map};
ghost use Rattle.sci_commands.specs.Banks.{AreAllBanks};

use sci_bank::Bank;
use sci_bank::library::Library;
use sci_commands::top::top;
use sci_io::{MemFolder, MemSink};
use sci_library::{AnyBank, next_kind, put_fresh};
use std::alloc::Global;
use std::test::Fail;

// A clock of period 3 that fires first at 2.
const CLOCK: &str = r#"{"objs":[
{"obj":"Block","gui":"EVTDLY_c","model":{"evtin":1,"evtout":1,"ipar":3,"firing":2}},
{"obj":"Link","from":[1,1,0],"to":[1,1,1],"ct":[5,-1]}]}"#;

// A counter: it holds a 1, and adds it to what it delays, at ticks 0, 5 and 10.
const COUNTER: &str = r#"{"objs":[
{"obj":"Block","gui":"EVTDLY_c","model":{"evtin":1,"evtout":1,"ipar":5,"firing":0}},
{"obj":"Block","gui":"CONST_m","model":{"out":1,"outtyp":3,"ipar":1}},
{"obj":"Block","gui":"SUMMATION","model":{"in":[1,1],"intyp":[3,3],"out":1,"outtyp":3,"ipar":[0,1,1]}},
{"obj":"Block","gui":"DOLLAR_m","model":{"in":1,"intyp":3,"out":1,"outtyp":3,"evtin":1,"dstate":0}},
{"obj":"Link","from":[1,1],"to":[1,1],"ct":[5,-1]},
{"obj":"Link","from":[1,1],"to":[4,1],"ct":[5,-1]},
{"obj":"Link","from":[2,1],"to":[3,1],"ct":[1,1]},
{"obj":"Link","from":[4,1],"to":[3,2],"ct":[1,1]},
{"obj":"Link","from":[3,1],"to":[4,1],"ct":[1,1]}]}"#;

// A sensor of bytes that an event activates at each tick.
const SENSOR: &str = r#"{"objs":[
{"obj":"Block","gui":"EVTDLY_c","model":{"evtin":1,"evtout":1,"ipar":1,"firing":0}},
{"obj":"Block","gui":"SENSOR","model":{"out":1,"outtyp":8,"evtin":1,"ipar":1}},
{"obj":"Link","from":[1,1,0],"to":[1,1,1],"ct":[5,-1]},
{"obj":"Link","from":[1,1,0],"to":[2,1,1],"ct":[5,-1]}]}"#;

// At each tick 2 reads a value, and 3 sends the tick to 4 where the value is greater than 0, and to 5 otherwise.
const BRANCHES: &str = r#"{"objs":[
{"obj":"Block","gui":"EVTDLY_c","model":{"evtin":1,"evtout":1,"ipar":1,"firing":0}},
{"obj":"Block","gui":"SENSOR","model":{"out":1,"outtyp":3,"evtin":1,"ipar":1}},
{"obj":"Block","gui":"IFTHEL_f","model":{"in":1,"intyp":3,"evtin":1,"evtout":[1,1]}},
{"obj":"Block","gui":"Modulo_Count","model":{"out":1,"outtyp":3,"evtin":1,"ipar":10,"dstate":0}},
{"obj":"Block","gui":"Modulo_Count","model":{"out":1,"outtyp":3,"evtin":1,"ipar":10,"dstate":0}},
{"obj":"Link","from":[1,1,0],"to":[1,1,1],"ct":[5,-1]},
{"obj":"Link","from":[1,1,0],"to":[2,1,1],"ct":[5,-1]},
{"obj":"Link","from":[1,1,0],"to":[3,1,1],"ct":[5,-1]},
{"obj":"Link","from":[2,1,0],"to":[3,1,1],"ct":[1,1]},
{"obj":"Link","from":[3,1,0],"to":[4,1,1],"ct":[5,-1]},
{"obj":"Link","from":[3,2,0],"to":[5,1,1],"ct":[5,-1]}]}"#;

// The status of a command line on the files d and i, and what the banks of all kinds have counted behind it.
fn run_with<B: Bank>(
    alloc: Global,
    banks: Vec<B>,
    line: &str,
    diagram: &str,
    inputs: &str,
) -> Result<(u8, u64), Fail>
    requires { AreAllBanks (map B.meaning banks.items) }
{
    let mut library = Library::of(banks);
    let lib = &mut library;
    let mut words = Vec::new(alloc);
    for word in line.split(' ') {
        words.push(String::from_str(alloc, word)?)?;
    }
    let mut files = Vec::new(alloc);
    files.push((
        String::from_str(alloc, "d")?,
        diagram.as_bytes().to_vec(alloc)?,
    ))?;
    files.push((
        String::from_str(alloc, "i")?,
        inputs.as_bytes().to_vec(alloc)?,
    ))?;
    let mut folder = MemFolder::new(alloc, files, Vec::new(alloc));
    let mut out = MemSink::new(alloc, Vec::new(alloc), 65_536)?;
    let mut err = MemSink::new(alloc, Vec::new(alloc), 4096)?;
    let status = top(alloc, &words, &mut folder, &mut out, &mut err, lib);
    Ok((status, lib.outs()))
}

fn run_line(alloc: Global, line: &str, diagram: &str, inputs: &str) -> Result<(u8, u64), Fail> {
    let mut banks: Vec<Box<dyn Bank>> = Vec::new(alloc);
    while let Some(kind) = next_kind(banks.len()) {
        let bank = Box::new(alloc, AnyBank::of_kind(alloc, kind))?;
        put_fresh(&mut banks, kind, bank)?;
    }
    run_with(alloc, banks, line, diagram, inputs)
}

#[test]
fn banks_have_counted(rt: HostRuntime) -> Result<(), Fail> {
    let alloc = rt.alloc();
    // a tick at each of three dates
    assert_eq!(rt; run_line(alloc, "simulate d i 8 10", CLOCK, "[]")?, (0, 3));
    // two blocks at start, and three at each of three ticks
    assert_eq!(rt;
        run_line(alloc, "simulate d i 100 3", COUNTER, "[]")?,
        (0, 11)
    );
    // the same run, as a dump
    assert_eq!(rt; run_line(alloc, "vcd d i 100 3", COUNTER, "[]")?, (0, 11));
    // four blocks at each of three ticks
    assert_eq!(rt;
        run_line(alloc, "simulate d i 10 3", BRANCHES, "[[5,-1,0]]")?,
        (0, 12)
    );
    // a clock in each of 1,000 reactions, the delay in 123 of them, and the constant at start
    assert_eq!(rt; run_line(alloc, "bulk 5 2", "", "")?, (0, 1124));
    // two blocks in each of two reactions, and at most two in the one that stops
    let (status, outs) = run_line(alloc, "simulate d i 10 5", SENSOR, "[[7,8]]")?;
    assert_eq!(rt; status, 6);
    assert!(rt; 4 <= outs && outs <= 6);
    Ok(())
}
