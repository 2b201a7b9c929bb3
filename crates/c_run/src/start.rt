// Whole programs.

ghost use Rattle.std.specs.Prelude.{◌≡◌, ◌<◌, ◌^◌, pos, [], map, All, IfOk, IsTrue};
ghost use Rattle.c_rules.specs.Naming.{is_numbered};
ghost use Rattle.c_ast.specs.View.{declared_of, function_of, whole_of};
ghost use Rattle.c_mean.specs.Meaning.{elements_of, first_slot, numbered, behind_functions, meaning};
ghost use Rattle.c_run.specs.Running.{left_of, numbered_of};
ghost use Rattle.c_run.specs.Layout.{slots};
ghost use Rattle.sci_trace.specs.Columns.{columns_view};
ghost use Rattle.c_run.specs.Answering.{Answers, answer_of};
ghost use Rattle.c_run.specs.declared.start.RunStop.TheVariants.{Memory};

use crate::functions::indexed;
use crate::machine::{ColumnRest, Flow, Limits, Routine, VariableSpan};
use crate::memory::Memory;
use crate::steps::{block, count_all};
use c_ast::{Decl, Func, Program};
use c_rules::Names;
use sci_base::NoMemory;
use sci_io::{Failed, Sink};
use sci_trace::inputs::Inputs;
use std::alloc::Global;

/// How a run ended.
#[derive(Clone, Copy)]
pub enum CEnd {
    /// By an end that it told, or at the end of `sci_main`.
    End,
    /// By a stop that it told.
    Stop,
    /// At this statement, counted from 1 through all functions and lists in the order of the text; a count past 2^64 - 1 stands still there.
    Undefined(u64),
}

/// Why a run has no end.
#[derive(Clone, Copy)]
pub enum RunStop {
    /// The sink failed.
    Failed,
    /// There is no memory. Nothing was observed.
    Memory,
}

impl From<NoMemory> for RunStop {
    ghost from_gives = { λ _ e. e ≡ Memory };

    fn from(_e: NoMemory) -> RunStop {
        RunStop::Memory
    }
}

fn elements(decl: &Decl) -> usize
    ensures value { result ≡ elements_of (declared_of decl.now) }
    ensures few { result < 2 ^ 32 }
{
    match decl.size {
        None => 1,
        Some(size) => size as usize,
    }
}

/// The variables at the beginning, by the numbers of their names.
fn memory_of<'a>(alloc: Global, names: &'a Names, decls: &'a [Decl]) -> Result<Memory<'a>, NoMemory>
    requires { All (λ d. IsTrue (is_numbered names.now d.name)) decls.now }
    ensures { IfOk result (λ m. slots m ≡ map first_slot (map declared_of decls.now)) }
{
    let mut spans = Vec::new(alloc);
    let mut cells = Vec::new(alloc);
    for decl in decls {
        let first = cells.len();
        let size = elements(decl);
        names.enter(&mut spans, decl.name, VariableSpan { first, size })?;
        cells.resize(first + size, 0)?;
    }
    Ok(Memory {
        decls,
        names,
        spans,
        cells,
    })
}

fn columns_of<'a>(alloc: Global, columns: &'a [Vec<i64>]) -> Result<Vec<ColumnRest<'a>>, NoMemory>
    ensures { IfOk result (λ v. map left_of v.items ≡ columns_view columns.now) }
{
    let mut list = Vec::new(alloc);
    for column in columns {
        list.push(ColumnRest {
            left: column.as_slice(),
        })?;
    }
    Ok(list)
}

/// The functions with the numbers of their first statements, the latest first.
fn routines_of<'a>(alloc: Global, funcs: &'a [Func]) -> Result<Vec<Routine<'a>>, NoMemory>
    ensures { IfOk result (λ v. map numbered_of v.items ≡ numbered 1 (map function_of funcs.now) []) }
{
    let mut list = Vec::new(alloc);
    let mut first = 1u64;
    for func in funcs {
        list.push(Routine {
            name: func.name,
            first,
            body: func.body.as_slice(),
        })?;
        first = first.saturating_add(count_all(&func.body));
    }
    list.reverse();
    Ok(list)
}

/// The number behind the statements of the functions.
fn number_behind(funcs: &[Func]) -> u64
    ensures { result ≡ behind_functions 1 (map function_of funcs.now) }
{
    let mut first = 1u64;
    for func in funcs {
        first = first.saturating_add(count_all(&func.body));
    }
    first
}

fn limits_of(until: u64, limit: u64) -> Limits
    requires until_fits { until < 2 ^ 63 }
    requires limit_fits { limit < 2 ^ 63 }
    ensures last { result.until ≡ pos until }
    ensures most { result.limit ≡ pos limit }
{
    Limits {
        until: until as i64,
        limit: limit as i64,
    }
}

/// How a run ended whose statements were left so, the first of which has this number.
fn answer(left: Result<Flow, Failed>, first: u64) -> Result<CEnd, RunStop>
    ensures { result ≡ answer_of first left }
{
    match left {
        Ok(Flow::Going) => Ok(CEnd::End),
        Ok(Flow::Undefined(before)) => Ok(CEnd::Undefined(first.saturating_add(before))),
        Ok(Flow::UndefinedInCall(number)) => Ok(CEnd::Undefined(number)),
        Ok(Flow::Over) => Ok(CEnd::End),
        Ok(Flow::Halted) => Ok(CEnd::Stop),
        Err(_) => Err(RunStop::Failed),
    }
}

/// Runs a program on input columns: what its meaning observes is written to the sink, a line for each observation, and the answer says how
/// the run ended. All memory is taken before the first observation. `until` is what the program is told as its last date, `limit` as its
/// bound on events; both are below 2^63. It returns after as many turns as the program's own loops count. `RunStop::Memory` says that
/// there was no memory and nothing was observed, `RunStop::Failed` that the sink failed.
pub fn run<S: Sink>(
    alloc: Global,
    program: &Program,
    inputs: &Inputs,
    until: u64,
    limit: u64,
    out: &mut S,
) -> Result<CEnd, RunStop>
    requires until_fits { until < 2 ^ 63 }
    requires limit_fits { limit < 2 ^ 63 }
    ensures { Answers (S.state out.old) (S.state out.new) result (meaning (whole_of program.now) inputs.now (pos until) (pos limit)) }
{
    let names = Names::number(alloc, program)?;
    let mut memory = memory_of(alloc, &names, &program.decls)?;
    let mut columns = columns_of(alloc, inputs.columns())?;
    let functions = indexed(alloc, &names, routines_of(alloc, &program.funcs)?)?;
    let limits = limits_of(until, limit);
    let first = number_behind(&program.funcs);
    let left = block(
        &mut memory,
        &mut columns,
        limits,
        &functions,
        0,
        &program.main,
        out,
    );
    answer(left, first)
}
