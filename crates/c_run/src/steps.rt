// Runs statements.

ghost use Rattle.std.specs.Prelude.{◌≡◌, ℕ, ℤ, List, Bool};
ghost use Rattle.c_ast.specs.View.{exp_of, statement_of, statements_of, told_of};
ghost use Rattle.c_mean.specs.Meaning.{World, run_statement, run_block, statement_count, block_count, turns, one_turn, calling, telling, how_after};
ghost use Rattle.c_run.specs.Running.{world, earlier, surroundings, how_of, moved, called, choosing, Runs};
ghost use Rattle.c_run.specs.Layout.{slots};

use crate::asks::ask;
use crate::effects::{begin, is_false, observation, set, up};
use crate::functions::{Functions, find};
use crate::machine::{ColumnRest, Flow, Limits, Routine};
use crate::memory::Memory;
use crate::values::eval;
use c_ast::{Expr, Name, Stmt, Tell};
use sci_base::Obs;
use sci_io::{Failed, Sink};
use sci_trace::write_obs;

/// How many statements a statement is, with those of its lists.
#[cycle(count)]
fn count(statement: &Stmt) -> u64
    ensures { result ≡ statement_count (statement_of statement.now) }
{
    match statement {
        Stmt::If(_, yes, no) => 1u64
            .saturating_add(count_all(yes))
            .saturating_add(count_all(no)),
        Stmt::For(_, _, body) => 1u64.saturating_add(count_all(body)),
        _ => 1,
    }
}

/// How many statements there are, through all lists; a count past 2^64 - 1 stands still there.
#[cycle(count)]
pub fn count_all(list: &[Stmt]) -> u64
    ensures { result ≡ block_count (statements_of list.now) }
{
    let mut n = 0u64;
    for s in list {
        n = n.saturating_add(count(s));
    }
    n
}

fn goes_on(left: Result<Flow, Failed>) -> bool
    ensures yes { result ≡ Bool.true → left ≡ Ok Flow.Going }
    ensures no { result ≡ Bool.false → left ≡ Ok Flow.Going → ⊥ }
{
    match left {
        Ok(Flow::Going) => true,
        Ok(_) => false,
        Err(_) => false,
    }
}

/// How a list was left whose part behind these statements was left so. They are counted only where the number is wanted.
fn behind(left: Result<Flow, Failed>, before: &[Stmt]) -> Result<Flow, Failed>
    ensures { result ≡ moved (block_count (statements_of before.now)) left }
{
    match left {
        Ok(Flow::Undefined(k)) => Ok(Flow::Undefined(count_all(before).saturating_add(k))),
        _ => left,
    }
}

/// How an If or a For was left whose list, right behind its head, was left so.
fn inside(left: Result<Flow, Failed>) -> Result<Flow, Failed>
    ensures { result ≡ moved 1 left }
{
    match left {
        Ok(Flow::Undefined(k)) => Ok(Flow::Undefined(1u64.saturating_add(k))),
        _ => left,
    }
}

/// How a call was left whose function was left so. The function's first statement has this number.
fn back(left: Result<Flow, Failed>, first: u64) -> Result<Flow, Failed>
    ensures { result ≡ called first left }
{
    match left {
        Ok(Flow::Undefined(k)) => Ok(Flow::UndefinedInCall(first.saturating_add(k))),
        _ => left,
    }
}

fn defined(done: bool) -> Flow
    ensures yes { done ≡ Bool.true → result ≡ Flow.Going }
    ensures no { done ≡ Bool.false → result ≡ Flow.Undefined 0 }
{
    if done {
        Flow::Going
    } else {
        Flow::Undefined(0)
    }
}

fn flow_after(observation: Obs) -> Flow
    ensures { (n : ℕ) → (w : World) → how_after observation w ≡ how_of n result w }
{
    match observation {
        Obs::Start | Obs::Event(_, _, _) | Obs::Val(_, _, _, _) => Flow::Going,
        Obs::End(_) => Flow::Over,
        Obs::Stop(_, _, _) => Flow::Halted,
    }
}

/// Makes an observation and writes its line. The only error is that of the sink.
fn tell<S: Sink>(memory: &Memory<'_>, tell: &Tell, out: &mut S) -> Result<Flow, Failed>
    ensures { (left : List (List ℤ)) → Runs (S.state out.old) (S.state out.new) result (record { slots = slots memory.now; left = left })
        (λ n. telling n (told_of tell.now) (record { slots = slots memory.now; left = left })) }
{
    let Some(observed) = observation(memory, tell) else {
        return Ok(Flow::Undefined(0));
    };
    write_obs(&observed, out)?;
    Ok(flow_after(observed))
}

/// Runs a statement, which may call the functions from this place on. The only error is that of the sink.
#[cycle(run)]
fn statement<S: Sink>(
    memory: &mut Memory<'_>,
    columns: &mut [ColumnRest<'_>],
    limits: Limits,
    functions: &Functions<'_>,
    from: usize,
    statement: &Stmt,
    out: &mut S,
) -> Result<Flow, Failed>
    ensures { Runs (S.state out.old) (S.state out.new) result (world memory.new columns.new)
        (λ n. run_statement (surroundings (earlier functions.now from) limits) n (statement_of statement.now) (world memory.old columns.old)) }
{
    match statement {
        Stmt::Set(target, value) => Ok(defined(set(memory, target, value))),
        Stmt::Ask(target, question) => {
            Ok(defined(ask(memory, columns, limits, target, question)))
        }
        Stmt::If(condition, yes, no) => choose(
            memory, columns, limits, functions, from, condition, yes, no, out,
        ),
        Stmt::For(counter, bound, body) => match begin(memory, *counter, bound) {
            None => Ok(Flow::Undefined(0)),
            Some(times) => repeat(
                memory, columns, limits, functions, from, *counter, times, body, out,
            ),
        },
        Stmt::Call(name) => call(memory, columns, limits, functions, from, *name, out),
        Stmt::Tell(observed) => tell(memory, observed, out),
    }
}

/// One of two lists, by the condition.
#[cycle(run)]
fn choose<S: Sink>(
    memory: &mut Memory<'_>,
    columns: &mut [ColumnRest<'_>],
    limits: Limits,
    functions: &Functions<'_>,
    from: usize,
    condition: &Expr,
    yes: &[Stmt],
    no: &[Stmt],
    out: &mut S,
) -> Result<Flow, Failed>
    ensures { Runs (S.state out.old) (S.state out.new) result (world memory.new columns.new)
        (choosing (surroundings (earlier functions.now from) limits) (exp_of condition.now) (statements_of yes.now) (statements_of no.now)
        (world memory.old columns.old)) }
{
    let Some(value) = eval(memory, condition) else {
        return Ok(Flow::Undefined(0));
    };
    if is_false(value) {
        let left = block(memory, columns, limits, functions, from, no, out);
        inside(behind(left, yes))
    } else {
        inside(block(memory, columns, limits, functions, from, yes, out))
    }
}

/// Runs statements in a row, which may call the functions from this place on. The only error is that of the sink.
#[cycle(run)]
pub fn block<S: Sink>(
    memory: &mut Memory<'_>,
    columns: &mut [ColumnRest<'_>],
    limits: Limits,
    functions: &Functions<'_>,
    from: usize,
    list: &[Stmt],
    out: &mut S,
) -> Result<Flow, Failed>
    ensures { Runs (S.state out.old) (S.state out.new) result (world memory.new columns.new)
        (λ n. run_block (surroundings (earlier functions.now from) limits) n (statements_of list.now) (world memory.old columns.old)) }
{
    for (i, next) in list.iter().enumerate() {
        let left = statement(memory, columns, limits, functions, from, next, out);
        if !goes_on(left) {
            return behind(left, &list[..i]);
        }
    }
    Ok(Flow::Going)
}

/// The body once, and the counter's next value.
#[cycle(run)]
fn turn<S: Sink>(
    memory: &mut Memory<'_>,
    columns: &mut [ColumnRest<'_>],
    limits: Limits,
    functions: &Functions<'_>,
    from: usize,
    counter: Name,
    body: &[Stmt],
    out: &mut S,
) -> Result<Flow, Failed>
    ensures { Runs (S.state out.old) (S.state out.new) result (world memory.new columns.new)
        (λ n. one_turn (surroundings (earlier functions.now from) limits) n counter (statements_of body.now) (world memory.old columns.old)) }
{
    let left = block(memory, columns, limits, functions, from, body, out);
    if goes_on(left) {
        Ok(defined(up(memory, counter)))
    } else {
        inside(left)
    }
}

/// So many turns.
#[cycle(run)]
fn repeat<S: Sink>(
    memory: &mut Memory<'_>,
    columns: &mut [ColumnRest<'_>],
    limits: Limits,
    functions: &Functions<'_>,
    from: usize,
    counter: Name,
    times: u64,
    body: &[Stmt],
    out: &mut S,
) -> Result<Flow, Failed>
    ensures { Runs (S.state out.old) (S.state out.new) result (world memory.new columns.new)
        (λ n. turns times (one_turn (surroundings (earlier functions.now from) limits) n counter (statements_of body.now))
        (world memory.old columns.old)) }
{
    for _ in 0..times {
        let left = turn(memory, columns, limits, functions, from, counter, body, out);
        if !goes_on(left) {
            return left;
        }
    }
    Ok(Flow::Going)
}

/// The body of the latest function of this name among those from this place on.
#[cycle(run)]
fn call<S: Sink>(
    memory: &mut Memory<'_>,
    columns: &mut [ColumnRest<'_>],
    limits: Limits,
    functions: &Functions<'_>,
    from: usize,
    name: Name,
    out: &mut S,
) -> Result<Flow, Failed>
    ensures { Runs (S.state out.old) (S.state out.new) result (world memory.new columns.new)
        (λ n. calling (surroundings (earlier functions.now from) limits) n name (world memory.old columns.old)) }
{
    let Some(k) = find(functions, from, name) else {
        return Ok(Flow::Undefined(0));
    };
    let Routine { first, body, .. } = functions.routines[k];
    let left = block(memory, columns, limits, functions, k + 1, body, out);
    back(left, first)
}
