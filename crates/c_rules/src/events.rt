// What the text of a program does with names, as a list.

ghost use Rattle.std.specs.Prelude.{◌≡◌, ◌∷◌, [], ◌++◌, OnOk, IfOk, map};
ghost use Rattle.std.specs.List.{flat_map};
ghost use Rattle.c_ast.specs.View.{exp_of, place_of, asked_of, told_of, statement_of, statements_of, declared_of, function_of, whole_of};
ghost use Rattle.c_ast.specs.Events.{exp_events, place_events, asked_events, told_events, bound_events, statement_events, block_events, declared_event};
ghost use Rattle.c_ast.specs.Events.{function_events, main_events, program_events};

use c_ast::events::{NameKind, TextEvent};
use c_ast::{Ask, Bound, Decl, Expr, Func, Name, Program, Stmt, Target, Tell};
use sci_base::NoMemory;
use std::alloc::Global;

fn add(list: &mut Vec<TextEvent>, event: TextEvent) -> Result<(), NoMemory>
    ensures { OnOk result (list.new.items ≡ list.old.items ++ event ∷ []) }
{
    list.push(event)?;
    Ok(())
}

/// The names of an expression.
pub fn expr(list: &mut Vec<TextEvent>, e: &Expr) -> Result<(), NoMemory>
    ensures { OnOk result (list.new.items ≡ list.old.items ++ exp_events (exp_of e.now)) }
{
    match e {
        Expr::Num(_) => Ok(()),
        Expr::Var(x) => add(list, TextEvent::Read(*x, NameKind::Scalar)),
        Expr::At(x, index) => {
            add(list, TextEvent::Read(*x, NameKind::Array))?;
            expr(list, index)
        }
        Expr::Neg(value) => expr(list, value),
        Expr::Not(value) => expr(list, value),
        Expr::Bin(_, left, right) => {
            expr(list, left)?;
            expr(list, right)
        }
    }
}

/// The names of a place that is assigned.
pub fn target(list: &mut Vec<TextEvent>, target: &Target) -> Result<(), NoMemory>
    ensures { OnOk result (list.new.items ≡ list.old.items ++ place_events (place_of target.now)) }
{
    match target {
        Target::Var(x) => add(list, TextEvent::Assign(*x, NameKind::Scalar)),
        Target::At(x, index) => {
            add(list, TextEvent::Assign(*x, NameKind::Array))?;
            expr(list, index)
        }
    }
}

/// The names of a question.
pub fn ask(list: &mut Vec<TextEvent>, ask: &Ask) -> Result<(), NoMemory>
    ensures { OnOk result (list.new.items ≡ list.old.items ++ asked_events (asked_of ask.now)) }
{
    match ask {
        Ask::More(e) => expr(list, e),
        Ask::Input(e) => expr(list, e),
        Ask::Until => Ok(()),
        Ask::Limit => Ok(()),
    }
}

/// The names of an observation.
pub fn tell(list: &mut Vec<TextEvent>, tell: &Tell) -> Result<(), NoMemory>
    ensures { OnOk result (list.new.items ≡ list.old.items ++ told_events (told_of tell.now)) }
{
    match tell {
        Tell::Start => Ok(()),
        Tell::Event(a, b, c) => {
            expr(list, a)?;
            expr(list, b)?;
            expr(list, c)
        }
        Tell::Val(a, b, c, d) => {
            expr(list, a)?;
            expr(list, b)?;
            expr(list, c)?;
            expr(list, d)
        }
        Tell::End(a) => expr(list, a),
        Tell::Stop(a, b, c) => {
            expr(list, a)?;
            expr(list, b)?;
            expr(list, c)
        }
    }
}

/// The names of a loop's line.
pub fn turn(list: &mut Vec<TextEvent>, counter: Name, bound: &Bound) -> Result<(), NoMemory>
    ensures { OnOk result (list.new.items ≡ list.old.items ++ (TextEvent.Loop counter bound.now ∷ bound_events bound.now)) }
{
    add(list, TextEvent::Loop(counter, *bound))?;
    match bound {
        Bound::Num(_) => Ok(()),
        Bound::Var(x) => add(list, TextEvent::Read(*x, NameKind::Scalar)),
    }
}

#[cycle(events)]
fn statement(list: &mut Vec<TextEvent>, s: &Stmt) -> Result<(), NoMemory>
    ensures { OnOk result (list.new.items ≡ list.old.items ++ statement_events (statement_of s.now)) }
{
    match s {
        Stmt::Set(place, e) => {
            target(list, place)?;
            expr(list, e)
        }
        Stmt::Ask(place, question) => {
            target(list, place)?;
            ask(list, question)
        }
        Stmt::If(e, yes, no) => {
            expr(list, e)?;
            add(list, TextEvent::If)?;
            block(list, yes)?;
            block(list, no)?;
            add(list, TextEvent::Close)
        }
        Stmt::For(counter, bound, body) => {
            turn(list, *counter, bound)?;
            block(list, body)?;
            add(list, TextEvent::Close)
        }
        Stmt::Call(f) => add(list, TextEvent::Call(*f)),
        Stmt::Tell(t) => tell(list, t),
    }
}

/// The names of statements.
#[cycle(events)]
fn block(list: &mut Vec<TextEvent>, statements: &[Stmt]) -> Result<(), NoMemory>
    ensures { OnOk result (list.new.items ≡ list.old.items ++ block_events (statements_of statements.now)) }
{
    for s in statements {
        statement(list, s)?;
    }
    Ok(())
}

fn declarations(list: &mut Vec<TextEvent>, decls: &[Decl]) -> Result<(), NoMemory>
    ensures { OnOk result (list.new.items ≡ list.old.items ++ map declared_event (map declared_of decls.now)) }
{
    for decl in decls {
        add(list, TextEvent::Declare(decl.name, decl.size))?;
    }
    Ok(())
}

fn function(list: &mut Vec<TextEvent>, func: &Func) -> Result<(), NoMemory>
    ensures { OnOk result (list.new.items ≡ list.old.items ++ function_events (function_of func.now)) }
{
    add(list, TextEvent::Function(func.name))?;
    block(list, &func.body)?;
    add(list, TextEvent::Close)
}

fn functions(list: &mut Vec<TextEvent>, funcs: &[Func]) -> Result<(), NoMemory>
    ensures { OnOk result (list.new.items ≡ list.old.items ++ flat_map function_events (map function_of funcs.now)) }
{
    for func in funcs {
        function(list, func)?;
    }
    Ok(())
}

/// What a program does with names, in the order of its text.
pub fn program(alloc: Global, p: &Program) -> Result<Vec<TextEvent>, NoMemory>
    ensures { IfOk result (λ list. list.items ≡ program_events (whole_of p.now)) }
{
    let mut list = Vec::new(alloc);
    declarations(&mut list, &p.decls)?;
    functions(&mut list, &p.funcs)?;
    add(&mut list, TextEvent::Main)?;
    block(&mut list, &p.main)?;
    add(&mut list, TextEvent::Close)?;
    Ok(list)
}
