// A source is programmed.
ghost use Rattle.std.specs.Prelude.{◌≡◌, if◌then◌else◌, IfOk, pos};
ghost use Rattle.c_ast.specs.Syntax.{var, bin, cell as cell_of, set as assign, done, next, num};
ghost use Rattle.c_ast.specs.declared.Op.TheVariants.{Add};
ghost use Rattle.c_ast.specs.View.{exp_of, statements_of};
ghost use Rattle.sci_due.specs.Texts.{order_text as order_text_of, stale_text as stale_text_of, entry_text as entry_text_of, program_text as program_text_of};
ghost use Rattle.sci_due.specs.Texts.{is_ticks as is_ticks_of, delayed_text as delayed_text_of};
ghost use Rattle.sci_due.specs.Due.{dates as dates_name, now as now_name, keeps_orders, keeps_groups};

use crate::names::{dates, delay, fresh, now, orders, programmed};
use crate::pieces::{cell, natural, push_all, set_natural};
use c_ast::{Expr, Op, Stmt, Target};
use sci_base::NoMemory;
use sci_cgen_blocks::writing::{bin, only_where};
use sci_due::{DueTable, GROUP};
use std::alloc::Global;

/// The date of a source's event, counted from 0 without start.
fn dated(alloc: Global, at: u32, ticks: Expr) -> Result<Vec<Stmt>, NoMemory>
    ensures { IfOk result (λ v. statements_of v.items ≡ next (assign (cell_of dates_name (num (pos at))) (bin Add (var now_name) (exp_of ticks))) done) }
{
    let date = bin(alloc, Op::Add, Expr::Var(now()), ticks)?;
    Ok(vec![in alloc; Stmt::Set(cell(dates(), at), date)]?)
}

/// The order of its event, where the table keeps orders.
fn order_text(alloc: Global, table: DueTable, at: u32) -> Result<Vec<Stmt>, NoMemory>
    ensures { IfOk result (λ v. statements_of v.items ≡ (if keeps_orders table then order_text_of at else done)) }
{
    match table {
        DueTable::Dates => Ok(Vec::new(alloc)),
        DueTable::Orders | DueTable::Groups => {
            let next_order = bin(alloc, Op::Add, Expr::Var(programmed()), natural(1))?;
            Ok(vec![in alloc;
                Stmt::Set(cell(orders(), at), Expr::Var(programmed())),
                Stmt::Set(Target::Var(programmed()), next_order),
            ]?)
        }
    }
}

/// The first of its group isn't known any more, where the table keeps groups.
fn stale_text(alloc: Global, table: DueTable, at: u32) -> Result<Vec<Stmt>, NoMemory>
    ensures { IfOk result (λ v. statements_of v.items ≡ (if keeps_groups table then stale_text_of at else done)) }
{
    match table {
        DueTable::Groups => Ok(vec![in alloc; set_natural(fresh(), at / GROUP, 0)]?),
        DueTable::Dates | DueTable::Orders => Ok(Vec::new(alloc)),
    }
}

/// The entry of a source, counted from 0 without start, becomes the event after a delay of 0 or more.
fn entry_text(alloc: Global, table: DueTable, at: u32, ticks: Expr) -> Result<Vec<Stmt>, NoMemory>
    ensures { IfOk result (λ v. statements_of v.items ≡ entry_text_of table at (exp_of ticks)) }
{
    let mut out = dated(alloc, at, ticks)?;
    push_all(&mut out, order_text(alloc, table, at)?)?;
    push_all(&mut out, stale_text(alloc, table, at)?)?;
    Ok(out)
}

/// A source, counted from 0 without start, is programmed with a delay, unless the delay is below 0.
fn program_text(alloc: Global, table: DueTable, at: u32, ticks: Expr) -> Result<Vec<Stmt>, NoMemory>
    ensures { IfOk result (λ v. statements_of v.items ≡ program_text_of table at (exp_of ticks) done) }
{
    let is_programmed = bin(alloc, Op::Ge, Expr::Var(delay()), natural(0))?;
    let entry = entry_text(alloc, table, at, Expr::Var(delay()))?;
    Ok(vec![in alloc;
        Stmt::Set(Target::Var(delay()), ticks),
        only_where(alloc, is_programmed, entry),
    ]?)
}

/// Whether a delay is a number of 0 or more.
#[tactic(auto, using(crate::proofs::TextLemmas::ticks_are))]
fn is_ticks(ticks: &Expr) -> bool
    ensures { result ≡ is_ticks_of (exp_of ticks.now) }
{
    match ticks {
        Expr::Num(n) => *n >= 0,
        _ => false,
    }
}

/// A source, counted from 0 without start, is programmed with a delay, of which nothing is asked where it is a number.
pub fn delayed_text(
    alloc: Global,
    table: DueTable,
    at: u32,
    ticks: Expr,
) -> Result<Vec<Stmt>, NoMemory>
    ensures { IfOk result (λ v. statements_of v.items ≡ delayed_text_of table at (exp_of ticks)) }
{
    if is_ticks(&ticks) {
        entry_text(alloc, table, at, ticks)
    } else {
        program_text(alloc, table, at, ticks)
    }
}
