//! Pieces of which texts are made.
ghost use Rattle.std.specs.Prelude.{◌≡◌, OnOk, pos};
ghost use Rattle.c_ast.specs.Syntax.{cell as cell_of, set as assign, next, done, num, choice};
ghost use Rattle.c_ast.specs.View.{exp_of, place_of, statement_of, statements_of};
ghost use Rattle.c_mean.specs.Texts.{joined};

use c_ast::{Expr, Name, Stmt, Target};
use sci_base::NoMemory;
use sci_cgen_blocks::writing::only_where;
use std::alloc::Global;

/// A natural number.
pub fn natural(n: u32) -> Expr
    ensures { exp_of result ≡ num (pos n) }
{
    Expr::Num(i64::from(n))
}

/// An element of an array, to be assigned.
pub fn cell(array: Name, at: u32) -> Target
    ensures { place_of result ≡ cell_of array (num (pos at)) }
{
    Target::At(array, natural(at))
}

/// An element of an array becomes a natural number.
pub fn set_natural(array: Name, at: u32, n: u32) -> Stmt
    ensures { statement_of result ≡ assign (cell_of array (num (pos at))) (num (pos n)) }
{
    Stmt::Set(cell(array, at), natural(n))
}

/// One statement more.
pub fn push(out: &mut Vec<Stmt>, statement: Stmt) -> Result<(), NoMemory>
    ensures { OnOk result (statements_of out.new.items ≡ joined (statements_of out.old.items) (next (statement_of statement) done)) }
{
    out.push(statement)?;
    Ok(())
}

/// Statements more.
#[tactic(auto, using(crate::proofs::TextLemmas::statements_appended))]
pub fn push_all(out: &mut Vec<Stmt>, statements: Vec<Stmt>) -> Result<(), NoMemory>
    ensures { OnOk result (statements_of out.new.items ≡ joined (statements_of out.old.items) (statements_of statements.items)) }
{
    let mut statements = statements;
    out.append(&mut statements)?;
    Ok(())
}

/// Statements for where a test isn't 0.
pub fn push_where(
    alloc: Global,
    out: &mut Vec<Stmt>,
    test: Expr,
    body: Vec<Stmt>,
) -> Result<(), NoMemory>
    ensures { OnOk result (statements_of out.new.items
        ≡ joined (statements_of out.old.items) (next (choice (exp_of test) (statements_of body.items) done) done)) }
{
    push(out, only_where(alloc, test, body))
}
