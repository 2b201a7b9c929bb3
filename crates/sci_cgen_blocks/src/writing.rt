// Recipes as statements over the program's arrays.
ghost use Rattle.std.specs.Prelude.{◌≡◌, ◌≤ℤ◌, ◌<◌, ◌≤◌, ◌+◌, ◌^◌, ℕ, negsuc, pos, IfOk, OnOk};
ghost use Rattle.c_ast.specs.Syntax.{bin, element as element_of, choice, loop, done, tell, stop, num, set as assign, cell};
ghost use Rattle.c_ast.specs.declared.Bound.TheVariants as bounds;
ghost use Rattle.c_ast.specs.View.{exp_of, statement_of, statements_of};
ghost use Rattle.c_mean.specs.Texts.{number as number_text, place, joined};
ghost use Rattle.sci_cgen_blocks.specs.Texts.{values as values_name, counted_by, element_place as place_of_element, written, expression as expression_text};
ghost use Rattle.sci_cgen_blocks.specs.Texts.{steps_text, work_statement, works_text, assigned_text, recipe_text, stop_text, scratch_name};
ghost use Rattle.sci_cgen_blocks.specs.Plain.{term_of, work_of, works_of, step_of, steps_of, word_of, plain_recipe, which_of, plain_places, AreSpelled};
ghost use Rattle.sci_cgen_blocks.specs.Plain.{AreWorksSpelled, IsStepSpelled, AreStepsSpelled, IsRecipeSpelled, IsWorkSpelled};

use crate::BlockLayout;
use crate::array_names::{masks, scratch, states, values};
use crate::recipe_parts::{Cause, Recipe, Step, Term, Which, Work};
use c_ast::{Bound, Expr, Name, Op, Stmt, Target, Tell};
use sci_base::NoMemory;
use std::alloc::Global;

/// A number, as C spells it.
pub fn number(alloc: Global, z: i64) -> Result<Expr, NoMemory>
    requires { negsuc 9223372036854775806 ≤ℤ z }
    ensures { IfOk result (λ e. exp_of e ≡ number_text z) }
{
    if z < 0 {
        Ok(Expr::Neg(Box::new(alloc, Expr::Num(-z))?))
    } else {
        Ok(Expr::Num(z))
    }
}

/// An element of an array.
pub fn element(alloc: Global, array: Name, at: u64) -> Result<Expr, NoMemory>
    requires { at < 2 ^ 63 }
    ensures { IfOk result (λ e. exp_of e ≡ place array at) }
{
    Ok(Expr::At(array, Box::new(alloc, Expr::Num(at as i64))?))
}

/// An operation.
pub fn bin(alloc: Global, op: Op, a: Expr, b: Expr) -> Result<Expr, NoMemory>
    ensures { IfOk result (λ e. exp_of e ≡ bin op (exp_of a) (exp_of b)) }
{
    Ok(Expr::Bin(op, Box::new(alloc, a)?, Box::new(alloc, b)?))
}

/// Statements for where a test isn't 0.
pub fn only_where(alloc: Global, test: Expr, body: Vec<Stmt>) -> Stmt
    ensures { statement_of result ≡ choice (exp_of test) (statements_of body.items) done }
{
    Stmt::If(test, body, Vec::new(alloc))
}

/// Statements for where a test isn't 0, and others for where it is.
pub fn either(test: Expr, then: Vec<Stmt>, otherwise: Vec<Stmt>) -> Stmt
    ensures { statement_of result ≡ choice (exp_of test) (statements_of then.items) (statements_of otherwise.items) }
{
    Stmt::If(test, then, otherwise)
}

/// Statements again and again, so many times, while a counter goes up from 0.
pub fn repeated(counter: Name, count: u32, body: Vec<Stmt>) -> Stmt
    ensures { statement_of result ≡ loop counter (bounds.Num (pos count)) (statements_of body.items) }
{
    Stmt::For(counter, Bound::Num(count as i64), body)
}

/// The element at a computed place of an array.
pub fn indexed(alloc: Global, array: Name, place: Expr) -> Result<Expr, NoMemory>
    ensures { IfOk result (λ e. exp_of e ≡ element_of array (exp_of place)) }
{
    Ok(Expr::At(array, Box::new(alloc, place)?))
}

/// The place of the element that a scratch number counts, where the first one is at place `first`.
pub fn counted_place(alloc: Global, counter: u32, first: u64) -> Result<Expr, NoMemory>
    requires { first < 2 ^ 63 }
    ensures { IfOk result (λ e. exp_of e ≡ place_of_element (counted_by counter) first) }
{
    bin(
        alloc,
        Op::Add,
        Expr::Var(scratch(counter)),
        Expr::Num(first as i64),
    )
}

/// The place of an element, where the first one is at place `first`.
fn element_place(alloc: Global, which: Which, first: u64) -> Result<Expr, NoMemory>
    requires { first ≤ 2 ^ 32 }
    ensures { IfOk result (λ e. exp_of e ≡ place_of_element (which_of which) first) }
{
    match which {
        Which::Fixed(e) => Ok(Expr::Num(first as i64 + e as i64)),
        Which::CountedBy(n) => counted_place(alloc, n, first),
    }
}

/// The element of an array that a text is written for.
fn element_along(alloc: Global, array: Name, which: Which, first: u64) -> Result<Expr, NoMemory>
    requires { first ≤ 2 ^ 32 }
    ensures { IfOk result (λ e. exp_of e ≡ element_of array (place_of_element (which_of which) first)) }
{
    let place = element_place(alloc, which, first)?;
    indexed(alloc, array, place)
}

/// A term as an expression.
pub(crate) fn expression(
    alloc: Global,
    at: &BlockLayout,
    which: Which,
    t: &Term,
) -> Result<Expr, NoMemory>
    requires { AreSpelled (term_of t.now) }
    ensures { IfOk result (λ e. exp_of e ≡ expression_text (written (plain_places at.now) (which_of which)) (term_of t.now)) }
{
    match t {
        Term::Constant(z) => number(alloc, *z),
        Term::Input(port, e) => element(alloc, values(), at.input(*port) as u64 + *e as u64),
        Term::Along(port) => element_along(alloc, values(), which, at.input(*port) as u64),
        Term::State(i) => element(alloc, states(), at.state as u64 + *i as u64),
        Term::StateAlong => element_along(alloc, states(), which, at.state as u64),
        Term::StateBehind => element_along(alloc, states(), which, at.state as u64 + 1),
        Term::Mask => element(alloc, masks(), at.mask as u64),
        Term::Scratch(n) => Ok(Expr::Var(scratch(*n))),
        Term::Both(op, a, b) => bin(
            alloc,
            *op,
            expression(alloc, at, which, a)?,
            expression(alloc, at, which, b)?,
        ),
    }
}

/// A change of scratch as a statement.
fn work(alloc: Global, at: &BlockLayout, which: Which, work: &Work) -> Result<Stmt, NoMemory>
    requires { IsWorkSpelled (work_of work.now) }
    ensures { IfOk result (λ s. statement_of s ≡ work_statement (written (plain_places at.now) (which_of which)) (work_of work.now)) }
{
    match work {
        Work::Assign(n, t) => Ok(Stmt::Set(
            Target::Var(scratch(*n)),
            expression(alloc, at, which, t)?,
        )),
        Work::AssignIf(test, n, t) => {
            let set = Stmt::Set(Target::Var(scratch(*n)), expression(alloc, at, which, t)?);
            let test = expression(alloc, at, which, test)?;
            Ok(only_where(alloc, test, vec![in alloc; set]?))
        }
    }
}

/// Changes of scratch as statements.
fn works(
    alloc: Global,
    at: &BlockLayout,
    which: Which,
    works: &[Work],
) -> Result<Vec<Stmt>, NoMemory>
    requires { AreWorksSpelled (works_of works.now) }
    ensures { IfOk result (λ v. statements_of v.items ≡ works_text (written (plain_places at.now) (which_of which)) (works_of works.now)) }
{
    let mut out = Vec::with_capacity(alloc, works.len())?;
    for one in works {
        out.push(work(alloc, at, which, one)?)?;
    }
    Ok(out)
}

/// Stops the run at the block.
fn stopping(block: u32, word: i64) -> Stmt
    ensures { statement_of result ≡ tell (stop (num word) (num (pos block)) (num (pos 0))) }
{
    Stmt::Tell(Tell::Stop(Expr::Num(word), Expr::Num(block as i64), Expr::Num(0)))
}

fn word(cause: Cause) -> i64
    ensures { result ≡ pos (word_of cause) }
{
    match cause {
        Cause::Overflow => 0,
        Cause::Zero => 1,
    }
}

/// The element of the outputs that is written for becomes what a term is.
pub(crate) fn assigned(
    alloc: Global,
    at: &BlockLayout,
    which: Which,
    value: &Term,
) -> Result<Stmt, NoMemory>
    requires { AreSpelled (term_of value.now) }
    ensures { IfOk result (λ s. statement_of s ≡ assign (cell values_name (place_of_element (which_of which) at.now.outs))
        (expression_text (written (plain_places at.now) (which_of which)) (term_of value.now))) }
{
    let value = expression(alloc, at, which, value)?;
    let place = Target::At(values(), element_place(alloc, which, at.outs as u64)?);
    Ok(Stmt::Set(place, value))
}

/// Stops the run where a test isn't 0, and else does the rest.
fn stop_or(
    alloc: Global,
    at: &BlockLayout,
    which: Which,
    test: &Term,
    cause: Cause,
    rest: Vec<Stmt>,
) -> Result<Stmt, NoMemory>
    requires { AreSpelled (term_of test.now) }
    ensures { IfOk result (λ s. statement_of s ≡ choice (expression_text (written (plain_places at.now) (which_of which)) (term_of test.now))
        (stop_text (word_of cause) at.now.number) (statements_of rest.items)) }
{
    let test = expression(alloc, at, which, test)?;
    let stop = vec![in alloc; stopping(at.number, word(cause))]?;
    Ok(either(test, stop, rest))
}

/// Changes of scratch made `count` times, while a scratch number goes up from 0.
fn turns(
    alloc: Global,
    at: &BlockLayout,
    which: Which,
    counter: u32,
    count: u32,
    changes: &[Work],
) -> Result<Stmt, NoMemory>
    requires { AreWorksSpelled (works_of changes.now) }
    ensures { IfOk result (λ s. statement_of s ≡ loop (scratch_name counter) (bounds.Num (pos count))
        (works_text (written (plain_places at.now) (which_of which)) (works_of changes.now))) }
{
    let body = works(alloc, at, which, changes)?;
    Ok(repeated(scratch(counter), count, body))
}

/// Steps, and behind them the element of the outputs that is written for becomes what a term is. What follows a stop stands in its `else`.
fn push_steps(
    alloc: Global,
    out: &mut Vec<Stmt>,
    at: &BlockLayout,
    which: Which,
    steps: &[Step],
    value: &Term,
) -> Result<(), NoMemory>
    requires steps { AreStepsSpelled (steps_of steps.now) }
    requires value { AreSpelled (term_of value.now) }
    ensures { OnOk result (statements_of out.new.items ≡ joined (statements_of out.old.items)
        (steps_text (written (plain_places at.now) (which_of which)) (steps_of steps.now)
        (assigned_text (written (plain_places at.now) (which_of which)) (term_of value.now)))) }
{
    let Some((first, behind)) = steps.split_first() else {
        out.push(assigned(alloc, at, which, value)?)?;
        return Ok(());
    };
    match first {
        Step::Change(change) => {
            out.push(work(alloc, at, which, change)?)?;
            push_steps(alloc, out, at, which, behind, value)
        }
        Step::Repeat(counter, count, changes) => {
            out.push(turns(alloc, at, which, *counter, *count, changes)?)?;
            push_steps(alloc, out, at, which, behind, value)
        }
        Step::StopIf(test, cause) => {
            let mut rest = Vec::new(alloc);
            push_steps(alloc, &mut rest, at, which, behind, value)?;
            out.push(stop_or(alloc, at, which, test, *cause, rest)?)?;
            Ok(())
        }
    }
}

/// The element of the outputs that is written for becomes what the recipe gives.
pub(crate) fn push_recipe(
    alloc: Global,
    out: &mut Vec<Stmt>,
    at: &BlockLayout,
    which: Which,
    recipe: &Recipe,
) -> Result<(), NoMemory>
    requires { IsRecipeSpelled (plain_recipe recipe.now) }
    ensures { OnOk result (statements_of out.new.items ≡ joined (statements_of out.old.items)
        (recipe_text (written (plain_places at.now) (which_of which)) (plain_recipe recipe.now))) }
{
    push_steps(alloc, out, at, which, &recipe.steps, &recipe.value)
}
