// The kinds that count truths and bits of their inputs, and those that compare.
ghost use Rattle.std.specs.Prelude.{◌≡◌, ◌∷◌, [], ◌*◌, ◌/◌, ℕ, ◌<◌, ◌≤◌, ◌++◌, ◌-◌, ◌+◌, ◌^◌, pos, length, IfOk, OnOk};
ghost use Rattle.sci_base.specs.Fit.{width};
ghost use Rattle.sci_forms.specs.Words.{param as param_of};
ghost use Rattle.sci_forms.specs.declared.Kind.TheVariants as kinds;
ghost use Rattle.c_ast.specs.declared.Op.TheVariants as ops;
ghost use Rattle.sci_cgen_blocks.specs.Terms.{constant, along, mask, scratch, both, assign, change, repeat};
ghost use Rattle.sci_cgen_blocks.specs.Recipes.{natural as natural_term, plain as plain_of, result as first_scratch, pattern as pattern_term};
ghost use Rattle.sci_cgen_blocks.specs.Recipes.{truth as truth_term, counted, changed, logical as logical_term, logical_truths as truths_recipe};
ghost use Rattle.sci_cgen_blocks.specs.Recipes.{join_of as join_by_code, is_turned as is_turned_by_code, last_bit as last_bit_term};
ghost use Rattle.sci_cgen_blocks.specs.Recipes.{last_joined as last_joined_term, bit_joined as bit_joined_works, patterns_joined};
ghost use Rattle.sci_cgen_blocks.specs.Recipes.{turned_over as turned_over_term, logical_bits as bits_recipe, relation as relation_by_code, recipe_of};
ghost use Rattle.sci_cgen_blocks.specs.Plain.{term_of, work_of, works_of, step_of, steps_of, plain_recipe};

use crate::fit_terms::{pattern, wrapped};
use crate::recipe_parts::{Recipe, Step, Term, Work, both, natural, plain, set, worked};
use crate::spec_words::inputs;
use c_ast::Op;
use sci_base::bits::span;
use sci_base::{NoMemory, Ty};
use sci_forms::Spec;
use sci_forms::values::is_equal;
use std::alloc::Global;

/// How bits are joined: where each is 1, where some are, or where an odd number of them are.
#[derive(Clone, Copy, Drop)]
pub(crate) enum Join {
    Every,
    Any,
    Odd,
}

/// 1 where a term isn't 0.
fn truth(alloc: Global, t: Term) -> Result<Term, NoMemory>
    ensures { IfOk result (λ r. term_of r ≡ truth_term (term_of t)) }
{
    both(alloc, Op::Ne, t, natural(0))
}

/// The result grows by a term.
fn count(alloc: Global, t: Term) -> Result<Work, NoMemory>
    ensures { IfOk result (λ w. work_of w ≡ assign 1 (both ops.Add first_scratch (term_of t))) }
{
    Ok(Work::Assign(1, both(alloc, Op::Add, worked(), t)?))
}

/// The logical operation, where the result counts the true inputs of `n`.
fn logical(alloc: Global, op: i64, n: u32) -> Result<Term, NoMemory>
    ensures { IfOk result (λ r. term_of r ≡ logical_term op n) }
{
    if is_equal(op, 0) {
        both(alloc, Op::Eq, worked(), natural(n as u64))
    } else if is_equal(op, 1) {
        both(alloc, Op::Gt, worked(), natural(0))
    } else if is_equal(op, 2) {
        both(alloc, Op::Ne, worked(), natural(n as u64))
    } else if is_equal(op, 4) {
        let parity = both(alloc, Op::Rem, worked(), natural(2))?;
        both(alloc, Op::Eq, parity, natural(1))
    } else {
        both(alloc, Op::Eq, worked(), natural(0))
    }
}

/// The truth of an input, counted in the result.
fn truth_counted(alloc: Global, port: u32) -> Result<Step, NoMemory>
    ensures { IfOk result (λ x. step_of x ≡ change (assign 1 (both ops.Add first_scratch (truth_term (along port))))) }
{
    let is_true = truth(alloc, Term::Along(port))?;
    Ok(Step::Change(count(alloc, is_true)?))
}

/// The true inputs of `n`, counted in the result.
fn push_truths(alloc: Global, steps: &mut Vec<Step>, n: u32) -> Result<(), NoMemory>
    ensures { OnOk result (steps_of steps.new.items ≡ steps_of steps.old.items ++ changed (counted (λ k. truth_term (along k)) 0 n)) }
{
    for port in 0..n {
        steps.push(truth_counted(alloc, port)?)?;
    }
    Ok(())
}

fn logical_truths(alloc: Global, op: i64, n: u32) -> Result<Recipe, NoMemory>
    ensures { IfOk result (λ r. plain_recipe r ≡ truths_recipe op n) }
{
    let mut steps = vec![in alloc; set(natural(0))]?;
    push_truths(alloc, &mut steps, n)?;
    let value = logical(alloc, op, n)?;
    Ok(Recipe { steps, value })
}

/// How an operation joins bits.
fn join_of(op: i64) -> Join
    ensures { result ≡ join_by_code op }
{
    match op {
        0 | 2 => Join::Every,
        4 => Join::Odd,
        _ => Join::Any,
    }
}

/// Whether an operation turns over the bits that it has joined.
fn is_turned(op: i64) -> bool
    ensures { result ≡ is_turned_by_code op }
{
    match op {
        0 | 1 | 4 => false,
        _ => true,
    }
}

/// The last bit of a scratch number.
fn last_bit(alloc: Global, n: u32) -> Result<Term, NoMemory>
    ensures { IfOk result (λ t. term_of t ≡ last_bit_term n) }
{
    both(alloc, Op::Rem, Term::Scratch(n), natural(2))
}

/// What the last bits of scratch 1 and 2 give, as a test.
fn last_joined(alloc: Global, join: Join) -> Result<Term, NoMemory>
    ensures { IfOk result (λ t. term_of t ≡ last_joined_term join) }
{
    match join {
        Join::Every => both(alloc, Op::And, last_bit(alloc, 1)?, last_bit(alloc, 2)?),
        Join::Any => both(alloc, Op::Or, last_bit(alloc, 1)?, last_bit(alloc, 2)?),
        Join::Odd => {
            let sum = both(alloc, Op::Add, worked(), Term::Scratch(2))?;
            both(alloc, Op::Rem, sum, natural(2))
        }
    }
}

/// Scratch 1 and 2 give their last bit away, and scratch 1 takes what these give as its highest.
fn bit_joined(alloc: Global, ty: Ty, join: Join) -> Result<Vec<Work>, NoMemory>
    ensures { IfOk result (λ v. works_of v.items ≡ bit_joined_works ty join) }
{
    let test = last_joined(alloc, join)?;
    let more = both(alloc, Op::Add, worked(), natural(span(ty)))?;
    let first = both(alloc, Op::Div, worked(), natural(2))?;
    let second = both(alloc, Op::Div, Term::Scratch(2), natural(2))?;
    Ok(vec![in alloc;
        Work::AssignIf(test, 1, more),
        Work::Assign(1, first),
        Work::Assign(2, second),
    ]?)
}

/// The changes for two bits.
#[tactic(auto, using(crate::proofs::Kept::works_behind))]
fn bits_joined(alloc: Global, ty: Ty, join: Join) -> Result<Vec<Work>, NoMemory>
    ensures { IfOk result (λ v. works_of v.items ≡ bit_joined_works ty join ++ bit_joined_works ty join) }
{
    let mut works = bit_joined(alloc, ty, join)?;
    let mut behind = bit_joined(alloc, ty, join)?;
    works.append(&mut behind)?;
    Ok(works)
}

/// The pattern of an input goes into scratch 2.
fn pattern_taken(alloc: Global, ty: Ty, port: u32) -> Result<Step, NoMemory>
    ensures { IfOk result (λ x. step_of x ≡ change (assign 2 (pattern_term ty (along port)))) }
{
    Ok(Step::Change(Work::Assign(2, pattern(alloc, ty, Term::Along(port))?)))
}

/// It is joined with the one in scratch 1.
fn pattern_joined(alloc: Global, ty: Ty, join: Join) -> Result<Step, NoMemory>
    ensures { IfOk result (λ x. step_of x ≡ repeat 3 (width ty / 2) (bit_joined_works ty join ++ bit_joined_works ty join)) }
{
    Ok(Step::Repeat(3, ty.width() / 2, bits_joined(alloc, ty, join)?))
}

/// The patterns of inputs 1 to `n` - 1 are joined with the one in scratch 1.
fn push_patterns(
    alloc: Global,
    steps: &mut Vec<Step>,
    ty: Ty,
    join: Join,
    n: u32,
) -> Result<(), NoMemory>
    ensures { OnOk result (steps_of steps.new.items ≡ steps_of steps.old.items ++ patterns_joined ty join 1 (n - 1)) }
{
    for port in 1..n {
        let taken = pattern_taken(alloc, ty, port)?;
        let joined = pattern_joined(alloc, ty, join)?;
        steps.push(taken)?;
        steps.push(joined)?;
    }
    Ok(())
}

/// The pattern in scratch 1, turned over or not.
fn turned_over(alloc: Global, ty: Ty, turned: bool) -> Result<Term, NoMemory>
    ensures { IfOk result (λ t. term_of t ≡ turned_over_term ty turned) }
{
    if turned {
        both(alloc, Op::Sub, natural(span(ty) - 1), worked())
    } else {
        Ok(worked())
    }
}

fn logical_bits(alloc: Global, ty: Ty, op: i64, n: u32) -> Result<Recipe, NoMemory>
    ensures { IfOk result (λ r. plain_recipe r ≡ bits_recipe ty op n) }
{
    let first = pattern(alloc, ty, Term::Along(0))?;
    let mut steps = vec![in alloc; set(first)]?;
    push_patterns(alloc, &mut steps, ty, join_of(op), n)?;
    let bits = turned_over(alloc, ty, is_turned(op))?;
    Ok(Recipe {
        steps,
        value: wrapped(alloc, ty, bits)?,
    })
}

/// A logical operation of truths, or at each bit.
pub(crate) fn logical_operation(alloc: Global, s: &Spec) -> Result<Recipe, NoMemory>
    requires { length s.now.ins < 2 ^ 32 }
    ensures { IfOk result (λ r. plain_recipe r ≡ recipe_of kinds.LogicalOp s.now) }
{
    let op = s.param(0);
    if is_equal(s.param(1), 0) {
        logical_truths(alloc, op, inputs(s))
    } else {
        logical_bits(alloc, s.out_type(), op, inputs(s))
    }
}

/// The operator of a code: =, not equal, <, <=, >, >=.
fn relation(code: i64) -> Op
    ensures { result ≡ relation_by_code code }
{
    if is_equal(code, 0) {
        Op::Eq
    } else if is_equal(code, 1) {
        Op::Ne
    } else if is_equal(code, 2) {
        Op::Lt
    } else if is_equal(code, 3) {
        Op::Le
    } else if is_equal(code, 4) {
        Op::Gt
    } else {
        Op::Ge
    }
}

/// Whether the first input has its relation to the second.
pub(crate) fn related(alloc: Global, s: &Spec) -> Result<Recipe, NoMemory>
    ensures { IfOk result (λ r. plain_recipe r ≡ recipe_of kinds.RelationalOp s.now) }
{
    let op = relation(s.param(0));
    let holds = both(alloc, op, Term::Along(0), Term::Along(1))?;
    Ok(plain(alloc, holds))
}

/// 1 where both activation inputs are activated, else -1.
pub(crate) fn and_of_both(alloc: Global) -> Result<Recipe, NoMemory>
    ensures { IfOk result (λ r. plain_recipe r ≡ plain_of (both ops.Sub (both ops.Mul (natural_term 2) (both ops.Eq mask (natural_term 3))) (natural_term 1))) }
{
    let is_both = both(alloc, Op::Eq, Term::Mask, natural(3))?;
    let doubled = both(alloc, Op::Mul, natural(2), is_both)?;
    Ok(plain(alloc, both(alloc, Op::Sub, doubled, natural(1))?))
}
