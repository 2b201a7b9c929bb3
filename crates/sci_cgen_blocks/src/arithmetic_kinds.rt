// The arithmetic kinds.
ghost use Rattle.std.specs.Prelude.{◌+◌, if◌then◌else◌, ◌≡◌, ◌<◌, ◌≤◌, ◌++◌, ◌-◌, ◌^◌, pos, length, IfOk, OnOk};
ghost use Rattle.sci_base.specs.Fit.{int_eq};
ghost use Rattle.sci_forms.specs.Words.{param as param_of};
ghost use Rattle.sci_forms.specs.declared.Kind.TheVariants as kinds;
ghost use Rattle.c_ast.specs.declared.Op.TheVariants as ops;
ghost use Rattle.sci_cgen_blocks.specs.Terms.{constant, along, both as both_of};
ghost use Rattle.sci_cgen_blocks.specs.Recipes.{natural as natural_of, plain as plain_of, result as first_scratch, set as set_of, set_if as set_if_of};
ghost use Rattle.sci_cgen_blocks.specs.Recipes.{terms, extremes, recipe_of};
ghost use Rattle.sci_cgen_blocks.specs.Plain.{term_of, step_of, steps_of, plain_recipe};

use crate::fit_terms::fitted_out;
use crate::product_terms::{product, quotient};
use crate::recipe_parts::{
    Recipe, Step, Term, both, natural, plain, set, set_if, worked, worked_out,
};
use crate::spec_words::{inputs, mode};
use c_ast::Op;
use sci_base::NoMemory;
use sci_forms::Spec;
use sci_forms::values::is_equal;
use std::alloc::Global;

/// A signed input, added to the result.
fn term(alloc: Global, s: &Spec, port: u32) -> Result<Step, NoMemory>
    ensures { IfOk result (λ x. step_of x ≡ set_of (both_of (if int_eq (param_of s.now (port + 1)) (pos 1) then ops.Add else ops.Sub) first_scratch
        (along port))) }
{
    let op = if is_equal(s.param(port as usize + 1), 1) {
        Op::Add
    } else {
        Op::Sub
    };
    Ok(set(both(alloc, op, worked(), Term::Along(port))?))
}

/// The signed inputs, added to the result.
fn push_terms(alloc: Global, steps: &mut Vec<Step>, s: &Spec) -> Result<(), NoMemory>
    requires { length s.now.ins < 2 ^ 32 }
    ensures { OnOk result (steps_of steps.new.items ≡ steps_of steps.old.items ++ terms s.now 0 (length s.now.ins)) }
{
    for port in 0..inputs(s) {
        steps.push(term(alloc, s, port)?)?;
    }
    Ok(())
}

/// The fitted sum of the signed inputs.
pub(crate) fn summation(alloc: Global, s: &Spec) -> Result<Recipe, NoMemory>
    requires { length s.now.ins < 2 ^ 32 }
    ensures { IfOk result (λ r. plain_recipe r ≡ recipe_of kinds.Summation s.now) }
{
    let mut steps = vec![in alloc; set(natural(0))]?;
    push_terms(alloc, &mut steps, s)?;
    fitted_out(alloc, s.out_type(), mode(s), steps)
}

/// The input times a number.
pub(crate) fn gain(alloc: Global, s: &Spec) -> Result<Recipe, NoMemory>
    ensures { IfOk result (λ r. plain_recipe r ≡ recipe_of kinds.GainBlk s.now) }
{
    let factor = Term::Constant(s.param(1));
    product(alloc, s.out_type(), mode(s), &factor, &Term::Along(0))
}

/// The first input times the second, or over it.
pub(crate) fn product_or_quotient(alloc: Global, s: &Spec) -> Result<Recipe, NoMemory>
    ensures { IfOk result (λ r. plain_recipe r ≡ recipe_of kinds.Product s.now) }
{
    let (ty, mode) = (s.out_type(), mode(s));
    let (a, b) = (Term::Along(0), Term::Along(1));
    if is_equal(s.param(1), 1) {
        product(alloc, ty, mode, &a, &b)
    } else {
        quotient(alloc, ty, mode, &a, &b)
    }
}

/// The magnitude.
pub(crate) fn abs_value(alloc: Global, s: &Spec) -> Result<Recipe, NoMemory>
    ensures { IfOk result (λ r. plain_recipe r ≡ recipe_of kinds.AbsValue s.now) }
{
    let is_negative = both(alloc, Op::Lt, worked(), natural(0))?;
    let negated = both(alloc, Op::Sub, natural(0), worked())?;
    let steps = vec![in alloc; set(Term::Along(0)), set_if(is_negative, negated)]?;
    fitted_out(alloc, s.out_type(), mode(s), steps)
}

/// -1, 0 or 1 by the sign.
pub(crate) fn signum(alloc: Global) -> Result<Recipe, NoMemory>
    ensures { IfOk result (λ r. plain_recipe r ≡ plain_of (both_of ops.Sub (both_of ops.Gt (along 0) (natural_of 0))
        (both_of ops.Lt (along 0) (natural_of 0)))) }
{
    let is_positive = both(alloc, Op::Gt, Term::Along(0), natural(0))?;
    let is_negative = both(alloc, Op::Lt, Term::Along(0), natural(0))?;
    Ok(plain(alloc, both(alloc, Op::Sub, is_positive, is_negative)?))
}

/// An input, compared with the result.
fn compared(alloc: Global, op: Op, port: u32) -> Result<Step, NoMemory>
    ensures { IfOk result (λ x. step_of x ≡ set_if_of (both_of op (along port) first_scratch) (along port)) }
{
    let is_better = both(alloc, op, Term::Along(port), worked())?;
    Ok(set_if(is_better, Term::Along(port)))
}

/// The inputs from the second on, compared with the result.
fn push_extremes(alloc: Global, steps: &mut Vec<Step>, op: Op, count: u32) -> Result<(), NoMemory>
    ensures { OnOk result (steps_of steps.new.items ≡ steps_of steps.old.items ++ extremes op 1 (count - 1)) }
{
    for port in 1..count {
        steps.push(compared(alloc, op, port)?)?;
    }
    Ok(())
}

/// The least or the greatest input.
pub(crate) fn extreme(alloc: Global, s: &Spec) -> Result<Recipe, NoMemory>
    requires { length s.now.ins < 2 ^ 32 }
    ensures { IfOk result (λ r. plain_recipe r ≡ recipe_of kinds.MaxMin s.now) }
{
    let op = if is_equal(s.param(0), 1) {
        Op::Lt
    } else {
        Op::Gt
    };
    let mut steps = vec![in alloc; set(Term::Along(0))]?;
    push_extremes(alloc, &mut steps, op, inputs(s))?;
    Ok(worked_out(steps))
}

/// The input brought into a range.
pub(crate) fn saturation(alloc: Global, s: &Spec) -> Result<Recipe, NoMemory>
    ensures { IfOk result (λ r. plain_recipe r ≡ recipe_of kinds.Saturation s.now) }
{
    let low = s.param(0);
    let high = s.param(1);
    let is_above = both(alloc, Op::Gt, worked(), Term::Constant(high))?;
    let is_below = both(alloc, Op::Lt, Term::Along(0), Term::Constant(low))?;
    let steps = vec![in alloc;
        set(Term::Along(0)),
        set_if(is_above, Term::Constant(high)),
        set_if(is_below, Term::Constant(low)),
    ]?;
    Ok(worked_out(steps))
}

/// What the input has beyond a bound, where it has.
fn beyond(alloc: Global, op: Op, bound: i64) -> Result<Step, NoMemory>
    ensures { IfOk result (λ x. step_of x ≡ set_if_of (both_of op (along 0) (constant bound)) (both_of ops.Sub (along 0) (constant bound))) }
{
    let is_beyond = both(alloc, op, Term::Along(0), Term::Constant(bound))?;
    let excess = both(alloc, Op::Sub, Term::Along(0), Term::Constant(bound))?;
    Ok(set_if(is_beyond, excess))
}

/// What the input has beyond a range.
pub(crate) fn dead_band(alloc: Global, s: &Spec) -> Result<Recipe, NoMemory>
    ensures { IfOk result (λ r. plain_recipe r ≡ recipe_of kinds.DeadBand s.now) }
{
    let steps = vec![in alloc;
        set(natural(0)),
        beyond(alloc, Op::Lt, s.param(1))?,
        beyond(alloc, Op::Gt, s.param(2))?,
    ]?;
    fitted_out(alloc, s.out_type(), mode(s), steps)
}

/// The input as a number of the output's type.
pub(crate) fn convert(alloc: Global, s: &Spec) -> Result<Recipe, NoMemory>
    ensures { IfOk result (λ r. plain_recipe r ≡ recipe_of kinds.Convert s.now) }
{
    let steps = vec![in alloc; set(Term::Along(0))]?;
    fitted_out(alloc, s.out_type(), mode(s), steps)
}
