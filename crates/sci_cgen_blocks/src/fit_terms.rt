// Fitting into a type, and patterns.
ghost use Rattle.std.specs.Prelude.{◌≡◌, ◌<◌, ◌≤◌, ◌++◌, ◌^◌, IfOk};
ghost use Rattle.c_ast.specs.declared.Op.TheVariants as ops;
ghost use Rattle.sci_base.specs.Fit.{low, high};
ghost use Rattle.sci_cgen_blocks.specs.Terms.{constant, both as both_of};
ghost use Rattle.sci_cgen_blocks.specs.Recipes.{result as first_scratch, modulo as modulo_term, wrapped as wrapped_term, pattern as pattern_term};
ghost use Rattle.sci_cgen_blocks.specs.Recipes.{bit as bit_term};
ghost use Rattle.sci_cgen_blocks.specs.Recipes.{fit_steps, fitted_out as fitted_recipe, from_pattern as from_pattern_recipe};
ghost use Rattle.sci_cgen_blocks.specs.Plain.{term_of, steps_of, plain_recipe};

use crate::recipe_parts::{
    Cause, Recipe, Step, Term, both, natural, plain, set, set_if, worked, worked_out,
};
use crate::spec_words::power;
use c_ast::Op;
use sci_base::bits::span;
use sci_base::{Mode, NoMemory, Ty};
use std::alloc::Global;

/// The remainder that isn't negative.
pub(crate) fn modulo(alloc: Global, t: Term, n: u64) -> Result<Term, NoMemory>
    requires { n < 2 ^ 63 }
    ensures { IfOk result (λ r. term_of r ≡ modulo_term (term_of t) n) }
{
    let rest = both(alloc, Op::Rem, t, natural(n))?;
    let sum = both(alloc, Op::Add, rest, natural(n))?;
    both(alloc, Op::Rem, sum, natural(n))
}

/// The number of the type that differs by a multiple of its span.
pub(crate) fn wrapped(alloc: Global, ty: Ty, t: Term) -> Result<Term, NoMemory>
    ensures { IfOk result (λ r. term_of r ≡ wrapped_term ty (term_of t)) }
{
    let above = both(alloc, Op::Sub, t, Term::Constant(ty.low()))?;
    let rest = modulo(alloc, above, span(ty))?;
    both(alloc, Op::Add, Term::Constant(ty.low()), rest)
}

/// A number of the type as a pattern.
pub(crate) fn pattern(alloc: Global, ty: Ty, t: Term) -> Result<Term, NoMemory>
    ensures { IfOk result (λ r. term_of r ≡ pattern_term ty (term_of t)) }
{
    modulo(alloc, t, span(ty))
}

/// A pattern as a number of the type.
pub(crate) fn from_pattern(alloc: Global, ty: Ty, t: Term) -> Result<Recipe, NoMemory>
    ensures { IfOk result (λ r. plain_recipe r ≡ from_pattern_recipe ty (term_of t)) }
{
    Ok(plain(alloc, wrapped(alloc, ty, t)?))
}

/// A bit of a pattern.
pub(crate) fn bit(alloc: Global, pattern: Term, k: u32) -> Result<Term, NoMemory>
    requires { k ≤ 32 }
    ensures { IfOk result (λ r. term_of r ≡ bit_term (term_of pattern) k) }
{
    let moved = both(alloc, Op::Div, pattern, natural(power(k)))?;
    both(alloc, Op::Rem, moved, natural(2))
}

/// Whether the first scratch number is below a type.
fn is_below(alloc: Global, ty: Ty) -> Result<Term, NoMemory>
    ensures { IfOk result (λ t. term_of t ≡ both_of ops.Lt first_scratch (constant (low ty))) }
{
    both(alloc, Op::Lt, worked(), Term::Constant(ty.low()))
}

fn is_above(alloc: Global, ty: Ty) -> Result<Term, NoMemory>
    ensures { IfOk result (λ t. term_of t ≡ both_of ops.Gt first_scratch (constant (high ty))) }
{
    both(alloc, Op::Gt, worked(), Term::Constant(ty.high()))
}

/// The first scratch number becomes what fits, or the run stops.
fn fit(alloc: Global, ty: Ty, mode: Mode) -> Result<Vec<Step>, NoMemory>
    ensures { IfOk result (λ v. steps_of v.items ≡ fit_steps ty mode) }
{
    match mode {
        Mode::Wrap => Ok(vec![in alloc; set(wrapped(alloc, ty, worked())?)]?),
        Mode::Saturate => Ok(vec![in alloc;
            set_if(is_below(alloc, ty)?, Term::Constant(ty.low())),
            set_if(is_above(alloc, ty)?, Term::Constant(ty.high())),
        ]?),
        Mode::Stop => {
            let is_outside = both(alloc, Op::Or, is_below(alloc, ty)?, is_above(alloc, ty)?)?;
            Ok(vec![in alloc; Step::StopIf(is_outside, Cause::Overflow)]?)
        }
    }
}

/// The result of some steps, fitted.
#[tactic(auto, using(crate::proofs::Kept::steps_behind))]
pub(crate) fn fitted_out(
    alloc: Global,
    ty: Ty,
    mode: Mode,
    steps: Vec<Step>,
) -> Result<Recipe, NoMemory>
    ensures { IfOk result (λ r. plain_recipe r ≡ fitted_recipe ty mode (steps_of steps.items)) }
{
    let mut steps = steps;
    let mut fit = fit(alloc, ty, mode)?;
    steps.append(&mut fit)?;
    Ok(worked_out(steps))
}
