// Products and quotients.
ghost use Rattle.std.specs.Prelude.{◌≡◌, ◌<◌, ◌≤◌, ◌++◌, ◌^◌, IfOk, OnOk};
ghost use Rattle.c_ast.specs.declared.Op.TheVariants as ops;
ghost use Rattle.sci_cgen_blocks.specs.Terms.{both as both_of};
ghost use Rattle.sci_cgen_blocks.specs.Recipes.{natural as natural_of, halves_product as halves_term, product_is_large as is_large_term};
ghost use Rattle.sci_cgen_blocks.specs.Recipes.{product_fits as fits_term, large_product as large_steps, product as product_recipe};
ghost use Rattle.sci_cgen_blocks.specs.Recipes.{quotient as quotient_recipe};
ghost use Rattle.sci_cgen_blocks.specs.Plain.{term_of, steps_of, plain_recipe};

use crate::fit_terms::fitted_out;
use crate::recipe_parts::{Cause, Recipe, Step, Term, both, natural, set, set_if, worked_out};
use c_ast::Op;
use sci_base::{Mode, NoMemory, Ty};
use std::alloc::Global;

/// The product of two terms.
fn times(alloc: Global, a: &Term, b: &Term) -> Result<Term, NoMemory>
    ensures { IfOk result (λ t. term_of t ≡ both_of ops.Mul (term_of a.now) (term_of b.now)) }
{
    both(alloc, Op::Mul, a.copy(alloc)?, b.copy(alloc)?)
}

/// The product of two numbers of uint32 modulo 2^32, by the halves of the second.
fn halves_product(alloc: Global, a: &Term, b: &Term) -> Result<Term, NoMemory>
    ensures { IfOk result (λ t. term_of t ≡ halves_term (term_of a.now) (term_of b.now)) }
{
    let half = both(alloc, Op::Rem, b.copy(alloc)?, natural(65536))?;
    let below = both(alloc, Op::Mul, a.copy(alloc)?, half)?;
    let half = both(alloc, Op::Div, b.copy(alloc)?, natural(65536))?;
    let above = both(alloc, Op::Mul, a.copy(alloc)?, half)?;
    let above = both(alloc, Op::Rem, above, natural(65536))?;
    let above = both(alloc, Op::Mul, above, natural(65536))?;
    let sum = both(alloc, Op::Add, below, above)?;
    both(alloc, Op::Rem, sum, natural(4294967296))
}

/// The greatest first factor with which the product still fits uint32.
fn greatest_factor(alloc: Global, b: &Term) -> Result<Term, NoMemory>
    ensures { IfOk result (λ t. term_of t ≡ both_of ops.Div (natural_of 4294967295) (term_of b.now)) }
{
    both(alloc, Op::Div, natural(4294967295), b.copy(alloc)?)
}

/// Whether the product of two numbers of uint32 is past the type's end.
fn product_is_large(alloc: Global, a: &Term, b: &Term) -> Result<Term, NoMemory>
    ensures { IfOk result (λ t. term_of t ≡ is_large_term (term_of a.now) (term_of b.now)) }
{
    let some = both(alloc, Op::Ne, b.copy(alloc)?, natural(0))?;
    let more = both(alloc, Op::Gt, a.copy(alloc)?, greatest_factor(alloc, b)?)?;
    both(alloc, Op::And, some, more)
}

/// Whether it isn't.
fn product_fits(alloc: Global, a: &Term, b: &Term) -> Result<Term, NoMemory>
    ensures { IfOk result (λ t. term_of t ≡ fits_term (term_of a.now) (term_of b.now)) }
{
    let none = both(alloc, Op::Eq, b.copy(alloc)?, natural(0))?;
    let few = both(alloc, Op::Le, a.copy(alloc)?, greatest_factor(alloc, b)?)?;
    both(alloc, Op::Or, none, few)
}

/// The fitted product of two numbers of uint32.
fn large_product(alloc: Global, mode: Mode, a: &Term, b: &Term) -> Result<Vec<Step>, NoMemory>
    ensures { IfOk result (λ v. steps_of v.items ≡ large_steps mode (term_of a.now) (term_of b.now)) }
{
    match mode {
        Mode::Wrap => Ok(vec![in alloc; set(halves_product(alloc, a, b)?)]?),
        Mode::Saturate => Ok(vec![in alloc;
            set(natural(4294967295)),
            set_if(product_fits(alloc, a, b)?, times(alloc, a, b)?),
        ]?),
        Mode::Stop => Ok(vec![in alloc;
            Step::StopIf(product_is_large(alloc, a, b)?, Cause::Overflow),
            set(times(alloc, a, b)?),
        ]?),
    }
}

/// The fitted product.
pub(crate) fn product(
    alloc: Global,
    ty: Ty,
    mode: Mode,
    a: &Term,
    b: &Term,
) -> Result<Recipe, NoMemory>
    ensures { IfOk result (λ r. plain_recipe r ≡ product_recipe ty mode (term_of a.now) (term_of b.now)) }
{
    match ty {
        Ty::U32 => Ok(worked_out(large_product(alloc, mode, a, b)?)),
        Ty::I32 | Ty::I16 | Ty::I8 | Ty::U16 | Ty::U8 => {
            let steps = vec![in alloc; set(times(alloc, a, b)?)]?;
            fitted_out(alloc, ty, mode, steps)
        }
    }
}

/// The fitted quotient, rounded toward 0.
pub(crate) fn quotient(
    alloc: Global,
    ty: Ty,
    mode: Mode,
    a: &Term,
    b: &Term,
) -> Result<Recipe, NoMemory>
    ensures { IfOk result (λ r. plain_recipe r ≡ quotient_recipe ty mode (term_of a.now) (term_of b.now)) }
{
    let is_zero = both(alloc, Op::Eq, b.copy(alloc)?, natural(0))?;
    let ratio = both(alloc, Op::Div, a.copy(alloc)?, b.copy(alloc)?)?;
    let steps = vec![in alloc; Step::StopIf(is_zero, Cause::Zero), set(ratio)]?;
    fitted_out(alloc, ty, mode, steps)
}
