// The kinds that work on the bits of one input.
ghost use Rattle.std.specs.Prelude.{◌≡◌, ◌<◌, ◌≤◌, ◌++◌, ◌-◌, ◌+◌, ◌^◌, pos, length, unsigned_abs, IfOk, OnOk};
ghost use Rattle.std.specs.Int.{int_rem_euclid};
ghost use Rattle.sci_base.specs.Fit.{width};
ghost use Rattle.sci_forms.specs.Words.{param as param_of};
ghost use Rattle.sci_forms.specs.declared.Kind.TheVariants as kinds;
ghost use Rattle.sci_cgen_blocks.specs.Terms.{along};
ghost use Rattle.sci_cgen_blocks.specs.Recipes.{floor_quotient as floor_term, shifted as shifted_recipe, turned as turned_recipe};
ghost use Rattle.sci_cgen_blocks.specs.Recipes.{with_bit as with_bit_recipe, without_bit as without_bit_recipe, bits as bits_recipe, recipe_of};
ghost use Rattle.sci_cgen_blocks.specs.Plain.{term_of, steps_of, plain_recipe};

use crate::fit_terms::{bit, from_pattern, modulo, pattern, wrapped};
use crate::recipe_parts::{Recipe, Term, both, natural, plain, set, worked};
use crate::spec_words::power;
use c_ast::Op;
use sci_base::bits::span;
use sci_base::{NoMemory, Ty};
use sci_forms::Spec;
use sci_forms::values::is_equal;
use std::alloc::Global;

/// The input over `n`, rounded toward minus infinity.
fn floor_quotient(alloc: Global, n: u64) -> Result<Term, NoMemory>
    requires { n < 2 ^ 63 }
    ensures { IfOk result (λ t. term_of t ≡ floor_term (along 0) n) }
{
    let rest = modulo(alloc, Term::Along(0), n)?;
    let multiple = both(alloc, Op::Sub, Term::Along(0), rest)?;
    both(alloc, Op::Div, multiple, natural(n))
}

/// The input times a power of two.
fn shifted(alloc: Global, ty: Ty, places: i64) -> Result<Recipe, NoMemory>
    requires { unsigned_abs places < 32 }
    ensures { IfOk result (λ r. plain_recipe r ≡ shifted_recipe ty places (along 0)) }
{
    let power = power(places.unsigned_abs() as u32);
    if places < 0 {
        Ok(plain(alloc, floor_quotient(alloc, power)?))
    } else {
        let product = both(alloc, Op::Mul, Term::Along(0), natural(power))?;
        Ok(plain(alloc, wrapped(alloc, ty, product)?))
    }
}

/// The input's pattern turned left.
fn turned(alloc: Global, ty: Ty, places: u32) -> Result<Recipe, NoMemory>
    requires { places < 32 }
    ensures { IfOk result (λ r. plain_recipe r ≡ turned_recipe ty places (along 0)) }
{
    let bits = pattern(alloc, ty, Term::Along(0))?;
    let moved = both(alloc, Op::Mul, bits, natural(power(places)))?;
    let kept = both(alloc, Op::Rem, worked(), natural(span(ty)))?;
    let turned = both(alloc, Op::Div, worked(), natural(span(ty)))?;
    let sum = both(alloc, Op::Add, kept, turned)?;
    Ok(Recipe {
        steps: vec![in alloc; set(moved)]?,
        value: wrapped(alloc, ty, sum)?,
    })
}

/// How many places to the left so many are, within a type's width.
fn places_left(ty: Ty, places: i64) -> u32
    ensures value { result ≡ unsigned_abs (int_rem_euclid places (pos (width ty))) }
    ensures few { result < 32 }
{
    places.rem_euclid(i64::from(ty.width())).unsigned_abs() as u32
}

/// The input times a power of two, or its pattern turned.
pub(crate) fn shift(alloc: Global, s: &Spec) -> Result<Recipe, NoMemory>
    requires { unsigned_abs (param_of s.now 0) < 32 }
    ensures { IfOk result (λ r. plain_recipe r ≡ recipe_of kinds.Shift s.now) }
{
    let ty = s.out_type();
    let places = s.param(0);
    if is_equal(s.param(1), 0) {
        shifted(alloc, ty, places)
    } else {
        turned(alloc, ty, places_left(ty, places))
    }
}

/// The input with one bit made 1.
pub(crate) fn bit_set(alloc: Global, s: &Spec) -> Result<Recipe, NoMemory>
    requires { unsigned_abs (param_of s.now 0) < 32 }
    ensures { IfOk result (λ r. plain_recipe r ≡ recipe_of kinds.BitSet s.now) }
{
    let ty = s.out_type();
    let k = s.param(0).unsigned_abs() as u32;
    let set = bit(alloc, pattern(alloc, ty, Term::Along(0))?, k)?;
    let missing = both(alloc, Op::Sub, natural(1), set)?;
    let weighed = both(alloc, Op::Mul, missing, natural(power(k)))?;
    let bits = pattern(alloc, ty, Term::Along(0))?;
    from_pattern(alloc, ty, both(alloc, Op::Add, bits, weighed)?)
}

/// The input with one bit made 0.
pub(crate) fn bit_clear(alloc: Global, s: &Spec) -> Result<Recipe, NoMemory>
    requires { unsigned_abs (param_of s.now 0) < 32 }
    ensures { IfOk result (λ r. plain_recipe r ≡ recipe_of kinds.BitClear s.now) }
{
    let ty = s.out_type();
    let k = s.param(0).unsigned_abs() as u32;
    let set = bit(alloc, pattern(alloc, ty, Term::Along(0))?, k)?;
    let weighed = both(alloc, Op::Mul, set, natural(power(k)))?;
    let bits = pattern(alloc, ty, Term::Along(0))?;
    from_pattern(alloc, ty, both(alloc, Op::Sub, bits, weighed)?)
}

/// A range of the input's bits as a number.
pub(crate) fn extract_bits(alloc: Global, s: &Spec) -> Result<Recipe, NoMemory>
    requires order { unsigned_abs (param_of s.now 0) ≤ unsigned_abs (param_of s.now 1) }
    requires few { unsigned_abs (param_of s.now 1) < 32 }
    ensures { IfOk result (λ r. plain_recipe r ≡ recipe_of kinds.ExtractBits s.now) }
{
    let ty = s.out_type();
    let first = s.param(0).unsigned_abs() as u32;
    let last = s.param(1).unsigned_abs() as u32;
    let bits = pattern(alloc, ty, Term::Along(0))?;
    let moved = both(alloc, Op::Div, bits, natural(power(first)))?;
    let count = last - first + 1;
    from_pattern(
        alloc,
        ty,
        both(alloc, Op::Rem, moved, natural(power(count)))?,
    )
}
