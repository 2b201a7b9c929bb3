// The texts of the kinds that choose an input: they decide once, and copy all elements.
ghost use Rattle.std.specs.Prelude.{◌≡◌, ◌<◌, ◌≤◌, ◌-◌, ◌^◌, true, IfOk};
ghost use Rattle.sci_forms.specs.Typed.{typed};
ghost use Rattle.sci_forms.specs.Ports.{total};
ghost use Rattle.sci_forms.specs.Words.{param as param_of};
ghost use Rattle.sci_forms.specs.declared.Kind.TheVariants as kinds;
ghost use Rattle.c_ast.specs.View.{statements_of};
ghost use Rattle.sci_cgen_blocks.specs.Terms.{input};
ghost use Rattle.sci_cgen_blocks.specs.Recipes.{switches as switches_term, copied as copied_way, first_activated, way_of};
ghost use Rattle.sci_cgen_blocks.specs.Texts.{way_text};
ghost use Rattle.sci_cgen_blocks.specs.Plain.{term_of, plain_places, AreFew};

use crate::BlockLayout;
use crate::element_texts::all_elements;
use crate::fit_terms::bit;
use crate::recipe_parts::{Term, Which, both, plain};
use crate::writing::{either, expression};
use c_ast::{Op, Stmt};
use sci_base::NoMemory;
use sci_forms::Spec;
use sci_forms::values::is_equal;
use std::alloc::Global;

/// The outputs become what the elements of an input are, of which there are `count`.
fn copied(alloc: Global, at: &BlockLayout, port: u32, count: u32) -> Result<Vec<Stmt>, NoMemory>
    ensures { IfOk result (λ v. statements_of v.items ≡ way_text (plain_places at.now) count (copied_way port)) }
{
    all_elements(alloc, at, count, 0, &plain(alloc, Term::Along(port)))
}

/// Whether the first of the switched inputs is taken.
fn switches(alloc: Global, s: &Spec) -> Result<Term, NoMemory>
    ensures { IfOk result (λ t. term_of t ≡ switches_term (param_of s.now 0) (param_of s.now 1) (input 1 0)) }
{
    let code = s.param(0);
    let op = if is_equal(code, 0) {
        Op::Ge
    } else if is_equal(code, 1) {
        Op::Gt
    } else {
        Op::Ne
    };
    both(alloc, op, Term::Input(1, 0), Term::Constant(s.param(1)))
}

/// The first or the third input, by the second.
pub(crate) fn switched(alloc: Global, s: &Spec, at: &BlockLayout) -> Result<Vec<Stmt>, NoMemory>
    requires is_typed { typed s.now ≡ true }
    requires few { AreFew s.now (plain_places at.now) }
    requires kind { s.now.kind ≡ kinds.Switch2 }
    ensures { IfOk result (λ v. statements_of v.items ≡ way_text (plain_places at.now) (total s.now.outs) (way_of kinds.Switch2 s.now)) }
{
    let is_first = switches(alloc, s)?;
    let test = expression(alloc, at, Which::Fixed(0), &is_first)?;
    let first = copied(alloc, at, 0, s.outs.total())?;
    let third = copied(alloc, at, 2, s.outs.total())?;
    Ok(vec![in alloc; either(test, first, third)]?)
}

/// Of the first `n` inputs the one of the first activation input that is activated, else input `n`.
fn first_of(alloc: Global, at: &BlockLayout, n: u32, count: u32) -> Result<Vec<Stmt>, NoMemory>
    requires { n ≤ 8 }
    ensures { IfOk result (λ v. statements_of v.items ≡ way_text (plain_places at.now) count (first_activated 0 n)) }
{
    let mut chosen = copied(alloc, at, n, count)?;
    for port in (0..n).rev() {
        let test = expression(alloc, at, Which::Fixed(0), &bit(alloc, Term::Mask, port)?)?;
        let first = copied(alloc, at, port, count)?;
        chosen = vec![in alloc; either(test, first, chosen)]?;
    }
    Ok(chosen)
}

/// The input of the first activation input that is activated.
#[tactic(auto, using(crate::proofs::KindBounds::some_selected, crate::proofs::KindBounds::few_selected))]
pub(crate) fn select(alloc: Global, s: &Spec, at: &BlockLayout) -> Result<Vec<Stmt>, NoMemory>
    requires is_typed { typed s.now ≡ true }
    requires few { AreFew s.now (plain_places at.now) }
    requires kind { s.now.kind ≡ kinds.Select }
    ensures { IfOk result (λ v. statements_of v.items ≡ way_text (plain_places at.now) (total s.now.outs) (way_of kinds.Select s.now)) }
{
    first_of(alloc, at, s.evtin - 1, s.outs.total())
}
