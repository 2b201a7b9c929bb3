// The texts of a block.
ghost use Rattle.std.specs.Prelude.{◌≡◌, ◌≢◌, ◌<◌, ◌≤◌, ◌+◌, ◌-◌, ◌^◌, ℕ, true, pos, length, IfOk, OnOk};
ghost use Rattle.sci_forms.specs.Typed.{typed};
ghost use Rattle.sci_forms.specs.Ports.{total};
ghost use Rattle.sci_forms.specs.Words.{state_len_of};
ghost use Rattle.sci_forms.specs.Form.{is_sync, has_delay};
ghost use Rattle.c_ast.specs.View.{exp_of, statement_of, statements_of};
ghost use Rattle.c_ast.specs.Syntax.{num, set as assign, cell, next};
ghost use Rattle.c_mean.specs.Texts.{joined, upto};
ghost use Rattle.sci_forms.specs.declared.Kind.TheVariants as kinds;
ghost use Rattle.sci_cgen_blocks.specs.Terms.{each, all};
ghost use Rattle.sci_cgen_blocks.specs.Recipes.{plain as plain_of, worked_of, recipe_of, part_of, way_of, next_term as next_by_kind};
ghost use Rattle.sci_cgen_blocks.specs.Recipes.{next_alike as alike_by_kind};
ghost use Rattle.sci_cgen_blocks.specs.Texts.{fixed, written, states as states_name, expression as expression_text, way_text, sensor_text, body_text, next_text};
ghost use Rattle.sci_cgen_blocks.specs.Texts.{next_value_text, next_loop as loop_of_next, delay_expression, branch_expression};
ghost use Rattle.sci_cgen_blocks.specs.Plain.{plain_places, AreFew};

use crate::BlockLayout;
use crate::array_names::{scratch, states, values};
use crate::choice_texts::{select, switched};
use crate::element_texts::all_elements;
use crate::kind_recipes::{branch_term, delay_term, is_alike, part, recipe, recipe_scratch};
use crate::kind_terms::{next_alike, next_along, next_term, state_len};
use crate::recipe_parts::Which;
use crate::table_texts::table;
use crate::writing::{assigned, counted_place, either, expression, repeated};
use c_ast::{Ask, Expr, Stmt, Target, Tell};
use sci_base::NoMemory;
use sci_forms::{Kind, Spec};
use std::alloc::Global;

/// The next value of a column, or the stop where it has none.
fn sensor(alloc: Global, at: &BlockLayout, column: i64) -> Result<Vec<Stmt>, NoMemory>
    ensures { IfOk result (λ v. statements_of v.items ≡ sensor_text (plain_places at.now) column) }
{
    let more = Stmt::Ask(Target::Var(scratch(1)), Ask::More(Expr::Num(column)));
    let take = Stmt::Ask(
        Target::At(values(), Expr::Num(at.outs as i64)),
        Ask::Input(Expr::Num(column)),
    );
    let stop = Stmt::Tell(Tell::Stop(Expr::Num(2), Expr::Num(at.number as i64), Expr::Num(0)));
    let choice = either(
        Expr::Var(scratch(1)),
        vec![in alloc; take]?,
        vec![in alloc; stop]?,
    );
    Ok(vec![in alloc; more, choice]?)
}

/// The values of a block whose elements all have one recipe.
fn alike(alloc: Global, s: &Spec, at: &BlockLayout) -> Result<Vec<Stmt>, NoMemory>
    requires is_typed { typed s.now ≡ true }
    requires few { AreFew s.now (plain_places at.now) }
    requires own { s.now.kind ≢ kinds.Sensor }
    requires single { way_of s.now.kind s.now ≡ all (worked_of s.now.kind s.now) (recipe_of s.now.kind s.now) }
    ensures { IfOk result (λ v. statements_of v.items
        ≡ way_text (plain_places at.now) (total s.now.outs) (all (worked_of s.now.kind s.now) (recipe_of s.now.kind s.now))) }
{
    let recipe = recipe(alloc, s)?;
    all_elements(alloc, at, s.outs.total(), recipe_scratch(s), &recipe)
}

/// The values of a block whose elements each have a term of their own.
fn parts(alloc: Global, s: &Spec, at: &BlockLayout) -> Result<Vec<Stmt>, NoMemory>
    requires is_typed { typed s.now ≡ true }
    requires few { AreFew s.now (plain_places at.now) }
    requires own { s.now.kind ≢ kinds.Sensor }
    requires separate { way_of s.now.kind s.now ≡ each (λ e. plain_of (part_of s.now.kind s.now e)) }
    ensures { IfOk result (λ v. statements_of v.items
        ≡ way_text (plain_places at.now) (total s.now.outs) (each (λ e. plain_of (part_of s.now.kind s.now e)))) }
{
    let mut out = Vec::new(alloc);
    for e in 0..s.outs.total() {
        out.push(assigned(alloc, at, Which::Fixed(e), &part(s, e))?)?;
    }
    Ok(out)
}

/// The statements that work out a block's values from its inputs, its state and its mask, and leave them at the places of its outputs; a
/// block that has no value stops the run.
#[tactic(auto, using(crate::proofs::KindSpelled::way_of_alike, crate::proofs::KindSpelled::values_of_alike, crate::proofs::KindSpelled::values_of_parts))]
pub fn block_body(alloc: Global, s: &Spec, at: &BlockLayout) -> Result<Vec<Stmt>, NoMemory>
    requires is_typed { typed s.now ≡ true }
    requires few { AreFew s.now (plain_places at.now) }
    ensures { IfOk result (λ v. statements_of v.items ≡ body_text s.now (plain_places at.now)) }
{
    if let Kind::Sensor = s.kind {
        sensor(alloc, at, s.param(0))
    } else if let Kind::Switch2 = s.kind {
        switched(alloc, s, at)
    } else if let Kind::Select = s.kind {
        select(alloc, s, at)
    } else if let Kind::Logic = s.kind {
        table(alloc, s, at)
    } else if is_alike(s) {
        alike(alloc, s, at)
    } else {
        parts(alloc, s, at)
    }
}

/// Value `i` of the state becomes that of the next state.
fn next_value(alloc: Global, s: &Spec, at: &BlockLayout, i: u32) -> Result<Stmt, NoMemory>
    requires is_typed { typed s.now ≡ true }
    requires value { i < state_len_of s.now.kind s.now }
    requires small { i < 2 ^ 31 }
    ensures { IfOk result (λ x. statement_of x ≡ assign (cell states_name (num (pos (at.now.state + i))))
        (expression_text (written (plain_places at.now) (fixed 0)) (next_by_kind s.now.kind s.now i))) }
{
    let value = expression(alloc, at, Which::Fixed(0), &next_term(alloc, s, i)?)?;
    let place = Target::At(states(), Expr::Num(at.state as i64 + i as i64));
    Ok(Stmt::Set(place, value))
}

/// The values of the state from `first` on become those of the next state.
fn push_next(
    alloc: Global,
    out: &mut Vec<Stmt>,
    s: &Spec,
    at: &BlockLayout,
    first: u32,
) -> Result<(), NoMemory>
    requires is_typed { typed s.now ≡ true }
    requires few { AreFew s.now (plain_places at.now) }
    requires within { first ≤ state_len_of s.now.kind s.now }
    ensures { OnOk result (statements_of out.new.items ≡ joined (statements_of out.old.items)
        (upto (λ i. next_value_text s.now (plain_places at.now) (first + i)) (state_len_of s.now.kind s.now - first))) }
{
    for i in 0..state_len(s) - first {
        out.push(next_value(alloc, s, at, first + i)?)?;
    }
    Ok(())
}

/// The first `count` values of the state become those of the next state, in a loop.
fn next_loop(alloc: Global, s: &Spec, at: &BlockLayout, count: u32) -> Result<Stmt, NoMemory>
    requires is_typed { typed s.now ≡ true }
    requires some { 0 < alike_by_kind s.now.kind s.now }
    ensures { IfOk result (λ x. statement_of x ≡ loop_of_next s.now (plain_places at.now) count) }
{
    let value = expression(alloc, at, Which::CountedBy(1), &next_along(s))?;
    let place = Target::At(states(), counted_place(alloc, 1, at.state as u64)?);
    let body = vec![in alloc; Stmt::Set(place, value)]?;
    Ok(repeated(scratch(1), count, body))
}

/// The next state where the first `count` values are worked out in a loop.
fn looped_next(alloc: Global, s: &Spec, at: &BlockLayout, count: u32) -> Result<Vec<Stmt>, NoMemory>
    requires is_typed { typed s.now ≡ true }
    requires few { AreFew s.now (plain_places at.now) }
    requires alike { count ≡ alike_by_kind s.now.kind s.now }
    requires some { 0 < count }
    ensures { IfOk result (λ v. statements_of v.items ≡ next (loop_of_next s.now (plain_places at.now) count)
        (upto (λ i. next_value_text s.now (plain_places at.now) (count + i)) (state_len_of s.now.kind s.now - count))) }
{
    let mut out = vec![in alloc; next_loop(alloc, s, at, count)?]?;
    push_next(alloc, &mut out, s, at, count)?;
    Ok(out)
}

/// The next state, value by value.
fn unrolled_next(alloc: Global, s: &Spec, at: &BlockLayout) -> Result<Vec<Stmt>, NoMemory>
    requires is_typed { typed s.now ≡ true }
    requires few { AreFew s.now (plain_places at.now) }
    ensures { IfOk result (λ v. statements_of v.items ≡ upto (next_value_text s.now (plain_places at.now)) (state_len_of s.now.kind s.now)) }
{
    let mut out = Vec::new(alloc);
    for i in 0..state_len(s) {
        out.push(next_value(alloc, s, at, i)?)?;
    }
    Ok(out)
}

/// The statements that leave a block's next state at its place.
pub fn block_next(alloc: Global, s: &Spec, at: &BlockLayout) -> Result<Vec<Stmt>, NoMemory>
    requires is_typed { typed s.now ≡ true }
    requires few { AreFew s.now (plain_places at.now) }
    ensures { IfOk result (λ v. statements_of v.items ≡ next_text s.now (plain_places at.now)) }
{
    let alike = next_alike(s);
    if 2 < alike {
        looped_next(alloc, s, at, alike)
    } else {
        unrolled_next(alloc, s, at)
    }
}

/// The delay of a block's activation output as an expression. All activation outputs of a block have one delay.
pub fn block_delay(alloc: Global, s: &Spec, at: &BlockLayout) -> Result<Expr, NoMemory>
    requires is_typed { typed s.now ≡ true }
    requires delays { has_delay s.now.kind ≡ true }
    ensures { IfOk result (λ e. exp_of e ≡ delay_expression s.now (plain_places at.now)) }
{
    expression(alloc, at, Which::Fixed(0), &delay_term(alloc, s)?)
}

/// The branch that a synchronous block takes as an expression.
pub fn block_branch(alloc: Global, s: &Spec, at: &BlockLayout) -> Result<Expr, NoMemory>
    requires is_typed { typed s.now ≡ true }
    requires sync { is_sync s.now.kind ≡ true }
    ensures { IfOk result (λ e. exp_of e ≡ branch_expression s.now (plain_places at.now)) }
{
    expression(alloc, at, Which::Fixed(0), &branch_term(alloc, s)?)
}
