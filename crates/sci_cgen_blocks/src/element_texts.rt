// The texts of all elements of a block's outputs.
ghost use Rattle.std.specs.Prelude.{◌≡◌, ◌<◌, ◌≤◌, IfOk};
ghost use Rattle.c_ast.specs.View.{statements_of};
ghost use Rattle.c_mean.specs.Texts.{upto};
ghost use Rattle.sci_cgen_blocks.specs.Terms.{all};
ghost use Rattle.sci_cgen_blocks.specs.Texts.{fixed, written, recipe_text, looped_text, way_text};
ghost use Rattle.sci_cgen_blocks.specs.Plain.{plain_recipe, plain_places, IsRecipeSpelled};

use crate::BlockLayout;
use crate::array_names::scratch;
use crate::recipe_parts::{Recipe, Which};
use crate::writing::{push_recipe, repeated};
use c_ast::Stmt;
use sci_base::NoMemory;
use std::alloc::Global;

/// What a recipe gives for each of `count` elements, in a loop whose counter is a scratch number.
fn looped(
    alloc: Global,
    at: &BlockLayout,
    count: u32,
    counter: u32,
    recipe: &Recipe,
) -> Result<Vec<Stmt>, NoMemory>
    requires { IsRecipeSpelled (plain_recipe recipe.now) }
    ensures { IfOk result (λ v. statements_of v.items ≡ looped_text (plain_places at.now) count counter (plain_recipe recipe.now)) }
{
    let mut body = Vec::new(alloc);
    push_recipe(alloc, &mut body, at, Which::CountedBy(counter), recipe)?;
    let text = vec![in alloc; repeated(scratch(counter), count, body)]?;
    Ok(text)
}

/// What a recipe gives for each of `count` elements, one after the other.
fn unrolled(
    alloc: Global,
    at: &BlockLayout,
    count: u32,
    recipe: &Recipe,
) -> Result<Vec<Stmt>, NoMemory>
    requires { 0 < count → IsRecipeSpelled (plain_recipe recipe.now) }
    ensures { IfOk result (λ v. statements_of v.items
        ≡ upto (λ e. recipe_text (written (plain_places at.now) (fixed e)) (plain_recipe recipe.now)) count) }
{
    let mut out = Vec::new(alloc);
    for e in 0..count {
        push_recipe(alloc, &mut out, at, Which::Fixed(e), recipe)?;
    }
    Ok(out)
}

/// What a recipe gives for each of `count` elements of the outputs: a loop, where there are three or more. The recipe takes `taken` scratch numbers.
pub(crate) fn all_elements(
    alloc: Global,
    at: &BlockLayout,
    count: u32,
    taken: u32,
    recipe: &Recipe,
) -> Result<Vec<Stmt>, NoMemory>
    requires spelled { 0 < count → IsRecipeSpelled (plain_recipe recipe.now) }
    requires few { taken ≤ 4 }
    ensures { IfOk result (λ v. statements_of v.items ≡ way_text (plain_places at.now) count (all taken (plain_recipe recipe.now))) }
{
    if 2 < count {
        looped(alloc, at, count, taken + 1, recipe)
    } else {
        unrolled(alloc, at, count, recipe)
    }
}
