// What serves each object that takes a tag.
ghost use Rattle.std.specs.Prelude.{◌≡◌, ◌<◌, ◌^◌, ℕ, List, map, length, IfOk, IfErr, OnOk, Ok, option_to_list};
ghost use Rattle.sci_base.specs.Stops.{Stops};
ghost use Rattle.sci_diagram.specs.Objects.{diagram_view};
ghost use Rattle.sci_blocks.specs.Sizes.{AreListsShort};
ghost use Rattle.sci_goto.specs.Phase.{Standing, Giving, few_enough, all_served};
ghost use Rattle.sci_goto.specs.Serving.{standing_at, IsServed};
ghost use Rattle.sci_goto.specs.Placed.{standing_of};
ghost use Rattle.sci_goto.specs.Givers.{HoldsGivers, takings_as, takings, Serve};

use crate::givers::{Givers, by_tag};
use crate::placed::{PlacedTag, placed_tags};
use crate::serving::Serving;
use crate::tag::TagForm;
use sci_base::{Rule, Stop, limits};
use sci_diagram::Diagram;
use std::alloc::Global;

/// The rule on the number of tag objects.
fn few_enough(alloc: Global, n: usize) -> Result<(), Stop>
    requires { n < 2 ^ 63 }
    ensures ok { OnOk result (few_enough n ≡ Ok tt) }
    ensures stop { IfErr result (λ e. Stops (few_enough n) e) }
{
    if n > limits::TAGS as usize {
        return Err(Stop::by(alloc, Rule::TooManyTags, &[], &[n as i64]));
    }
    Ok(())
}

/// What serves the `n`-th of the tag objects, where it takes a tag.
fn serving_of(
    alloc: Global,
    givers: &Givers,
    n: usize,
    t: &PlacedTag,
) -> Result<Option<Serving>, Stop>
    ensures ok { (ss : List Standing) (gs : List Giving) → HoldsGivers givers.now ss gs → n < length ss → standing_at ss n ≡ standing_of t.now
        → IfOk result (λ o. Serve ss gs (takings_as (standing_of t.now) t.now.form) (option_to_list o)) }
    ensures stop { (ss : List Standing) (gs : List Giving) → HoldsGivers givers.now ss gs
        → IfErr result (λ e. Stops (all_served gs (takings_as (standing_of t.now) t.now.form)) e) }
{
    match t.form {
        TagForm::Takes(tag) => match givers.server(alloc, t, tag)? {
            Some(giver) => Ok(Some(Serving { giver, taker: n })),
            None => Err(by_tag(alloc, Rule::TagMissing, t, tag)),
        },
        TagForm::WrongPorts | TagForm::WrongParameters | TagForm::Gives(_, _) => Ok(None),
    }
}

/// What serves each of the tag objects that takes a tag.
fn servings(alloc: Global, givers: &Givers, tags: &[PlacedTag]) -> Result<Vec<Serving>, Stop>
    ensures ok { (gs : List Giving) → HoldsGivers givers.now (map standing_of tags.now) gs
        → IfOk result (λ v. Serve (map standing_of tags.now) gs (takings (map standing_of tags.now)) v.items) }
    ensures stop { (gs : List Giving) → HoldsGivers givers.now (map standing_of tags.now) gs
        → IfErr result (λ e. Stops (all_served gs (takings (map standing_of tags.now))) e) }
{
    let mut servings = Vec::new(alloc);
    for (n, t) in tags.iter().enumerate() {
        if let Some(serving) = serving_of(alloc, givers, n, t)? {
            servings.push(serving)?;
        }
    }
    Ok(servings)
}

/// What serves each object that takes a tag, in tree order; or the first rule on tags that the diagram breaks: more than 1,024
/// tag objects (rule 34); by object in tree order its counts of ports or its parameters (rule 31), or an earlier object that
/// gives the same tag in the same scope (rule 32); an object in tree order whose tag nothing gives it (rule 33).
pub fn serve(alloc: Global, d: &Diagram) -> Result<Vec<Serving>, Stop>
    requires short { AreListsShort (diagram_view d.now) }
    ensures { IsServed (diagram_view d.now) result }
{
    let placed = placed_tags(alloc, d)?;
    let tags = placed.as_slice();
    few_enough(alloc, tags.len())?;
    let givers = Givers::of(alloc, tags)?;
    servings(alloc, &givers, tags)
}
