// The steps of tags.
ghost use Rattle.std.specs.Prelude.{◌≡◌, ◌<◌, ◌++◌, All, OnOk, map, length};
ghost use Rattle.sci_flat.specs.Numbered.{serving_step};

use sci_base::NoMemory;
use sci_goto::Serving;

/// Adds the step of each tag, from the port of what gives it to the port of what takes it; `tags` are the numbers of the tag objects' ports.
pub(crate) fn join_tags(
    steps: &mut Vec<(u32, u32)>,
    tags: &[u32],
    servings: &[Serving],
) -> Result<(), NoMemory>
    requires givers { All (λ s. s.giver < length tags.now) servings.now }
    requires takers { All (λ s. s.taker < length tags.now) servings.now }
    ensures { OnOk result (steps.new.items ≡ steps.old.items ++ map (serving_step tags.now) servings.now) }
{
    for serving in servings {
        steps.push((tags[serving.giver], tags[serving.taker]))?;
    }
    Ok(())
}
