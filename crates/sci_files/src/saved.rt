// The file of what was saved of a run.
ghost use Rattle.std.specs.Prelude.{◌≤◌, length};
ghost use Rattle.sci_base.specs.declared.limits.TheConstants.{TEXT_BYTES};
ghost use Rattle.sci_files.specs.Judged.{IsJudged, AcceptsImage};
ghost use Rattle.sci_answers.specs.Resume.{BreaksSaved};

use crate::rules::{Rules, blame};
use sci_base::{Rule, Stop, limits};
use sci_net::Net;
use sci_save::{Image, SaveStop, read_save};
use sci_trace::inputs::Inputs;
use std::alloc::Global;

// What the bytes save of a run of the net on these columns.
fn image_of(alloc: Global, net: &Net, inputs: &Inputs, bytes: &[u8]) -> Result<Image, Stop>
    requires { length bytes.now ≤ TEXT_BYTES }
    ensures { IsJudged (AcceptsImage net.now inputs.now) (BreaksSaved net.now inputs.now) bytes.now result }
{
    match read_save(alloc, net, inputs, bytes) {
        Ok(image) => Ok(image),
        Err(SaveStop::NotSave(line)) => Err(blame(alloc, Rule::NotSave, line as usize)),
        Err(SaveStop::Memory) => Err(Stop::Memory),
    }
}

/// The rules of a file of what was saved, of a run of this net on these columns.
#[derive(Drop)]
pub struct SavedRules {
    pub net: Net,
    pub inputs: Inputs,
}

impl Rules for SavedRules {
    ghost use Rattle.std.proofs.Common.{rules};
    ghost use Rattle.sci_files.specs.Judged.{AcceptsImage};
    ghost use Rattle.sci_answers.specs.Resume.{BreaksSaved};

    type Made = Image;

    const LONGEST: usize = limits::TEXT_BYTES;

    ghost LONGEST = { TEXT_BYTES };

    ghost accepts = { λ s bytes image. AcceptsImage s.net s.inputs bytes image };

    ghost breaks = { λ s bytes v. BreaksSaved s.net s.inputs bytes v };

    fn judge(&self, alloc: Global, bytes: &[u8]) -> Result<Image, Stop> {
        image_of(alloc, &self.net, &self.inputs, bytes)
    }

    ghost within = { Prim.search rules };
}
