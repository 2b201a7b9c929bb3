// A diagram and its input file.
ghost use Rattle.std.specs.Prelude.{◌≡◌};
ghost use Rattle.sci_files.specs.RunFiles.{LooksAtRun};

use crate::look::{LookStop, look};
use crate::rules::{ColumnRules, PlanRules};
use sci_io::Folder;
use sci_needs::needs_of_net;
use sci_trace::inputs::Inputs;
use sci_verdict::Checked;
use std::alloc::Global;

/// A diagram that keeps all rules, and the columns of its input file.
#[derive(Drop)]
pub struct RunFiles {
    pub checked: Checked,
    pub inputs: Inputs,
}

/// What the rules make of the diagram's file and then, with what its net needs, of the input file. They are the first two files of their command.
pub fn look_at_run<F: Folder>(
    alloc: Global,
    folder: &mut F,
    file: &str,
    inputs_file: &str,
) -> Result<RunFiles, LookStop>
    ensures looked { LooksAtRun (F.state folder.old) (F.state folder.new) file.now inputs_file.now result }
    ensures kept { (F.state folder.new).files ≡ (F.state folder.old).files }
{
    let checked = look(alloc, folder, file, 1, &PlanRules)?;
    let needs = needs_of_net(alloc, &checked.net)?;
    let inputs = look(alloc, folder, inputs_file, 2, &ColumnRules { needs })?;
    Ok(RunFiles { checked, inputs })
}
