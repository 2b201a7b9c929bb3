// The run that goes on from what was saved.
ghost use Rattle.sci_bank.specs.Library.{IsFull};
ghost use Rattle.sci_deliver.specs.Deliver.{PrintsRest};
ghost use Rattle.sci_answers.specs.Prepared.{IsReadyToGoOn};

use sci_answers::prepared::{ResumedRun, Simulation};
use sci_bank::Bank;
use sci_bank::library::Library;
use sci_io::{Failed, Sink};
use sci_sim::RunEnd;

/// Runs on to the end and gives the last byte on.
pub fn print_rest<O: Sink, B: Bank>(
    resumed: ResumedRun,
    lib: &mut Library<B>,
    out: &mut O,
) -> Result<RunEnd, Failed>
    requires { IsReadyToGoOn lib.old resumed }
    ensures printed { PrintsRest resumed (O.state out.old) (O.state out.new) result }
    ensures full { IsFull lib.new }
{
    let ResumedRun { image: _image, run } = resumed;
    let Simulation {
        mut ready,
        inputs,
        until,
        limit,
    } = run;
    let end = ready.run_on(lib, &inputs, until, limit, out)?;
    out.flush()?;
    Ok(end)
}
