// A run of which the dump is written.
ghost use Rattle.std.specs.Prelude.{IfOk};
ghost use Rattle.sci_bank.specs.Library.{IsFull};
ghost use Rattle.sci_answers.specs.Counts.{CountsRun};
ghost use Rattle.sci_deliver.specs.Deliver.{PrintsDump};
ghost use Rattle.sci_answers.specs.Prepared.{IsReadyToDump};

use sci_answers::prepared::Simulation;
use sci_bank::Bank;
use sci_bank::library::Library;
use sci_io::{Failed, Sink};
use sci_sim::RunEnd;
use sci_vcd::VcdOut;
use sci_wave::dump_run;

/// Runs to the end and gives the last byte on: the dump of the run is written in place of its trace.
pub fn print_dump<O: Sink, B: Bank>(
    simulation: Simulation,
    mut dump: VcdOut,
    lib: &mut Library<B>,
    out: &mut O,
) -> Result<RunEnd, Failed>
    requires { IsReadyToDump lib.old simulation dump }
    ensures printed { PrintsDump simulation (O.state out.old) (O.state out.new) result }
    ensures counts_run { IfOk result (λ e. CountsRun simulation.ready.fixed.net simulation.inputs simulation.until simulation.limit lib.new) }
    ensures full { IsFull lib.new }
{
    let Simulation {
        mut ready,
        inputs,
        until,
        limit,
    } = simulation;
    let end = dump_run(&mut ready, &mut dump, lib, &inputs, until, limit, out)?;
    out.flush()?;
    Ok(end)
}
