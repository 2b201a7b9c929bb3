// What is told of a diagram's file.
ghost use Rattle.std.specs.Prelude.{◌≤◌, length};
ghost use Rattle.sci_base.specs.declared.limits.TheConstants.{DIAGRAM_BYTES};
ghost use Rattle.sci_verdict.specs.Verdict.{Breaks};
ghost use Rattle.sci_files.specs.Judged.{IsJudged, AcceptsTold};

use sci_answers::told::Told;
use sci_base::Stop;
use sci_verdict::{Measured, check, measure};
use sci_words::command::Report;
use std::alloc::Global;

/// What is told of a diagram's bytes, or the first rule that they break. Schedules are built only where they are told.
pub fn report_on(alloc: Global, report: Report, bytes: &[u8]) -> Result<Told, Stop>
    requires { length bytes.now ≤ DIAGRAM_BYTES }
    ensures { IsJudged (AcceptsTold report) Breaks bytes.now result }
{
    match report {
        Report::Check => {
            let measured = measure(alloc, bytes)?;
            Ok(Told::Check(measured))
        }
        Report::Map => {
            let Measured { net, size: _ } = measure(alloc, bytes)?;
            Ok(Told::Map(net))
        }
        Report::Schedule => {
            let checked = check(alloc, bytes)?;
            Ok(Told::Schedule(checked))
        }
    }
}
