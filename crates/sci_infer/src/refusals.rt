// Refusals of a flat net.
ghost use Rattle.std.specs.Prelude.{◌≡◌, ◌≤◌, length};
ghost use Rattle.sci_base.specs.Stops.{IsViolation};
ghost use Rattle.sci_infer.specs.Broken.{violation};
ghost use Rattle.sci_infer.specs.Answer.{side_number, conflict_of, open_of};

use crate::parts::{PortPart, Side, What};
use crate::values::Extremes;
use sci_base::{Rule, Stop};
use sci_forms::Broken;
use sci_net::{Flat, Wiring};
use std::alloc::Global;

fn side_number(side: Side) -> i64
    ensures { result ≡ side_number side }
{
    match side {
        Side::Input => 1,
        Side::Output => 2,
    }
}

/// The refusal of a part with two declared numbers: it shows side and port, of a size the part, and the numbers.
pub fn conflict(alloc: Global, flat: &Flat, part: PortPart, span: Extremes) -> Stop
    requires least { 1 ≤ part.block }
    requires most { part.block ≤ length flat.now.specs }
    ensures { IsViolation (conflict_of flat.now part span) result }
{
    let path = flat.path(part.block).path.as_slice();
    let side = side_number(part.side);
    let port = i64::from(part.port);
    let Extremes { least, greatest } = span;
    match part.what {
        What::DataType => Stop::by(
            alloc,
            Rule::TypeConflict,
            path,
            &[side, port, least, greatest],
        ),
        What::Rows => Stop::by(
            alloc,
            Rule::SizeConflict,
            path,
            &[side, port, 1, least, greatest],
        ),
        What::Columns => Stop::by(
            alloc,
            Rule::SizeConflict,
            path,
            &[side, port, 2, least, greatest],
        ),
    }
}

/// The refusal of a part that nothing decides: it shows side and port, and of a size the part.
pub fn open(alloc: Global, flat: &Flat, part: PortPart) -> Stop
    requires least { 1 ≤ part.block }
    requires most { part.block ≤ length flat.now.specs }
    ensures { IsViolation (open_of flat.now part) result }
{
    let path = flat.path(part.block).path.as_slice();
    let side = side_number(part.side);
    let port = i64::from(part.port);
    match part.what {
        What::DataType => Stop::by(alloc, Rule::TypeOpen, path, &[side, port]),
        What::Rows => Stop::by(alloc, Rule::SizeOpen, path, &[side, port, 1]),
        What::Columns => Stop::by(alloc, Rule::SizeOpen, path, &[side, port, 2]),
    }
}

/// The refusal of a block that breaks a rule on types or sizes; block 0 is the diagram as a whole.
pub fn blame(alloc: Global, wiring: &Wiring, block: u32, broken: Broken) -> Stop
    requires { block ≤ length wiring.now.paths }
    ensures { IsViolation (violation wiring.now block broken) result }
{
    if block == 0 {
        return broken.stop(alloc, &[]);
    }
    broken.stop(alloc, wiring.path(block).path.as_slice())
}
