// The steps through pass-through objects.
ghost use Rattle.std.specs.Prelude.{◌≡◌, ◌+◌, ◌<◌, ◌≤◌, ◌^◌, ◌++◌, pos, Some, OnOk};
ghost use Rattle.sci_flat.specs.PortNumbers.{past, port_number};
ghost use Rattle.sci_flat.specs.Numbers.{fan_out, fan_in, port_numbers, block_numbers, through_numbers};

use crate::steps::link::add_step;
use crate::steps::port_numbers::PortNumbers;
use sci_base::NoMemory;
use sci_blocks::{PassThrough, PortClass};

/// Adds the steps from a port to each of some that have numbers one after another.
fn fan_out(
    steps: &mut Vec<(u32, u32)>,
    from: Option<u32>,
    first: u32,
    count: u32,
) -> Result<(), NoMemory>
    requires { first + count < 2 ^ 32 }
    ensures { OnOk result (steps.new.items ≡ steps.old.items ++ fan_out from first count) }
{
    let Some(source) = from else {
        return Ok(());
    };
    for k in 0..count {
        steps.push((source, first + k))?;
    }
    Ok(())
}

/// Adds the steps to a port from each of some that have numbers one after another.
fn fan_in(
    steps: &mut Vec<(u32, u32)>,
    first: u32,
    count: u32,
    to: Option<u32>,
) -> Result<(), NoMemory>
    requires { first + count < 2 ^ 32 }
    ensures { OnOk result (steps.new.items ≡ steps.old.items ++ fan_in first count to) }
{
    let Some(target) = to else {
        return Ok(());
    };
    for k in 0..count {
        steps.push((first + k, target))?;
    }
    Ok(())
}

/// Adds the step between a superblock's port and the port block that stands for it.
fn add_port_block(
    outer: PortNumbers,
    seat: PortNumbers,
    class: PortClass,
    number: i64,
    steps: &mut Vec<(u32, u32)>,
) -> Result<(), NoMemory>
    requires outer { past outer < 2 ^ 32 }
    requires seat { past seat < 2 ^ 32 }
    ensures { OnOk result (steps.new.items ≡ steps.old.items ++ port_numbers outer seat class number) }
{
    match class {
        PortClass::Input => add_step(
            steps,
            outer.port(PortClass::Input, number),
            seat.port(PortClass::Output, 1),
        ),
        PortClass::Output => add_step(
            steps,
            seat.port(PortClass::Input, 1),
            outer.port(PortClass::Output, number),
        ),
        PortClass::ActivationInput => add_step(
            steps,
            outer.port(PortClass::ActivationInput, number),
            seat.port(PortClass::ActivationOutput, 1),
        ),
        PortClass::ActivationOutput => add_step(
            steps,
            seat.port(PortClass::ActivationInput, 1),
            outer.port(PortClass::ActivationOutput, number),
        ),
    }
}

fn add_numbered(
    outer: PortNumbers,
    seat: PortNumbers,
    class: PortClass,
    ipar: &[i64],
    steps: &mut Vec<(u32, u32)>,
) -> Result<(), NoMemory>
    requires outer { past outer < 2 ^ 32 }
    requires seat { past seat < 2 ^ 32 }
    ensures { OnOk result (steps.new.items ≡ steps.old.items ++ block_numbers outer seat class ipar.now) }
{
    match ipar {
        [number] => add_port_block(outer, seat, class, *number, steps),
        _ => Ok(()),
    }
}

/// Adds the steps through a pass-through object, of which a tag object has none; `outer` is the seat of the superblock around it.
pub(crate) fn add_through(
    outer: PortNumbers,
    seat: PortNumbers,
    ipar: &[i64],
    p: PassThrough,
    steps: &mut Vec<(u32, u32)>,
) -> Result<(), NoMemory>
    requires outer { past outer < 2 ^ 32 }
    requires seat { past seat < 2 ^ 32 }
    ensures { OnOk result (steps.new.items ≡ steps.old.items ++ through_numbers outer seat ipar.now (Some p)) }
{
    match p {
        PassThrough::Split => fan_out(
            steps,
            seat.port(PortClass::Input, 1),
            seat.start(PortClass::Output),
            seat.count(PortClass::Output),
        ),
        PassThrough::ActivationSplit => fan_out(
            steps,
            seat.port(PortClass::ActivationInput, 1),
            seat.start(PortClass::ActivationOutput),
            seat.count(PortClass::ActivationOutput),
        ),
        PassThrough::Union => fan_in(
            steps,
            seat.start(PortClass::ActivationInput),
            seat.count(PortClass::ActivationInput),
            seat.port(PortClass::ActivationOutput, 1),
        ),
        PassThrough::PortBlock(class) => add_numbered(outer, seat, class, ipar, steps),
        PassThrough::Giver(_) | PassThrough::Taker(_) => Ok(()),
    }
}
