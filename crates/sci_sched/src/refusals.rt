// Refusals of a net.
ghost use Rattle.std.specs.Prelude.{◌≡◌, ◌<◌, ◌≤◌, ◌^◌, ◌++◌, length, slice_index, IfOk, OnOk};
ghost use Rattle.sci_sched.specs.Answer.{source_numbers, numbers_of, loop_violation, length_violation};
ghost use Rattle.sci_base.specs.Stops.{IsViolation};

use sci_base::{NoMemory, Rule, Stop};
use sci_net::{Net, Source};
use std::alloc::Global;

// The block and the port of a source; zeros for start.
fn source_numbers(alloc: Global, source: Source) -> Result<Vec<i64>, NoMemory>
    ensures { IfOk result (λ v. v.items ≡ source_numbers source) }
{
    let mut numbers = Vec::new(alloc);
    match source {
        Source::Start => {
            numbers.push(0)?;
            numbers.push(0)?;
        }
        Source::Port(port) => {
            numbers.push(i64::from(port.block))?;
            numbers.push(i64::from(port.port))?;
        }
    }
    Ok(numbers)
}

fn push_numbers(detail: &mut Vec<i64>, numbers: &[u32]) -> Result<(), NoMemory>
    ensures { OnOk result (detail.new.items ≡ detail.old.items ++ numbers_of numbers.now) }
{
    for number in numbers {
        detail.push(i64::from(*number))?;
    }
    Ok(())
}

// What the refusal of a loop tells: the source, and the loop.
fn loop_detail(alloc: Global, source: Source, found: &[u32]) -> Result<Vec<i64>, NoMemory>
    ensures { IfOk result (λ v. v.items ≡ source_numbers source ++ numbers_of found.now) }
{
    let mut detail = source_numbers(alloc, source)?;
    push_numbers(&mut detail, found)?;
    Ok(detail)
}

/// The refusal of a loop of a source.
pub fn loop_stop(alloc: Global, net: &Net, source: Source, found: &[u32]) -> Stop
    requires some { 0 < length found.now }
    requires least { 1 ≤ slice_index found.now 0 }
    requires most { slice_index found.now 0 ≤ length net.now.specs }
    ensures { IsViolation (loop_violation net.now source found.now) result }
{
    match loop_detail(alloc, source, found) {
        Ok(detail) => {
            let place = net.path(found[0]).path.as_slice();
            Stop::by(alloc, Rule::AlgebraicLoop, place, &detail)
        }
        Err(NoMemory) => Stop::Memory,
    }
}

/// The refusal of schedules that have so many entries and guards.
pub fn length_stop(alloc: Global, count: u64) -> Stop
    requires { count < 2 ^ 63 }
    ensures { IsViolation (length_violation count) result }
{
    Stop::by(alloc, Rule::ScheduleTooLong, &[], &[count as i64])
}
