// The steps along links.
ghost use Rattle.std.specs.Prelude.{◌≡◌, ◌<◌, ◌^◌, ◌++◌, All, OnOk};
ghost use Rattle.sci_blocks.specs.Wiring.{link_type};
ghost use Rattle.sci_flat.specs.PortNumbers.{past};
ghost use Rattle.sci_flat.specs.Numbers.{joined, end_number, link_numbers};

use crate::steps::port_numbers::PortNumbers;
use sci_base::NoMemory;
use sci_blocks::{LinkType, PortClass};
use sci_diagram::{End, LinkObj};

/// Adds a step, where both ports are there.
pub(crate) fn add_step(
    steps: &mut Vec<(u32, u32)>,
    from: Option<u32>,
    to: Option<u32>,
) -> Result<(), NoMemory>
    ensures { OnOk result (steps.new.items ≡ steps.old.items ++ joined from to) }
{
    if let Some(from) = from {
        if let Some(to) = to {
            steps.push((from, to))?;
        }
    }
    Ok(())
}

/// The number of the port that an end names.
fn end_number(seats: &[PortNumbers], class: PortClass, end: &End) -> Option<u32>
    requires { All (λ s. past s < 2 ^ 32) seats.now }
    ensures { result ≡ end_number seats.now class end.now }
{
    match usize::try_from(end.block) {
        Ok(position) if 0 < position => match seats.get(position - 1) {
            Some(seat) => seat.port(class, end.port),
            None => None,
        },
        _ => None,
    }
}

/// Adds the step along a link between objects with these seats.
pub(crate) fn add_link(
    seats: &[PortNumbers],
    link: &LinkObj,
    steps: &mut Vec<(u32, u32)>,
) -> Result<(), NoMemory>
    requires { All (λ s. past s < 2 ^ 32) seats.now }
    ensures { OnOk result (steps.new.items
        ≡ steps.old.items ++ link_numbers seats.now link.now.from link.now.to (link_type link.now.kind)) }
{
    match LinkType::of(link.kind) {
        None => Ok(()),
        Some(t) => {
            let from = end_number(seats, t.source(), &link.from);
            let to = end_number(seats, t.target(), &link.to);
            add_step(steps, from, to)
        }
    }
}
