//! Inference of the types and sizes of a flat net's ports, from the sizes and types that its blocks declare.
#![tactic(auto)]

ghost use Rattle.std.specs.Prelude.{◌≡◌, length, IfOk, IfErr, Ok};
ghost use Rattle.sci_infer.specs.Values.{declared_at};
ghost use Rattle.sci_infer.specs.Typing.{IsTheTyping};
ghost use Rattle.sci_infer.specs.PortParts.{parts_in, AreTied};
ghost use Rattle.sci_infer.specs.Answer.{judged_typing, IsAnswer, IsStop};
ghost use Rattle.sci_base.specs.Stops.{Answers};
ghost use Rattle.sci_infer.specs.Laws.{OneAnswer};

mod broken;
pub mod classes;
mod parts;
mod refusals;
mod ties;
mod typed;
mod typing;
pub mod values;

use crate::values::Resolution;
use broken::net_broken;
use parts::lay_out;
use refusals::{blame, conflict, open};
use sci_base::Stop;
use sci_net::{Flat, Net};
use std::alloc::Global;
use typed::fill_specs;
use typing::verdict;

/// The typed net of the one typing, or the first rule that it breaks.
fn finish(alloc: Global, flat: Flat, values: &[i64]) -> Result<Net, Stop>
    requires long { length values.now ≡ length (parts_in flat) }
    requires typing { IsTheTyping (parts_in flat) (AreTied flat) (declared_at values.now) }
    ensures { Answers (λ n. n) (judged_typing flat values.now) result }
{
    flat.well_formed();
    let (mut specs, wiring) = flat.apart();
    fill_specs(alloc, values, &mut specs)?;
    match net_broken(&specs) {
        Some((block, broken)) => Err(blame(alloc, &wiring, block, broken)),
        None => Ok(Net::assemble(alloc, specs, wiring)?),
    }
}

/// The net with the one typing that fits what the blocks declare. A typing gives each regular port a type and a size; it fits
/// where each declared number is kept, equal negative numbers of one block stand for equal types or equal sizes, and the two
/// ends of each wire agree.
///
/// A refusal is of the first of these rules that the net breaks. 17 and 18: no typing fits; at the first port, and there the type
/// before the rows before the columns, that is tied to two declared numbers, with the least and the greatest of them. 19 and 20:
/// typings fit, and two differ; at the first port and part where they do. 21 and 22: the types or the sizes of a block are none
/// that its kind takes. 23: an output has more than 256 elements, or all together have more than 65,536.
pub fn infer(alloc: Global, flat: Flat) -> Result<Net, Stop>
    ensures ok { IfOk result (λ n. IsAnswer flat (Ok n)) }
    ensures stop { IfErr result (λ e. IsStop flat e) }
{
    let layout = lay_out(alloc, &flat)?;
    match verdict(alloc, &flat, &layout)? {
        Resolution::Conflict(at, span) => Err(conflict(alloc, &flat, layout.parts[at], span)),
        Resolution::Open(at) => Err(open(alloc, &flat, layout.parts[at])),
        Resolution::Values(values) => finish(alloc, flat, values.as_slice()),
    }
}

/// A flat net has one right answer.
pub fn one_answer()
    ensures { OneAnswer }
{}
