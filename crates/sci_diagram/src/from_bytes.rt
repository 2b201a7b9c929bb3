ghost use Rattle.std.specs.Prelude.{◌≡◌, ◌≤◌, Ok, Some, IfOk, IfErr, length, ◌<◌, ◌^◌};
ghost use Rattle.sci_base.specs.declared.limits.TheConstants.{DIAGRAM_BYTES};
ghost use Rattle.sci_json.specs.View.{view};
ghost use Rattle.sci_diagram.specs.Objects.{diagram_view};
ghost use Rattle.sci_diagram.specs.Reading.{judge_value, IsRead};
ghost use Rattle.sci_diagram.specs.Count.{counted, objects_in};
ghost use Rattle.sci_diagram.specs.Weight.{weight};
ghost use Rattle.sci_base.specs.Stops.{Stops};
ghost use Rattle.sci_diagram.specs.Telling.{Tells};

use crate::counts::{count_blocks, count_links};
use crate::diagram::Diagram;
use crate::fields::too_many;
use crate::walk::read_diagram;
use json::Scratch;
use sci_base::{Refusal, Rule, Stop, limits};
use sci_json::document::{Document, ParseStop, Value};
use std::alloc::Global;

/// Reads a diagram from the bytes of its file. Refused are, in this order: bytes that are no JSON (rule 1); in the order of
/// the objects and of their fields, an absent field, a field of another form, and a superblock at level 17 (rules 2 to 4);
/// too many blocks, and too many links (rules 5 and 6).
pub fn read(alloc: Global, bytes: &[u8]) -> Result<Diagram, Stop>
    requires short { length bytes.now ≤ DIAGRAM_BYTES }
    ensures { IsRead bytes.now result }
{
    let mut scratch = Scratch::new(alloc);
    match Document::parse(alloc, bytes, &mut scratch) {
        Ok(document) => read_value(alloc, &document.root()),
        Err(ParseStop::Invalid) => Err(Stop::Refused(Refusal::of_the_whole(alloc, Rule::NotJson))),
        Err(ParseStop::Memory) => Err(Stop::Memory),
    }
}

#[tactic(auto, using(sci_base::proofs::Stopping::stops_then, crate::proofs::Told::tells_stops))]
fn read_value(alloc: Global, v: &Value<'_, '_>) -> Result<Diagram, Stop>
    requires light { weight (view v.now) < 2 ^ 32 }
    ensures ok { IfOk result (λ d. judge_value (Some (view v.now)) ≡ Ok (diagram_view d)) }
    ensures stop { IfErr result (λ e. Stops (judge_value (Some (view v.now))) e) }
{
    let d = read_diagram(alloc, v, &[], limits::LEVELS)?;
    within_counts(alloc, d)
}

#[tactic(auto, unfolding(crate::specs::Count::counted), using(crate::proofs::Told::tells_violation))]
fn within_counts(alloc: Global, d: Diagram) -> Result<Diagram, Stop>
    requires few { objects_in (diagram_view d) < 2 ^ 32 }
    ensures ok { IfOk result (λ r. counted (diagram_view d) ≡ Ok (diagram_view r)) }
    ensures stop { IfErr result (λ e. Tells (counted (diagram_view d)) e) }
{
    let blocks = count_blocks(&d);
    if blocks > u64::from(limits::BLOCKS) {
        return Err(too_many(alloc, Rule::TooManyBlocks, blocks));
    }
    let links = count_links(&d);
    if links > u64::from(limits::LINKS) {
        return Err(too_many(alloc, Rule::TooManyLinks, links));
    }
    Ok(d)
}
