// The rules on one link.
ghost use Rattle.std.specs.Prelude.{◌≡◌, ◌<◌, ◌<ℤ◌, ◌+◌, ◌^◌, MatchOption, ◌++◌, ◌∷◌, [], List, pos, IfOk, IfErr, OnOk, Ok, Some};
ghost use Rattle.sci_diagram.specs.declared.diagram.End.{End as LinkEnd};
ghost use Rattle.sci_diagram.specs.Objects.{object_view, diagram_view};
ghost use Rattle.sci_blocks.specs.Wiring.{object_ports, ports_of, at_position, is_port_of, link_type, typed_as, end_judged, end_broken, once_fed};
ghost use Rattle.sci_blocks.specs.Wiring.{ends_judged, link_judged, regular_end};
ghost use Rattle.sci_blocks.specs.Ending.{HoldsEnds};
ghost use Rattle.sci_base.specs.Stops.{Stops};
ghost use Rattle.sci_diagram.specs.Telling.{Tells};

use crate::class::{LinkType, PortClass};
use crate::fed::FedInputs;
use sci_base::{Rule, Stop};
use sci_diagram::{Diagram, End, LinkObj, Obj};
use sci_forms::values::is_equal;
use std::alloc::Global;

fn object_ports(class: PortClass, obj: &Obj) -> usize
    ensures value { result ≡ object_ports class (object_view obj.now) }
    ensures few { result < 2 ^ 63 }
{
    match obj {
        Obj::Block(b) => class.ports(&b.fields),
        Obj::Link(_) => 0,
        Obj::Text => 0,
        Obj::Deleted => 0,
    }
}

/// Where in its list the object at a position stands.
fn index_of(position: i64) -> Option<usize>
    ensures { MatchOption result (position <ℤ pos 1) (λ n. position ≡ pos (n + 1)) }
{
    if position < 1 {
        None
    } else {
        Some((position - 1) as usize)
    }
}

/// How many ports of a class the object at a position has.
fn ports_at(class: PortClass, d: &Diagram, position: i64) -> usize
    ensures value { result ≡ ports_of class (at_position (diagram_view d.now) position) }
    ensures few { result < 2 ^ 63 }
{
    match index_of(position) {
        None => 0,
        Some(at) => if at < d.objs.len() {
            object_ports(class, &d.objs[at])
        } else {
            0
        },
    }
}

#[inline]
fn is_port_of(d: &Diagram, class: PortClass, e: &End) -> bool
    ensures { result ≡ is_port_of (diagram_view d.now) class e.now }
{
    is_equal(e.side, class.side()) && e.port >= 1 && e.port <= ports_at(class, d, e.block) as i64
}

#[tactic(auto, using(sci_diagram::proofs::Told::tells_violation))]
fn typed_as(alloc: Global, here: &[u32], kind: i64) -> Result<LinkType, Stop>
    ensures ok { IfOk result (λ t. typed_as here.now kind (link_type kind) ≡ Ok t) }
    ensures stop { IfErr result (λ e. Tells (typed_as here.now kind (link_type kind)) e) }
{
    match LinkType::of(kind) {
        None => Err(Stop::by(alloc, Rule::LinkEnd, here, &[0, kind])),
        Some(t) => Ok(t),
    }
}

#[inline(always)]
#[tactic(auto, using(sci_diagram::proofs::Told::tells_violation))]
fn end_judged(
    alloc: Global,
    here: &[u32],
    d: &Diagram,
    class: PortClass,
    e: &End,
    code: i64,
) -> Result<(), Stop>
    ensures ok { OnOk result (end_judged here.now (diagram_view d.now) class e.now code ≡ Ok tt) }
    ensures stop { IfErr result (λ x. Tells (end_judged here.now (diagram_view d.now) class e.now code) x) }
{
    if is_port_of(d, class, e) {
        Ok(())
    } else {
        Err(Stop::by(alloc, Rule::LinkEnd, here, &[code]))
    }
}

/// A regular input takes one link.
fn once_fed(
    alloc: Global,
    here: &[u32],
    fed: &mut FedInputs,
    t: LinkType,
    to: &End,
) -> Result<(), Stop>
    ensures ok { (ends : List LinkEnd) → HoldsEnds fed.old ends → OnOk result (once_fed here.now ends t to.now ≡ Ok tt) }
    ensures more { (ends : List LinkEnd) → HoldsEnds fed.old ends → OnOk result (HoldsEnds fed.new (ends ++ regular_end to.now (Some t))) }
    ensures stop { (ends : List LinkEnd) → HoldsEnds fed.old ends → IfErr result (λ e. Stops (once_fed here.now ends t to.now) e) }
{
    match t {
        LinkType::Activation => Ok(()),
        LinkType::Regular => if fed.insert(to.block, to.port)? {
            Ok(())
        } else {
            Err(Stop::by(alloc, Rule::InputTwice, here, &[to.block, to.port]))
        },
    }
}

/// A link's type, where it comes from, and where it ends.
#[tactic(auto, using(sci_diagram::proofs::Told::tells_then), unfolding(crate::specs::Wiring::ends_judged))]
fn ends_judged(alloc: Global, here: &[u32], d: &Diagram, l: &LinkObj) -> Result<LinkType, Stop>
    ensures ok { IfOk result (λ t. ends_judged here.now (diagram_view d.now) l.now.from l.now.to l.now.kind ≡ Ok t) }
    ensures stop { IfErr result (λ e. Tells (ends_judged here.now (diagram_view d.now) l.now.from l.now.to l.now.kind) e) }
{
    let t = typed_as(alloc, here, l.kind)?;
    end_judged(alloc, here, d, t.source(), &l.from, 1)?;
    end_judged(alloc, here, d, t.target(), &l.to, 2)?;
    Ok(t)
}

/// The rules on a link of a diagram.
pub(crate) fn link_judged(
    alloc: Global,
    here: &[u32],
    d: &Diagram,
    fed: &mut FedInputs,
    l: &LinkObj,
) -> Result<(), Stop>
    ensures ok { (ends : List LinkEnd) → HoldsEnds fed.old ends
        → OnOk result (link_judged here.now (diagram_view d.now) ends l.now.from l.now.to l.now.kind ≡ Ok tt) }
    ensures more { (ends : List LinkEnd) → HoldsEnds fed.old ends → OnOk result (HoldsEnds fed.new (ends ++ regular_end l.now.to (link_type l.now.kind))) }
    ensures stop { (ends : List LinkEnd) → HoldsEnds fed.old ends
        → IfErr result (λ e. Stops (link_judged here.now (diagram_view d.now) ends l.now.from l.now.to l.now.kind) e) }
{
    let t = ends_judged(alloc, here, d, l)?;
    once_fed(alloc, here, fed, t, &l.to)
}
