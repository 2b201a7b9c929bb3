// The rule on the ports of a superblock.
ghost use Rattle.std.specs.Prelude.{◌≡◌, ◌<◌, ◌≤◌, ◌+◌, ◌^◌, ◌∷◌, [], length, map, nat_eq, slice_index, IfOk, IfErr, OnOk, IfSome, MatchOption, Ok};
ghost use Rattle.sci_diagram.specs.Objects.{objects_of, object_view, diagram_view};
ghost use Rattle.sci_base.specs.Plain.{fields_of};
ghost use Rattle.sci_forms.specs.Forms.{first_not};
ghost use Rattle.sci_blocks.specs.Ports.{ports, no_ports, number, named_number, object_number, numbers, first_broken, unmatched, class_matched, ports_matched};
ghost use Rattle.sci_blocks.specs.Counts.{count_in, IsTallied};
ghost use Rattle.sci_blocks.specs.Sizes.{IsShort};
ghost use Rattle.sci_base.specs.Stops.{IsViolation, Stops};

use crate::class::PortClass;
use crate::counts::PortCounts;
use crate::tally::NumberTally;
use sci_base::{BlockFields, NoMemory, Rule, Stop};
use sci_diagram::{Diagram, Obj};
use std::alloc::Global;

fn number(ipar: &[i64]) -> Option<u64>
    ensures value { MatchOption result (number ipar.now ≡ []) (λ n. number ipar.now ≡ n ∷ []) }
    ensures positive { IfSome result (λ n. 1 ≤ n) }
    ensures fits { IfSome result (λ n. n < 2 ^ 63) }
{
    match ipar {
        [n] => if *n >= 1 { Some(*n as u64) } else { None },
        _ => None,
    }
}

/// The number of an object that is a port block of this class.
fn object_number(class: PortClass, obj: &Obj) -> Option<u64>
    ensures value { MatchOption result (object_number class (object_view obj.now) ≡ []) (λ n. object_number class (object_view obj.now) ≡ n ∷ []) }
    ensures positive { IfSome result (λ n. 1 ≤ n) }
    ensures fits { IfSome result (λ n. n < 2 ^ 63) }
{
    match obj {
        Obj::Block(b) => match &b.inner {
            Some(_) => None,
            None => block_number(class, b.gui.as_str(), b.fields.ipar.as_slice()),
        },
        Obj::Link(_) => None,
        Obj::Text => None,
        Obj::Deleted => None,
    }
}

fn block_number(class: PortClass, gui: &str, ipar: &[i64]) -> Option<u64>
    ensures value { MatchOption result (named_number class gui.now ipar.now ≡ []) (λ n. named_number class gui.now ipar.now ≡ n ∷ []) }
    ensures positive { IfSome result (λ n. 1 ≤ n) }
    ensures fits { IfSome result (λ n. n < 2 ^ 63) }
{
    if gui == class.name() {
        number(ipar)
    } else {
        None
    }
}

/// The numbers of the port blocks of a class directly inside.
fn tallied(
    alloc: Global,
    class: PortClass,
    count: usize,
    objs: &[Obj],
) -> Result<NumberTally, NoMemory>
    requires { length objs.now < 2 ^ 32 }
    ensures { IfOk result (λ t. IsTallied t count [] (numbers class (objects_of (map object_view objs.now)))) }
{
    let mut tally = NumberTally::new(alloc, count)?;
    for obj in objs {
        match object_number(class, obj) {
            Some(n) => tally.add(n),
            None => {}
        }
    }
    Ok(tally)
}

/// The first number that doesn't occur once.
#[tactic(auto, using(sci_forms::proofs::FirstNot::found, sci_forms::proofs::FirstNot::passed))]
fn first_not_once(times: &[u32]) -> Option<usize>
    ensures first { result ≡ first_not (λ k. nat_eq (slice_index times.now k) 1) (length times.now) }
    ensures within { IfSome result (λ k. k < length times.now) }
{
    for k in 0..times.len() {
        if times[k] != 1 {
            return Some(k);
        }
    }
    None
}

/// The first number from 1 up that breaks the rule.
fn first_broken(
    alloc: Global,
    class: PortClass,
    count: usize,
    objs: &[Obj],
) -> Result<Option<u64>, NoMemory>
    requires { length objs.now < 2 ^ 32 }
    ensures value { IfOk result (λ o. o ≡ first_broken count (numbers class (objects_of (map object_view objs.now)))) }
    ensures fits { IfOk result (λ o. IfSome o (λ n. n < 2 ^ 63)) }
{
    let tally = tallied(alloc, class, count, objs)?;
    match first_not_once(tally.times.as_slice()) {
        Some(k) => Ok(Some(k as u64 + 1)),
        None => Ok(tally.least),
    }
}

fn unmatched(alloc: Global, at: &[u32], class: PortClass, n: u64) -> Stop
    requires { n < 2 ^ 63 }
    ensures { IsViolation (unmatched at.now class n) result }
{
    Stop::by(alloc, Rule::SuperPorts, at, &[class.number(), n as i64])
}

/// The ports of one class.
fn class_matched(
    alloc: Global,
    at: &[u32],
    count: PortCounts,
    d: &Diagram,
    class: PortClass,
) -> Result<(), Stop>
    requires { IsShort (diagram_view d.now) }
    ensures ok { OnOk result (class_matched at.now (count_in count) (diagram_view d.now) class ≡ Ok tt) }
    ensures stop { IfErr result (λ e. Stops (class_matched at.now (count_in count) (diagram_view d.now) class) e) }
{
    match first_broken(alloc, class, count.get(class), d.objs.as_slice())? {
        None => Ok(()),
        Some(n) => Err(unmatched(alloc, at, class, n)),
    }
}

/// The ports of all classes.
#[tactic(auto, using(sci_base::proofs::Stopping::stops_then), unfolding(crate::specs::Ports::ports_matched))]
fn ports_matched(alloc: Global, at: &[u32], count: PortCounts, d: &Diagram) -> Result<(), Stop>
    requires { IsShort (diagram_view d.now) }
    ensures ok { OnOk result (ports_matched at.now (count_in count) (diagram_view d.now) ≡ Ok tt) }
    ensures stop { IfErr result (λ e. Stops (ports_matched at.now (count_in count) (diagram_view d.now)) e) }
{
    class_matched(alloc, at, count, d, PortClass::Input)?;
    class_matched(alloc, at, count, d, PortClass::Output)?;
    class_matched(alloc, at, count, d, PortClass::ActivationInput)?;
    class_matched(alloc, at, count, d, PortClass::ActivationOutput)
}

/// The rule on the ports of the superblock at a place with these fields and this diagram inside.
#[tactic(auto, unfolding(crate::specs::Ports::ports_matched))]
pub(crate) fn superblock_matched(
    alloc: Global,
    at: &[u32],
    f: &BlockFields,
    d: &Diagram,
) -> Result<(), Stop>
    requires { IsShort (diagram_view d.now) }
    ensures ok { OnOk result (ports_matched at.now (ports (fields_of f.now)) (diagram_view d.now) ≡ Ok tt) }
    ensures stop { IfErr result (λ e. Stops (ports_matched at.now (ports (fields_of f.now)) (diagram_view d.now)) e) }
{
    ports_matched(alloc, at, PortCounts::of(f), d)
}

/// The rule on the outermost diagram.
#[tactic(auto, unfolding(crate::specs::Ports::ports_matched))]
pub(crate) fn outermost_matched(alloc: Global, d: &Diagram) -> Result<(), Stop>
    requires { IsShort (diagram_view d.now) }
    ensures ok { OnOk result (ports_matched [] no_ports (diagram_view d.now) ≡ Ok tt) }
    ensures stop { IfErr result (λ e. Stops (ports_matched [] no_ports (diagram_view d.now)) e) }
{
    ports_matched(alloc, &[], PortCounts::none(), d)
}
