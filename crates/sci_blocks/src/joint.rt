// The rules on a pass-through object.
ghost use Rattle.std.specs.Prelude.{◌≡◌, ◌<◌, ◌^◌, IfOk, IfErr, OnOk, Ok, length};
ghost use Rattle.sci_base.specs.Plain.{fields_of};
ghost use Rattle.sci_forms.specs.Forms.{or_else};
ghost use Rattle.sci_check.specs.Check.{shape, bad};
ghost use Rattle.sci_blocks.specs.Rows.{row, row_broken, has_its_ports, number_broken, parameters_broken, joint_checked};
ghost use Rattle.sci_diagram.specs.Telling.{Tells};

use crate::pass_through::PassThrough;
use sci_base::{BlockFields, Rule, Stop};
use sci_forms::values::within;
use sci_forms::{Broken, Counts, Detail};
use std::alloc::Global;

fn shape(code: i64, n: usize) -> Broken
    requires { n < 2 ^ 63 }
    ensures { result ≡ shape code n }
{
    Broken {
        rule: Rule::PortShape,
        detail: Detail::Pair(code, n as i64),
    }
}

fn bad(field: i64, k: usize, v: i64) -> Broken
    requires { k < 2 ^ 63 }
    ensures { result ≡ bad field k v }
{
    Broken {
        rule: Rule::BadParameter,
        detail: Detail::Triple(field, k as i64, v),
    }
}

/// The counts of ports.
fn row_broken(c: Counts, f: &BlockFields) -> Option<Broken>
    ensures { result ≡ row_broken c (fields_of f.now) }
{
    if !within(c.ins_least, c.ins_most, f.ins.len()) {
        return Some(shape(1, f.ins.len()));
    }
    if !within(c.outs_least, c.outs_most, f.outs.len()) {
        return Some(shape(2, f.outs.len()));
    }
    if !within(c.evtin_least, c.evtin_most, f.evtin as usize) {
        return Some(shape(3, f.evtin as usize));
    }
    if !within(c.evtout_least, c.evtout_most, f.evtout as usize) {
        return Some(shape(4, f.evtout as usize));
    }
    None
}

/// The number of a port block.
fn number_broken(ipar: &[i64]) -> Option<Broken>
    ensures { result ≡ number_broken ipar.now }
{
    match ipar {
        [n] => if *n >= 1 { None } else { Some(bad(1, 1, *n)) },
        _ => Some(bad(1, 0, ipar.len() as i64)),
    }
}

/// Whether a pass-through object has as many ports of each class as its row asks.
pub fn has_its_ports(p: PassThrough, f: &BlockFields) -> bool
    ensures { result ≡ has_its_ports p (fields_of f.now) }
{
    row_broken(p.row(), f).is_none()
}

fn parameters_broken(p: PassThrough, ipar: &[i64]) -> Option<Broken>
    ensures { result ≡ parameters_broken p ipar.now }
{
    match p {
        PassThrough::Split
        | PassThrough::ActivationSplit
        | PassThrough::Union
        | PassThrough::Giver(_)
        | PassThrough::Taker(_) => None,
        PassThrough::PortBlock(_) => number_broken(ipar),
    }
}

fn joint_broken(p: PassThrough, f: &BlockFields) -> Option<Broken>
    ensures { result ≡ or_else (row_broken (row p) (fields_of f.now)) (parameters_broken p f.now.ipar.items) }
{
    match row_broken(p.row(), f) {
        Some(b) => Some(b),
        None => parameters_broken(p, f.ipar.as_slice()),
    }
}

/// The rules on a pass-through object: its counts of ports (rule 9), and then the number of a port block (rule 8).
#[tactic(auto, using(sci_diagram::proofs::Told::tells_violation))]
pub(crate) fn joint_checked(
    alloc: Global,
    here: &[u32],
    p: PassThrough,
    f: &BlockFields,
) -> Result<(), Stop>
    ensures ok { OnOk result (joint_checked here.now p (fields_of f.now) ≡ Ok tt) }
    ensures stop { IfErr result (λ e. Tells (joint_checked here.now p (fields_of f.now)) e) }
{
    match joint_broken(p, f) {
        None => Ok(()),
        Some(b) => Err(b.stop(alloc, here)),
    }
}
