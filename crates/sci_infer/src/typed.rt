// Specs with the numbers of a typing.
ghost use Rattle.std.specs.Prelude.{◌≡◌, ◌≤◌, ◌+◌, ◌*◌, length, All, IfOk, OnOk};
ghost use Rattle.sci_base.specs.declared.limits.TheConstants.{BLOCKS, PORTS};
ghost use Rattle.sci_infer.specs.PortParts.{parts_from};
ghost use Rattle.sci_infer.specs.Typed.{typed_port, typed_ports, typed_spec, typed_specs};

use sci_base::NoMemory;
use sci_forms::{Port, Ports, Spec};
use std::alloc::Global;

/// A port with the numbers at a place.
fn fill_port(values: &[i64], at: usize) -> Port
    requires { at + 3 ≤ length values.now }
    ensures { result ≡ typed_port values.now at }
{
    Port {
        rows: values[at + 1],
        cols: values[at + 2],
        ty: values[at],
    }
}

/// Ports with the numbers that start at a place.
fn fill_ports(alloc: Global, values: &[i64], start: usize, ports: &Ports) -> Result<Ports, NoMemory>
    requires { start + 3 * length ports.now ≤ length values.now }
    ensures { IfOk result (λ r. r ≡ typed_ports values.now start ports.now) }
{
    let mut items = Vec::new(alloc);
    for port in 0..ports.len() {
        items.push(fill_port(values, start + 3 * port))?;
    }
    Ok(Ports::of(items))
}

/// Gives the ports of a spec the numbers that start at a place.
fn fill_spec(alloc: Global, values: &[i64], start: usize, spec: &mut Spec) -> Result<(), NoMemory>
    requires { start + (3 * length spec.old.ins + 3 * length spec.old.outs) ≤ length values.now }
    ensures { OnOk result (spec.new ≡ typed_spec values.now start spec.old) }
{
    let ins = fill_ports(alloc, values, start, &spec.ins)?;
    let outs = fill_ports(alloc, values, start + 3 * spec.ins.len(), &spec.outs)?;
    spec.ins = ins;
    spec.outs = outs;
    Ok(())
}

/// How many parts the ports of a spec have.
fn part_count(spec: &Spec) -> usize
    requires ins { length spec.now.ins ≤ PORTS }
    requires outs { length spec.now.outs ≤ PORTS }
    ensures { result ≡ 3 * length spec.now.ins + 3 * length spec.now.outs }
{
    3 * spec.ins.len() + 3 * spec.outs.len()
}

/// Gives the ports of all specs the numbers of a typing.
pub fn fill_specs(alloc: Global, values: &[i64], specs: &mut Vec<Spec>) -> Result<(), NoMemory>
    requires few { length specs.old.items ≤ BLOCKS }
    requires few_ins { All (λ s. length s.ins ≤ PORTS) specs.old.items }
    requires few_outs { All (λ s. length s.outs ≤ PORTS) specs.old.items }
    requires long { length values.now ≡ length (parts_from 1 specs.old.items) }
    ensures { OnOk result (specs.new.items ≡ typed_specs values.now 0 specs.old.items) }
{
    let mut start = 0;
    for at in 0..specs.len() {
        let count = part_count(&specs[at]);
        fill_spec(alloc, values, start, &mut specs[at])?;
        start += count;
    }
    Ok(())
}
