// The starts of the lines of a net's values.
ghost use Rattle.std.specs.Prelude.{◌≡◌, ◌<◌, ◌≤◌, ◌++◌, map, length, IfOk, OnOk};
ghost use Rattle.sci_base.specs.declared.limits.TheConstants.{PORTS, ALL_ELEMENTS};
ghost use Rattle.sci_forms.specs.Ports.{total};
ghost use Rattle.sci_store.specs.Heads.{named_elements, named_outputs, heads_of};
ghost use Rattle.sci_lines.specs.Lines.{start_text};

use sci_base::NoMemory;
use sci_kinds::Ports;
use sci_lines::Head;
use sci_net::Net;
use std::alloc::Global;

/// Adds the starts of the lines of an output's elements.
fn push_elements(heads: &mut Vec<Head>, block: u32, port: u32, count: u32) -> Result<(), NoMemory>
    requires block { block < 10000 }
    requires port { port < 100 }
    requires count { count < 100000 }
    ensures { OnOk result (heads.new.items ≡ heads.old.items ++ map start_text (named_elements block port 1 count)) }
{
    for element in 0..count {
        heads.push(Head::new(block, port, element + 1))?;
    }
    Ok(())
}

/// Adds the starts of the lines of a block's outputs.
fn push_outputs(heads: &mut Vec<Head>, block: u32, outs: &Ports) -> Result<(), NoMemory>
    requires block { block < 10000 }
    requires few { length outs.now ≤ PORTS }
    requires small { total outs.now ≤ ALL_ELEMENTS }
    ensures { OnOk result (heads.new.items ≡ heads.old.items ++ map start_text (named_outputs block 1 outs.now)) }
{
    for port in 0..outs.len() {
        let count = outs.get(port).elements() as u32;
        push_elements(heads, block, port as u32 + 1, count)?;
    }
    Ok(())
}

/// The starts of the lines of all values, by block, port and element.
pub fn heads(alloc: Global, net: &Net) -> Result<Vec<Head>, NoMemory>
    ensures { IfOk result (λ v. v.items ≡ heads_of net.now) }
{
    net.well_formed();
    let mut heads = Vec::new(alloc);
    for block in 0..net.len() {
        push_outputs(&mut heads, block + 1, &net.spec(block + 1).outs)?;
    }
    Ok(heads)
}
