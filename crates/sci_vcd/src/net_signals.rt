// The signals of a net.

ghost use Rattle.std.specs.Prelude.{◌≡◌, ◌+◌, ◌<◌, ◌≤◌, ◌^◌, ◌++◌, length, IfOk, OnOk, true};
ghost use Rattle.sci_base.specs.declared.limits.TheConstants.{PORTS, PORT_ELEMENTS};
ghost use Rattle.sci_vcd.specs.Signals.{element_signals, output_signals, signals_of, AreSmall, AreStarts};

use crate::Signal;
use sci_base::{NoMemory, Ty};
use sci_forms::Ports;
use sci_net::Net;
use std::alloc::Global;

/// The signals of a net, and how many of them stand before each block; at the end how many there are.
#[derive(Drop)]
pub struct NetSignals {
    pub signals: Vec<Signal>,
    pub starts: Vec<u32>,
}

/// The elements of an output.
fn push_elements(
    signals: &mut Vec<Signal>,
    ty: Ty,
    block: u32,
    port: u32,
    count: u32,
) -> Result<(), NoMemory>
    requires { count ≤ PORT_ELEMENTS }
    ensures { OnOk result (signals.new.items ≡ signals.old.items ++ element_signals ty block port count) }
{
    for element in 0..count {
        signals.push(Signal {
            block,
            port,
            element: element + 1,
            ty,
        })?;
    }
    Ok(())
}

/// The outputs of a block.
fn push_outputs(signals: &mut Vec<Signal>, block: u32, outs: &Ports) -> Result<(), NoMemory>
    requires few { length outs.now ≤ PORTS }
    requires small { AreSmall outs.now }
    ensures { OnOk result (signals.new.items ≡ signals.old.items ++ output_signals block 1 outs.now) }
{
    for at in 0..outs.len() {
        let port = outs.get(at);
        push_elements(
            signals,
            port.kind_of_type(),
            block,
            at as u32 + 1,
            port.elements() as u32,
        )?;
    }
    Ok(())
}

/// The signals of a net.
pub fn net_signals(alloc: Global, net: &Net) -> Result<NetSignals, NoMemory>
    ensures signals { IfOk result (λ s. s.signals.items ≡ signals_of net.now) }
    ensures starts { IfOk result (λ s. AreStarts net.now s.starts.items) }
{
    net.well_formed();
    let mut signals = Vec::new(alloc);
    let mut starts = Vec::new(alloc);
    starts.push(0)?;
    for block in 0..net.len() {
        push_outputs(&mut signals, block + 1, &net.spec(block + 1).outs)?;
        starts.push(signals.len() as u32)?;
    }
    Ok(NetSignals { signals, starts })
}
