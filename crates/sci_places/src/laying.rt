// Where the values of a block lie.
ghost use Rattle.std.specs.Prelude.{◌≡◌, ◌+◌, ◌≤◌, ◌<◌, ◌^◌, length, IfOk};
ghost use Rattle.sci_base.specs.declared.limits.TheConstants.{ALL_ELEMENTS};
ghost use Rattle.sci_forms.specs.Ports.{total, before};
ghost use Rattle.sci_net.specs.Parts.{IsBlock, IsOutput, spec_of};
ghost use Rattle.sci_places.specs.Layout.{AreStarts, laid_down, output_span};
ghost use Rattle.sci_span.specs.Values.{spans_length};

use sci_base::NoMemory;
use sci_forms::Ports;
use sci_net::{Net, Wire};
use sci_span::{InputSpans, Place, Span};
use std::alloc::Global;

/// How many elements the first `k` of some ports have.
#[tactic(auto, using(crate::proofs::Lists::up_to, crate::proofs::Lists::before_next))]
fn before(ports: &Ports, k: usize) -> usize
    requires within { k ≤ length ports.now }
    requires small { total ports.now < 2 ^ 63 }
    ensures { result ≡ before ports.now k }
{
    let mut count = 0;
    for port in 0..k {
        count += ports.port(port).elements() as usize;
    }
    count
}

/// How many elements all outputs of a block have.
#[tactic(auto, using(crate::proofs::Lists::before_all, crate::proofs::Outputs::outs_small))]
fn outs_length(net: &Net, block: u32) -> usize
    requires { IsBlock net.now block }
    ensures value { result ≡ total (spec_of net.now block).outs }
    ensures small { result ≤ ALL_ELEMENTS }
{
    net.well_formed();
    let outs = &net.spec(block).outs;
    before(outs, outs.len())
}

/// Where the values of each block begin, and at the end how many there are.
#[tactic(auto, using(crate::proofs::Lists::start_next, crate::proofs::Lists::start_within))]
pub fn starts(alloc: Global, net: &Net) -> Result<Vec<usize>, NoMemory>
    ensures { IfOk result (λ v. AreStarts net.now v.items) }
{
    net.well_formed();
    let mut starts = Vec::with_capacity(alloc, net.len() as usize + 1)?;
    let mut start = 0;
    starts.push(start)?;
    for block in 0..net.len() {
        start += outs_length(net, block + 1);
        starts.push(start)?;
    }
    Ok(starts)
}

/// The span of an output.
#[tactic(auto, using(crate::proofs::Lists::up_to, crate::proofs::Outputs::outs_small, crate::proofs::Outputs::block_within))]
fn output_span(net: &Net, starts: &[usize], wire: Wire) -> Span
    requires output { IsOutput net.now wire.block wire.port }
    requires starts { AreStarts net.now starts.now }
    ensures { result ≡ output_span net.now wire }
{
    net.well_formed();
    let outs = &net.spec(wire.block).outs;
    let at = wire.port as usize - 1;
    Span {
        start: starts[wire.block as usize - 1] + before(outs, at),
        len: outs.port(at).elements() as usize,
    }
}

/// Where the values of one block lie.
pub fn block_place(
    alloc: Global,
    net: &Net,
    starts: &[usize],
    block: u32,
) -> Result<Place, NoMemory>
    requires block { IsBlock net.now block }
    requires starts { AreStarts net.now starts.now }
    ensures { IfOk result (λ p. p ≡ laid_down net.now block) }
{
    net.well_formed();
    let inputs = net.spec(block).ins.len();
    let mut ins = Vec::with_capacity(alloc, inputs)?;
    for port in 0..inputs {
        ins.push(output_span(net, starts, net.wire(block, port as u32 + 1)))?;
    }
    Ok(Place {
        outs: Span {
            start: starts[block as usize - 1],
            len: outs_length(net, block),
        },
        ins: InputSpans::of(alloc, ins)?,
    })
}
