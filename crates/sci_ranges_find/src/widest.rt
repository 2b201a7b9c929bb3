// The table in which everything may be any number of its type. It always passes.
ghost use Rattle.std.specs.Prelude.{◌≡◌, ◌≤◌, ◌++◌, replicate, Some, IfOk, OnOk};
ghost use Rattle.sci_base.specs.declared.limits.TheConstants.{ALL_ELEMENTS};
ghost use Rattle.sci_forms.specs.Ports.{elements, type_of, total};
ghost use Rattle.sci_forms.specs.Words.{out_type};
ghost use Rattle.sci_net.specs.Parts.{rows_of};
ghost use Rattle.sci_ranges_base.specs.Intervals.{whole};
ghost use Rattle.sci_ranges_pass.specs.Laws.{IsWidest};
ghost use Rattle.sci_ranges_find.specs.View.{ranges_of};
ghost use Rattle.sci_ranges_find.specs.Widest.{whole_ports, AreWholeShows, AreWholeStates};

use crate::table::RangeTable;
use sci_base::NoMemory;
use sci_kinds::{Port, Ports, Spec};
use sci_net::Net;
use sci_ranges_base::Interval;
use std::alloc::Global;

/// Any number of its type for each element of a port.
fn push_whole(all: &mut Vec<Option<Interval>>, port: Port) -> Result<(), NoMemory>
    requires { elements port ≤ ALL_ELEMENTS }
    ensures { OnOk result (all.new.items ≡ all.old.items ++ replicate (elements port) (Some (whole (type_of port)))) }
{
    let whole = Some(Interval::whole(port.kind_of_type()));
    for _ in 0..port.elements() as usize {
        all.push(whole)?;
    }
    Ok(())
}

/// The same for each port.
fn whole_ports(alloc: Global, ports: &Ports) -> Result<Vec<Option<Interval>>, NoMemory>
    requires { total ports.now ≤ ALL_ELEMENTS }
    ensures { IfOk result (λ v. v.items ≡ whole_ports ports.now) }
{
    let mut all = Vec::new(alloc);
    for k in 0..ports.len() {
        push_whole(&mut all, ports.port(k))?;
    }
    Ok(all)
}

/// The same of each block's outputs.
fn whole_shows(alloc: Global, net: &Net) -> Result<Vec<Vec<Option<Interval>>>, NoMemory>
    ensures { IfOk result (λ v. AreWholeShows net.now (rows_of v.items)) }
{
    net.well_formed();
    let mut shows = Vec::new(alloc);
    shows.push(Vec::new(alloc))?;
    for block in 0..net.len() {
        let ports = whole_ports(alloc, &net.spec(block + 1).outs)?;
        shows.push(ports)?;
    }
    Ok(shows)
}

/// Any number of the type of a block's state.
fn whole_state(spec: &Spec) -> Interval
    ensures { result ≡ whole (out_type spec.now) }
{
    Interval::whole(spec.outs.port(0).kind_of_type())
}

/// The same for all values of each block's state.
fn whole_states(alloc: Global, net: &Net) -> Result<Vec<Vec<Interval>>, NoMemory>
    ensures { IfOk result (λ v. AreWholeStates net.now (rows_of v.items)) }
{
    let mut states = Vec::new(alloc);
    states.push(Vec::new(alloc))?;
    for block in 0..net.len() {
        let whole = whole_state(net.spec(block + 1));
        let state = vec![in alloc; whole; 1]?;
        states.push(state)?;
    }
    Ok(states)
}

/// The table in which everything may be any number of its type, and each block may stop.
pub fn widest_table(alloc: Global, net: &Net) -> Result<RangeTable, NoMemory>
    ensures { IfOk result (λ t. IsWidest net.now (ranges_of t)) }
{
    let count = net.len() as usize + 1;
    let shows = whole_shows(alloc, net)?;
    let states = whole_states(alloc, net)?;
    let overflows = vec![in alloc; true; count]?;
    let zeros = vec![in alloc; true; count]?;
    Ok(RangeTable {
        shows,
        states,
        overflows,
        zeros,
    })
}
