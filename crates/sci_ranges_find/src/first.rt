// The table that the search begins with: nothing was shown yet.
ghost use Rattle.std.specs.Prelude.{◌≡◌, true};
ghost use Rattle.sci_forms.specs.Typed.{typed};

use crate::pass::first_state;
use crate::table::{RangeTable, elements_of};
use sci_base::NoMemory;
use sci_kinds::{Kind, Spec};
use sci_net::Net;
use sci_ranges_base::{Interval, join};
use std::alloc::Global;

/// The first interval of each value of a block's state; of a REGISTER, whose values move, one for all.
fn first_states(alloc: Global, spec: &Spec) -> Result<Vec<Interval>, NoMemory>
    requires { typed spec.now ≡ true }
{
    let mut each = Vec::new(alloc);
    let mut all = None;
    for k in 0..spec.state_len() {
        let one = Interval::one(first_state(spec, k));
        all = join(all, Some(one));
        each.push(one)?;
    }
    match (spec.kind, all) {
        (Kind::Register, Some(all)) => Ok(vec![in alloc; all; 1]?),
        _ => Ok(each),
    }
}

/// Of each block's outputs, element by element, that nothing was shown.
fn first_shows(alloc: Global, net: &Net) -> Result<Vec<Vec<Option<Interval>>>, NoMemory> {
    net.well_formed();
    let mut shows = Vec::new(alloc);
    shows.push(Vec::new(alloc))?;
    for block in 0..net.len() {
        let count = elements_of(&net.spec(block + 1).outs);
        let none = vec![in alloc; None; count]?;
        shows.push(none)?;
    }
    Ok(shows)
}

/// The table of first states.
pub fn first_table(alloc: Global, net: &Net) -> Result<RangeTable, NoMemory> {
    let count = net.len() as usize + 1;
    let mut states = Vec::new(alloc);
    states.push(Vec::new(alloc))?;
    for block in 0..net.len() {
        states.push(first_states(alloc, net.spec(block + 1))?)?;
    }
    Ok(RangeTable {
        shows: first_shows(alloc, net)?,
        states,
        overflows: vec![in alloc; false; count]?,
        zeros: vec![in alloc; false; count]?,
    })
}
