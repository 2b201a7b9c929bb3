// The steps, by the port from which they lead.
ghost use Rattle.std.specs.Prelude.{◌≡◌, IfOk, length};
ghost use Rattle.sci_flat.specs.Chain.{AllWithin};
ghost use Rattle.sci_flat.specs.Successors.{AreSuccessors};

use sci_base::NoMemory;
use std::alloc::Global;

/// Which steps lead from a port: the latest of them by the port, and by each step the one before it from the same port. Steps are counted
/// from 1 here, and 0 stands for none.
#[derive(Drop)]
pub struct Successors {
    pub latest: Vec<usize>,
    pub earlier: Vec<usize>,
}

/// The steps between so many ports, by the port from which they lead.
pub fn successors_of(
    alloc: Global,
    steps: &[(u32, u32)],
    ports: usize,
) -> Result<Successors, NoMemory>
    requires { AllWithin ports steps.now }
    ensures { IfOk result (AreSuccessors steps.now ports) }
{
    let mut latest = vec![in alloc; 0; ports]?;
    let mut earlier = Vec::with_capacity(alloc, steps.len())?;
    for (i, step) in steps.iter().enumerate() {
        let from = step.0 as usize;
        earlier.push(latest[from])?;
        latest[from] = i + 1;
    }
    Ok(Successors { latest, earlier })
}
