// Ports that the same sources reach: where a port is reached by one step alone, what reaches it is what reaches the port before it.
ghost use Rattle.std.specs.Prelude.{◌≡◌, ◌<◌, ◌≤◌, ◌^◌, All, IfOk, length};
ghost use Rattle.sci_flat.specs.Chain.{AllWithin};
ghost use Rattle.sci_flat.specs.Origins.{stepped, above, AreBefores, AreAbove, AreRooted, AreSettled, AreOrigins, Climb};

use sci_base::NoMemory;
use std::alloc::Global;

/// From where steps lead to a port.
#[derive(Clone, Copy, Drop)]
pub enum Before {
    /// No step leads to it.
    Nothing,
    /// One step leads to it, from this port.
    One(u32),
    /// Several steps lead to it.
    Several,
}

impl Before {
    /// With one more step, which leads from this port.
    fn stepped(self, from: u32) -> Before
        ensures { result ≡ stepped self from }
    {
        match self {
            Before::Nothing => Before::One(from),
            Before::One(_) | Before::Several => Before::Several,
        }
    }

    /// The only port before this one; itself where there is no such.
    fn above(self, port: u32) -> u32
        ensures { result ≡ above self port }
    {
        match self {
            Before::One(from) => from,
            Before::Nothing | Before::Several => port,
        }
    }
}

/// By port, from where steps lead to it.
fn befores(alloc: Global, steps: &[(u32, u32)], ports: u32) -> Result<Vec<Before>, NoMemory>
    requires { AllWithin ports steps.now }
    ensures { IfOk result (λ v. AreBefores steps.now ports (length steps.now) v.items) }
{
    let mut befores = vec![in alloc; Before::Nothing; ports as usize]?;
    for step in steps {
        let to = step.1 as usize;
        befores[to] = befores[to].stepped(step.0);
    }
    Ok(befores)
}

/// By port, the only port before it, or itself.
fn above_all(alloc: Global, befores: &[Before]) -> Result<Vec<u32>, NoMemory>
    requires { length befores.now < 2 ^ 32 }
    ensures { IfOk result (λ v. AreAbove befores.now (length befores.now) v.items) }
{
    let mut origins = Vec::with_capacity(alloc, befores.len())?;
    for port in 0..befores.len() {
        origins.push(befores[port].above(port as u32))?;
    }
    Ok(origins)
}

/// Makes each source its own origin.
fn root_sources(origins: &mut Vec<u32>, sources: &[u32])
    requires { All (λ p. p < length origins.old.items) sources.now }
    ensures { AreRooted sources.now (length sources.now) origins.old.items origins.new.items }
{
    for source in sources {
        origins[*source as usize] = *source;
    }
}

/// The last port on the way from a port to its origin, to that one's, and so on; somewhere on a way that goes round.
fn last_origin(origins: &[u32], port: u32) -> u32
    requires port { port < length origins.now }
    requires within { All (λ p. p < length origins.now) origins.now }
    ensures { Climb origins.now port result }
{
    let mut at = port;
    for _turn in 0..origins.len() {
        let origin = origins[at as usize];
        if origin == at {
            return at;
        }
        at = origin;
    }
    at
}

/// Makes a port the origin of all that are on the way to it from another, so that no later climb goes that way again.
fn settle(origins: &mut Vec<u32>, port: u32, origin: u32)
    requires port { port < length origins.old.items }
    requires within { All (λ p. p < length origins.old.items) origins.old.items }
    requires climb { Climb origins.old.items port origin }
    ensures { AreSettled port origin origins.old.items origins.new.items }
{
    let mut at = port;
    for _turn in 0..origins.len() {
        if at == origin {
            return;
        }
        let next = origins[at as usize];
        origins[at as usize] = origin;
        at = next;
    }
}

/// By port, one that the same sources reach: of a target the first on the way of single steps to it.
pub fn find_origins(
    alloc: Global,
    ports: u32,
    steps: &[(u32, u32)],
    sources: &[u32],
    targets: &[u32],
) -> Result<Vec<u32>, NoMemory>
    requires steps { AllWithin ports steps.now }
    requires sources { All (λ p. p < ports) sources.now }
    requires targets { All (λ p. p < ports) targets.now }
    ensures { IfOk result (λ v. AreOrigins steps.now sources.now ports v.items) }
{
    let befores = befores(alloc, steps, ports)?;
    let mut origins = above_all(alloc, &befores)?;
    root_sources(&mut origins, sources);
    for target in targets {
        let origin = last_origin(&origins, *target);
        settle(&mut origins, *target, origin);
    }
    Ok(origins)
}
