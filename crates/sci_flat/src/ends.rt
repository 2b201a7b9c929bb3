// The ports of one class of all blocks, and which of another class they reach.
ghost use Rattle.std.specs.Prelude.{◌≡◌, ◌+◌, ◌<◌, ◌≤◌, ◌^◌, ◌++◌, All, Contains, IfOk, OnOk, map, length, slice_index, ℕ};
ghost use Rattle.std.specs.List.{range_with_len};
ghost use Rattle.sci_base.specs.declared.limits.TheConstants.{BLOCKS};
ghost use Rattle.sci_flat.specs.Chain.{AllWithin};
ghost use Rattle.sci_flat.specs.Lists.{lists_of};
ghost use Rattle.sci_flat.specs.Reached.{IsWanted};
ghost use Rattle.sci_flat.specs.Successors.{AreSuccessors};
ghost use Rattle.sci_flat.specs.Ends.{end_of, seat_numbers, seat_ends, numbers_of, ends_of, IsInside, AreFeeding};
ghost use Rattle.sci_flat.specs.Sharing.{AreSharing};

use crate::reach::{Successors, find_origins, reached};
use crate::steps::PortNumbers;
use sci_base::NoMemory;
use sci_blocks::PortClass;
use sci_net::Feed;
use std::alloc::Global;

/// The ports of one class, by block and port.
#[derive(Drop)]
pub struct Ends {
    /// Their numbers.
    pub numbers: Vec<u32>,
    /// Which they are.
    pub feeds: Vec<Feed>,
}

/// Which ports of one class reach the ports of another.
#[derive(Drop)]
pub struct Feeding {
    /// The ports of the first class, by block and port.
    pub feeds: Vec<Feed>,
    /// By the number of a port of the second class, the indices of those that reach it.
    pub lists: Vec<Vec<usize>>,
}

/// Which activation outputs reach the activation inputs, where inputs that the same outputs reach share a list.
#[derive(Drop)]
pub struct Sharing {
    /// The activation outputs, by block and port.
    pub feeds: Vec<Feed>,
    /// By port, the indices of those that reach it, where it is the origin of an input.
    pub lists: Vec<Vec<usize>>,
    /// By the number of an input, the port that has its list.
    pub origins: Vec<u32>,
}

impl Ends {
    // Adds the ports of one block.
    fn add(
        &mut self,
        ports: u32,
        block: u32,
        seat: PortNumbers,
        class: PortClass,
    ) -> Result<(), NoMemory>
        requires { IsInside ports seat }
        ensures numbers { OnOk result (self.new.numbers.items ≡ self.old.numbers.items ++ seat_numbers class seat) }
        ensures feeds { OnOk result (self.new.feeds.items ≡ self.old.feeds.items ++ seat_ends class block seat) }
    {
        let first = seat.first_of(class);
        for k in 0..seat.count(class) {
            self.numbers.push((first + u64::from(k)) as u32)?;
            self.feeds.push(Feed { block, port: k + 1 })?;
        }
        Ok(())
    }

    /// The ports of a class.
    pub(crate) fn of(
        alloc: Global,
        ports: u32,
        seats: &[PortNumbers],
        class: PortClass,
    ) -> Result<Ends, NoMemory>
        requires inside { All (IsInside ports) seats.now }
        requires few { length seats.now ≤ BLOCKS }
        ensures numbers { IfOk result (λ r. r.numbers.items ≡ numbers_of class seats.now) }
        ensures feeds { IfOk result (λ r. r.feeds.items ≡ ends_of class 1 seats.now) }
    {
        let mut ends = Ends {
            numbers: Vec::new(alloc),
            feeds: Vec::new(alloc),
        };
        let mut block = 0;
        for seat in seats {
            block += 1;
            ends.add(ports, block, *seat, class)?;
        }
        Ok(ends)
    }
}

/// One mark for each port, set where its number is among these.
fn marked(alloc: Global, ports: u32, numbers: &[u32]) -> Result<Vec<bool>, NoMemory>
    requires { All (λ n. n < ports) numbers.now }
    ensures long { IfOk result (λ v. length v.items ≡ ports) }
    ensures marks { IfOk result (λ v. (q : ℕ) → Contains numbers.now q → IsWanted v.items q) }
{
    let mut marks = vec![in alloc; false; ports as usize]?;
    for number in numbers {
        marks[*number as usize] = true;
    }
    Ok(marks)
}

/// Which ports of the class `from` reach those of the class `to`.
pub(crate) fn feeding_of(
    alloc: Global,
    ports: u32,
    steps: &[(u32, u32)],
    successors: &Successors,
    seats: &[PortNumbers],
    from: PortClass,
    to: PortClass,
) -> Result<Feeding, NoMemory>
    requires within { AllWithin ports steps.now }
    requires successors { AreSuccessors steps.now ports successors.now }
    requires inside { All (IsInside ports) seats.now }
    requires few { length seats.now ≤ BLOCKS }
    ensures { IfOk result (λ r. AreFeeding seats.now steps.now ports from to r.feeds.items (lists_of r.lists)) }
{
    let sources = Ends::of(alloc, ports, seats, from)?;
    let targets = Ends::of(alloc, ports, seats, to)?;
    let wanted = marked(alloc, ports, &targets.numbers)?;
    let lists = reached(alloc, steps, successors, &sources.numbers, &wanted)?;
    let Ends { numbers: _, feeds } = sources;
    Ok(Feeding { feeds, lists })
}

/// The origins of these ports.
fn origins_of(alloc: Global, origins: &[u32], targets: &[u32]) -> Result<Vec<u32>, NoMemory>
    requires { All (λ q. q < length origins.now) targets.now }
    ensures { IfOk result (λ v. v.items ≡ map (λ q. slice_index origins.now q) targets.now) }
{
    let mut found = Vec::with_capacity(alloc, targets.len())?;
    for target in targets {
        found.push(origins[*target as usize])?;
    }
    Ok(found)
}

/// Which activation outputs reach the activation inputs.
pub(crate) fn sharing_of(
    alloc: Global,
    ports: u32,
    steps: &[(u32, u32)],
    successors: &Successors,
    seats: &[PortNumbers],
) -> Result<Sharing, NoMemory>
    requires within { AllWithin ports steps.now }
    requires successors { AreSuccessors steps.now ports successors.now }
    requires inside { All (IsInside ports) seats.now }
    requires few { length seats.now ≤ BLOCKS }
    ensures { IfOk result (λ r. AreSharing seats.now steps.now ports r) }
{
    let sources = Ends::of(alloc, ports, seats, PortClass::ActivationOutput)?;
    let targets = Ends::of(alloc, ports, seats, PortClass::ActivationInput)?;
    let origins = find_origins(alloc, ports, steps, &sources.numbers, &targets.numbers)?;
    let ends = origins_of(alloc, &origins, &targets.numbers)?;
    let wanted = marked(alloc, ports, &ends)?;
    let lists = reached(alloc, steps, successors, &sources.numbers, &wanted)?;
    let Ends { numbers: _, feeds } = sources;
    Ok(Sharing {
        feeds,
        lists,
        origins,
    })
}
