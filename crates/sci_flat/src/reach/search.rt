// The search from one source after another: each port that a source reaches, and that is wanted, gets the source at the end of its list.
ghost use Rattle.std.specs.Prelude.{◌≡◌, ◌≢◌, ◌+◌, ◌<◌, ◌^◌, [], IfOk, OnOk, length, replicate, slice_index};
ghost use Rattle.sci_flat.specs.Chain.{AllWithin};
ghost use Rattle.sci_flat.specs.Lists.{lists_of};
ghost use Rattle.sci_flat.specs.Search.{IsStamped, Enters, Visits, Walks, IsReady};
ghost use Rattle.sci_flat.specs.Successors.{AreSuccessors, targets};

use crate::reach::successors::Successors;
use sci_base::NoMemory;
use sci_loop::walk::{empty_lists, push_at};
use std::alloc::Global;

/// What the search has come to.
#[derive(Drop)]
pub struct FeedSearch {
    /// By port, the number of the last source that reached it, counted from 1; 0 where there is none.
    pub stamps: Vec<usize>,
    /// By port, the sources that reached it, where it is wanted.
    pub lists: Vec<Vec<usize>>,
    /// Ports that the present source reached, and from which the search has still to go on.
    pub pending: Vec<u32>,
}

impl FeedSearch {
    /// A search over so many ports before its first source.
    pub(crate) fn new(alloc: Global, ports: usize) -> Result<FeedSearch, NoMemory>
        ensures stamps { IfOk result (λ s. s.stamps.items ≡ replicate ports 0) }
        ensures lists { IfOk result (λ s. lists_of s.lists ≡ replicate ports []) }
        ensures ready { IfOk result (λ s. IsReady s ports 0) }
    {
        let stamps = vec![in alloc; 0; ports]?;
        let lists = empty_lists(alloc, ports)?;
        let pending = Vec::new(alloc);
        Ok(FeedSearch {
            stamps,
            lists,
            pending,
        })
    }

    // A port that the source has not reached before.
    fn enter(&mut self, wanted: &[bool], source: usize, port: u32) -> Result<(), NoMemory>
        requires port { port < length self.old.stamps.items }
        requires lists { length self.old.lists.items ≡ length self.old.stamps.items }
        requires wanted { length wanted.now ≡ length self.old.stamps.items }
        requires few { source + 1 < 2 ^ 64 }
        ensures { OnOk result (Enters wanted.now source port self.old self.new) }
    {
        self.stamps[port as usize] = source + 1;
        if wanted[port as usize] {
            push_at(&mut self.lists, port as usize, source)?;
        }
        self.pending.push(port)?;
        Ok(())
    }

    // A port to which a step leads from one that the source has reached.
    fn visit(&mut self, wanted: &[bool], source: usize, port: u32) -> Result<(), NoMemory>
        requires port { port < length self.old.stamps.items }
        requires lists { length self.old.lists.items ≡ length self.old.stamps.items }
        requires wanted { length wanted.now ≡ length self.old.stamps.items }
        requires few { source + 1 < 2 ^ 64 }
        ensures again { OnOk result (IsStamped self.old.stamps.items (source + 1) port → self.new ≡ self.old) }
        ensures first { OnOk result (slice_index self.old.stamps.items port ≢ source + 1 → Enters wanted.now source port self.old self.new) }
    {
        if self.stamps[port as usize] == source + 1 {
            return Ok(());
        }
        self.enter(wanted, source, port)
    }

    // All the ports to which a step leads from this one.
    fn visit_all(
        &mut self,
        wanted: &[bool],
        source: usize,
        steps: &[(u32, u32)],
        successors: &Successors,
        port: u32,
    ) -> Result<(), NoMemory>
        requires within { AllWithin (length wanted.now) steps.now }
        requires successors { AreSuccessors steps.now (length wanted.now) successors.now }
        requires port { port < length wanted.now }
        requires wanted { length wanted.now ≡ length self.old.stamps.items }
        requires lists { length self.old.lists.items ≡ length self.old.stamps.items }
        requires few { source + 1 < 2 ^ 64 }
        ensures { OnOk result (Visits wanted.now source (targets steps.now port) self.old self.new) }
    {
        let mut next = successors.latest[port as usize];
        while next != 0 {
            let at = next - 1;
            self.visit(wanted, source, steps[at].1)?;
            next = successors.earlier[at];
        }
        Ok(())
    }

    /// All that a source reaches which stands at the port `start`.
    pub(crate) fn walk(
        &mut self,
        wanted: &[bool],
        source: usize,
        start: u32,
        steps: &[(u32, u32)],
        successors: &Successors,
    ) -> Result<(), NoMemory>
        requires ready { IsReady self.old (length wanted.now) source }
        requires start { start < length wanted.now }
        requires within { AllWithin (length wanted.now) steps.now }
        requires successors { AreSuccessors steps.now (length wanted.now) successors.now }
        requires few { source + 1 < 2 ^ 64 }
        ensures { OnOk result (Walks (targets steps.now) wanted.now source start self.old self.new) }
    {
        self.visit(wanted, source, start)?;
        while let Some(port) = self.pending.pop() {
            self.visit_all(wanted, source, steps, successors, port)?;
        }
        Ok(())
    }
}
