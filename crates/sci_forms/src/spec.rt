// The spec of a block.
ghost use Rattle.std.specs.Prelude.{◌≡◌, ◌<◌, List, length, IfOk};
ghost use Rattle.sci_forms.specs.Words.{param, out_type};

use crate::Kind;
use crate::ports::Ports;
use sci_base::{Ints, NoMemory, Truths, Ty};
use std::alloc::Global;

/// What is declared of a block. `Kind` says what the parameters mean; a part that the kind doesn't have is empty.
#[derive(Drop)]
pub struct Spec {
    /// What the block does.
    pub kind: Kind,
    /// The parameters, `ipar`.
    pub params: Ints,
    /// The initial state, `dstate`; one value stands for all elements.
    pub state: Ints,
    /// The date of the first event of the activation output, in ticks, of the kinds that delay; negative for none.
    pub firing: Ints,
    /// The regular inputs.
    pub ins: Ports,
    /// The regular outputs.
    pub outs: Ports,
    /// The number of activation inputs.
    pub evtin: u32,
    /// The number of activation outputs.
    pub evtout: u32,
    /// Of each regular input whether it has direct feedthrough: by `dep_ut`'s first part, or by the kind.
    pub feed: Truths,
}

impl Spec {
    /// Parameter `k`, counted from 0; 0 where there is none.
    pub fn param(&self, k: usize) -> i64
        ensures { result ≡ param self.now k }
    {
        self.params.at(k)
    }

    /// The type of the first output; int32 where there is none.
    pub fn out_type(&self) -> Ty
        ensures { result ≡ out_type self.now }
    {
        self.outs.port(0).kind_of_type()
    }

    /// A copy of the spec.
    pub fn copy(&self, alloc: Global) -> Result<Spec, NoMemory>
        ensures { IfOk result (λ r. r ≡ self.now) }
    {
        Ok(Spec {
            kind: self.kind,
            params: self.params.copy(alloc)?,
            state: self.state.copy(alloc)?,
            firing: self.firing.copy(alloc)?,
            ins: self.ins.copy(alloc)?,
            outs: self.outs.copy(alloc)?,
            evtin: self.evtin,
            evtout: self.evtout,
            feed: self.feed.copy(alloc)?,
        })
    }
}
