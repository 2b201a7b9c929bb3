// How many ports of each class a superblock has.
use crate::class::PortClass;
use sci_base::BlockFields;

/// How many ports of each class a superblock has.
#[derive(Clone, Copy, Drop)]
pub(crate) struct PortCounts {
    pub(crate) ins: usize,
    pub(crate) outs: usize,
    pub(crate) evtin: usize,
    pub(crate) evtout: usize,
}

impl PortCounts {
    ghost use Rattle.std.specs.Prelude.{◌≡◌, length};
    ghost use Rattle.sci_base.specs.Plain.{fields_of};
    ghost use Rattle.sci_blocks.specs.Counts.{count_in, counts_of, no_counts};

    /// Of the outermost diagram, which has no ports.
    pub(crate) fn none() -> PortCounts
        ensures { result ≡ no_counts }
    {
        PortCounts {
            ins: 0,
            outs: 0,
            evtin: 0,
            evtout: 0,
        }
    }

    /// Of a superblock with these fields.
    pub(crate) fn of(f: &BlockFields) -> PortCounts
        ensures { result ≡ counts_of (fields_of f.now) }
    {
        PortCounts {
            ins: f.ins.len(),
            outs: f.outs.len(),
            evtin: f.evtin as usize,
            evtout: f.evtout as usize,
        }
    }

    pub(crate) fn get(self, class: PortClass) -> usize
        ensures { result ≡ count_in self class }
    {
        match class {
            PortClass::Input => self.ins,
            PortClass::Output => self.outs,
            PortClass::ActivationInput => self.evtin,
            PortClass::ActivationOutput => self.evtout,
        }
    }
}
