// The regular inputs at which links end.
use sci_base::NoMemory;
use std::alloc::Global;
use std::collections::BTreeSet;

/// The regular inputs of a diagram at which links end, each by its block's position and its number.
#[derive(Drop)]
pub(crate) struct FedInputs {
    pub(crate) ends: BTreeSet<(i64, i64)>,
}

impl FedInputs {
    ghost use Rattle.std.specs.Prelude.{◌≡◌, ◌++◌, ◌∷◌, [], List, not, IfOk, OnOk};
    ghost use Rattle.std.specs.List.{list_any};
    ghost use Rattle.sci_diagram.specs.declared.diagram.End.{End};
    ghost use Rattle.sci_blocks.specs.Wiring.{is_at};
    ghost use Rattle.sci_blocks.specs.Ending.{HoldsEnds};

    pub(crate) fn new(alloc: Global) -> FedInputs
        ensures { HoldsEnds result [] }
    {
        FedInputs {
            ends: BTreeSet::new(alloc),
        }
    }

    /// Takes one more input, and says whether it is new.
    pub(crate) fn insert(&mut self, block: i64, port: i64) -> Result<bool, NoMemory>
        ensures fresh { (ends : List End) → HoldsEnds self.old ends → IfOk result (λ fresh. fresh ≡ not (list_any (is_at block port) ends)) }
        ensures more { (ends : List End) (to : End) → to.block ≡ block → to.port ≡ port → HoldsEnds self.old ends
            → OnOk result (HoldsEnds self.new (ends ++ to ∷ [])) }
    {
        let fresh = self.ends.insert((block, port))?;
        Ok(fresh)
    }
}
