// The refusals by the rules on whole blocks.
ghost use Rattle.sci_base.specs.Stops.{IsViolation};
ghost use Rattle.sci_flat.specs.Wired.{source_missing, column_shared};

use sci_base::{Place, Rule, Stop};
use sci_forms::Spec;
use std::alloc::Global;

/// Nothing feeds a regular input, which is counted from 0.
pub(crate) fn no_source(alloc: Global, at: &Place, k: u32) -> Stop
    ensures { IsViolation (source_missing at.now.path.items k) result }
{
    Stop::by(
        alloc,
        Rule::NoSource,
        at.path.as_slice(),
        &[i64::from(k) + 1],
    )
}

/// An earlier sensor reads the column of this one.
pub(crate) fn column_twice(alloc: Global, at: &Place, spec: &Spec) -> Stop
    ensures { IsViolation (column_shared at.now.path.items spec.now) result }
{
    Stop::by(
        alloc,
        Rule::ColumnTwice,
        at.path.as_slice(),
        &[spec.params.at(0)],
    )
}
