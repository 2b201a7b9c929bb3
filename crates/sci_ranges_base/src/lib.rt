//! Intervals of whole numbers: what they have in common, what comes of them when they are fitted into a type; what an element of an output may be,
//! and which activation inputs may be activated.
#![tactic(auto)]

ghost use Rattle.sci_ranges_base.specs.Laws.{FittedLaw};

mod cells;
pub mod fitting;
mod interval;
pub mod masks;
mod wide;

pub use cells::Cells;
pub use interval::{Interval, hull_of, join, meet, within};
pub use masks::Masks;
pub use wide::Wide;

/// What a number of an interval is fitted to, or its stop, is one of the cells that the interval is fitted to.
pub fn fitted_law()
    ensures { FittedLaw }
{}
