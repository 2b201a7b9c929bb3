// What goes in with a switch.
use sci_ranges_sums::Followed;

/// What goes into the blocks before a switch of one element.
#[derive(Drop)]
pub struct Choice {
    /// The comparison that it looks at.
    pub compared: Option<Followed>,
    /// The sum that is its first input.
    pub first: Option<Followed>,
    /// The sum that is its third.
    pub third: Option<Followed>,
}
