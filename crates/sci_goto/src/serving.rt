// Which tag object serves which.

/// What serves an object that takes a tag.
#[derive(Clone, Copy, Drop)]
pub struct Serving {
    /// Position among the tag objects in tree order, from 0, of the one that gives.
    pub giver: usize,
    /// Position among the tag objects in tree order, from 0, of the one that takes.
    pub taker: usize,
}
