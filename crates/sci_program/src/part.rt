// How a block takes part in a text.
use sci_net::Feed;

/// How a block takes part in a source's reaction: where its function is called, and in what follows.
#[derive(Clone, Copy, Drop)]
pub enum Part {
    /// The source never activates it.
    Absent,
    /// The source always activates it.
    Sure,
    /// It takes part where it is marked as active.
    Marked,
    /// It takes part where a synchronous block has taken this activation output as its branch. No mark is needed.
    Taken(Feed),
}
