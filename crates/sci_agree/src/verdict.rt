// The verdict on a text.

/// Whether a text is the one that is due, line by line. A line has its line feed.
#[derive(Clone, Copy, Debug, Drop)]
pub enum Verdict {
    /// It is, and has so many lines.
    Yes(u64),
    /// It isn't. The number, counted from 1, of the first line that is missing, too much or wrong.
    No(u64),
}
