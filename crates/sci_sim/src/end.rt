// How runs and steps end.
use sci_base::{EndWord, StopWord};

/// How a run ended.
#[derive(Clone, Copy, Drop)]
pub enum RunEnd {
    /// By a halt, by a bound, or since nothing was pending.
    End(EndWord),
    /// By a block that had no value; the word says why.
    Stop(StopWord),
}

/// What a step of a run comes to.
#[derive(Clone, Copy, Drop)]
pub enum Step {
    /// The run goes on.
    More,
    /// The run is over.
    Over(RunEnd),
}
