// What is observed of a run.

/// Why a run ended.
#[derive(Clone, Copy, Drop)]
pub enum EndWord {
    /// A halt block was active.
    Halt,
    /// The bound on events is reached.
    Events,
    /// No event is pending.
    Empty,
    /// The next event is later than the bound on time.
    Until,
}

/// Why a run stopped before its end.
#[derive(Clone, Copy, Drop)]
pub enum StopWord {
    /// A value is out of its type's range.
    Overflow,
    /// A divisor is 0.
    Zero,
    /// A sensor's column has no further value.
    Input,
    /// A port whose event is pending programs another.
    Conflict,
}

/// One observation of a run, a line of its trace. Dates are in ticks; blocks, ports and elements are counted from 1.
#[derive(Clone, Copy, Drop)]
pub enum Obs {
    /// The reaction of start.
    Start,
    /// The reaction of an activation output: date, block, port.
    Event(i64, i64, i64),
    /// A value of an active block's output: block, port, element, value.
    Val(i64, i64, i64, i64),
    /// The end of the run.
    End(EndWord),
    /// A stop at a block, and for a conflict at its port.
    Stop(StopWord, i64, i64),
}
