// What a run has in memory.

use c_ast::{Name, Stmt};

/// The elements of a variable among those of all: the first, and how many; a scalar has one.
#[derive(Clone, Copy)]
pub struct VariableSpan {
    pub first: usize,
    pub size: usize,
}

/// What is left of an input column.
#[derive(Clone, Copy)]
pub struct ColumnRest<'a> {
    pub left: &'a [i64],
}

/// A function, with the number of its first statement, counted as in `CEnd`.
#[derive(Clone, Copy)]
pub struct Routine<'a> {
    pub name: Name,
    pub first: u64,
    pub body: &'a [Stmt],
}

/// The bounds of a run: its last date, and how many events it may have.
#[derive(Clone, Copy)]
pub struct Limits {
    pub until: i64,
    pub limit: i64,
}

/// How statements were left.
#[derive(Clone, Copy)]
pub enum Flow {
    /// The next statement follows.
    Going,
    /// A statement is undefined: the one that stands so many statements behind the statement that was run, or behind the first of the list
    /// that was run, in the order of the text and through all lists. A count past 2^64 - 1 stands still there.
    Undefined(u64),
    /// A statement of a called function is undefined: the one of this number in the program, counted as in `CEnd`.
    UndefinedInCall(u64),
    /// The run has ended.
    Over,
    /// The run has stopped.
    Halted,
}
