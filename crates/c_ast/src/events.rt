// What the text of a program does with names.

use crate::{Bound, Name};

/// What a name stands for.
#[derive(Clone, Copy)]
pub enum NameKind {
    Scalar,
    Array,
    Function,
}

/// What stands open: a body or a branch of an If, or the turn of a For with its counter and its bound.
#[derive(Clone, Copy)]
pub enum Opened {
    Branch,
    Turn(Name, Bound),
}

/// What the text of a program does with a name, or that a block begins or ends.
#[derive(Clone, Copy)]
pub enum TextEvent {
    /// Declares a scalar, or an array of this size.
    Declare(Name, Option<u32>),
    /// Begins a function.
    Function(Name),
    /// Begins `sci_main`.
    Main,
    /// Reads a scalar, or an element of an array.
    Read(Name, NameKind),
    /// Assigns a scalar, or an element of an array.
    Assign(Name, NameKind),
    /// Begins a For with its counter and its bound, at the first name of its line.
    Loop(Name, Bound),
    Call(Name),
    /// Begins an If.
    If,
    /// Ends the innermost If or For, or the body.
    Close,
}
