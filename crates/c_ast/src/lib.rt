//! The syntax of a small subset of C99: programs over `int64_t` variables and arrays, functions without parameters, and the calls
//! by which a program asks for inputs and tells observations.
//!
//! What a program is spelled as stands in `specs/Spelling.antt`, which programs are in the subset in `specs/Bounds.antt`, and their static rules in
//! `specs/Rules.antt`.
#![tactic(auto)]

pub mod events;

/// A letter from `a` to `z` and a number, as `v12`.
#[derive(Clone, Copy, PartialEq, Eq, Hash)]
pub struct Name {
    pub letter: u8,
    pub number: u32,
}

/// An operator with two sides.
#[derive(Clone, Copy)]
pub enum Op {
    Add,
    Sub,
    Mul,
    Div,
    Rem,
    Lt,
    Le,
    Gt,
    Ge,
    Eq,
    Ne,
    And,
    Or,
}

/// An expression of type `int64_t`.
#[derive(Drop)]
pub enum Expr {
    /// A number from 0 to 2^63 - 1.
    Num(i64),
    Var(Name),
    /// An element of an array, by its index from 0.
    At(Name, Box<Expr>),
    Neg(Box<Expr>),
    Not(Box<Expr>),
    Bin(Op, Box<Expr>, Box<Expr>),
}

/// What is assigned.
#[derive(Drop)]
pub enum Target {
    Var(Name),
    At(Name, Expr),
}

/// A question to the surroundings, whose answer is assigned.
#[derive(Drop)]
pub enum Ask {
    /// Whether a column of the inputs has a value left.
    More(Expr),
    /// The next value of a column of the inputs.
    Input(Expr),
    /// The last date of the run.
    Until,
    /// How many events the run may have.
    Limit,
}

/// An observation, or the end of the run.
#[derive(Drop)]
pub enum Tell {
    Start,
    Event(Expr, Expr, Expr),
    Val(Expr, Expr, Expr, Expr),
    End(Expr),
    Stop(Expr, Expr, Expr),
}

/// What a loop's counter stays below.
#[derive(Clone, Copy)]
pub enum Bound {
    Num(i64),
    Var(Name),
}

/// A statement.
#[derive(Drop)]
pub enum Stmt {
    Set(Target, Expr),
    Ask(Target, Ask),
    If(Expr, Vec<Stmt>, Vec<Stmt>),
    /// A counter that goes from 0 up to the bound, and the body of a turn.
    For(Name, Bound, Vec<Stmt>),
    Call(Name),
    Tell(Tell),
}

/// The declaration of a scalar, or of an array with its size.
#[derive(Drop)]
pub struct Decl {
    pub name: Name,
    pub size: Option<u32>,
}

/// A function without parameters and without a value.
#[derive(Drop)]
pub struct Func {
    pub name: Name,
    pub body: Vec<Stmt>,
}

/// Declarations, functions, and the body of `sci_main`.
#[derive(Drop)]
pub struct Program {
    pub decls: Vec<Decl>,
    pub funcs: Vec<Func>,
    pub main: Vec<Stmt>,
}
