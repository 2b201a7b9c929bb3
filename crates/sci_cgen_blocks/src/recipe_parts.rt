// How values are worked out: terms, and steps that change scratch numbers or stop.
ghost use Rattle.std.specs.Prelude.{◌≡◌, ◌<◌, ◌^◌, pos, IfOk};
ghost use Rattle.sci_cgen_blocks.specs.Terms.{constant, scratch, both, assign, assign_if, change, stop_if};
ghost use Rattle.sci_cgen_blocks.specs.Recipes.{natural, result as first_scratch, set as sets, set_if as sets_if, plain as plainly, worked_out};
ghost use Rattle.sci_cgen_blocks.specs.Plain.{term_of, work_of, step_of, works_of, steps_of, plain_recipe};

use c_ast::Op;
use sci_base::NoMemory;
use std::alloc::Global;

/// What is worked out from a block's inputs, state and mask and from scratch numbers, all counted from 0 but the scratch numbers.
#[derive(Drop)]
pub(crate) enum Term {
    Constant(i64),
    /// An element of an input: the input, and the element.
    Input(u32, u32),
    /// The element of an input that is worked out.
    Along(u32),
    /// A value of the state.
    State(u32),
    /// The value of the state that belongs to the element that is worked out.
    StateAlong,
    /// The one behind it.
    StateBehind,
    Mask,
    /// A scratch number, counted from 1.
    Scratch(u32),
    Both(Op, Box<Term>, Box<Term>),
}

/// Which element a text is written for.
#[derive(Clone, Copy)]
pub(crate) enum Which {
    /// The one of this number, counted from 0.
    Fixed(u32),
    /// The one that a scratch number counts.
    CountedBy(u32),
}

/// A change of a scratch number.
#[derive(Drop)]
pub(crate) enum Work {
    /// It becomes the term's value.
    Assign(u32, Term),
    /// It does so where a test isn't 0.
    AssignIf(Term, u32, Term),
}

/// Why a step stops the run.
#[derive(Clone, Copy)]
pub(crate) enum Cause {
    Overflow,
    Zero,
}

#[derive(Drop)]
pub(crate) enum Step {
    Change(Work),
    /// The run stops where a test isn't 0.
    StopIf(Term, Cause),
    /// Changes made so many times, while a scratch number goes up from 0.
    Repeat(u32, u32, Vec<Work>),
}

/// Steps, and the value behind them.
#[derive(Drop)]
pub(crate) struct Recipe {
    pub steps: Vec<Step>,
    pub value: Term,
}

impl Term {
    pub fn copy(&self, alloc: Global) -> Result<Term, NoMemory>
        ensures { IfOk result (λ t. term_of t ≡ term_of self.now) }
    {
        match self {
            Term::Constant(z) => Ok(Term::Constant(*z)),
            Term::Input(port, element) => Ok(Term::Input(*port, *element)),
            Term::Along(port) => Ok(Term::Along(*port)),
            Term::State(at) => Ok(Term::State(*at)),
            Term::StateAlong => Ok(Term::StateAlong),
            Term::StateBehind => Ok(Term::StateBehind),
            Term::Mask => Ok(Term::Mask),
            Term::Scratch(n) => Ok(Term::Scratch(*n)),
            Term::Both(op, a, b) => both(alloc, *op, a.copy(alloc)?, b.copy(alloc)?),
        }
    }
}

pub(crate) fn both(alloc: Global, op: Op, a: Term, b: Term) -> Result<Term, NoMemory>
    ensures { IfOk result (λ t. term_of t ≡ both op (term_of a) (term_of b)) }
{
    Ok(Term::Both(op, Box::new(alloc, a)?, Box::new(alloc, b)?))
}

pub(crate) fn natural(n: u64) -> Term
    requires { n < 2 ^ 63 }
    ensures { term_of result ≡ natural n }
{
    Term::Constant(n as i64)
}

/// The first scratch number, in which a value is worked out.
pub(crate) fn worked() -> Term
    ensures { term_of result ≡ first_scratch }
{
    Term::Scratch(1)
}

pub(crate) fn set(t: Term) -> Step
    ensures { step_of result ≡ sets (term_of t) }
{
    Step::Change(Work::Assign(1, t))
}

pub(crate) fn set_if(test: Term, t: Term) -> Step
    ensures { step_of result ≡ sets_if (term_of test) (term_of t) }
{
    Step::Change(Work::AssignIf(test, 1, t))
}

pub(crate) fn plain(alloc: Global, value: Term) -> Recipe
    ensures { plain_recipe result ≡ plainly (term_of value) }
{
    Recipe {
        steps: Vec::new(alloc),
        value,
    }
}

pub(crate) fn worked_out(steps: Vec<Step>) -> Recipe
    ensures { plain_recipe result ≡ worked_out (steps_of steps.items) }
{
    Recipe {
        steps,
        value: worked(),
    }
}
