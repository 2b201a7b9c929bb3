// Next states, by what a kind's state is.
ghost use Rattle.std.specs.Prelude.{true, nat_lt, if◌then◌else◌, ◌≡◌, ◌<◌, ◌+◌, ◌^◌, length, IfOk};
ghost use Rattle.c_ast.specs.declared.Op.TheVariants as ops;
ghost use Rattle.sci_forms.specs.Typed.{typed};
ghost use Rattle.sci_forms.specs.Words.{state_len_of};
ghost use Rattle.sci_cgen_blocks.specs.Terms.{constant, input, state, both as both_of, is_looped as is_looped_by_count};
ghost use Rattle.sci_cgen_blocks.specs.Recipes.{natural as natural_of, next_term as next_by_kind, scratch_of as scratch_by_kind};
ghost use Rattle.sci_cgen_blocks.specs.Recipes.{next_alike as alike_by_kind, next_along as along_by_kind};
ghost use Rattle.sci_cgen_blocks.specs.Plain.{term_of};

use crate::kind_recipes::{is_alike, recipe_scratch};
use crate::recipe_parts::{Term, both, natural};
use crate::spec_words::is_looped;
use c_ast::Op;
use sci_base::NoMemory;
use sci_forms::{Memory, Role, Spec};
use std::alloc::Global;

/// How many values the state has.
pub(crate) fn state_len(s: &Spec) -> u32
    requires { state_len_of s.now.kind s.now < 2 ^ 32 }
    ensures { result ≡ state_len_of s.now.kind s.now }
{
    match s.kind.role() {
        Role::State(Memory::Elements) => s.outs.port(0).elements() as u32,
        Role::State(Memory::Moving) => s.state.len() as u32,
        Role::State(Memory::Counter) => 1,
        Role::Values | Role::Delay | Role::Branch | Role::Sensor | Role::Halt => 0,
    }
}

/// How many of the first values of the next state are worked out alike.
pub(crate) fn next_alike(s: &Spec) -> u32
    requires { state_len_of s.now.kind s.now < 2 ^ 32 }
    ensures { result ≡ alike_by_kind s.now.kind s.now }
{
    let all = state_len(s);
    match s.kind.role() {
        Role::State(Memory::Elements) => all,
        Role::State(Memory::Moving) => all.saturating_sub(1),
        Role::State(Memory::Counter) => 0,
        Role::Values | Role::Delay | Role::Branch | Role::Sensor | Role::Halt => 0,
    }
}

/// Whether they are worked out in a loop.
pub fn counts_next(s: &Spec) -> bool
    requires { state_len_of s.now.kind s.now < 2 ^ 32 }
    ensures { result ≡ is_looped_by_count (alike_by_kind s.now.kind s.now) }
{
    2 < next_alike(s)
}

/// The term of those, as the value that is worked out.
pub(crate) fn next_along(s: &Spec) -> Term
    ensures { term_of result ≡ along_by_kind s.now.kind s.now }
{
    match s.kind.role() {
        Role::State(Memory::Moving) => Term::StateBehind,
        Role::State(Memory::Elements) | Role::State(Memory::Counter) => Term::Along(0),
        Role::Values | Role::Delay | Role::Branch | Role::Sensor | Role::Halt => Term::Along(0),
    }
}

/// The next value of a register: that of the value behind it, or the input.
fn moved_up(s: &Spec, i: u32) -> Term
    requires { i < 2 ^ 31 }
    ensures { term_of result ≡ (if nat_lt (i + 1) (length s.now.state) then state (i + 1) else input 0 0) }
{
    if (i as usize) + 1 < s.state.len() {
        Term::State(i + 1)
    } else {
        Term::Input(0, 0)
    }
}

/// One more, from 0 again at the base.
fn counted_on(alloc: Global, base: i64) -> Result<Term, NoMemory>
    ensures { IfOk result (λ t. term_of t ≡ both_of ops.Mul (both_of ops.Lt (both_of ops.Add (state 0) (natural_of 1)) (constant base))
        (both_of ops.Add (state 0) (natural_of 1))) }
{
    let more = both(alloc, Op::Add, Term::State(0), natural(1))?;
    let is_below = both(alloc, Op::Lt, more.copy(alloc)?, Term::Constant(base))?;
    both(alloc, Op::Mul, is_below, more)
}

/// Value `i` of the next state.
pub(crate) fn next_term(alloc: Global, s: &Spec, i: u32) -> Result<Term, NoMemory>
    requires is_typed { typed s.now ≡ true }
    requires small { i < 2 ^ 31 }
    ensures { IfOk result (λ t. term_of t ≡ next_by_kind s.now.kind s.now i) }
{
    match s.kind.role() {
        Role::State(Memory::Elements) => Ok(Term::Input(0, i)),
        Role::State(Memory::Moving) => Ok(moved_up(s, i)),
        Role::State(Memory::Counter) => counted_on(alloc, s.param(0)),
        Role::Values | Role::Delay | Role::Branch | Role::Sensor | Role::Halt => Ok(natural(0)),
    }
}

/// How many scratch numbers the values take: those of the recipe, and one that counts elements in a loop.
pub fn scratch_of(s: &Spec) -> u32
    ensures { result ≡ scratch_by_kind s.now.kind s.now }
{
    let scratch = recipe_scratch(s);
    if !is_alike(s) {
        return scratch;
    }
    if is_looped(&s.outs) {
        scratch + 1
    } else {
        scratch
    }
}
