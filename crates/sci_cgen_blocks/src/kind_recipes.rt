// Kind by kind: the recipe, the elements of kinds that have no recipe for all of them, delays and branches.
ghost use Rattle.std.specs.Prelude.{ℕ, ◌≤ℤ◌, ◌≡◌, ◌≢◌, ◌<◌, ◌≤◌, ◌-◌, ◌+◌, ◌^◌, true, pos, length, unsigned_abs, IfOk};
ghost use Rattle.sci_forms.specs.Words.{param as param_of};
ghost use Rattle.sci_cgen_blocks.specs.Terms.{input, state_along, both as both_of};
ghost use Rattle.sci_forms.specs.Typed.{typed};
ghost use Rattle.sci_forms.specs.Ports.{total, elements, port_at};
ghost use Rattle.sci_forms.specs.declared.Kind.TheVariants as kinds;
ghost use Rattle.c_ast.specs.declared.Op.TheVariants as ops;
ghost use Rattle.sci_cgen_blocks.specs.Recipes.{natural as natural_of, plain as plain_of, flat_from, recipe_of, part_of, is_alike as is_alike_of, worked_of};
ghost use Rattle.sci_cgen_blocks.specs.Recipes.{at_most as at_most_term, delay_term as delay_by_kind, branch_term as branch_by_kind};
ghost use Rattle.sci_cgen_blocks.specs.Plain.{term_of, plain_recipe};

use crate::arithmetic_kinds::{
    abs_value, convert, dead_band, extreme, gain, product_or_quotient, saturation, signum,
    summation,
};
use crate::bit_kinds::{bit_clear, bit_set, extract_bits, shift};
use crate::logical_kinds::{and_of_both, logical_operation, related};
use crate::recipe_parts::{Recipe, Term, both, natural, plain};
use crate::spec_words::inputs;
use c_ast::Op;
use sci_base::NoMemory;
use sci_forms::values::is_equal;
use sci_forms::{Kind, Ports, Spec};
use std::alloc::Global;

/// Element `e` of all inputs together, of which there are `count`.
#[tactic(auto, using(crate::proofs::KindParts::flat_step))]
fn flat(ports: &Ports, count: u32, e: u32) -> Term
    requires { count ≡ length ports.now }
    ensures { term_of result ≡ flat_from ports.now 0 e }
{
    let mut rest = e;
    for port in 0..count {
        let elements = ports.port(port as usize).elements();
        if u128::from(rest) < elements {
            return Term::Input(port, rest);
        }
        rest -= elements as u32;
    }
    Term::Input(count, rest)
}

/// The element of the state where the second input is positive, else 0.
fn gated(alloc: Global) -> Result<Recipe, NoMemory>
    ensures { IfOk result (λ r. plain_recipe r ≡ plain_of (both_of ops.Mul (both_of ops.Gt (input 1 0) (natural_of 0)) state_along)) }
{
    let is_open = both(alloc, Op::Gt, Term::Input(1, 0), natural(0))?;
    Ok(plain(alloc, both(alloc, Op::Mul, is_open, Term::StateAlong)?))
}

/// The element of the input that parameter `e` names, counted from 1.
fn extracted(s: &Spec, e: u32) -> Term
    requires least { pos 1 ≤ℤ param_of s.now e }
    requires most { unsigned_abs (param_of s.now e) ≤ 2 ^ 20 }
    ensures { term_of result ≡ input 0 (unsigned_abs (param_of s.now e) - 1) }
{
    Term::Input(0, s.param(e as usize).unsigned_abs() as u32 - 1)
}

/// Whether all elements of the outputs are worked out by one recipe, under decisions or not.
pub(crate) fn is_alike(s: &Spec) -> bool
    ensures { result ≡ is_alike_of s.now.kind s.now }
{
    match s.kind {
        Kind::Const => s.params.len() == 1,
        Kind::Mux | Kind::Extractor | Kind::Logic => false,
        Kind::Summation
        | Kind::GainBlk
        | Kind::Product
        | Kind::AbsValue
        | Kind::Signum
        | Kind::MaxMin
        | Kind::Saturation
        | Kind::DeadBand
        | Kind::Convert
        | Kind::Demux
        | Kind::LogicalOp
        | Kind::RelationalOp
        | Kind::Shift
        | Kind::BitSet
        | Kind::BitClear
        | Kind::ExtractBits
        | Kind::Switch2
        | Kind::Select
        | Kind::AndLog
        | Kind::Dollar
        | Kind::SampHold
        | Kind::Register
        | Kind::ModuloCount
        | Kind::GatedDelay
        | Kind::Sensor
        | Kind::EvtDly
        | Kind::EvtVarDly
        | Kind::IfThEl
        | Kind::ESelect
        | Kind::Halt => true,
    }
}

/// How many scratch numbers the recipe takes.
pub(crate) fn recipe_scratch(s: &Spec) -> u32
    ensures value { result ≡ worked_of s.now.kind s.now }
    ensures few { result ≤ 4 }
{
    match s.kind {
        Kind::Summation
        | Kind::GainBlk
        | Kind::Product
        | Kind::AbsValue
        | Kind::MaxMin
        | Kind::Saturation
        | Kind::DeadBand
        | Kind::Convert
        | Kind::Sensor => 1,
        Kind::LogicalOp => if is_equal(s.param(1), 0) || s.ins.len() <= 1 {
            1
        } else {
            3
        },
        Kind::Shift => if is_equal(s.param(1), 0) { 0 } else { 1 },
        Kind::Const
        | Kind::Signum
        | Kind::Mux
        | Kind::Demux
        | Kind::Extractor
        | Kind::RelationalOp
        | Kind::BitSet
        | Kind::BitClear
        | Kind::ExtractBits
        | Kind::Switch2
        | Kind::Select
        | Kind::Logic
        | Kind::AndLog
        | Kind::Dollar
        | Kind::SampHold
        | Kind::Register
        | Kind::ModuloCount
        | Kind::GatedDelay
        | Kind::EvtDly
        | Kind::EvtVarDly
        | Kind::IfThEl
        | Kind::ESelect
        | Kind::Halt => 0,
    }
}

/// Element `e` of the outputs, of a kind that takes a number or an input of its own for each.
pub(crate) fn part(s: &Spec, e: u32) -> Term
    requires is_typed { typed s.now ≡ true }
    requires few { (k : ℕ) → k < length s.now.ins → elements (port_at s.now.ins k) ≤ 2 ^ 20 }
    requires element { e < total s.now.outs }
    ensures { term_of result ≡ part_of s.now.kind s.now e }
{
    match s.kind {
        Kind::Const => Term::Constant(s.param(e as usize)),
        Kind::Mux => flat(&s.ins, inputs(s), e),
        Kind::Extractor => extracted(s, e),
        Kind::Summation
        | Kind::GainBlk
        | Kind::Product
        | Kind::AbsValue
        | Kind::Signum
        | Kind::MaxMin
        | Kind::Saturation
        | Kind::DeadBand
        | Kind::Convert
        | Kind::Demux
        | Kind::LogicalOp
        | Kind::RelationalOp
        | Kind::Shift
        | Kind::BitSet
        | Kind::BitClear
        | Kind::ExtractBits
        | Kind::Switch2
        | Kind::Select
        | Kind::Logic
        | Kind::AndLog
        | Kind::Dollar
        | Kind::SampHold
        | Kind::Register
        | Kind::ModuloCount
        | Kind::GatedDelay
        | Kind::Sensor
        | Kind::EvtDly
        | Kind::EvtVarDly
        | Kind::IfThEl
        | Kind::ESelect
        | Kind::Halt => natural(0),
    }
}

/// How each element of the outputs is worked out, of a kind that does the same to all of them.
#[tactic(auto, using(crate::proofs::KindNames::recipe_by_name))]
pub(crate) fn recipe(alloc: Global, s: &Spec) -> Result<Recipe, NoMemory>
    requires { typed s.now ≡ true }
    ensures { IfOk result (λ r. plain_recipe r ≡ recipe_of s.now.kind s.now) }
{
    match s.kind {
        Kind::Const => Ok(plain(alloc, Term::Constant(s.param(0)))),
        Kind::Summation => summation(alloc, s),
        Kind::GainBlk => gain(alloc, s),
        Kind::Product => product_or_quotient(alloc, s),
        Kind::AbsValue => abs_value(alloc, s),
        Kind::Signum => signum(alloc),
        Kind::MaxMin => extreme(alloc, s),
        Kind::Saturation => saturation(alloc, s),
        Kind::DeadBand => dead_band(alloc, s),
        Kind::Convert => convert(alloc, s),
        Kind::Demux | Kind::SampHold => Ok(plain(alloc, Term::Along(0))),
        Kind::LogicalOp => logical_operation(alloc, s),
        Kind::RelationalOp => related(alloc, s),
        Kind::Shift => shift(alloc, s),
        Kind::BitSet => bit_set(alloc, s),
        Kind::BitClear => bit_clear(alloc, s),
        Kind::ExtractBits => extract_bits(alloc, s),
        Kind::AndLog => and_of_both(alloc),
        Kind::Dollar => Ok(plain(alloc, Term::StateAlong)),
        Kind::Register | Kind::ModuloCount => Ok(plain(alloc, Term::State(0))),
        Kind::GatedDelay => gated(alloc),
        Kind::Mux
        | Kind::Extractor
        | Kind::Switch2
        | Kind::Select
        | Kind::Logic
        | Kind::Sensor
        | Kind::EvtDly
        | Kind::EvtVarDly
        | Kind::IfThEl
        | Kind::ESelect
        | Kind::Halt => Ok(plain(alloc, natural(0))),
    }
}

/// The first element of the first input, but at most the most.
fn at_most(alloc: Global, most: u64) -> Result<Term, NoMemory>
    requires { most < 2 ^ 63 }
    ensures { IfOk result (λ t. term_of t ≡ at_most_term most (input 0 0)) }
{
    let within = both(alloc, Op::Le, Term::Input(0, 0), natural(most))?;
    let kept = both(alloc, Op::Mul, within, Term::Input(0, 0))?;
    let beyond = both(alloc, Op::Gt, Term::Input(0, 0), natural(most))?;
    let cut = both(alloc, Op::Mul, beyond, natural(most))?;
    both(alloc, Op::Add, kept, cut)
}

/// The input as a delay: -1 where it is negative.
fn delay_by_input(alloc: Global) -> Result<Term, NoMemory>
    ensures { IfOk result (λ t. term_of t ≡ both_of ops.Sub (both_of ops.Mul (both_of ops.Ge (input 0 0) (natural_of 0))
        (at_most_term 2147483647 (input 0 0))) (both_of ops.Lt (input 0 0) (natural_of 0))) }
{
    let some = both(alloc, Op::Ge, Term::Input(0, 0), natural(0))?;
    let ticks = both(alloc, Op::Mul, some, at_most(alloc, 2147483647)?)?;
    let none = both(alloc, Op::Lt, Term::Input(0, 0), natural(0))?;
    both(alloc, Op::Sub, ticks, none)
}

/// The delay of an activation output.
pub(crate) fn delay_term(alloc: Global, s: &Spec) -> Result<Term, NoMemory>
    ensures { IfOk result (λ t. term_of t ≡ delay_by_kind s.now.kind s.now) }
{
    match s.kind {
        Kind::EvtDly => Ok(Term::Constant(s.param(0))),
        Kind::EvtVarDly => delay_by_input(alloc),
        Kind::Const
        | Kind::Summation
        | Kind::GainBlk
        | Kind::Product
        | Kind::AbsValue
        | Kind::Signum
        | Kind::MaxMin
        | Kind::Saturation
        | Kind::DeadBand
        | Kind::Convert
        | Kind::Mux
        | Kind::Demux
        | Kind::Extractor
        | Kind::LogicalOp
        | Kind::RelationalOp
        | Kind::Shift
        | Kind::BitSet
        | Kind::BitClear
        | Kind::ExtractBits
        | Kind::Switch2
        | Kind::Select
        | Kind::Logic
        | Kind::AndLog
        | Kind::Dollar
        | Kind::SampHold
        | Kind::Register
        | Kind::ModuloCount
        | Kind::GatedDelay
        | Kind::Sensor
        | Kind::IfThEl
        | Kind::ESelect
        | Kind::Halt => Ok(Term::Constant(-1)),
    }
}

/// The first branch where the input is positive, else the second.
fn branch_by_sign(alloc: Global) -> Result<Term, NoMemory>
    ensures { IfOk result (λ t. term_of t ≡ both_of ops.Sub (natural_of 2) (both_of ops.Gt (input 0 0) (natural_of 0))) }
{
    let is_positive = both(alloc, Op::Gt, Term::Input(0, 0), natural(0))?;
    both(alloc, Op::Sub, natural(2), is_positive)
}

/// The branch of the input's number, brought within 1 to `count`.
fn branch_by_number(alloc: Global, count: u32) -> Result<Term, NoMemory>
    ensures { IfOk result (λ t. term_of t ≡ both_of ops.Add (both_of ops.Mul (both_of ops.Ge (input 0 0) (natural_of 1))
        (at_most_term count (input 0 0))) (both_of ops.Lt (input 0 0) (natural_of 1))) }
{
    let some = both(alloc, Op::Ge, Term::Input(0, 0), natural(1))?;
    let number = both(alloc, Op::Mul, some, at_most(alloc, count as u64)?)?;
    let none = both(alloc, Op::Lt, Term::Input(0, 0), natural(1))?;
    both(alloc, Op::Add, number, none)
}

/// The branch that a synchronous block takes.
pub(crate) fn branch_term(alloc: Global, s: &Spec) -> Result<Term, NoMemory>
    ensures { IfOk result (λ t. term_of t ≡ branch_by_kind s.now.kind s.now) }
{
    match s.kind {
        Kind::IfThEl => branch_by_sign(alloc),
        Kind::ESelect => branch_by_number(alloc, s.evtout),
        Kind::Const
        | Kind::Summation
        | Kind::GainBlk
        | Kind::Product
        | Kind::AbsValue
        | Kind::Signum
        | Kind::MaxMin
        | Kind::Saturation
        | Kind::DeadBand
        | Kind::Convert
        | Kind::Mux
        | Kind::Demux
        | Kind::Extractor
        | Kind::LogicalOp
        | Kind::RelationalOp
        | Kind::Shift
        | Kind::BitSet
        | Kind::BitClear
        | Kind::ExtractBits
        | Kind::Switch2
        | Kind::Select
        | Kind::Logic
        | Kind::AndLog
        | Kind::Dollar
        | Kind::SampHold
        | Kind::Register
        | Kind::ModuloCount
        | Kind::GatedDelay
        | Kind::Sensor
        | Kind::EvtDly
        | Kind::EvtVarDly
        | Kind::Halt => Ok(natural(1)),
    }
}
