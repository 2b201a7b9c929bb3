//! The tests of a block's parameters and state, each by one column of the table of forms.
ghost use Rattle.std.specs.Prelude.{◌≡◌, ◌<◌, ◌≤◌, ◌^◌, ◌*◌, ◌⊎◌, length, ℕ, Bool, IfSome, IfOk, true, not, ◌||◌};
ghost use Rattle.sci_base.specs.Lists.{at, truth_at};
ghost use Rattle.sci_base.specs.Fit.{int_eq};
ghost use Rattle.sci_forms.specs.declared.Kind.TheVariants.{Logic as LogicKind, ModuloCount as CountKind};
ghost use Rattle.sci_forms.specs.declared.form.Param.{Param};
ghost use Rattle.sci_forms.specs.declared.form.Param.TheVariants.{High, LastBit};
ghost use Rattle.sci_forms.specs.Forms.{by_place, is_param, between, is_sign, is_operation, params_len_ok, param_ok, state_len_ok, state_ok, within};
ghost use Rattle.sci_forms.specs.Forms.{first_not, fed, unfed, own_feed};

use crate::Kind;
use crate::form::{Memory, Param, ParamCount, Params, Role};
use crate::search::first_failing;
use sci_base::{NoMemory, Truths};
use std::alloc::Global;

pub fn between(low: i64, high: i64, v: i64) -> bool
    ensures { result ≡ between low high v }
{
    low <= v && v <= high
}

pub fn within(least: usize, most: usize, n: usize) -> bool
    ensures { result ≡ within least most n }
{
    least <= n && n <= most
}

fn is_sign(v: i64) -> bool
    ensures { result ≡ is_sign v }
{
    is_equal(v, 1) || is_equal(v, -1)
}

pub fn is_equal(v: i64, w: i64) -> bool
    ensures { result ≡ int_eq v w }
{
    v <= w && w <= v
}

fn is_operation(n: usize, v: i64) -> bool
    ensures { result ≡ is_operation n v }
{
    if n == 1 {
        is_equal(v, 5)
    } else {
        between(0, 4, v)
    }
}

fn two_to(n: usize) -> usize
    requires { n ≤ 8 }
    ensures { result ≡ 2 ^ n }
{
    match n {
        0 => 1,
        1 => 2,
        2 => 4,
        3 => 8,
        4 => 16,
        5 => 32,
        6 => 64,
        7 => 128,
        _ => 256,
    }
}

fn table_len(n: usize, m: usize) -> usize
    requires ins { n ≤ 8 }
    requires outs { m ≤ 8 }
    ensures { result ≡ 2 ^ n * m }
{
    two_to(n) * m
}

/// The number of parameters.
pub fn params_len_ok(kind: Kind, n: usize, m: usize, len: usize) -> bool
    requires few { n < 2 ^ 32 }
    requires ins { kind ≡ LogicKind → n ≤ 8 }
    requires outs { kind ≡ LogicKind → m ≤ 8 }
    ensures { result ≡ params_len_ok kind n m len }
{
    match kind.form().params.count {
        ParamCount::Exactly(k) => len == k,
        ParamCount::PerElement => 1 <= len,
        ParamCount::PerRow => 1 <= len && len <= 256,
        ParamCount::BehindOne => len == n + 1,
        ParamCount::Truths => len == table_len(n, m),
    }
}

/// What parameter `k` is.
pub(crate) fn param_at(params: Params, k: usize) -> Param
    ensures { (f : Param → Bool) → f result ≡ by_place f params k }
{
    match k {
        0 => params.first,
        1 => params.second,
        _ => params.third,
    }
}

/// Whether number `k` is such a parameter.
fn is_param(param: Param, n: usize, ps: &[i64], k: usize) -> bool
    requires at { k < length ps.now }
    requires before { (param ≡ High) ⊎ (param ≡ LastBit) → 0 < k }
    ensures { result ≡ is_param n ps.now k param }
{
    let v = ps[k];
    match param {
        Param::Any | Param::Value => true,
        Param::Between(low, high) => between(low, high, v),
        Param::Mode => between(0, 2, v),
        Param::Sign => is_sign(v),
        Param::Flag => between(0, 1, v),
        Param::High => ps[k - 1] <= v,
        Param::Element => 1 <= v,
        Param::Operation => is_operation(n, v),
        Param::Places => between(-31, 31, v),
        Param::Bit => between(0, 31, v),
        Param::LastBit => between(0, 31, v) && ps[k - 1] <= v,
        Param::Base => between(1, 2147483647, v),
    }
}

/// Parameter `k`.
pub fn param_ok(kind: Kind, n: usize, ps: &[i64], k: usize) -> bool
    requires { k < length ps.now }
    ensures { result ≡ param_ok kind n ps.now k }
{
    is_param(param_at(kind.form().params, k), n, ps, k)
}

/// The number of values of the state.
pub fn state_len_ok(kind: Kind, len: usize) -> bool
    ensures { result ≡ state_len_ok kind len }
{
    match kind.role() {
        Role::State(Memory::Elements) => 1 <= len,
        Role::State(Memory::Moving) => 1 <= len && len <= 256,
        Role::State(Memory::Counter) => len == 1,
        Role::Values | Role::Delay | Role::Branch | Role::Sensor | Role::Halt => true,
    }
}

/// Value `k` of the state.
pub fn state_ok(kind: Kind, ps: &[i64], xs: &[i64], k: usize) -> bool
    requires at { k < length xs.now }
    requires base { kind ≡ CountKind → 0 < length ps.now }
    ensures { result ≡ state_ok kind ps.now xs.now k }
{
    match kind.role() {
        Role::State(Memory::Counter) => 0 <= xs[k] && xs[k] < ps[0],
        Role::State(Memory::Elements) | Role::State(Memory::Moving) => true,
        Role::Values | Role::Delay | Role::Branch | Role::Sensor | Role::Halt => true,
    }
}

/// The first parameter that isn't as it should be.
pub fn first_param(kind: Kind, n: usize, ps: &[i64]) -> Option<usize>
    ensures first { result ≡ first_not (param_ok kind n ps.now) (length ps.now) }
    ensures within { IfSome result (λ k. k < length ps.now) }
{
    first_failing(ps.len(), |k| param_ok(kind, n, ps, k))
}

/// The first value of the state that isn't as it should be.
pub fn first_state(kind: Kind, ps: &[i64], xs: &[i64]) -> Option<usize>
    requires { kind ≡ CountKind → 0 < length ps.now }
    ensures first { result ≡ first_not (state_ok kind ps.now xs.now) (length xs.now) }
    ensures within { IfSome result (λ k. k < length xs.now) }
{
    first_failing(xs.len(), |k| state_ok(kind, ps, xs, k))
}

/// Of each of `n` inputs whether it has feedthrough by the kind.
#[tactic(auto, using(crate::proofs::Feeds::one_more_feed))]
pub fn own_feed(alloc: Global, kind: Kind, n: usize) -> Result<Truths, NoMemory>
    requires { n < 2 ^ 63 }
    ensures { IfOk result (λ r. r ≡ own_feed kind n) }
{
    let mut truths = Truths::of(Vec::new(alloc));
    for k in 0..n {
        truths.push(kind.feeds_at(k + 1))?;
    }
    Ok(truths)
}

/// The first of `n` inputs, counted from 0, that has feedthrough by the kind.
pub fn first_fed(kind: Kind, n: usize) -> Option<usize>
    requires { n < 2 ^ 63 }
    ensures first { result ≡ first_not (unfed kind) n }
    ensures within { IfSome result (λ k. k < n) }
{
    first_failing(n, |k| !kind.feeds_at(k + 1))
}

fn truth_at(truths: &[bool], k: usize) -> bool
    ensures { result ≡ truth_at truths.now k }
{
    if k < truths.len() { truths[k] } else { false }
}

/// The first of `n` inputs, counted from 0, that has feedthrough by the kind and none by these truths.
pub fn first_unfed(kind: Kind, truths: &[bool], n: usize) -> Option<usize>
    requires { n < 2 ^ 63 }
    ensures first { result ≡ first_not (fed kind truths.now) n }
    ensures within { IfSome result (λ k. k < n) }
{
    first_failing(n, |k| truth_at(truths, k) || !kind.feeds_at(k + 1))
}
