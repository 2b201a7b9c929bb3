//! What a spec and the inputs' values say, read by the banks. A read past the end gives 0, as in the table of meanings.
ghost use Rattle.std.specs.Prelude.{◌≡◌, ◌<◌, ◌≤◌, ◌*ℤ◌, length};
ghost use Rattle.sci_base.specs.declared.limits.TheConstants.{PORT_ELEMENTS};
ghost use Rattle.sci_base.specs.Fit.{fit, InRange};
ghost use Rattle.sci_base.specs.Lists.{at};
ghost use Rattle.sci_forms.specs.Ports.{total, Fills};
ghost use Rattle.sci_forms.specs.Words.{param, out_type, size};
ghost use Rattle.sci_kinds.specs.Asks.{IsAlikeSpec};
ghost use Rattle.sci_kinds.specs.Table.{mode_of, fitted, quotient_cell, input};

use sci_base::{Mode, Ty, fit, mul_fit};
use sci_kinds::{Cell, Spec, mode_of};
use sci_span::Entering;
use std::marker::Model;

/// A spec whose first output is small, with what each call asks of it made ready: the type, its ends and the size of the first output, and the
/// mode that parameter 0 names.
#[derive(Drop)]
pub struct Words {
    ty: Ty,
    mode: Mode,
    low: i64,
    high: i64,
    size: usize,
    spec: Spec,
}

impl Model for Words {
    ghost use Rattle.sci_forms.specs.declared.spec.Spec.{Spec};
    ghost use Rattle.sci_bank.specs.Words.{AreWords};

    ghost Value = { Spec };

    ghost view = { λ w. w.spec };

    ghost invariant = { λ w. AreWords w.spec w.ty w.mode w.low w.high w.size };
}

impl Words {
    /// The words of a spec.
    pub fn of(spec: Spec) -> Words
        requires { size spec ≤ PORT_ELEMENTS }
        ensures { result ≡ spec }
    {
        let port = spec.outs.port(0);
        let ty = port.kind_of_type();
        Words {
            ty,
            mode: mode_of(spec.param(0)),
            low: ty.low(),
            high: ty.high(),
            size: port.elements() as usize,
            spec,
        }
    }

    /// How many inputs there are.
    pub fn in_count(&self) -> usize
        ensures { result ≡ length self.now.ins }
    {
        self.spec.ins.len()
    }

    /// How many outputs there are.
    pub fn out_count(&self) -> usize
        ensures { result ≡ length self.now.outs }
    {
        self.spec.outs.len()
    }

    /// How many parameters there are.
    pub fn param_count(&self) -> usize
        ensures { result ≡ length self.now.params }
    {
        self.spec.params.len()
    }

    /// How many values the state has that the spec begins with.
    pub fn state_count(&self) -> usize
        ensures { result ≡ length self.now.state }
    {
        self.spec.state.len()
    }

    /// How many activation inputs there are.
    pub fn evtin(&self) -> u32
        ensures { result ≡ self.now.evtin }
    {
        self.spec.evtin
    }

    /// How many activation outputs there are.
    pub fn evtout(&self) -> u32
        ensures { result ≡ self.now.evtout }
    {
        self.spec.evtout
    }
}

/// The type of the first output.
pub fn out_type(spec: &Words) -> Ty
    ensures { result ≡ out_type spec.now }
{
    spec.ty
}

/// The size of the first output.
pub fn size(spec: &Words) -> usize
    ensures { result ≡ size spec.now }
{
    spec.size
}

/// The mode that parameter 0 names.
pub fn mode(spec: &Words) -> Mode
    ensures { result ≡ mode_of (param spec.now 0) }
{
    spec.mode
}

/// Parameter `k`, counted from 0.
pub fn param(spec: &Words, k: usize) -> i64
    ensures { result ≡ param spec.now k }
{
    spec.spec.param(k)
}

/// Element `e` of all the inputs' values.
#[inline(always)]
pub fn element(ins: &Entering, e: usize) -> i64
    ensures { result ≡ at ins.now e }
{
    ins.at(e)
}

/// Element `e` of input `k`, of a block whose ports all have the size of the first output.
#[inline(always)]
pub fn input(spec: &Words, ins: &Entering, k: usize, e: usize) -> i64
    ensures { result ≡ input (size spec.now) ins.now k e }
{
    let place = k as u128 * spec.size as u128 + e as u128;
    if place < ins.len() as u128 {
        ins.get(place as usize)
    } else {
        0
    }
}

/// The same, and its range, of a block whose ports all have the type and the size of the first output.
pub fn alike_input(spec: &Words, ins: &Entering, k: usize, e: usize) -> i64
    requires small { size spec.now ≤ PORT_ELEMENTS }
    requires alike { IsAlikeSpec spec.now }
    requires filled { Fills spec.now.ins ins.now }
    requires port { k < length spec.now.ins }
    requires element { e < total spec.now.outs }
    ensures value { result ≡ input (size spec.now) ins.now k e }
    ensures in_range { InRange (out_type spec.now) result }
{
    input(spec, ins, k, e)
}

/// Element `e` of the only input, and its range, of a block whose ports have one type and one size.
pub fn only_input(spec: &Words, ins: &Entering, e: usize) -> i64
    requires alike { IsAlikeSpec spec.now }
    requires filled { Fills spec.now.ins ins.now }
    requires only { length spec.now.ins ≡ 1 }
    requires element { e < total spec.now.outs }
    ensures value { result ≡ at ins.now e }
    ensures in_range { InRange (out_type spec.now) result }
{
    element(ins, e)
}

/// A fitted number as a cell.
pub fn cell_of(v: Option<i64>) -> Cell
    ensures { result ≡ fitted v }
{
    match v {
        Some(v) => Cell::Value(v),
        None => Cell::Overflow,
    }
}

/// A number as a cell, fitted as parameter 0 says. Most numbers are in range, and then the mode need not be read.
#[inline(always)]
pub fn fitted_cell(spec: &Words, v: i64) -> Cell
    ensures { result ≡ fitted (fit (out_type spec.now) (mode_of (param spec.now 0)) v) }
{
    if spec.low <= v && v <= spec.high {
        return Cell::Value(v);
    }
    cell_of(fit(spec.ty, spec.mode, v))
}

/// The product of two numbers of the first output's type, fitted as parameter 0 says. Most products fit into 64 bits.
#[inline(always)]
pub fn product_cell(spec: &Words, a: i64, b: i64) -> Cell
    requires a { InRange (out_type spec.now) a }
    requires b { InRange (out_type spec.now) b }
    ensures { result ≡ fitted (fit (out_type spec.now) (mode_of (param spec.now 0)) (a *ℤ b)) }
{
    match a.checked_mul(b) {
        Some(v) => fitted_cell(spec, v),
        None => cell_of(mul_fit(spec.ty, spec.mode, a, b)),
    }
}

/// The fitted quotient of two numbers of a type, rounded toward zero.
pub fn div_cell(t: Ty, m: Mode, a: i64, b: i64) -> Cell
    requires a { InRange t a }
    requires b { InRange t b }
    ensures { result ≡ quotient_cell t m a b }
{
    if b == 0 {
        return Cell::Zero;
    }
    cell_of(fit(t, m, a / b))
}
