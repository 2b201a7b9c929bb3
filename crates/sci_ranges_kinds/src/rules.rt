// The rule of each kind.
ghost use Rattle.std.specs.Prelude.{◌≡◌, ◌<◌, ◌+◌, true, [], Some, unwrap_or, pos, nat_eq, if◌then◌else◌};
ghost use Rattle.sci_base.specs.Lists.{spread};
ghost use Rattle.sci_base.specs.Fit.{low, high};
ghost use Rattle.sci_forms.specs.declared.Kind.TheVariants.{LogicalOp as LogicalOpKind, Extractor as ExtractorKind};
ghost use Rattle.sci_forms.specs.Words.{size};
ghost use Rattle.sci_kinds.specs.Table.{state_len};
ghost use Rattle.sci_ranges_base.specs.Intervals.{range_at, both, hull, from_to};
ghost use Rattle.sci_ranges_base.specs.Cells.{nothing, valued};
ghost use Rattle.sci_forms.specs.Ports.{total, type_at};
ghost use Rattle.sci_forms.specs.Typed.{typed};
ghost use Rattle.sci_ranges_rules.specs.Rules.{anything, cells_of, cells, next_range, taking, state_range};

use crate::bitwise::{bit_clear, bit_set, extract_bits, logical_bits, shift};
use crate::choices::{and_log, gated_delay, select, switch2};
use crate::numbers::{abs_value, convert, dead_band, max_min, relational_op, saturation, signum};
use crate::products::product;
use crate::sums::{gain, summation};
use crate::truths::{logic, logical_truths};
use crate::words::{in_type, range_at, state_range};
use sci_base::Ty;
use sci_forms::values::is_equal;
use sci_kinds::{Kind, Ports, Spec};
use sci_ranges_base::{Cells, Interval, Masks};

/// Parameter `e`; one stands for all.
fn constant(spec: &Spec, e: usize) -> i64
    ensures { result ≡ spread spec.now.params e }
{
    if spec.params.len() == 1 {
        spec.params.at(0)
    } else {
        spec.params.at(e)
    }
}

/// The values of an input as they are.
fn handed_on(ins: &[Option<Interval>], e: usize) -> Option<Cells>
    ensures { unwrap_or result nothing ≡ valued (range_at ins.now e) }
{
    Some(Cells::of(range_at(ins, e)?))
}

/// The values of the state as they are.
fn kept(state: &[Interval], e: usize) -> Option<Cells>
    ensures { unwrap_or result nothing ≡ valued (Some (state_range state.now e)) }
{
    Some(Cells::of(state_range(state, e)))
}

/// The element of the input that a parameter names.
fn extractor(spec: &Spec, ins: &[Option<Interval>], e: usize) -> Option<Cells>
    requires kind { spec.now.kind ≡ ExtractorKind }
    requires is_typed { typed spec.now ≡ true }
    requires element { e < size spec.now }
    ensures { unwrap_or result nothing ≡ cells_of ExtractorKind spec.now [] [] ins.now e }
{
    let place = spec.params.at(e).unsigned_abs() as usize - 1;
    handed_on(ins, place)
}

/// An operation on truths, or on bits.
fn logical_op(spec: &Spec, ins: &[Option<Interval>], e: usize) -> Option<Cells>
    requires kind { spec.now.kind ≡ LogicalOpKind }
    requires is_typed { typed spec.now ≡ true }
    requires element { e < size spec.now }
    ensures { unwrap_or result nothing ≡ cells_of LogicalOpKind spec.now [] [] ins.now e }
{
    if is_equal(spec.params.at(1), 0) {
        logical_truths(spec, ins, e)
    } else {
        logical_bits(spec, ins, e)
    }
}

/// What is told of a type where a kind has no rule of its own: all its values, and both stops.
fn anything(ty: Ty) -> Cells
    ensures { result ≡ anything ty }
{
    Cells::or_overflow(Some(Interval::whole(ty))).or_zero(true)
}

/// The type of element `e`, counted through all ports in order.
fn type_at(ports: &Ports, e: usize) -> Ty
    ensures { result ≡ type_at ports.now e }
{
    let mut left = e;
    for k in 0..ports.len() {
        let port = ports.port(k);
        let elements = port.elements();
        if (left as u128) < elements {
            return port.kind_of_type();
        }
        left -= elements as usize;
    }
    Ty::I32
}

/// The cells of element `e`, where there are any.
fn some_cells(
    spec: &Spec,
    state: &[Interval],
    masks: &[Masks],
    ins: &[Option<Interval>],
    e: usize,
) -> Option<Cells>
    requires is_typed { typed spec.now ≡ true }
    requires element { e < total spec.now.outs }
    ensures { unwrap_or result nothing ≡ cells spec.now state.now masks.now ins.now e }
{
    match spec.kind {
        Kind::Const => Some(Cells::of(Interval::one(constant(spec, e)))),
        Kind::Summation => summation(spec, ins, e),
        Kind::GainBlk => gain(spec, ins, e),
        Kind::Product => product(spec, ins, e),
        Kind::AbsValue => abs_value(spec, ins, e),
        Kind::Signum => signum(ins, e),
        Kind::MaxMin => max_min(spec, ins, e),
        Kind::Saturation => saturation(spec, ins, e),
        Kind::DeadBand => dead_band(spec, ins, e),
        Kind::Convert => convert(spec, ins, e),
        Kind::Mux | Kind::Demux | Kind::SampHold => handed_on(ins, e),
        Kind::Extractor => extractor(spec, ins, e),
        Kind::LogicalOp => logical_op(spec, ins, e),
        Kind::RelationalOp => relational_op(spec, ins, e),
        Kind::Shift => shift(spec, ins, e),
        Kind::BitSet => bit_set(spec, ins, e),
        Kind::BitClear => bit_clear(spec, ins, e),
        Kind::ExtractBits => extract_bits(spec, ins, e),
        Kind::Switch2 => switch2(spec, ins, e),
        Kind::Select => select(spec, masks, ins, e),
        Kind::Logic => logic(spec, ins, e),
        Kind::AndLog => and_log(masks),
        Kind::Dollar => kept(state, e),
        Kind::Register | Kind::ModuloCount => kept(state, 0),
        Kind::GatedDelay => gated_delay(spec, state, ins, e),
        Kind::Sensor => handed_on(ins, 0),
        _ => Some(anything(type_at(&spec.outs, e))),
    }
}

/// What element `e` of a block's outputs may be where it acts: from an interval for each value of its state (one stands for all), the activation
/// inputs that may be activated, and an interval for each element of its inputs, one after the other, none where no value was ever there. A
/// SENSOR is given the interval of its column.
pub fn cells(
    spec: &Spec,
    state: &[Interval],
    masks: &[Masks],
    ins: &[Option<Interval>],
    e: usize,
) -> Cells
    requires is_typed { typed spec.now ≡ true }
    requires element { e < total spec.now.outs }
    ensures { result ≡ cells spec.now state.now masks.now ins.now e }
{
    match some_cells(spec, state, masks, ins, e) {
        Some(cells) => cells,
        None => Cells::nothing(),
    }
}

/// The value of the state behind value `i`, or what comes in.
fn moved(state: &[Interval], input: Option<Interval>, i: usize) -> Option<Interval>
    requires { i < 256 }
    ensures { result ≡ both hull (Some (state_range state.now (i + 1))) input }
{
    let input = input?;
    Some(state_range(state, i + 1).hull(input))
}

/// What value `i` of the next state may be; none where it takes an input on which no value was ever there.
pub fn next_range(
    spec: &Spec,
    state: &[Interval],
    ins: &[Option<Interval>],
    i: usize,
) -> Option<Interval>
    requires is_typed { typed spec.now ≡ true }
    requires value { i < state_len spec.now }
    ensures { result ≡ next_range spec.now state.now ins.now i }
{
    match spec.kind {
        Kind::Dollar | Kind::GatedDelay => range_at(ins, i),
        Kind::Register => moved(state, range_at(ins, 0), i),
        Kind::ModuloCount => Some(Interval::new(0, spec.params.at(0) - 1)),
        _ => Some(Interval::one(0)),
    }
}

/// The numbers on which an IFTHEL takes a branch: those above 0 the first, the others the second.
fn taking_side(ty: Ty, port: u32) -> Interval
    ensures { result ≡ (if nat_eq port 1 then from_to (pos 1) (high ty) else from_to (low ty) (pos 0)) }
{
    if port == 1 {
        Interval::new(1, ty.high())
    } else {
        Interval::new(ty.low(), 0)
    }
}

/// The least number on which an ESELECT takes a branch: the first takes those below it too.
fn least_taking(ty: Ty, port: u32) -> i64
    ensures { result ≡ (if nat_eq port 1 then low ty else pos port) }
{
    if port == 1 { ty.low() } else { i64::from(port) }
}

/// The greatest one: the last takes those above it too.
fn greatest_taking(ty: Ty, port: u32, last: u32) -> i64
    ensures { result ≡ (if nat_eq port last then high ty else pos port) }
{
    if port == last {
        ty.high()
    } else {
        i64::from(port)
    }
}

/// The numbers on which an ESELECT of so many branches takes one.
fn taking_place(ty: Ty, port: u32, last: u32) -> Interval
    ensures { result ≡ from_to (if nat_eq port 1 then low ty else pos port) (if nat_eq port last then high ty else pos port) }
{
    Interval::new(least_taking(ty, port), greatest_taking(ty, port, last))
}

/// The numbers of its input's type on which a synchronous block takes its branch `port`, counted from 1.
pub fn taking(spec: &Spec, port: u32) -> Interval
    requires is_typed { typed spec.now ≡ true }
    ensures { result ≡ taking spec.now port }
{
    let ty = in_type(spec);
    match spec.kind {
        Kind::IfThEl => taking_side(ty, port),
        Kind::ESelect => taking_place(ty, port, spec.evtout),
        _ => Interval::whole(ty),
    }
}
