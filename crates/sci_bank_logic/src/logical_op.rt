// LOGICAL_OP: an operation on the truths of the inputs, or on each bit of their patterns.
ghost use Rattle.std.specs.Prelude.{refl, ◌≡◌, ◌<◌, ◌≤◌, length, ℕ, ℤ};
ghost use Rattle.sci_base.specs.declared.limits.TheConstants.{PORT_ELEMENTS};
ghost use Rattle.sci_forms.specs.Ports.{total, Fills};
ghost use Rattle.sci_forms.specs.Words.{param, size, out_type};
ghost use Rattle.sci_kinds.specs.Table.{logical, logical_bits, count_to, input, number};
ghost use Rattle.sci_bank.specs.Bank.{IsOfKind};
ghost use Rattle.sci_bank_logic.specs.Joins.{join_of, is_turned, joined, IsJoined};
ghost use Rattle.sci_forms.specs.declared.Kind.TheVariants.{LogicalOp as LogicalOpKind};

use crate::patterns::{digit, number, ones, pattern, truth};
use sci_bank::words::{Words, alike_input, input, out_type, param};
use sci_base::Ty;
use sci_forms::values::is_equal;
use sci_kind_bank::{CellRule, KindBank, Plain};
use sci_kinds::{Cell, Kind};
use sci_span::Entering;

/// One element of the output.
#[derive(Drop)]
pub struct LogicalOpRule;

/// The bank of `LogicalOp` blocks.
pub type LogicalOp = KindBank<Plain<LogicalOpRule>>;

/// How bits are joined: by AND, by OR, or by exclusive OR.
#[derive(Clone, Copy, Drop)]
enum Join {
    And,
    Or,
    Xor,
}

/// Whether an operation is true where `count` of `n` are: AND, OR, NAND, NOR, exclusive OR, NOT by their codes.
fn logical(op: i64, n: usize, count: usize) -> bool
    ensures { result ≡ logical op n count }
{
    match op {
        0 => count == n,
        1 => 0 < count,
        2 => count != n,
        3 => count == 0,
        4 => count % 2 == 1,
        _ => count == 0,
    }
}

/// How many inputs are true at one element.
fn true_inputs(spec: &Words, ins: &Entering, at: usize) -> usize
    requires { size spec.now ≤ PORT_ELEMENTS }
    ensures { result ≡ count_to (λ k. input (size spec.now) ins.now k at) (length spec.now.ins) }
{
    let mut count = 0;
    for k in 0..spec.in_count() {
        count += digit(input(spec, ins, k, at));
    }
    count
}

/// How an operation joins bits.
fn join_of(op: i64) -> Join
    ensures { result ≡ join_of op }
{
    match op {
        0 | 2 => Join::And,
        4 => Join::Xor,
        _ => Join::Or,
    }
}

/// Whether an operation turns over the bits that it has joined.
fn is_turned(op: i64) -> bool
    ensures { result ≡ is_turned op }
{
    match op {
        0 | 1 | 4 => false,
        _ => true,
    }
}

/// Two patterns joined.
fn joined(join: Join, p: u64, q: u64) -> u64
    ensures { result ≡ joined join p q }
{
    match join {
        Join::And => p & q,
        Join::Or => p | q,
        Join::Xor => p ^ q,
    }
}

/// The pattern that joins none.
fn neutral(t: Ty, join: Join) -> u64
    ensures { (f : ℕ → ℤ) → IsJoined t join f 0 result }
{
    match join {
        Join::And => ones(t),
        Join::Or | Join::Xor => 0,
    }
}

/// The patterns of all inputs joined at one element.
fn all_joined(spec: &Words, ins: &Entering, at: usize, join: Join) -> u64
    requires typed { IsOfKind LogicalOpKind spec.now }
    requires ins { Fills spec.now.ins ins.now }
    requires at { at < total spec.now.outs }
    ensures { IsJoined (out_type spec.now) join (λ k. input (size spec.now) ins.now k at) (length spec.now.ins) result }
{
    let t = out_type(spec);
    let mut all = neutral(t, join);
    for k in 0..spec.in_count() {
        all = joined(join, all, pattern(t, alike_input(spec, ins, k, at)));
    }
    all
}

/// The operation at each bit of the inputs' patterns.
fn bitwise(spec: &Words, ins: &Entering, at: usize, op: i64) -> Cell
    requires typed { IsOfKind LogicalOpKind spec.now }
    requires ins { Fills spec.now.ins ins.now }
    requires at { at < total spec.now.outs }
    ensures { result ≡ number (out_type spec.now) (logical_bits (out_type spec.now) op (length spec.now.ins) (λ k. input (size spec.now) ins.now k at)) }
{
    let t = out_type(spec);
    let all = all_joined(spec, ins, at, join_of(op));
    if is_turned(op) {
        number(t, ones(t) - all)
    } else {
        number(t, all)
    }
}

impl CellRule for LogicalOpRule {
    ghost kind = { LogicalOpKind };

    fn rule() -> Self {
        LogicalOpRule
    }

    fn kind(&self) -> Kind {
        Kind::LogicalOp
    }

    #[inline(always)]
    fn cell(&self, spec: &Words, _mask: u64, ins: &Entering, at: usize) -> Cell {
        let op = param(spec, 0);
        if is_equal(param(spec, 1), 0) {
            Cell::Value(truth(logical(op, spec.in_count(), true_inputs(spec, ins, at))))
        } else {
            bitwise(spec, ins, at, op)
        }
    }

    ghost no_state = { λ s. refl };

    ghost no_branch = { refl };

    ghost no_delay = { refl };
}
