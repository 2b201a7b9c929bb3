// Values of expressions.

ghost use Rattle.std.specs.Prelude.{◌≡◌, ◌<◌, IfSome, Some, None, length, map, if◌then◌else◌};
ghost use Rattle.c_ast.specs.View.{exp_of, declared_of};
ghost use Rattle.c_mean.specs.Meaning.{lookup, store, evaluate, strict};
ghost use Rattle.c_run.specs.Layout.{slots};
ghost use Rattle.c_run.specs.Spans.{element_at};

use crate::memory::Memory;
use c_ast::{Expr, Name, Op};

/// Where the element of this index stands among all elements, if the variable has such.
fn place(memory: &Memory<'_>, name: Name, index: usize) -> Option<usize>
    ensures value { result ≡ element_at (length memory.now.cells.items) (map declared_of memory.now.decls.now) name index }
    ensures within { IfSome result (λ k. k < length memory.now.cells.items) }
{
    let span = memory.names.look(&memory.spans, name)?;
    if index >= span.size {
        return None;
    }
    let k = span.first.checked_add(index)?;
    if k < memory.cells.len() {
        Some(k)
    } else {
        None
    }
}

/// The value of a variable's element; a scalar's has index 0. None where the name is not declared, or has no element of this index.
pub fn look(memory: &Memory<'_>, name: Name, index: usize) -> Option<i64>
    ensures { result ≡ lookup (slots memory.now) name index }
{
    match place(memory, name, index) {
        None => None,
        Some(k) => Some(memory.cells[k]),
    }
}

/// Gives a variable's element this value. False where the name is not declared, or has no element of this index.
pub fn put(memory: &mut Memory<'_>, name: Name, index: usize, value: i64) -> bool
    ensures { (if result then Some (slots memory.new) else None) ≡ store (slots memory.old) name index value }
{
    match place(memory, name, index) {
        None => false,
        Some(k) => {
            memory.cells[k] = value;
            true
        }
    }
}

fn strict_op(op: Op, a: i64, b: i64) -> Option<i64>
    ensures { result ≡ strict op a b }
{
    match op {
        Op::Add => a.checked_add(b),
        Op::Sub => a.checked_sub(b),
        Op::Mul => a.checked_mul(b),
        Op::Div => a.checked_div(b),
        Op::Rem => a.checked_rem(b),
        Op::Lt => Some(i64::from(a < b)),
        Op::Le => Some(i64::from(a <= b)),
        Op::Gt => Some(i64::from(a > b)),
        Op::Ge => Some(i64::from(a >= b)),
        Op::Eq => Some(i64::from(a == b)),
        Op::Ne => Some(i64::from(a != b)),
        Op::And => Some(i64::from(a != 0 && b != 0)),
        Op::Or => Some(i64::from(a != 0 || b != 0)),
    }
}

/// The value of an expression. None where it is undefined: where a name is not declared, an index is outside its array, a divisor is 0, or a
/// value is outside the range of `int64_t`.
pub fn eval(memory: &Memory<'_>, expression: &Expr) -> Option<i64>
    ensures { result ≡ evaluate (exp_of expression.now) (slots memory.now) }
{
    match expression {
        Expr::Num(value) => Some(*value),
        Expr::Var(name) => look(memory, *name, 0),
        Expr::At(name, place) => {
            let index = eval(memory, place)?;
            if index < 0 {
                None
            } else {
                look(memory, *name, index as usize)
            }
        }
        Expr::Neg(a) => eval(memory, a)?.checked_neg(),
        Expr::Not(a) => Some(i64::from(eval(memory, a)? == 0)),
        Expr::Bin(op, a, b) => {
            let left = eval(memory, a)?;
            match op {
                Op::And if left == 0 => return Some(0),
                Op::Or if left != 0 => return Some(1),
                _ => {}
            }
            let right = eval(memory, b)?;
            strict_op(*op, left, right)
        }
    }
}
