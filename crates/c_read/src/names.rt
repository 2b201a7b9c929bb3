// Where the names of a line stand in the text.

ghost use Rattle.std.specs.Prelude.{◌≡◌, ◌+◌, ◌*◌, ◌≤◌, ◌<◌, ◌^◌, ◌∷◌, [], ◌++◌, length, decimal, OnOk, IfOk};
ghost use Rattle.std.specs.Fmt.{signed_decimal};
ghost use Rattle.c_ast.specs.View.{exp_of, place_of, asked_of, told_of};
ghost use Rattle.c_ast.specs.Spelling.{name_text, op_text, op_open, exp_text, place_text, asked_text, told_text, bound_text, line_text};
ghost use Rattle.c_parse.specs.LineBounds.{row_bytes};
ghost use Rattle.c_parse.specs.LineView.{line_of, indented_of};
ghost use Rattle.c_read.specs.Names.{exp_places, next_place, three_places, place_places, asked_places, told_places, bound_places, bound_place};
ghost use Rattle.c_read.specs.Names.{line_places, row_places};

use c_ast::{Ask, Bound, Expr, Name, Op, Target, Tell};
use c_parse::line::{Indented, Item};
use sci_base::NoMemory;

#[tactic(auto, using(crate::proofs::Lengths::digits_exact, crate::proofs::Lengths::digit_exact))]
fn digits(n: u64) -> usize
    ensures value { result ≡ length (decimal n) }
    ensures few { result ≤ 20 }
{
    match n.checked_ilog10() {
        None => 1,
        Some(power) => power as usize + 1,
    }
}

fn number_len(n: i64) -> usize
    ensures value { result ≡ length (signed_decimal n) }
    ensures few { result ≤ 21 }
{
    let len = digits(n.unsigned_abs());
    if n < 0 { len + 1 } else { len }
}

fn name_len(x: Name) -> usize
    ensures value { result ≡ length (name_text x) }
    ensures few { result ≤ 21 }
{
    digits(u64::from(x.number)) + 1
}

fn opening_len(op: Op) -> usize
    ensures value { result ≡ length (op_open op) }
    ensures few { result ≤ 10 }
{
    match op {
        Op::Add | Op::Sub | Op::Mul | Op::Div | Op::Rem => b"(".len(),
        _ => b"(int64_t)(".len(),
    }
}

fn operator_len(op: Op) -> usize
    ensures value { result ≡ length (op_text op) }
    ensures few { result ≤ 4 }
{
    match op {
        Op::Add | Op::Sub | Op::Mul | Op::Div | Op::Rem | Op::Lt | Op::Gt => b" + ".len(),
        Op::Le | Op::Ge | Op::Eq | Op::Ne | Op::And | Op::Or => b" <= ".len(),
    }
}

fn add(list: &mut Vec<usize>, at: usize) -> Result<(), NoMemory>
    ensures { OnOk result (list.new.items ≡ list.old.items ++ at ∷ []) }
{
    list.push(at)?;
    Ok(())
}

/// The names of an expression that begins at this byte, and the byte behind it.
fn expr(list: &mut Vec<usize>, at: usize, e: &Expr) -> Result<usize, NoMemory>
    requires { at + length (exp_text (exp_of e.now)) < 2 ^ 64 }
    ensures places { OnOk result (list.new.items ≡ list.old.items ++ exp_places at (exp_of e.now)) }
    ensures behind { IfOk result (λ n. n ≡ at + length (exp_text (exp_of e.now))) }
{
    match e {
        Expr::Num(n) => Ok(at + b"INT64_C(".len() + number_len(*n) + 1),
        Expr::Var(x) => {
            add(list, at)?;
            Ok(at + name_len(*x))
        }
        Expr::At(x, index) => {
            add(list, at)?;
            let end = expr(list, at + name_len(*x) + 1, index)?;
            Ok(end + 1)
        }
        Expr::Neg(value) => {
            let end = expr(list, at + b"(-".len(), value)?;
            Ok(end + 1)
        }
        Expr::Not(value) => {
            let end = expr(list, at + b"(int64_t)(!".len(), value)?;
            Ok(end + 1)
        }
        Expr::Bin(op, left, right) => {
            let middle = expr(list, at + opening_len(*op), left)?;
            let end = expr(list, middle + operator_len(*op), right)?;
            Ok(end + 1)
        }
    }
}

/// The names of an argument that begins at this byte, and the byte of the next.
fn argument(list: &mut Vec<usize>, at: usize, e: &Expr) -> Result<usize, NoMemory>
    requires { next_place at (exp_of e.now) < 2 ^ 64 }
    ensures places { OnOk result (list.new.items ≡ list.old.items ++ exp_places at (exp_of e.now)) }
    ensures behind { IfOk result (λ n. n ≡ next_place at (exp_of e.now)) }
{
    let end = expr(list, at, e)?;
    Ok(end + b", ".len())
}

fn last(list: &mut Vec<usize>, at: usize, e: &Expr) -> Result<(), NoMemory>
    requires { at + length (exp_text (exp_of e.now)) < 2 ^ 64 }
    ensures { OnOk result (list.new.items ≡ list.old.items ++ exp_places at (exp_of e.now)) }
{
    expr(list, at, e)?;
    Ok(())
}

fn three(list: &mut Vec<usize>, at: usize, a: &Expr, b: &Expr, c: &Expr) -> Result<(), NoMemory>
    requires { next_place (next_place at (exp_of a.now)) (exp_of b.now) + length (exp_text (exp_of c.now)) < 2 ^ 64 }
    ensures { OnOk result (list.new.items ≡ list.old.items ++ three_places at (exp_of a.now) (exp_of b.now) (exp_of c.now)) }
{
    let second = argument(list, at, a)?;
    let third = argument(list, second, b)?;
    last(list, third, c)
}

/// The names of what is assigned, and the byte behind it.
fn target(list: &mut Vec<usize>, at: usize, target: &Target) -> Result<usize, NoMemory>
    requires { at + length (place_text (place_of target.now)) < 2 ^ 64 }
    ensures places { OnOk result (list.new.items ≡ list.old.items ++ place_places at (place_of target.now)) }
    ensures behind { IfOk result (λ n. n ≡ at + length (place_text (place_of target.now))) }
{
    add(list, at)?;
    match target {
        Target::Var(x) => Ok(at + name_len(*x)),
        Target::At(x, index) => {
            let end = expr(list, at + name_len(*x) + 1, index)?;
            Ok(end + 1)
        }
    }
}

fn ask(list: &mut Vec<usize>, at: usize, ask: &Ask) -> Result<(), NoMemory>
    requires { at + length (asked_text (asked_of ask.now)) < 2 ^ 64 }
    ensures { OnOk result (list.new.items ≡ list.old.items ++ asked_places at (asked_of ask.now)) }
{
    match ask {
        Ask::More(column) => last(list, at + b"sci_more(".len(), column),
        Ask::Input(column) => last(list, at + b"sci_input(".len(), column),
        Ask::Until => Ok(()),
        Ask::Limit => Ok(()),
    }
}

fn tell(list: &mut Vec<usize>, at: usize, tell: &Tell) -> Result<(), NoMemory>
    requires { at + length (told_text (told_of tell.now)) < 2 ^ 64 }
    ensures { OnOk result (list.new.items ≡ list.old.items ++ told_places at (told_of tell.now)) }
{
    match tell {
        Tell::Start => Ok(()),
        Tell::Event(a, b, c) => three(list, at + b"sci_event(".len(), a, b, c),
        Tell::Val(a, b, c, d) => {
            let second = argument(list, at + b"sci_val(".len(), a)?;
            three(list, second, b, c, d)
        }
        Tell::End(a) => last(list, at + b"sci_end(".len(), a),
        Tell::Stop(a, b, c) => three(list, at + b"sci_stop(".len(), a, b, c),
    }
}

fn turn(list: &mut Vec<usize>, at: usize, counter: Name, bound: Bound) -> Result<(), NoMemory>
    requires { bound_place at (name_text counter) < 2 ^ 64 }
    ensures { OnOk result (list.new.items ≡ list.old.items ++ (at ∷ bound_places (bound_place at (name_text counter)) bound)) }
{
    add(list, at)?;
    match bound {
        Bound::Num(_) => Ok(()),
        Bound::Var(_) => {
            let name = name_len(counter);
            add(
                list,
                at + name + b" = INT64_C(0); ".len() + name + b" < ".len(),
            )
        }
    }
}

/// The names of a line, which begins at this byte behind its blanks.
fn item(list: &mut Vec<usize>, at: usize, item: &Item) -> Result<(), NoMemory>
    requires { at + length (line_text (line_of item.now)) < 2 ^ 64 }
    ensures { OnOk result (list.new.items ≡ list.old.items ++ line_places at (line_of item.now)) }
{
    match item {
        Item::Scalar(_) => add(list, at + b"static int64_t ".len()),
        Item::Array(_, _) => add(list, at + b"static int64_t ".len()),
        Item::Function(_) => add(list, at + b"static void ".len()),
        Item::Main => add(list, at),
        Item::Set(place, value) => {
            let end = target(list, at, place)?;
            last(list, end + b" = ".len(), value)
        }
        Item::Ask(place, question) => {
            let end = target(list, at, place)?;
            ask(list, end + b" = ".len(), question)
        }
        Item::If(condition) => {
            let end = expr(list, at + b"if (".len(), condition)?;
            add(list, end)
        }
        Item::Else => Ok(()),
        Item::For(counter, bound) => turn(list, at + b"for (".len(), *counter, *bound),
        Item::Call(_) => add(list, at),
        Item::Tell(observation) => tell(list, at, observation),
        Item::Close => add(list, at),
    }
}

/// The names of a line that begins at this byte.
pub fn row(list: &mut Vec<usize>, at: usize, row: &Indented) -> Result<(), NoMemory>
    requires { at + length (row_bytes (indented_of row.now)) < 2 ^ 64 }
    ensures { OnOk result (list.new.items ≡ list.old.items ++ row_places at (indented_of row.now)) }
{
    item(list, at + 2 * row.depth, &row.item)
}
