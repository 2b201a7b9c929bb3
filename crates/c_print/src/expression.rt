// Expressions.

ghost use Rattle.std.specs.Prelude.{◌≡◌, ◌<◌, length};
ghost use Rattle.c_print.specs.Goes.{Goes};
ghost use Rattle.c_ast.specs.View.{exp_of};
ghost use Rattle.c_ast.specs.Spelling.{op_text, op_open, exp_text};

use crate::printer::Printer;
use c_ast::{Expr, Op};
use sci_io::Sink;

fn op_piece(op: Op) -> &'static [u8]
    ensures text { result.now ≡ op_text op }
    ensures some { 0 < length result.now }
{
    match op {
        Op::Add => b" + ",
        Op::Sub => b" - ",
        Op::Mul => b" * ",
        Op::Div => b" / ",
        Op::Rem => b" % ",
        Op::Lt => b" < ",
        Op::Le => b" <= ",
        Op::Gt => b" > ",
        Op::Ge => b" >= ",
        Op::Eq => b" == ",
        Op::Ne => b" != ",
        Op::And => b" && ",
        Op::Or => b" || ",
    }
}

fn op_front(op: Op) -> &'static [u8]
    ensures text { result.now ≡ op_open op }
    ensures some { 0 < length result.now }
{
    match op {
        Op::Add | Op::Sub | Op::Mul | Op::Div | Op::Rem => b"(",
        _ => b"(int64_t)(",
    }
}

impl<S: Sink> Printer<'_, S> {
    pub fn expr(&mut self, e: &Expr)
        ensures { Goes S.state self.old.out self.old.failed self.new.out self.new.failed (exp_text (exp_of e.now)) }
    {
        match e {
            Expr::Num(n) => {
                self.text(b"INT64_C(");
                self.number(*n);
                self.text(b")");
            }
            Expr::Var(x) => self.name(*x),
            Expr::At(x, index) => {
                self.name(*x);
                self.text(b"[");
                self.expr(index);
                self.text(b"]");
            }
            Expr::Neg(a) => {
                self.text(b"(-");
                self.expr(a);
                self.text(b")");
            }
            Expr::Not(a) => {
                self.text(b"(int64_t)(!");
                self.expr(a);
                self.text(b")");
            }
            Expr::Bin(op, a, b) => {
                self.text(op_front(*op));
                self.expr(a);
                self.text(op_piece(*op));
                self.expr(b);
                self.text(b")");
            }
        }
    }
}
