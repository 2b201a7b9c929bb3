// Lines, one for each kind of statement.

ghost use Rattle.std.specs.Prelude.{◌≡◌, ◌<◌, ◌*◌, length, replicate};
ghost use Rattle.c_print.specs.Goes.{Goes};
ghost use Rattle.c_ast.specs.View.{exp_of, place_of, asked_of, told_of};
ghost use Rattle.c_ast.specs.Spelling.{place_text, asked_text, told_text, bound_text, row_text, row_of, set_line, ask_line, if_line, else_line, for_line};
ghost use Rattle.c_ast.specs.Spelling.{call_line, tell_line, close_line};

use crate::printer::Printer;
use c_ast::{Ask, Bound, Expr, Name, Target, Tell};
use sci_io::Sink;

impl<S: Sink> Printer<'_, S> {
    fn blanks(&mut self, depth: u8)
        ensures { Goes S.state self.old.out self.old.failed self.new.out self.new.failed (replicate (2 * depth) 32) }
    {
        for _ in 0..depth {
            self.text(b"  ");
        }
    }

    fn target(&mut self, target: &Target)
        ensures { Goes S.state self.old.out self.old.failed self.new.out self.new.failed (place_text (place_of target.now)) }
    {
        match target {
            Target::Var(x) => self.name(*x),
            Target::At(x, index) => {
                self.name(*x);
                self.text(b"[");
                self.expr(index);
                self.text(b"]");
            }
        }
    }

    fn ask(&mut self, ask: &Ask)
        ensures { Goes S.state self.old.out self.old.failed self.new.out self.new.failed (asked_text (asked_of ask.now)) }
    {
        match ask {
            Ask::More(column) => {
                self.text(b"sci_more(");
                self.expr(column);
                self.text(b")");
            }
            Ask::Input(column) => {
                self.text(b"sci_input(");
                self.expr(column);
                self.text(b")");
            }
            Ask::Until => self.text(b"sci_until()"),
            Ask::Limit => self.text(b"sci_limit()"),
        }
    }

    fn tell(&mut self, tell: &Tell)
        ensures { Goes S.state self.old.out self.old.failed self.new.out self.new.failed (told_text (told_of tell.now)) }
    {
        match tell {
            Tell::Start => self.text(b"sci_start()"),
            Tell::Event(a, b, c) => {
                self.text(b"sci_event(");
                self.expr(a);
                self.text(b", ");
                self.expr(b);
                self.text(b", ");
                self.expr(c);
                self.text(b")");
            }
            Tell::Val(a, b, c, d) => {
                self.text(b"sci_val(");
                self.expr(a);
                self.text(b", ");
                self.expr(b);
                self.text(b", ");
                self.expr(c);
                self.text(b", ");
                self.expr(d);
                self.text(b")");
            }
            Tell::End(a) => {
                self.text(b"sci_end(");
                self.expr(a);
                self.text(b")");
            }
            Tell::Stop(a, b, c) => {
                self.text(b"sci_stop(");
                self.expr(a);
                self.text(b", ");
                self.expr(b);
                self.text(b", ");
                self.expr(c);
                self.text(b")");
            }
        }
    }

    fn bound(&mut self, bound: &Bound)
        ensures { Goes S.state self.old.out self.old.failed self.new.out self.new.failed (bound_text bound.now) }
    {
        match bound {
            Bound::Num(n) => {
                self.text(b"INT64_C(");
                self.number(*n);
                self.text(b")");
            }
            Bound::Var(x) => self.name(*x),
        }
    }

    pub fn set_row(&mut self, depth: u8, target: &Target, e: &Expr)
        ensures { Goes S.state self.old.out self.old.failed self.new.out self.new.failed
            (row_text (row_of depth (set_line (place_of target.now) (exp_of e.now)))) }
    {
        self.blanks(depth);
        self.target(target);
        self.text(b" = ");
        self.expr(e);
        self.text(b";\n");
    }

    pub fn ask_row(&mut self, depth: u8, target: &Target, ask: &Ask)
        ensures { Goes S.state self.old.out self.old.failed self.new.out self.new.failed
            (row_text (row_of depth (ask_line (place_of target.now) (asked_of ask.now)))) }
    {
        self.blanks(depth);
        self.target(target);
        self.text(b" = ");
        self.ask(ask);
        self.text(b";\n");
    }

    pub fn if_row(&mut self, depth: u8, e: &Expr)
        ensures { Goes S.state self.old.out self.old.failed self.new.out self.new.failed (row_text (row_of depth (if_line (exp_of e.now)))) }
    {
        self.blanks(depth);
        self.text(b"if (");
        self.expr(e);
        self.text(b") {\n");
    }

    pub fn else_row(&mut self, depth: u8)
        ensures { Goes S.state self.old.out self.old.failed self.new.out self.new.failed (row_text (row_of depth else_line)) }
    {
        self.blanks(depth);
        self.text(b"} else {\n");
    }

    pub fn for_row(&mut self, depth: u8, counter: Name, bound: &Bound)
        ensures { Goes S.state self.old.out self.old.failed self.new.out self.new.failed (row_text (row_of depth (for_line counter bound.now))) }
    {
        self.blanks(depth);
        self.text(b"for (");
        self.name(counter);
        self.text(b" = INT64_C(0); ");
        self.name(counter);
        self.text(b" < ");
        self.bound(bound);
        self.text(b"; ");
        self.name(counter);
        self.text(b" = ");
        self.name(counter);
        self.text(b" + INT64_C(1)) {\n");
    }

    pub fn call_row(&mut self, depth: u8, name: Name)
        ensures { Goes S.state self.old.out self.old.failed self.new.out self.new.failed (row_text (row_of depth (call_line name))) }
    {
        self.blanks(depth);
        self.name(name);
        self.text(b"();\n");
    }

    pub fn tell_row(&mut self, depth: u8, tell: &Tell)
        ensures { Goes S.state self.old.out self.old.failed self.new.out self.new.failed (row_text (row_of depth (tell_line (told_of tell.now)))) }
    {
        self.blanks(depth);
        self.tell(tell);
        self.text(b";\n");
    }

    pub fn close_row(&mut self, depth: u8)
        ensures { Goes S.state self.old.out self.old.failed self.new.out self.new.failed (row_text (row_of depth close_line)) }
    {
        self.blanks(depth);
        self.text(b"}\n");
    }
}
