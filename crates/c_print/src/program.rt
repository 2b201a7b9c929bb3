// Whole programs.

ghost use Rattle.std.specs.Prelude.{◌≡◌, map, [], ◌∷◌, All};
ghost use Rattle.std.specs.List.{flat_map};
ghost use Rattle.sci_io.specs.Taken.{Writes};
ghost use Rattle.c_print.specs.Goes.{Goes};
ghost use Rattle.c_ast.specs.View.{whole_of, declared_of, function_of, statements_of};
ghost use Rattle.c_ast.specs.Bounds.{IsWhole, IsFunction, IsBody};
ghost use Rattle.c_ast.specs.Spelling.{rows_text, header_row, header_lines, declared_row, function_rows, main_rows, spelling};

use crate::printer::Printer;
use c_ast::{Decl, Func, Program, Stmt};
use sci_io::{Failed, Sink};

const HEADER: &[u8] = b"#include <stdint.h>
extern void sci_start(void);
extern void sci_event(int64_t a, int64_t b, int64_t c);
extern void sci_val(int64_t a, int64_t b, int64_t c, int64_t d);
extern void sci_end(int64_t a);
extern void sci_stop(int64_t a, int64_t b, int64_t c);
extern int64_t sci_more(int64_t a);
extern int64_t sci_input(int64_t a);
extern int64_t sci_until(void);
extern int64_t sci_limit(void);
";

impl<S: Sink> Printer<'_, S> {
    fn header(&mut self)
        ensures { Goes S.state self.old.out self.old.failed self.new.out self.new.failed (rows_text (map header_row header_lines)) }
    {
        self.text(HEADER);
    }

    fn decl(&mut self, decl: &Decl)
        ensures { Goes S.state self.old.out self.old.failed self.new.out self.new.failed (rows_text (declared_row (declared_of decl.now) ∷ [])) }
    {
        self.text(b"static int64_t ");
        self.name(decl.name);
        match decl.size {
            None => self.text(b";\n"),
            Some(size) => {
                self.text(b"[");
                self.counted(size);
                self.text(b"];\n");
            }
        }
    }

    fn decls(&mut self, decls: &[Decl])
        ensures { Goes S.state self.old.out self.old.failed self.new.out self.new.failed (rows_text (map declared_row (map declared_of decls.now))) }
    {
        for decl in decls {
            self.decl(decl);
        }
    }

    fn func(&mut self, func: &Func)
        requires { IsFunction (function_of func.now) }
        ensures { Goes S.state self.old.out self.old.failed self.new.out self.new.failed (rows_text (function_rows (function_of func.now))) }
    {
        self.text(b"static void ");
        self.name(func.name);
        self.text(b"(void) {\n");
        self.block(1, &func.body);
        self.text(b"}\n");
    }

    fn funcs(&mut self, funcs: &[Func])
        requires { All IsFunction (map function_of funcs.now) }
        ensures { Goes S.state self.old.out self.old.failed self.new.out self.new.failed (rows_text (flat_map function_rows (map function_of funcs.now))) }
    {
        for func in funcs {
            self.func(func);
        }
    }

    fn main(&mut self, body: &[Stmt])
        requires { IsBody (statements_of body.now) }
        ensures { Goes S.state self.old.out self.old.failed self.new.out self.new.failed (rows_text (main_rows (statements_of body.now))) }
    {
        self.text(b"void sci_main(void) {\n");
        self.block(1, body);
        self.text(b"}\n");
    }

    fn program(&mut self, p: &Program)
        requires { IsWhole (whole_of p.now) }
        ensures { Goes S.state self.old.out self.old.failed self.new.out self.new.failed (spelling (whole_of p.now)) }
    {
        self.header();
        self.decls(&p.decls);
        self.funcs(&p.funcs);
        self.main(&p.main);
    }
}

/// Writes the one spelling of a program: nothing else, and all of it unless the sink fails.
pub fn print<S: Sink>(p: &Program, out: &mut S) -> Result<(), Failed>
    requires { IsWhole (whole_of p.now) }
    ensures { Writes (S.state out.old) (S.state out.new) (spelling (whole_of p.now)) result }
{
    let mut printer = Printer { out, failed: false };
    printer.program(p);
    if printer.failed { Err(Failed) } else { Ok(()) }
}
