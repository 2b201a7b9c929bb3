// Statements, with the lists in them.

ghost use Rattle.std.specs.Prelude.{◌≡◌, ◌<◌, ◌≤◌, ◌-◌, length};
ghost use Rattle.c_print.specs.Goes.{Goes};
ghost use Rattle.c_ast.specs.View.{statement_of, statements_of};
ghost use Rattle.c_ast.specs.Bounds.{StatementFits, BlockFits};
ghost use Rattle.c_ast.specs.Spelling.{rows_text, statement_rows, block_rows, else_rows};

use crate::printer::Printer;
use c_ast::Stmt;
use sci_io::Sink;

impl<S: Sink> Printer<'_, S> {
    /// A statement at this depth, from 1 on.
    #[cycle(print)]
    fn statement(&mut self, depth: u8, s: &Stmt)
        requires { StatementFits (17 - depth) (statement_of s.now) }
        ensures { Goes S.state self.old.out self.old.failed self.new.out self.new.failed (rows_text (statement_rows depth (statement_of s.now))) }
    {
        match s {
            Stmt::Set(target, e) => self.set_row(depth, target, e),
            Stmt::Ask(target, ask) => self.ask_row(depth, target, ask),
            Stmt::If(e, yes, no) => {
                self.if_row(depth, e);
                self.block(depth + 1, yes);
                self.otherwise(depth, no);
            }
            Stmt::For(counter, bound, body) => {
                self.for_row(depth, *counter, bound);
                self.block(depth + 1, body);
                self.close_row(depth);
            }
            Stmt::Call(name) => self.call_row(depth, *name),
            Stmt::Tell(tell) => self.tell_row(depth, tell),
        }
    }

    /// Statements in a row.
    #[cycle(print)]
    pub fn block(&mut self, depth: u8, list: &[Stmt])
        requires { BlockFits (17 - depth) (statements_of list.now) }
        ensures { Goes S.state self.old.out self.old.failed self.new.out self.new.failed (rows_text (block_rows depth (statements_of list.now))) }
    {
        for s in list {
            self.statement(depth, s);
        }
    }

    /// The end of an If at this depth, with its second list.
    #[cycle(print)]
    fn otherwise(&mut self, depth: u8, list: &[Stmt])
        requires { BlockFits (16 - depth) (statements_of list.now) }
        ensures { Goes S.state self.old.out self.old.failed self.new.out self.new.failed (rows_text (else_rows depth (statements_of list.now))) }
    {
        if list.is_empty() {
            self.close_row(depth);
        } else {
            self.else_row(depth);
            self.block(depth + 1, list);
            self.close_row(depth);
        }
    }
}
