// Programs, line by line.

ghost use Rattle.std.specs.Prelude.{◌≡◌, Some, None, map};
ghost use Rattle.c_ast.specs.View.{statements_of, declared_of, function_of};
ghost use Rattle.sci_text.specs.Stops.{Gives};
ghost use Rattle.c_ast.specs.Syntax.{done};
ghost use Rattle.c_parse.specs.LineView.{line_of, indented_of};
ghost use Rattle.c_parse.specs.Machine as machine;
ghost use Rattle.c_parse.specs.MachineView.{open_of, state_of};

use crate::expression::must;
use crate::line::{Indented, Item, row};
use crate::machine::{Stack, body_of, is_end, step_row};
use c_ast::{Decl, Func, Name, Program, Stmt};
use sci_text::TextStop;
use std::alloc::Global;

const HEADER: &[u8] = b"#include <stdint.h>
extern void sci_start(void);
extern void sci_event(int64_t a, int64_t b, int64_t c);
extern void sci_val(int64_t a, int64_t b, int64_t c, int64_t d);
extern void sci_end(int64_t a);
extern void sci_stop(int64_t a, int64_t b, int64_t c);
extern int64_t sci_more(int64_t a);
extern int64_t sci_input(int64_t a);
extern int64_t sci_until(void);
extern int64_t sci_limit(void);
";

/// What was read of a program: the header, of which this text is missing; declarations and functions; these and the beginning of a body,
/// of a function with its name or of `sci_main`; or all of it.
#[derive(Drop)]
pub enum Parser {
    Heading(&'static [u8]),
    Outside(Vec<Decl>, Vec<Func>),
    Body(Vec<Decl>, Vec<Func>, Option<Name>, Stack),
    Over(Program),
}

/// Nothing was read yet.
#[tactic(auto, unfolding(crate::specs::Machine::header_text))]
pub fn begin() -> Parser
    ensures { state_of result ≡ machine.outset }
{
    Parser::Heading(HEADER)
}

/// A line of the header.
#[tactic(auto, using(crate::proofs::MemoryLaws::begun_none, crate::proofs::MemoryLaws::begun_some))]
pub fn heading(alloc: Global, text: &'static [u8], line: &[u8]) -> Result<Parser, TextStop>
    ensures { Gives state_of result (machine.pass line.now (machine.heading text.now)) }
{
    let rest = must(text, line)?;
    let rest = must(rest, b"\n")?;
    if rest.is_empty() {
        Ok(Parser::Outside(Vec::new(alloc), Vec::new(alloc)))
    } else {
        Ok(Parser::Heading(rest))
    }
}

#[tactic(auto, using(crate::proofs::MemoryLaws::declares_first, crate::proofs::MemoryLaws::declares_late))]
fn declare(mut decls: Vec<Decl>, funcs: Vec<Func>, decl: Decl) -> Result<Parser, TextStop>
    ensures { Gives state_of result (machine.declares (declared_of decl) (map declared_of decls.items) (map function_of funcs.items)) }
{
    if !funcs.is_empty() {
        return Err(TextStop::Other);
    }
    decls.push(decl)?;
    Ok(Parser::Outside(decls, funcs))
}

fn begin_body(
    alloc: Global,
    decls: Vec<Decl>,
    funcs: Vec<Func>,
    owner: Option<Name>,
) -> Result<Parser, TextStop>
    ensures { Gives state_of result (Some (machine.body (map declared_of decls.items) (map function_of funcs.items) owner (machine.bottom done))) }
{
    Ok(Parser::Body(decls, funcs, owner, Stack::Bottom(Vec::new(alloc))))
}

fn outside(
    alloc: Global,
    item: Item,
    decls: Vec<Decl>,
    funcs: Vec<Func>,
) -> Result<Parser, TextStop>
    ensures { Gives state_of result (machine.step_outside (line_of item) (map declared_of decls.items) (map function_of funcs.items)) }
{
    match item {
        Item::Scalar(name) => declare(decls, funcs, Decl { name, size: None }),
        Item::Array(name, size) => declare(
            decls,
            funcs,
            Decl {
                name,
                size: Some(size),
            },
        ),
        Item::Function(name) => begin_body(alloc, decls, funcs, Some(name)),
        Item::Main => begin_body(alloc, decls, funcs, None),
        Item::Set(_, _) => Err(TextStop::Other),
        Item::Ask(_, _) => Err(TextStop::Other),
        Item::If(_) => Err(TextStop::Other),
        Item::Else => Err(TextStop::Other),
        Item::For(_, _) => Err(TextStop::Other),
        Item::Call(_) => Err(TextStop::Other),
        Item::Tell(_) => Err(TextStop::Other),
        Item::Close => Err(TextStop::Other),
    }
}

fn end_body(
    decls: Vec<Decl>,
    mut funcs: Vec<Func>,
    owner: Option<Name>,
    body: Vec<Stmt>,
) -> Result<Parser, TextStop>
    ensures { Gives state_of result (Some (machine.ends_body (map declared_of decls.items) (map function_of funcs.items) owner (statements_of body.items))) }
{
    match owner {
        Some(name) => {
            funcs.push(Func { name, body })?;
            Ok(Parser::Outside(decls, funcs))
        }
        None => Ok(Parser::Over(Program {
            decls,
            funcs,
            main: body,
        })),
    }
}

fn inside(
    alloc: Global,
    row: Indented,
    decls: Vec<Decl>,
    funcs: Vec<Func>,
    owner: Option<Name>,
    stack: Stack,
) -> Result<Parser, TextStop>
    ensures { Gives state_of result (machine.step_body (indented_of row) (map declared_of decls.items) (map function_of funcs.items) owner (open_of stack)) }
{
    if is_end(&row, &stack) {
        let body = body_of(alloc, stack);
        end_body(decls, funcs, owner, body)
    } else {
        let stack = step_row(alloc, row, stack)?;
        Ok(Parser::Body(decls, funcs, owner, stack))
    }
}

/// A line behind the header.
pub fn step(alloc: Global, row: Indented, parser: Parser) -> Result<Parser, TextStop>
    ensures { Gives state_of result (machine.step (indented_of row) (state_of parser)) }
{
    match parser {
        Parser::Heading(_) => Err(TextStop::Other),
        Parser::Outside(decls, funcs) => {
            if row.depth == 0 {
                outside(alloc, row.item, decls, funcs)
            } else {
                Err(TextStop::Other)
            }
        }
        Parser::Body(decls, funcs, owner, stack) => inside(alloc, row, decls, funcs, owner, stack),
        Parser::Over(_) => Err(TextStop::Other),
    }
}

/// A line, without its LF.
pub fn pass(alloc: Global, parser: Parser, line: &[u8]) -> Result<Parser, TextStop>
    ensures { Gives state_of result (machine.pass line.now (state_of parser)) }
{
    match parser {
        Parser::Heading(text) => heading(alloc, text, line),
        Parser::Outside(decls, funcs) => {
            let row = row(alloc, line)?;
            step(alloc, row, Parser::Outside(decls, funcs))
        }
        Parser::Body(decls, funcs, owner, stack) => {
            let row = row(alloc, line)?;
            step(alloc, row, Parser::Body(decls, funcs, owner, stack))
        }
        Parser::Over(_) => Err(TextStop::Other),
    }
}
