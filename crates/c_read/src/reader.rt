// The lines of a text, one by one.

ghost use Rattle.std.specs.Prelude.{◌≡◌, ◌+◌, ◌<◌, ◌^◌, ◌++◌, [], length, IfOk, IfErr};
ghost use Rattle.c_ast.specs.View.{whole_of};
ghost use Rattle.c_ast.specs.Syntax.{Whole};
ghost use Rattle.sci_text.specs.Stops.{Gives};
ghost use Rattle.c_parse.specs.LineReading.{row_at};
ghost use Rattle.c_parse.specs.Machine as machine;
ghost use Rattle.c_parse.specs.MachineView.{state_of};
ghost use Rattle.c_read.specs.Lines.{row_led, read_places, next_places, blame_of, Reads};

use crate::{ProgramStop, names};
use c_ast::Program;
use c_parse::line::row;
use c_parse::parser::{Parser, begin, heading, step};
use sci_text::{TextStop, split_line};
use std::alloc::Global;

/// What was read so far, and the first byte of each of its names.
#[derive(Drop)]
pub struct ProgramReader {
    pub parser: Parser,
    pub places: Vec<usize>,
}

/// A line behind the header that begins at this byte.
fn pass_row(
    alloc: Global,
    parser: Parser,
    mut places: Vec<usize>,
    at: usize,
    line: &[u8],
) -> Result<ProgramReader, TextStop>
    requires { at + length line.now < 2 ^ 64 }
    ensures passes { Gives (λ r. state_of r.parser) result (row_led line.now (state_of parser)) }
    ensures noted { IfOk result (λ r. r.places.items ≡ places.items ++ read_places at (row_at line.now)) }
{
    let row = row(alloc, line)?;
    names::row(&mut places, at, &row)?;
    let parser = step(alloc, row, parser)?;
    Ok(ProgramReader { parser, places })
}

/// A line that begins at this byte, without its LF.
fn pass(
    alloc: Global,
    reader: ProgramReader,
    at: usize,
    line: &[u8],
) -> Result<ProgramReader, TextStop>
    requires { at + length line.now < 2 ^ 64 }
    ensures passes { Gives (λ r. state_of r.parser) result (machine.pass line.now (state_of reader.parser)) }
    ensures noted { IfOk result (λ r. r.places.items ≡ reader.places.items ++ next_places (state_of reader.parser) at line.now) }
{
    let ProgramReader { parser, places } = reader;
    match parser {
        Parser::Heading(text) => {
            let parser = heading(alloc, text, line)?;
            Ok(ProgramReader { parser, places })
        }
        Parser::Outside(decls, funcs) => {
            pass_row(alloc, Parser::Outside(decls, funcs), places, at, line)
        }
        Parser::Body(decls, funcs, owner, stack) => {
            pass_row(
                alloc,
                Parser::Body(decls, funcs, owner, stack),
                places,
                at,
                line,
            )
        }
        Parser::Over(_) => Err(TextStop::Other),
    }
}

fn blame(stop: TextStop, at: usize) -> ProgramStop
    ensures { result ≡ blame_of stop at }
{
    match stop {
        TextStop::Memory => ProgramStop::Memory,
        TextStop::Other => ProgramStop::NotC(at),
    }
}

/// A program and the first byte of each of its names, in the order of its events.
#[derive(Drop)]
pub struct Placed {
    pub program: Program,
    pub places: Vec<usize>,
}

/// What was read, where nothing is missing and nothing is left.
fn finish(reader: ProgramReader, at: usize, rest: &[u8]) -> Result<Placed, ProgramStop>
    ensures none { IfOk result (λ x. rest.now ≡ []) }
    ensures over { IfOk result (λ x. state_of reader.parser ≡ machine.over (whole_of x.program)) }
    ensures places { IfOk result (λ x. x.places.items ≡ reader.places.items) }
    ensures blamed { IfErr result (λ e. e ≡ ProgramStop.NotC at) }
    ensures missing { IfErr result (λ e. (p : Whole) → rest.now ≡ [] → state_of reader.parser ≡ machine.over p → ⊥) }
{
    let ProgramReader { parser, places } = reader;
    if !rest.is_empty() {
        return Err(ProgramStop::NotC(at));
    }
    match parser {
        Parser::Over(program) => Ok(Placed { program, places }),
        Parser::Heading(_) => Err(ProgramStop::NotC(at)),
        Parser::Outside(_, _) => Err(ProgramStop::NotC(at)),
        Parser::Body(_, _, _, _) => Err(ProgramStop::NotC(at)),
    }
}

/// Reads all lines of a text.
pub fn read(alloc: Global, bytes: &[u8]) -> Result<Placed, ProgramStop>
    ensures { Reads bytes.now result }
{
    let mut reader = ProgramReader {
        parser: begin(),
        places: Vec::new(alloc),
    };
    let mut rest = bytes;
    while let Some((line, more)) = split_line(rest) {
        let at = bytes.len() - rest.len();
        reader = match pass(alloc, reader, at, line) {
            Ok(reader) => reader,
            Err(stop) => return Err(blame(stop, at)),
        };
        rest = more;
    }
    finish(reader, bytes.len() - rest.len(), rest)
}
