// The blocks that stand open while the lines of a body are read.

ghost use Rattle.std.specs.Prelude.{◌≡◌, Some, None, nat_eq, nat_lt};
ghost use Rattle.c_ast.specs.View.{statement_of, statements_of};
ghost use Rattle.c_ast.specs.Syntax.{done};
ghost use Rattle.sci_text.specs.Stops.{Gives};
ghost use Rattle.c_parse.specs.LineView.{line_of, indented_of};
ghost use Rattle.c_parse.specs.Machine as machine;
ghost use Rattle.c_parse.specs.MachineView.{opened_of, open_of};

use crate::line::{Indented, Item};
use c_ast::{Bound, Expr, Name, Stmt};
use sci_text::TextStop;
use std::alloc::Global;

/// What a block inside another was opened for: the first list of an If, the second with the first, or the body of a For.
#[derive(Drop)]
pub enum BlockHead {
    First(Expr),
    Second(Expr, Vec<Stmt>),
    Turn(Name, Bound),
}

/// The open blocks, the innermost first: the statements that stand in each so far, and what it was opened for.
#[derive(Drop)]
pub enum Stack {
    Bottom(Vec<Stmt>),
    Inner(Vec<Stmt>, BlockHead, Box<Stack>),
}

#[tactic(auto, using(crate::proofs::MemoryLaws::statements_of_push))]
fn add(stack: Stack, s: Stmt) -> Result<Stack, TextStop>
    ensures { Gives open_of result (Some (machine.add (statement_of s) (open_of stack))) }
{
    match stack {
        Stack::Bottom(mut list) => {
            list.push(s)?;
            Ok(Stack::Bottom(list))
        }
        Stack::Inner(mut list, head, rest) => {
            list.push(s)?;
            Ok(Stack::Inner(list, head, rest))
        }
    }
}

fn inside(alloc: Global, stack: Stack, head: BlockHead) -> Result<Stack, TextStop>
    ensures { Gives open_of result (Some (machine.inner done (opened_of head) (open_of stack))) }
{
    Ok(Stack::Inner(Vec::new(alloc), head, Box::new(alloc, stack)?))
}

fn ended(alloc: Global, list: Vec<Stmt>, head: BlockHead, rest: Stack) -> Result<Stack, TextStop>
    ensures { Gives open_of result (machine.closes (statements_of list.items) (opened_of head) (open_of rest)) }
{
    match head {
        BlockHead::First(e) => add(rest, Stmt::If(e, list, Vec::new(alloc))),
        BlockHead::Second(e, yes) => {
            if list.is_empty() {
                return Err(TextStop::Other);
            }
            add(rest, Stmt::If(e, yes, list))
        }
        BlockHead::Turn(x, bound) => add(rest, Stmt::For(x, bound, list)),
    }
}

fn closed(alloc: Global, stack: Stack) -> Result<Stack, TextStop>
    ensures { Gives open_of result (machine.close (open_of stack)) }
{
    match stack {
        Stack::Bottom(_) => Err(TextStop::Other),
        Stack::Inner(list, head, rest) => ended(alloc, list, head, Box::into_inner(rest)),
    }
}

fn second(
    alloc: Global,
    list: Vec<Stmt>,
    head: BlockHead,
    rest: Box<Stack>,
) -> Result<Stack, TextStop>
    ensures { Gives open_of result (machine.otherwise (machine.inner (statements_of list.items) (opened_of head) (open_of rest.value))) }
{
    match head {
        BlockHead::First(e) => Ok(Stack::Inner(Vec::new(alloc), BlockHead::Second(e, list), rest)),
        BlockHead::Second(_, _) => Err(TextStop::Other),
        BlockHead::Turn(_, _) => Err(TextStop::Other),
    }
}

fn otherwise(alloc: Global, stack: Stack) -> Result<Stack, TextStop>
    ensures { Gives open_of result (machine.otherwise (open_of stack)) }
{
    match stack {
        Stack::Bottom(_) => Err(TextStop::Other),
        Stack::Inner(list, head, rest) => second(alloc, list, head, rest),
    }
}

fn step_item(alloc: Global, item: Item, stack: Stack) -> Result<Stack, TextStop>
    ensures { Gives open_of result (machine.step_line (line_of item) (open_of stack)) }
{
    match item {
        Item::Set(target, e) => add(stack, Stmt::Set(target, e)),
        Item::Ask(target, ask) => add(stack, Stmt::Ask(target, ask)),
        Item::If(e) => inside(alloc, stack, BlockHead::First(e)),
        Item::Else => otherwise(alloc, stack),
        Item::For(x, bound) => inside(alloc, stack, BlockHead::Turn(x, bound)),
        Item::Call(f) => add(stack, Stmt::Call(f)),
        Item::Tell(tell) => add(stack, Stmt::Tell(tell)),
        Item::Close => closed(alloc, stack),
        Item::Scalar(_) => Err(TextStop::Other),
        Item::Array(_, _) => Err(TextStop::Other),
        Item::Function(_) => Err(TextStop::Other),
        Item::Main => Err(TextStop::Other),
    }
}

/// Whether the innermost block's statements stand at this depth.
fn stands(stack: &Stack, depth: usize) -> bool
    ensures { result ≡ nat_eq (machine.depth_of (open_of stack.now)) depth }
{
    match stack {
        Stack::Bottom(_) => depth == 1,
        Stack::Inner(_, _, rest) => depth > 0 && stands(rest, depth - 1),
    }
}

/// Whether they stand less deep.
fn stands_below(stack: &Stack, depth: usize) -> bool
    ensures { result ≡ nat_lt (machine.depth_of (open_of stack.now)) depth }
{
    match stack {
        Stack::Bottom(_) => depth > 1,
        Stack::Inner(_, _, rest) => depth > 0 && stands_below(rest, depth - 1),
    }
}

fn stands_around(stack: &Stack, depth: usize) -> bool
    ensures { result ≡ nat_eq (machine.outer_depth (open_of stack.now)) depth }
{
    match stack {
        Stack::Bottom(_) => depth == 1,
        Stack::Inner(_, _, rest) => stands(rest, depth),
    }
}

fn is_outer(item: &Item) -> bool
    ensures { result ≡ machine.is_outer (line_of item.now) }
{
    match item {
        Item::Else => true,
        Item::Close => true,
        Item::Set(_, _) => false,
        Item::Ask(_, _) => false,
        Item::If(_) => false,
        Item::For(_, _) => false,
        Item::Call(_) => false,
        Item::Tell(_) => false,
        Item::Scalar(_) => false,
        Item::Array(_, _) => false,
        Item::Function(_) => false,
        Item::Main => false,
    }
}

fn is_close(item: &Item) -> bool
    ensures { result ≡ machine.is_close (line_of item.now) }
{
    match item {
        Item::Close => true,
        Item::Else => false,
        Item::Set(_, _) => false,
        Item::Ask(_, _) => false,
        Item::If(_) => false,
        Item::For(_, _) => false,
        Item::Call(_) => false,
        Item::Tell(_) => false,
        Item::Scalar(_) => false,
        Item::Array(_, _) => false,
        Item::Function(_) => false,
        Item::Main => false,
    }
}

fn is_placed(item: &Item, stack: &Stack, depth: usize) -> bool
    ensures { result ≡ nat_eq (machine.expected_depth (line_of item.now) (open_of stack.now)) depth }
{
    if is_outer(item) {
        stands_around(stack, depth)
    } else {
        stands(stack, depth)
    }
}

fn has_room(item: &Item, stack: &Stack) -> bool
    ensures { result ≡ machine.has_room (line_of item.now) (open_of stack.now) }
{
    if is_close(item) {
        true
    } else {
        stands_below(stack, 17)
    }
}

/// A line of a body, after which these blocks stand open.
pub fn step_row(alloc: Global, row: Indented, stack: Stack) -> Result<Stack, TextStop>
    ensures { Gives open_of result (machine.step_row (indented_of row) (open_of stack)) }
{
    if is_placed(&row.item, &stack, row.depth) && has_room(&row.item, &stack) {
        step_item(alloc, row.item, stack)
    } else {
        Err(TextStop::Other)
    }
}

/// Whether a line ends the body itself.
pub fn is_end(row: &Indented, stack: &Stack) -> bool
    ensures { result ≡ machine.is_end (indented_of row.now) (open_of stack.now) }
{
    match stack {
        Stack::Bottom(_) => is_close(&row.item) && row.depth == 0,
        Stack::Inner(_, _, _) => false,
    }
}

/// The body, where no block stands open in it.
pub fn body_of(alloc: Global, stack: Stack) -> Vec<Stmt>
    ensures { statements_of result.items ≡ machine.body_of (open_of stack) }
{
    match stack {
        Stack::Bottom(list) => list,
        Stack::Inner(_, _, _) => Vec::new(alloc),
    }
}
