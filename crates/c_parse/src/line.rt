// Lines.

ghost use Rattle.std.specs.Prelude.{◌≡◌, ◌≤◌, ◌<◌, ◌∷◌, [], List, length, drop, Some, IfErr};
ghost use Rattle.std.specs.Option.{option_map};
ghost use Rattle.c_ast.specs.View.{exp_of, place_of, asked_of, told_of};
ghost use Rattle.c_ast.specs.Syntax.{event, stop};
ghost use Rattle.sci_text.specs.Reading.{ended};
ghost use Rattle.sci_text.specs.Stops.{Gives};
ghost use Rattle.c_parse.specs.LineView.{line_of, indented_of};
ghost use Rattle.c_parse.specs.LineReading as read;

use crate::expression::{expr, must};
use crate::text::name;
use c_ast::{Ask, Bound, Expr, Name, Target, Tell};
use sci_text::{TextStop, after_text, number};
use std::alloc::Global;

/// What a line says.
#[derive(Drop)]
pub enum Item {
    Scalar(Name),
    Array(Name, u32),
    Function(Name),
    Main,
    Set(Target, Expr),
    Ask(Target, Ask),
    If(Expr),
    Else,
    For(Name, Bound),
    Call(Name),
    Tell(Tell),
    Close,
}

/// A line and how deep it stands, by two blanks for each level.
#[derive(Drop)]
pub struct Indented {
    pub depth: usize,
    pub item: Item,
}

fn whole(item: Item, bytes: &[u8]) -> Result<Item, TextStop>
    ensures gives { Gives line_of result (ended (line_of item) bytes.now) }
    ensures sure { IfErr result (λ e. e ≡ TextStop.Other) }
{
    if bytes.is_empty() {
        Ok(item)
    } else {
        Err(TextStop::Other)
    }
}

fn ending(item: Item, text: &[u8], bytes: &[u8]) -> Result<Item, TextStop>
    ensures gives { Gives line_of result (read.ending (line_of item) text.now bytes.now) }
    ensures sure { IfErr result (λ e. e ≡ TextStop.Other) }
{
    let rest = must(bytes, text)?;
    whole(item, rest)
}

#[tactic(auto, unfolding(crate::specs::LineReading::full_at))]
fn full(alloc: Global, bytes: &[u8]) -> Result<(Expr, &[u8]), TextStop>
    ensures { Gives (λ x. (exp_of x.0, x.1.now)) result (read.full_at bytes.now) }
{
    expr(alloc, 64, bytes)
}

#[tactic(auto, unfolding(crate::specs::LineReading::next_at))]
fn next(alloc: Global, bytes: &[u8]) -> Result<(Expr, &[u8]), TextStop>
    ensures { Gives (λ x. (exp_of x.0, x.1.now)) result (read.next_at bytes.now) }
{
    let rest = must(bytes, b", ")?;
    full(alloc, rest)
}

#[tactic(auto, unfolding(crate::specs::LineReading::target_at))]
fn target(alloc: Global, bytes: &[u8]) -> Result<(Target, &[u8]), TextStop>
    ensures { Gives (λ x. (place_of x.0, x.1.now)) result (read.target_at bytes.now) }
{
    let Some((x, rest)) = name(bytes) else {
        return Err(TextStop::Other);
    };
    match after_text(rest, b"[") {
        None => Ok((Target::Var(x), rest)),
        Some(rest) => {
            let (index, rest) = full(alloc, rest)?;
            let rest = must(rest, b"]")?;
            Ok((Target::At(x, index), rest))
        }
    }
}

#[tactic(auto, unfolding(crate::specs::LineReading::asked_at))]
fn asked(alloc: Global, bytes: &[u8]) -> Result<(Ask, &[u8]), TextStop>
    ensures { Gives (λ x. (asked_of x.0, x.1.now)) result (read.asked_at bytes.now) }
{
    if let Some(rest) = after_text(bytes, b"more(") {
        let (column, rest) = full(alloc, rest)?;
        let rest = must(rest, b")")?;
        return Ok((Ask::More(column), rest));
    }
    if let Some(rest) = after_text(bytes, b"input(") {
        let (column, rest) = full(alloc, rest)?;
        let rest = must(rest, b")")?;
        return Ok((Ask::Input(column), rest));
    }
    if let Some(rest) = after_text(bytes, b"until()") {
        return Ok((Ask::Until, rest));
    }
    let rest = must(bytes, b"limit()")?;
    Ok((Ask::Limit, rest))
}

#[tactic(auto, unfolding(crate::specs::LineReading::assigned_at))]
fn assigned(alloc: Global, target: Target, bytes: &[u8]) -> Result<Item, TextStop>
    ensures { Gives line_of result (read.assigned_at (place_of target) bytes.now) }
{
    match after_text(bytes, b"sci_") {
        Some(rest) => {
            let (ask, rest) = asked(alloc, rest)?;
            ending(Item::Ask(target, ask), b";", rest)
        }
        None => {
            let (value, rest) = full(alloc, bytes)?;
            ending(Item::Set(target, value), b";", rest)
        }
    }
}

#[tactic(auto, unfolding(crate::specs::LineReading::named_at))]
fn named(alloc: Global, bytes: &[u8]) -> Result<Item, TextStop>
    ensures { Gives line_of result (read.named_at bytes.now) }
{
    let Some((x, rest)) = name(bytes) else {
        return Err(TextStop::Other);
    };
    match after_text(rest, b"();") {
        Some(rest) => whole(Item::Call(x), rest),
        None => {
            let (target, rest) = target(alloc, bytes)?;
            let rest = must(rest, b" = ")?;
            assigned(alloc, target, rest)
        }
    }
}

#[tactic(auto, unfolding(crate::specs::LineReading::three_at))]
fn told_event(alloc: Global, bytes: &[u8]) -> Result<(Tell, &[u8]), TextStop>
    ensures { Gives (λ x. (told_of x.0, x.1.now)) result (read.three_at event bytes.now) }
{
    let (a, rest) = full(alloc, bytes)?;
    let (b, rest) = next(alloc, rest)?;
    let (c, rest) = next(alloc, rest)?;
    let rest = must(rest, b")")?;
    Ok((Tell::Event(a, b, c), rest))
}

#[tactic(auto, unfolding(crate::specs::LineReading::three_at))]
fn told_stop(alloc: Global, bytes: &[u8]) -> Result<(Tell, &[u8]), TextStop>
    ensures { Gives (λ x. (told_of x.0, x.1.now)) result (read.three_at stop bytes.now) }
{
    let (a, rest) = full(alloc, bytes)?;
    let (b, rest) = next(alloc, rest)?;
    let (c, rest) = next(alloc, rest)?;
    let rest = must(rest, b")")?;
    Ok((Tell::Stop(a, b, c), rest))
}

#[tactic(auto, unfolding(crate::specs::LineReading::four_at))]
fn told_value(alloc: Global, bytes: &[u8]) -> Result<(Tell, &[u8]), TextStop>
    ensures { Gives (λ x. (told_of x.0, x.1.now)) result (read.four_at bytes.now) }
{
    let (a, rest) = full(alloc, bytes)?;
    let (b, rest) = next(alloc, rest)?;
    let (c, rest) = next(alloc, rest)?;
    let (d, rest) = next(alloc, rest)?;
    let rest = must(rest, b")")?;
    Ok((Tell::Val(a, b, c, d), rest))
}

#[tactic(auto, unfolding(crate::specs::LineReading::told_at))]
fn told(alloc: Global, bytes: &[u8]) -> Result<(Tell, &[u8]), TextStop>
    ensures { Gives (λ x. (told_of x.0, x.1.now)) result (read.told_at bytes.now) }
{
    if let Some(rest) = after_text(bytes, b"start()") {
        return Ok((Tell::Start, rest));
    }
    if let Some(rest) = after_text(bytes, b"event(") {
        return told_event(alloc, rest);
    }
    if let Some(rest) = after_text(bytes, b"val(") {
        return told_value(alloc, rest);
    }
    if let Some(rest) = after_text(bytes, b"end(") {
        let (number, rest) = full(alloc, rest)?;
        let rest = must(rest, b")")?;
        return Ok((Tell::End(number), rest));
    }
    let rest = must(bytes, b"stop(")?;
    told_stop(alloc, rest)
}

#[tactic(auto, unfolding(crate::specs::LineReading::tell_at))]
fn tell(alloc: Global, bytes: &[u8]) -> Result<Item, TextStop>
    ensures { Gives line_of result (read.tell_at bytes.now) }
{
    let (tell, rest) = told(alloc, bytes)?;
    ending(Item::Tell(tell), b";", rest)
}

#[tactic(auto, unfolding(crate::specs::LineReading::bound_at))]
fn bound(bytes: &[u8]) -> Result<(Bound, &[u8]), TextStop>
    ensures gives { Gives (λ x. (x.0, x.1.now)) result (read.bound_at bytes.now) }
    ensures sure { IfErr result (λ e. e ≡ TextStop.Other) }
{
    match after_text(bytes, b"INT64_C(") {
        Some(rest) => {
            let Some((value, rest)) = number(1 << 63, rest) else {
                return Err(TextStop::Other);
            };
            let rest = must(rest, b")")?;
            Ok((Bound::Num(value as i64), rest))
        }
        None => {
            let Some((x, rest)) = name(bytes) else {
                return Err(TextStop::Other);
            };
            Ok((Bound::Var(x), rest))
        }
    }
}

#[tactic(auto, unfolding(crate::specs::LineReading::same_at))]
fn same(x: Name, bytes: &[u8]) -> Result<&[u8], TextStop>
    ensures gives { Gives (λ r. r.now) result (read.same_at x bytes.now) }
    ensures sure { IfErr result (λ e. e ≡ TextStop.Other) }
{
    let Some((y, rest)) = name(bytes) else {
        return Err(TextStop::Other);
    };
    if x.letter == y.letter && x.number == y.number {
        Ok(rest)
    } else {
        Err(TextStop::Other)
    }
}

#[tactic(auto, unfolding(crate::specs::LineReading::counted_at))]
fn counted(x: Name, bound: Bound, bytes: &[u8]) -> Result<Item, TextStop>
    ensures gives { Gives line_of result (read.counted_at x bound bytes.now) }
    ensures sure { IfErr result (λ e. e ≡ TextStop.Other) }
{
    let rest = must(bytes, b"; ")?;
    let rest = same(x, rest)?;
    let rest = must(rest, b" = ")?;
    let rest = same(x, rest)?;
    ending(Item::For(x, bound), b" + INT64_C(1)) {", rest)
}

#[tactic(auto, unfolding(crate::specs::LineReading::for_at))]
fn turn(bytes: &[u8]) -> Result<Item, TextStop>
    ensures gives { Gives line_of result (read.for_at bytes.now) }
    ensures sure { IfErr result (λ e. e ≡ TextStop.Other) }
{
    let Some((x, rest)) = name(bytes) else {
        return Err(TextStop::Other);
    };
    let rest = must(rest, b" = INT64_C(0); ")?;
    let rest = same(x, rest)?;
    let rest = must(rest, b" < ")?;
    let (bound, rest) = bound(rest)?;
    counted(x, bound, rest)
}

#[tactic(auto, unfolding(crate::specs::LineReading::size_at))]
fn sized(x: Name, bytes: &[u8]) -> Result<Item, TextStop>
    ensures gives { Gives line_of result (read.size_at x bytes.now) }
    ensures sure { IfErr result (λ e. e ≡ TextStop.Other) }
{
    let Some((size, rest)) = number(1_048_577, bytes) else {
        return Err(TextStop::Other);
    };
    if size < 1 {
        return Err(TextStop::Other);
    }
    ending(Item::Array(x, size as u32), b"];", rest)
}

#[tactic(auto, unfolding(crate::specs::LineReading::declared_at))]
fn declared(bytes: &[u8]) -> Result<Item, TextStop>
    ensures gives { Gives line_of result (read.declared_at bytes.now) }
    ensures sure { IfErr result (λ e. e ≡ TextStop.Other) }
{
    let Some((x, rest)) = name(bytes) else {
        return Err(TextStop::Other);
    };
    match after_text(rest, b"[") {
        Some(rest) => sized(x, rest),
        None => ending(Item::Scalar(x), b";", rest),
    }
}

#[tactic(auto, unfolding(crate::specs::LineReading::static_at))]
fn outer(bytes: &[u8]) -> Result<Item, TextStop>
    ensures gives { Gives line_of result (read.static_at bytes.now) }
    ensures sure { IfErr result (λ e. e ≡ TextStop.Other) }
{
    match after_text(bytes, b"int64_t ") {
        Some(rest) => declared(rest),
        None => {
            let rest = must(bytes, b"void ")?;
            let Some((f, rest)) = name(rest) else {
                return Err(TextStop::Other);
            };
            ending(Item::Function(f), b"(void) {", rest)
        }
    }
}

#[tactic(auto, unfolding(crate::specs::LineReading::closing_at))]
fn closing(bytes: &[u8]) -> Result<Item, TextStop>
    ensures gives { Gives line_of result (read.closing_at bytes.now) }
    ensures sure { IfErr result (λ e. e ≡ TextStop.Other) }
{
    match after_text(bytes, b" else {") {
        Some(rest) => whole(Item::Else, rest),
        None => whole(Item::Close, bytes),
    }
}

#[tactic(auto, unfolding(crate::specs::LineReading::if_at))]
fn choice(alloc: Global, bytes: &[u8]) -> Result<Item, TextStop>
    ensures { Gives line_of result (read.if_at bytes.now) }
{
    let (condition, rest) = full(alloc, bytes)?;
    ending(Item::If(condition), b") {", rest)
}

#[tactic(auto, unfolding(crate::specs::LineReading::line_at))]
fn content(alloc: Global, bytes: &[u8]) -> Result<Item, TextStop>
    ensures { Gives line_of result (read.line_at bytes.now) }
{
    if let Some(rest) = after_text(bytes, b"}") {
        return closing(rest);
    }
    if let Some(rest) = after_text(bytes, b"if (") {
        return choice(alloc, rest);
    }
    if let Some(rest) = after_text(bytes, b"for (") {
        return turn(rest);
    }
    if let Some(rest) = after_text(bytes, b"sci_") {
        return tell(alloc, rest);
    }
    if let Some(rest) = after_text(bytes, b"static ") {
        return outer(rest);
    }
    match after_text(bytes, b"void sci_main(void) {") {
        Some(rest) => whole(Item::Main, rest),
        None => named(alloc, bytes),
    }
}

fn blanks(bytes: &[u8]) -> usize
    ensures within { result ≤ length bytes.now }
    ensures count { result ≡ read.blanks bytes.now }
    ensures rest { drop result bytes.now ≡ read.unindented bytes.now }
{
    let mut len = 0;
    while len < bytes.len() && bytes[len] == b' ' {
        len += 1;
    }
    len
}

/// A line, without its LF.
#[tactic(auto, unfolding(crate::specs::LineReading::row_at))]
pub fn row(alloc: Global, bytes: &[u8]) -> Result<Indented, TextStop>
    ensures { Gives indented_of result (read.row_at bytes.now) }
{
    let len = blanks(bytes);
    if len % 2 != 0 {
        return Err(TextStop::Other);
    }
    let item = content(alloc, &bytes[len..])?;
    Ok(Indented {
        depth: len / 2,
        item,
    })
}
