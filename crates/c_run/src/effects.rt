// What single statements do to the variables and columns, and what they let be observed.

ghost use Rattle.std.specs.Prelude.{◌≡◌, Some, None, option_map, if◌then◌else◌};
ghost use Rattle.c_ast.specs.View.{exp_of, place_of, told_of};
ghost use Rattle.c_mean.specs.Meaning.{assign, set_to, counted, told, end_word, stop_word, bound_value, turn_count, is_zero};
ghost use Rattle.c_run.specs.Running.{begun};
ghost use Rattle.c_run.specs.Layout.{slots};

use crate::memory::Memory;
use crate::values::{eval, look, put};
use c_ast::{Bound, Expr, Name, Target, Tell};
use sci_base::{EndWord, Obs, StopWord};

/// Gives the target this value. False where it has no place: where its index is undefined or outside its array, or its name is not declared.
pub fn give(memory: &mut Memory<'_>, target: &Target, value: i64) -> bool
    ensures { (if result then Some (slots memory.new) else None) ≡ assign (place_of target.now) value (slots memory.old) }
{
    match target {
        Target::Var(name) => put(memory, *name, 0, value),
        Target::At(name, place) => {
            let Some(index) = eval(memory, place) else {
                return false;
            };
            if index < 0 {
                return false;
            }
            put(memory, *name, index as usize, value)
        }
    }
}

/// Gives the target the value of an expression. False where the value is undefined, or the target has no place.
pub fn set(memory: &mut Memory<'_>, target: &Target, expression: &Expr) -> bool
    ensures { (if result then Some (slots memory.new) else None) ≡ set_to (place_of target.now) (exp_of expression.now) (slots memory.old) }
{
    match eval(memory, expression) {
        None => false,
        Some(value) => give(memory, target, value),
    }
}

/// Gives the counter its next value. False where the counter is not declared, or stands at the last value of an `int64_t`.
pub fn up(memory: &mut Memory<'_>, counter: Name) -> bool
    ensures { (if result then Some (slots memory.new) else None) ≡ counted counter (slots memory.old) }
{
    let Some(value) = look(memory, counter, 0) else {
        return false;
    };
    match value.checked_add(1) {
        None => false,
        Some(next) => put(memory, counter, 0, next),
    }
}

fn bound_of(memory: &Memory<'_>, bound: &Bound) -> Option<i64>
    ensures { result ≡ bound_value bound.now (slots memory.now) }
{
    match bound {
        Bound::Num(value) => Some(*value),
        Bound::Var(name) => look(memory, *name, 0),
    }
}

/// How many turns a bound stands for: none where it is negative.
fn turns_of(bound: i64) -> u64
    ensures { result ≡ turn_count bound }
{
    if bound < 0 { 0 } else { bound as u64 }
}

/// Begins a For: puts its counter at 0, and answers how many turns follow, 0 up to 2^63 - 1. None where the bound or the counter is not
/// declared.
pub fn begin(memory: &mut Memory<'_>, counter: Name, bound: &Bound) -> Option<u64>
    ensures { option_map (λ turns. (slots memory.new, turns)) result ≡ begun counter bound.now (slots memory.old) }
{
    let end = bound_of(memory, bound)?;
    if put(memory, counter, 0, 0) {
        Some(turns_of(end))
    } else {
        None
    }
}

fn end_of(n: i64) -> Option<EndWord>
    ensures { result ≡ end_word n }
{
    match n {
        0 => Some(EndWord::Halt),
        1 => Some(EndWord::Events),
        2 => Some(EndWord::Empty),
        3 => Some(EndWord::Until),
        _ => None,
    }
}

fn stop_of(n: i64) -> Option<StopWord>
    ensures { result ≡ stop_word n }
{
    match n {
        0 => Some(StopWord::Overflow),
        1 => Some(StopWord::Zero),
        2 => Some(StopWord::Input),
        3 => Some(StopWord::Conflict),
        _ => None,
    }
}

/// What is observed. None where one of its values is undefined, or the number of its word is that of none.
pub fn observation(memory: &Memory<'_>, tell: &Tell) -> Option<Obs>
    ensures { result ≡ told (told_of tell.now) (slots memory.now) }
{
    match tell {
        Tell::Start => Some(Obs::Start),
        Tell::Event(a, b, c) => {
            let x = eval(memory, a)?;
            let y = eval(memory, b)?;
            let z = eval(memory, c)?;
            Some(Obs::Event(x, y, z))
        }
        Tell::Val(a, b, c, d) => {
            let x = eval(memory, a)?;
            let y = eval(memory, b)?;
            let z = eval(memory, c)?;
            let value = eval(memory, d)?;
            Some(Obs::Val(x, y, z, value))
        }
        Tell::End(a) => {
            let word = end_of(eval(memory, a)?)?;
            Some(Obs::End(word))
        }
        Tell::Stop(a, b, c) => {
            let word = stop_of(eval(memory, a)?)?;
            let y = eval(memory, b)?;
            let z = eval(memory, c)?;
            Some(Obs::Stop(word, y, z))
        }
    }
}

/// Whether a value counts as false.
pub fn is_false(value: i64) -> bool
    ensures { result ≡ is_zero value }
{
    value == 0
}
