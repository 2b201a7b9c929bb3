// Which of several sources has the next event.
ghost use Rattle.std.specs.Prelude.{◌≡◌, ◌+◌, ◌*◌, ◌<◌, ◌≤◌, ◌^◌, pos, if◌then◌else◌, IfOk, OnOk};
ghost use Rattle.c_ast.specs.declared.Bound.TheVariants as bounds;
ghost use Rattle.c_ast.specs.declared.Op.TheVariants as ops;
ghost use Rattle.c_ast.specs.Syntax.{num, var, element as element_of, bin, scalar, cell as cell_of, set as assign, loop, done, next};
ghost use Rattle.c_ast.specs.View.{exp_of, statement_of, statements_of};
ghost use Rattle.c_mean.specs.Texts.{joined, upto};
ghost use Rattle.sci_due.specs.Due.{best as chosen_name, scan as scan_name, dates as dates_name, orders as orders_name, fresh as fresh_name};
ghost use Rattle.sci_due.specs.Due.{firsts as firsts_name, group_count as group_count_of, coming as next_date_name};
ghost use Rattle.sci_due.specs.Texts.{counted_from, not_later_exp, sooner_exp, better_exp, choose_turn as choose_turn_of, turns_text};
ghost use Rattle.sci_due.specs.Texts.{span_text as span_text_of, others_in as others_in_of, unknown_exp, worked_text as worked_text_of};
ghost use Rattle.sci_due.specs.Texts.{group_text as group_text_of, groups_text as groups_text_of, choose_text as choose_of};
ghost use Rattle.sci_due.specs.declared.due_table.TheConstants.{GROUP};
ghost use Rattle.sci_due_texts.specs.Turns.{turn_place, looked_at};

use crate::names::{chosen, dates, firsts, fresh, next_date, orders, scan};
use crate::pieces::{cell, natural, push, push_all, set_natural};
use c_ast::{Expr, Name, Op, Stmt, Target};
use sci_base::NoMemory;
use sci_cgen_blocks::writing::{bin, element, only_where, repeated};
use sci_due::{GROUP, TURNS};
use std::alloc::Global;

/// What a turn of the choice looks at: the source of a number, counted from 0 without start, or the first one of the group of that number.
#[derive(Clone, Copy)]
pub(crate) struct Looked {
    /// Whether it is a group.
    grouped: bool,
    /// Whether a loop's counter counts from the number on.
    counted: bool,
    /// The number.
    number: u32,
}

/// The number of the source or group that is looked at.
fn looked_number(alloc: Global, looked: Looked) -> Result<Expr, NoMemory>
    ensures { IfOk result (λ e. exp_of e ≡ (if looked.counted then counted_from looked.number else num (pos looked.number))) }
{
    let number = natural(looked.number);
    if looked.counted {
        bin(alloc, Op::Add, Expr::Var(scan()), number)
    } else {
        Ok(number)
    }
}

/// The place of the source that is looked at.
fn place(alloc: Global, looked: Looked) -> Result<Expr, NoMemory>
    ensures { IfOk result (λ e. exp_of e ≡ looked_at looked) }
{
    let number = looked_number(alloc, looked)?;
    if looked.grouped {
        Ok(Expr::At(firsts(), Box::new(alloc, number)?))
    } else {
        Ok(number)
    }
}

/// The element of an array at that place.
fn at_place(alloc: Global, array: Name, looked: Looked) -> Result<Expr, NoMemory>
    ensures { IfOk result (λ e. exp_of e ≡ element_of array (looked_at looked)) }
{
    Ok(Expr::At(array, Box::new(alloc, place(alloc, looked)?)?))
}

/// The date of that source's event, compared with that of the chosen one.
fn compared(alloc: Global, op: Op, looked: Looked) -> Result<Expr, NoMemory>
    ensures { IfOk result (λ e. exp_of e ≡ bin op (element_of dates_name (looked_at looked)) (var next_date_name)) }
{
    bin(
        alloc,
        op,
        at_place(alloc, dates(), looked)?,
        Expr::Var(next_date()),
    )
}

/// Whether that source's event was programmed before the chosen one.
fn before(alloc: Global, looked: Looked) -> Result<Expr, NoMemory>
    ensures { IfOk result (λ e. exp_of e ≡ bin ops.Lt (element_of orders_name (looked_at looked)) (element_of orders_name (var chosen_name))) }
{
    let chosen = Expr::At(orders(), Box::new(alloc, Expr::Var(chosen()))?);
    bin(alloc, Op::Lt, at_place(alloc, orders(), looked)?, chosen)
}

/// Whether that source's date isn't later than that of the chosen event, or no event is chosen.
fn not_later(alloc: Global, looked: Looked) -> Result<Expr, NoMemory>
    ensures { IfOk result (λ e. exp_of e ≡ not_later_exp (looked_at looked)) }
{
    let first = bin(alloc, Op::Lt, Expr::Var(next_date()), natural(0))?;
    bin(alloc, Op::Or, first, compared(alloc, Op::Le, looked)?)
}

/// Whether it is another date, or the same one with a lower order.
fn sooner(alloc: Global, looked: Looked) -> Result<Expr, NoMemory>
    ensures { IfOk result (λ e. exp_of e ≡ sooner_exp (looked_at looked)) }
{
    let other = compared(alloc, Op::Ne, looked)?;
    bin(alloc, Op::Or, other, before(alloc, looked)?)
}

/// Whether an event of that source is pending, and comes before the chosen one if there is one. A later date is told by the first two tests.
fn better(alloc: Global, looked: Looked) -> Result<Expr, NoMemory>
    ensures { IfOk result (λ e. exp_of e ≡ better_exp (looked_at looked)) }
{
    let not_later = not_later(alloc, looked)?;
    let pending = bin(alloc, Op::Ge, at_place(alloc, dates(), looked)?, natural(0))?;
    let comes_first = bin(alloc, Op::And, pending, sooner(alloc, looked)?)?;
    bin(alloc, Op::And, not_later, comes_first)
}

/// That source is chosen where its event is better.
fn choose_turn(alloc: Global, looked: Looked) -> Result<Stmt, NoMemory>
    ensures { IfOk result (λ s. next (statement_of s) done ≡ choose_turn_of (looked_at looked)) }
{
    let take = Stmt::Set(Target::Var(chosen()), place(alloc, looked)?);
    let date = Stmt::Set(Target::Var(next_date()), at_place(alloc, dates(), looked)?);
    let test = better(alloc, looked)?;
    Ok(only_where(alloc, test, vec![in alloc; take, date]?))
}

/// Turns over so many sources or groups from a number on, one after the other.
fn push_each(
    alloc: Global,
    out: &mut Vec<Stmt>,
    grouped: bool,
    from: u32,
    count: u32,
) -> Result<(), NoMemory>
    requires { from + count < 2 ^ 31 }
    ensures { OnOk result (statements_of out.new.items
        ≡ joined (statements_of out.old.items) (upto (λ j. choose_turn_of (turn_place grouped (num (pos (from + j))))) count)) }
{
    for at in 0..count {
        let looked = Looked {
            grouped,
            counted: false,
            number: from + at,
        };
        push(out, choose_turn(alloc, looked)?)?;
    }
    Ok(())
}

/// The same in a loop.
fn in_loop(alloc: Global, grouped: bool, from: u32, count: u32) -> Result<Stmt, NoMemory>
    ensures { IfOk result (λ s. statement_of s ≡ loop scan_name (bounds.Num (pos count)) (choose_turn_of (turn_place grouped (counted_from from)))) }
{
    let looked = Looked {
        grouped,
        counted: true,
        number: from,
    };
    let turn = choose_turn(alloc, looked)?;
    Ok(repeated(scan(), count, vec![in alloc; turn]?))
}

/// Turns over so many sources or groups from a number on: each a statement of its own, or more than `TURNS` in a loop.
fn push_turns(
    alloc: Global,
    out: &mut Vec<Stmt>,
    grouped: bool,
    from: u32,
    count: u32,
) -> Result<(), NoMemory>
    requires { from + count < 2 ^ 31 }
    ensures { OnOk result (statements_of out.new.items ≡ joined (statements_of out.old.items) (turns_text (turn_place grouped) from count)) }
{
    if TURNS < count {
        push(out, in_loop(alloc, grouped, from, count)?)
    } else {
        push_each(alloc, out, grouped, from, count)
    }
}

/// The source of a number is chosen at first, and its date.
fn first_chosen(alloc: Global, first: u32) -> Result<Vec<Stmt>, NoMemory>
    ensures { IfOk result (λ v. statements_of v.items ≡ next (assign (scalar chosen_name) (num (pos first)))
        (next (assign (scalar next_date_name) (element_of dates_name (num (pos first)))) done)) }
{
    let take = Stmt::Set(Target::Var(chosen()), natural(first));
    let date = Stmt::Set(
        Target::Var(next_date()),
        element(alloc, dates(), u64::from(first))?,
    );
    Ok(vec![in alloc; take, date]?)
}

/// Of the source of a number and so many behind it the one whose event comes first, and its date.
fn span_text(alloc: Global, first: u32, count: u32) -> Result<Vec<Stmt>, NoMemory>
    requires { first + count < 2 ^ 30 }
    ensures { IfOk result (λ v. statements_of v.items ≡ span_text_of first count) }
{
    let mut out = first_chosen(alloc, first)?;
    push_turns(alloc, &mut out, false, first + 1, count)?;
    Ok(out)
}

/// How many groups so many sources stand in.
pub fn group_count(ports: u32) -> u32
    requires { 1 ≤ ports }
    ensures { result ≡ group_count_of ports }
{
    (ports - 1) / GROUP + 1
}

/// How many sources stand in a group beside its first.
fn others_in(ports: u32, group: u32) -> u32
    requires { GROUP * group < ports }
    ensures { result ≡ others_in_of ports group }
{
    (GROUP - 1).min(ports - 1 - GROUP * group)
}

/// The chosen source is known as the first of a group.
fn known_text(alloc: Global, group: u32) -> Result<Vec<Stmt>, NoMemory>
    ensures { IfOk result (λ v. statements_of v.items ≡ next (assign (cell_of firsts_name (num (pos group))) (var chosen_name))
        (next (assign (cell_of fresh_name (num (pos group))) (num (pos 1))) done)) }
{
    let first = Stmt::Set(cell(firsts(), group), Expr::Var(chosen()));
    Ok(vec![in alloc; first, set_natural(fresh(), group, 1)]?)
}

/// Whether it isn't known which source of a group is the first.
fn is_unknown(alloc: Global, group: u32) -> Result<Expr, NoMemory>
    ensures { IfOk result (λ e. exp_of e ≡ unknown_exp group) }
{
    let flag = element(alloc, fresh(), u64::from(group))?;
    bin(alloc, Op::Eq, flag, natural(0))
}

/// The first source of a group is worked out.
fn worked_text(alloc: Global, ports: u32, group: u32) -> Result<Vec<Stmt>, NoMemory>
    requires within { GROUP * group < ports }
    requires few { ports < 2 ^ 29 }
    ensures { IfOk result (λ v. statements_of v.items ≡ worked_text_of ports group) }
{
    let mut out = span_text(alloc, GROUP * group, others_in(ports, group))?;
    push_all(&mut out, known_text(alloc, group)?)?;
    Ok(out)
}

/// The same, unless it is known.
fn group_text(alloc: Global, ports: u32, group: u32) -> Result<Stmt, NoMemory>
    requires within { GROUP * group < ports }
    requires few { ports < 2 ^ 29 }
    ensures { IfOk result (λ s. next (statement_of s) done ≡ group_text_of ports group) }
{
    let is_unknown = is_unknown(alloc, group)?;
    let worked = worked_text(alloc, ports, group)?;
    Ok(only_where(alloc, is_unknown, worked))
}

/// The same of so many groups.
fn push_groups(alloc: Global, out: &mut Vec<Stmt>, ports: u32, groups: u32) -> Result<(), NoMemory>
    requires few { ports < 2 ^ 29 }
    requires some { 1 ≤ ports }
    requires groups { groups ≤ group_count_of ports }
    ensures { OnOk result (statements_of out.new.items ≡ joined (statements_of out.old.items) (upto (group_text_of ports) groups)) }
{
    for group in 0..groups {
        push(out, group_text(alloc, ports, group)?)?;
    }
    Ok(())
}

/// The first source of each group is worked out, unless it is known.
fn known_groups(alloc: Global, ports: u32) -> Result<Vec<Stmt>, NoMemory>
    requires few { ports < 2 ^ 29 }
    requires some { 1 ≤ ports }
    ensures { IfOk result (λ v. statements_of v.items ≡ upto (group_text_of ports) (group_count_of ports)) }
{
    let mut out = Vec::new(alloc);
    push_groups(alloc, &mut out, ports, group_count(ports))?;
    Ok(out)
}

/// The first source of the first group is chosen, and its date.
fn begin_text(alloc: Global) -> Result<Vec<Stmt>, NoMemory>
    ensures { IfOk result (λ v. statements_of v.items ≡ next (assign (scalar chosen_name) (element_of firsts_name (num (pos 0))))
        (next (assign (scalar next_date_name) (element_of dates_name (var chosen_name))) done)) }
{
    let first = Stmt::Set(Target::Var(chosen()), element(alloc, firsts(), 0)?);
    let date = Expr::At(dates(), Box::new(alloc, Expr::Var(chosen()))?);
    Ok(vec![in alloc; first, Stmt::Set(Target::Var(next_date()), date)]?)
}

/// Of sources in groups the one whose event comes first, and its date.
fn groups_text(alloc: Global, ports: u32) -> Result<Vec<Stmt>, NoMemory>
    requires few { ports < 2 ^ 29 }
    requires some { 1 ≤ ports }
    ensures { IfOk result (λ v. statements_of v.items ≡ groups_text_of ports) }
{
    let mut out = known_groups(alloc, ports)?;
    push_all(&mut out, begin_text(alloc)?)?;
    push_turns(alloc, &mut out, true, 1, group_count(ports) - 1)?;
    Ok(out)
}

/// Of several sources the one whose event comes first, and its date.
pub fn scan_text(alloc: Global, ports: u32) -> Result<Vec<Stmt>, NoMemory>
    requires several { 1 < ports }
    requires few { ports < 2 ^ 29 }
    ensures { IfOk result (λ v. statements_of v.items ≡ choose_of ports) }
{
    if GROUP < ports {
        groups_text(alloc, ports)
    } else {
        span_text(alloc, 0, ports - 1)
    }
}
