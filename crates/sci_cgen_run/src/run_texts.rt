// The run: what is cleared, which event fires, and how the run ends.
ghost use Rattle.std.specs.Prelude.{◌≡◌, ◌+◌, ◌-◌, ◌<◌, ◌≤◌, ◌^◌, not, pos, negsuc, IfOk, OnOk};
ghost use Rattle.c_ast.specs.declared.Bound.TheVariants as bounds;
ghost use Rattle.c_ast.specs.declared.Op.TheVariants as ops;
ghost use Rattle.c_ast.specs.Syntax.{num, var, element as element_of, neg, bin, scalar, cell as cell_of, set as assign, ask, limit as limit_asked, loop, call};
ghost use Rattle.c_ast.specs.Syntax.{next};
ghost use Rattle.sci_base.specs.declared.observation.EndWord.TheVariants as ends;
ghost use Rattle.c_ast.specs.View.{exp_of, statement_of, statements_of};
ghost use Rattle.c_mean.specs.Texts.{joined, place as place_of, number as number_of};
ghost use Rattle.sci_due.specs.Due.{scan as scan_name, dates as dates_name, now as now_name};
ghost use Rattle.sci_due.specs.declared.due_table.TheConstants.{GROUP};
ghost use Rattle.sci_due.specs.Texts.{stale_at};
ghost use Rattle.sci_program.specs.Names.{actives as actives_name, branches as branches_name, until_name, limit_name, fired_name, next_date as next_date_name};
ghost use Rattle.sci_program.specs.Names.{source_name, clear_name, event_name};
ghost use Rattle.sci_program.specs.Program.{natural as natural_of, one, text_where, react_step, end_or as end_or_of, end_number as end_number_of, end_told, halted_or as halted_or_of};
ghost use Rattle.sci_program.specs.Program.{fire_text as fire_text_of, event_text as event_text_of, turn_text as turn_text_of, first_text};
ghost use Rattle.sci_program.specs.Program.{has_sync as has_sync_of, port_count as port_count_of, chosen_place as chosen_place_of, main_text as main_text_of};
ghost use Rattle.sci_program.specs.Program.{clear_text as clear_text_of, choose_text as choose_text_of};
ghost use Rattle.sci_cgen_base.specs.Layouts.{AreLaid};

use crate::outset_texts::push_outset;
use c_ast::{Ask, Bound, Expr, Name, Op, Stmt, Target, Tell};
use sci_base::{EndWord, NoMemory};
use sci_cgen_base::names::{
    actives, branches, choose, clear, event, fired, halt, limit, source_function, until,
};
use sci_cgen_base::{has_groups, has_halt, has_sync, port_count};
use sci_cgen_blocks::BlockLayout;
use sci_cgen_blocks::writing::{bin, either, element, number, repeated};
use sci_due::GROUP;
use sci_due_texts::names::{chosen, dates, fresh, next_date, now, scan};
use sci_due_texts::pieces::{natural, push};
use sci_due_texts::scan_text;
use sci_net::Net;
use std::alloc::Global;

/// The element of an array at the scan's counter becomes 0.
fn cleared(array: Name) -> Stmt
    ensures { statement_of result ≡ assign (cell_of array (var scan_name)) (natural_of 0) }
{
    Stmt::Set(Target::At(array, Expr::Var(scan())), natural(0))
}

/// The statements of a turn that clears.
fn clear_turn(alloc: Global, net: &Net) -> Result<Vec<Stmt>, NoMemory>
    ensures { IfOk result (λ v. statements_of v.items ≡ next (assign (cell_of actives_name (var scan_name)) (natural_of 0))
        (text_where (has_sync_of net.now) (one (assign (cell_of branches_name (var scan_name)) (natural_of 0))))) }
{
    if has_sync(net) {
        Ok(vec![in alloc; cleared(actives()), cleared(branches())]?)
    } else {
        Ok(vec![in alloc; cleared(actives())]?)
    }
}

/// No block is active, and none has taken a branch.
pub fn clear_text(alloc: Global, net: &Net) -> Result<Vec<Stmt>, NoMemory>
    ensures { IfOk result (λ v. statements_of v.items ≡ clear_text_of net.now) }
{
    let turn = clear_turn(alloc, net)?;
    Ok(vec![in alloc; repeated(scan(), net.len(), turn)]?)
}

/// The date of the next event becomes -1, for none.
fn undated(alloc: Global) -> Result<Stmt, NoMemory>
    ensures { IfOk result (λ s. statement_of s ≡ assign (scalar next_date_name) (number_of (negsuc 0))) }
{
    Ok(Stmt::Set(Target::Var(next_date()), number(alloc, -1)?))
}

/// The date of the only source.
fn only_text(alloc: Global) -> Result<Vec<Stmt>, NoMemory>
    ensures { IfOk result (λ v. statements_of v.items ≡ one (assign (scalar next_date_name) (place_of dates_name 0))) }
{
    let date = element(alloc, dates(), 0)?;
    Ok(vec![in alloc; Stmt::Set(Target::Var(next_date()), date)]?)
}

/// Of all sources the one whose event comes first, and its date.
pub fn choose_text(alloc: Global, net: &Net) -> Result<Vec<Stmt>, NoMemory>
    ensures { IfOk result (λ v. statements_of v.items ≡ choose_text_of net.now) }
{
    net.well_formed();
    let ports = port_count(net);
    if 1 < ports {
        scan_text(alloc, ports)
    } else {
        only_text(alloc)
    }
}

/// The number by which `sci_end` is told why a run ends.
fn end_number(word: EndWord) -> u32
    ensures { result ≡ end_number_of word }
{
    match word {
        EndWord::Halt => 0,
        EndWord::Events => 1,
        EndWord::Empty => 2,
        EndWord::Until => 3,
    }
}

/// The run ends with this word.
fn finish(word: EndWord) -> Stmt
    ensures { statement_of result ≡ end_told word }
{
    Stmt::Tell(Tell::End(natural(end_number(word))))
}

/// The run ends with this word where a test isn't 0, and else the statements are done.
fn end_or(alloc: Global, test: Expr, word: EndWord, rest: Vec<Stmt>) -> Result<Vec<Stmt>, NoMemory>
    ensures { IfOk result (λ v. statements_of v.items ≡ end_or_of (exp_of test) word (statements_of rest.items)) }
{
    let end = vec![in alloc; finish(word)]?;
    Ok(vec![in alloc; either(test, end, rest)]?)
}

/// The run ends where a HALT_f was active, and else the statements are done.
fn halted_or(alloc: Global, net: &Net, rest: Vec<Stmt>) -> Result<Vec<Stmt>, NoMemory>
    ensures { IfOk result (λ v. statements_of v.items ≡ halted_or_of net.now (statements_of rest.items)) }
{
    if has_halt(net) {
        end_or(alloc, Expr::Var(halt()), EndWord::Halt, rest)
    } else {
        Ok(rest)
    }
}

/// The place of the chosen source; that of the only one, where there is one.
fn chosen_place(net: &Net) -> Expr
    ensures { exp_of result ≡ chosen_place_of (port_count_of net.now) }
{
    if 1 < port_count(net) {
        Expr::Var(chosen())
    } else {
        natural(0)
    }
}

/// The date of the reaction becomes that of the chosen event.
fn dated(alloc: Global, net: &Net) -> Result<Stmt, NoMemory>
    ensures { IfOk result (λ s. statement_of s ≡ assign (scalar now_name) (element_of dates_name (chosen_place_of (port_count_of net.now)))) }
{
    let date = Expr::At(dates(), Box::new(alloc, chosen_place(net))?);
    Ok(Stmt::Set(Target::Var(now()), date))
}

/// The chosen event is no longer pending.
fn freed(alloc: Global, net: &Net) -> Result<Stmt, NoMemory>
    ensures { IfOk result (λ s. statement_of s ≡ assign (cell_of dates_name (chosen_place_of (port_count_of net.now))) (neg (num (pos 1)))) }
{
    let none = number(alloc, -1)?;
    Ok(Stmt::Set(Target::At(dates(), chosen_place(net)), none))
}

/// How many sources the first half has, where so many decisions are left.
fn half(depth: u32) -> u32
    requires least { 1 ≤ depth }
    requires most { depth ≤ 11 }
    ensures { result ≡ 2 ^ (depth - 1) }
{
    1 << (depth - 1)
}

/// Of `count` sources from number `first` on, counted from 0 without start, the chosen one reacts. Half of them are asked about after half.
#[tactic(auto, using(sci_program::proofs::Halves::react_one, sci_program::proofs::Halves::react_within, sci_program::proofs::Halves::react_halved))]
fn react(alloc: Global, depth: u32, first: u32, count: u32) -> Result<Stmt, NoMemory>
    requires depth { depth ≤ 11 }
    requires few { first + count < 2 ^ 30 }
    ensures { IfOk result (λ s. statement_of s ≡ react_step depth first count) }
{
    if depth == 0 {
        return Ok(Stmt::Call(source_function(first + 1)));
    }
    let half = half(depth);
    if count <= half {
        return react(alloc, depth - 1, first, count);
    }
    let below = react(alloc, depth - 1, first, half)?;
    let above = react(alloc, depth - 1, first + half, count - half)?;
    let test = bin(alloc, Op::Lt, Expr::Var(chosen()), natural(first + half))?;
    Ok(either(test, vec![in alloc; below]?, vec![in alloc; above]?))
}

/// The first of the chosen source's group isn't known any more, where there are groups.
fn push_stale(alloc: Global, out: &mut Vec<Stmt>, net: &Net) -> Result<(), NoMemory>
    ensures { OnOk result (statements_of out.new.items ≡ joined (statements_of out.old.items)
        (stale_at (port_count_of net.now) (bin ops.Div (chosen_place_of (port_count_of net.now)) (natural_of GROUP)))) }
{
    if has_groups(net) {
        let group = bin(alloc, Op::Div, chosen_place(net), natural(GROUP))?;
        push(out, Stmt::Set(Target::At(fresh(), group), natural(0)))
    } else {
        Ok(())
    }
}

/// What comes before a reaction, where the sources have no texts of their own.
fn push_before(out: &mut Vec<Stmt>, own: bool) -> Result<(), NoMemory>
    ensures { OnOk result (statements_of out.new.items ≡ joined (statements_of out.old.items) (text_where (not own) (one (call clear_name)))) }
{
    if own {
        Ok(())
    } else {
        push(out, Stmt::Call(clear()))
    }
}

/// The chosen event is taken, and its source reacts.
fn push_fire(alloc: Global, out: &mut Vec<Stmt>, net: &Net, own: bool) -> Result<(), NoMemory>
    ensures { OnOk result (statements_of out.new.items ≡ joined (statements_of out.old.items) (fire_text_of own net.now)) }
{
    net.well_formed();
    push(out, dated(alloc, net)?)?;
    push(out, freed(alloc, net)?)?;
    push_stale(alloc, out, net)?;
    push_before(out, own)?;
    push(out, react(alloc, 11, 0, port_count(net))?)?;
    push(out, Stmt::Call(choose()))?;
    Ok(())
}

/// Whether no event is pending.
fn is_none(alloc: Global) -> Result<Expr, NoMemory>
    ensures { IfOk result (λ e. exp_of e ≡ bin ops.Lt (var next_date_name) (natural_of 0)) }
{
    bin(alloc, Op::Lt, Expr::Var(next_date()), natural(0))
}

/// Whether the next event comes behind the bound on time.
fn is_late(alloc: Global) -> Result<Expr, NoMemory>
    ensures { IfOk result (λ e. exp_of e ≡ bin ops.Gt (var next_date_name) (var until_name)) }
{
    bin(alloc, Op::Gt, Expr::Var(next_date()), Expr::Var(until()))
}

/// The chosen event is taken, and its source reacts.
fn fire_text(alloc: Global, net: &Net, own: bool) -> Result<Vec<Stmt>, NoMemory>
    ensures { IfOk result (λ v. statements_of v.items ≡ fire_text_of own net.now) }
{
    let mut out = Vec::new(alloc);
    push_fire(alloc, &mut out, net, own)?;
    Ok(out)
}

/// The next event fires; where none is pending, or none by the bound on time, the run ends.
fn next_text(alloc: Global, net: &Net, own: bool) -> Result<Vec<Stmt>, NoMemory>
    ensures { IfOk result (λ v. statements_of v.items ≡ end_or_of (bin ops.Lt (var next_date_name) (natural_of 0)) ends.Empty
        (end_or_of (bin ops.Gt (var next_date_name) (var until_name)) ends.Until (fire_text_of own net.now))) }
{
    let fire = fire_text(alloc, net, own)?;
    let late = is_late(alloc)?;
    let in_time = end_or(alloc, late, EndWord::Until, fire)?;
    let none = is_none(alloc)?;
    end_or(alloc, none, EndWord::Empty, in_time)
}

/// The next event, or the end of a run without sources of events.
fn event_text(alloc: Global, net: &Net, own: bool) -> Result<Vec<Stmt>, NoMemory>
    ensures { IfOk result (λ v. statements_of v.items ≡ event_text_of own net.now) }
{
    if 0 < port_count(net) {
        next_text(alloc, net, own)
    } else {
        Ok(vec![in alloc; finish(EndWord::Empty)]?)
    }
}

/// The statements of the function of one event.
pub fn turn_text(alloc: Global, net: &Net, own: bool) -> Result<Vec<Stmt>, NoMemory>
    ensures { IfOk result (λ v. statements_of v.items ≡ turn_text_of own net.now) }
{
    let event = event_text(alloc, net, own)?;
    halted_or(alloc, net, event)
}

/// Statements again and again, while a counter goes from 0 up to the value of a scalar.
fn counted(counter: Name, bound: Name, body: Vec<Stmt>) -> Stmt
    ensures { statement_of result ≡ loop counter (bounds.Var bound) (statements_of body.items) }
{
    Stmt::For(counter, Bound::Var(bound), body)
}

/// A call for each event, up to the bound on events.
fn turns(alloc: Global) -> Result<Stmt, NoMemory>
    ensures { IfOk result (λ s. statement_of s ≡ loop fired_name (bounds.Var limit_name) (one (call event_name))) }
{
    Ok(counted(fired(), limit(), vec![in alloc; Stmt::Call(event())]?))
}

/// The first event is chosen, where there are sources of events.
fn push_first(alloc: Global, out: &mut Vec<Stmt>, net: &Net) -> Result<(), NoMemory>
    ensures { OnOk result (statements_of out.new.items ≡ joined (statements_of out.old.items) (first_text net.now)) }
{
    if 0 < port_count(net) {
        push(out, Stmt::Call(choose()))
    } else {
        push(out, undated(alloc)?)
    }
}

/// The bound on events is asked for, start reacts, and the first event is chosen.
fn push_start(alloc: Global, out: &mut Vec<Stmt>, net: &Net) -> Result<(), NoMemory>
    ensures { OnOk result (statements_of out.new.items ≡ joined (statements_of out.old.items)
        (next (ask (scalar limit_name) limit_asked) (next (call (source_name 0)) (first_text net.now)))) }
{
    push(out, Stmt::Ask(Target::Var(limit()), Ask::Limit))?;
    push(out, Stmt::Call(source_function(0)))?;
    push_first(alloc, out, net)?;
    Ok(())
}

/// The run ends by the bound on events, or where a HALT_f was active.
fn push_end(alloc: Global, out: &mut Vec<Stmt>, net: &Net) -> Result<(), NoMemory>
    ensures { OnOk result (statements_of out.new.items ≡ joined (statements_of out.old.items) (halted_or_of net.now (one (end_told ends.Events)))) }
{
    if has_halt(net) {
        let halted = vec![in alloc; finish(EndWord::Halt)]?;
        let end = vec![in alloc; finish(EndWord::Events)]?;
        push(out, either(Expr::Var(halt()), halted, end))
    } else {
        push(out, finish(EndWord::Events))
    }
}

/// A call for each event; where the bound on events is reached, the run ends.
fn push_run(alloc: Global, out: &mut Vec<Stmt>, net: &Net) -> Result<(), NoMemory>
    ensures { OnOk result (statements_of out.new.items ≡ joined (statements_of out.old.items)
        (next (loop fired_name (bounds.Var limit_name) (one (call event_name))) (halted_or_of net.now (one (end_told ends.Events))))) }
{
    push(out, turns(alloc)?)?;
    push_end(alloc, out, net)?;
    Ok(())
}

/// The statements of `sci_main`.
pub fn main_text(alloc: Global, net: &Net, layouts: &[BlockLayout]) -> Result<Vec<Stmt>, NoMemory>
    requires laid { AreLaid net.now layouts.now }
    ensures { IfOk result (λ v. statements_of v.items ≡ main_text_of net.now) }
{
    let mut out = Vec::new(alloc);
    push_outset(alloc, &mut out, net, layouts)?;
    push_start(alloc, &mut out, net)?;
    push_run(alloc, &mut out, net)?;
    Ok(out)
}
