// What the arrays hold before the run.
ghost use Rattle.std.specs.Prelude.{◌≡◌, ◌≤ℤ◌, ◌<◌, ◌≤◌, ◌+◌, ◌^◌, true, negsuc, length, nat_lt, if◌then◌else◌, IfOk, OnOk};
ghost use Rattle.sci_base.specs.Lists.{spread as spread_over};
ghost use Rattle.sci_forms.specs.Ports.{total};
ghost use Rattle.sci_forms.specs.Typed.{typed};
ghost use Rattle.sci_forms.specs.Words.{state_len_of};
ghost use Rattle.sci_kinds.specs.Table.{first_held as held_at_first, first_state as state_at_first};
ghost use Rattle.sci_net.specs.Sources.{sources_of, source_of};
ghost use Rattle.c_ast.specs.Syntax.{scalar, set as assign, ask as asking, until as last_date};
ghost use Rattle.c_ast.specs.View.{statements_of};
ghost use Rattle.c_mean.specs.Texts.{joined};
ghost use Rattle.sci_cgen_blocks.specs.Texts.{values as values_name, states as states_name};
ghost use Rattle.sci_due.specs.Due.{last as programmed_name};
ghost use Rattle.sci_program.specs.Names.{until_name};
ghost use Rattle.sci_program.specs.Program.{natural as natural_of, one, text_where, each_block, each_port, port_count, begun_text, list_begun, held_begun};
ghost use Rattle.sci_program.specs.Program.{state_begun, firing_at, is_programmed, programmed_before, firing_begun, source_begun, outset_text};
ghost use Rattle.sci_cgen_base.specs.Layouts.{AreLaid};

use c_ast::{Ask, Name, Stmt, Target};
use sci_base::{Ints, NoMemory};
use sci_cgen_base::names::until;
use sci_cgen_base::{has_several, layout};
use sci_cgen_blocks::BlockLayout;
use sci_cgen_blocks::array_names::{states, values};
use sci_cgen_blocks::writing::number;
use sci_due_texts::names::{dates, orders, programmed};
use sci_due_texts::pieces::{cell, natural, push};
use sci_kinds::Spec;
use sci_net::{Net, Source};
use std::alloc::Global;

/// An element of an array becomes a number, where it isn't 0 as all are at the beginning.
fn push_begun(
    alloc: Global,
    out: &mut Vec<Stmt>,
    array: Name,
    at: u32,
    value: i64,
) -> Result<(), NoMemory>
    requires { negsuc 9223372036854775806 ≤ℤ value }
    ensures { OnOk result (statements_of out.new.items ≡ joined (statements_of out.old.items) (begun_text array at value)) }
{
    if value == 0 {
        Ok(())
    } else {
        push(out, Stmt::Set(cell(array, at), number(alloc, value)?))
    }
}

/// Number `e` of a list, or its one number for all.
fn spread(values: &Ints, e: usize) -> i64
    ensures { result ≡ spread_over values.now e }
{
    if values.len() == 1 {
        values.at(0)
    } else {
        values.at(e)
    }
}

/// The values of a block's outputs before its first activation.
fn push_held(alloc: Global, out: &mut Vec<Stmt>, s: &Spec, at: &BlockLayout) -> Result<(), NoMemory>
    requires is_typed { typed s.now ≡ true }
    requires few { at.now.outs + total s.now.outs ≤ 2 ^ 20 }
    ensures { OnOk result (statements_of out.new.items ≡ joined (statements_of out.old.items) (list_begun values_name at.now.outs (held_at_first s.now))) }
{
    for e in 0..s.outs.total() {
        push_begun(alloc, out, values(), at.outs + e, s.held(e as usize))?;
    }
    Ok(())
}

/// The first state of a block.
fn push_state(
    alloc: Global,
    out: &mut Vec<Stmt>,
    s: &Spec,
    at: &BlockLayout,
) -> Result<(), NoMemory>
    requires is_typed { typed s.now ≡ true }
    requires few { at.now.state + state_len_of s.now.kind s.now ≤ 2 ^ 20 }
    ensures { OnOk result (statements_of out.new.items ≡ joined (statements_of out.old.items) (list_begun states_name at.now.state (state_at_first s.now))) }
{
    for i in 0..s.state_len() {
        push_begun(
            alloc,
            out,
            states(),
            at.state + i as u32,
            spread(&s.state, i),
        )?;
    }
    Ok(())
}

/// The values of all blocks' outputs before the run.
fn push_all_held(
    alloc: Global,
    out: &mut Vec<Stmt>,
    net: &Net,
    layouts: &[BlockLayout],
) -> Result<(), NoMemory>
    requires laid { AreLaid net.now layouts.now }
    ensures { OnOk result (statements_of out.new.items ≡ joined (statements_of out.old.items) (each_block (held_begun net.now) net.now)) }
{
    net.well_formed();
    for block in 0..net.len() {
        push_held(alloc, out, net.spec(block + 1), layout(layouts, block + 1))?;
    }
    Ok(())
}

/// The first states of all blocks.
fn push_all_states(
    alloc: Global,
    out: &mut Vec<Stmt>,
    net: &Net,
    layouts: &[BlockLayout],
) -> Result<(), NoMemory>
    requires laid { AreLaid net.now layouts.now }
    ensures { OnOk result (statements_of out.new.items ≡ joined (statements_of out.old.items) (each_block (state_begun net.now) net.now)) }
{
    net.well_formed();
    for block in 0..net.len() {
        push_state(alloc, out, net.spec(block + 1), layout(layouts, block + 1))?;
    }
    Ok(())
}

/// The date of a source's event before the run, or a number below 0.
fn firing(net: &Net, source: u32) -> i64
    requires { source < length (sources_of net.now) }
    ensures { result ≡ firing_at net.now (source_of net.now source) }
{
    match net.source(source) {
        Source::Start => -1,
        Source::Port(q) => {
            let firing = &net.spec(q.block).firing;
            if q.port as usize <= firing.len() {
                firing.get(q.port as usize - 1)
            } else {
                -1
            }
        }
    }
}

/// The event of a source before the run: its date and its order, or that it has none.
fn push_firing(
    alloc: Global,
    out: &mut Vec<Stmt>,
    source: u32,
    order: u32,
    firing: i64,
) -> Result<(), NoMemory>
    requires { 1 ≤ source }
    ensures { OnOk result (statements_of out.new.items ≡ joined (statements_of out.old.items) (firing_begun source order firing)) }
{
    if firing < 0 {
        push(
            out,
            Stmt::Set(cell(dates(), source - 1), number(alloc, -1)?),
        )
    } else {
        push_begun(alloc, out, dates(), source - 1, firing)?;
        push_begun(alloc, out, orders(), source - 1, i64::from(order))
    }
}

/// One event more, where there is one.
fn counted(count: u32, firing: i64) -> u32
    requires { count < 2 ^ 31 }
    ensures { result ≡ count + (if is_programmed firing then 1 else 0) }
{
    if firing < 0 { count } else { count + 1 }
}

/// The events of all sources before the run, and how many there are.
fn push_firings(alloc: Global, out: &mut Vec<Stmt>, net: &Net) -> Result<u32, NoMemory>
    ensures count { IfOk result (λ k. k ≡ programmed_before net.now (length (sources_of net.now))) }
    ensures text { OnOk result (statements_of out.new.items ≡ joined (statements_of out.old.items) (each_port (source_begun net.now) net.now)) }
{
    net.well_formed();
    let mut count = 0;
    for source in 1..net.source_count() {
        let firing = firing(net, source);
        push_firing(alloc, out, source, count, firing)?;
        count = counted(count, firing);
    }
    Ok(count)
}

/// How many events were programmed, where there are several sources of events.
fn push_count(out: &mut Vec<Stmt>, net: &Net, count: u32) -> Result<(), NoMemory>
    ensures { OnOk result (statements_of out.new.items ≡ joined (statements_of out.old.items)
        (text_where (nat_lt 1 (port_count net.now)) (one (assign (scalar programmed_name) (natural_of count))))) }
{
    if has_several(net) {
        push(out, Stmt::Set(Target::Var(programmed()), natural(count)))
    } else {
        Ok(())
    }
}

/// Where any event may fire, how many were programmed, and the last date.
fn push_programmed(out: &mut Vec<Stmt>, net: &Net, count: u32) -> Result<(), NoMemory>
    ensures { OnOk result (statements_of out.new.items ≡ joined (statements_of out.old.items)
        (text_where (nat_lt 0 (port_count net.now))
        (joined (text_where (nat_lt 1 (port_count net.now)) (one (assign (scalar programmed_name) (natural_of count))))
        (one (asking (scalar until_name) last_date))))) }
{
    if net.source_count() > 1 {
        push_count(out, net, count)?;
        push(out, Stmt::Ask(Target::Var(until()), Ask::Until))
    } else {
        Ok(())
    }
}

/// Held values, first states, and the events before the run.
pub(crate) fn push_outset(
    alloc: Global,
    out: &mut Vec<Stmt>,
    net: &Net,
    layouts: &[BlockLayout],
) -> Result<(), NoMemory>
    requires laid { AreLaid net.now layouts.now }
    ensures { OnOk result (statements_of out.new.items ≡ joined (statements_of out.old.items) (outset_text net.now)) }
{
    push_all_held(alloc, out, net, layouts)?;
    push_all_states(alloc, out, net, layouts)?;
    let count = push_firings(alloc, out, net)?;
    push_programmed(out, net, count)
}
