// What follows a reaction's values: they are observed, active blocks program events, states step, and a HALT_f halts.
ghost use Rattle.std.specs.Prelude.{◌≡◌, ◌+◌, ◌<◌, ◌≤◌, ◌^◌, length, IfOk, OnOk};
ghost use Rattle.sci_base.specs.declared.limits.TheConstants.{PORTS};
ghost use Rattle.sci_forms.specs.Ports.{total};
ghost use Rattle.sci_net.specs.declared.Source.TheVariants as sources;
ghost use Rattle.sci_net.specs.Parts.{IsBlock};
ghost use Rattle.sci_net.specs.Sources.{sources_of, source_of};
ghost use Rattle.sci_reaction.specs.Links.{IsSource};
ghost use Rattle.c_ast.specs.Syntax.{tell, value as value_told};
ghost use Rattle.c_ast.specs.View.{exp_of, statement_of, statements_of};
ghost use Rattle.c_mean.specs.Texts.{joined, place as element_at};
ghost use Rattle.sci_cgen_blocks.specs.Texts.{values as values_name};
ghost use Rattle.sci_program.specs.Program.{natural as natural_of, is_active as is_active_of, has_taken as has_taken_of, where_part, elements_shown};
ghost use Rattle.sci_program.specs.Program.{looped_shown as looped_shown_of, output_shown, outputs_shown, values_shown, delay_text, state_text, halt_text};
ghost use Rattle.sci_program.specs.Program.{each_block, each_port, settle_text as settle_text_of};
ghost use Rattle.sci_cgen_base.specs.Layouts.{AreLaid};
ghost use Rattle.sci_cgen_sources.specs.Taking.{takes};

use crate::parts::{Taking, part_of, takes_no_part};
use c_ast::{Expr, Op, Stmt, Target, Tell};
use sci_base::NoMemory;
use sci_cgen_base::names::{actives, branches, halt};
use sci_cgen_base::{due_table, layout};
use sci_cgen_blocks::array_names::{scratch, values};
use sci_cgen_blocks::writing::{bin, counted_place, element, indexed, repeated};
use sci_cgen_blocks::{BlockLayout, block_delay, block_next};
use sci_due_texts::delayed_text;
use sci_due_texts::pieces::{natural, push, push_all, push_where};
use sci_forms::Ports;
use sci_net::{Feed, Net, Source};
use sci_program::Part;
use std::alloc::Global;

/// Whether a block is active.
fn is_active(alloc: Global, block: u32) -> Result<Expr, NoMemory>
    requires { 1 ≤ block }
    ensures { IfOk result (λ e. exp_of e ≡ is_active_of block) }
{
    element(alloc, actives(), u64::from(block - 1))
}

/// Whether a block has taken this activation output.
pub(crate) fn has_taken(alloc: Global, output: Feed) -> Result<Expr, NoMemory>
    ensures { IfOk result (λ e. exp_of e ≡ has_taken_of output) }
{
    let branch = element(alloc, branches(), u64::from(output.block.saturating_sub(1)))?;
    bin(alloc, Op::Eq, branch, natural(output.port))
}

/// Statements for where a block takes part so.
pub(crate) fn push_where_part(
    alloc: Global,
    out: &mut Vec<Stmt>,
    part: Part,
    block: u32,
    body: Vec<Stmt>,
) -> Result<(), NoMemory>
    requires { 1 ≤ block }
    ensures { OnOk result (statements_of out.new.items ≡ joined (statements_of out.old.items) (where_part part block (statements_of body.items))) }
{
    match part {
        Part::Absent => Ok(()),
        Part::Sure => push_all(out, body),
        Part::Marked => push_where(alloc, out, is_active(alloc, block)?, body),
        Part::Taken(output) => push_where(alloc, out, has_taken(alloc, output)?, body),
    }
}

/// Statements for where a block takes part.
fn push_part(
    alloc: Global,
    out: &mut Vec<Stmt>,
    taking: &Taking,
    block: u32,
    body: Vec<Stmt>,
) -> Result<(), NoMemory>
    requires { 1 ≤ block }
    ensures { OnOk result (statements_of out.new.items
        ≡ joined (statements_of out.old.items) (where_part (takes taking.now block) block (statements_of body.items))) }
{
    push_where_part(alloc, out, part_of(taking, block), block, body)
}

/// The value at a place is observed as that of an element of an output.
fn value_shown(
    alloc: Global,
    block: u32,
    port: u32,
    number: u32,
    place: u32,
) -> Result<Stmt, NoMemory>
    ensures { IfOk result (λ s. statement_of s ≡ tell (value_told (natural_of block) (natural_of port) (natural_of number) (element_at values_name place))) }
{
    let value = element(alloc, values(), u64::from(place))?;
    Ok(Stmt::Tell(Tell::Val(natural(block), natural(port), natural(number), value)))
}

/// The values of an output's elements, the first of which lies at `start`, one after the other.
fn push_elements(
    alloc: Global,
    out: &mut Vec<Stmt>,
    block: u32,
    port: u32,
    start: u32,
    count: u32,
) -> Result<(), NoMemory>
    requires { start + count ≤ 2 ^ 20 }
    ensures { OnOk result (statements_of out.new.items ≡ joined (statements_of out.old.items) (elements_shown block port 1 start count)) }
{
    for at in 0..count {
        push(out, value_shown(alloc, block, port, at + 1, start + at)?)?;
    }
    Ok(())
}

/// The values of an output's elements, the first of which lies at `start`, in a loop.
fn looped_shown(
    alloc: Global,
    block: u32,
    port: u32,
    start: u32,
    count: u32,
) -> Result<Stmt, NoMemory>
    ensures { IfOk result (λ s. statement_of s ≡ looped_shown_of block port start count) }
{
    let number = counted_place(alloc, 1, 1)?;
    let value = indexed(alloc, values(), counted_place(alloc, 1, start as u64)?)?;
    let shown = Stmt::Tell(Tell::Val(natural(block), natural(port), number, value));
    let body = vec![in alloc; shown]?;
    Ok(repeated(scratch(1), count, body))
}

/// The values of an output's elements, the first of which lies at `start`: in a loop, where there are three or more.
fn push_output(
    alloc: Global,
    out: &mut Vec<Stmt>,
    block: u32,
    port: u32,
    start: u32,
    count: u32,
) -> Result<(), NoMemory>
    requires { start + count ≤ 2 ^ 20 }
    ensures { OnOk result (statements_of out.new.items ≡ joined (statements_of out.old.items) (output_shown block port start count)) }
{
    if 2 < count {
        push(out, looped_shown(alloc, block, port, start, count)?)
    } else {
        push_elements(alloc, out, block, port, start, count)
    }
}

/// The values of a block's outputs, the first of which lies at `start`.
fn push_outputs(
    alloc: Global,
    out: &mut Vec<Stmt>,
    block: u32,
    start: u32,
    outs: &Ports,
) -> Result<(), NoMemory>
    requires few { length outs.now ≤ PORTS }
    requires within { start + total outs.now ≤ 2 ^ 20 }
    ensures { OnOk result (statements_of out.new.items ≡ joined (statements_of out.old.items) (outputs_shown block 1 start outs.now)) }
{
    let mut place = start;
    for port in 0..outs.len() {
        let count = outs.get(port).elements() as u32;
        push_output(alloc, out, block, port as u32 + 1, place, count)?;
        place += count;
    }
    Ok(())
}

/// The values of a block are observed, where it takes part.
fn push_values(
    alloc: Global,
    out: &mut Vec<Stmt>,
    net: &Net,
    layouts: &[BlockLayout],
    taking: &Taking,
    block: u32,
) -> Result<(), NoMemory>
    requires laid { AreLaid net.now layouts.now }
    requires block { IsBlock net.now block }
    ensures { OnOk result (statements_of out.new.items ≡ joined (statements_of out.old.items) (values_shown net.now (takes taking.now) block)) }
{
    net.well_formed();
    if takes_no_part(taking, block) {
        return Ok(());
    }
    let outs = &net.spec(block).outs;
    if outs.len() == 0 {
        return Ok(());
    }
    let mut shown = Vec::new(alloc);
    push_outputs(alloc, &mut shown, block, layout(layouts, block).outs, outs)?;
    push_part(alloc, out, taking, block, shown)
}

/// The values of all blocks that take part are observed.
fn push_all_values(
    alloc: Global,
    out: &mut Vec<Stmt>,
    net: &Net,
    layouts: &[BlockLayout],
    taking: &Taking,
) -> Result<(), NoMemory>
    requires laid { AreLaid net.now layouts.now }
    ensures { OnOk result (statements_of out.new.items ≡ joined (statements_of out.old.items) (each_block (values_shown net.now (takes taking.now)) net.now)) }
{
    for at in 0..net.len() {
        push_values(alloc, out, net, layouts, taking, at + 1)?;
    }
    Ok(())
}

/// A source that is an activation output is programmed with its delay, where the output's block takes part.
fn push_port_delay(
    alloc: Global,
    out: &mut Vec<Stmt>,
    net: &Net,
    layouts: &[BlockLayout],
    taking: &Taking,
    source: u32,
    q: Feed,
) -> Result<(), NoMemory>
    requires laid { AreLaid net.now layouts.now }
    requires least { 1 ≤ source }
    requires port { IsSource net.now (sources.Port q) }
    ensures { OnOk result (statements_of out.new.items ≡ joined (statements_of out.old.items) (delay_text net.now (takes taking.now) source (sources.Port q))) }
{
    net.well_formed();
    if takes_no_part(taking, q.block) {
        return Ok(());
    }
    let spec = net.spec(q.block);
    let ticks = block_delay(alloc, spec, layout(layouts, q.block))?;
    let programs = delayed_text(alloc, due_table(net), source - 1, ticks)?;
    push_part(alloc, out, taking, q.block, programs)
}

/// A source is programmed with its delay, where its block takes part.
fn push_delay(
    alloc: Global,
    out: &mut Vec<Stmt>,
    net: &Net,
    layouts: &[BlockLayout],
    taking: &Taking,
    source: u32,
) -> Result<(), NoMemory>
    requires laid { AreLaid net.now layouts.now }
    requires least { 1 ≤ source }
    requires most { source < length (sources_of net.now) }
    ensures { OnOk result (statements_of out.new.items
        ≡ joined (statements_of out.old.items) (delay_text net.now (takes taking.now) source (source_of net.now source))) }
{
    match net.source(source) {
        Source::Start => Ok(()),
        Source::Port(q) => push_port_delay(alloc, out, net, layouts, taking, source, q),
    }
}

/// All sources of blocks that take part are programmed.
fn push_delays(
    alloc: Global,
    out: &mut Vec<Stmt>,
    net: &Net,
    layouts: &[BlockLayout],
    taking: &Taking,
) -> Result<(), NoMemory>
    requires laid { AreLaid net.now layouts.now }
    ensures { OnOk result (statements_of out.new.items ≡ joined (statements_of out.old.items)
        (each_port (λ i. delay_text net.now (takes taking.now) i (source_of net.now i)) net.now)) }
{
    for at in 0..net.source_count() - 1 {
        push_delay(alloc, out, net, layouts, taking, at + 1)?;
    }
    Ok(())
}

/// The state of a block steps, where it has one and takes part.
fn push_state(
    alloc: Global,
    out: &mut Vec<Stmt>,
    net: &Net,
    layouts: &[BlockLayout],
    taking: &Taking,
    block: u32,
) -> Result<(), NoMemory>
    requires laid { AreLaid net.now layouts.now }
    requires block { IsBlock net.now block }
    ensures { OnOk result (statements_of out.new.items ≡ joined (statements_of out.old.items) (state_text net.now (takes taking.now) block)) }
{
    net.well_formed();
    if takes_no_part(taking, block) {
        return Ok(());
    }
    let spec = net.spec(block);
    if !spec.kind.has_state() {
        return Ok(());
    }
    let steps = block_next(alloc, spec, layout(layouts, block))?;
    push_part(alloc, out, taking, block, steps)
}

/// The states of all blocks that take part step.
fn push_states(
    alloc: Global,
    out: &mut Vec<Stmt>,
    net: &Net,
    layouts: &[BlockLayout],
    taking: &Taking,
) -> Result<(), NoMemory>
    requires laid { AreLaid net.now layouts.now }
    ensures { OnOk result (statements_of out.new.items ≡ joined (statements_of out.old.items) (each_block (state_text net.now (takes taking.now)) net.now)) }
{
    for at in 0..net.len() {
        push_state(alloc, out, net, layouts, taking, at + 1)?;
    }
    Ok(())
}

/// The run is to end, where the block is a HALT_f that takes part.
fn push_halt(
    alloc: Global,
    out: &mut Vec<Stmt>,
    net: &Net,
    taking: &Taking,
    block: u32,
) -> Result<(), NoMemory>
    requires { IsBlock net.now block }
    ensures { OnOk result (statements_of out.new.items ≡ joined (statements_of out.old.items) (halt_text net.now (takes taking.now) block)) }
{
    if takes_no_part(taking, block) {
        return Ok(());
    }
    if !net.spec(block).kind.is_halt() {
        return Ok(());
    }
    let halts = vec![in alloc; Stmt::Set(Target::Var(halt()), natural(1))]?;
    push_part(alloc, out, taking, block, halts)
}

/// The run is to end, where a HALT_f takes part.
fn push_halts(
    alloc: Global,
    out: &mut Vec<Stmt>,
    net: &Net,
    taking: &Taking,
) -> Result<(), NoMemory>
    ensures { OnOk result (statements_of out.new.items ≡ joined (statements_of out.old.items) (each_block (halt_text net.now (takes taking.now)) net.now)) }
{
    for at in 0..net.len() {
        push_halt(alloc, out, net, taking, at + 1)?;
    }
    Ok(())
}

/// What follows a reaction's values.
pub(crate) fn push_settle(
    alloc: Global,
    out: &mut Vec<Stmt>,
    net: &Net,
    layouts: &[BlockLayout],
    taking: &Taking,
) -> Result<(), NoMemory>
    requires laid { AreLaid net.now layouts.now }
    ensures { OnOk result (statements_of out.new.items ≡ joined (statements_of out.old.items) (settle_text_of net.now (takes taking.now))) }
{
    push_all_values(alloc, out, net, layouts, taking)?;
    push_delays(alloc, out, net, layouts, taking)?;
    push_states(alloc, out, net, layouts, taking)?;
    push_halts(alloc, out, net, taking)
}
