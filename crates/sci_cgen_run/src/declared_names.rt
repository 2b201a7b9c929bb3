// The declarations of a program, and what decides them.
ghost use Rattle.std.specs.Prelude.{◌≡◌, ◌<◌, ◌≤◌, ◌^◌, ◌++◌, ◌∷◌, [], List, false, nat_lt, if◌then◌else◌, map, length, IfOk, OnOk};
ghost use Rattle.c_ast.specs.View.{declared_of};
ghost use Rattle.sci_forms.specs.Ports.{elements};
ghost use Rattle.sci_forms.specs.Words.{state_len_of};
ghost use Rattle.sci_net.specs.Parts.{numbered, spec_of};
ghost use Rattle.sci_net.specs.Net.{all_elements};
ghost use Rattle.sci_reaction.specs.Schedule.{Entry as PlainEntry};
ghost use Rattle.sci_due.specs.Due.{orders as orders_name, fresh as fresh_name, firsts as firsts_name, last as programmed_name, are_grouped as are_grouped_of};
ghost use Rattle.sci_due.specs.Due.{group_count as group_count_of};
ghost use Rattle.sci_cgen_blocks.specs.Terms.{is_looped as is_looped_by_count};
ghost use Rattle.sci_cgen_blocks.specs.Recipes.{scratch_of as scratch_of_kind};
ghost use Rattle.sci_cgen_blocks.specs.Texts.{values as values_name, states as states_name, masks as masks_name};
ghost use Rattle.sci_program.specs.Names.{actives as actives_name, branches as branches_name, limit_name, fired_name, next_date as next_date_name, halt_name};
ghost use Rattle.sci_program.specs.Program.{declarations as declarations_of, has_sync as has_sync_of, has_halt as has_halt_of, port_count as port_count_of};
ghost use Rattle.sci_program.specs.Program.{states_before, array as array_of, a_scalar, declared_where, due_arrays, event_scalars};
ghost use Rattle.sci_program.specs.Program.{is_any_looped as is_any_looped_of, counts_behind as counts_behind_of, has_loop as has_loop_of};
ghost use Rattle.sci_program.specs.Program.{scratch_count as scratch_count_of, scratch_declared};
ghost use Rattle.sci_cgen_base.specs.Layouts.{AreMarked};

use c_ast::{Decl, Name};
use sci_base::NoMemory;
use sci_cgen_base::names::{actives, branches, fired, halt, limit, until};
use sci_cgen_base::{has_halt, has_sync, is_marked, port_count};
use sci_cgen_blocks::array_names::{masks, scratch, states, values};
use sci_cgen_blocks::{counts_next, scratch_of};
use sci_due::GROUP;
use sci_due_texts::group_count;
use sci_due_texts::names::{
    chosen, dates, delay, firsts, fresh, next_date, now, orders, programmed, scan,
};
use sci_forms::{Port, Ports, Spec};
use sci_net::Net;
use std::alloc::Global;

/// How many elements all outputs have.
#[tactic(auto, using(crate::proofs::DeclaredLemmas::elements_more, crate::proofs::DeclaredLemmas::elements_end))]
fn element_count(net: &Net) -> u32
    ensures { result ≡ all_elements net.now.specs }
{
    net.well_formed();
    let mut count = 0;
    for at in 0..net.len() {
        count += net.spec(at + 1).outs.total();
    }
    count
}

/// How many values all states have.
#[tactic(auto, using(crate::proofs::DeclaredLemmas::states_more, crate::proofs::DeclaredLemmas::states_few))]
fn state_count(net: &Net) -> u32
    ensures { result ≡ states_before net.now.specs (length net.now.specs) }
{
    net.well_formed();
    let mut count = 0;
    for at in 0..net.len() {
        count += net.spec(at + 1).state_len() as u32;
    }
    count
}

/// How many scratch numbers a block takes where it is marked.
fn scratch_at(net: &Net, marks: &[bool], block: u32) -> u32
    requires least { 1 ≤ block }
    requires most { block ≤ length net.now.specs }
    ensures { result ≡ (if numbered false marks.now block then scratch_of_kind (spec_of net.now block).kind (spec_of net.now block) else 0) }
{
    if is_marked(marks, block) {
        scratch_of(net.spec(block))
    } else {
        0
    }
}

/// Whether the values of an output are observed in a loop.
fn is_looped(output: Port) -> bool
    ensures { result ≡ is_looped_by_count (elements output) }
{
    2 < output.elements()
}

/// Whether those of one of these outputs are.
fn is_any_looped(outs: &Ports) -> bool
    ensures { result ≡ is_any_looped_of outs.now }
{
    for port in 0..outs.len() {
        if is_looped(outs.get(port)) {
            return true;
        }
    }
    false
}

/// Whether those of a block are, or values of its next state are worked out in a loop.
fn counts_behind(s: &Spec) -> bool
    requires { state_len_of s.now.kind s.now < 2 ^ 32 }
    ensures { result ≡ counts_behind_of s.now }
{
    is_any_looped(&s.outs) || counts_next(s)
}

/// Whether one of the net does so.
fn has_loop(net: &Net) -> bool
    ensures { result ≡ has_loop_of net.now }
{
    net.well_formed();
    for at in 0..net.len() {
        if counts_behind(net.spec(at + 1)) {
            return true;
        }
    }
    false
}

/// How many scratch numbers such a loop takes.
fn loop_count(net: &Net) -> u32
    ensures { result ≡ (if has_loop_of net.now then 1 else 0) }
{
    if has_loop(net) { 1 } else { 0 }
}

/// How many scratch numbers it takes, or a marked block.
fn scratch_count(net: &Net, marks: &[bool]) -> u32
    ensures { (rows : List (List PlainEntry)) → AreMarked net.now rows marks.now → result ≡ scratch_count_of net.now rows (length net.now.specs) }
{
    let mut count = loop_count(net);
    for at in 0..net.len() {
        count = count.max(scratch_at(net, marks, at + 1));
    }
    count
}

/// Declares an array, which has at least one element.
fn push_array(out: &mut Vec<Decl>, name: Name, size: u32) -> Result<(), NoMemory>
    ensures { OnOk result (map declared_of out.new.items ≡ map declared_of out.old.items ++ array_of name size ∷ []) }
{
    out.push(Decl {
        name,
        size: Some(size.max(1)),
    })?;
    Ok(())
}

/// Declares a scalar.
fn push_scalar(out: &mut Vec<Decl>, name: Name) -> Result<(), NoMemory>
    ensures { OnOk result (map declared_of out.new.items ≡ map declared_of out.old.items ++ a_scalar name ∷ []) }
{
    out.push(Decl { name, size: None })?;
    Ok(())
}

/// Declares scalars.
fn push_scalars(out: &mut Vec<Decl>, names: &[Name]) -> Result<(), NoMemory>
    ensures { OnOk result (map declared_of out.new.items ≡ map declared_of out.old.items ++ map a_scalar names.now) }
{
    for name in names {
        push_scalar(out, *name)?;
    }
    Ok(())
}

/// The arrays of the blocks' texts.
fn push_values(out: &mut Vec<Decl>, net: &Net) -> Result<(), NoMemory>
    ensures { OnOk result (map declared_of out.new.items ≡ map declared_of out.old.items
        ++ (array_of values_name (all_elements net.now.specs) ∷ array_of states_name (states_before net.now.specs (length net.now.specs))
        ∷ array_of masks_name (length net.now.specs) ∷ [])) }
{
    push_array(out, values(), element_count(net))?;
    push_array(out, states(), state_count(net))?;
    push_array(out, masks(), net.len())
}

/// Which blocks are active, where there are blocks.
fn push_actives(out: &mut Vec<Decl>, net: &Net) -> Result<(), NoMemory>
    ensures { OnOk result (map declared_of out.new.items ≡ map declared_of out.old.items
        ++ declared_where (nat_lt 0 (length net.now.specs)) (array_of actives_name (length net.now.specs) ∷ [])) }
{
    if 0 < net.len() {
        push_array(out, actives(), net.len())
    } else {
        Ok(())
    }
}

/// Which branches were taken, where a block chooses one.
fn push_branches(out: &mut Vec<Decl>, net: &Net) -> Result<(), NoMemory>
    ensures { OnOk result (map declared_of out.new.items ≡ map declared_of out.old.items
        ++ declared_where (has_sync_of net.now) (array_of branches_name (length net.now.specs) ∷ [])) }
{
    if has_sync(net) {
        push_array(out, branches(), net.len())
    } else {
        Ok(())
    }
}

/// The orders of some sources, where there are several.
fn push_orders(out: &mut Vec<Decl>, ports: u32) -> Result<(), NoMemory>
    ensures { OnOk result (map declared_of out.new.items ≡ map declared_of out.old.items
        ++ declared_where (nat_lt 1 ports) (array_of orders_name ports ∷ [])) }
{
    if 1 < ports {
        push_array(out, orders(), ports)
    } else {
        Ok(())
    }
}

/// What is known of the groups of some sources, where there are many.
fn push_groups(out: &mut Vec<Decl>, ports: u32) -> Result<(), NoMemory>
    ensures { OnOk result (map declared_of out.new.items ≡ map declared_of out.old.items
        ++ declared_where (are_grouped_of ports) (array_of fresh_name (group_count_of ports) ∷ array_of firsts_name (group_count_of ports) ∷ [])) }
{
    if GROUP < ports {
        let groups = group_count(ports);
        push_array(out, fresh(), groups)?;
        push_array(out, firsts(), groups)
    } else {
        Ok(())
    }
}

/// The dates, the orders and the groups of some sources.
fn push_events(out: &mut Vec<Decl>, ports: u32) -> Result<(), NoMemory>
    ensures { OnOk result (map declared_of out.new.items ≡ map declared_of out.old.items ++ due_arrays ports) }
{
    push_array(out, dates(), ports)?;
    push_orders(out, ports)?;
    push_groups(out, ports)
}

/// The table of pending events, where there are sources of events.
fn push_table(out: &mut Vec<Decl>, net: &Net) -> Result<(), NoMemory>
    ensures { OnOk result (map declared_of out.new.items ≡ map declared_of out.old.items
        ++ declared_where (nat_lt 0 (port_count_of net.now)) (due_arrays (port_count_of net.now))) }
{
    let ports = port_count(net);
    if 0 < ports {
        push_events(out, ports)
    } else {
        Ok(())
    }
}

/// So many scratch numbers.
fn push_scratch(out: &mut Vec<Decl>, count: u32) -> Result<(), NoMemory>
    ensures { OnOk result (map declared_of out.new.items ≡ map declared_of out.old.items ++ scratch_declared count) }
{
    for n in 0..count {
        push_scalar(out, scratch(n + 1))?;
    }
    Ok(())
}

/// The bound on events, the count of those that fired, and the date of the next one.
fn push_limit(out: &mut Vec<Decl>) -> Result<(), NoMemory>
    ensures { OnOk result (map declared_of out.new.items ≡ map declared_of out.old.items
        ++ (a_scalar limit_name ∷ a_scalar fired_name ∷ a_scalar next_date_name ∷ [])) }
{
    push_scalars(out, &[limit(), fired(), next_date()])
}

/// How many events were programmed, where there are several sources.
fn push_programmed(out: &mut Vec<Decl>, ports: u32) -> Result<(), NoMemory>
    ensures { OnOk result (map declared_of out.new.items ≡ map declared_of out.old.items ++ declared_where (nat_lt 1 ports) (a_scalar programmed_name ∷ [])) }
{
    if 1 < ports {
        push_scalar(out, programmed())
    } else {
        Ok(())
    }
}

/// What firing and programming the events of some sources use.
fn push_clock(out: &mut Vec<Decl>, ports: u32) -> Result<(), NoMemory>
    ensures { OnOk result (map declared_of out.new.items ≡ map declared_of out.old.items ++ event_scalars ports) }
{
    push_scalars(out, &[until(), now(), chosen(), delay(), scan()])?;
    push_programmed(out, ports)
}

/// What firing and programming use, where there are sources of events.
fn push_clocks(out: &mut Vec<Decl>, net: &Net) -> Result<(), NoMemory>
    ensures { OnOk result (map declared_of out.new.items ≡ map declared_of out.old.items
        ++ declared_where (nat_lt 0 (port_count_of net.now)) (event_scalars (port_count_of net.now))) }
{
    let ports = port_count(net);
    if 0 < ports {
        push_clock(out, ports)
    } else {
        Ok(())
    }
}

/// Whether a HALT_f was active, where there is one.
fn push_halt(out: &mut Vec<Decl>, net: &Net) -> Result<(), NoMemory>
    ensures { OnOk result (map declared_of out.new.items ≡ map declared_of out.old.items ++ declared_where (has_halt_of net.now) (a_scalar halt_name ∷ [])) }
{
    if has_halt(net) {
        push_scalar(out, halt())
    } else {
        Ok(())
    }
}

/// The declarations of all arrays and scalars, where `marks` says of each block whether the schedule has an entry of it.
pub fn declarations(alloc: Global, net: &Net, marks: &[bool]) -> Result<Vec<Decl>, NoMemory>
    ensures { IfOk result (λ v. (rows : List (List PlainEntry)) → AreMarked net.now rows marks.now → map declared_of v.items ≡ declarations_of net.now rows) }
{
    let mut out = Vec::new(alloc);
    push_values(&mut out, net)?;
    push_actives(&mut out, net)?;
    push_branches(&mut out, net)?;
    push_table(&mut out, net)?;
    push_scratch(&mut out, scratch_count(net, marks))?;
    push_limit(&mut out)?;
    push_clocks(&mut out, net)?;
    push_halt(&mut out, net)?;
    Ok(out)
}
