// The whole program.
ghost use Rattle.std.specs.Prelude.{◌≡◌, suc, [], ◌∷◌, false, not, nat_lt, ◌++◌, map, length, slice_index_or, All, IfOk, OnOk};
ghost use Rattle.c_ast.specs.View.{function_of, statements_of, whole_of};
ghost use Rattle.sci_net.specs.Parts.{IsBlock, spec_of};
ghost use Rattle.sci_net.specs.Sources.{sources_of};
ghost use Rattle.sci_sched.specs.Plain.{rows_of};
ghost use Rattle.sci_sched.specs.Answer.{IsPlan};
ghost use Rattle.sci_cgen_blocks.specs.Texts.{body_text};
ghost use Rattle.sci_program.specs.Names.{clear_name, choose_name};
ghost use Rattle.sci_program.specs.Program.{text_where, places_of, has_own as has_own_of, functions_upto, functions_where, shared_functions};
ghost use Rattle.sci_program.specs.Program.{source_function as source_function_of, other_functions, called_functions as called_functions_of};
ghost use Rattle.sci_program.specs.Program.{event_function as event_function_of, port_count as port_count_of, clear_text as clear_text_of};
ghost use Rattle.sci_program.specs.Program.{choose_text as choose_text_of, functions as functions_of, full_program as full_program_of, program};
ghost use Rattle.sci_cgen_base.specs.Layouts.{AreLaid, AreNamed, AreMarked};
ghost use Rattle.sci_cgen.specs.Built.{marked_function};

use c_ast::{Func, Program, Stmt};
use c_trim::trim;
use sci_base::NoMemory;
use sci_cgen_base::{layout, layouts, names, port_count, row, scheduled};
use sci_cgen_blocks::{BlockLayout, block_body};
use sci_cgen_run::{choose_text, clear_text, declarations, main_text, turn_text};
use sci_cgen_sources::{has_own, settle_function, source_function};
use sci_net::Net;
use sci_sched::Schedule;
use std::alloc::Global;

/// The statements of a block's values, where the schedule has an entry of it.
fn body(
    alloc: Global,
    net: &Net,
    layouts: &[BlockLayout],
    block: u32,
    is_scheduled: bool,
) -> Result<Vec<Stmt>, NoMemory>
    requires laid { AreLaid net.now layouts.now }
    requires block { IsBlock net.now block }
    ensures { IfOk result (λ v. statements_of v.items ≡ text_where is_scheduled (body_text (spec_of net.now block) (places_of net.now block))) }
{
    net.well_formed();
    if !is_scheduled {
        return Ok(Vec::new(alloc));
    }
    block_body(alloc, net.spec(block), layout(layouts, block))
}

/// The function of a block.
fn block_function(
    alloc: Global,
    net: &Net,
    layouts: &[BlockLayout],
    block: u32,
    is_scheduled: bool,
) -> Result<Func, NoMemory>
    requires laid { AreLaid net.now layouts.now }
    requires block { IsBlock net.now block }
    ensures { IfOk result (λ f. function_of f ≡ marked_function net.now is_scheduled block) }
{
    Ok(Func {
        name: names::block_function(block),
        body: body(alloc, net, layouts, block, is_scheduled)?,
    })
}

/// The functions of all blocks, where `marks` says of each whether the schedule has an entry of it.
fn push_block_functions(
    alloc: Global,
    funcs: &mut Vec<Func>,
    net: &Net,
    layouts: &[BlockLayout],
    marks: &[bool],
) -> Result<(), NoMemory>
    requires laid { AreLaid net.now layouts.now }
    requires marked { length marks.now ≡ length net.now.specs }
    ensures { OnOk result (map function_of funcs.new.items ≡ map function_of funcs.old.items
        ++ functions_upto (λ k. marked_function net.now (slice_index_or marks.now k false) (suc k)) (length net.now.specs)) }
{
    for at in 0..net.len() {
        funcs.push(block_function(alloc, net, layouts, at + 1, marks[at as usize])?)?;
    }
    Ok(())
}

/// What comes before each reaction, where events fire.
fn push_clear_function(alloc: Global, funcs: &mut Vec<Func>, net: &Net) -> Result<(), NoMemory>
    ensures { OnOk result (map function_of funcs.new.items ≡ map function_of funcs.old.items
        ++ functions_where (nat_lt 0 (port_count_of net.now)) (record { name = clear_name; body = clear_text_of net.now } ∷ [])) }
{
    if port_count(net) > 0 {
        funcs.push(Func {
            name: names::clear(),
            body: clear_text(alloc, net)?,
        })?;
    }
    Ok(())
}

/// What follows each reaction, and where events fire, what comes before each: for all sources, where they have no texts of their own.
fn push_shared_functions(
    alloc: Global,
    funcs: &mut Vec<Func>,
    net: &Net,
    layouts: &[BlockLayout],
    own: bool,
) -> Result<(), NoMemory>
    requires laid { AreLaid net.now layouts.now }
    ensures { OnOk result (map function_of funcs.new.items ≡ map function_of funcs.old.items ++ functions_where (not own) (shared_functions net.now)) }
{
    if own {
        return Ok(());
    }
    funcs.push(settle_function(alloc, net, layouts)?)?;
    push_clear_function(alloc, funcs, net)?;
    Ok(())
}

/// The choice of the next event, where events fire.
fn push_choose_function(alloc: Global, funcs: &mut Vec<Func>, net: &Net) -> Result<(), NoMemory>
    ensures { OnOk result (map function_of funcs.new.items ≡ map function_of funcs.old.items
        ++ functions_where (nat_lt 0 (port_count_of net.now)) (record { name = choose_name; body = choose_text_of net.now } ∷ [])) }
{
    if port_count(net) > 0 {
        funcs.push(Func {
            name: names::choose(),
            body: choose_text(alloc, net)?,
        })?;
    }
    Ok(())
}

/// The functions for all sources, and the choice of the next event.
fn push_other_functions(
    alloc: Global,
    funcs: &mut Vec<Func>,
    net: &Net,
    layouts: &[BlockLayout],
    own: bool,
) -> Result<(), NoMemory>
    requires laid { AreLaid net.now layouts.now }
    ensures { OnOk result (map function_of funcs.new.items ≡ map function_of funcs.old.items ++ other_functions own net.now) }
{
    push_shared_functions(alloc, funcs, net, layouts, own)?;
    push_choose_function(alloc, funcs, net)?;
    Ok(())
}

/// The functions of all sources.
fn push_source_functions(
    alloc: Global,
    funcs: &mut Vec<Func>,
    net: &Net,
    layouts: &[BlockLayout],
    own: bool,
    schedule: &Schedule,
) -> Result<(), NoMemory>
    requires laid { AreLaid net.now layouts.now }
    requires own { own ≡ has_own_of net.now (rows_of schedule.now) }
    requires named { All (AreNamed net.now) (rows_of schedule.now) }
    requires rows { length (rows_of schedule.now) ≡ length (sources_of net.now) }
    ensures { OnOk result (map function_of funcs.new.items ≡ map function_of funcs.old.items
        ++ functions_upto (source_function_of net.now (rows_of schedule.now)) (length (sources_of net.now))) }
{
    for source in 0..net.source_count() {
        let row = row(schedule, source);
        funcs.push(source_function(alloc, net, layouts, own, source, row)?)?;
    }
    Ok(())
}

/// What `sci_main` and the function of one event call.
fn called_functions(
    alloc: Global,
    net: &Net,
    layouts: &[BlockLayout],
    marks: &[bool],
    own: bool,
    schedule: &Schedule,
) -> Result<Vec<Func>, NoMemory>
    requires laid { AreLaid net.now layouts.now }
    requires marked { AreMarked net.now (rows_of schedule.now) marks.now }
    requires own { own ≡ has_own_of net.now (rows_of schedule.now) }
    requires named { All (AreNamed net.now) (rows_of schedule.now) }
    requires rows { length (rows_of schedule.now) ≡ length (sources_of net.now) }
    ensures { IfOk result (λ v. map function_of v.items ≡ called_functions_of net.now (rows_of schedule.now)) }
{
    let mut funcs = Vec::new(alloc);
    push_block_functions(alloc, &mut funcs, net, layouts, marks)?;
    push_other_functions(alloc, &mut funcs, net, layouts, own)?;
    push_source_functions(alloc, &mut funcs, net, layouts, own, schedule)?;
    Ok(funcs)
}

/// The function of one event.
fn event_function(alloc: Global, net: &Net, own: bool) -> Result<Func, NoMemory>
    ensures { IfOk result (λ f. function_of f ≡ event_function_of own net.now) }
{
    Ok(Func {
        name: names::event(),
        body: turn_text(alloc, net, own)?,
    })
}

/// All functions of a program.
fn functions(
    alloc: Global,
    net: &Net,
    layouts: &[BlockLayout],
    marks: &[bool],
    schedule: &Schedule,
) -> Result<Vec<Func>, NoMemory>
    requires laid { AreLaid net.now layouts.now }
    requires marked { AreMarked net.now (rows_of schedule.now) marks.now }
    requires named { All (AreNamed net.now) (rows_of schedule.now) }
    requires rows { length (rows_of schedule.now) ≡ length (sources_of net.now) }
    ensures { IfOk result (λ v. map function_of v.items ≡ functions_of net.now (rows_of schedule.now)) }
{
    let own = has_own(net, marks, schedule);
    let mut funcs = called_functions(alloc, net, layouts, marks, own, schedule)?;
    funcs.push(event_function(alloc, net, own)?)?;
    Ok(funcs)
}

/// The program with all variables.
fn full_program(alloc: Global, net: &Net, schedule: &Schedule) -> Result<Program, NoMemory>
    requires { IsPlan net.now (rows_of schedule.now) }
    ensures { IfOk result (λ p. whole_of p ≡ full_program_of net.now (rows_of schedule.now)) }
{
    net.well_formed();
    let layouts = layouts(alloc, net)?;
    let marks = scheduled(alloc, net, schedule)?;
    Ok(Program {
        decls: declarations(alloc, net, &marks)?,
        funcs: functions(alloc, net, &layouts, &marks, schedule)?,
        main: main_text(alloc, net, &layouts)?,
    })
}

/// The C program of a net and its schedule: for each block a function of its values, for each source a function that calls those of its row in the order of the
/// schedule, a function of one event, and `sci_main`, which calls it again and again. It declares what its statements name, and nothing else. Its trace is that
/// of the net (`program_law`), and so is what a host observes that calls the function of one event itself (`steps_law`).
pub fn emit(alloc: Global, net: &Net, schedule: &Schedule) -> Result<Program, NoMemory>
    requires { IsPlan net.now (rows_of schedule.now) }
    ensures { IfOk result (λ p. whole_of p ≡ program net.now (rows_of schedule.now)) }
{
    let full = full_program(alloc, net, schedule)?;
    trim(alloc, full)
}
