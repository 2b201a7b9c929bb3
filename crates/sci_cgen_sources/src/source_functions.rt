// The functions of sources, and that of what follows each reaction.
ghost use Rattle.std.specs.Prelude.{◌≡◌, ◌<◌, length, IfOk};
ghost use Rattle.c_ast.specs.View.{function_of};
ghost use Rattle.sci_net.specs.Sources.{sources_of, source_of};
ghost use Rattle.sci_sched.specs.Plain.{row_of};
ghost use Rattle.sci_program.specs.Names.{source_name, settle_name};
ghost use Rattle.sci_program.specs.Program.{row_text as row_text_of, shared_text};
ghost use Rattle.sci_cgen_base.specs.Layouts.{AreLaid, AreNamed};

use crate::parts::marked_taking;
use crate::row_texts::row_text;
use crate::settle_texts::push_settle;
use c_ast::Func;
use sci_base::NoMemory;
use sci_cgen_base::names;
use sci_cgen_blocks::BlockLayout;
use sci_net::Net;
use sci_sched::Entry;
use std::alloc::Global;

/// What follows each reaction, in one text for all sources.
pub fn settle_function(alloc: Global, net: &Net, layouts: &[BlockLayout]) -> Result<Func, NoMemory>
    requires { AreLaid net.now layouts.now }
    ensures { IfOk result (λ f. function_of f ≡ record { name = settle_name; body = shared_text net.now }) }
{
    let taking = marked_taking(alloc);
    let mut body = Vec::new(alloc);
    push_settle(alloc, &mut body, net, layouts, &taking)?;
    Ok(Func {
        name: names::settle(),
        body,
    })
}

/// The function of a source.
pub fn source_function(
    alloc: Global,
    net: &Net,
    layouts: &[BlockLayout],
    own: bool,
    source: u32,
    row: &[Entry],
) -> Result<Func, NoMemory>
    requires laid { AreLaid net.now layouts.now }
    requires source { source < length (sources_of net.now) }
    requires named { AreNamed net.now (row_of row.now) }
    ensures { IfOk result (λ f. function_of f
        ≡ record { name = source_name source; body = row_text_of own net.now (source_of net.now source) (row_of row.now) }) }
{
    Ok(Func {
        name: names::source_function(source),
        body: row_text(alloc, net, layouts, own, net.source(source), row)?,
    })
}
