// The text of a source: its observation, the entries of its row, and what follows them.
ghost use Rattle.std.specs.Prelude.{◌≡◌, ◌≤◌, ◌<◌, ◌^◌, ◌-◌, ◌||◌, ◌&&◌, true, not, nat_eq, length, All, IfOk, OnOk};
ghost use Rattle.std.specs.Int.{bit_at};
ghost use Rattle.c_ast.specs.Syntax.{bin as operation, set as assign, cell as cell_of};
ghost use Rattle.c_ast.specs.declared.Op.TheVariants as ops;
ghost use Rattle.c_ast.specs.View.{exp_of, statement_of, statements_of};
ghost use Rattle.c_mean.specs.Texts.{joined};
ghost use Rattle.sci_forms.specs.Form.{is_sync, reads_mask};
ghost use Rattle.sci_net.specs.Parts.{IsBlock, spec_of};
ghost use Rattle.sci_reaction.specs.Schedule.{Guard as PlainGuard};
ghost use Rattle.sci_sched.specs.Plain.{row_of};
ghost use Rattle.sci_reaction.specs.Kept.{guard_of, guards_of, entry_of};
ghost use Rattle.sci_cgen_blocks.specs.Texts.{masks as masks_name, branch_expression};
ghost use Rattle.sci_program.specs.Names.{actives as actives_name, branches as branches_name};
ghost use Rattle.sci_program.specs.Program.{natural as natural_of, one, texts, text_where, places_of, is_marked, entry_part as entry_part_of, where_part, mark};
ghost use Rattle.sci_program.specs.Program.{mask_cell, with_bit, with_bits, is_taken, guard_text, call_text, entry_text, cleared_text, header_text};
ghost use Rattle.sci_program.specs.Program.{pass_text as pass_text_of, part_in, settle_text, following_text, row_text as row_text_of};
ghost use Rattle.sci_cgen_base.specs.Layouts.{AreLaid, IsNamed, AreNamed};

use crate::parts::{entry_part, row_taking, tests_mark};
use crate::settle_texts::{has_taken, push_settle, push_where_part};
use c_ast::{Expr, Op, Stmt, Tell};
use sci_base::NoMemory;
use sci_cgen_base::layout;
use sci_cgen_base::names::{actives, block_function, branches, settle};
use sci_cgen_blocks::array_names::masks;
use sci_cgen_blocks::writing::{bin, element};
use sci_cgen_blocks::{BlockLayout, block_branch};
use sci_due_texts::names::now;
use sci_due_texts::pieces::{cell, natural, push, push_where, set_natural};
use sci_net::{Feed, Net, Source};
use sci_sched::{Entry, Guard};
use std::alloc::Global;

/// The statement by which a block becomes active.
fn mark(block: u32) -> Stmt
    requires { 1 ≤ block }
    ensures { one (statement_of result) ≡ mark block }
{
    set_natural(actives(), block - 1, 1)
}

/// The same, where a test holds.
fn push_mark(out: &mut Vec<Stmt>, test: bool, block: u32) -> Result<(), NoMemory>
    requires { 1 ≤ block }
    ensures { OnOk result (statements_of out.new.items ≡ joined (statements_of out.old.items) (text_where test (mark block))) }
{
    if test { push(out, mark(block)) } else { Ok(()) }
}

/// The mask of a block.
fn mask_cell(alloc: Global, block: u32) -> Result<Expr, NoMemory>
    requires { 1 ≤ block }
    ensures { IfOk result (λ e. exp_of e ≡ mask_cell block) }
{
    element(alloc, masks(), u64::from(block - 1))
}

/// The number whose one bit is this one, counted from 0.
fn power(bit: u32) -> Expr
    requires { bit < 8 }
    ensures { exp_of result ≡ natural_of (2 ^ bit) }
{
    natural(1 << bit)
}

/// A bit of the mask of a block.
fn mask_bit(alloc: Global, block: u32, bit: u32) -> Result<Expr, NoMemory>
    requires least { 1 ≤ block }
    requires few { bit < 8 }
    ensures { IfOk result (λ e. exp_of e ≡ operation ops.Rem (operation ops.Div (mask_cell block) (natural_of (2 ^ bit))) (natural_of 2)) }
{
    let shifted = bin(alloc, Op::Div, mask_cell(alloc, block)?, power(bit))?;
    bin(alloc, Op::Rem, shifted, natural(2))
}

/// What the mask of a block lacks to have the bit.
fn missing(alloc: Global, block: u32, bit: u32) -> Result<Expr, NoMemory>
    requires least { 1 ≤ block }
    requires few { bit < 8 }
    ensures { IfOk result (λ e. exp_of e
        ≡ operation ops.Mul (operation ops.Sub (natural_of 1) (operation ops.Rem (operation ops.Div (mask_cell block) (natural_of (2 ^ bit))) (natural_of 2)))
        (natural_of (2 ^ bit))) }
{
    let lacks = bin(alloc, Op::Sub, natural(1), mask_bit(alloc, block, bit)?)?;
    bin(alloc, Op::Mul, lacks, power(bit))
}

/// The bit of the mask of a block becomes 1.
fn with_bit(alloc: Global, block: u32, bit: u32) -> Result<Stmt, NoMemory>
    requires least { 1 ≤ block }
    requires few { bit < 8 }
    ensures { IfOk result (λ s. one (statement_of s) ≡ with_bit block bit) }
{
    let missing = missing(alloc, block, bit)?;
    let mask = bin(alloc, Op::Add, mask_cell(alloc, block)?, missing)?;
    Ok(Stmt::Set(cell(masks(), block - 1), mask))
}

/// Whether a bit of a mask is 1.
fn has_bit(mask: u64, bit: u32) -> bool
    requires { bit < 64 }
    ensures { result ≡ nat_eq (bit_at mask bit) 1 }
{
    (mask >> bit) & 1 == 1
}

/// The bit of the mask of a block becomes 1, where that of a mask is 1.
fn push_bit(
    alloc: Global,
    out: &mut Vec<Stmt>,
    block: u32,
    mask: u64,
    bit: u32,
) -> Result<(), NoMemory>
    requires least { 1 ≤ block }
    requires few { bit < 8 }
    ensures { OnOk result (statements_of out.new.items ≡ joined (statements_of out.old.items) (text_where (nat_eq (bit_at mask bit) 1) (with_bit block bit))) }
{
    if has_bit(mask, bit) {
        push(out, with_bit(alloc, block, bit)?)
    } else {
        Ok(())
    }
}

/// The same of the first bits.
fn push_bits(
    alloc: Global,
    out: &mut Vec<Stmt>,
    block: u32,
    mask: u64,
    count: u32,
) -> Result<(), NoMemory>
    requires least { 1 ≤ block }
    requires few { count ≤ 8 }
    ensures { OnOk result (statements_of out.new.items ≡ joined (statements_of out.old.items) (with_bits block mask count)) }
{
    for bit in 0..count {
        push_bit(alloc, out, block, mask, bit)?;
    }
    Ok(())
}

/// The bits that a branch gives the mask of a block, where its kind reads it.
fn push_branch_mask(
    alloc: Global,
    out: &mut Vec<Stmt>,
    net: &Net,
    block: u32,
    mask: u64,
) -> Result<(), NoMemory>
    requires least { 1 ≤ block }
    requires most { block ≤ length net.now.specs }
    ensures { OnOk result (statements_of out.new.items ≡ joined (statements_of out.old.items)
        (text_where (reads_mask (spec_of net.now block).kind) (with_bits block mask (spec_of net.now block).evtin))) }
{
    let spec = net.spec(block);
    if spec.kind.reads_mask() {
        push_bits(alloc, out, block, mask, spec.evtin)
    } else {
        Ok(())
    }
}

/// Whether the block of a guard has taken its branch.
fn is_taken(alloc: Global, guard: &Guard) -> Result<Expr, NoMemory>
    ensures { IfOk result (λ e. exp_of e ≡ is_taken (guard_of guard.now)) }
{
    has_taken(
        alloc,
        Feed {
            block: guard.block,
            port: guard.port,
        },
    )
}

/// What a branch that is taken does to an entry's block.
fn taken(alloc: Global, net: &Net, entry: &Entry, guard: &Guard) -> Result<Vec<Stmt>, NoMemory>
    requires { IsBlock net.now entry.now.block }
    ensures { IfOk result (λ v. statements_of v.items ≡ joined (text_where (not entry.now.always) (mark entry.now.block))
        (text_where (reads_mask (spec_of net.now entry.now.block).kind) (with_bits entry.now.block guard.now.mask (spec_of net.now entry.now.block).evtin))) }
{
    let mut out = Vec::new(alloc);
    push_mark(&mut out, !entry.always, entry.block)?;
    push_branch_mask(alloc, &mut out, net, entry.block, guard.mask)?;
    Ok(out)
}

/// A guard of an entry.
fn push_guard(
    alloc: Global,
    out: &mut Vec<Stmt>,
    net: &Net,
    entry: &Entry,
    guard: &Guard,
) -> Result<(), NoMemory>
    requires block { IsBlock net.now entry.now.block }
    requires guard { IsBlock net.now guard.now.block }
    ensures { OnOk result (statements_of out.new.items ≡ joined (statements_of out.old.items) (guard_text net.now (entry_of entry.now) (guard_of guard.now))) }
{
    let body = taken(alloc, net, entry, guard)?;
    push_where(alloc, out, is_taken(alloc, guard)?, body)
}

/// Guards of an entry.
fn push_guards(
    alloc: Global,
    out: &mut Vec<Stmt>,
    net: &Net,
    entry: &Entry,
    guards: &[Guard],
) -> Result<(), NoMemory>
    requires block { IsBlock net.now entry.now.block }
    requires guards { All (λ (g : PlainGuard). IsBlock net.now g.block) (guards_of guards.now) }
    ensures { OnOk result (statements_of out.new.items ≡ joined (statements_of out.old.items)
        (texts (guard_text net.now (entry_of entry.now)) (guards_of guards.now))) }
{
    for guard in guards {
        push_guard(alloc, out, net, entry, guard)?;
    }
    Ok(())
}

/// Whether it matters for the mark or the mask of an entry's block which guards are taken.
fn wants_guards(net: &Net, own: bool, entry: &Entry) -> bool
    requires { IsBlock net.now entry.now.block }
    ensures { result ≡ (is_marked (entry_part_of own net.now (entry_of entry.now)) || reads_mask (spec_of net.now entry.now.block).kind) }
{
    tests_mark(own, net, entry) || net.spec(entry.block).kind.reads_mask()
}

/// All guards of an entry, where it matters which are taken.
fn push_all_guards(
    alloc: Global,
    out: &mut Vec<Stmt>,
    net: &Net,
    own: bool,
    entry: &Entry,
) -> Result<(), NoMemory>
    requires { IsNamed net.now (entry_of entry.now) }
    ensures { OnOk result (statements_of out.new.items ≡ joined (statements_of out.old.items)
        (text_where (is_marked (entry_part_of own net.now (entry_of entry.now)) || reads_mask (spec_of net.now entry.now.block).kind)
        (texts (guard_text net.now (entry_of entry.now)) (guards_of entry.now.guards.items)))) }
{
    if wants_guards(net, own, entry) {
        push_guards(alloc, out, net, entry, &entry.guards)
    } else {
        Ok(())
    }
}

/// The mask that the source gives an entry's block, where its kind reads it.
fn push_mask(out: &mut Vec<Stmt>, net: &Net, entry: &Entry) -> Result<(), NoMemory>
    requires { IsNamed net.now (entry_of entry.now) }
    ensures { OnOk result (statements_of out.new.items ≡ joined (statements_of out.old.items)
        (text_where (reads_mask (spec_of net.now entry.now.block).kind)
        (one (assign (cell_of masks_name (natural_of (entry.now.block - 1))) (natural_of entry.now.mask))))) }
{
    if net.spec(entry.block).kind.reads_mask() {
        let mask = entry.mask as u32;
        push(out, set_natural(masks(), entry.block - 1, mask))
    } else {
        Ok(())
    }
}

/// The branch that a synchronous block takes.
fn branch(alloc: Global, net: &Net, layouts: &[BlockLayout], block: u32) -> Result<Stmt, NoMemory>
    requires laid { AreLaid net.now layouts.now }
    requires block { IsBlock net.now block }
    requires sync { is_sync (spec_of net.now block).kind ≡ true }
    ensures { IfOk result (λ s. statement_of s
        ≡ assign (cell_of branches_name (natural_of (block - 1))) (branch_expression (spec_of net.now block) (places_of net.now block))) }
{
    let value = block_branch(alloc, net.spec(block), layout(layouts, block))?;
    Ok(Stmt::Set(cell(branches(), block - 1), value))
}

/// The same of a block that may be synchronous.
fn push_branch(
    alloc: Global,
    out: &mut Vec<Stmt>,
    net: &Net,
    layouts: &[BlockLayout],
    block: u32,
) -> Result<(), NoMemory>
    requires laid { AreLaid net.now layouts.now }
    requires block { IsBlock net.now block }
    ensures { OnOk result (statements_of out.new.items ≡ joined (statements_of out.old.items)
        (text_where (is_sync (spec_of net.now block).kind)
        (one (assign (cell_of branches_name (natural_of (block - 1))) (branch_expression (spec_of net.now block) (places_of net.now block)))))) }
{
    if net.spec(block).kind.is_sync() {
        push(out, branch(alloc, net, layouts, block)?)
    } else {
        Ok(())
    }
}

/// The function of a block is called, and a synchronous block takes its branch.
fn push_call(
    alloc: Global,
    out: &mut Vec<Stmt>,
    net: &Net,
    layouts: &[BlockLayout],
    block: u32,
) -> Result<(), NoMemory>
    requires laid { AreLaid net.now layouts.now }
    requires block { IsBlock net.now block }
    ensures { OnOk result (statements_of out.new.items ≡ joined (statements_of out.old.items) (call_text net.now block)) }
{
    push(out, Stmt::Call(block_function(block)))?;
    push_branch(alloc, out, net, layouts, block)
}

/// The call of an entry's block, where it is active.
fn push_values(
    alloc: Global,
    out: &mut Vec<Stmt>,
    net: &Net,
    layouts: &[BlockLayout],
    own: bool,
    entry: &Entry,
) -> Result<(), NoMemory>
    requires laid { AreLaid net.now layouts.now }
    requires named { IsNamed net.now (entry_of entry.now) }
    ensures { OnOk result (statements_of out.new.items ≡ joined (statements_of out.old.items)
        (where_part (entry_part_of own net.now (entry_of entry.now)) entry.now.block (call_text net.now entry.now.block))) }
{
    let mut body = Vec::new(alloc);
    push_call(alloc, &mut body, net, layouts, entry.block)?;
    push_where_part(alloc, out, entry_part(own, net, entry), entry.block, body)
}

/// Whether an entry marks its block whatever is taken, as in the text for all sources.
fn marks_first(own: bool, entry: &Entry) -> bool
    ensures { result ≡ (not own && entry.now.always) }
{
    !own && entry.always
}

/// An entry: whether its block is active, its mask, and its values.
fn push_entry(
    alloc: Global,
    out: &mut Vec<Stmt>,
    net: &Net,
    layouts: &[BlockLayout],
    own: bool,
    entry: &Entry,
) -> Result<(), NoMemory>
    requires laid { AreLaid net.now layouts.now }
    requires named { IsNamed net.now (entry_of entry.now) }
    ensures { OnOk result (statements_of out.new.items ≡ joined (statements_of out.old.items) (entry_text own net.now (entry_of entry.now))) }
{
    push_mark(out, marks_first(own, entry), entry.block)?;
    push_mask(out, net, entry)?;
    push_all_guards(alloc, out, net, own, entry)?;
    push_values(alloc, out, net, layouts, own, entry)
}

/// The entries of a row.
fn push_entries(
    alloc: Global,
    out: &mut Vec<Stmt>,
    net: &Net,
    layouts: &[BlockLayout],
    own: bool,
    row: &[Entry],
) -> Result<(), NoMemory>
    requires laid { AreLaid net.now layouts.now }
    requires named { AreNamed net.now (row_of row.now) }
    ensures { OnOk result (statements_of out.new.items ≡ joined (statements_of out.old.items) (texts (entry_text own net.now) (row_of row.now))) }
{
    for entry in row {
        push_entry(alloc, out, net, layouts, own, entry)?;
    }
    Ok(())
}

/// The statement by which a block isn't active.
fn unmark(block: u32) -> Stmt
    requires { 1 ≤ block }
    ensures { one (statement_of result) ≡ one (assign (cell_of actives_name (natural_of (block - 1))) (natural_of 0)) }
{
    set_natural(actives(), block - 1, 0)
}

/// The same, where a test holds.
fn push_unmark(out: &mut Vec<Stmt>, test: bool, block: u32) -> Result<(), NoMemory>
    requires { 1 ≤ block }
    ensures { OnOk result (statements_of out.new.items ≡ joined (statements_of out.old.items)
        (text_where test (one (assign (cell_of actives_name (natural_of (block - 1))) (natural_of 0))))) }
{
    if test {
        push(out, unmark(block))
    } else {
        Ok(())
    }
}

/// The statement by which a block has taken no branch.
fn branchless(block: u32) -> Stmt
    requires { 1 ≤ block }
    ensures { one (statement_of result) ≡ one (assign (cell_of branches_name (natural_of (block - 1))) (natural_of 0)) }
{
    set_natural(branches(), block - 1, 0)
}

/// The same of a block that may be synchronous.
fn push_branchless(out: &mut Vec<Stmt>, net: &Net, block: u32) -> Result<(), NoMemory>
    requires { IsBlock net.now block }
    ensures { OnOk result (statements_of out.new.items ≡ joined (statements_of out.old.items)
        (text_where (is_sync (spec_of net.now block).kind) (one (assign (cell_of branches_name (natural_of (block - 1))) (natural_of 0))))) }
{
    if net.spec(block).kind.is_sync() {
        push(out, branchless(block))
    } else {
        Ok(())
    }
}

/// An entry's block isn't active yet, where that is marked, and has taken no branch.
fn push_clear(out: &mut Vec<Stmt>, net: &Net, entry: &Entry) -> Result<(), NoMemory>
    requires { IsNamed net.now (entry_of entry.now) }
    ensures { OnOk result (statements_of out.new.items ≡ joined (statements_of out.old.items) (cleared_text net.now (entry_of entry.now))) }
{
    push_unmark(out, tests_mark(true, net, entry), entry.block)?;
    push_branchless(out, net, entry.block)
}

/// The same of the blocks of a row.
fn push_clears(out: &mut Vec<Stmt>, net: &Net, row: &[Entry]) -> Result<(), NoMemory>
    requires { AreNamed net.now (row_of row.now) }
    ensures { OnOk result (statements_of out.new.items ≡ joined (statements_of out.old.items) (texts (cleared_text net.now) (row_of row.now))) }
{
    for entry in row {
        push_clear(out, net, entry)?;
    }
    Ok(())
}

/// The same where the source has a text of its own.
fn push_own_clears(out: &mut Vec<Stmt>, net: &Net, own: bool, row: &[Entry]) -> Result<(), NoMemory>
    requires { AreNamed net.now (row_of row.now) }
    ensures { OnOk result (statements_of out.new.items
        ≡ joined (statements_of out.old.items) (text_where own (texts (cleared_text net.now) (row_of row.now)))) }
{
    if own {
        push_clears(out, net, row)
    } else {
        Ok(())
    }
}

/// The observation of a source.
fn header(source: Source) -> Stmt
    ensures { one (statement_of result) ≡ header_text source }
{
    match source {
        Source::Start => Stmt::Tell(Tell::Start),
        Source::Port(port) => Stmt::Tell(Tell::Event(
            Expr::Var(now()),
            natural(port.block),
            natural(port.port),
        )),
    }
}

/// The reaction of a source, up to its values.
fn pass_text(
    alloc: Global,
    net: &Net,
    layouts: &[BlockLayout],
    own: bool,
    source: Source,
    row: &[Entry],
) -> Result<Vec<Stmt>, NoMemory>
    requires laid { AreLaid net.now layouts.now }
    requires named { AreNamed net.now (row_of row.now) }
    ensures { IfOk result (λ v. statements_of v.items ≡ pass_text_of own net.now source (row_of row.now)) }
{
    let mut out = Vec::new(alloc);
    push(&mut out, header(source))?;
    push_own_clears(&mut out, net, own, row)?;
    push_entries(alloc, &mut out, net, layouts, own, row)?;
    Ok(out)
}

/// What follows the values of a source's reaction in a text of its own.
fn push_own_following(
    alloc: Global,
    out: &mut Vec<Stmt>,
    net: &Net,
    layouts: &[BlockLayout],
    row: &[Entry],
) -> Result<(), NoMemory>
    requires laid { AreLaid net.now layouts.now }
    requires named { AreNamed net.now (row_of row.now) }
    ensures { OnOk result (statements_of out.new.items ≡ joined (statements_of out.old.items) (settle_text net.now (part_in net.now (row_of row.now)))) }
{
    let taking = row_taking(alloc, net, row)?;
    push_settle(alloc, out, net, layouts, &taking)
}

/// What follows the values of a source's reaction.
fn push_following(
    alloc: Global,
    out: &mut Vec<Stmt>,
    net: &Net,
    layouts: &[BlockLayout],
    own: bool,
    row: &[Entry],
) -> Result<(), NoMemory>
    requires laid { AreLaid net.now layouts.now }
    requires named { AreNamed net.now (row_of row.now) }
    ensures { OnOk result (statements_of out.new.items ≡ joined (statements_of out.old.items) (following_text own net.now (row_of row.now))) }
{
    if own {
        push_own_following(alloc, out, net, layouts, row)
    } else {
        push(out, Stmt::Call(settle()))
    }
}

/// The statements of a source's function.
pub(crate) fn row_text(
    alloc: Global,
    net: &Net,
    layouts: &[BlockLayout],
    own: bool,
    source: Source,
    row: &[Entry],
) -> Result<Vec<Stmt>, NoMemory>
    requires laid { AreLaid net.now layouts.now }
    requires named { AreNamed net.now (row_of row.now) }
    ensures { IfOk result (λ v. statements_of v.items ≡ row_text_of own net.now source (row_of row.now)) }
{
    let mut out = pass_text(alloc, net, layouts, own, source, row)?;
    push_following(alloc, &mut out, net, layouts, own, row)?;
    Ok(out)
}
