// The text of a table of truth: decisions on its inputs, one in the other, and at their ends a row of the table.
ghost use Rattle.std.specs.Prelude.{◌≡◌, ◌<◌, ◌≤◌, ◌+◌, ◌^◌, true, length, IfOk};
ghost use Rattle.sci_forms.specs.Typed.{typed};
ghost use Rattle.sci_forms.specs.Ports.{total};
ghost use Rattle.sci_forms.specs.declared.Kind.TheVariants as kinds;
ghost use Rattle.c_ast.specs.View.{statements_of};
ghost use Rattle.sci_cgen_blocks.specs.Terms.{constant};
ghost use Rattle.sci_cgen_blocks.specs.Recipes.{entry as entry_of, same_entries, are_as as are_as_row, row as row_way, decided as decided_way};
ghost use Rattle.sci_cgen_blocks.specs.Texts.{way_text};
ghost use Rattle.sci_cgen_blocks.specs.Plain.{term_of, plain_places, AreFew};

use crate::BlockLayout;
use crate::recipe_parts::{Term, Which};
use crate::spec_words::{inputs, power};
use crate::writing::{assigned, either, expression};
use c_ast::Stmt;
use sci_base::NoMemory;
use sci_forms::Spec;
use sci_forms::values::is_equal;
use std::alloc::Global;

/// Entry `e` of a row of the table.
fn entry(s: &Spec, row: u64, e: u32) -> i64
    requires row { row < 256 }
    requires outs { length s.now.outs ≤ 8 }
    ensures { result ≡ entry_of s.now row e }
{
    s.param(row as usize * s.outs.len() + e as usize)
}

/// Entry `e` of a row as a term.
fn entry_term(s: &Spec, row: u64, e: u32) -> Term
    requires row { row < 256 }
    requires outs { length s.now.outs ≤ 8 }
    ensures { term_of result ≡ constant (entry_of s.now row e) }
{
    Term::Constant(entry(s, row, e))
}

/// Whether two rows have the same entries.
#[tactic(auto, using(crate::proofs::Tables::entries_on, crate::proofs::Tables::entries_end))]
fn is_same_row(s: &Spec, row: u64, other: u64) -> bool
    requires row { row < 256 }
    requires other { other < 256 }
    requires outs { length s.now.outs ≤ 8 }
    ensures { result ≡ same_entries s.now row other 0 (length s.now.outs) }
{
    for e in 0..s.outs.len() as u32 {
        if !is_equal(entry(s, row, e), entry(s, other, e)) {
            return false;
        }
    }
    true
}

/// Whether `count` rows from one on are all the same.
#[tactic(auto, using(crate::proofs::Tables::rows_on, crate::proofs::Tables::rows_end))]
fn are_alike(s: &Spec, first: u64, count: u64) -> bool
    requires rows { first + count ≤ 256 }
    requires outs { length s.now.outs ≤ 8 }
    ensures { result ≡ are_as_row s.now first first count }
{
    for row in first..first + count {
        if !is_same_row(s, first, row) {
            return false;
        }
    }
    true
}

/// The outputs become the entries of a row.
fn row(alloc: Global, s: &Spec, at: &BlockLayout, number: u64) -> Result<Vec<Stmt>, NoMemory>
    requires is_typed { typed s.now ≡ true }
    requires few { AreFew s.now (plain_places at.now) }
    requires kind { s.now.kind ≡ kinds.Logic }
    requires row { number < 256 }
    ensures { IfOk result (λ v. statements_of v.items ≡ way_text (plain_places at.now) (total s.now.outs) (row_way s.now number)) }
{
    let mut out = Vec::new(alloc);
    for e in 0..s.outs.total() {
        out.push(assigned(alloc, at, Which::Fixed(e), &entry_term(s, number, e))?)?;
    }
    Ok(out)
}

/// The row that the truths of `n` inputs from `port` on name, of those from `first` on. Nothing is asked where these rows are all the same.
#[tactic(auto, using(crate::proofs::Tables::no_more, crate::proofs::Tables::all_same, crate::proofs::Tables::asked))]
fn decided(
    alloc: Global,
    s: &Spec,
    at: &BlockLayout,
    port: u32,
    n: u32,
    first: u64,
) -> Result<Vec<Stmt>, NoMemory>
    requires is_typed { typed s.now ≡ true }
    requires few { AreFew s.now (plain_places at.now) }
    requires kind { s.now.kind ≡ kinds.Logic }
    requires ports { port + n ≤ 8 }
    requires rows { first + 2 ^ n ≤ 256 }
    ensures { IfOk result (λ v. statements_of v.items ≡ way_text (plain_places at.now) (total s.now.outs) (decided_way s.now port n first)) }
{
    if n == 0 {
        return row(alloc, s, at, first);
    }
    if are_alike(s, first, power(n)) {
        return row(alloc, s, at, first);
    }
    let holds = decided(alloc, s, at, port + 1, n - 1, first + power(n - 1))?;
    let fails = decided(alloc, s, at, port + 1, n - 1, first)?;
    let test = expression(alloc, at, Which::Fixed(0), &Term::Input(port, 0))?;
    Ok(vec![in alloc; either(test, holds, fails)]?)
}

/// The row that the truths of all inputs name.
pub(crate) fn table(alloc: Global, s: &Spec, at: &BlockLayout) -> Result<Vec<Stmt>, NoMemory>
    requires is_typed { typed s.now ≡ true }
    requires few { AreFew s.now (plain_places at.now) }
    requires kind { s.now.kind ≡ kinds.Logic }
    ensures { IfOk result (λ v. statements_of v.items ≡ way_text (plain_places at.now) (total s.now.outs) (decided_way s.now 0 (length s.now.ins) 0)) }
{
    decided(alloc, s, at, 0, inputs(s), 0)
}
