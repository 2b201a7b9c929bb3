// The declarations that stay.
ghost use Rattle.std.specs.Prelude.{◌≡◌, ◌++◌, map, IfOk, OnOk};
ghost use Rattle.c_ast.specs.View.{declared_of, whole_of};
ghost use Rattle.c_trim.specs.Trim.{trimmed};
ghost use Rattle.c_trim.specs.Candidates.{candidate_of, kept_part, kept_of};

use crate::texts::{Candidate, mark};
use c_ast::{Decl, Program};
use sci_base::NoMemory;
use std::alloc::Global;

/// The variables of these declarations, before a text is looked at.
fn candidates(alloc: Global, decls: &[Decl]) -> Result<Vec<Candidate>, NoMemory>
    ensures { IfOk result (λ v. v.items ≡ map candidate_of (map declared_of decls.now)) }
{
    let mut out = Vec::with_capacity(alloc, decls.len())?;
    for decl in decls {
        out.push(Candidate {
            name: decl.name,
            size: decl.size,
            named: false,
        })?;
    }
    Ok(out)
}

/// The declaration, where the variable is named.
fn push_kept(out: &mut Vec<Decl>, candidate: Candidate) -> Result<(), NoMemory>
    ensures { OnOk result (map declared_of out.new.items ≡ map declared_of out.old.items ++ kept_part candidate) }
{
    if candidate.named {
        out.push(Decl {
            name: candidate.name,
            size: candidate.size,
        })?;
    }
    Ok(())
}

/// The declarations of the variables that are named.
fn kept(alloc: Global, candidates: &[Candidate]) -> Result<Vec<Decl>, NoMemory>
    ensures { IfOk result (λ v. map declared_of v.items ≡ kept_of candidates.now) }
{
    let mut out = Vec::new(alloc);
    for candidate in candidates {
        push_kept(&mut out, *candidate)?;
    }
    Ok(out)
}

/// The program without the declarations of variables that none of its texts names.
pub fn trim(alloc: Global, program_with_all: Program) -> Result<Program, NoMemory>
    ensures { IfOk result (λ p. whole_of p ≡ trimmed (whole_of program_with_all)) }
{
    let mut found = candidates(alloc, &program_with_all.decls)?;
    mark(&mut found, &program_with_all);
    let decls = kept(alloc, &found)?;
    let Program {
        decls: _,
        funcs,
        main,
    } = program_with_all;
    Ok(Program { decls, funcs, main })
}
