// The functions of a program, found by their names.

ghost use Rattle.std.specs.Prelude.{◌≡◌, ◌<◌, IfSome, IfOk, IsTrue, All, length};
ghost use Rattle.c_ast.specs.declared.Name.{Name};
ghost use Rattle.c_rules.specs.Naming.{by_name, is_numbered};
ghost use Rattle.c_mean.specs.Meaning.{same_name};
ghost use Rattle.c_run.specs.Calls.{latest};

use crate::machine::Routine;
use c_ast::Name;
use c_rules::Names;
use sci_base::NoMemory;
use std::alloc::Global;

/// Functions, the latest first, and at the number of each name the place of the first of this name.
#[derive(Drop)]
pub struct Functions<'a> {
    pub names: &'a Names,
    pub routines: Vec<Routine<'a>>,
    pub index: Vec<Option<usize>>,
    ghost found: { (f : Name) → by_name names.now index.items f ≡ latest f 0 routines.items },
}

/// The functions with their index, by the names' numbers. The only error is want of memory.
pub fn indexed<'a>(
    alloc: Global,
    names: &'a Names,
    routines: Vec<Routine<'a>>,
) -> Result<Functions<'a>, NoMemory>
    requires { All (λ g. IsTrue (is_numbered names.now g.name)) routines.items }
    ensures { IfOk result (λ v. v.routines.items ≡ routines.entry.items) }
{
    let mut index = Vec::new(alloc);
    for k in 0..routines.len() {
        names.enter(&mut index, routines[k].name, k)?;
    }
    Ok(Functions {
        names,
        routines,
        index,
    })
}

fn same(left: Name, right: Name) -> bool
    ensures { result ≡ same_name left right }
{
    left.letter == right.letter && left.number == right.number
}

/// Looks at each function from this place on.
fn search(routines: &[Routine<'_>], from: usize, name: Name) -> Option<usize>
    ensures value { result ≡ latest name from routines.now }
    ensures within { IfSome result (λ k. k < length routines.now) }
{
    for k in from..routines.len() {
        if same(routines[k].name, name) {
            return Some(k);
        }
    }
    None
}

/// Where the first function of this name stands from this place on; none where none has it. Each is looked at only where an earlier place
/// has the name too.
pub fn find(functions: &Functions<'_>, from: usize, name: Name) -> Option<usize>
    ensures value { result ≡ latest name from functions.now.routines.items }
    ensures within { IfSome result (λ k. k < length functions.now.routines.items) }
{
    match functions.names.look(&functions.index, name) {
        None => None,
        Some(first) => if first >= from {
            Some(first)
        } else {
            search(&functions.routines, from, name)
        },
    }
}
