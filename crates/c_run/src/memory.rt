// The variables of a run.

ghost use Rattle.std.specs.Prelude.{◌≡◌, map};
ghost use Rattle.c_ast.specs.declared.Name.{Name};
ghost use Rattle.c_rules.specs.Naming.{by_name};
ghost use Rattle.c_ast.specs.View.{declared_of};
ghost use Rattle.c_run.specs.Spans.{span_of};

use crate::machine::VariableSpan;
use c_ast::Decl;
use c_rules::Names;

/// The variables: their elements follow each other in the order of the declarations, and where those of a name stand is found by
/// the name's number.
#[derive(Drop)]
pub struct Memory<'a> {
    pub decls: &'a [Decl],
    pub names: &'a Names,
    pub spans: Vec<Option<VariableSpan>>,
    pub cells: Vec<i64>,
    ghost found: { (x : Name) → by_name names.now spans.items x ≡ span_of (map declared_of decls.now) x },
}
