// What one kind computes, as functions of numbers.
ghost use Rattle.std.specs.Prelude.{◌≡◌, ◌<◌, true};
ghost use Rattle.sci_forms.specs.declared.Kind.{Kind};
ghost use Rattle.sci_forms.specs.Ports.{total, Fills};
ghost use Rattle.sci_forms.specs.Form.{is_sync, has_delay};
ghost use Rattle.sci_forms.specs.Words.{state_len_of};
ghost use Rattle.sci_kinds.specs.Asks.{IsState, IsMask, entering_of};
ghost use Rattle.sci_kinds.specs.Table.{cell_of, next_of, branch_of, delay_of};
ghost use Rattle.sci_bank.specs.Bank.{IsOfKind};

use sci_bank::words::Words;
use sci_base::Ints;
use sci_kinds::{Cell, Kind};
use sci_span::Entering;

/// The functions of a kind, each of one element: `KindBank` makes a bank of them.
pub trait Rule: Drop {
    ghost kind: { Kind };

    /// The rule, a value without fields.
    fn rule() -> Self;

    /// The kind.
    fn kind(&self) -> Kind
        ensures { result ≡ kind };

    /// Element `at` of the outputs.
    fn cell(&self, spec: &Words, state: &Ints, mask: u64, ins: &Entering, at: usize) -> Cell
        requires typed { IsOfKind kind spec.now }
        requires state { IsState spec.now state.now }
        requires mask { IsMask spec.now mask }
        requires ins { Fills (entering_of kind spec.now) ins.now }
        requires at { at < total spec.now.outs }
        ensures { result ≡ cell_of kind spec.now state.now mask ins.now at };

    /// Value `at` of the next state.
    fn next(&self, spec: &Words, state: &Ints, mask: u64, ins: &Entering, at: usize) -> i64
        requires typed { IsOfKind kind spec.now }
        requires state { IsState spec.now state.now }
        requires mask { IsMask spec.now mask }
        requires ins { Fills (entering_of kind spec.now) ins.now }
        requires at { at < state_len_of kind spec.now }
        ensures { result ≡ next_of kind spec.now state.now mask ins.now at };

    /// The branch that is taken.
    fn branch(&self, spec: &Words, ins: &Entering) -> u32
        requires typed { IsOfKind kind spec.now }
        requires ins { Fills (entering_of kind spec.now) ins.now }
        requires sync { is_sync kind ≡ true }
        ensures { result ≡ branch_of kind spec.now ins.now };

    /// The delay of an activation output.
    fn delay(&self, spec: &Words, port: u32, ins: &Entering) -> i64
        requires typed { IsOfKind kind spec.now }
        requires ins { Fills (entering_of kind spec.now) ins.now }
        requires delayed { has_delay kind ≡ true }
        ensures { result ≡ delay_of kind spec.now port ins.now };
}
