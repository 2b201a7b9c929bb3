// The function of a kind that has a branch alone: no outputs, no state and no delay.
ghost use Rattle.std.specs.Prelude.{◌≡◌, ℕ, ℤ, pos, List, false};
ghost use Rattle.sci_forms.specs.declared.Kind.{Kind};
ghost use Rattle.sci_forms.specs.declared.spec.Spec.{Spec};
ghost use Rattle.sci_forms.specs.Ports.{Fills};
ghost use Rattle.sci_forms.specs.Words.{state_len_of};
ghost use Rattle.sci_forms.specs.Form.{has_delay};
ghost use Rattle.sci_kinds.specs.declared.Cell.TheVariants.{Value};
ghost use Rattle.sci_kinds.specs.Asks.{entering_of};
ghost use Rattle.sci_kinds.specs.Table.{cell_of, branch_of};
ghost use Rattle.sci_bank.specs.Bank.{IsOfKind};

use sci_bank::words::Words;
use sci_base::Ints;
use sci_kind_bank::Rule;
use sci_kinds::{Cell, Kind, Spec};
use sci_span::Entering;

/// The function of a kind that has a branch, but no outputs, no state and no delay.
pub trait BranchRule: Drop {
    ghost kind: { Kind };

    /// The rule, a value without fields.
    fn rule() -> Self;

    /// The kind.
    fn kind(&self) -> Kind
        ensures { result ≡ kind };

    /// The branch that is taken, from 1.
    fn branch(&self, spec: &Words, ins: &Entering) -> u32
        requires typed { IsOfKind kind spec.now }
        requires ins { Fills (entering_of kind spec.now) ins.now }
        ensures { result ≡ branch_of kind spec.now ins.now };

    ghost no_values: { (s : Spec) (x : List ℤ) (m : ℕ) (u : List ℤ) (e : ℕ) → cell_of kind s x m u e ≡ Value (pos 0) };

    ghost no_state: { (s : Spec) → state_len_of kind s ≡ 0 };

    ghost no_delay: { has_delay kind ≡ false };
}

/// Such a kind, with the functions that it never needs.
#[derive(Drop)]
pub struct Branching<B: BranchRule> {
    pub rule: B,
}

impl<B: BranchRule> Rule for Branching<B> {
    ghost kind = { B.kind };

    fn rule() -> Self {
        Branching { rule: B::rule() }
    }

    fn kind(&self) -> Kind {
        self.rule.kind()
    }

    fn cell(&self, _spec: &Words, _state: &Ints, _mask: u64, _ins: &Entering, _at: usize) -> Cell {
        Cell::Value(0)
    }

    fn next(&self, _spec: &Words, _state: &Ints, _mask: u64, _ins: &Entering, _at: usize) -> i64 {
        0
    }

    fn branch(&self, spec: &Words, ins: &Entering) -> u32 {
        self.rule.branch(spec, ins)
    }

    fn delay(&self, _spec: &Words, _port: u32, _ins: &Entering) -> i64 {
        -1
    }
}
