// The function of a kind that has a delay alone: no outputs, no state and no branch.
ghost use Rattle.std.specs.Prelude.{◌≡◌, ℕ, ℤ, pos, List, false};
ghost use Rattle.sci_forms.specs.declared.Kind.{Kind};
ghost use Rattle.sci_forms.specs.declared.spec.Spec.{Spec};
ghost use Rattle.sci_forms.specs.Ports.{Fills};
ghost use Rattle.sci_forms.specs.Words.{state_len_of};
ghost use Rattle.sci_forms.specs.Form.{is_sync};
ghost use Rattle.sci_kinds.specs.declared.Cell.TheVariants.{Value};
ghost use Rattle.sci_kinds.specs.Asks.{entering_of};
ghost use Rattle.sci_kinds.specs.Table.{cell_of, delay_of};
ghost use Rattle.sci_bank.specs.Bank.{IsOfKind};

use sci_bank::words::Words;
use sci_base::Ints;
use sci_kind_bank::Rule;
use sci_kinds::{Cell, Kind, Spec};
use sci_span::Entering;

/// The function of a kind that has a delay, but no outputs, no state and no branch.
pub trait DelayRule: Drop {
    ghost kind: { Kind };

    /// The rule, a value without fields.
    fn rule() -> Self;

    /// The kind.
    fn kind(&self) -> Kind
        ensures { result ≡ kind };

    /// The delay of an activation output, in ticks; -1 for none.
    fn delay(&self, spec: &Words, port: u32, ins: &Entering) -> i64
        requires typed { IsOfKind kind spec.now }
        requires ins { Fills (entering_of kind spec.now) ins.now }
        ensures { result ≡ delay_of kind spec.now port ins.now };

    ghost no_values: { (s : Spec) (x : List ℤ) (m : ℕ) (u : List ℤ) (e : ℕ) → cell_of kind s x m u e ≡ Value (pos 0) };

    ghost no_state: { (s : Spec) → state_len_of kind s ≡ 0 };

    ghost no_branch: { is_sync kind ≡ false };
}

/// Such a kind, with the functions that it never needs.
#[derive(Drop)]
pub struct Delayed<D: DelayRule> {
    pub rule: D,
}

impl<D: DelayRule> Rule for Delayed<D> {
    ghost kind = { D.kind };

    fn rule() -> Self {
        Delayed { rule: D::rule() }
    }

    fn kind(&self) -> Kind {
        self.rule.kind()
    }

    fn cell(&self, _spec: &Words, _state: &Ints, _mask: u64, _ins: &Entering, _at: usize) -> Cell {
        Cell::Value(0)
    }

    fn next(&self, _spec: &Words, _state: &Ints, _mask: u64, _ins: &Entering, _at: usize) -> i64 {
        0
    }

    fn branch(&self, _spec: &Words, _ins: &Entering) -> u32 {
        1
    }

    fn delay(&self, spec: &Words, port: u32, ins: &Entering) -> i64 {
        self.rule.delay(spec, port, ins)
    }
}
