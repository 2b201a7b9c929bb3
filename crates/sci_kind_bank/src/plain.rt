// The functions of a kind that has no state, no branch and no delay.
ghost use Rattle.std.specs.Prelude.{◌≡◌, ◌<◌, false, []};
ghost use Rattle.sci_forms.specs.declared.Kind.{Kind};
ghost use Rattle.sci_forms.specs.declared.spec.Spec.{Spec};
ghost use Rattle.sci_forms.specs.Ports.{total, Fills};
ghost use Rattle.sci_forms.specs.Words.{state_len_of};
ghost use Rattle.sci_forms.specs.Form.{is_sync, has_delay};
ghost use Rattle.sci_kinds.specs.Asks.{IsState, IsMask, entering_of};
ghost use Rattle.sci_kinds.specs.Table.{cell_of};
ghost use Rattle.sci_bank.specs.Bank.{IsOfKind};

use crate::rule::Rule;
use sci_bank::words::Words;
use sci_base::Ints;
use sci_kinds::{Cell, Kind, Spec};
use sci_span::Entering;

/// The function of a kind that has no state, no branch and no delay.
pub trait CellRule: Drop {
    ghost kind: { Kind };

    fn rule() -> Self;

    fn kind(&self) -> Kind
        ensures { result ≡ kind };

    fn cell(&self, spec: &Words, mask: u64, ins: &Entering, at: usize) -> Cell
        requires typed { IsOfKind kind spec.now }
        requires mask { IsMask spec.now mask }
        requires ins { Fills (entering_of kind spec.now) ins.now }
        requires at { at < total spec.now.outs }
        ensures { result ≡ cell_of kind spec.now [] mask ins.now at };

    ghost no_state: { (s : Spec) → state_len_of kind s ≡ 0 };

    ghost no_branch: { is_sync kind ≡ false };

    ghost no_delay: { has_delay kind ≡ false };
}

/// Such a kind, with the functions that it never needs.
#[derive(Drop)]
pub struct Plain<C: CellRule> {
    pub rule: C,
}

impl<C: CellRule> Rule for Plain<C> {
    ghost kind = { C.kind };

    fn rule() -> Self {
        Plain { rule: C::rule() }
    }

    fn kind(&self) -> Kind {
        self.rule.kind()
    }

    #[inline(always)]
    fn cell(&self, spec: &Words, _state: &Ints, mask: u64, ins: &Entering, at: usize) -> Cell {
        self.rule.cell(spec, mask, ins, at)
    }

    fn next(&self, _spec: &Words, _state: &Ints, _mask: u64, _ins: &Entering, _at: usize) -> i64 {
        0
    }

    fn branch(&self, _spec: &Words, _ins: &Entering) -> u32 {
        1
    }

    fn delay(&self, _spec: &Words, _port: u32, _ins: &Entering) -> i64 {
        -1
    }
}
