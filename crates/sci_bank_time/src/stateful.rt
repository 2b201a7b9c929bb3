// The functions of a kind that has a state, but no branch and no delay.
ghost use Rattle.std.specs.Prelude.{◌≡◌, ◌<◌, false};
ghost use Rattle.sci_forms.specs.declared.Kind.{Kind};
ghost use Rattle.sci_forms.specs.Ports.{total, Fills};
ghost use Rattle.sci_forms.specs.Words.{state_len_of};
ghost use Rattle.sci_forms.specs.Form.{is_sync, has_delay};
ghost use Rattle.sci_kinds.specs.Asks.{IsState, IsMask, entering_of};
ghost use Rattle.sci_kinds.specs.Table.{cell_of, next_of};
ghost use Rattle.sci_bank.specs.Bank.{IsOfKind};

use sci_bank::words::Words;
use sci_base::Ints;
use sci_kind_bank::Rule;
use sci_kinds::{Cell, Kind};
use sci_span::Entering;

/// The functions of a kind that has a state, but no branch and no delay.
pub trait StateRule: Drop {
    ghost kind: { Kind };

    /// The rule, a value without fields.
    fn rule() -> Self;

    /// The kind.
    fn kind(&self) -> Kind
        ensures { result ≡ kind };

    /// Element `at` of the outputs.
    fn cell(&self, spec: &Words, state: &Ints, mask: u64, ins: &Entering, at: usize) -> Cell
        requires typed { IsOfKind kind spec.now }
        requires state { IsState spec.now state.now }
        requires mask { IsMask spec.now mask }
        requires ins { Fills (entering_of kind spec.now) ins.now }
        requires at { at < total spec.now.outs }
        ensures { result ≡ cell_of kind spec.now state.now mask ins.now at };

    /// Value `at` of the next state.
    fn next(&self, spec: &Words, state: &Ints, mask: u64, ins: &Entering, at: usize) -> i64
        requires typed { IsOfKind kind spec.now }
        requires state { IsState spec.now state.now }
        requires mask { IsMask spec.now mask }
        requires ins { Fills (entering_of kind spec.now) ins.now }
        requires at { at < state_len_of kind spec.now }
        ensures { result ≡ next_of kind spec.now state.now mask ins.now at };

    ghost no_branch: { is_sync kind ≡ false };

    ghost no_delay: { has_delay kind ≡ false };
}

/// Such a kind, with the functions that it never needs.
#[derive(Drop)]
pub struct Stateful<S: StateRule> {
    pub rule: S,
}

impl<S: StateRule> Rule for Stateful<S> {
    ghost kind = { S.kind };

    fn rule() -> Self {
        Stateful { rule: S::rule() }
    }

    fn kind(&self) -> Kind {
        self.rule.kind()
    }

    #[inline(always)]
    fn cell(&self, spec: &Words, state: &Ints, mask: u64, ins: &Entering, at: usize) -> Cell {
        self.rule.cell(spec, state, mask, ins, at)
    }

    #[inline(always)]
    fn next(&self, spec: &Words, state: &Ints, mask: u64, ins: &Entering, at: usize) -> i64 {
        self.rule.next(spec, state, mask, ins, at)
    }

    fn branch(&self, _spec: &Words, _ins: &Entering) -> u32 {
        1
    }

    fn delay(&self, _spec: &Words, _port: u32, _ins: &Entering) -> i64 {
        -1
    }
}
