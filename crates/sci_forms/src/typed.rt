// The rules on types and sizes of a spec, and whether a spec is typed.
ghost use Rattle.std.specs.Prelude.{◌≡◌, ◌<◌, ◌≤◌, ◌^◌, ◌+◌, ◌∷◌, [], pos, length, ℕ, ℤ, IfSome, None, Some, true, not, ◌&&◌, ◌||◌, int_le, nat_le};
ghost use Rattle.std.specs.Prelude.{nat_eq, ◌-ℤ◌, if◌then◌else◌};
ghost use Rattle.sci_base.specs.Fit.{in_range, int_eq, width};
ghost use Rattle.sci_base.specs.Lists.{at};
ghost use Rattle.sci_forms.specs.Ports.{port_at, elements, type_of, sum_rows};
ghost use Rattle.sci_forms.specs.Forms.{first_not, counts_of, state_len_ok, firing_ok, first_port, any_in, any_out, type_wanted, in_type_ok, out_type_ok};
ghost use Rattle.sci_forms.specs.Forms.{param_fits, state_fits, is_scalar, same_size, is_column, as_first, suits, in_size_ok, out_size_ok, is_spread};
ghost use Rattle.sci_forms.specs.Forms.{params_spread, state_spread, names_element, index_ok};
ghost use Rattle.sci_forms.specs.Form.{has_state, has_delay};
ghost use Rattle.sci_forms.specs.Words.{state_len_of, held_of};
ghost use Rattle.sci_forms.specs.Typed.{is_known, known_in, known_out, known_of, param_fits_at, state_fits_at, types_broken_of, sizes_broken_of};
ghost use Rattle.sci_forms.specs.Typed.{type_not_here, value_not_here, wrong_size, wrong_shape, formed_of, feed_ok, counted, typed};

use crate::Kind;
use crate::broken::{Broken, Detail};
use crate::form::{Memory, Param, ParamCount, Role, Sizes, Types};
use crate::ports::Port;
use crate::search::first_failing;
use crate::spec::Spec;
use crate::values::{
    between, first_param, first_state, first_unfed, is_equal, param_at, params_len_ok,
    state_len_ok, within,
};
use sci_base::{Rule, Ty, limits};

fn first_port(s: &Spec) -> Port
    ensures { result ≡ first_port s.now }
{
    if s.ins.len() == 0 {
        s.outs.port(0)
    } else {
        s.ins.port(0)
    }
}

fn any_in(kind: Kind, k: usize) -> bool
    ensures { result ≡ any_in kind k }
{
    match kind.form().types {
        Types::Any => true,
        Types::AnySecond => k == 1,
        Types::Alike | Types::AnyOutput | Types::Int32 => false,
    }
}

fn any_out(kind: Kind) -> bool
    ensures { result ≡ any_out kind }
{
    match kind.form().types {
        Types::Any | Types::AnyOutput => true,
        Types::Alike | Types::AnySecond | Types::Int32 => false,
    }
}

fn type_wanted(s: &Spec) -> i64
    ensures { result ≡ type_wanted s.now.kind s.now }
{
    match s.kind.form().types {
        Types::Int32 => 3,
        Types::Alike | Types::AnyOutput | Types::AnySecond | Types::Any => first_port(s).ty,
    }
}

fn in_type_ok(s: &Spec, k: usize) -> bool
    ensures { result ≡ in_type_ok s.now.kind s.now k }
{
    any_in(s.kind, k) || is_equal(s.ins.port(k).ty, type_wanted(s))
}

fn out_type_ok(s: &Spec, k: usize) -> bool
    ensures { result ≡ out_type_ok s.now.kind s.now k }
{
    any_out(s.kind) || is_equal(s.outs.port(k).ty, type_wanted(s))
}

fn holds_before(t: Ty, v: i64) -> bool
    ensures { result ≡ in_range t (v -ℤ pos 1) }
{
    let before = i128::from(v) - 1;
    i128::from(t.low()) <= before && before <= i128::from(t.high())
}

fn suits(param: Param, t: Ty, v: i64) -> bool
    ensures { result ≡ suits t v param }
{
    match param {
        Param::Value | Param::High => t.holds(v),
        Param::Places => v.unsigned_abs() < u64::from(t.width()),
        Param::Bit | Param::LastBit => v < i64::from(t.width()),
        Param::Base => holds_before(t, v),
        Param::Any
        | Param::Between(_, _)
        | Param::Mode
        | Param::Sign
        | Param::Flag
        | Param::Element
        | Param::Operation => true,
    }
}

fn param_fits(kind: Kind, t: Ty, k: usize, v: i64) -> bool
    ensures { result ≡ param_fits kind t k v }
{
    suits(param_at(kind.form().params, k), t, v)
}

fn state_fits(kind: Kind, t: Ty, v: i64) -> bool
    ensures { result ≡ state_fits kind t v }
{
    match kind.role() {
        Role::State(Memory::Elements) | Role::State(Memory::Moving) => t.holds(v),
        Role::State(Memory::Counter) => true,
        Role::Values | Role::Delay | Role::Branch | Role::Sensor | Role::Halt => true,
    }
}

fn param_fits_at(s: &Spec, k: usize) -> bool
    ensures { result ≡ param_fits_at s.now.kind s.now k }
{
    param_fits(s.kind, s.outs.port(0).kind_of_type(), k, s.params.at(k))
}

fn state_fits_at(s: &Spec, k: usize) -> bool
    ensures { result ≡ state_fits_at s.now.kind s.now k }
{
    state_fits(s.kind, s.outs.port(0).kind_of_type(), s.state.at(k))
}

fn is_scalar(p: Port) -> bool
    ensures { result ≡ is_scalar p }
{
    is_equal(p.rows, 1) && is_equal(p.cols, 1)
}

fn same_size(p: Port, q: Port) -> bool
    ensures { result ≡ same_size p q }
{
    is_equal(p.rows, q.rows) && is_equal(p.cols, q.cols)
}

fn is_wide_equal(v: i128, w: i128) -> bool
    ensures { result ≡ int_eq v w }
{
    v <= w && w <= v
}

fn is_column(n: i128, p: Port) -> bool
    ensures { result ≡ is_column n p }
{
    is_equal(p.cols, 1) && is_wide_equal(i128::from(p.rows), n)
}

fn as_first(sizes: Sizes, s: &Spec, p: Port) -> bool
    ensures { result ≡ as_first sizes s.now p }
{
    match sizes {
        Sizes::Scalars => is_scalar(p),
        Sizes::Alike | Sizes::ScalarSecond | Sizes::Stacked | Sizes::Cut | Sizes::Chosen => {
            same_size(p, first_port(s))
        }
    }
}

fn in_size_ok(s: &Spec, k: usize) -> bool
    ensures { result ≡ in_size_ok s.now.kind s.now k }
{
    let p = s.ins.port(k);
    let sizes = s.kind.form().sizes;
    match sizes {
        Sizes::Alike | Sizes::Scalars => as_first(sizes, s, p),
        Sizes::ScalarSecond => if k == 1 {
            is_scalar(p)
        } else {
            same_size(p, first_port(s))
        },
        Sizes::Stacked => is_equal(p.cols, 1),
        Sizes::Cut => is_column(s.outs.sum_rows(), p),
        Sizes::Chosen => true,
    }
}

fn out_size_ok(s: &Spec, k: usize) -> bool
    ensures { result ≡ out_size_ok s.now.kind s.now k }
{
    let p = s.outs.port(k);
    let sizes = s.kind.form().sizes;
    match sizes {
        Sizes::Alike | Sizes::Scalars | Sizes::ScalarSecond => as_first(sizes, s, p),
        Sizes::Stacked => is_column(s.ins.sum_rows(), p),
        Sizes::Cut => is_equal(p.cols, 1),
        Sizes::Chosen => is_column(s.params.len() as i128, p),
    }
}

fn is_spread(len: usize, n: u128) -> bool
    ensures { result ≡ is_spread len n }
{
    len == 1 || len as u128 == n
}

fn params_spread(s: &Spec) -> bool
    ensures { result ≡ params_spread s.now.kind s.now }
{
    match s.kind.form().params.count {
        ParamCount::PerElement => is_spread(s.params.len(), s.outs.port(0).elements()),
        ParamCount::Exactly(_) | ParamCount::PerRow | ParamCount::BehindOne | ParamCount::Truths =>
            true,
    }
}

fn state_spread(s: &Spec) -> bool
    ensures { result ≡ state_spread s.now.kind s.now }
{
    match s.kind.role() {
        Role::State(Memory::Elements) => is_spread(s.state.len(), s.outs.port(0).elements()),
        Role::State(Memory::Moving) | Role::State(Memory::Counter) => true,
        Role::Values | Role::Delay | Role::Branch | Role::Sensor | Role::Halt => true,
    }
}

fn at_most(v: i64, n: u128) -> bool
    ensures { result ≡ int_le v (pos n) }
{
    v < 0 || v as u128 <= n
}

fn names_element(param: Param, s: &Spec, k: usize) -> bool
    ensures { result ≡ names_element s.now k param }
{
    match param {
        Param::Element => at_most(s.params.at(k), s.ins.port(0).elements()),
        Param::Any
        | Param::Between(_, _)
        | Param::Mode
        | Param::Sign
        | Param::Flag
        | Param::Value
        | Param::High
        | Param::Operation
        | Param::Places
        | Param::Bit
        | Param::LastBit
        | Param::Base => true,
    }
}

fn index_ok(s: &Spec, k: usize) -> bool
    ensures { result ≡ index_ok s.now.kind s.now k }
{
    names_element(param_at(s.kind.form().params, k), s, k)
}

fn is_known(p: Port) -> bool
    ensures { result ≡ is_known p }
{
    1 <= p.rows && 1 <= p.cols && between(3, 8, p.ty)
}

fn known_in(s: &Spec, k: usize) -> bool
    ensures { result ≡ known_in s.now k }
{
    is_known(s.ins.port(k))
}

fn known_out(s: &Spec, k: usize) -> bool
    ensures { result ≡ known_out s.now k }
{
    is_known(s.outs.port(k)) && s.outs.port(k).elements() <= u128::from(limits::PORT_ELEMENTS)
}

fn type_not_here(side: i64, k: usize) -> Broken
    requires { k + 1 < 2 ^ 63 }
    ensures { result ≡ type_not_here side k }
{
    Broken {
        rule: Rule::TypeNotHere,
        detail: Detail::Triple(1, side, (k + 1) as i64),
    }
}

fn value_not_here(field: i64, k: usize) -> Broken
    requires { k + 1 < 2 ^ 63 }
    ensures { result ≡ value_not_here field k }
{
    Broken {
        rule: Rule::TypeNotHere,
        detail: Detail::Triple(2, field, (k + 1) as i64),
    }
}

fn wrong_size(side: i64, k: usize) -> Broken
    requires { k + 1 < 2 ^ 63 }
    ensures { result ≡ wrong_size side k }
{
    Broken {
        rule: Rule::ShapeRule,
        detail: Detail::Triple(1, side, (k + 1) as i64),
    }
}

fn wrong_shape(field: i64, n: usize) -> Broken
    requires { n < 2 ^ 63 }
    ensures { result ≡ wrong_shape field n }
{
    Broken {
        rule: Rule::ShapeRule,
        detail: Detail::Triple(2, field, n as i64),
    }
}

impl Spec {
    /// The first port, by inputs and then outputs, parameter or value of the state whose type isn't one that the kind takes, of a
    /// spec whose ports are known.
    pub fn types_broken(&self) -> Option<Broken>
        ensures { result ≡ types_broken_of self.now.kind self.now }
    {
        if let Some(k) = first_failing(self.ins.len(), |k| in_type_ok(self, k)) {
            return Some(type_not_here(1, k));
        }
        if let Some(k) = first_failing(self.outs.len(), |k| out_type_ok(self, k)) {
            return Some(type_not_here(2, k));
        }
        if let Some(k) = first_failing(self.params.len(), |k| param_fits_at(self, k)) {
            return Some(value_not_here(1, k));
        }
        match first_failing(self.state.len(), |k| state_fits_at(self, k)) {
            None => None,
            Some(k) => Some(value_not_here(2, k)),
        }
    }

    /// The first port, by inputs and then outputs, or list whose size isn't one that the kind takes, of a spec whose ports are
    /// known.
    pub fn sizes_broken(&self) -> Option<Broken>
        ensures { result ≡ sizes_broken_of self.now.kind self.now }
    {
        if let Some(k) = first_failing(self.ins.len(), |k| in_size_ok(self, k)) {
            return Some(wrong_size(1, k));
        }
        if let Some(k) = first_failing(self.outs.len(), |k| out_size_ok(self, k)) {
            return Some(wrong_size(2, k));
        }
        if !params_spread(self) {
            return Some(wrong_shape(1, self.params.len()));
        }
        if !state_spread(self) {
            return Some(wrong_shape(2, self.state.len()));
        }
        match first_failing(self.params.len(), |k| index_ok(self, k)) {
            None => None,
            Some(k) => Some(wrong_shape(1, k + 1)),
        }
    }

    /// How many values the state has: the elements of the output for a delay, the length of `dstate` for a register, 1 for a
    /// counter, else 0.
    pub fn state_len(&self) -> usize
        requires { typed self.now ≡ true }
        ensures { result ≡ state_len_of self.now.kind self.now }
    {
        match self.kind.role() {
            Role::State(Memory::Elements) => self.outs.port(0).elements() as usize,
            Role::State(Memory::Moving) => self.state.len(),
            Role::State(Memory::Counter) => 1,
            Role::Values | Role::Delay | Role::Branch | Role::Sensor | Role::Halt => 0,
        }
    }

    /// Element `at` of the outputs before the block's first activation.
    pub fn held(&self, at: usize) -> i64
        ensures { result ≡ held_of self.now.kind self.now at }
    {
        if !self.kind.form().holds_state {
            return 0;
        }
        match self.kind.role() {
            Role::State(Memory::Elements) => self
                .state
                .at(if self.state.len() == 1 { 0 } else { at }),
            Role::State(Memory::Moving) | Role::State(Memory::Counter) => self.state.at(0),
            Role::Values | Role::Delay | Role::Branch | Role::Sensor | Role::Halt => 0,
        }
    }

    fn is_counted(&self) -> bool
        ensures { result ≡ counted self.now (counts_of self.now.kind (length self.now.ins)) }
    {
        let c = self.kind.counts(self.ins.len());
        within(c.ins_least, c.ins_most, self.ins.len())
            && within(c.outs_least, c.outs_most, self.outs.len())
            && within(c.evtin_least, c.evtin_most, self.evtin as usize)
            && within(c.evtout_least, c.evtout_most, self.evtout as usize)
    }

    fn has_state_len(&self) -> bool
        ensures { result ≡ (if has_state self.now.kind then state_len_ok self.now.kind (length self.now.state) else nat_eq (length self.now.state) 0) }
    {
        if self.kind.has_state() {
            state_len_ok(self.kind, self.state.len())
        } else {
            self.state.len() == 0
        }
    }

    fn has_firing(&self) -> bool
        ensures { result ≡ (if has_delay self.now.kind then nat_eq (length self.now.firing) 1
            && firing_ok (at self.now.firing 0) else nat_eq (length self.now.firing) 0) }
    {
        if self.kind.has_delay() {
            self.firing.len() == 1 && self.firing.at(0) <= limits::DELAY
        } else {
            self.firing.len() == 0
        }
    }

    fn has_feed(&self) -> bool
        ensures { result ≡ feed_ok self.now.kind self.now.feed (length self.now.ins) }
    {
        let n = self.ins.len();
        self.feed.len() == n && first_unfed(self.kind, self.feed.as_slice(), n).is_none()
    }

    fn is_formed(&self) -> bool
        ensures { result ≡ formed_of self.now.kind self.now }
    {
        self.is_counted()
            && params_len_ok(
                self.kind,
                self.ins.len(),
                self.outs.len(),
                self.params.len(),
            )
            && first_param(self.kind, self.ins.len(), self.params.as_slice()).is_none()
            && self.has_state_len()
            && first_state(self.kind, self.params.as_slice(), self.state.as_slice()).is_none()
            && self.has_firing()
            && self.has_feed()
    }

    fn has_known_ports(&self) -> bool
        ensures { result ≡ known_of self.now }
    {
        first_failing(self.ins.len(), |k| known_in(self, k)).is_none()
            && first_failing(self.outs.len(), |k| known_out(self, k)).is_none()
    }

    /// Whether the counts, parameters, state, first dates and feedthrough are such as the check of a block can give for the kind,
    /// all ports have positive sizes and integer types, the types and sizes suit the kind, and no output has more than 256
    /// elements.
    pub fn is_typed(&self) -> bool
        ensures { result ≡ typed self.now }
    {
        self.is_formed()
            && self.has_known_ports()
            && self.types_broken().is_none()
            && self.sizes_broken().is_none()
    }
}
