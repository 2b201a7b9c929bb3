// Which numbers may be saved of a block.
ghost use Rattle.std.specs.Prelude.{◌≡◌, ◌<◌, ◌^◌, ◌++◌, [], true, length, replicate, IfOk, OnOk};
ghost use Rattle.sci_forms.specs.Typed.{typed};
ghost use Rattle.sci_net.specs.Parts.{numbered};
ghost use Rattle.sci_forms.specs.Form.{is_sensor};
ghost use Rattle.sci_trace.specs.Columns.{columns_view};
ghost use Rattle.sci_save.specs.Bounds.{of_type, is_within, state_bound_of, state_bounds, held_bounds, cursor_bounds, word_of, bounds_of};

use sci_base::{NoMemory, Ty};
use sci_forms::{Memory, Role, Spec};
use std::alloc::Global;

/// The numbers from `low` to `high`.
#[derive(Clone, Copy, Drop)]
pub struct Bounds {
    pub low: i64,
    pub high: i64,
}

impl Bounds {
    /// The numbers of a type.
    pub fn of_type(ty: Ty) -> Bounds
        ensures { result ≡ of_type ty }
    {
        Bounds {
            low: ty.low(),
            high: ty.high(),
        }
    }

    /// Whether a number is one of them.
    pub fn hold(self, number: i64) -> bool
        ensures { result ≡ is_within self number }
    {
        self.low <= number && number <= self.high
    }
}

/// What a line about a block tells: its state, the values that its outputs hold, or how many values of its column a sensor has taken.
#[derive(Clone, Copy, Drop)]
pub enum BlockLine {
    State,
    Held,
    Cursor,
}

impl BlockLine {
    /// The word with which the line begins.
    pub fn word(self) -> &'static str
        ensures { result.now ≡ word_of self }
    {
        match self {
            BlockLine::State => "state",
            BlockLine::Held => "held",
            BlockLine::Cursor => "cursor",
        }
    }

    /// The bounds of the numbers that a block has; where it has none, it has no such line.
    pub fn bounds(
        self,
        alloc: Global,
        spec: &Spec,
        columns: &[Vec<i64>],
    ) -> Result<Vec<Bounds>, NoMemory>
        requires { typed spec.now ≡ true }
        ensures { IfOk result (λ v. v.items ≡ bounds_of self (columns_view columns.now) spec.now) }
    {
        match self {
            BlockLine::State => state_bounds(alloc, spec),
            BlockLine::Held => held_bounds(alloc, spec),
            BlockLine::Cursor => cursor_bounds(alloc, spec, columns),
        }
    }
}

/// So many times the same bounds, behind those that are there.
#[tactic(auto, using(std::proofs::lemmas::List::replicate_more, std::proofs::lemmas::List::append_assoc))]
fn push_bounds(bounds: &mut Vec<Bounds>, more: Bounds, count: u64) -> Result<(), NoMemory>
    ensures { OnOk result (bounds.new.items ≡ bounds.old.items ++ replicate count more) }
{
    for _ in 0..count {
        bounds.push(more)?;
    }
    Ok(())
}

fn state_bound(spec: &Spec) -> Bounds
    requires { typed spec.now ≡ true }
    ensures { result ≡ state_bound_of spec.now.kind spec.now }
{
    match spec.kind.role() {
        Role::State(Memory::Counter) => Bounds {
            low: 0,
            high: spec.params.at(0) - 1,
        },
        Role::State(Memory::Elements) | Role::State(Memory::Moving) => {
            Bounds::of_type(spec.outs.port(0).kind_of_type())
        }
        Role::Values | Role::Delay | Role::Branch | Role::Sensor | Role::Halt => {
            Bounds::of_type(spec.outs.port(0).kind_of_type())
        }
    }
}

fn state_bounds(alloc: Global, spec: &Spec) -> Result<Vec<Bounds>, NoMemory>
    requires { typed spec.now ≡ true }
    ensures { IfOk result (λ v. v.items ≡ state_bounds spec.now) }
{
    let mut bounds = Vec::new(alloc);
    push_bounds(&mut bounds, state_bound(spec), spec.state_len() as u64)?;
    Ok(bounds)
}

fn held_bounds(alloc: Global, spec: &Spec) -> Result<Vec<Bounds>, NoMemory>
    requires { typed spec.now ≡ true }
    ensures { IfOk result (λ v. v.items ≡ held_bounds spec.now) }
{
    let mut bounds = Vec::new(alloc);
    for at in 0..spec.outs.len() {
        let port = spec.outs.get(at);
        push_bounds(
            &mut bounds,
            Bounds::of_type(port.kind_of_type()),
            port.elements() as u64,
        )?;
    }
    Ok(bounds)
}

/// How many values a column has, counted from 1; one that isn't there has none.
fn column_len(columns: &[Vec<i64>], column: usize) -> usize
    ensures value { result ≡ length (numbered [] (columns_view columns.now) column) }
    ensures few { result < 2 ^ 63 }
{
    match column.checked_sub(1) {
        None => 0,
        Some(at) => match columns.get(at) {
            None => 0,
            Some(values) => values.len(),
        },
    }
}

fn cursor_bounds(alloc: Global, spec: &Spec, columns: &[Vec<i64>]) -> Result<Vec<Bounds>, NoMemory>
    ensures { IfOk result (λ v. v.items ≡ cursor_bounds (columns_view columns.now) spec.now) }
{
    let mut bounds = Vec::new(alloc);
    if spec.kind.is_sensor() {
        let column = spec.params.at(0).unsigned_abs() as usize;
        bounds.push(Bounds {
            low: 0,
            high: column_len(columns, column) as i64,
        })?;
    }
    Ok(bounds)
}
