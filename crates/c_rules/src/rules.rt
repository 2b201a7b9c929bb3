// The static rules.

ghost use Rattle.std.specs.Prelude.{◌≡◌, IsTrue, ◌↔◌, ℕ, ◌≤◌, ◌<◌, ◌^◌, ◌∷◌, [], ◌++◌, OnOk, IfOk, IfSome, ◌||◌, not, length, take, nat_le, Bool, Some};
ghost use Rattle.std.specs.List.{list_any};
ghost use Rattle.c_ast.specs.declared.Name.{Name};
ghost use Rattle.c_rules.specs.declared.rules.Past.{Past};
ghost use Rattle.c_ast.specs.Rules.{is_scalar, is_array, is_used_well, is_bound, is_hit, is_guarded, same_name, is_too_large, elements_of, kind_of};
ghost use Rattle.c_ast.specs.Rules.{earlier, blamed_event, KeepsRules};
ghost use Rattle.c_ast.specs.View.{whole_of};
ghost use Rattle.c_ast.specs.Events.{program_events};
ghost use Rattle.c_rules.specs.Naming.{at_place, by_name};

use crate::bodies::Bodies;
use crate::events::program;
use crate::names::{Names, put};
use c_ast::events::{NameKind, Opened, TextEvent};
use c_ast::{Bound, Name, Program};
use sci_base::NoMemory;
use std::alloc::Global;

fn same(x: Name, y: Name) -> bool
    ensures { result ≡ same_name x y }
{
    x.letter == y.letter && x.number == y.number
}

fn scalar(kind: Option<NameKind>) -> bool
    ensures { result ≡ is_scalar kind }
{
    match kind {
        Some(NameKind::Scalar) => true,
        Some(NameKind::Array) => false,
        Some(NameKind::Function) => false,
        None => false,
    }
}

fn array(kind: Option<NameKind>) -> bool
    ensures { result ≡ is_array kind }
{
    match kind {
        Some(NameKind::Scalar) => false,
        Some(NameKind::Array) => true,
        Some(NameKind::Function) => false,
        None => false,
    }
}

fn used_well(wanted: NameKind, kind: Option<NameKind>) -> bool
    ensures { result ≡ is_used_well wanted kind }
{
    match wanted {
        NameKind::Scalar => scalar(kind),
        NameKind::Array => array(kind),
        NameKind::Function => false,
    }
}

fn bound_is(x: Name, bound: Bound) -> bool
    ensures { result ≡ is_bound (same_name x) bound }
{
    match bound {
        Bound::Num(_) => false,
        Bound::Var(y) => same(x, y),
    }
}

fn guarding(x: Name, opened: Opened) -> bool
    ensures { result ≡ is_hit (same_name x) opened }
{
    match opened {
        Opened::Branch => false,
        Opened::Turn(counter, bound) => same(x, counter) || bound_is(x, bound),
    }
}

fn guarded(blocks: &[Opened], x: Name) -> bool
    ensures { result ≡ is_guarded blocks.now x }
{
    blocks.iter().any(|opened| guarding(x, *opened))
}

fn kind_for(size: Option<u32>) -> NameKind
    ensures { result ≡ kind_of size }
{
    match size {
        None => NameKind::Scalar,
        Some(_) => NameKind::Array,
    }
}

fn elements_in(size: Option<u32>) -> u64
    ensures value { result ≡ elements_of size }
    ensures below { result < 2 ^ 32 }
{
    match size {
        None => 0,
        Some(size) => u64::from(size),
    }
}

fn earliest(a: Option<usize>, b: Option<usize>) -> Option<usize>
    ensures { result ≡ earlier a b }
{
    match (a, b) {
        (None, b) => b,
        (Some(i), None) => Some(i),
        (Some(i), Some(j)) => Some(i.min(j)),
    }
}

/// A function that has ended: the number of its body, and how deep its calls are, 65 at most.
#[derive(Clone, Copy)]
struct Past {
    body: u32,
    depth: u8,
}

/// What the text did so far.
#[derive(Drop)]
struct Knowledge {
    // by the number of a name
    kinds: Vec<Option<NameKind>>,
    elements: u64,
    // by the number of a name
    routines: Vec<Option<Past>>,
    blocks: Vec<Opened>,
    owner: Option<(Name, usize)>,
    depth: u8,
    bodies: Bodies,
    ghost earlier: { (n : ℕ) (past : Past) → at_place routines.items n ≡ Some past → past.body < bodies.last },
    ghost kinds_named: { length kinds.items ≤ length bodies.names },
    ghost routines_named: { length routines.items ≤ length bodies.names },
}

const MOST_ELEMENTS: u64 = 16_777_216;

impl Knowledge {
    ghost use Rattle.c_ast.specs.Rules.{Scope, outset, behind, blamed_at, breaks_loop, routine_in, closing, is_blamed, opens_body, ended};
    ghost use Rattle.c_rules.specs.Knowing.{Agrees};

    fn new(alloc: Global, names: Names) -> Result<Knowledge, NoMemory>
        ensures { IfOk result (λ k. Agrees k outset) }
    {
        let bodies = Bodies::new(alloc, names)?;
        Ok(Knowledge {
            kinds: Vec::new(alloc),
            elements: 0,
            routines: Vec::new(alloc),
            blocks: Vec::new(alloc),
            owner: None,
            depth: 1,
            bodies,
        })
    }

    fn kind_of(&self, x: Name) -> Option<NameKind>
        ensures { result ≡ by_name self.now.bodies.names self.now.kinds.items x }
    {
        self.bodies.names.look(&self.kinds, x)
    }

    fn routine_of(&self, f: Name) -> Option<Past>
        ensures value { result ≡ by_name self.now.bodies.names self.now.routines.items f }
        ensures earlier { IfSome result (λ past. past.body < self.now.bodies.last) }
    {
        self.bodies.names.look(&self.routines, f)
    }

    fn too_large(&self, size: Option<u32>) -> bool
        ensures { (s : Scope) → Agrees self.now s → result ≡ is_too_large s.elements size }
    {
        match size {
            None => false,
            Some(size) => self.elements.min(MOST_ELEMENTS + 1) + u64::from(size) > MOST_ELEMENTS,
        }
    }

    fn breaks(&mut self, f: Name) -> Result<bool, NoMemory>
        ensures same { (s : Scope) → Agrees self.old s → Agrees self.new s }
        ensures value { (s : Scope) → Agrees self.old s → IfOk result (λ wrong. wrong ≡ breaks_loop s.blocks (routine_in s.routines f)) }
    {
        match self.routine_of(f) {
            None => Ok(true),
            Some(past) => self.bodies.hits(past.body, &self.blocks),
        }
    }

    fn closing_fault(&self) -> Option<usize>
        ensures { (s : Scope) → Agrees self.now s → result ≡ closing s }
    {
        match self.owner {
            Some((_, line)) if self.blocks.len() <= 1 && self.depth > 64 => Some(line),
            _ => None,
        }
    }

    fn is_wrong(&mut self, event: TextEvent) -> Result<bool, NoMemory>
        ensures same { (s : Scope) → Agrees self.old s → Agrees self.new s }
        ensures value { (s : Scope) → Agrees self.old s → IfOk result (λ wrong. wrong ≡ is_blamed s event) }
    {
        match event {
            TextEvent::Declare(x, size) => { Ok(self.kind_of(x).is_some() || self.too_large(size)) }
            TextEvent::Function(f) => Ok(self.kind_of(f).is_some()),
            TextEvent::Read(x, kind) => Ok(!used_well(kind, self.kind_of(x))),
            TextEvent::Assign(x, kind) => Ok(
                !used_well(kind, self.kind_of(x)) || guarded(&self.blocks, x),
            ),
            TextEvent::Loop(x, bound) => Ok(
                !scalar(self.kind_of(x)) || guarded(&self.blocks, x) || bound_is(x, bound),
            ),
            TextEvent::Call(f) => self.breaks(f),
            TextEvent::Main => Ok(false),
            TextEvent::If => Ok(false),
            TextEvent::Close => Ok(false),
        }
    }

    /// The event that the rules blame at event i.
    fn fault(&mut self, i: usize, event: TextEvent) -> Result<Option<usize>, NoMemory>
        ensures same { (s : Scope) → Agrees self.old s → Agrees self.new s }
        ensures value { (s : Scope) → Agrees self.old s → IfOk result (λ blamed. blamed ≡ blamed_at i s event) }
    {
        match event {
            TextEvent::Close => Ok(self.closing_fault()),
            event => {
                let wrong = self.is_wrong(event)?;
                Ok(if wrong { Some(i) } else { None })
            }
        }
    }

    /// Gives a name what it stands for from now on.
    fn give(&mut self, x: Name, kind: NameKind) -> Result<(), NoMemory>
        ensures { (s : Scope) → Agrees self.old s → OnOk result (Agrees self.new (record s { declared = (x, kind) ∷ s.declared })) }
    {
        let number = self.bodies.number(x)?;
        put(&mut self.kinds, number, kind)
    }

    fn declare(&mut self, x: Name, size: Option<u32>) -> Result<(), NoMemory>
        ensures { (i : ℕ) → (s : Scope) → Agrees self.old s → OnOk result (Agrees self.new (behind i s (TextEvent.Declare x size))) }
    {
        self.give(x, kind_for(size))?;
        let sum = self.elements.min(MOST_ELEMENTS + 1) + elements_in(size);
        self.elements = sum.min(MOST_ELEMENTS + 1);
        Ok(())
    }

    fn begin_body(&mut self, alloc: Global, owner: Option<(Name, usize)>) -> Result<(), NoMemory>
        ensures { (s : Scope) → Agrees self.old s → OnOk result (Agrees self.new (opens_body s owner)) }
    {
        self.bodies.begin(alloc)?;
        self.blocks.push(Opened::Branch)?;
        self.owner = owner;
        self.depth = 1;
        Ok(())
    }

    fn begin_function(&mut self, alloc: Global, i: usize, f: Name) -> Result<(), NoMemory>
        ensures { (s : Scope) → Agrees self.old s → OnOk result (Agrees self.new (behind i s (TextEvent.Function f))) }
    {
        self.give(f, NameKind::Function)?;
        self.begin_body(alloc, Some((f, i)))
    }

    fn assign(&mut self, alloc: Global, x: Name) -> Result<(), NoMemory>
        ensures { (i : ℕ) → (k : NameKind) → (s : Scope) → Agrees self.old s → OnOk result (Agrees self.new (behind i s (TextEvent.Assign x k))) }
    {
        self.bodies.assign(alloc, x)
    }

    fn begin_loop(&mut self, alloc: Global, x: Name, bound: Bound) -> Result<(), NoMemory>
        ensures { (i : ℕ) → (s : Scope) → Agrees self.old s → OnOk result (Agrees self.new (behind i s (TextEvent.Loop x bound))) }
    {
        self.bodies.assign(alloc, x)?;
        self.blocks.push(Opened::Turn(x, bound))?;
        Ok(())
    }

    fn call(&mut self, f: Name) -> Result<(), NoMemory>
        ensures { (i : ℕ) → (s : Scope) → Agrees self.old s → OnOk result (Agrees self.new (behind i s (TextEvent.Call f))) }
    {
        match self.routine_of(f) {
            None => {
                self.depth = self.depth.max(1);
                Ok(())
            }
            Some(past) => {
                self.depth = self.depth.max(past.depth.saturating_add(1).min(65));
                self.bodies.call(past.body)
            }
        }
    }

    fn begin_branch(&mut self) -> Result<(), NoMemory>
        ensures { (i : ℕ) → (s : Scope) → Agrees self.old s → OnOk result (Agrees self.new (behind i s TextEvent.If)) }
    {
        self.blocks.push(Opened::Branch)?;
        Ok(())
    }

    fn end_body(&mut self, alloc: Global) -> Result<(), NoMemory>
        ensures { (s : Scope) → Agrees self.old s → OnOk result (Agrees self.new (record s { routines = ended s s.owner; assigns = [] })) }
    {
        let body = self.bodies.last;
        self.bodies.begin(alloc)?;
        if let Some((f, _)) = self.owner {
            let depth = self.depth;
            let number = self.bodies.number(f)?;
            put(&mut self.routines, number, Past { body, depth })?;
        }
        Ok(())
    }

    fn close(&mut self, alloc: Global) -> Result<(), NoMemory>
        ensures { (i : ℕ) → (s : Scope) → Agrees self.old s → OnOk result (Agrees self.new (behind i s TextEvent.Close)) }
    {
        let is_last = self.blocks.len() <= 1;
        let _ = self.blocks.pop();
        if is_last {
            self.end_body(alloc)
        } else {
            Ok(())
        }
    }

    /// Goes on behind event i.
    fn pass(&mut self, alloc: Global, i: usize, event: TextEvent) -> Result<(), NoMemory>
        ensures { (s : Scope) → Agrees self.old s → OnOk result (Agrees self.new (behind i s event)) }
    {
        match event {
            TextEvent::Declare(x, size) => self.declare(x, size),
            TextEvent::Function(f) => self.begin_function(alloc, i, f),
            TextEvent::Main => self.begin_body(alloc, None),
            TextEvent::Read(_, _) => Ok(()),
            TextEvent::Assign(x, _) => self.assign(alloc, x),
            TextEvent::Loop(x, bound) => self.begin_loop(alloc, x, bound),
            TextEvent::Call(f) => self.call(f),
            TextEvent::If => self.begin_branch(),
            TextEvent::Close => self.close(alloc),
        }
    }
}

/// The first event, by its number from 0, that the static rules blame. The names are those that the text declares; others get numbers
/// behind them, and the answer is the same whichever names are given.
pub fn first_fault(
    alloc: Global,
    names: Names,
    events: &[TextEvent],
) -> Result<Option<usize>, NoMemory>
    ensures { IfOk result (λ found. found ≡ blamed_event events.now) }
{
    let mut knowledge = Knowledge::new(alloc, names)?;
    let mut found = None;
    for (i, event) in events.iter().enumerate() {
        let fault = knowledge.fault(i, *event)?;
        found = earliest(found, fault);
        knowledge.pass(alloc, i, *event)?;
    }
    Ok(found)
}

/// The first event of a program, by its number from 0, that the static rules blame.
pub fn fault(alloc: Global, p: &Program) -> Result<Option<usize>, NoMemory>
    ensures { IfOk result (λ found. found ≡ blamed_event (program_events (whole_of p.now))) }
{
    let names = Names::number(alloc, p)?;
    let events = program(alloc, p)?;
    first_fault(alloc, names, &events)
}

/// Whether the static rules hold of a program: all declared names differ; each name is used only behind its declaration and as what it is,
/// and a function calls only earlier ones; neither the counter nor the bound of a For is assigned in its body, or in a function called
/// there, directly or through others, and the two differ; the arrays have at most 16,777,216 elements together; and calls are at most
/// 64 deep.
pub fn static_rules(alloc: Global, p: &Program) -> Result<bool, NoMemory>
    ensures { IfOk result (λ kept. IsTrue kept ↔ KeepsRules (whole_of p.now)) }
{
    let found = fault(alloc, p)?;
    Ok(found.is_none())
}
