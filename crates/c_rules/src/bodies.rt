// Which bodies assign a name, themselves or in the bodies that they call.

ghost use Rattle.std.specs.Prelude.{◌≡◌, ◌≢◌, ℕ, ◌+◌, ◌<◌, ◌≤◌, ◌^◌, ◌⊎◌, OnOk, OnErr, IfOk, IfSome, IfNone, All, Contains, Bool, true, [], ◌∷◌, Some};
ghost use Rattle.std.specs.Prelude.{length, vec_len, max, nat_eq, nat_le, slice_index_or};
ghost use Rattle.std.specs.List.{list_any};
ghost use Rattle.indexmap.specs.IndexSet.{insert_key};
ghost use Rattle.sci_loop.specs.Lists.{plain, list_at};
ghost use Rattle.c_ast.specs.declared.Name.{Name};
ghost use Rattle.c_ast.specs.Rules.{same_name, is_hit};
ghost use Rattle.c_rules.specs.Naming.{number_in, at_place};
ghost use Rattle.c_rules.specs.Assigning.{assigners_of, AreSound, Tells, IsNoted, is_early, is_found};

use crate::names::{Names, put, value_at};
use c_ast::events::Opened;
use c_ast::{Bound, Name};
use sci_base::NoMemory;
use sci_loop::walk::{Walk, push_at};
use std::alloc::Global;

// Fills a table up to so many lists, with empty ones at the end.
fn fill(lists: &mut Vec<Vec<u32>>, alloc: Global, count: usize) -> Result<(), NoMemory>
    ensures same { (n : ℕ) → list_at (plain lists.new.items) n ≡ list_at (plain lists.old.items) n }
    ensures long { OnOk result (count ≤ vec_len lists.new) }
    ensures most { vec_len lists.new ≤ max (vec_len lists.old) count }
{
    for _turn in lists.len()..count {
        lists.push(Vec::new(alloc))?;
    }
    Ok(())
}

fn ends_with(list: &[u32], number: u32) -> bool
    ensures { result ≡ true → Contains list.now number }
{
    match list.last() {
        None => false,
        Some(last) => *last == number,
    }
}

// Puts a body at the end of a list, where it does not stand there already.
fn push_new(lists: &mut Vec<Vec<u32>>, at: usize, body: u32) -> Result<(), NoMemory>
    requires { at < vec_len lists.old }
    ensures ok { OnOk result (IsNoted body (list_at (plain lists.old.items) at) (list_at (plain lists.new.items) at)) }
    ensures others { (n : ℕ) → n ≢ at → list_at (plain lists.new.items) n ≡ list_at (plain lists.old.items) n }
    ensures err { OnErr result (plain lists.new.items ≡ plain lists.old.items) }
    ensures len { length (plain lists.new.items) ≡ length (plain lists.old.items) }
{
    if ends_with(&lists[at], body) {
        Ok(())
    } else {
        push_at(lists, at, body)
    }
}

// The body of this number assigns the name of that number.
fn note(
    assigners: &mut Vec<Vec<u32>>,
    alloc: Global,
    number: usize,
    body: u32,
) -> Result<(), NoMemory>
    requires { number < 2 ^ 63 }
    ensures ok { OnOk result (IsNoted body (list_at (plain assigners.old.items) number) (list_at (plain assigners.new.items) number)) }
    ensures others { (n : ℕ) → n ≢ number → list_at (plain assigners.new.items) n ≡ list_at (plain assigners.old.items) n }
    ensures err { OnErr result ((n : ℕ) → list_at (plain assigners.new.items) n ≡ list_at (plain assigners.old.items) n) }
    ensures most { length (plain assigners.new.items) ≤ max (length (plain assigners.old.items)) (number + 1) }
{
    fill(assigners, alloc, number + 1)?;
    push_new(assigners, number, body)
}

fn has(walk: &Walk, number: u32) -> bool
    requires { number < walk.now.count }
    ensures { result ≡ list_any (nat_eq number) walk.now.found }
{
    walk.has(number)
}

fn has_any(walk: &Walk, numbers: &[u32]) -> bool
    requires { All (λ p. p < walk.now.count) numbers.now }
    ensures { result ≡ list_any (λ p. list_any (nat_eq p) walk.now.found) numbers.now }
{
    numbers.iter().any(|number| has(walk, *number))
}

// Whether a body up to this one is in a list, the first of which is the least.
fn first_is(bodies: &[u32], body: u32) -> bool
    requires { All (λ p. slice_index_or bodies.now 0 0 ≤ p) bodies.now }
    ensures { result ≡ list_any (λ p. nat_le p body) bodies.now }
{
    match bodies.first() {
        None => false,
        Some(first) => *first <= body,
    }
}

/// The bodies so far, by numbers from 0 on in the order of the text. The last of them is open.
#[derive(Drop)]
pub struct Bodies {
    /// The names so far. One that the text uses and does not declare gets a number where it is assigned.
    pub names: Names,
    /// By number, which bodies it calls, all of them earlier, each once.
    pub callees: Vec<Vec<u32>>,
    /// By the number of a name, which bodies assign it themselves, the earliest first.
    pub assigners: Vec<Vec<u32>>,
    /// The number of the open one.
    pub last: u32,
    // by number, the latest body that calls it
    callers: Vec<Option<u32>>,
    walk: Walk,
    ghost sound: { AreSound (plain callees.items) (assigners_of names assigners.items) last walk.count },
    ghost long: { length (plain assigners.items) ≤ length names },
    ghost called: { (p q : ℕ) → at_place callers.items q ≡ Some p → list_any (nat_eq q) (list_at (plain callees.items) p) ≡ true },
}

impl Bodies {
    ghost use Rattle.c_rules.specs.Bodies.{callees_in, assigners_in, KeepsBodies, BeginsBody, AssignsName, CallsBody, CallsAgain};

    /// One body, which is open, calls none and assigns nothing, of a text that declares these names.
    pub fn new(alloc: Global, names: Names) -> Result<Bodies, NoMemory>
        ensures callees { IfOk result (λ b. callees_in b ≡ [] ∷ []) }
        ensures assigners { IfOk result (λ b. (q : Name) → assigners_in b q ≡ []) }
        ensures last { IfOk result (λ b. b.last ≡ 0) }
    {
        let mut callees = Vec::new(alloc);
        callees.push(Vec::new(alloc))?;
        let walk = Walk::new(alloc, 1)?;
        Ok(Bodies {
            names,
            callees,
            assigners: Vec::new(alloc),
            last: 0,
            callers: Vec::new(alloc),
            walk,
        })
    }

    /// Begins the next body.
    pub fn begin(&mut self, alloc: Global) -> Result<(), NoMemory>
        ensures ok { OnOk result (BeginsBody self.old self.new) }
        ensures err { OnErr result (KeepsBodies self.old self.new) }
        ensures last { self.old.last ≤ self.new.last }
        ensures names { self.new.names ≡ self.old.names }
    {
        let Some(next) = self.last.checked_add(1) else {
            return Err(NoMemory);
        };
        self.callees.reserve(1)?;
        self.walk.grow()?;
        self.callees.push(Vec::new(alloc))?;
        self.last = next;
        Ok(())
    }

    /// The number of a name, which is the next one where it has none yet.
    pub fn number(&mut self, x: Name) -> Result<usize, NoMemory>
        ensures same { KeepsBodies self.old self.new }
        ensures names { OnOk result (self.new.names ≡ insert_key same_name self.old.names x) }
        ensures more { length self.old.names ≤ length self.new.names }
        ensures number { IfOk result (λ n. number_in self.new.names x ≡ Some n) }
        ensures within { IfOk result (λ n. n < length self.new.names) }
        ensures few { IfOk result (λ n. n < 2 ^ 63) }
    {
        self.names.add(x)
    }

    /// The open body assigns a name.
    pub fn assign(&mut self, alloc: Global, x: Name) -> Result<(), NoMemory>
        ensures ok { OnOk result (AssignsName x self.old self.new) }
        ensures last { self.new.last ≡ self.old.last }
        ensures names { OnOk result (self.new.names ≡ insert_key same_name self.old.names x) }
        ensures more { length self.old.names ≤ length self.new.names }
    {
        let number = self.names.add(x)?;
        note(&mut self.assigners, alloc, number, self.last)
    }

    // Whether the open body has called this one before.
    fn is_called(&self, body: u32) -> bool
        ensures { result ≡ true → Contains (list_at (callees_in self.now) self.now.last) body }
    {
        match value_at(&self.callers, body as usize) {
            None => false,
            Some(caller) => caller == self.last,
        }
    }

    /// The open body calls an earlier one.
    pub fn call(&mut self, body: u32) -> Result<(), NoMemory>
        requires { body < self.old.last }
        ensures ok { OnOk result (CallsBody body self.old self.new ⊎ CallsAgain body self.old self.new) }
        ensures last { self.new.last ≡ self.old.last }
        ensures names { self.new.names ≡ self.old.names }
    {
        if self.is_called(body) {
            return Ok(());
        }
        push_at(&mut self.callees, self.last as usize, body)?;
        put(&mut self.callers, body as usize, self.last)
    }

    // The bodies that assign a name themselves, if it has a number and any do.
    fn listed(&self, x: Name) -> Option<&Vec<u32>>
        ensures none { IfNone result (assigners_in self.now x ≡ []) }
        ensures some { IfSome result (λ v. v.now.items ≡ assigners_in self.now x) }
    {
        let number = self.names.number_of(x)?;
        self.assigners.get(number)
    }

    // Whether a body up to this one assigns a name itself.
    fn is_early(&self, body: u32, x: Name) -> bool
        ensures { result ≡ is_early (assigners_in self.now) body x }
    {
        match self.listed(x) {
            None => false,
            Some(bodies) => first_is(bodies, body),
        }
    }

    fn hits_early(&self, body: u32, opened: Opened) -> bool
        ensures { result ≡ is_hit (is_early (assigners_in self.now) body) opened }
    {
        match opened {
            Opened::Branch => false,
            Opened::Turn(counter, Bound::Num(_)) => self.is_early(body, counter),
            Opened::Turn(counter, Bound::Var(y)) => self.is_early(body, counter)
                || self.is_early(body, y),
        }
    }

    fn any_early(&self, body: u32, blocks: &[Opened]) -> bool
        ensures { result ≡ list_any (is_hit (is_early (assigners_in self.now) body)) blocks.now }
    {
        blocks.iter().any(|opened| self.hits_early(body, *opened))
    }

    // Whether a body that was found assigns a name itself.
    fn is_found(&self, x: Name) -> bool
        ensures { result ≡ is_found (assigners_in self.now) self.now.walk.found x }
    {
        match self.listed(x) {
            None => false,
            Some(bodies) => has_any(&self.walk, bodies),
        }
    }

    fn hits_found(&self, opened: Opened) -> bool
        ensures { result ≡ is_hit (is_found (assigners_in self.now) self.now.walk.found) opened }
    {
        match opened {
            Opened::Branch => false,
            Opened::Turn(counter, Bound::Num(_)) => self.is_found(counter),
            Opened::Turn(counter, Bound::Var(y)) => self.is_found(counter) || self.is_found(y),
        }
    }

    fn any_found(&self, blocks: &[Opened]) -> bool
        ensures { result ≡ list_any (is_hit (is_found (assigners_in self.now) self.now.walk.found)) blocks.now }
    {
        blocks.iter().any(|opened| self.hits_found(*opened))
    }

    /// Whether a body assigns, itself or by others, the counter or the bound of an open loop.
    pub fn hits(&mut self, body: u32, blocks: &[Opened]) -> Result<bool, NoMemory>
        requires { body ≤ self.old.last }
        ensures same { KeepsBodies self.old self.new }
        ensures names { self.new.names ≡ self.old.names }
        ensures value { IfOk result (λ hit. (test : Name → Bool) → Tells test (callees_in self.old) (assigners_in self.old) body
            → hit ≡ list_any (is_hit test) blocks.now) }
    {
        if !self.any_early(body, blocks) {
            return Ok(false);
        }
        self.walk.walk(&self.callees, &[body])?;
        Ok(self.any_found(blocks))
    }
}
