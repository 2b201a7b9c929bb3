// The walk: it goes on from each number that it has found, in turn.
ghost use Rattle.std.specs.Prelude.{◌≡◌, ℕ, ◌+◌, ◌<◌, ◌≤◌, ◌↔◌, ◌∷◌, All, [], IfOk, OnOk, OnErr, IsTrue, Contains, length, nat_eq};
ghost use Rattle.std.specs.List.{IsDistinct};
ghost use Rattle.sci_loop.specs.Lists.{list_at, plain};
ghost use Rattle.sci_loop.specs.Walk.{IsMarked, AddsNumbers};
ghost use Rattle.sci_loop.specs.Reached.{IsReached};

use sci_base::NoMemory;
use std::alloc::Global;
use std::marker::Model;

/// Finds which numbers some starts lead to, again and again over the same numbers. A walk costs what it finds, a look at each successor of
/// that, and what the walk before it found.
#[derive(Drop)]
pub struct Walk {
    // by number, whether it is found
    marks: Vec<bool>,
    found: Vec<u32>,
}

impl Model for Walk {
    ghost use Rattle.std.specs.Prelude.{length};
    ghost use Rattle.sci_loop.specs.Walk.{Found, AreMarks};

    ghost Value = { Found };

    ghost view = { λ w. record { count = length w.marks.items; found = w.found.items } };

    ghost invariant = { λ w. AreMarks w.marks.items w.found.items };
}

// Takes the marks of these numbers away.
fn unmark(marks: &mut [bool], numbers: &[u32])
    requires { All (λ q. q < length marks.old) numbers.now }
    ensures kept { (q : ℕ) → IsMarked marks.new q → IsMarked marks.old q }
    ensures taken { (q : ℕ) → IsMarked marks.new q → Contains numbers.now q → ⊥ }
{
    for number in numbers {
        marks[*number as usize] = false;
    }
}

impl Walk {
    /// Over so many numbers, from 0 on, with nothing found.
    pub fn new(alloc: Global, count: usize) -> Result<Walk, NoMemory>
        ensures { IfOk result (λ w. w ≡ record { count = count; found = [] }) }
    {
        let marks = vec![in alloc; false; count]?;
        let found = Vec::new(alloc);
        Ok(Walk { marks, found })
    }

    /// What was found, each number once.
    pub fn found(&self) -> &[u32]
        ensures value { result.now ≡ self.now.found }
        ensures distinct { IsDistinct nat_eq self.now.found }
        ensures within { All (λ q. q < self.now.count) self.now.found }
        ensures most { length self.now.found ≤ self.now.count }
    {
        self.found.as_slice()
    }

    /// Whether a number was found.
    pub fn has(&self, number: u32) -> bool
        requires { number < self.now.count }
        ensures { IsTrue result ↔ Contains self.now.found number }
    {
        self.marks[number as usize]
    }

    /// Forgets what was found.
    pub fn forget(&mut self)
        ensures { self.new ≡ record { count = self.old.count; found = [] } }
    {
        unmark(&mut self.marks, &self.found);
        self.found.clear();
    }

    /// Has one number more, the next, which is not found.
    pub fn grow(&mut self) -> Result<(), NoMemory>
        ensures ok { OnOk result (self.new ≡ record { count = self.old.count + 1; found = self.old.found }) }
        ensures err { OnErr result (self.new ≡ self.old) }
    {
        self.marks.push(false)?;
        Ok(())
    }

    /// Finds a number, at the end if it is new.
    pub fn add(&mut self, number: u32) -> Result<(), NoMemory>
        requires { number < self.old.count }
        ensures ok { OnOk result (AddsNumbers (number ∷ []) self.old self.new) }
        ensures err { OnErr result (self.new ≡ self.old) }
    {
        if !self.marks[number as usize] {
            self.found.push(number)?;
            self.marks[number as usize] = true;
        }
        Ok(())
    }

    /// Finds all the numbers of a list.
    pub fn add_all(&mut self, numbers: &[u32]) -> Result<(), NoMemory>
        requires { All (λ q. q < self.old.count) numbers.now }
        ensures count { self.new.count ≡ self.old.count }
        ensures ok { OnOk result (AddsNumbers numbers.now self.old self.new) }
    {
        for number in numbers {
            self.add(*number)?;
        }
        Ok(())
    }

    /// Forgets what was found before, and takes these numbers as found, each once.
    pub fn take(&mut self, numbers: &[u32]) -> Result<(), NoMemory>
        requires { All (λ q. q < self.old.count) numbers.now }
        ensures count { self.new.count ≡ self.old.count }
        ensures found { OnOk result ((q : ℕ) → Contains self.new.found q ↔ Contains numbers.now q) }
    {
        self.forget();
        self.add_all(numbers)?;
        Ok(())
    }

    /// Forgets what was found before, and finds what the starts lead to: the starts themselves, and all that chains of successors lead to
    /// from them.
    pub fn walk(&mut self, successors: &[Vec<u32>], starts: &[u32]) -> Result<(), NoMemory>
        requires long { length successors.now ≡ self.old.count }
        requires starts { All (λ q. q < self.old.count) starts.now }
        requires within { (p : ℕ) → All (λ q. q < self.old.count) (list_at (plain successors.now) p) }
        ensures count { self.new.count ≡ self.old.count }
        ensures found { OnOk result ((q : ℕ) → Contains self.new.found q ↔ IsReached (plain successors.now) starts.now q) }
    {
        self.forget();
        self.add_all(starts)?;
        let mut at = 0;
        while at < self.found().len() {
            let number = self.found()[at];
            self.add_all(&successors[number as usize])?;
            at += 1;
        }
        Ok(())
    }
}
