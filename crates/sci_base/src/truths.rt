// A list of truths that a contract sees as a list.
ghost use Rattle.std.specs.Prelude.{◌≡◌, ◌^◌, ◌<◌, List, length, IfOk, OnOk, OnErr, ◌++◌, ◌∷◌, []};
ghost use Rattle.sci_base.specs.Lists.{truth_at, repeated};

use crate::NoMemory;
use std::alloc::Global;
use std::marker::Model;

#[derive(Drop)]
pub struct Truths {
    items: Vec<bool>,
}

impl Model for Truths {
    ghost use Rattle.std.specs.Prelude.{List, Bool};

    ghost Value = { List Bool };

    ghost view = { λ t. t.items.items };
}

impl Truths {
    pub fn of(items: Vec<bool>) -> Truths
        ensures { result ≡ items.items }
    {
        Truths { items }
    }

    pub fn len(&self) -> usize
        ensures value { result ≡ length self.now }
        ensures few { result < 2 ^ 63 }
    {
        self.items.len()
    }

    /// Truth `k`, or false where there is none.
    pub fn at(&self, k: usize) -> bool
        ensures { result ≡ truth_at self.now k }
    {
        if k < self.items.len() {
            self.items[k]
        } else {
            false
        }
    }

    pub fn as_slice(&self) -> &[bool]
        ensures { result.now ≡ self.now }
    {
        self.items.as_slice()
    }

    pub fn push(&mut self, truth: bool) -> Result<(), NoMemory>
        ensures added { OnOk result (self.new ≡ self.old ++ truth ∷ []) }
        ensures kept { OnErr result (self.new ≡ self.old) }
    {
        self.items.push(truth)?;
        Ok(())
    }

    pub fn copy(&self, alloc: Global) -> Result<Truths, NoMemory>
        ensures { IfOk result (λ r. r ≡ self.now) }
    {
        Ok(Truths {
            items: self.items.as_slice().to_vec(alloc)?,
        })
    }

    /// `n` times the same truth.
    pub fn repeated(alloc: Global, truth: bool, n: usize) -> Result<Truths, NoMemory>
        ensures { IfOk result (λ r. r ≡ repeated truth n) }
    {
        let mut items = Vec::new(alloc);
        for _ in 0..n {
            items.push(truth)?;
        }
        Ok(Truths { items })
    }
}
