// A list of whole numbers that a contract sees as a list.
ghost use Rattle.std.specs.Prelude.{◌≡◌, ◌+◌, ◌^◌, ℤ, pos, List, ◌++◌, ◌∷◌, [], length, ◌<◌, slice_index_or, slice_set, IfOk, OnOk, OnErr, ◌≢◌};
ghost use Rattle.sci_base.specs.Lists.{at, listed, spread};

use crate::NoMemory;
use std::alloc::Global;
use std::marker::Model;

#[derive(Drop)]
pub struct Ints {
    items: Vec<i64>,
}

impl Model for Ints {
    ghost use Rattle.std.specs.Prelude.{List, ℤ};

    ghost Value = { List ℤ };

    ghost view = { λ s. s.items.items };
}

impl Ints {
    pub fn of(items: Vec<i64>) -> Ints
        ensures { result ≡ items.items }
    {
        Ints { items }
    }

    pub fn len(&self) -> usize
        ensures value { result ≡ length self.now }
        ensures few { result < 2 ^ 63 }
    {
        self.items.len()
    }

    pub fn get(&self, at: usize) -> i64
        requires { at < length self.now }
        ensures { result ≡ slice_index_or self.now at (pos 0) }
    {
        self.items[at]
    }

    /// Number `k`, or 0 where there is none.
    pub fn at(&self, k: usize) -> i64
        ensures { result ≡ at self.now k }
    {
        if k < self.items.len() {
            self.items[k]
        } else {
            0
        }
    }

    pub fn set(&mut self, at: usize, v: i64)
        requires { at < length self.old }
        ensures { self.new ≡ slice_set self.old at v }
    {
        self.items[at] = v;
    }

    pub fn as_slice(&self) -> &[i64]
        ensures { result.now ≡ self.now }
    {
        self.items.as_slice()
    }

    pub fn push(&mut self, v: i64) -> Result<(), NoMemory>
        ensures added { OnOk result (self.new ≡ self.old ++ v ∷ []) }
        ensures kept { OnErr result (self.new ≡ self.old) }
    {
        self.items.push(v)?;
        Ok(())
    }

    pub fn copy(&self, alloc: Global) -> Result<Ints, NoMemory>
        ensures { IfOk result (λ r. r ≡ self.now) }
    {
        Ok(Ints {
            items: self.items.as_slice().to_vec(alloc)?,
        })
    }

    /// `n` numbers: those of `vs`, or its one number for all.
    pub fn spread(alloc: Global, vs: &Ints, n: usize) -> Result<Ints, NoMemory>
        requires { length vs.now ≢ 1 → length vs.now ≡ n }
        ensures { IfOk result (λ r. r ≡ listed (spread vs.now) n) }
    {
        let mut items = Vec::new(alloc);
        for at in 0..n {
            let v = if vs.len() == 1 { vs.get(0) } else { vs.get(at) };
            items.push(v)?;
        }
        Ok(Ints { items })
    }
}
