// Ports, and a list of them.
ghost use Rattle.std.specs.Prelude.{◌≡◌, ◌<◌, ◌+◌, ◌^◌, List, length, ◌++◌, ◌∷◌, [], IfOk};
ghost use Rattle.sci_forms.specs.Ports.{port_at, elements, total, type_of, sum_rows};

use sci_base::{NoMemory, Ty};
use std::alloc::Global;
use std::marker::Model;

/// A regular port: its size and the code of its type, 3 to 8 for the integer types. A number below 0 stands for an unknown,
/// the same for each port of the block that has this number; a size of 0 is an unknown of its own.
#[derive(Clone, Copy, Drop)]
pub struct Port {
    pub rows: i64,
    pub cols: i64,
    pub ty: i64,
}

impl Port {
    /// The type that the code names; int32 for a code that names none.
    pub fn kind_of_type(self) -> Ty
        ensures { result ≡ type_of self }
    {
        match Ty::of(self.ty) {
            Some(t) => t,
            None => Ty::I32,
        }
    }

    /// How many elements a port of known size has.
    pub fn elements(self) -> u128
        ensures { result ≡ elements self }
    {
        u128::from(self.rows.unsigned_abs()) * u128::from(self.cols.unsigned_abs())
    }
}

/// The ports of one side of a block, which contracts see as a list.
#[derive(Drop)]
pub struct Ports {
    items: Vec<Port>,
}

impl Model for Ports {
    ghost use Rattle.std.specs.Prelude.{List};
    ghost use Rattle.sci_forms.specs.declared.ports.Port.{Port};

    ghost Value = { List Port };

    ghost view = { λ s. s.items.items };
}

impl Ports {
    /// The list of these ports.
    pub fn of(items: Vec<Port>) -> Ports
        ensures { result ≡ items.items }
    {
        Ports { items }
    }

    /// How many ports there are.
    pub fn len(&self) -> usize
        ensures value { result ≡ length self.now }
        ensures few { result < 2 ^ 63 }
    {
        self.items.len()
    }

    /// Port `at`, counted from 0.
    pub fn get(&self, at: usize) -> Port
        requires { at < length self.now }
        ensures { result ≡ port_at self.now at }
    {
        self.items[at]
    }

    /// Port `k`, counted from 0, or one of no size where there is none.
    pub fn port(&self, k: usize) -> Port
        ensures { result ≡ port_at self.now k }
    {
        if k < self.items.len() {
            self.items[k]
        } else {
            Port {
                rows: 0,
                cols: 0,
                ty: 0,
            }
        }
    }

    /// How many elements all ports have.
    #[tactic(auto, using(crate::proofs::PortLemmas::total_step, crate::proofs::PortLemmas::total_end))]
    pub fn total(&self) -> u32
        requires { total self.now < 2 ^ 32 }
        ensures { result ≡ total self.now }
    {
        let mut count = 0;
        for port in 0..self.len() {
            count += self.port(port).elements() as u32;
        }
        count
    }

    /// The sum of the ports' rows.
    pub fn sum_rows(&self) -> i128
        ensures { result ≡ sum_rows self.now }
    {
        let mut sum: i128 = 0;
        for p in self.items.iter() {
            sum += i128::from(p.rows);
        }
        sum
    }

    /// A copy of the list.
    pub fn copy(&self, alloc: Global) -> Result<Ports, NoMemory>
        ensures { IfOk result (λ r. r ≡ self.now) }
    {
        Ok(Ports {
            items: self.items.as_slice().to_vec(alloc)?,
        })
    }
}
