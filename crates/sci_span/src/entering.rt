// What goes into a block.
ghost use Rattle.std.specs.Prelude.{◌≡◌, ◌<◌, ◌^◌, length, map, All};
ghost use Rattle.sci_base.specs.Lists.{at};

use std::marker::Model;

/// What goes into a block: all elements of all inputs in order, down the columns; for a sensor the next value of its column alone.
#[derive(Drop)]
pub struct Entering<'a> {
    values: &'a [i64],
    // the values at these places; or none, and then all values, one behind the other
    places: Option<&'a [usize]>,
}

impl<'a> Model for Entering<'a> {
    ghost use Rattle.std.specs.Prelude.{List, ℤ};
    ghost use Rattle.sci_span.specs.Entering.{chosen, AreOf};

    ghost Value = { List ℤ };

    ghost view = { λ e. chosen e.values.now e.places };

    ghost invariant = { λ e. AreOf e.values.now e.places };
}

impl<'a> Entering<'a> {
    /// These values, one behind the other.
    #[inline(always)]
    pub fn of(values: &'a [i64]) -> Entering<'a>
        ensures { result ≡ values.now }
    {
        Entering {
            values,
            places: None,
        }
    }

    /// The values at these places of a list.
    #[inline(always)]
    pub fn placed(values: &'a [i64], places: &'a [usize]) -> Entering<'a>
        requires { All (λ k. k < length values.now) places.now }
        ensures { result ≡ map (at values.now) places.now }
    {
        Entering {
            values,
            places: Some(places),
        }
    }

    /// How many values go in.
    #[inline(always)]
    pub fn len(&self) -> usize
        ensures value { result ≡ length self.now }
        ensures few { result < 2 ^ 63 }
    {
        match self.places {
            None => self.values.len(),
            Some(places) => places.len(),
        }
    }

    /// Value `k`, counted from 0.
    #[inline(always)]
    pub fn get(&self, k: usize) -> i64
        requires { k < length self.now }
        ensures { result ≡ at self.now k }
    {
        match self.places {
            None => self.values[k],
            Some(places) => self.values[places[k]],
        }
    }

    /// Value `k`, counted from 0, or 0 where there is none.
    #[inline(always)]
    pub fn at(&self, k: usize) -> i64
        ensures { result ≡ at self.now k }
    {
        if k < self.len() { self.get(k) } else { 0 }
    }
}
