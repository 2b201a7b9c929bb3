// Where an end goes that has moved often. Nothing is proved of it, since the pass decides whether a table is given.
use sci_base::NoMemory;
use sci_kinds::{Kind, Spec};
use sci_net::Net;
use sci_ranges_base::{Interval, hull_of};
use sci_trace::inputs::Inputs;
use std::alloc::Global;

/// How often an end moves to where the rule says.
const RULED: u8 = 8;

/// How often it has moved when it has gone from threshold to threshold; the next time it goes to its type's end.
const STEPPED: u8 = 24;

/// Numbers at which an end may come to rest, in order.
#[derive(Drop)]
pub struct Thresholds {
    numbers: Vec<i64>,
}

/// A number, and one to each side.
fn push_around(numbers: &mut Vec<i64>, v: i64) -> Result<(), NoMemory> {
    numbers.push(v.saturating_sub(1))?;
    numbers.push(v)?;
    numbers.push(v.saturating_add(1))?;
    Ok(())
}

/// The values of a block's state.
fn push_state(numbers: &mut Vec<i64>, spec: &Spec) -> Result<(), NoMemory> {
    for k in 0..spec.state.len() {
        push_around(numbers, spec.state.at(k))?;
    }
    Ok(())
}

/// The parameters that bound a block's signals.
fn push_bounds(numbers: &mut Vec<i64>, spec: &Spec) -> Result<(), NoMemory> {
    let bounds = match spec.kind {
        Kind::Const | Kind::Saturation | Kind::DeadBand | Kind::Switch2 | Kind::ModuloCount => {
            spec.params.len()
        }
        _ => 0,
    };
    for k in 0..bounds {
        push_around(numbers, spec.params.at(k))?;
    }
    Ok(())
}

/// The least and the greatest value of a column.
fn push_ends(numbers: &mut Vec<i64>, column: &[i64]) -> Result<(), NoMemory> {
    if let Some(range) = hull_of(column) {
        push_around(numbers, range.least)?;
        push_around(numbers, range.greatest)?;
    }
    Ok(())
}

/// The same of each column.
fn push_columns(numbers: &mut Vec<i64>, inputs: &Inputs) -> Result<(), NoMemory> {
    for column in inputs.columns() {
        push_ends(numbers, column.as_slice())?;
    }
    Ok(())
}

impl Thresholds {
    /// The constants, bounds and first states of a net, and the ends of the columns of its input file.
    pub fn of(alloc: Global, net: &Net, inputs: &Inputs) -> Result<Thresholds, NoMemory> {
        let mut numbers = Vec::new(alloc);
        push_around(&mut numbers, 0)?;
        for block in 0..net.len() {
            let spec = net.spec(block + 1);
            push_state(&mut numbers, spec)?;
            push_bounds(&mut numbers, spec)?;
        }
        push_columns(&mut numbers, inputs)?;
        numbers.sort_unstable();
        Ok(Thresholds { numbers })
    }

    /// The greatest threshold that isn't above a number, or the number itself.
    fn at_most(&self, v: i64) -> i64 {
        let count = self.numbers.partition_point(|n| *n <= v);
        if count == 0 {
            v
        } else {
            self.numbers[count - 1]
        }
    }

    /// The least threshold that isn't below it, or the number itself.
    fn at_least(&self, v: i64) -> i64 {
        let count = self.numbers.partition_point(|n| *n < v);
        if count < self.numbers.len() {
            self.numbers[count]
        } else {
            v
        }
    }
}

/// How often each end of an interval has moved.
#[derive(Clone, Copy, Drop)]
pub struct Moves {
    least: u8,
    greatest: u8,
}

impl Moves {
    pub fn none() -> Moves {
        Moves {
            least: 0,
            greatest: 0,
        }
    }

    /// Where the least number goes that the rule moves down to `told`.
    fn lowered(&mut self, thresholds: &Thresholds, whole: Interval, told: i64) -> i64 {
        self.least = self.least.saturating_add(1);
        if self.least <= RULED {
            told
        } else if self.least <= STEPPED {
            thresholds.at_most(told).max(whole.least)
        } else {
            whole.least
        }
    }

    /// Where the greatest number goes that the rule moves up to `told`.
    fn raised(&mut self, thresholds: &Thresholds, whole: Interval, told: i64) -> i64 {
        self.greatest = self.greatest.saturating_add(1);
        if self.greatest <= RULED {
            told
        } else if self.greatest <= STEPPED {
            thresholds.at_least(told).min(whole.greatest)
        } else {
            whole.greatest
        }
    }

    /// The interval that takes the place of `old` where the rule tells `told` as well, within the numbers of a type.
    pub fn widened(
        &mut self,
        thresholds: &Thresholds,
        whole: Interval,
        old: Interval,
        told: Interval,
    ) -> Interval {
        let least = if old.least <= told.least {
            old.least
        } else {
            self.lowered(thresholds, whole, told.least)
        };
        let greatest = if told.greatest <= old.greatest {
            old.greatest
        } else {
            self.raised(thresholds, whole, told.greatest)
        };
        Interval::new(least, greatest)
    }
}
