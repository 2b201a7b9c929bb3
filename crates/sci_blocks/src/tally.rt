// How often numbers occur.
use sci_base::NoMemory;
use std::alloc::Global;

/// How often each number from 1 to a count occurs, and the least greater number that does.
#[derive(Drop)]
pub(crate) struct NumberTally {
    pub(crate) times: Vec<u32>,
    pub(crate) least: Option<u64>,
}

impl NumberTally {
    ghost use Rattle.std.specs.Prelude.{◌≡◌, ◌+◌, ◌-◌, ◌<◌, ◌≤◌, ◌^◌, List, ℕ, ◌∷◌, [], length, slice_index, IfOk, None};
    ghost use Rattle.sci_blocks.specs.Counts.{IsTallied};

    /// No number up to the count.
    pub(crate) fn new(alloc: Global, count: usize) -> Result<NumberTally, NoMemory>
        ensures { IfOk result (λ t. (whole : List ℕ) → IsTallied t count whole whole) }
    {
        Ok(NumberTally {
            times: vec![in alloc; 0; count]?,
            least: None,
        })
    }

    /// One more number.
    pub(crate) fn add(&mut self, n: u64)
        requires positive { 1 ≤ n }
        requires fits { n < 2 ^ 63 }
        requires few { n ≤ length self.old.times.items → slice_index self.old.times.items (n - 1) + 1 < 2 ^ 32 }
        ensures { (rest whole : List ℕ) → IsTallied self.old (length self.old.times.items) (n ∷ rest) whole
            → IsTallied self.new (length self.old.times.items) rest whole }
    {
        let at = (n - 1) as usize;
        if at < self.times.len() {
            self.times[at] += 1;
        } else {
            self.least = match self.least {
                None => Some(n),
                Some(m) => Some(m.min(n)),
            };
        }
    }
}
