// What is counted of a run.
ghost use Rattle.std.specs.Prelude.{◌≡◌, length};
ghost use Rattle.sci_store.specs.Tally.{lines_after, sum_with};

/// Counts of the observations of a run.
#[derive(Clone, Copy, Drop)]
pub struct Tally {
    /// How many there were; the count stays at 2^64 - 1 once there.
    pub lines: u64,
    /// The sum of the values among them, modulo 2^32.
    pub sum: u32,
}

impl Tally {
    ghost use Rattle.sci_store.specs.Tally.{lines_after, sum_with};

    /// Nothing was observed.
    pub fn new() -> Tally
        ensures lines { result.lines ≡ 0 }
        ensures sum { result.sum ≡ 0 }
    {
        Tally { lines: 0, sum: 0 }
    }

    /// Counts an observation without a value.
    pub fn count(&mut self)
        ensures lines { self.new.lines ≡ lines_after self.old.lines 1 }
        ensures sum { self.new.sum ≡ self.old.sum }
    {
        self.lines = self.lines.saturating_add(1);
    }

    /// Counts values.
    #[inline(always)]
    pub fn count_values(&mut self, values: &[i64])
        ensures lines { self.new.lines ≡ lines_after self.old.lines (length values.now) }
        ensures sum { self.new.sum ≡ sum_with self.old.sum values.now }
    {
        let mut sum = self.sum;
        for value in values {
            sum = sum.wrapping_add(value.rem_euclid(4294967296) as u32);
        }
        self.sum = sum;
        self.lines = self.lines.saturating_add(values.len() as u64);
    }
}
