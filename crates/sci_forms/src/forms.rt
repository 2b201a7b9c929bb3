// The counts of ports of each kind.
ghost use Rattle.std.specs.Prelude.{◌≡◌};
ghost use Rattle.sci_forms.specs.Forms.{counts_of, least_of, most_of};

use crate::Kind;
use crate::form::Count;

/// The least and the most of each class of ports.
#[derive(Clone, Copy, Drop)]
pub struct Counts {
    pub ins_least: usize,
    pub ins_most: usize,
    pub outs_least: usize,
    pub outs_most: usize,
    pub evtin_least: usize,
    pub evtin_most: usize,
    pub evtout_least: usize,
    pub evtout_most: usize,
}

impl Kind {
    /// The counts of ports, of a block with `n` regular inputs.
    pub fn counts(self, n: usize) -> Counts
        ensures { result ≡ counts_of self n }
    {
        let form = self.form();
        Counts {
            ins_least: least(form.ins, n),
            ins_most: most(form.ins, n),
            outs_least: least(form.outs, n),
            outs_most: most(form.outs, n),
            evtin_least: least(form.evtin, n),
            evtin_most: most(form.evtin, n),
            evtout_least: least(form.evtout, n),
            evtout_most: most(form.evtout, n),
        }
    }
}

/// The least of a class of ports, of a block with `n` regular inputs.
fn least(count: Count, n: usize) -> usize
    ensures { result ≡ least_of count n }
{
    match count {
        Count::Between(least, _) => least,
        Count::AsInputs => n,
    }
}

/// The most of a class of ports, of a block with `n` regular inputs.
fn most(count: Count, n: usize) -> usize
    ensures { result ≡ most_of count n }
{
    match count {
        Count::Between(_, most) => most,
        Count::AsInputs => n,
    }
}
