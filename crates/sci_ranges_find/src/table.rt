// A table of ranges.
ghost use Rattle.std.specs.Prelude.{◌≡◌, ◌<◌, ◌≤◌, [], length, slice_index_or};
ghost use Rattle.sci_base.specs.declared.limits.TheConstants.{ALL_ELEMENTS};
ghost use Rattle.sci_base.specs.Lists.{truth_at};
ghost use Rattle.sci_forms.specs.Ports.{before, total};
ghost use Rattle.sci_net.specs.Parts.{IsBlock, spec_of};
ghost use Rattle.sci_ranges_base.specs.Intervals.{range_at};
ghost use Rattle.sci_ranges.specs.Table.{held_range};
ghost use Rattle.sci_ranges_pass.specs.Ranges.{table_of};
ghost use Rattle.sci_ranges_find.specs.View.{ranges_of};

use sci_kinds::Ports;
use sci_net::Net;
use sci_ranges_base::{Interval, join};
use sci_ranges_marks::truth_at;

/// What each block may show and remember, and the stops that it may come to: by block, from 1; what stands at 0 is no block's.
#[derive(Drop)]
pub struct RangeTable {
    /// Of each element of the outputs, counted through all of them, what is shown, if ever anything is.
    pub shows: Vec<Vec<Option<Interval>>>,
    /// Of each value of the state, or one interval for all of them.
    pub states: Vec<Vec<Interval>>,
    /// Whether the exact value may be out of range.
    pub overflows: Vec<bool>,
    /// Whether the divisor may be 0.
    pub zeros: Vec<bool>,
}

/// Interval `e` of a list.
pub(crate) fn range_at(ranges: &[Option<Interval>], e: usize) -> Option<Interval>
    ensures { result ≡ range_at ranges.now e }
{
    if e < ranges.len() { ranges[e] } else { None }
}

/// How many elements the first `k` of some ports have.
#[tactic(auto, using(crate::proofs::Counted::up_to, crate::proofs::Counted::before_next))]
pub(crate) fn before(ports: &Ports, k: usize) -> usize
    requires within { k ≤ length ports.now }
    requires small { total ports.now ≤ ALL_ELEMENTS }
    ensures { result ≡ before ports.now k }
{
    let mut count = 0;
    for port in 0..k {
        count += ports.port(port).elements() as usize;
    }
    count
}

/// How many elements some ports have.
#[tactic(auto, using(crate::proofs::Counted::before_all))]
pub(crate) fn elements_of(ports: &Ports) -> usize
    requires { total ports.now ≤ ALL_ELEMENTS }
    ensures { result ≡ total ports.now }
{
    before(ports, ports.len())
}

impl RangeTable {
    /// What element `e` of a block's outputs shows.
    pub fn shown(&self, block: u32, e: usize) -> Option<Interval>
        ensures { result ≡ range_at (slice_index_or (ranges_of self.now).shows block []) e }
    {
        if (block as usize) < self.shows.len() {
            range_at(&self.shows[block as usize], e)
        } else {
            None
        }
    }

    /// The intervals of a block's state.
    pub fn state(&self, block: u32) -> &[Interval]
        ensures { result.now ≡ slice_index_or (ranges_of self.now).states block [] }
    {
        if (block as usize) < self.states.len() {
            self.states[block as usize].as_slice()
        } else {
            &[]
        }
    }

    /// What element `e` of a block's outputs holds: its first value, or what it shows.
    pub fn held(&self, net: &Net, block: u32, e: usize) -> Option<Interval>
        requires block { IsBlock net.now block }
        requires element { e < total (spec_of net.now block).outs }
        ensures { result ≡ held_range net.now (table_of net.now [] (ranges_of self.now)) block e }
    {
        let first = Interval::one(net.spec(block).held(e));
        join(Some(first), self.shown(block, e))
    }

    /// Whether a block may stop by an overflow.
    pub fn may_overflow(&self, block: u32) -> bool
        ensures { result ≡ truth_at (ranges_of self.now).overflows block }
    {
        truth_at(&self.overflows, block as usize)
    }

    /// Whether it may stop by a divisor of 0.
    pub fn may_divide_by_zero(&self, block: u32) -> bool
        ensures { result ≡ truth_at (ranges_of self.now).zeros block }
    {
        truth_at(&self.zeros, block as usize)
    }
}
