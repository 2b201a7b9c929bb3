// What stays as it is through a run.
ghost use Rattle.std.specs.Prelude.{◌≡◌, ℕ, ◌<◌, ◌≤◌, ◌^◌, [], length, slice_index_or, true, IfOk, unsigned_abs};
ghost use Rattle.sci_forms.specs.Typed.{typed};
ghost use Rattle.sci_net.specs.Net.{all_elements};
ghost use Rattle.sci_net.specs.Parts.{IsBlock, spec_of, column_of, rows_of};
ghost use Rattle.sci_net.specs.Sources.{sources_of, source_of};
ghost use Rattle.sci_bank.specs.Library.{IsFull};
ghost use Rattle.sci_forms.specs.Form.{is_halt};
ghost use Rattle.sci_run.specs.Laws.{AreLoopFree};
ghost use Rattle.sci_run.specs.Observed.{header};
ghost use Rattle.sci_store.specs.Seating.{IsSeating, IsSeatingBy, begun};

use crate::heads::heads;
use crate::seats::{Seat, seat_all, seat_in_states};
use sci_bank::Bank;
use sci_bank::library::Library;
use sci_base::{NoMemory, Obs};
use sci_lines::Head;
use sci_net::{Net, Source};
use sci_places::Places;
use std::alloc::Global;
use std::marker::Model;

/// A net none of whose sources has a loop, with the places of its values, the starts of their lines and the instances of its blocks.
#[derive(Drop)]
pub struct Frame {
    pub net: Net,
    pub places: Places,
    /// One for each block.
    pub seats: Vec<Seat>,
    // one for each value, by its place
    heads: Vec<Head>,
}

impl Model for Frame {
    ghost use Rattle.sci_store.specs.Frame.{Fixed, IsFrame};

    ghost Value = { Fixed };

    ghost view = { λ f. record { net = f.net; layout = f.places; seats = f.seats.items; heads = f.heads.items } };

    ghost invariant = { λ f. IsFrame (record { net = f.net; layout = f.places; seats = f.seats.items; heads = f.heads.items }) };
}

impl Frame {
    ghost use Rattle.sci_store.specs.Frame.{IsFrame, seat_of};
    ghost use Rattle.sci_store.specs.Rows.{between};

    /// A net, none of whose sources has a loop, with an instance of each block in a full library. It resets all banks. Where memory is wanting,
    /// the banks may hold any instances.
    pub fn new<B: Bank>(alloc: Global, net: Net, lib: &mut Library<B>) -> Result<Frame, NoMemory>
        requires free { AreLoopFree net }
        requires full { IsFull lib.old }
        ensures net { IfOk result (λ f. f.net ≡ net) }
        ensures seated { IfOk result (λ f. IsSeating f.net f.seats lib.new) }
        ensures full { IsFull lib.new }
    {
        net.well_formed();
        let places = Places::new(alloc, &net)?;
        let heads = heads(alloc, &net)?;
        let seats = seat_all(alloc, &net, lib)?;
        Ok(Frame {
            net,
            places,
            seats,
            heads,
        })
    }

    /// The same, with an instance of each block in its state among these, with which its spec is typed still.
    pub fn in_states<B: Bank>(
        alloc: Global,
        net: Net,
        states: &[Vec<i64>],
        lib: &mut Library<B>,
    ) -> Result<Frame, NoMemory>
        requires free { AreLoopFree net }
        requires full { IsFull lib.old }
        requires one_each { length states.now ≡ length net.specs }
        requires is_typed { (b : ℕ) → IsBlock net b → typed (begun net (rows_of states.now) b) ≡ true }
        ensures net { IfOk result (λ f. f.net ≡ net) }
        ensures seated { IfOk result (λ f. IsSeatingBy f.net (begun f.net (rows_of states.now)) f.seats lib.new) }
        ensures full { IsFull lib.new }
    {
        net.well_formed();
        let places = Places::new(alloc, &net)?;
        let heads = heads(alloc, &net)?;
        let seats = seat_in_states(alloc, &net, states, lib)?;
        Ok(Frame {
            net,
            places,
            seats,
            heads,
        })
    }

    /// What holds of every frame.
    pub fn well_formed(&self)
        ensures { IsFrame self.now }
    {
        let _blocks = self.net.len();
    }

    /// Where a block's instance is kept.
    #[inline(always)]
    pub fn seat(&self, block: u32) -> Seat
        requires least { 1 ≤ block }
        requires most { block ≤ length self.now.net.specs }
        ensures { result ≡ seat_of self.now block }
    {
        self.seats[block as usize - 1]
    }

    /// The starts of the lines of the values from one place to before another.
    #[inline(always)]
    pub(crate) fn heads(&self, start: usize, end: usize) -> &[Head]
        requires order { start ≤ end }
        requires within { end ≤ all_elements self.now.net.specs }
        ensures { result.now ≡ between self.now.heads start end }
    {
        &self.heads[start..end]
    }

    /// The column that a sensor reads, counted from 1.
    pub fn column(&self, block: u32) -> usize
        requires least { 1 ≤ block }
        requires most { block ≤ length self.now.net.specs }
        ensures { result ≡ column_of (spec_of self.now.net block) }
    {
        self.net.spec(block).params.at(0).unsigned_abs() as usize
    }

    /// Whether the block ends the run.
    pub fn is_halt(&self, block: u32) -> bool
        requires least { 1 ≤ block }
        requires most { block ≤ length self.now.net.specs }
        ensures { result ≡ is_halt (spec_of self.now.net block).kind }
    {
        self.seats[block as usize - 1].kind.is_halt()
    }

    /// What is observed of a source that fires at a date, in ticks, by the source's place among those of the net.
    pub fn header(&self, source: u32, date: u64) -> Obs
        requires source { source < length (sources_of self.now.net) }
        requires date { date < 2 ^ 63 }
        ensures { result ≡ header date (source_of self.now.net source) }
    {
        match self.net.source(source) {
            Source::Start => Obs::Start,
            Source::Port(q) => Obs::Event(date as i64, i64::from(q.block), i64::from(q.port)),
        }
    }
}
