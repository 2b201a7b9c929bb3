// Writing a dump as a net runs.

ghost use Rattle.std.specs.Prelude.{◌≡◌, ℕ, ◌≤◌, ◌<◌, ◌+◌, ◌-◌, true, pos, length, slice_index_or, IfOk, OnOk, OnErr};
ghost use Rattle.sci_base.specs.declared.limits.TheConstants.{TICKS};
ghost use Rattle.sci_base.specs.Fit.{in_range};
ghost use Rattle.sci_io.specs.Taken.{Writes};
ghost use Rattle.sci_vcd.specs.Waveforms.{type_of};
ghost use Rattle.sci_vcd.specs.Writing.{IsWriting, IsOutset, unwritten, MayClose, with_notes, closed_at, tick_text};

use crate::net_signals::net_signals;
use crate::pages::{PAGE, mark_pages, note_from, put_changes, settle};
use crate::put::put_head;
use crate::signal_lines::SignalLines;
use sci_base::NoMemory;
use sci_io::{Failed, Sink};
use sci_net::Net;
use std::alloc::Global;
use std::marker::Model;

/// Writes a dump tick by tick, from the values that are noted. Signals are numbered from 1 on, and have the value 0 until another is noted.
#[derive(Drop)]
pub struct VcdOut {
    signals: SignalLines,
    starts: Vec<u32>,
    written: Vec<i64>,
    noted: Vec<i64>,
    // by page, whether one of its values may have been noted since the last tick was closed
    marked: Vec<bool>,
    closed: Option<u64>,
}

impl Model for VcdOut {
    ghost use Rattle.sci_vcd.specs.Writing.{Writing, IsKept};

    ghost Value = { Writing };

    ghost view = { λ o. record { signals = o.signals; starts = o.starts.items; written = o.written.items; noted = o.noted.items; closed = o.closed } };

    ghost invariant = { λ o. IsKept (record {
      signals = o.signals;
      starts = o.starts.items;
      written = o.written.items;
      noted = o.noted.items;
      closed = o.closed;
    }) o.marked.items };
}

impl VcdOut {
    /// Of the signals of a net, before the first tick: what it keeps then follows from the net alone. It takes all memory.
    pub fn new(alloc: Global, net: &Net) -> Result<VcdOut, NoMemory>
        ensures first { IfOk result (λ o. o ≡ unwritten net.now) }
        ensures outset { IfOk result (λ o. IsOutset net.now o) }
    {
        net.well_formed();
        let found = net_signals(alloc, net)?;
        let count = found.signals.len();
        let starts = found.starts;
        let signals = SignalLines::new(alloc, found.signals)?;
        Ok(VcdOut {
            signals,
            starts,
            written: vec![in alloc; 0; count]?,
            noted: vec![in alloc; 0; count]?,
            marked: vec![in alloc; false; count / PAGE + 1]?,
            closed: None,
        })
    }

    /// What holds of each.
    pub fn well_formed(&self)
        ensures { IsWriting self.now }
    {
        let _starts = self.starts.len();
    }

    /// How many signals stand before those of a block; for the number behind the last block, how many there are.
    pub fn before(&self, block: u32) -> u32
        requires least { 1 ≤ block }
        requires most { block ≤ length self.now.starts }
        ensures { result ≡ slice_index_or self.now.starts (block - 1) 0 }
    {
        self.starts[block as usize - 1]
    }

    /// Notes that the signals behind the first `before` have these values, each one of its signal's type, from the tick on that is closed next.
    pub fn note_values(&mut self, before: u32, values: &[i64])
        requires within { before + length values.now ≤ length self.old.signals }
        requires fits { (k : ℕ) → k < length values.now → in_range (type_of self.old.signals (before + k + 1)) (slice_index_or values.now k (pos 0)) ≡ true }
        ensures { self.new ≡ with_notes self.old before values.now }
    {
        if values.is_empty() {
            return;
        }
        let start = before as usize;
        note_from(&mut self.noted, start, values);
        mark_pages(&mut self.marked, start, start + values.len());
    }

    // Writes what is due for a tick.
    fn put_due<S: Sink>(&self, date: u64, out: &mut S) -> Result<(), Failed>
        ensures { Writes (S.state out.old) (S.state out.new) (tick_text self.now date) result }
    {
        match self.closed {
            None => put_head(&self.signals, &self.noted, out),
            Some(told) => put_changes(
                &self.signals,
                &self.written,
                &self.noted,
                &self.marked,
                told,
                date,
                out,
            ),
        }
    }

    /// Writes what is due for a tick. The first is 0: all that stands before the changes, and the first values. A later one has the signals whose
    /// noted value isn't the one that was written last. Ticks rise, up to 2^62. Where the sink fails, a front of the text was given on, and nothing is
    /// closed: what was noted and written stays, so that the same tick is due still.
    pub fn close_tick<S: Sink>(&mut self, date: u64, out: &mut S) -> Result<(), Failed>
        requires rises { MayClose self.old.closed date }
        requires early { date ≤ TICKS }
        ensures written { Writes (S.state out.old) (S.state out.new) (tick_text self.old date) result }
        ensures closed { OnOk result (self.new ≡ closed_at self.old date) }
        ensures kept { OnErr result (self.new ≡ self.old) }
    {
        self.put_due(date, out)?;
        settle(&mut self.written, &self.noted, &mut self.marked);
        self.closed = Some(date);
        Ok(())
    }
}
