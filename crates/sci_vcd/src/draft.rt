// The signals, first values and changes of a dump in memory, put in one by one.

ghost use Rattle.std.specs.Prelude.{◌≡◌, ◌≤◌, [], length, IfOk};
ghost use Rattle.sci_base.specs.declared.limits.TheConstants.{ALL_ELEMENTS};
ghost use Rattle.sci_vcd.specs.Waveforms.{type_of, value_at};
ghost use Rattle.sci_vcd.specs.Draft.{waveforms_of, IsLinked};
ghost use Rattle.sci_vcd.specs.Machine.{nothing, with_signal, with_first, with_change, last_change, value_now};

use crate::{Change, Signal};
use sci_base::{NoMemory, Ty};
use std::alloc::Global;

/// A change, and how many changes there are up to the one before it of the same signal; 0 where it is the signal's first.
#[derive(Clone, Copy, Drop)]
pub struct Linked {
    pub change: Change,
    pub earlier: usize,
}

/// A dump, or a part of one. `latest` has for each signal how many changes there are up to its last one.
#[derive(Drop)]
pub struct Draft {
    pub signals: Vec<Signal>,
    pub first: Vec<i64>,
    pub entries: Vec<Linked>,
    pub latest: Vec<usize>,
}

impl Draft {
    pub fn new(alloc: Global) -> Draft
        ensures nothing { waveforms_of result ≡ nothing }
        ensures linked { IsLinked result }
    {
        Draft {
            signals: Vec::new(alloc),
            first: Vec::new(alloc),
            entries: Vec::new(alloc),
            latest: Vec::new(alloc),
        }
    }

    /// One more signal, before there are changes.
    pub fn with_signal(mut self, signal: Signal) -> Result<Draft, NoMemory>
        requires linked { IsLinked self }
        requires unchanged { (waveforms_of self).changes ≡ [] }
        ensures more { IfOk result (λ d. waveforms_of d ≡ with_signal (waveforms_of self) signal) }
        ensures linked { IfOk result (λ d. IsLinked d) }
    {
        self.signals.push(signal)?;
        self.latest.push(0)?;
        Ok(self)
    }

    /// One more first value.
    pub fn with_first(mut self, value: i64) -> Result<Draft, NoMemory>
        requires linked { IsLinked self }
        ensures more { IfOk result (λ d. waveforms_of d ≡ with_first (waveforms_of self) value) }
        ensures linked { IfOk result (λ d. IsLinked d) }
    {
        self.first.push(value)?;
        Ok(self)
    }

    /// One more change.
    pub fn with_change(mut self, change: Change) -> Result<Draft, NoMemory>
        requires linked { IsLinked self }
        requires least { 1 ≤ change.signal }
        requires most { change.signal ≤ length self.signals.items }
        ensures more { IfOk result (λ d. waveforms_of d ≡ with_change (waveforms_of self) change) }
        ensures linked { IfOk result (λ d. IsLinked d) }
    {
        let at = change.signal as usize - 1;
        let earlier = self.latest[at];
        self.entries.push(Linked { change, earlier })?;
        self.latest[at] = self.entries.len();
        Ok(self)
    }

    /// The type of a signal.
    pub fn ty(&self, signal: u32) -> Ty
        requires least { 1 ≤ signal }
        requires most { signal ≤ length self.now.signals.items }
        ensures { result ≡ type_of self.now.signals.items signal }
    {
        self.signals[signal as usize - 1].ty
    }

    /// The last change; where there is none, what stands for one at tick 0, which tells all signals.
    pub fn last(&self) -> Change
        requires few { length self.now.signals.items ≤ ALL_ELEMENTS }
        ensures { result ≡ last_change (waveforms_of self.now) }
    {
        let count = self.entries.len();
        if count == 0 {
            Change {
                tick: 0,
                signal: self.signals.len() as u32,
                value: 0,
            }
        } else {
            self.entries[count - 1].change
        }
    }

    /// The value of a signal behind all changes.
    pub fn value(&self, signal: u32) -> i64
        requires linked { IsLinked self.now }
        requires least { 1 ≤ signal }
        requires most { signal ≤ length self.now.signals.items }
        requires one_each { length self.now.first.items ≡ length self.now.signals.items }
        ensures { result ≡ value_now (waveforms_of self.now) signal }
    {
        let at = signal as usize - 1;
        let count = self.latest[at];
        if count == 0 {
            self.first[at]
        } else {
            self.entries[count - 1].change.value
        }
    }

    /// The value of a signal at a tick.
    pub fn value_at(&self, signal: u32, tick: u64) -> i64
        requires linked { IsLinked self.now }
        requires least { 1 ≤ signal }
        requires most { signal ≤ length self.now.signals.items }
        requires one_each { length self.now.first.items ≡ length self.now.signals.items }
        ensures { result ≡ value_at (waveforms_of self.now) signal tick }
    {
        let at = signal as usize - 1;
        let mut count = self.latest[at];
        while count > 0 {
            let entry = self.entries[count - 1];
            if entry.change.tick <= tick {
                return entry.change.value;
            }
            count = entry.earlier;
        }
        self.first[at]
    }
}
