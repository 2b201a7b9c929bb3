// A whole dump.

ghost use Rattle.std.specs.Prelude.{◌≡◌, ◌≤◌, ◌-◌, length, slice_index_or};
ghost use Rattle.sci_io.specs.Taken.{Writes};
ghost use Rattle.sci_vcd.specs.Waveforms.{value_at, no_signal};
ghost use Rattle.sci_vcd.specs.Spelling.{name_text};

use crate::draft::Draft;
use crate::spell::write_name;
use sci_io::{Failed, Sink};
use std::marker::Model;

/// A value change dump. Its signals are numbered from 1 on.
#[derive(Drop)]
pub struct Dump {
    pub(crate) draft: Draft,
}

impl Model for Dump {
    ghost use Rattle.sci_vcd.specs.Waveforms.{Waveforms};
    ghost use Rattle.sci_vcd.specs.Draft.{waveforms_of, IsKept};

    ghost Value = { Waveforms };

    ghost view = { λ d. waveforms_of d.draft };

    ghost invariant = { λ d. IsKept d.draft };
}

impl Dump {
    /// How many signals there are, at most 65,536.
    pub fn count(&self) -> u32
        ensures { result ≡ length self.now.signals }
    {
        self.draft.signals.len() as u32
    }

    /// The value of a signal at a tick: its last one at a tick up to that.
    pub fn at(&self, signal: u32, tick: u64) -> i64
        requires least { 1 ≤ signal }
        requires most { signal ≤ length self.now.signals }
        ensures { result ≡ value_at self.now signal tick }
    {
        self.draft.value_at(signal, tick)
    }

    /// Writes the name of a signal: `b`, its block, port and element with `_` between them, and nothing after it.
    pub fn write_name<S: Sink>(&self, signal: u32, out: &mut S) -> Result<(), Failed>
        requires least { 1 ≤ signal }
        requires most { signal ≤ length self.now.signals }
        ensures { Writes (S.state out.old) (S.state out.new) (name_text (slice_index_or self.now.signals (signal - 1) no_signal)) result }
    {
        write_name(&self.draft.signals[signal as usize - 1], out)
    }
}
