ghost use Rattle.std.specs.Prelude.{◌≡◌, ◌<◌, [], length, false, OnOk, OnErr};
ghost use Rattle.sci_io.specs.Causes.{counted};
ghost use Rattle.sci_io.specs.Taken.{direct, Writes};

use crate::transfer::write_whole;
use crate::{Failed, Sink};
use std::io::Write;

/// A writer as a sink, such as a standard stream. It tells what its writer tells and holds nothing back; each call that fails
/// raises its faults by one.
#[derive(Drop)]
pub struct RealSink<W: Write + Drop> {
    writer: W,
    faults: u64,
    failing: bool,
}

impl<W: Write + Drop> RealSink<W> {
    /// No faults.
    pub fn new(writer: W) -> Self
        ensures writer { result.writer ≡ writer }
        ensures no_faults { result.faults ≡ 0 }
        ensures failing { result.failing ≡ false }
    {
        RealSink {
            writer,
            faults: 0,
            failing: false,
        }
    }
}

impl<W: Write + Drop> Sink for RealSink<W> {
    ghost state = { λ s. direct (W.contents s.writer) s.faults s.failing };

    fn put(&mut self, piece: &[u8]) -> Result<(), Failed>
        requires { 0 < length piece.now }
        ensures written { Writes (direct (W.contents self.old.writer) self.old.faults self.old.failing)
            (direct (W.contents self.new.writer) self.new.faults self.new.failing) piece.now result }
        ensures works { OnOk result ((direct (W.contents self.new.writer) self.new.faults self.new.failing).failing ≡ false) }
        ensures counted { OnErr result (self.new.faults ≡ counted self.old.faults) }
    {
        if write_whole(&mut self.writer, piece) {
            self.failing = false;
            return Ok(());
        }
        self.faults = self.faults.saturating_add(1);
        self.failing = true;
        Err(Failed)
    }

    fn flush(&mut self) -> Result<(), Failed>
        ensures written { Writes (direct (W.contents self.old.writer) self.old.faults self.old.failing)
            (direct (W.contents self.new.writer) self.new.faults self.new.failing) [] result }
        ensures all { OnOk result ((direct (W.contents self.new.writer) self.new.faults self.new.failing).held ≡ []) }
        ensures works { OnOk result ((direct (W.contents self.new.writer) self.new.faults self.new.failing).failing ≡ false) }
        ensures counted { OnErr result (self.new.faults ≡ counted self.old.faults) }
    {
        if self.writer.flush().is_ok() {
            self.failing = false;
            return Ok(());
        }
        self.faults = self.faults.saturating_add(1);
        self.failing = true;
        Err(Failed)
    }

    fn take_unseen(&mut self) -> bool {
        false
    }
}
