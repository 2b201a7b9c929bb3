ghost use Rattle.std.specs.Prelude.{◌≡◌, ◌≤◌, vec_len, vec_capacity};

use crate::{Failed, Sink};
use sci_base::NoMemory;
use std::alloc::Global;

/// Takes bytes into memory. It fails at the calls of `put` that it is told, counted from 1, and where a piece passes its
/// room; a call that fails takes nothing.
#[derive(Drop)]
pub struct MemSink {
    bytes: Vec<u8>,
    fails: Vec<u64>,
    room: usize,
    calls: u64,
    faults: u64,
    failing: bool,
    ghost fits: { vec_len bytes ≤ room },
    ghost roomy: { room ≤ vec_capacity bytes },
}

impl MemSink {
    ghost use Rattle.std.specs.Prelude.{◌≡◌, [], false, IfOk};

    /// Nothing taken, no faults. It takes `room` bytes of memory at once.
    pub fn new(alloc: Global, fails: Vec<u64>, room: usize) -> Result<Self, NoMemory>
        ensures empty { IfOk result (λ s. s.bytes.items ≡ []) }
        ensures told { IfOk result (λ s. s.fails ≡ fails) }
        ensures room { IfOk result (λ s. s.room ≡ room) }
        ensures no_calls { IfOk result (λ s. s.calls ≡ 0) }
        ensures no_faults { IfOk result (λ s. s.faults ≡ 0) }
        ensures failing { IfOk result (λ s. s.failing ≡ false) }
    {
        let bytes = Vec::with_capacity(alloc, room)?;
        Ok(MemSink {
            bytes,
            fails,
            room,
            calls: 0,
            faults: 0,
            failing: false,
        })
    }

    /// The bytes taken.
    pub fn taken(&self) -> &[u8]
        ensures { result.now ≡ self.now.bytes.items }
    {
        &self.bytes
    }

    /// How often a call has failed.
    pub fn faults(&self) -> u64
        ensures { result ≡ self.now.faults }
    {
        self.faults
    }
}

impl Sink for MemSink {
    ghost use Rattle.std.specs.Prelude.{◌≡◌, ◌<◌, [], length, is_err, true, false, IsOk, OnErr, OnOk};
    ghost use Rattle.sci_io.specs.Taken.{Writes};
    ghost use Rattle.sci_io.specs.Causes.{counted};
    ghost use Rattle.sci_io.specs.Memory.{state_of, sink_fails};

    ghost state = { λ s. state_of s };

    fn put(&mut self, piece: &[u8]) -> Result<(), Failed>
        requires { 0 < length piece.now }
        ensures written { Writes (state_of self.old) (state_of self.new) piece.now result }
        ensures works { OnOk result ((state_of self.new).failing ≡ false) }
        ensures ok { OnOk result (sink_fails self.old (length piece.now) ≡ false) }
        ensures failed { OnErr result (sink_fails self.old (length piece.now) ≡ true) }
        ensures nothing { OnErr result (self.new.bytes.items ≡ self.old.bytes.items) }
        ensures counted { OnErr result (self.new.faults ≡ counted self.old.faults) }
        ensures called { self.new.calls ≡ counted self.old.calls }
        ensures told { self.new.fails ≡ self.old.fails }
        ensures room { self.new.room ≡ self.old.room }
        ensures failing { self.new.failing ≡ is_err result }
    {
        self.calls = self.calls.saturating_add(1);
        let told = self.fails.contains(&self.calls);
        if told || self.room - self.bytes.len() < piece.len() {
            self.faults = self.faults.saturating_add(1);
            self.failing = true;
            return Err(Failed);
        }
        self.bytes.extend_from_slice(piece).unwrap();
        self.failing = false;
        Ok(())
    }

    fn flush(&mut self) -> Result<(), Failed>
        ensures written { Writes (state_of self.old) (state_of self.new) [] result }
        ensures all { OnOk result ((state_of self.new).held ≡ []) }
        ensures works { OnOk result ((state_of self.new).failing ≡ false) }
        ensures sure { IsOk result }
        ensures kept { self.new ≡ record self.old { failing = false } }
    {
        self.failing = false;
        Ok(())
    }

    fn take_unseen(&mut self) -> bool {
        false
    }
}
