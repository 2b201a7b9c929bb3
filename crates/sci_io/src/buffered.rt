ghost use Rattle.std.specs.Prelude.{◌≡◌, ◌≤◌, vec_len, vec_capacity};

use crate::{Failed, Sink};
use sci_base::NoMemory;
use std::alloc::Global;

/// A sink behind a buffer: pieces are collected until the buffer is full or flushed, so that many small pieces become few
/// calls of the sink behind. All its memory is taken by `new`.
#[derive(Drop)]
pub struct BufferedSink<S: Sink + Drop> {
    sink: S,
    buffer: Vec<u8>,
    room: usize,
    failing: bool,
    ghost fits: { vec_len buffer ≤ room },
    ghost roomy: { room ≤ vec_capacity buffer },
}

impl<S: Sink + Drop> BufferedSink<S> {
    ghost use Rattle.std.specs.Prelude.{◌≡◌, ◌≤◌, ◌<◌, ◌+◌, ◌++◌, [], length, true, false, IfOk, OnOk, OnErr};
    ghost use Rattle.sci_io.specs.Taken.{Writes};

    /// An empty buffer of `room` bytes before the sink.
    pub fn new(alloc: Global, sink: S, room: usize) -> Result<Self, NoMemory>
        ensures sink { IfOk result (λ b. b.sink ≡ sink) }
        ensures empty { IfOk result (λ b. b.buffer.items ≡ []) }
        ensures room { IfOk result (λ b. b.room ≡ room) }
        ensures failing { IfOk result (λ b. b.failing ≡ false) }
    {
        let buffer = Vec::with_capacity(alloc, room)?;
        Ok(BufferedSink {
            sink,
            buffer,
            room,
            failing: false,
        })
    }

    /// The sink behind the buffer.
    pub fn behind(&self) -> &S
        ensures { result.now ≡ self.now.sink }
    {
        &self.sink
    }

    /// The bytes that wait in the buffer.
    pub fn held(&self) -> &[u8]
        ensures { result.now ≡ self.now.buffer.items }
    {
        &self.buffer
    }

    // Gives the buffer to the sink.
    #[tactic(auto, using(crate::proofs::Advance::nothing_due))]
    fn give(&mut self) -> Result<(), Failed>
        ensures written { Writes (S.state self.old.sink) (S.state self.new.sink) self.old.buffer.items result }
        ensures emptied { self.new.buffer.items ≡ [] }
        ensures room { self.new.room ≡ self.old.room }
        ensures works { OnOk result (self.new.failing ≡ false) }
        ensures fails { OnErr result (self.new.failing ≡ true) }
    {
        if self.buffer.is_empty() {
            self.failing = false;
            return Ok(());
        }
        let given = self.sink.put(&self.buffer);
        self.buffer.clear();
        self.failing = given.is_err();
        given
    }

    // Gives a piece to the sink, past the buffer.
    fn pass(&mut self, piece: &[u8]) -> Result<(), Failed>
        requires { 0 < length piece.now }
        ensures written { Writes (S.state self.old.sink) (S.state self.new.sink) piece.now result }
        ensures held { self.new.buffer.items ≡ self.old.buffer.items }
        ensures room { self.new.room ≡ self.old.room }
        ensures works { OnOk result (self.new.failing ≡ false) }
        ensures fails { OnErr result (self.new.failing ≡ true) }
    {
        let given = self.sink.put(piece);
        self.failing = given.is_err();
        given
    }

    // Puts a piece into the buffer.
    fn hold(&mut self, piece: &[u8])
        requires { length self.old.buffer.items + length piece.now ≤ self.old.room }
        ensures held { self.new.buffer.items ≡ self.old.buffer.items ++ piece.now }
        ensures sink { self.new.sink ≡ self.old.sink }
        ensures room { self.new.room ≡ self.old.room }
        ensures failing { self.new.failing ≡ self.old.failing }
    {
        self.buffer.extend_from_slice(piece).unwrap();
    }
}

impl<S: Sink + Drop> Sink for BufferedSink<S> {
    ghost use Rattle.std.specs.Prelude.{◌≡◌, ◌<◌, [], length, false, OnOk, OnErr};
    ghost use Rattle.sci_io.specs.Taken.{behind, Writes};
    ghost use Rattle.sci_io.specs.Buffered.{given_on, held_then};

    ghost state = { λ b. behind (S.state b.sink) b.buffer.items b.failing };

    fn put(&mut self, piece: &[u8]) -> Result<(), Failed>
        requires { 0 < length piece.now }
        ensures written { Writes (behind (S.state self.old.sink) self.old.buffer.items self.old.failing)
            (behind (S.state self.new.sink) self.new.buffer.items self.new.failing) piece.now result }
        ensures works { OnOk result ((behind (S.state self.new.sink) self.new.buffer.items self.new.failing).failing ≡ false) }
        ensures given { Writes (S.state self.old.sink) (S.state self.new.sink) (given_on self.old.room self.old.buffer.items piece.now) result }
        ensures held { OnOk result (self.new.buffer.items ≡ held_then self.old.room self.old.buffer.items piece.now) }
        ensures dropped { OnErr result (self.new.buffer.items ≡ []) }
        ensures room { self.new.room ≡ self.old.room }
    {
        if piece.len() <= self.room - self.buffer.len() {
            self.failing = false;
            self.hold(piece);
            return Ok(());
        }
        self.give()?;
        if self.room < piece.len() {
            return self.pass(piece);
        }
        self.hold(piece);
        Ok(())
    }

    fn flush(&mut self) -> Result<(), Failed>
        ensures written { Writes (behind (S.state self.old.sink) self.old.buffer.items self.old.failing)
            (behind (S.state self.new.sink) self.new.buffer.items self.new.failing) [] result }
        ensures all { OnOk result ((behind (S.state self.new.sink) self.new.buffer.items self.new.failing).held ≡ []) }
        ensures works { OnOk result ((behind (S.state self.new.sink) self.new.buffer.items self.new.failing).failing ≡ false) }
        ensures given { Writes (S.state self.old.sink) (S.state self.new.sink) self.old.buffer.items result }
        ensures emptied { self.new.buffer.items ≡ [] }
        ensures room { self.new.room ≡ self.old.room }
    {
        self.give()?;
        let flushed = self.sink.flush();
        self.failing = flushed.is_err();
        flushed
    }

    fn take_unseen(&mut self) -> bool {
        false
    }
}
