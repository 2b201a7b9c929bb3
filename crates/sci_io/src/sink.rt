ghost use Rattle.std.specs.Prelude.{◌<◌, ◌≡◌, [], ℕ, length, OnOk, IsTrue, false};
ghost use Rattle.sci_io.specs.Taken.{SinkState, Writes, TakesUnseen};

/// A sink didn't take a piece.
#[derive(Clone, Copy)]
pub struct Failed;

/// Takes bytes in order. It may hold bytes back until it is flushed.
pub trait Sink {
    /// The bytes given on, where it tells them, those held back, how often a call of `put` or `flush` has failed, and whether the last one did.
    ghost state: { Self → SinkState };

    /// Takes the piece. Failed: what was held and the piece were given on in part, nothing of them is held any more, and the
    /// faults rose by one.
    fn put(&mut self, piece: &[u8]) -> Result<(), Failed>
        requires { 0 < length piece.now }
        ensures written { Writes (state self.old) (state self.new) piece.now result }
        ensures works { OnOk result ((state self.new).failing ≡ false) };

    /// Gives on what is held. Failed: it was given on in part, nothing of it is held any more, and the faults rose by one.
    fn flush(&mut self) -> Result<(), Failed>
        ensures written { Writes (state self.old) (state self.new) [] result }
        ensures all { OnOk result ((state self.new).held ≡ []) }
        ensures works { OnOk result ((state self.new).failing ≡ false) };

    /// Where the sink tells nothing of what it takes, holds nothing back and never fails: takes a text without seeing it, and answers true. Else
    /// it takes nothing, and answers false.
    fn take_unseen(&mut self) -> bool
        ensures taken { IsTrue result → TakesUnseen (state self.old) (state self.new) }
        ensures kept { result ≡ false → state self.new ≡ state self.old };
}
