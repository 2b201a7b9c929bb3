use crate::{Failed, Sink};

/// Takes everything, tells nothing of it and never fails.
#[derive(Clone, Copy)]
pub struct SureSink;

impl Sink for SureSink {
    ghost use Rattle.std.specs.Prelude.{◌≡◌, ◌<◌, [], length, None, IsOk, OnOk, IsTrue, true, false};
    ghost use Rattle.sci_io.specs.Taken.{direct, Writes, TakesUnseen};

    ghost state = { λ _. direct None 0 false };

    fn put(&mut self, piece: &[u8]) -> Result<(), Failed>
        requires { 0 < length piece.now }
        ensures written { Writes (direct None 0 false) (direct None 0 false) piece.now result }
        ensures works { OnOk result ((direct None 0 false).failing ≡ false) }
        ensures sure { IsOk result }
    {
        Ok(())
    }

    fn flush(&mut self) -> Result<(), Failed>
        ensures written { Writes (direct None 0 false) (direct None 0 false) [] result }
        ensures all { OnOk result ((direct None 0 false).held ≡ []) }
        ensures works { OnOk result ((direct None 0 false).failing ≡ false) }
        ensures sure { IsOk result }
    {
        Ok(())
    }

    fn take_unseen(&mut self) -> bool
        ensures taken { IsTrue result → TakesUnseen (direct None 0 false) (direct None 0 false) }
        ensures kept { result ≡ false → direct None 0 false ≡ direct None 0 false }
        ensures always { result ≡ true }
    {
        true
    }
}
