ghost use Rattle.sci_io.specs.Taken.{Writes, joined};

use crate::{Failed, Sink};

// Puts a piece that may be empty.
fn put_any<S: Sink>(out: &mut S, piece: &[u8]) -> Result<(), Failed>
    ensures { Writes (S.state out.old) (S.state out.new) piece.now result }
{
    if piece.is_empty() {
        return Ok(());
    }
    out.put(piece)
}

/// Puts the pieces one after another, and leaves out the empty ones.
pub fn put_all<S: Sink>(out: &mut S, pieces: &[&[u8]]) -> Result<(), Failed>
    ensures { Writes (S.state out.old) (S.state out.new) (joined pieces.now) result }
{
    for piece in pieces {
        put_any(out, piece)?;
    }
    Ok(())
}
