//! What a reader gives and a writer takes, whole or up to where it fails.
ghost use Rattle.std.specs.Prelude.{◌≡◌, ◌≢◌, ◌≤◌, ◌+◌, ◌⊎◌, length, IfOk, IfErr, IsTrue};
ghost use Rattle.std.specs.IoError.{error_kind};
ghost use Rattle.std.specs.Io.{ReadsAtMost, WritesAtMost};
ghost use Rattle.std.specs.Io.KnownBytes.{Appends, Consumes, IsAtEnd, ReadConsumes, WriteAppends};
ghost use Rattle.sci_base.specs.declared.limits.TheConstants.{TEXT_BYTES};
ghost use Rattle.sci_io.specs.Taken.{TakesFront};
ghost use Rattle.sci_io.specs.Transfer.{ReadsMore};

use crate::ReadEnd;
use std::alloc::Global;
use std::io;
use std::io::{ErrorKind, Read, Write};

// One read, made again where it was interrupted.
fn read_some<R: Read>(reader: &mut R, buffer: &mut [u8]) -> io::Result<usize>
    ensures bound { ReadsAtMost result buffer.new }
    ensures bytes { ReadConsumes (R.remaining reader.old) (R.remaining reader.new) result buffer.new }
    ensures retried { IfErr result (λ e. error_kind e ≢ ErrorKind.Interrupted) }
{
    for _turn in 0..u64::MAX {
        match reader.read(buffer) {
            Err(error) if error.kind() == ErrorKind::Interrupted => {}
            read => return read,
        }
    }
    Err(io::Error::from(ErrorKind::TimedOut))
}

// Puts at most `most` bytes of the reader behind those that there are, and tells how many; none only at its end.
fn read_more<R: Read>(reader: &mut R, bytes: &mut Vec<u8>, most: usize) -> Result<usize, ReadEnd>
    ensures { ReadsMore (R.remaining reader.old) (R.remaining reader.new) bytes.old.items bytes.new.items most result }
{
    let mut buffer = [0u8; 4096];
    let room = most.min(4096);
    let Ok(count) = read_some(reader, &mut buffer[..room]) else {
        return Err(ReadEnd::Failed);
    };
    if bytes.extend_from_slice(&buffer[..count]).is_err() {
        return Err(ReadEnd::Memory);
    }
    Ok(count)
}

// The first `limit + 1` bytes of the reader, or all of them where it ends before. Each turn takes at least one byte.
pub fn read_front<R: Read>(reader: &mut R, alloc: Global, limit: usize) -> Result<Vec<u8>, ReadEnd>
    requires { limit ≤ TEXT_BYTES }
    ensures front { IfOk result (λ bytes. Consumes (R.remaining reader.old) (R.remaining reader.new) bytes.items) }
    ensures most { IfOk result (λ bytes. length bytes.items ≤ limit + 1) }
    ensures whole { IfOk result (λ bytes. (length bytes.items ≡ limit + 1) ⊎ IsAtEnd (R.remaining reader.new)) }
{
    let mut bytes = Vec::new(alloc);
    for _turn in 0..limit + 1 {
        let most = limit + 1 - bytes.len();
        if most == 0 || read_more(reader, &mut bytes, most)? == 0 {
            return Ok(bytes);
        }
    }
    Ok(bytes)
}

// One write, made again where it was interrupted.
fn write_some<W: Write>(writer: &mut W, piece: &[u8]) -> io::Result<usize>
    ensures bound { WritesAtMost result piece.now }
    ensures bytes { WriteAppends (W.contents writer.old) (W.contents writer.new) result piece.now }
    ensures retried { IfErr result (λ e. error_kind e ≢ ErrorKind.Interrupted) }
{
    for _turn in 0..u64::MAX {
        match writer.write(piece) {
            Err(fault) if fault.kind() == ErrorKind::Interrupted => {}
            written => return written,
        }
    }
    Err(io::Error::from(ErrorKind::TimedOut))
}

// Whether the writer took the whole piece, else it took a front of it. Each turn takes at least one byte.
pub fn write_whole<W: Write>(writer: &mut W, piece: &[u8]) -> bool
    ensures whole { IsTrue result → Appends (W.contents writer.old) (W.contents writer.new) piece.now }
    ensures front { TakesFront (W.contents writer.old) (W.contents writer.new) piece.now }
{
    let mut rest = piece;
    while !rest.is_empty() {
        match write_some(writer, rest) {
            Ok(count) if 0 < count => rest = &rest[count..],
            _ => return false,
        }
    }
    true
}
