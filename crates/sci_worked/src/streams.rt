// Readers and writers that are interrupted, and then fail or end.
ghost use Rattle.std.specs.Prelude.{None};

use sci_io::{Disk, Folder, ReadEnd, RealFolder, RealSink, Sink};
use std::io;
use std::io::{ErrorKind, Read, Write};
use std::test::Fail;

// Gives two bytes, is interrupted, gives two more, and then fails or ends.
#[derive(Drop)]
struct Halting {
    turn: u8,
    fails: bool,
}

impl Read for Halting {
    fn read(&mut self, buffer: &mut [u8]) -> io::Result<usize> {
        self.turn = self.turn.saturating_add(1);
        match self.turn {
            1 => b"ab".as_slice().read(buffer),
            2 => Err(io::Error::from(ErrorKind::Interrupted)),
            3 => b"cd".as_slice().read(buffer),
            _ if self.fails => Err(io::Error::from(ErrorKind::TimedOut)),
            _ => Ok(0),
        }
    }
}

// A disk of such files.
#[derive(Drop)]
struct Halts {
    fails: bool,
}

impl Disk for Halts {
    type File = Halting;

    ghost files = { λ _. None };

    fn open(&self, _name: &str) -> io::Result<Halting> {
        Ok(Halting {
            turn: 0,
            fails: self.fails,
        })
    }
}

#[test]
fn a_file_is_read_to_its_end(rt: HostRuntime) -> Result<(), Fail> {
    let alloc = rt.alloc();
    let mut whole = RealFolder::new(Halts { fails: false }, alloc);
    let Ok(bytes) = whole.read(alloc, "d", 9) else {
        return Err(Fail::from("not read"));
    };
    assert_eq!(rt; bytes.as_slice(), b"abcd".as_slice());
    let mut halting = RealFolder::new(Halts { fails: true }, alloc);
    assert!(rt;
        matches!(halting.read(alloc, "d", 9), Err(ReadEnd::Failed)),
        "a failed read is no end"
    );
    Ok(())
}

// Takes one byte, is interrupted, takes one more, and then fails or takes nothing.
#[derive(Drop)]
struct Reluctant {
    turn: u8,
    fails: bool,
}

impl Write for Reluctant {
    fn write(&mut self, piece: &[u8]) -> io::Result<usize> {
        self.turn = self.turn.saturating_add(1);
        match self.turn {
            2 => Err(io::Error::from(ErrorKind::Interrupted)),
            1 | 3 if !piece.is_empty() => Ok(1),
            _ if self.fails => Err(io::Error::from(ErrorKind::TimedOut)),
            _ => Ok(0),
        }
    }

    fn flush(&mut self) -> io::Result<()> {
        Ok(())
    }
}

#[test]
fn a_writer_takes_all_or_fails(rt: HostRuntime) -> Result<(), Fail> {
    for fails in [true, false] {
        let mut short = RealSink::new(Reluctant { turn: 0, fails });
        assert!(rt; short.put(b"ab").is_ok(), "short writes, one interrupted");
        let mut cut = RealSink::new(Reluctant { turn: 0, fails });
        assert!(rt; cut.put(b"abc").is_err(), "a byte that was not taken");
    }
    Ok(())
}
