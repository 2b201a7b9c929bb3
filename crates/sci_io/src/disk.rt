ghost use Rattle.std.specs.Prelude.{None};

use std::io::Read;
use std::rt::Files;
use std::{fs, io};

/// Opens files by name.
pub trait Disk {
    ghost use Rattle.sci_io.specs.Files.{Files, Opens};

    type File: Read + Drop;

    /// The names with their bytes, where it tells them.
    ghost files: { Self → Files };

    /// Opens the file of this name from its beginning.
    fn open(&self, name: &str) -> io::Result<Self::File>
        ensures { Opens (files self.now) name.now Self.File.remaining result };
}

/// The machine's files. It tells no content.
#[derive(Drop)]
pub struct Machine<'r, R: Files> {
    rt: &'r R,
}

impl<'r, R: Files> Machine<'r, R> {
    pub fn new(rt: &'r R) -> Self {
        Machine { rt }
    }
}

impl<'r, R: Files> Disk for Machine<'r, R> {
    type File = R::File;

    ghost files = { λ _. None };

    fn open(&self, name: &str) -> io::Result<R::File> {
        fs::open(self.rt, name)
    }
}
