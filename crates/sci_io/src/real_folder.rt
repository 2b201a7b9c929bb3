ghost use Rattle.std.specs.Prelude.{◌≡◌, ◌≤◌, [], map, string_bytes, IsErrOf};
ghost use Rattle.sci_base.specs.declared.limits.TheConstants.{TEXT_BYTES};
ghost use Rattle.sci_io.specs.Causes.{counted};
ghost use Rattle.sci_io.specs.Files.{folder_state, Reads, ReadsFront};

use crate::asked::remember;
use crate::transfer::read_front;
use crate::{Disk, Folder, ReadEnd};
use std::alloc::Global;

/// The files of a disk. It tells the content that the disk tells; each read that fails raises its faults by one.
#[derive(Drop)]
pub struct RealFolder<D: Disk + Drop> {
    disk: D,
    asked: Vec<String>,
    faults: u64,
}

impl<D: Disk + Drop> RealFolder<D> {
    /// Nothing asked, no faults.
    pub fn new(disk: D, alloc: Global) -> Self
        ensures disk { result.disk ≡ disk }
        ensures nothing_asked { result.asked.items ≡ [] }
        ensures no_faults { result.faults ≡ 0 }
    {
        RealFolder {
            disk,
            asked: Vec::new(alloc),
            faults: 0,
        }
    }

    // What is read of the file of this name.
    fn front_of(&self, alloc: Global, name: &str, limit: usize) -> Result<Vec<u8>, ReadEnd>
        requires { limit ≤ TEXT_BYTES }
        ensures { ReadsFront (D.files self.now.disk) name.now limit result }
    {
        let Ok(mut file) = self.disk.open(name) else {
            return Err(ReadEnd::Failed);
        };
        read_front(&mut file, alloc, limit)
    }
}

impl<D: Disk + Drop> Folder for RealFolder<D> {
    ghost state = { λ f. folder_state (D.files f.disk) (map string_bytes f.asked.items) f.faults };

    fn read(&mut self, alloc: Global, name: &str, limit: usize) -> Result<Vec<u8>, ReadEnd>
        requires { limit ≤ TEXT_BYTES }
        ensures read { Reads (folder_state (D.files self.old.disk) (map string_bytes self.old.asked.items) self.old.faults)
            (folder_state (D.files self.new.disk) (map string_bytes self.new.asked.items) self.new.faults) name.now limit result }
        ensures kept { D.files self.new.disk ≡ D.files self.old.disk }
        ensures counted { IsErrOf result ReadEnd.Failed → self.new.faults ≡ counted self.old.faults }
    {
        if remember(alloc, &mut self.asked, name).is_err() {
            return Err(ReadEnd::Memory);
        }
        match self.front_of(alloc, name, limit) {
            Err(ReadEnd::Failed) => {
                self.faults = self.faults.saturating_add(1);
                Err(ReadEnd::Failed)
            }
            read => read,
        }
    }
}
