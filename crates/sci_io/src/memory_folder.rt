ghost use Rattle.std.specs.Prelude.{◌≡◌, ◌≤◌, ◌⊎◌, [], Some, None, map, true, false, string_bytes, IfSome, IfNone, OnOk, IsErrOf};
ghost use Rattle.sci_base.specs.declared.limits.TheConstants.{TEXT_BYTES};
ghost use Rattle.sci_io.specs.Causes.{counted};
ghost use Rattle.sci_io.specs.Files.{file_named, HasFront, Reads};
ghost use Rattle.sci_io.specs.Memory.{files_of, folder_of, folder_fails};

use crate::asked::remember;
use crate::{Folder, ReadEnd};
use std::alloc::Global;

/// Files in memory. Of several files of one name it has the first. Its reads fail at the calls that it is told, counted
/// from 1, and at names that it hasn't.
#[derive(Drop)]
pub struct MemFolder {
    alloc: Global,
    files: Vec<(String, Vec<u8>)>,
    fails: Vec<u64>,
    asked: Vec<String>,
    calls: u64,
    faults: u64,
}

impl MemFolder {
    /// Nothing asked, no faults.
    pub fn new(alloc: Global, files: Vec<(String, Vec<u8>)>, fails: Vec<u64>) -> Self
        ensures files { result.files ≡ files }
        ensures told { result.fails ≡ fails }
        ensures nothing_asked { result.asked.items ≡ [] }
        ensures no_calls { result.calls ≡ 0 }
        ensures no_faults { result.faults ≡ 0 }
    {
        MemFolder {
            alloc,
            files,
            fails,
            asked: Vec::new(alloc),
            calls: 0,
            faults: 0,
        }
    }

    /// The names that `read` was given, in order.
    pub fn asked(&self) -> &[String]
        ensures { result.now ≡ self.now.asked.items }
    {
        &self.asked
    }

    /// How often a read has failed.
    pub fn faults(&self) -> u64
        ensures { result ≡ self.now.faults }
    {
        self.faults
    }
}

fn find<'a>(files: &'a [(String, Vec<u8>)], name: &str) -> Option<&'a [u8]>
    ensures found { IfSome result (λ bytes. file_named (map (λ f. (string_bytes f.0, f.1.items)) files.now) name.now ≡ Some bytes.now) }
    ensures absent { IfNone result (file_named (map (λ f. (string_bytes f.0, f.1.items)) files.now) name.now ≡ None) }
{
    for file in files {
        if file.0.as_str() == name {
            return Some(file.1.as_slice());
        }
    }
    None
}

// The first `limit + 1` bytes.
fn front(alloc: Global, bytes: &[u8], limit: usize) -> Result<Vec<u8>, ReadEnd>
    requires { limit ≤ TEXT_BYTES }
    ensures { HasFront bytes.now limit result }
{
    let count = bytes.len().min(limit + 1);
    match bytes[..count].to_vec(alloc) {
        Ok(front) => Ok(front),
        Err(_) => Err(ReadEnd::Memory),
    }
}

impl Folder for MemFolder {
    ghost state = { λ f. folder_of f };

    fn read(&mut self, alloc: Global, name: &str, limit: usize) -> Result<Vec<u8>, ReadEnd>
        requires { limit ≤ TEXT_BYTES }
        ensures read { Reads (folder_of self.old) (folder_of self.new) name.now limit result }
        ensures kept { files_of self.new ≡ files_of self.old }
        ensures no_cause { OnOk result (folder_fails self.old name.now ≡ false) }
        ensures cause { IsErrOf result ReadEnd.Failed → folder_fails self.old name.now ≡ true }
        ensures want { IsErrOf result ReadEnd.Memory → ((folder_of self.new).asked ≡ (folder_of self.old).asked) ⊎ (folder_fails self.old name.now ≡ false) }
        ensures counted { IsErrOf result ReadEnd.Failed → self.new.faults ≡ counted self.old.faults }
        ensures called { self.new.calls ≡ counted self.old.calls }
        ensures told { self.new.fails ≡ self.old.fails }
    {
        self.calls = self.calls.saturating_add(1);
        if remember(self.alloc, &mut self.asked, name).is_err() {
            return Err(ReadEnd::Memory);
        }
        let told = self.fails.contains(&self.calls);
        match find(&self.files, name) {
            Some(bytes) if !told => front(alloc, bytes, limit),
            _ => {
                self.faults = self.faults.saturating_add(1);
                Err(ReadEnd::Failed)
            }
        }
    }
}
