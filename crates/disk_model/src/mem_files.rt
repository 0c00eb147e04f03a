// The three files of a machine in memory.
ghost use Rattle.std.specs.Prelude.{◌≡◌, ◌≤◌, ◌+◌, length, IfOk};
ghost use Rattle.disk_model.specs.Disk.{written_over};
ghost use Rattle.disk_model.specs.Calls.{changed};
ghost use Rattle.disk_model.specs.Entries.{IsWithin};

use crate::by_file::ByFile;
use crate::entry::Entry;
use crate::mem_file::MemFile;
use crate::{Crash, FileNo};
use std::alloc::{AllocError, Global};

#[derive(Drop)]
pub struct MemFiles {
    files: ByFile<MemFile>,
}

impl MemFiles {
    ghost use Rattle.disk_model.specs.declared.machine.FileNo.{FileNo};
    ghost use Rattle.disk_model.specs.Recorded.{file_of, first_of, reads_of, synced_of, bound_of, left_by, IsFresh, AreEmpty, size_in};

    pub fn new(alloc: Global, sizes: [u64; 3]) -> Result<MemFiles, AllocError>
        ensures empty { IfOk result (λ m. AreEmpty m) }
        ensures bounds { IfOk result (λ m. (file : FileNo) → bound_of m file ≡ size_in sizes file) }
    {
        let [objects, log_a, log_b] = sizes;
        let files = ByFile {
            objects: MemFile::new(alloc, objects as usize)?,
            log_a: MemFile::new(alloc, log_a as usize)?,
            log_b: MemFile::new(alloc, log_b as usize)?,
        };
        Ok(MemFiles { files })
    }

    pub fn bytes(&self, file: FileNo) -> &[u8]
        ensures { result.now ≡ reads_of self.now file }
    {
        self.files.get(file).bytes()
    }

    pub fn bound(&self, file: FileNo) -> usize
        ensures { result ≡ bound_of self.now file }
    {
        self.files.get(file).bound()
    }

    pub fn write(&mut self, file: FileNo, at: usize, bytes: &[u8])
        requires { at + length bytes.now ≤ bound_of self.old file }
        ensures reads { (other : FileNo) → reads_of self.new other ≡ changed file (written_over at bytes.now (reads_of self.old file)) (reads_of self.old) other }
        ensures first { first_of self.new ≡ first_of self.old }
        ensures synced { synced_of self.new ≡ synced_of self.old }
        ensures bounds { (other : FileNo) → bound_of self.new other ≡ bound_of self.old other }
    {
        self.files.get_mut(file).write(at, bytes);
    }

    pub fn sync(&mut self, file: FileNo)
        ensures synced { (other : FileNo) → synced_of self.new other ≡ changed file (reads_of self.old file) (synced_of self.old) other }
        ensures first { first_of self.new ≡ first_of self.old }
        ensures reads { reads_of self.new ≡ reads_of self.old }
        ensures bounds { (other : FileNo) → bound_of self.new other ≡ bound_of self.old other }
    {
        self.files.get_mut(file).sync();
    }

    /// Sets one file to these bytes, settled.
    pub fn place(&mut self, file: FileNo, bytes: &[u8])
        requires { length bytes.now ≤ bound_of self.old file }
        ensures first { (other : FileNo) → first_of self.new other ≡ changed file bytes.now (first_of self.old) other }
        ensures reads { (other : FileNo) → reads_of self.new other ≡ changed file bytes.now (reads_of self.old) other }
        ensures synced { (other : FileNo) → synced_of self.new other ≡ changed file bytes.now (synced_of self.old) other }
        ensures bounds { (other : FileNo) → bound_of self.new other ≡ bound_of self.old other }
    {
        self.files.get_mut(file).place(bytes);
    }

    /// What a crash after these calls leaves, settled.
    pub fn crash(&mut self, how: Crash, entries: &[Entry])
        requires { (file : FileNo) → IsWithin file (bound_of self.old file) entries.now }
        ensures { (file : FileNo) → IsFresh (left_by how file entries.now (file_of self.old file)) (file_of self.old file) (file_of self.new file) }
    {
        self.files.objects.crash(how, FileNo::Objects, entries);
        self.files.log_a.crash(how, FileNo::LogA, entries);
        self.files.log_b.crash(how, FileNo::LogB, entries);
    }
}
