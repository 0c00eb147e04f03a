// A machine in memory that grows.
ghost use Rattle.std.specs.Prelude.{◌≡◌, ◌<◌, ◌≤◌, ◌+◌, ◌-◌, ◌++◌, [], length, take, IfOk, OnOk, OnErr, IsOk, IsErr, IsOkAnd};
ghost use Rattle.disk_model.specs.Disk.{Files, Rises, Runs, Stays, Same, In, Torn, HoldsAt, SaysFront, IsSettledIn, read_of};
ghost use Rattle.disk_model.specs.FilesTold.{lawful_files_told};
ghost use Rattle.disk_model.specs.Growing.{disk_of, files_of, said_by, HasSameFaults, FailsToWrite, FailsToSay};
ghost use Rattle.disk_model.specs.declared.machine.FileNo.{FileNo};

use crate::by_file::ByFile;
use crate::copying::copy_from;
use crate::count::counted;
use crate::overwriting::overwrite;
use crate::{Failed, FileNo, Machine};
use std::alloc::{AllocError, Global};

/// Three files and what was printed, in memory that is taken as they grow. It reports its files and none of its moments. A
/// write that lengthens its file and a `say` fail where memory runs out, which is counted; no other call fails.
#[derive(Drop)]
pub struct GrowMem {
    files: ByFile<Vec<u8>>,
    said: Vec<u8>,
    disk_faults: u64,
    say_faults: u64,
}

impl GrowMem {
    /// Three empty files. It takes no memory yet, so it succeeds.
    pub fn new(alloc: Global) -> Result<GrowMem, AllocError>
        ensures files { IsOkAnd result (λ m. (file : FileNo) → (disk_of m).reads file ≡ []) }
        ensures said { IfOk result (λ m. (disk_of m).said ≡ []) }
        ensures faults { IfOk result (λ m. ((disk_of m).disk_faults ≡ 0) × ((disk_of m).say_faults ≡ 0)) }
    {
        let files = ByFile {
            objects: Vec::new(alloc),
            log_a: Vec::new(alloc),
            log_b: Vec::new(alloc),
        };
        Ok(GrowMem {
            files,
            said: Vec::new(alloc),
            disk_faults: 0,
            say_faults: 0,
        })
    }

    /// What a file holds.
    pub fn bytes(&self, file: FileNo) -> &[u8]
        ensures { result.now ≡ (disk_of self.now).reads file }
    {
        self.files.get(file)
    }

    /// All bytes printed.
    pub fn said(&self) -> &[u8]
        ensures { result.now ≡ (disk_of self.now).said }
    {
        &self.said
    }

    /// How many writes failed.
    pub fn disk_faults(&self) -> u64
        ensures { result ≡ (disk_of self.now).disk_faults }
    {
        self.disk_faults
    }

    /// How many calls that say something failed.
    pub fn say_faults(&self) -> u64
        ensures { result ≡ (disk_of self.now).say_faults }
    {
        self.say_faults
    }
}

// Each call has the clauses of `Machine`; beside them it says when it succeeds, and what one that fails does.
impl Machine for GrowMem {
    ghost disk = { disk_of };

    ghost lawful = { λ m. lawful_files_told (files_of m) (said_by m) m.disk_faults m.say_faults };

    fn size(&mut self, file: FileNo) -> Result<u64, Failed>
        ensures kept { Stays (disk_of self.old) (disk_of self.new) }
        ensures size { (files : Files) → (disk_of self.new).agrees files → IfOk result (λ n. n ≡ length (files file)) }
        ensures cause { IsErr result → Rises (disk_of self.old).disk_faults (disk_of self.new).disk_faults }

        ensures succeeds { IsOk result }
        ensures unchanged { self.new ≡ self.old }
    {
        Ok(self.bytes(file).len() as u64)
    }

    fn read(&mut self, file: FileNo, at: u64, into: &mut [u8]) -> Result<usize, Failed>
        ensures kept { Stays (disk_of self.old) (disk_of self.new) }
        ensures fits { IfOk result (λ n. n ≤ length into.old) }
        ensures bytes { (files : Files) → (disk_of self.new).agrees files → IfOk result (λ n.
            take n into.new ≡ read_of (files file) at (length into.old)) }
        ensures count { (files : Files) → (disk_of self.new).agrees files → IfOk result (λ n.
            n ≡ length (read_of (files file) at (length into.old))) }
        ensures cause { IsErr result → Rises (disk_of self.old).disk_faults (disk_of self.new).disk_faults }

        ensures succeeds { IsOk result }
        ensures unchanged { self.new ≡ self.old }
    {
        Ok(copy_from(self.bytes(file), at as usize, into))
    }

    fn write_at(&mut self, file: FileNo, at: u64, bytes: &[u8]) -> Result<(), Failed>
        ensures runs { Runs (In file (Torn at (length bytes.now))) Same (disk_of self.old) (disk_of self.new) }
        ensures written { (disk_of self.old).tells_files → OnOk result (In file (HoldsAt at bytes.now) (disk_of self.old).reads (disk_of self.new).reads) }
        ensures cause { IsErr result → Rises (disk_of self.old).disk_faults (disk_of self.new).disk_faults }

        ensures within { at + length bytes.now ≤ length ((disk_of self.old).reads file) → IsOk result }
        ensures ok { OnOk result (HasSameFaults self.old self.new) }
        ensures err { OnErr result (FailsToWrite self.old self.new) }
    {
        let answer = overwrite(self.files.get_mut(file), at as usize, bytes);
        counted(&mut self.disk_faults, answer)
    }

    fn sync(&mut self, file: FileNo) -> Result<(), Failed>
        ensures kept { Stays (disk_of self.old) (disk_of self.new) }
        ensures settled { OnOk result (IsSettledIn file (disk_of self.new)) }
        ensures cause { IsErr result → Rises (disk_of self.old).disk_faults (disk_of self.new).disk_faults }

        ensures succeeds { IsOk result }
        ensures unchanged { self.new ≡ self.old }
    {
        Ok(())
    }

    fn say(&mut self, bytes: &[u8]) -> Result<(), Failed>
        ensures runs { Runs Same (SaysFront bytes.now) (disk_of self.old) (disk_of self.new) }
        ensures all { (disk_of self.old).tells_files → OnOk result ((disk_of self.new).said ≡ (disk_of self.old).said ++ bytes.now) }
        ensures cause { IsErr result → Rises (disk_of self.old).say_faults (disk_of self.new).say_faults }

        ensures ok { OnOk result (HasSameFaults self.old self.new) }
        ensures err { OnErr result (FailsToSay self.old self.new) }
    {
        let answer = self.said.extend_from_slice(bytes);
        counted(&mut self.say_faults, answer)
    }
}
