// The disk model in memory: three files and what was printed, with a record of the calls.
ghost use Rattle.std.specs.Prelude.{◌≡◌, ◌<◌, ◌≤◌, ◌+◌, ◌++◌, [], ◌∷◌, length, IfOk, IsTrue, ◌↔◌};
ghost use Rattle.disk_model.specs.Calls.{Matches, changed};
ghost use Rattle.disk_model.specs.Recorded.{calls_of, first_of, reads_of, synced_of, bound_of, size_in, HasSameLimits, CallsCounted, IsEmpty};
ghost use Rattle.std.proofs.Props.{props};

use crate::call_history::CallHistory;
use crate::mem_files::MemFiles;
use crate::reserved::Reserved;
use crate::{Crash, FileNo};
use std::alloc::{AllocError, Global};

/// Files on which no call fails and none takes memory.
#[derive(Drop)]
pub struct MemDisk {
    files: MemFiles,
    said: Reserved,
    history: CallHistory,
    ghost matches: { Matches (first_of files) (calls_of history) (reads_of files) (synced_of files) said.bytes.items } by { Prim.hlevel props },
    ghost said_bound: { said.bound ≡ history.pool.bound },
    ghost said_within: { length said.bytes.items ≤ length history.pool.bytes.items },
}

impl MemDisk {
    ghost use Rattle.disk_model.specs.declared.machine.FileNo.{FileNo};
    ghost use Rattle.disk_model.specs.Disk.{Runs, Stays, Same, In, Torn, HoldsAt, SaysFront, IsSettled, IsSettledIn};
    ghost use Rattle.disk_model.specs.Call.{Write, Sync, Say};
    ghost use Rattle.disk_model.specs.Store.{recorded, state_of, left_after};

    pub fn new(
        alloc: Global,
        sizes: [u64; 3],
        calls: usize,
        pool: usize,
    ) -> Result<MemDisk, AllocError>
        ensures reads { IfOk result (λ d. (file : FileNo) → (recorded d).reads file ≡ []) }
        ensures said { IfOk result (λ d. (recorded d).said ≡ []) }
        ensures settled { IfOk result (λ d. IsSettled (recorded d)) }
        ensures bounds { IfOk result (λ d. (file : FileNo) → bound_of d.files file ≡ size_in sizes file) }
        ensures empty { IfOk result (λ d. IsEmpty d.history) }
        ensures limit { IfOk result (λ d. d.history.limit ≡ calls) }
        ensures pool { IfOk result (λ d. d.history.pool.bound ≡ pool) }
    {
        Ok(MemDisk {
            files: MemFiles::new(alloc, sizes)?,
            said: Reserved::new(alloc, pool)?,
            history: CallHistory::new(alloc, calls, pool)?,
        })
    }

    pub fn bytes(&self, file: FileNo) -> &[u8]
        ensures { result.now ≡ (recorded self.now).reads file }
    {
        self.files.bytes(file)
    }

    pub fn said(&self) -> &[u8]
        ensures { result.now ≡ (recorded self.now).said }
    {
        self.said.as_slice()
    }

    pub fn bound(&self, file: FileNo) -> usize
        ensures { result ≡ bound_of self.now.files file }
    {
        self.files.bound(file)
    }

    /// Whether so many bytes more have room.
    pub fn has_room(&self, count: usize) -> bool
        ensures { IsTrue result ↔ (length self.now.history.pool.bytes.items + count ≤ self.now.history.pool.bound) }
    {
        self.history.has_room(count)
    }

    pub fn limit(&self) -> usize
        ensures { result ≡ self.now.history.limit }
    {
        self.history.limit()
    }

    pub fn write(&mut self, file: FileNo, at: usize, bytes: &[u8])
        requires within { at + length bytes.now ≤ bound_of self.old.files file }
        requires call { length self.old.history.entries.items < self.old.history.limit }
        requires room { length self.old.history.pool.bytes.items + length bytes.now ≤ self.old.history.pool.bound }
        ensures runs { Runs (In file (Torn at (length bytes.now))) Same (recorded self.old) (recorded self.new) }
        ensures written { In file (HoldsAt at bytes.now) (recorded self.old).reads (recorded self.new).reads }
        ensures calls { calls_of self.new.history ≡ calls_of self.old.history ++ Write file at bytes.now ∷ [] }
        ensures first { first_of self.new.files ≡ first_of self.old.files }
        ensures takes { CallsCounted (length bytes.now) self.old.history self.new.history }
        ensures bounds { (other : FileNo) → bound_of self.new.files other ≡ bound_of self.old.files other }
    {
        self.files.write(file, at, bytes);
        self.history.add_write(file, at, bytes);
    }

    pub fn sync(&mut self, file: FileNo)
        requires { length self.old.history.entries.items < self.old.history.limit }
        ensures kept { Stays (recorded self.old) (recorded self.new) }
        ensures settled { IsSettledIn file (recorded self.new) }
        ensures calls { calls_of self.new.history ≡ calls_of self.old.history ++ Sync file ∷ [] }
        ensures first { first_of self.new.files ≡ first_of self.old.files }
        ensures takes { CallsCounted 0 self.old.history self.new.history }
        ensures bounds { (other : FileNo) → bound_of self.new.files other ≡ bound_of self.old.files other }
    {
        self.files.sync(file);
        self.history.add_sync(file);
    }

    pub fn say(&mut self, bytes: &[u8])
        requires call { length self.old.history.entries.items < self.old.history.limit }
        requires room { length self.old.history.pool.bytes.items + length bytes.now ≤ self.old.history.pool.bound }
        ensures runs { Runs Same (SaysFront bytes.now) (recorded self.old) (recorded self.new) }
        ensures all { (recorded self.new).said ≡ (recorded self.old).said ++ bytes.now }
        ensures calls { calls_of self.new.history ≡ calls_of self.old.history ++ Say bytes.now ∷ [] }
        ensures first { first_of self.new.files ≡ first_of self.old.files }
        ensures takes { CallsCounted (length bytes.now) self.old.history self.new.history }
        ensures bounds { (other : FileNo) → bound_of self.new.files other ≡ bound_of self.old.files other }
    {
        self.said.append(bytes);
        self.history.add_say(bytes);
    }

    /// Sets one file to these bytes, settled, before the first call.
    pub fn place(&mut self, file: FileNo, bytes: &[u8])
        requires no_call { self.old.history.entries.items ≡ [] }
        requires within { length bytes.now ≤ bound_of self.old.files file }
        ensures reads { (other : FileNo) → (recorded self.new).reads other ≡ changed file bytes.now (recorded self.old).reads other }
        ensures said { (recorded self.new).said ≡ (recorded self.old).said }
        ensures settled { IsSettled (recorded self.new) }
        ensures calls { self.new.history ≡ self.old.history }
        ensures bounds { (other : FileNo) → bound_of self.new.files other ≡ bound_of self.old.files other }
    {
        self.files.place(file, bytes);
    }

    /// What a crash leaves: settled, with nothing printed and no call made.
    pub fn crash(self, how: Crash) -> MemDisk
        ensures image { (recorded self).left_since (recorded self).clock (recorded result).reads (recorded self).said }
        ensures left { (file : FileNo) → (recorded result).reads file ≡ left_after how (state_of self) file }
        ensures settled { IsSettled (recorded result) }
        ensures said { (recorded result).said ≡ [] }
        ensures empty { IsEmpty result.history }
        ensures limits { HasSameLimits self.history result.history }
        ensures bounds { (file : FileNo) → bound_of result.files file ≡ bound_of self.files file }
    {
        let MemDisk {
            mut files,
            mut said,
            mut history,
        } = self;
        files.crash(how, history.entries());
        history.clear();
        said.set(&[]);
        MemDisk {
            files,
            said,
            history,
        }
    }
}
