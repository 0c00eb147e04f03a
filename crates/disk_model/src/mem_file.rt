// One file of a machine in memory.
ghost use Rattle.std.specs.Prelude.{◌≡◌, ◌≤◌, ◌+◌, [], ◌∷◌, length, IfOk};
ghost use Rattle.disk_model.specs.Disk.{written_over};
ghost use Rattle.disk_model.specs.Entries.{IsWithin, replay, replayed};

use crate::entry::Entry;
use crate::reserved::Reserved;
use crate::{Crash, FileNo};
use std::alloc::{AllocError, Global};

/// A file: its bytes as the machine was made, as reads give them, and as they were at its last sync.
#[derive(Drop)]
pub struct MemFile {
    first: Reserved,
    present: Reserved,
    synced: Reserved,
    ghost first_bound: { first.bound ≡ present.bound },
    ghost synced_bound: { synced.bound ≡ present.bound },
}

impl MemFile {
    ghost use Rattle.disk_model.specs.Recorded.{left_by, IsFresh};

    pub fn new(alloc: Global, bound: usize) -> Result<MemFile, AllocError>
        ensures first { IfOk result (λ f. f.first.bytes.items ≡ []) }
        ensures present { IfOk result (λ f. f.present.bytes.items ≡ []) }
        ensures synced { IfOk result (λ f. f.synced.bytes.items ≡ []) }
        ensures bound { IfOk result (λ f. f.present.bound ≡ bound) }
    {
        Ok(MemFile {
            first: Reserved::new(alloc, bound)?,
            present: Reserved::new(alloc, bound)?,
            synced: Reserved::new(alloc, bound)?,
        })
    }

    pub fn bytes(&self) -> &[u8]
        ensures { result.now ≡ self.now.present.bytes.items }
    {
        self.present.as_slice()
    }

    pub fn bound(&self) -> usize
        ensures { result ≡ self.now.present.bound }
    {
        self.present.bound()
    }

    pub fn write(&mut self, at: usize, bytes: &[u8])
        requires { at + length bytes.now ≤ self.old.present.bound }
        ensures present { self.new.present.bytes.items ≡ written_over at bytes.now self.old.present.bytes.items }
        ensures first { self.new.first ≡ self.old.first }
        ensures synced { self.new.synced ≡ self.old.synced }
        ensures bound { self.new.present.bound ≡ self.old.present.bound }
    {
        self.present.write(at, bytes);
    }

    pub fn sync(&mut self)
        ensures synced { self.new.synced.bytes.items ≡ self.old.present.bytes.items }
        ensures first { self.new.first ≡ self.old.first }
        ensures present { self.new.present ≡ self.old.present }
    {
        self.synced.set(self.present.as_slice());
    }

    /// Sets the file to these bytes, settled.
    pub fn place(&mut self, bytes: &[u8])
        requires { length bytes.now ≤ self.old.present.bound }
        ensures { IsFresh bytes.now self.old self.new }
    {
        self.first.set(bytes);
        self.present.set(bytes);
        self.synced.set(bytes);
    }

    /// What a crash after these calls leaves, settled.
    pub fn crash(&mut self, how: Crash, file: FileNo, entries: &[Entry])
        requires { IsWithin file self.old.present.bound entries.now }
        ensures { IsFresh (left_by how file entries.now self.old) self.old self.new }
    {
        self.leave(how, file, entries);
        self.first.set(self.present.as_slice());
        self.synced.set(self.present.as_slice());
    }

    fn leave(&mut self, how: Crash, file: FileNo, entries: &[Entry])
        requires { IsWithin file self.old.present.bound entries.now }
        ensures present { self.new.present.bytes.items ≡ left_by how file entries.now self.old }
        ensures bound { self.new.present.bound ≡ self.old.present.bound }
    {
        match how {
            Crash::Old => self.present.set(self.synced.as_slice()),
            Crash::New => {}
            Crash::Fill(byte) => fill_unsynced(
                &mut self.present,
                &self.synced,
                file,
                entries,
                byte,
            ),
        }
    }
}

// The synced bytes, with each later write of the file done over them as one that puts this byte alone.
fn fill_unsynced(
    present: &mut Reserved,
    synced: &Reserved,
    file: FileNo,
    entries: &[Entry],
    byte: u8,
)
    requires bound { synced.now.bound ≡ present.old.bound }
    requires within { IsWithin file present.old.bound entries.now }
    ensures bytes { present.new.bytes.items ≡ replay byte file synced.now.bytes.items entries.now synced.now.bytes.items }
    ensures bound { present.new.bound ≡ present.old.bound }
{
    present.set(synced.as_slice());
    for entry in entries {
        replay_one(present, synced, file, *entry, byte);
    }
}

fn replay_one(present: &mut Reserved, synced: &Reserved, file: FileNo, entry: Entry, byte: u8)
    requires bound { synced.now.bound ≡ present.old.bound }
    requires within { IsWithin file present.old.bound (entry ∷ []) }
    ensures bytes { present.new.bytes.items ≡ replayed byte file synced.now.bytes.items entry present.old.bytes.items }
    ensures bound { present.new.bound ≡ present.old.bound }
{
    match entry {
        Entry::Written {
            file: written,
            at,
            length,
        } if written == file => present.fill(at, length, byte),
        Entry::Synced(other) if other == file => present.set(synced.as_slice()),
        _ => {}
    }
}
