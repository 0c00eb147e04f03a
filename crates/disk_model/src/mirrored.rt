// A machine beside a copy of what its files should hold.
ghost use Rattle.std.specs.Prelude.{◌≡◌, IsTrue};
ghost use Rattle.disk_model.specs.Disk.{read_of};
ghost use Rattle.disk_model.specs.Mirrored.{mirrored, lawful_mirrored};
ghost use Rattle.disk_model.specs.Growing.{files_of};

use crate::{Failed, FileNo, GrowMem, Machine};

/// Passes its calls on to a machine, and keeps a copy in memory of what the files should hold then. What the machine's reads
/// give is compared with the copy: it claims the copy for its files as long as nothing differed, and nothing from then on.
#[derive(Drop)]
pub struct Mirrored<M: Machine> {
    inner: M,
    copy: GrowMem,
    same: bool,
}

impl<M: Machine> Mirrored<M> {
    /// A machine whose files should hold what this copy does.
    pub fn new(inner: M, copy: GrowMem) -> Self
        ensures inner { result.inner ≡ inner }
        ensures copy { result.copy ≡ copy }
        ensures same { IsTrue result.same }
    {
        Mirrored {
            inner,
            copy,
            same: true,
        }
    }

    /// Whether everything that was read so far was as in the copy. Where memory ran out for the copy, or a write failed, it
    /// is false too.
    pub fn is_same(&self) -> bool
        ensures { result ≡ self.now.same }
    {
        self.same
    }

    /// The machine that the calls were passed to.
    pub fn into_inner(self) -> M
        ensures { result ≡ self.inner }
    {
        self.inner
    }
}

// Whether these bytes are what a read of a file with those gives where there is room for so many.
fn is_read_of(given: &[u8], bytes: &[u8], at: usize, room: usize) -> bool
    ensures { IsTrue result → given.now ≡ read_of bytes.now at room }
{
    if bytes.len() <= at {
        return given.is_empty();
    }
    let count = room.min(bytes.len() - at);
    given == &bytes[at..at + count]
}

impl<M: Machine> Machine for Mirrored<M> {
    ghost disk = { λ s. mirrored (IsTrue s.same) (files_of s.copy) (M.disk s.inner).disk_faults (M.disk s.inner).say_faults };

    ghost lawful = { λ s. lawful_mirrored (IsTrue s.same) (files_of s.copy) (M.disk s.inner).disk_faults (M.disk s.inner).say_faults };

    fn size(&mut self, file: FileNo) -> Result<u64, Failed> {
        let size = self.inner.size(file)?;
        self.same = self.same && size == self.copy.bytes(file).len() as u64;
        Ok(size)
    }

    fn read(&mut self, file: FileNo, at: u64, into: &mut [u8]) -> Result<usize, Failed> {
        let room = into.len();
        let count = self.inner.read(file, at, into)?;
        let same = is_read_of(&into[..count], self.copy.bytes(file), at as usize, room);
        self.same = self.same && same;
        Ok(count)
    }

    fn write_at(&mut self, file: FileNo, at: u64, bytes: &[u8]) -> Result<(), Failed> {
        let answer = self.inner.write_at(file, at, bytes);
        let copied = self.copy.write_at(file, at, bytes);
        self.same = self.same && answer.is_ok() && copied.is_ok();
        answer
    }

    fn sync(&mut self, file: FileNo) -> Result<(), Failed> {
        self.inner.sync(file)
    }

    fn say(&mut self, bytes: &[u8]) -> Result<(), Failed> {
        self.inner.say(bytes)
    }
}
