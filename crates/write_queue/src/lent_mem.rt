// A machine over bytes that are lent.
ghost use Rattle.std.proofs.Props.{props};
ghost use Rattle.write_queue.specs.Lent.{IsLent};

use crate::Queued;
use crate::adding::{increment, say};
use crate::lent::Lent;
use crate::looking::{read_through, size_through};
use crate::past::Past;
use crate::queue::Queue;
use disk_model::{Failed, FileNo, Machine};
use std::alloc::Global;

/// Three files whose bytes are lent for one call, with a queue of the calls that changed them or printed, through which reads
/// look.
///
/// It tells its files and what a crash may leave of them as [`crate::QueueMem`] does: `past` are the files that were handed in
/// once, and all calls that were taken since, which made of them the bytes that are lent. Of the lent bytes nothing is copied but
/// what a read asks for. A call fails where memory runs out, and a write beyond the last place of 64 bits, which is counted; it
/// changes nothing else then.
#[derive(Drop)]
pub struct LentMem<'a> {
    alloc: Global,
    lent: Lent<'a>,
    queue: Queue,
    past: Past,
    disk_faults: u64,
    say_faults: u64,
    ghost whole: { IsLent past lent queue } by { Prim.hlevel props },
}

impl<'a> LentMem<'a> {
    ghost use Rattle.std.specs.Prelude.{◌≡◌, [], ◌++◌};
    ghost use Rattle.write_queue.specs.Before.{Makes, first_of};
    ghost use Rattle.write_queue.specs.Handed.{handed};
    ghost use Rattle.write_queue.specs.Waiting.{calls_in};
    ghost use Rattle.write_queue.specs.Lending.{disk_of, waiting_in};
    ghost use Rattle.disk_model.specs.declared.machine.FileNo.{FileNo};

    /// The files that hold these bytes, with nothing queued.
    pub fn over(
        alloc: Global,
        objects: &'a [u8],
        log_a: &'a [u8],
        log_b: &'a [u8],
        past: Past,
    ) -> LentMem<'a>
        requires { Makes (first_of past) past.taken (handed objects.now log_a.now log_b.now) }
        ensures reads { (file : FileNo) → (disk_of result).reads file ≡ handed objects.now log_a.now log_b.now file }
        ensures past { result.past ≡ past }
        ensures waiting { waiting_in result ≡ [] }
        ensures faults { ((disk_of result).disk_faults ≡ 0) × ((disk_of result).say_faults ≡ 0) }
    {
        LentMem {
            alloc,
            lent: Lent::new(objects, log_a, log_b),
            queue: Queue::new(alloc),
            past,
            disk_faults: 0,
            say_faults: 0,
        }
    }

    /// The calls that wait, in their order, for the caller to make, and the past in which they are taken.
    pub fn into_calls(self) -> (Vec<Queued>, Past)
        ensures calls { calls_in result.0.items ≡ waiting_in self.entry }
        ensures past { result.1 ≡ record self.entry.past { taken = self.entry.past.taken ++ waiting_in self.entry } }
    {
        let past = self.past.with(&self.queue);
        (self.queue.into_vec(), past)
    }
}

// Each call has the clauses of `Machine`; beside them it says what it queues, and what one that fails does.
impl<'a> Machine for LentMem<'a> {
    ghost use Rattle.std.specs.Prelude.{◌≡◌, ◌≤◌, length, take, ◌++◌, IfOk, OnOk, OnErr, IsOk, IsErr};
    ghost use Rattle.disk_model.specs.Call.{Write, Sync, Say};
    ghost use Rattle.disk_model.specs.Disk.{Files, Rises, Runs, Stays, Same, In, Torn, HoldsAt, SaysFront, IsSettledIn, read_of};
    ghost use Rattle.write_queue.specs.Lending.{disk_of, lawful, LooksTheSame, Queues, CountsDiskFault, CountsSayFault};

    ghost disk = { disk_of };

    ghost lawful = { lawful };

    fn size(&mut self, file: FileNo) -> Result<u64, Failed>
        ensures kept { Stays (disk_of self.old) (disk_of self.new) }
        ensures size { (files : Files) → (disk_of self.new).agrees files → IfOk result (λ n. n ≡ length (files file)) }
        ensures cause { IsErr result → Rises (disk_of self.old).disk_faults (disk_of self.new).disk_faults }

        ensures succeeds { IsOk result }
        ensures unchanged { LooksTheSame self.old self.new }
    {
        Ok(size_through(self.lent.bytes(file), self.queue.as_slice(), file))
    }

    fn read(&mut self, file: FileNo, at: u64, into: &mut [u8]) -> Result<usize, Failed>
        ensures kept { Stays (disk_of self.old) (disk_of self.new) }
        ensures fits { IfOk result (λ n. n ≤ length into.old) }
        ensures bytes { (files : Files) → (disk_of self.new).agrees files → IfOk result (λ n.
            take n into.new ≡ read_of (files file) at (length into.old)) }
        ensures count { (files : Files) → (disk_of self.new).agrees files → IfOk result (λ n.
            n ≡ length (read_of (files file) at (length into.old))) }
        ensures cause { IsErr result → Rises (disk_of self.old).disk_faults (disk_of self.new).disk_faults }

        ensures succeeds { IsOk result }
        ensures unchanged { LooksTheSame self.old self.new }
    {
        Ok(read_through(self.lent.bytes(file), self.queue.as_slice(), file, at, into))
    }

    fn write_at(&mut self, file: FileNo, at: u64, bytes: &[u8]) -> Result<(), Failed>
        ensures runs { Runs (In file (Torn at (length bytes.now))) Same (disk_of self.old) (disk_of self.new) }
        ensures written { (disk_of self.old).tells_files → OnOk result (In file (HoldsAt at bytes.now) (disk_of self.old).reads (disk_of self.new).reads) }
        ensures cause { IsErr result → Rises (disk_of self.old).disk_faults (disk_of self.new).disk_faults }

        ensures ok { OnOk result (Queues (Write file at bytes.now) self.old self.new) }
        ensures err { OnErr result (CountsDiskFault self.old self.new) }
    {
        match self.queue.add_write(self.alloc, file, at, bytes) {
            Ok(()) => Ok(()),
            Err(_) => {
                increment(&mut self.disk_faults);
                Err(Failed)
            }
        }
    }

    fn sync(&mut self, file: FileNo) -> Result<(), Failed>
        ensures kept { Stays (disk_of self.old) (disk_of self.new) }
        ensures settled { OnOk result (IsSettledIn file (disk_of self.new)) }
        ensures cause { IsErr result → Rises (disk_of self.old).disk_faults (disk_of self.new).disk_faults }

        ensures ok { OnOk result (Queues (Sync file) self.old self.new) }
        ensures err { OnErr result (CountsDiskFault self.old self.new) }
    {
        match self.queue.reserve() {
            Ok(()) => {
                self.queue.add(Queued::Sync { file });
                Ok(())
            }
            Err(_) => {
                increment(&mut self.disk_faults);
                Err(Failed)
            }
        }
    }

    fn say(&mut self, bytes: &[u8]) -> Result<(), Failed>
        ensures runs { Runs Same (SaysFront bytes.now) (disk_of self.old) (disk_of self.new) }
        ensures all { (disk_of self.old).tells_files → OnOk result ((disk_of self.new).said ≡ (disk_of self.old).said ++ bytes.now) }
        ensures cause { IsErr result → Rises (disk_of self.old).say_faults (disk_of self.new).say_faults }

        ensures ok { OnOk result (Queues (Say bytes.now) self.old self.new) }
        ensures err { OnErr result (CountsSayFault self.old self.new) }
    {
        match say(self.alloc, &mut self.queue, bytes) {
            Ok(()) => Ok(()),
            Err(_) => {
                increment(&mut self.say_faults);
                Err(Failed)
            }
        }
    }
}
