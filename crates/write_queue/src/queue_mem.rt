// A machine in memory with a queue.
ghost use Rattle.std.specs.Prelude.{◌≡◌};
ghost use Rattle.std.proofs.Props.{props};
ghost use Rattle.disk_model.specs.Growing.{files_of};
ghost use Rattle.disk_model.specs.declared.machine.FileNo.{FileNo};
ghost use Rattle.write_queue.specs.Before.{Makes, all_calls, first_of};

use crate::Queued;
use crate::adding::{filled, increment, say, write};
use crate::past::Past;
use crate::queue::Queue;
use disk_model::{Failed, FileNo, GrowMem, Machine};
use std::alloc::{AllocError, Global};

/// Three files whose bytes are handed in, in memory that is taken as they grow, with a queue of the calls that changed them or
/// printed.
///
/// It tells its files, and what a crash may leave of them: what it may leave of real files on which some front of the queue was
/// made, in order ([`crate::fronts_are_what_is_left`]). The caller makes what it takes before it reports an answer; where that
/// fails, it drops the machine. A call fails only where memory runs out, which is counted; it changes nothing else then.
#[derive(Drop)]
pub struct QueueMem {
    alloc: Global,
    files: GrowMem,
    queue: Queue,
    past: Past,
    disk_faults: u64,
    say_faults: u64,
    ghost made: { Makes (first_of past) (all_calls past queue) (files_of files) } by { Prim.hlevel props },
}

impl QueueMem {
    ghost use Rattle.std.specs.Prelude.{[], ◌++◌, IfOk};
    ghost use Rattle.disk_model.specs.Disk.{IsSettled};
    ghost use Rattle.write_queue.specs.Waiting.{calls_in};
    ghost use Rattle.write_queue.specs.Memory.{disk_of, first_files, taken_from, waiting_in, LooksTheSame};
    ghost use Rattle.write_queue.specs.Handed.{handed};

    /// Three files that hold these bytes, all of which are on the disk, with nothing queued.
    pub fn new(
        alloc: Global,
        objects: &[u8],
        log_a: &[u8],
        log_b: &[u8],
    ) -> Result<QueueMem, AllocError>
        ensures first { IfOk result (λ m. (file : FileNo) → first_files m file ≡ handed objects.now log_a.now log_b.now file) }
        ensures reads { IfOk result (λ m. (file : FileNo) → (disk_of m).reads file ≡ handed objects.now log_a.now log_b.now file) }
        ensures settled { IfOk result (λ m. IsSettled (disk_of m)) }
        ensures said { IfOk result (λ m. (disk_of m).said ≡ []) }
        ensures taken { IfOk result (λ m. taken_from m ≡ []) }
        ensures waiting { IfOk result (λ m. waiting_in m ≡ []) }
        ensures faults { IfOk result (λ m. ((disk_of m).disk_faults ≡ 0) × ((disk_of m).say_faults ≡ 0)) }
    {
        let files = filled(alloc, objects, log_a, log_b)?;
        let past = Past::of(&files);
        Ok(QueueMem {
            alloc,
            files,
            queue: Queue::new(alloc),
            past,
            disk_faults: 0,
            say_faults: 0,
        })
    }

    /// Gives the calls since the last time, in their order, for the caller to make.
    pub fn take(&mut self) -> Vec<Queued>
        ensures calls { calls_in result.items ≡ waiting_in self.old }
        ensures taken { taken_from self.new ≡ taken_from self.old ++ waiting_in self.old }
        ensures none { waiting_in self.new ≡ [] }
        ensures same { LooksTheSame self.old self.new }
    {
        self.past = self.past.with(&self.queue);
        self.queue.take(self.alloc)
    }

    /// What a file holds.
    pub fn bytes(&self, file: FileNo) -> &[u8]
        ensures { result.now ≡ (disk_of self.now).reads file }
    {
        self.files.bytes(file)
    }

    /// How many calls on files failed.
    pub fn disk_faults(&self) -> u64
        ensures { result ≡ (disk_of self.now).disk_faults }
    {
        self.disk_faults
    }

    /// How many calls that say something failed.
    pub fn say_faults(&self) -> u64
        ensures { result ≡ (disk_of self.now).say_faults }
    {
        self.say_faults
    }
}

// Each call has the clauses of `Machine`; beside them it says what it queues, and what one that fails does.
impl Machine for QueueMem {
    ghost use Rattle.std.specs.Prelude.{◌≤◌, length, take, ◌++◌, IfOk, OnOk, OnErr, IsOk, IsErr};
    ghost use Rattle.disk_model.specs.Call.{Write, Sync, Say};
    ghost use Rattle.disk_model.specs.Disk.{Files, Rises, Runs, Stays, Same, In, Torn, HoldsAt, SaysFront, IsSettledIn, read_of};
    ghost use Rattle.write_queue.specs.Memory.{disk_of, lawful, Queues, CountsDiskFault, CountsSayFault};

    ghost disk = { disk_of };

    ghost lawful = { lawful };

    fn size(&mut self, file: FileNo) -> Result<u64, Failed>
        ensures kept { Stays (disk_of self.old) (disk_of self.new) }
        ensures size { (files : Files) → (disk_of self.new).agrees files → IfOk result (λ n. n ≡ length (files file)) }
        ensures cause { IsErr result → Rises (disk_of self.old).disk_faults (disk_of self.new).disk_faults }

        ensures succeeds { IsOk result }
        ensures unchanged { self.new ≡ self.old }
    {
        Ok(self.files.bytes(file).len() as u64)
    }

    fn read(&mut self, file: FileNo, at: u64, into: &mut [u8]) -> Result<usize, Failed>
        ensures kept { Stays (disk_of self.old) (disk_of self.new) }
        ensures fits { IfOk result (λ n. n ≤ length into.old) }
        ensures bytes { (files : Files) → (disk_of self.new).agrees files → IfOk result (λ n.
            take n into.new ≡ read_of (files file) at (length into.old)) }
        ensures count { (files : Files) → (disk_of self.new).agrees files → IfOk result (λ n.
            n ≡ length (read_of (files file) at (length into.old))) }
        ensures cause { IsErr result → Rises (disk_of self.old).disk_faults (disk_of self.new).disk_faults }

        ensures succeeds { IsOk result }
        ensures unchanged { self.new ≡ self.old }
    {
        self.files.read(file, at, into)
    }

    fn write_at(&mut self, file: FileNo, at: u64, bytes: &[u8]) -> Result<(), Failed>
        ensures runs { Runs (In file (Torn at (length bytes.now))) Same (disk_of self.old) (disk_of self.new) }
        ensures written { (disk_of self.old).tells_files → OnOk result (In file (HoldsAt at bytes.now) (disk_of self.old).reads (disk_of self.new).reads) }
        ensures cause { IsErr result → Rises (disk_of self.old).disk_faults (disk_of self.new).disk_faults }

        ensures ok { OnOk result (Queues (Write file at bytes.now) self.old self.new) }
        ensures err { OnErr result (CountsDiskFault self.old self.new) }
    {
        match write(
            self.alloc,
            &mut self.files,
            &mut self.queue,
            file,
            at,
            bytes,
        ) {
            Ok(()) => Ok(()),
            Err(_) => {
                increment(&mut self.disk_faults);
                Err(Failed)
            }
        }
    }

    fn sync(&mut self, file: FileNo) -> Result<(), Failed>
        ensures kept { Stays (disk_of self.old) (disk_of self.new) }
        ensures settled { OnOk result (IsSettledIn file (disk_of self.new)) }
        ensures cause { IsErr result → Rises (disk_of self.old).disk_faults (disk_of self.new).disk_faults }

        ensures ok { OnOk result (Queues (Sync file) self.old self.new) }
        ensures err { OnErr result (CountsDiskFault self.old self.new) }
    {
        match self.queue.reserve() {
            Ok(()) => {
                self.queue.add(Queued::Sync { file });
                Ok(())
            }
            Err(_) => {
                increment(&mut self.disk_faults);
                Err(Failed)
            }
        }
    }

    fn say(&mut self, bytes: &[u8]) -> Result<(), Failed>
        ensures runs { Runs Same (SaysFront bytes.now) (disk_of self.old) (disk_of self.new) }
        ensures all { (disk_of self.old).tells_files → OnOk result ((disk_of self.new).said ≡ (disk_of self.old).said ++ bytes.now) }
        ensures cause { IsErr result → Rises (disk_of self.old).say_faults (disk_of self.new).say_faults }

        ensures ok { OnOk result (Queues (Say bytes.now) self.old self.new) }
        ensures err { OnErr result (CountsSayFault self.old self.new) }
    {
        match say(self.alloc, &mut self.queue, bytes) {
            Ok(()) => Ok(()),
            Err(_) => {
                increment(&mut self.say_faults);
                Err(Failed)
            }
        }
    }
}
