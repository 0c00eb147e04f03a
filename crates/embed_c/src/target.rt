// The files of a backup in memory, and the calls on them that C has to make.
ghost use Rattle.std.specs.Prelude.{◌≡◌, [], IfSome};
ghost use Rattle.write_queue.specs.Handed.{handed};
ghost use Rattle.write_queue.specs.Memory.{LooksTheSame, waiting_in};
ghost use Rattle.embed_c.specs.Backups.{IsTargetOf, TellsNextOf, pending_on};
ghost use Rattle.embed_c.specs.Next.{left_in};

use crate::taken::{Call, Taken};
use std::alloc::Global;
use write_queue::QueueMem;

/// The files that a backup is written to, as one value behind a handle.
#[derive(Drop)]
pub struct Target {
    pub(crate) machine: QueueMem,
    taken: Taken,
}

impl Target {
    /// A target over these files, all of which are on the disk. None where memory ran out.
    pub fn over(alloc: Global, objects: &[u8], log_a: &[u8], log_b: &[u8]) -> Option<Target>
        ensures { IfSome result (IsTargetOf (handed objects.now log_a.now log_b.now)) }
    {
        match QueueMem::new(alloc, objects, log_a, log_b) {
            Ok(machine) => Some(Target {
                machine,
                taken: Taken::new(alloc),
            }),
            Err(_) => None,
        }
    }

    // Takes the calls that wait from the machine, where C was given all that were taken.
    fn refill(&mut self)
        ensures pending { pending_on self.new ≡ pending_on self.old }
        ensures first { left_in self.new.taken ≡ [] → waiting_in self.new.machine ≡ [] }
        ensures machine { LooksTheSame self.old.machine self.new.machine }
    {
        if !self.taken.is_empty() {
            return;
        }
        self.taken = Taken::of(self.machine.take());
    }

    /// Tells the next call that C has to make on the files, and answers 1; 0 where none waits. It gives its bytes where there is
    /// room for them; else it is told again.
    pub fn next_call(&mut self, call: &mut Call, into: &mut [u8]) -> u32
        ensures { TellsNextOf call.new into.old into.new self.old self.new result }
    {
        self.refill();
        self.taken.next(call, into)
    }
}
