// Calls that were taken from a machine for C.
ghost use Rattle.std.specs.Prelude.{◌≡◌, ◌↔◌, ◌<◌, ◌≤◌, true, false, [], length, take, IsTrue};
ghost use Rattle.write_queue.specs.Waiting.{call_of, calls_in};
ghost use Rattle.embed_c.specs.Next.{IsNext, bytes_of, left_in, told_of};

use crate::answer::file_number;
use std::alloc::Global;
use write_queue::Queued;

/// A call that C makes on its files: of kind 0 it writes so many bytes at an offset of a file, of kind 1 it syncs the file, of
/// kind 2 it may print the bytes.
#[repr(C)]
#[derive(Clone, Copy)]
pub struct Call {
    pub kind: u32,
    pub file: u32,
    pub at: u64,
    pub length: u64,
}

/// Calls in their order, and how many of them C was given.
#[derive(Drop)]
pub struct Taken {
    calls: Vec<Queued>,
    given: usize,
}

impl Taken {
    /// No calls.
    pub fn new(alloc: Global) -> Taken
        ensures { left_in result ≡ [] }
    {
        Taken::of(Vec::new(alloc))
    }

    /// Calls of which none was given.
    pub fn of(calls: Vec<Queued>) -> Taken
        ensures { left_in result ≡ calls_in calls.items }
    {
        Taken { calls, given: 0 }
    }

    /// Whether all were given.
    pub fn is_empty(&self) -> bool
        ensures { IsTrue result ↔ (left_in self.now ≡ []) }
    {
        self.given >= self.calls.len()
    }

    /// Tells the first call that was not given, and answers 1; 0 where all were. It is given where there is room for its bytes.
    pub fn next(&mut self, call: &mut Call, into: &mut [u8]) -> u32
        ensures { IsNext (left_in self.old) (left_in self.new) call.new into.old into.new result }
    {
        let Some(queued) = self.calls.get(self.given) else {
            return 0;
        };
        let bytes = tell(queued, call);
        if !put_front(bytes, into) {
            return 1;
        }
        self.given += 1;
        1
    }
}

// Copies bytes to the front of some room, if they fit.
fn put_front(bytes: &[u8], into: &mut [u8]) -> bool
    ensures fits { IsTrue result ↔ (length bytes.now ≤ length into.old) }
    ensures front { IsTrue result → take (length bytes.now) into.new ≡ bytes.now }
{
    if into.len() < bytes.len() {
        return false;
    }
    into[..bytes.len()].copy_from_slice(bytes);
    true
}

// Tells C a call, and gives its bytes.
fn tell<'a>(queued: &'a Queued, call: &mut Call) -> &'a [u8]
    ensures call { call.new ≡ told_of (call_of queued.now) }
    ensures bytes { result.now ≡ bytes_of (call_of queued.now) }
{
    match queued {
        Queued::Write { file, at, bytes } => {
            *call = Call {
                kind: 0,
                file: file_number(*file),
                at: *at,
                length: bytes.len() as u64,
            };
            bytes.as_slice()
        }
        Queued::Sync { file } => {
            *call = Call {
                kind: 1,
                file: file_number(*file),
                at: 0,
                length: 0,
            };
            b"".as_slice()
        }
        Queued::Say { bytes } => {
            *call = Call {
                kind: 2,
                file: 0,
                at: 0,
                length: bytes.len() as u64,
            };
            bytes.as_slice()
        }
    }
}
