// Calls that wait for the caller.
ghost use Rattle.std.specs.Prelude.{◌≡◌, ◌+◌, ◌<◌, ◌^◌, ◌++◌, [], ◌∷◌, OnOk, OnErr, length};
ghost use Rattle.disk_model.specs.Call.{Write};

use crate::Queued;
use disk_model::{Failed, FileNo};
use std::alloc::Global;
use std::mem;

/// The calls that the caller has not taken, in their order.
#[derive(Drop)]
pub struct Queue {
    calls: Vec<Queued>,
}

impl Queue {
    ghost use Rattle.write_queue.specs.Waiting.{call_of, calls_in, waiting, has_room};

    pub fn new(alloc: Global) -> Queue
        ensures { waiting result ≡ [] }
    {
        Queue {
            calls: Vec::new(alloc),
        }
    }

    /// Takes memory for one call more.
    pub fn reserve(&mut self) -> Result<(), Failed>
        ensures same { waiting self.new ≡ waiting self.old }
        ensures room { OnOk result (has_room self.new) }
    {
        match self.calls.reserve(1) {
            Ok(()) => Ok(()),
            Err(_) => Err(Failed),
        }
    }

    /// Adds a call for which there is room.
    pub fn add(&mut self, call: Queued)
        requires { has_room self.old }
        ensures { waiting self.new ≡ waiting self.old ++ call_of call ∷ [] }
    {
        self.calls.push(call).unwrap();
    }

    /// Adds a write that ends within the places of 64 bits. Else, and out of memory, it changes nothing.
    pub fn add_write(
        &mut self,
        alloc: Global,
        file: FileNo,
        at: u64,
        bytes: &[u8],
    ) -> Result<(), Failed>
        ensures short { OnOk result (at + length bytes.now < 2 ^ 64) }
        ensures added { OnOk result (waiting self.new ≡ waiting self.old ++ Write file at bytes.now ∷ []) }
        ensures same { OnErr result (waiting self.new ≡ waiting self.old) }
    {
        if at.checked_add(bytes.len() as u64).is_none() {
            return Err(Failed);
        }
        let Ok(copy) = Vec::from_slice(alloc, bytes) else {
            return Err(Failed);
        };
        self.reserve()?;
        self.add(Queued::Write {
            file,
            at,
            bytes: copy,
        });
        Ok(())
    }

    /// The calls.
    pub fn as_slice(&self) -> &[Queued]
        ensures { calls_in result.now ≡ waiting self.now }
    {
        self.calls.as_slice()
    }

    /// The calls, moved out.
    pub fn into_vec(self) -> Vec<Queued>
        ensures { calls_in result.items ≡ waiting self }
    {
        self.calls
    }

    /// Gives the calls, and has none then.
    pub fn take(&mut self, alloc: Global) -> Vec<Queued>
        ensures taken { calls_in result.items ≡ waiting self.old }
        ensures none { waiting self.new ≡ [] }
    {
        mem::replace(&mut self.calls, Vec::new(alloc))
    }
}
