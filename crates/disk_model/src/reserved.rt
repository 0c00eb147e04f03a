// Bytes in memory that was taken when they were made.
ghost use Rattle.std.specs.Prelude.{◌≡◌, ◌<◌, ◌≤◌, ◌+◌, ◌-◌, ◌++◌, ◌↔◌, [], length, take, drop, replicate, IfOk, IsTrue, vec_len, vec_capacity};
ghost use Rattle.disk_model.specs.Disk.{written_over};
ghost use Rattle.disk_model.specs.Calls.{filled_over};

use crate::overwriting::{lengthen, overwrite};
use std::alloc::{AllocError, Global};

/// Bytes that never pass their bound, so that no call on them takes memory.
#[derive(Drop)]
pub struct Reserved {
    bytes: Vec<u8>,
    bound: usize,
    ghost within: { vec_len bytes ≤ bound },
    ghost room: { bound ≤ vec_capacity bytes },
}

impl Reserved {
    pub fn new(alloc: Global, bound: usize) -> Result<Reserved, AllocError>
        ensures empty { IfOk result (λ r. r.bytes.items ≡ []) }
        ensures bound { IfOk result (λ r. r.bound ≡ bound) }
    {
        Ok(Reserved {
            bytes: Vec::with_capacity(alloc, bound)?,
            bound,
        })
    }

    pub fn as_slice(&self) -> &[u8]
        ensures bytes { result.now ≡ self.now.bytes.items }
        ensures within { length result.now ≤ self.now.bound }
    {
        &self.bytes
    }

    pub fn bound(&self) -> usize
        ensures { result ≡ self.now.bound }
    {
        self.bound
    }

    /// Whether so many bytes more fit after those that are there.
    pub fn has_room(&self, count: usize) -> bool
        ensures { IsTrue result ↔ (length self.now.bytes.items + count ≤ self.now.bound) }
    {
        count <= self.bound - self.bytes.len()
    }

    pub fn set(&mut self, bytes: &[u8])
        requires { length bytes.now ≤ self.old.bound }
        ensures bytes { self.new.bytes.items ≡ bytes.now }
        ensures bound { self.new.bound ≡ self.old.bound }
    {
        self.bytes.clear();
        self.bytes.extend_from_slice(bytes).unwrap();
    }

    pub fn append(&mut self, bytes: &[u8])
        requires { length self.old.bytes.items + length bytes.now ≤ self.old.bound }
        ensures bytes { self.new.bytes.items ≡ self.old.bytes.items ++ bytes.now }
        ensures bound { self.new.bound ≡ self.old.bound }
    {
        self.bytes.extend_from_slice(bytes).unwrap();
    }

    /// Writes over what is there, with zeros between the end and the offset.
    pub fn write(&mut self, at: usize, bytes: &[u8])
        requires { at + length bytes.now ≤ self.old.bound }
        ensures bytes { self.new.bytes.items ≡ written_over at bytes.now self.old.bytes.items }
        ensures bound { self.new.bound ≡ self.old.bound }
    {
        overwrite(&mut self.bytes, at, bytes).unwrap();
    }

    /// Puts one byte all over a range, and between the end and it.
    pub fn fill(&mut self, at: usize, count: usize, byte: u8)
        requires { at + count ≤ self.old.bound }
        ensures bytes { self.new.bytes.items ≡ filled_over byte at count self.old.bytes.items }
        ensures bound { self.new.bound ≡ self.old.bound }
    {
        lengthen(&mut self.bytes, at + count, byte).unwrap();
        fill_range(self.bytes.as_mut_slice(), at, count, byte);
    }
}

fn fill_range(into: &mut [u8], at: usize, count: usize, byte: u8)
    requires { at + count ≤ length into.old }
    ensures { into.new ≡ take at into.old ++ replicate count byte ++ drop (at + count) into.old }
{
    into[at..at + count].fill(byte);
}
