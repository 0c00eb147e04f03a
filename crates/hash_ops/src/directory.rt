ghost use Rattle.std.specs.Prelude.{◌≡◌, ◌≤◌, ◌*◌, ◌^◌, IfOk, IfSome, length};
ghost use Rattle.oper_core.specs.State.{is_among};
ghost use Rattle.hash_ops.specs.Blocks.{directory_code, directory_in, numbers_in};

use arrayvec::ArrayVec;
use byteorder::{ByteOrder, LittleEndian};
use oper_core::Memory;
use std::alloc::Global;

/// The kind of a directory.
const DIRECTORY: u8 = 3;

/// The greatest depth of a directory, and of a bucket.
pub const MOST_DEPTH: u8 = 6;

/// A directory of a hash file.
#[derive(Drop)]
pub struct Directory {
    /// It has 2 to this power entries.
    pub depth: u8,
    /// The object of the bucket of each entry. The entry of a key is told by so many low bits of its number.
    pub entries: ArrayVec<u32, 64>,
}

impl Directory {
    /// The directory that the bytes are, exactly where they are one.
    pub fn read(bytes: &[u8]) -> Option<Self>
        ensures value { result ≡ directory_in bytes.now }
        ensures shallow { IfSome result (λ d. d.depth ≤ 6) }
        ensures count { IfSome result (λ d. length d.entries.items ≡ 2 ^ d.depth) }
    {
        if bytes.len() < 2 {
            return None;
        }
        let depth = bytes[1];
        if bytes[0] != DIRECTORY || depth > MOST_DEPTH {
            return None;
        }
        let body = &bytes[2..];
        if body.len() != body_len(depth) {
            return None;
        }
        let entries = read_numbers(body);
        Some(Directory { depth, entries })
    }

    /// Its bytes.
    pub fn bytes(&self, alloc: Global) -> Result<Vec<u8>, Memory>
        ensures { IfOk result (λ out. out.items ≡ directory_code self.now) }
    {
        let mut out = Vec::new(alloc);
        out.push(DIRECTORY)?;
        out.push(self.depth)?;
        for object in self.entries.as_slice() {
            out.extend_from_slice(&object.to_le_bytes())?;
        }
        Ok(out)
    }

    /// Whether it names the object.
    pub fn names(&self, object: u32) -> bool
        ensures { result ≡ is_among object self.now.entries.items }
    {
        self.entries.as_slice().iter().any(|entry| object == *entry)
    }
}

/// How many bytes the entries of a directory have.
fn body_len(depth: u8) -> usize
    requires { depth ≤ 6 }
    ensures value { result ≡ 4 * 2 ^ depth }
    ensures few { result ≤ 256 }
{
    4 << depth
}

/// The numbers that the bytes are, four bytes each.
fn read_numbers(bytes: &[u8]) -> ArrayVec<u32, 64>
    requires { length bytes.now ≤ 256 }
    ensures { result.items ≡ numbers_in bytes.now }
{
    let mut numbers = ArrayVec::new();
    let mut rest = bytes;
    while rest.len() >= 4 {
        numbers.push(LittleEndian::read_u32(rest));
        rest = &rest[4..];
    }
    numbers
}
