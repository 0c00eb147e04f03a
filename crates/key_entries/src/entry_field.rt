ghost use Rattle.std.specs.Prelude.{◌≡◌, ◌≤◌, ◌++◌, IfSome, OnOk, length};
ghost use Rattle.key_entries.specs.Entries.{Field};

use byteorder::{ByteOrder, LittleEndian};
use oper_core::Memory;

/// A field of an entry: a key, a value, or the number of a child.
pub trait EntryField: Copy + Default + Drop {
    ghost field: { Field Self };

    /// The one whose code the bytes begin with.
    fn read(bytes: &[u8]) -> Option<Self>
        ensures value { result ≡ field.read bytes.now }
        ensures room { IfSome result (λ x. length (field.code x) ≤ length bytes.now) };

    /// How many bytes its code has.
    fn code_len(&self) -> usize
        ensures value { result ≡ length (field.code self.now) }
        ensures few { result ≤ 33 };

    /// Appends its code. After an error a part of it may stand there.
    fn write(&self, out: &mut Vec<u8>) -> Result<(), Memory>
        ensures { OnOk result (out.new.items ≡ out.old.items ++ field.code self.now) };
}

/// The number of an object.
impl EntryField for u32 {
    ghost use Rattle.key_entries.specs.Entries.{child_field};

    ghost field = { child_field };

    fn read(bytes: &[u8]) -> Option<Self> {
        if bytes.len() < 4 {
            return None;
        }
        Some(LittleEndian::read_u32(bytes))
    }

    fn code_len(&self) -> usize {
        4
    }

    fn write(&self, out: &mut Vec<u8>) -> Result<(), Memory> {
        out.extend_from_slice(&self.to_le_bytes())?;
        Ok(())
    }
}
