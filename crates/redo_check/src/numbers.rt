// Numbers in bytes, and what they may be.
ghost use Rattle.std.specs.Prelude.{◌≡◌, ◌≤◌, ◌+◌, length, nat_eq, take, drop};
ghost use Rattle.std.specs.Str.{bytes_eq};
ghost use Rattle.formats.specs.Bytes.{number_at};

use byteorder::{ByteOrder, LittleEndian};

/// The number of 4 bytes at a place.
pub fn short_number(bytes: &[u8], place: usize) -> u32
    requires { place + 4 ≤ length bytes.now }
    ensures { result ≡ number_at 4 place bytes.now }
{
    LittleEndian::read_u32(&bytes[place..])
}

/// The number of 8 bytes at a place.
pub fn long_number(bytes: &[u8], place: usize) -> u64
    requires { place + 8 ≤ length bytes.now }
    ensures { result ≡ number_at 8 place bytes.now }
{
    LittleEndian::read_u64(&bytes[place..])
}

/// Whether a byte is that of an open gate.
pub fn is_gate(byte: u8) -> bool
    ensures { result ≡ nat_eq byte 1 }
{
    byte == 1
}

/// Whether these bytes stand behind the first one.
pub fn has_magic(head: &[u8], magic: &[u8]) -> bool
    requires { 1 + length magic.now ≤ length head.now }
    ensures { result ≡ bytes_eq (take (length magic.now) (drop 1 head.now)) magic.now }
{
    head[1..1 + magic.len()] == magic[..]
}
