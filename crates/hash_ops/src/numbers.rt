//! The number of a key.

ghost use Rattle.std.specs.Prelude.{◌≡◌, ◌<◌};
ghost use Rattle.hash_ops.specs.Hash as numbers;

use key_entries::Short;

/// The number of a key, whose low bits tell its entry of a directory.
pub fn hash(key: Short) -> u32
    ensures { result ≡ numbers.hash key }
{
    let mut number = 0;
    for byte in key.as_slice() {
        number = with_byte(number, *byte);
    }
    number
}

/// The number of a key with one byte more.
fn with_byte(number: u32, byte: u8) -> u32
    ensures { result ≡ numbers.with_byte number byte }
{
    ((u64::from(number) * 31 + u64::from(byte)) % (1 << 32)) as u32
}

/// Whether the number has the bit of this place, that of the units at place 0.
pub fn has_bit(place: u8, number: u32) -> bool
    requires { place < 32 }
    ensures { result ≡ numbers.has_bit place number }
{
    (number >> place) % 2 == 1
}
