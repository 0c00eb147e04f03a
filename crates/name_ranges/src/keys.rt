// The keys of names.
ghost use Rattle.std.specs.Prelude.{◌≡◌, ◌==◌, IfOk, None, Some, length, if◌then◌else◌};
ghost use Rattle.named_words.specs.Effects.{place_of};
ghost use Rattle.name_ranges.specs.Directory as directories;

use byteorder::{ByteOrder, LittleEndian};
use oper_core::Memory;
use std::alloc::Global;

/// The place of a name among all names: FNV-1a of its bytes, halved.
pub fn place(name: &[u8]) -> u64
    ensures { result ≡ place_of name.now }
{
    let mut hash: u64 = 14695981039346656037;
    for byte in name {
        hash = (hash ^ u64::from(*byte)).wrapping_mul(1099511628211);
    }
    hash / 2
}

/// The key of a name in a directory.
pub fn key_of(alloc: Global, name: &[u8]) -> Result<Vec<u8>, Memory>
    ensures { IfOk result (λ key. key.items ≡ directories.key_of name.now) }
{
    let mut key = place(name).to_be_bytes().to_vec(alloc)?;
    key.extend_from_slice(name)?;
    Ok(key)
}

/// The number of an object, as the value of a key.
pub fn number_bytes(alloc: Global, object: u32) -> Result<Vec<u8>, Memory>
    ensures { IfOk result (λ bytes. bytes.items ≡ directories.number_bytes object) }
{
    Ok(object.to_le_bytes().to_vec(alloc)?)
}

/// The number of an object that the value of a key is. None where it has not four bytes.
pub fn number_in(bytes: &[u8]) -> Option<u32>
    ensures { result ≡ (if length bytes.now == 4 then Some (directories.number_in bytes.now) else None) }
{
    if bytes.len() == 4 {
        Some(LittleEndian::read_u32(bytes))
    } else {
        None
    }
}
