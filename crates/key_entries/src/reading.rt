//! Entries out of their bytes.

ghost use Rattle.std.specs.Prelude.{◌≡◌, ◌≤◌, IfSome, option_map, option_and_then, length};
ghost use Rattle.std.specs.FinMap.Entries.{is_sorted};
ghost use Rattle.key_entries.specs.Entries.{byte_order, entry_code, entry_in, entries_in, rising, listed};

use crate::{EntryField, Short};
use arrayvec::ArrayVec;

/// So many entries, whose keys rise strictly, where nothing follows them.
pub fn read_rising<T: EntryField>(count: usize, bytes: &[u8]) -> Option<ArrayVec<(Short, T), 7>>
    requires { count ≤ 7 }
    ensures { result ≡ option_map listed (option_and_then rising (entries_in T.field count bytes.now)) }
{
    let entries = read_entries(count, bytes)?;
    if !rise(entries.as_slice()) {
        return None;
    }
    Some(entries)
}

/// So many entries, where nothing follows them.
fn read_entries<T: EntryField>(count: usize, bytes: &[u8]) -> Option<ArrayVec<(Short, T), 7>>
    requires { count ≤ 7 }
    ensures { result ≡ option_map listed (entries_in T.field count bytes.now) }
{
    let mut entries = ArrayVec::new();
    let mut rest = bytes;
    for _read in 0..count {
        let entry: (Short, T) = read_entry(rest)?;
        entries.push(entry);
        rest = &rest[entry.0.code_len() + entry.1.code_len()..];
    }
    if rest.is_empty() { Some(entries) } else { None }
}

/// The entry that the bytes begin with.
pub fn read_entry<T: EntryField>(bytes: &[u8]) -> Option<(Short, T)>
    ensures value { result ≡ entry_in T.field bytes.now }
    ensures room { IfSome result (λ e. length (entry_code T.field e) ≤ length bytes.now) }
{
    let key = Short::read(bytes)?;
    let beside = T::read(&bytes[key.code_len()..])?;
    Some((key, beside))
}

/// Whether the keys rise strictly.
fn rise<T>(entries: &[(Short, T)]) -> bool
    ensures { result ≡ is_sorted byte_order entries.now }
{
    for i in 1..entries.len() {
        if entries[i - 1].0 >= entries[i].0 {
            return false;
        }
    }
    true
}
