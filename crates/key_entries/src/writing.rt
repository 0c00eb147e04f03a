//! The bytes of entries.

ghost use Rattle.std.specs.Prelude.{◌≡◌, ◌≤◌, ◌++◌, OnOk, length};
ghost use Rattle.key_entries.specs.Entries.{entries_code};

use crate::{EntryField, Short};
use oper_core::Memory;

/// How many bytes the codes of the entries have.
pub fn entries_len<T: EntryField>(entries: &[(Short, T)]) -> usize
    requires { length entries.now ≤ 7 }
    ensures value { result ≡ length (entries_code T.field entries.now) }
    ensures few { result ≤ 462 }
{
    let mut len = 0;
    for entry in entries {
        len += entry.0.code_len() + entry.1.code_len();
    }
    len
}

/// Appends the codes of the entries. After an error a part of them may stand there.
pub fn write_entries<T: EntryField>(entries: &[(Short, T)], out: &mut Vec<u8>) -> Result<(), Memory>
    ensures { OnOk result (out.new.items ≡ out.old.items ++ entries_code T.field entries.now) }
{
    for entry in entries {
        entry.0.write(out)?;
        entry.1.write(out)?;
    }
    Ok(())
}
