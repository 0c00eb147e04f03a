// Bytes written over those of a vector.
ghost use Rattle.std.specs.Prelude.{◌≡◌, ◌≤◌, ◌+◌, ◌-◌, ◌++◌, length, take, drop, replicate, IsOk, OnOk, OnErr, vec_capacity};
ghost use Rattle.disk_model.specs.Disk.{written_over};

use std::alloc::AllocError;

/// Writes over what is there, with zeros between the end and the offset. Out of memory, it changes nothing.
pub fn overwrite(into: &mut Vec<u8>, at: usize, bytes: &[u8]) -> Result<(), AllocError>
    ensures ok { OnOk result (into.new.items ≡ written_over at bytes.now into.old.items) }
    ensures err { OnErr result (into.new.items ≡ into.old.items) }
    ensures room { at + length bytes.now ≤ vec_capacity into.old → IsOk result }
    ensures capacity { vec_capacity into.old ≤ vec_capacity into.new }
{
    let Some(end) = at.checked_add(bytes.len()) else {
        return Err(AllocError);
    };
    lengthen(into, end, 0)?;
    copy_into(into.as_mut_slice(), at, bytes);
    Ok(())
}

/// Lengthens what is shorter than so many bytes. Out of memory, it changes nothing.
pub fn lengthen(into: &mut Vec<u8>, least: usize, byte: u8) -> Result<(), AllocError>
    ensures ok { OnOk result (into.new.items ≡ into.old.items ++ replicate (least - length into.old.items) byte) }
    ensures err { OnErr result (into.new.items ≡ into.old.items) }
    ensures room { least ≤ vec_capacity into.old → IsOk result }
    ensures capacity { vec_capacity into.old ≤ vec_capacity into.new }
{
    if into.len() < least {
        into.resize(least, byte)?;
    }
    Ok(())
}

fn copy_into(into: &mut [u8], at: usize, bytes: &[u8])
    requires { at + length bytes.now ≤ length into.old }
    ensures { into.new ≡ take at into.old ++ bytes.now ++ drop (at + length bytes.now) into.old }
{
    into[at..at + bytes.len()].copy_from_slice(bytes);
}
