// Whether bytes stand in the objects file already.
ghost use Rattle.std.specs.Prelude.{◌≡◌, ◌<◌, ◌≤◌, ◌^◌, length, IfOk, IsErr, IsTrue};
ghost use Rattle.disk_model.specs.Disk.{Rises, Stays, read_of};
ghost use Rattle.disk_model.specs.declared.machine.FileNo.TheVariants.{Objects};
ghost use Rattle.stable_objects.specs.Replacing.{IsFilled};

use crate::replacing::head_of;
use disk_model::{Failed, FileNo, Machine};

// So many bytes are compared at once.
const PIECE_BYTES: usize = 4096;

// Whether these bytes stand at a place, which are read into as many.
fn read_is<M: Machine>(
    machine: &mut M,
    place: u64,
    bytes: &[u8],
    into: &mut [u8],
) -> Result<bool, Failed>
    requires { length into.old ≡ length bytes.now }
    ensures kept { Stays (M.disk machine.old) (M.disk machine.new) }
    ensures stands { (M.disk machine.old).tells_files → IfOk result (λ same. IsTrue same →
        read_of ((M.disk machine.old).reads Objects) place (length bytes.now) ≡ bytes.now) }
    ensures cause { IsErr result → Rises (M.disk machine.old).disk_faults (M.disk machine.new).disk_faults }
{
    let read = machine.read(FileNo::Objects, place, into)?;
    Ok(read == bytes.len() && into[..] == bytes[..])
}

// Whether these bytes stand at a place.
fn bytes_stand<M: Machine>(machine: &mut M, place: u64, bytes: &[u8]) -> Result<bool, Failed>
    requires place { place < 2 ^ 63 }
    requires short { length bytes.now ≤ 1048576 }
    ensures kept { Stays (M.disk machine.old) (M.disk machine.new) }
    ensures stands { (M.disk machine.old).tells_files → IfOk result (λ same. IsTrue same →
        read_of ((M.disk machine.old).reads Objects) place (length bytes.now) ≡ bytes.now) }
    ensures cause { IsErr result → Rises (M.disk machine.old).disk_faults (M.disk machine.new).disk_faults }
{
    let mut piece = [0; PIECE_BYTES];
    let mut from = 0;
    while from < bytes.len() {
        let count = PIECE_BYTES.min(bytes.len() - from);
        let wanted = &bytes[from..from + count];
        if !read_is(machine, place + from as u64, wanted, &mut piece[..count])? {
            return Ok(false);
        }
        from += count;
    }
    Ok(true)
}

/// Whether a slot holds this LSN and this value, whatever its gate is. The value is read where its LSN and
/// its length are these. No memory is taken.
pub fn is_filled<M: Machine>(
    machine: &mut M,
    place: u64,
    lsn: u64,
    value: &[u8],
) -> Result<bool, Failed>
    requires place { place < 2 ^ 62 }
    requires short { length value.now ≤ 1048576 }
    ensures kept { Stays (M.disk machine.old) (M.disk machine.new) }
    ensures filled { (M.disk machine.old).tells_files → IfOk result (λ same. IsTrue same →
        IsFilled place lsn value.now ((M.disk machine.old).reads Objects)) }
    ensures cause { IsErr result → Rises (M.disk machine.old).disk_faults (M.disk machine.new).disk_faults }
{
    if !bytes_stand(machine, place + 1, &head_of(lsn, value.len() as u32))? {
        return Ok(false);
    }
    let stands = bytes_stand(machine, place + 13, value)?;
    Ok(stands)
}
