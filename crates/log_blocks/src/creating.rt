// Makes the log of a new store.
ghost use Rattle.std.specs.Prelude.{◌≡◌, [], ◌∷◌, ◌++◌, OnOk, IsErr};
ghost use Rattle.disk_model.specs.Disk.{Rises, Runs, Stays, Same, In, Torn, IsSettled};
ghost use Rattle.disk_model.specs.declared.machine.FileNo.TheVariants.{LogA, LogB};
ghost use Rattle.formats.specs.Log.{header_fields, new_header, IsClosedLog};
ghost use Rattle.log_blocks.specs.Creating.{LogsAlone, IsNewLog};

use crate::LogFile;
use crate::layout::{CLOSED, HEADER_BYTES, MAGIC, OPEN};
use byteorder::{ByteOrder, LittleEndian};
use disk_model::{Failed, FileNo, Machine, write_through};

// Closes a header gate where it is open, and writes a first byte where there is none.
pub fn close<M: Machine>(machine: &mut M, file: FileNo) -> Result<(), Failed>
    ensures runs { Runs (In file (Torn 0 1)) Same (M.disk machine.old) (M.disk machine.new) }
    // A closed gate is not written.
    ensures idle { (M.disk machine.old).tells_files → IsClosedLog ((M.disk machine.old).reads file) → Stays (M.disk machine.old) (M.disk machine.new) }
    ensures closed { (M.disk machine.old).tells_files → OnOk result (IsClosedLog ((M.disk machine.new).reads file)) }
    ensures settled { IsSettled (M.disk machine.old) → OnOk result (IsSettled (M.disk machine.new)) }
    ensures cause { IsErr result → Rises (M.disk machine.old).disk_faults (M.disk machine.new).disk_faults }
{
    let mut gate = [0; 1];
    let read = machine.read(file, 0, &mut gate)?;
    if read == 0 || gate[0] == OPEN {
        write_through(machine, file, 0, &[CLOSED])?;
    }
    Ok(())
}

// What follows the header gate of a new log: the magic, epoch 1, base 1, no command before it, and a closed gate.
fn new_front() -> [u8; HEADER_BYTES]
    ensures { result ≡ header_fields new_header ++ 0 ∷ [] }
{
    let mut bytes = [CLOSED; HEADER_BYTES];
    bytes[..8].copy_from_slice(&MAGIC);
    LittleEndian::write_u64(&mut bytes[8..], 1);
    LittleEndian::write_u64(&mut bytes[16..], 1);
    bytes
}

impl LogFile {
    /// Makes log A a log with no block, and closes log B. Whenever it stops, the objects are as they were.
    #[tactic(auto, using(crate::proofs::Alone::alone_twice, crate::proofs::Alone::alone_write))]
    pub fn create<M: Machine>(machine: &mut M) -> Result<(), Failed>
        ensures runs { Runs LogsAlone Same (M.disk machine.old) (M.disk machine.new) }
        ensures made { (M.disk machine.old).tells_files → OnOk result (IsNewLog (M.disk machine.new).reads) }
        ensures settled { IsSettled (M.disk machine.old) → OnOk result (IsSettled (M.disk machine.new)) }
        ensures cause { IsErr result → Rises (M.disk machine.old).disk_faults (M.disk machine.new).disk_faults }
    {
        close(machine, FileNo::LogA)?;
        close(machine, FileNo::LogB)?;
        write_through(machine, FileNo::LogA, 1, &new_front())?;
        write_through(machine, FileNo::LogA, 0, &[OPEN])?;
        Ok(())
    }
}
