// The objects gate: whether a store begins there, how it is closed for a new one, and how it is opened.
ghost use Rattle.std.specs.Prelude.{◌≡◌, ◌↔◌, OnOk, IfOk, IsErr, IsTrue};
ghost use Rattle.disk_model.specs.Disk.{Files, Rises, Runs, Stays, In, Torn, Same, IsSettled};
ghost use Rattle.disk_model.specs.declared.machine.FileNo.TheVariants.{Objects};
ghost use Rattle.formats.specs.Objects.{BeginsStore};
ghost use Rattle.stable_objects.specs.Making.{IsClosedFile, opened};

use crate::Slots;
use crate::layout::{CLOSED, MAGIC, OPEN};
use disk_model::{Failed, FileNo, Machine, write_through};

impl Slots {
    /// Whether the objects file begins with an open gate and the magic. It fails where the device does.
    pub fn begins<M: Machine>(machine: &mut M) -> Result<bool, Failed>
        ensures kept { Stays (M.disk machine.old) (M.disk machine.new) }
        ensures begins { (files : Files) → (M.disk machine.new).agrees files → IfOk result (λ b. IsTrue b ↔ BeginsStore (files Objects)) }
        ensures cause { IsErr result → Rises (M.disk machine.old).disk_faults (M.disk machine.new).disk_faults }
    {
        let mut start = [0; 8];
        let read = machine.read(FileNo::Objects, 0, &mut start)?;
        Ok(read == start.len() && start[0] == OPEN && start[1..] == MAGIC[..])
    }

    /// Closes the objects gate where it is open, and writes a closed one where the file is empty. It fails where the
    /// device does.
    pub fn close<M: Machine>(machine: &mut M) -> Result<(), Failed>
        ensures runs { Runs (In Objects (Torn 0 1)) Same (M.disk machine.old) (M.disk machine.new) }
        ensures closed { (M.disk machine.old).tells_files → OnOk result (IsClosedFile ((M.disk machine.new).reads Objects)) }
        ensures idle { (M.disk machine.old).tells_files → IsClosedFile ((M.disk machine.old).reads Objects) → Stays (M.disk machine.old) (M.disk machine.new) }
        ensures settled { IsSettled (M.disk machine.old) → OnOk result (IsSettled (M.disk machine.new)) }
        ensures cause { IsErr result → Rises (M.disk machine.old).disk_faults (M.disk machine.new).disk_faults }
    {
        let mut gate = [0; 1];
        let read = machine.read(FileNo::Objects, 0, &mut gate)?;
        if read == 0 || gate[0] == OPEN {
            write_through(machine, FileNo::Objects, 0, &[CLOSED])?;
        }
        Ok(())
    }

    /// Opens the objects gate, once all else is on the disk. It fails where the device does.
    pub fn open<M: Machine>(machine: &mut M) -> Result<(), Failed>
        ensures runs { Runs (In Objects (Torn 0 1)) Same (M.disk machine.old) (M.disk machine.new) }
        ensures opened { (M.disk machine.old).tells_files → OnOk result ((M.disk machine.new).reads Objects ≡ opened ((M.disk machine.old).reads Objects)) }
        ensures settled { IsSettled (M.disk machine.old) → OnOk result (IsSettled (M.disk machine.new)) }
        ensures cause { IsErr result → Rises (M.disk machine.old).disk_faults (M.disk machine.new).disk_faults }
    {
        write_through(machine, FileNo::Objects, 0, &[OPEN])?;
        Ok(())
    }
}
