// The slots of a store are read, past the cache.
ghost use Rattle.std.specs.Prelude.{◌≡◌, ◌<◌, ◌≤◌, false, length, IfErr, IfOk, OnOk};
ghost use Rattle.disk_model.specs.Disk.{Rises};
ghost use Rattle.disk_model.specs.declared.machine.FileNo.TheVariants.{Objects as ObjectsFile};
ghost use Rattle.formats.specs.Objects.{cell_of};
ghost use Rattle.formats.specs.Reading.{FailsBy};
ghost use Rattle.running_store.specs.Calls.Faults.{has_failed, is_read_fault};
ghost use Rattle.running_store.specs.Laid.{IsLaidOn};
ghost use Rattle.running_store.specs.Calls.LogReads.{IsLogRead};
ghost use Rattle.running_store.specs.Laid.LongSlot.{IsLongSlot};
ghost use Rattle.running_store.specs.StoreView.{store_params};

use crate::fault::note;
use crate::store::Store;
use disk_model::Machine;
use formats::ReadErr;
use oper_core::Oper;

impl<O: Oper> Store<O> {
    /// Reads the pair that an object's slots hold, in place of what was in the vector, and answers its LSN. What is
    /// cached is left as it is.
    pub fn read_slot<M: Machine>(
        &mut self,
        machine: &mut M,
        object: u32,
        into: &mut Vec<u8>,
    ) -> Result<u64, ReadErr>
        requires unbroken { self.old.broken ≡ false }
        requires below { object < (store_params self.old).objects }
        ensures kept { IsLogRead (M.disk machine.old) (M.disk machine.new) self.old self.new (has_failed is_read_fault result) }
        ensures pair { (M.disk machine.old).tells_files → IsLaidOn self.old.parts.volatile.objects ((M.disk machine.old).reads ObjectsFile) →
            IfOk result (λ lsn. cell_of object ((M.disk machine.old).reads ObjectsFile) ≡ record { lsn = lsn; value = into.new.items }) }
        ensures short { OnOk result (length into.new.items ≤ (store_params self.old).cap) }
        ensures cause { IfErr result (FailsBy (Rises (M.disk machine.old).disk_faults (M.disk machine.new).disk_faults)
            (IsLongSlot (M.disk machine.new) self.old.parts.volatile.objects.slots object)) }
    {
        let answer = self.objects.slots().read(machine, object, into);
        note(&mut self.broken, &answer);
        answer
    }
}
