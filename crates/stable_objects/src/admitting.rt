// A store of version 2 becomes one of version 3.
ghost use Rattle.std.specs.Prelude.{◌≡◌, false, OnOk, IsErr};
ghost use Rattle.disk_model.specs.Disk.{IsSettled, LeavesOnly, Rises, Runs, In, Same, Torn};
ghost use Rattle.disk_model.specs.declared.machine.FileNo.TheVariants.{Objects};
ghost use Rattle.stable_objects.specs.Upgrades.Admitting.{IsSecond, switch_place, with_more};
ghost use Rattle.stable_objects.specs.Upgrades.Growing.{IsGrown, IsGrowing, IsStillOrGrown};
ghost use Rattle.stable_objects.specs.SlotsView.{AreOf};

use crate::Slots;
use crate::layout::{MORE, NUMBERS_ROOM, SWITCH_PLACE};
use disk_model::{Failed, FileNo, Machine, write_through};

impl Slots {
    /// Admits the further families of operations: it writes the byte that makes the file one of version 3, and syncs. Each value
    /// of that byte is version 2 or version 3, so a crash at any moment leaves the store as it was, or one that admits them, with
    /// the same objects. It fails where the device does.
    pub fn admit_more<M: Machine>(&self, machine: &mut M) -> Result<(), Failed>
        requires second { IsSecond self.now }
        requires fewer { self.now.params.more ≡ false }
        ensures runs { Runs (In Objects (Torn (switch_place self.now) 1)) Same (M.disk machine.old) (M.disk machine.new) }
        ensures admitted { (M.disk machine.old).tells_files → AreOf self.now ((M.disk machine.old).reads Objects) →
            OnOk result (IsGrown self.now.params (with_more self.now.params) ((M.disk machine.old).reads Objects) ((M.disk machine.new).reads Objects)) }
        ensures left { (M.disk machine.old).tells_files → AreOf self.now ((M.disk machine.old).reads Objects) →
            IsStillOrGrown self.now (with_more self.now.params) ((M.disk machine.old).reads Objects) ((M.disk machine.new).reads Objects) }
        ensures settled { IsSettled (M.disk machine.old) → OnOk result (IsSettled (M.disk machine.new)) }
        ensures any_moment { (M.disk machine.old).tells_moments → IsSettled (M.disk machine.old) → AreOf self.now ((M.disk machine.old).reads Objects) →
            LeavesOnly (M.disk machine.old) (M.disk machine.new) (IsGrowing (M.disk machine.old) self.now (with_more self.now.params)) }
        ensures cause { IsErr result → Rises (M.disk machine.old).disk_faults (M.disk machine.new).disk_faults }
    {
        write_through(machine, FileNo::Objects, self.switch_place(), &[MORE])?;
        Ok(())
    }

    // The place of the byte that admits them.
    fn switch_place(&self) -> u64
        ensures { result ≡ switch_place self.now }
    {
        self.layout().first - NUMBERS_ROOM + SWITCH_PLACE as u64
    }
}
