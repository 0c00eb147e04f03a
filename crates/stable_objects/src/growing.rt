// A store of version 1 becomes a larger one: its pairs are moved, one value at a time.
ghost use Rattle.std.specs.Prelude.{◌<◌, ◌+◌, ℕ, List, OnOk, IfErr};
ghost use Rattle.disk_model.specs.Disk.{Runs, Stays, In, Any, Same, IsSettled, LeavesOnly};
ghost use Rattle.disk_model.specs.declared.machine.FileNo.TheVariants.{Objects};
ghost use Rattle.formats.specs.Objects.{IsInRange};
ghost use Rattle.stable_objects.specs.Upgrades.Filling.{IsFilledTo};
ghost use Rattle.stable_objects.specs.Upgrades.Growing.{GrowsNot, IsGrown, IsGrowing, IsStillOrGrown, MovesNot, pair_before};
ghost use Rattle.stable_objects.specs.Upgrades.Larger.{IsFirst, IsLarger, IsStill, HasLastHead, end_of_slots, seconded};
ghost use Rattle.stable_objects.specs.Making.{KeepsFront};
ghost use Rattle.stable_objects.specs.SlotsView.{AreOf};

use crate::Slots;
use crate::damage::damaged_at;
use crate::layout::{SLOT_HEAD_BYTES, gate_place};
use disk_model::{FileNo, Machine};
use formats::{Params, ReadErr};
use std::alloc::Global;

impl Slots {
    // Sees that the last slot's head stands in the file, if the slot is open. A write behind a head that is cut could
    // change it.
    fn find_last_head<M: Machine>(&self, machine: &mut M) -> Result<(), ReadErr>
        ensures kept { Stays (M.disk machine.old) (M.disk machine.new) }
        ensures whole { (M.disk machine.old).tells_files → AreOf self.now ((M.disk machine.old).reads Objects) →
            OnOk result (HasLastHead self.now ((M.disk machine.old).reads Objects)) }
        ensures cause { IfErr result (GrowsNot (M.disk machine.old) (M.disk machine.new) self.now) }
    {
        let last = self.heads.len() - 1;
        if self.heads[last] == 0 {
            return Ok(());
        }
        let place = gate_place(self.layout(), last as u32);
        if machine.size(FileNo::Objects)? < place + SLOT_HEAD_BYTES {
            return Err(damaged_at(place + 9));
        }
        Ok(())
    }

    // Moves the pair of an object into the larger store that is laid out behind the slots.
    fn move_pair<M: Machine>(
        &self,
        machine: &mut M,
        params: Params,
        object: u32,
        value: &mut Vec<u8>,
    ) -> Result<(), ReadErr>
        requires first { IsFirst self.now }
        requires larger { IsLarger self.now.params params }
        requires in_range { IsInRange params }
        requires object { object < self.now.params.objects }
        ensures runs { Runs (In Objects (KeepsFront (end_of_slots self.now))) Same (M.disk machine.old) (M.disk machine.new) }
        ensures moved { (M.disk machine.old).tells_files → (start : List ℕ) → IsStill self.now start ((M.disk machine.old).reads Objects) →
            IsFilledTo params object (pair_before self.now.params start) (seconded ((M.disk machine.old).reads Objects)) →
            OnOk result (IsFilledTo params (object + 1) (pair_before self.now.params start) (seconded ((M.disk machine.new).reads Objects))) }
        ensures cause { IfErr result (MovesNot (M.disk machine.old) (M.disk machine.new) self.now) }
    {
        let lsn = self.read(machine, object, value)?;
        if lsn == 0 {
            return Ok(());
        }
        Slots::put_first(machine, self.larger_layout(params), object, lsn, value)?;
        Ok(())
    }

    // Moves the pairs of all objects.
    fn move_pairs<M: Machine>(
        &self,
        alloc: Global,
        machine: &mut M,
        params: Params,
    ) -> Result<(), ReadErr>
        requires first { IsFirst self.now }
        requires larger { IsLarger self.now.params params }
        requires in_range { IsInRange params }
        ensures runs { Runs (In Objects (KeepsFront (end_of_slots self.now))) Same (M.disk machine.old) (M.disk machine.new) }
        ensures moved { (M.disk machine.old).tells_files → (start : List ℕ) → IsStill self.now start ((M.disk machine.old).reads Objects) →
            HasLastHead self.now ((M.disk machine.old).reads Objects) →
            IsFilledTo params 0 (pair_before self.now.params start) (seconded ((M.disk machine.old).reads Objects)) →
            OnOk result (IsFilledTo params self.now.params.objects (pair_before self.now.params start) (seconded ((M.disk machine.new).reads Objects))) }
        ensures cause { IfErr result (MovesNot (M.disk machine.old) (M.disk machine.new) self.now) }
    {
        let mut value = Vec::new(alloc);
        for object in 0..self.params.objects {
            self.move_pair(machine, params, object, &mut value)?;
        }
        Ok(())
    }

    /// Makes the store one of version 2 or 3 with these numbers, in place: it lays out the larger store behind the slots, moves
    /// the pair of each object, syncs, and then writes the version. A crash at any moment leaves the store as it was, or
    /// the larger one. It moves one value at a time.
    ///
    /// It answers `Damaged`, with the place of the last slot's length, where that slot is open and the file ends within its
    /// head, `DiskFault` where the device fails, and `Memory`.
    pub fn grow<M: Machine>(
        &self,
        alloc: Global,
        machine: &mut M,
        params: Params,
    ) -> Result<(), ReadErr>
        requires first { IsFirst self.now }
        requires larger { IsLarger self.now.params params }
        requires in_range { IsInRange params }
        ensures runs { Runs (In Objects Any) Same (M.disk machine.old) (M.disk machine.new) }
        ensures grown { (M.disk machine.old).tells_files → AreOf self.now ((M.disk machine.old).reads Objects) →
            OnOk result (IsGrown self.now.params params ((M.disk machine.old).reads Objects) ((M.disk machine.new).reads Objects)) }
        ensures left { (M.disk machine.old).tells_files → AreOf self.now ((M.disk machine.old).reads Objects) →
            IsStillOrGrown self.now params ((M.disk machine.old).reads Objects) ((M.disk machine.new).reads Objects) }
        ensures settled { IsSettled (M.disk machine.old) → OnOk result (IsSettled (M.disk machine.new)) }
        ensures any_moment { (M.disk machine.old).tells_moments → IsSettled (M.disk machine.old) → AreOf self.now ((M.disk machine.old).reads Objects) →
            LeavesOnly (M.disk machine.old) (M.disk machine.new) (IsGrowing (M.disk machine.old) self.now params) }
        ensures cause { IfErr result (GrowsNot (M.disk machine.old) (M.disk machine.new) self.now) }
    {
        self.find_last_head(machine)?;
        self.lay_out_larger(machine, params)?;
        self.move_pairs(alloc, machine, params)?;
        machine.sync(FileNo::Objects)?;
        Slots::become_second(machine)?;
        Ok(())
    }
}
