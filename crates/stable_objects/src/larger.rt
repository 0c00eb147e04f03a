// Makes a store of version 1 larger in place: its slots stay as they are until the version is written, last of all.
ghost use Rattle.std.specs.Prelude.{◌≡◌, ◌↔◌, OnOk, IsErr, IsTrue};
ghost use Rattle.disk_model.specs.Disk.{Rises, Runs, In, Torn, Same, IsSettled};
ghost use Rattle.disk_model.specs.declared.machine.FileNo.TheVariants.{Objects};
ghost use Rattle.formats.specs.Objects.{IsInRange, bounds_of, second_form as version_two};
ghost use Rattle.stable_objects.specs.Upgrades.Larger.{IsFirst, IsLarger, larger_layout, end_of_slots, seconded};
ghost use Rattle.stable_objects.specs.Layouts.{IsForm, IsLayout};
ghost use Rattle.stable_objects.specs.Making.{KeepsFront, IsNewFile};
ghost use Rattle.stable_objects.specs.SlotsView.{AreOf};

use crate::Slots;
use crate::creating::{close_slots, numbers_of};
use crate::layout::{FIRST_SLOT, SECOND_VERSION, VERSION_PLACE, second_form};
use disk_model::{Failed, FileNo, Machine, write_through};
use formats::{Form, Layout, Params};
use oper_core::Bounds;

impl Slots {
    /// Whether the file is of version 1, so that the store may be made larger.
    pub fn is_first(&self) -> bool
        ensures { IsTrue result ↔ IsFirst self.now }
    {
        self.first == FIRST_SLOT
    }

    // The form of the file once it is larger.
    fn larger_form(&self) -> Form
        requires { IsFirst self.now }
        ensures is { result ≡ version_two (bounds_of self.now.params) }
        ensures known { IsForm result }
    {
        second_form(Bounds {
            objects: self.params.objects,
            cap: self.params.cap,
            more: self.params.more,
        })
    }

    /// Where the slots of a larger store with these numbers stand, behind those of this one.
    pub fn larger_layout(&self, params: Params) -> Layout
        requires first { IsFirst self.now }
        requires in_range { IsInRange params }
        ensures is { result ≡ larger_layout self.now params }
        ensures known { IsLayout result }
    {
        Layout {
            params,
            first: self.larger_form().first,
        }
    }

    /// Lays out a larger store with these numbers behind the slots of this one, every slot closed. Nothing is synced. It
    /// fails where the device does.
    pub fn lay_out_larger<M: Machine>(&self, machine: &mut M, params: Params) -> Result<(), Failed>
        requires first { IsFirst self.now }
        requires larger { IsLarger self.now.params params }
        requires in_range { IsInRange params }
        ensures runs { Runs (In Objects (KeepsFront (end_of_slots self.now))) Same (M.disk machine.old) (M.disk machine.new) }
        ensures laid_out { (M.disk machine.old).tells_files → AreOf self.now ((M.disk machine.old).reads Objects) →
            OnOk result (IsNewFile params (seconded ((M.disk machine.new).reads Objects))) }
        ensures cause { IsErr result → Rises (M.disk machine.old).disk_faults (M.disk machine.new).disk_faults }
    {
        let numbers = self.larger_form().numbers;
        close_slots(machine, self.larger_layout(params))?;
        machine.write_at(FileNo::Objects, numbers, &numbers_of(params))?;
        Ok(())
    }

    /// Writes the version that makes the file one of the larger store, once all else is on the disk. It fails where the
    /// device does.
    pub fn become_second<M: Machine>(machine: &mut M) -> Result<(), Failed>
        ensures runs { Runs (In Objects (Torn 8 1)) Same (M.disk machine.old) (M.disk machine.new) }
        ensures written { (M.disk machine.old).tells_files → OnOk result ((M.disk machine.new).reads Objects ≡ seconded ((M.disk machine.old).reads Objects)) }
        ensures settled { IsSettled (M.disk machine.old) → OnOk result (IsSettled (M.disk machine.new)) }
        ensures cause { IsErr result → Rises (M.disk machine.old).disk_faults (M.disk machine.new).disk_faults }
    {
        write_through(machine, FileNo::Objects, VERSION_PLACE, &[SECOND_VERSION])?;
        Ok(())
    }
}
