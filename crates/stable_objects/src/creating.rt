// Makes the objects file of a new store: the slots and the numbers first, the gate last.
ghost use Rattle.std.specs.Prelude.{◌≡◌, ◌<◌, ◌≤◌, ◌+◌, length, OnOk, IsErr};
ghost use Rattle.disk_model.specs.Disk.{Rises, Runs, In, Torn, Any, Same, IsSettled, LeavesOnly};
ghost use Rattle.disk_model.specs.declared.machine.FileNo.TheVariants.{Objects};
ghost use Rattle.formats.specs.Objects.{IsInRange, header_fields, number_fields, slot_place};
ghost use Rattle.stable_objects.specs.Layouts.{IsLayout, new_layout};
ghost use Rattle.stable_objects.specs.Making.{params_with, KeepsGate, KeepsFront, HasClosedSlots, HasFields, IsLaidOut, IsClosedFile, IsNewFile, IsClosedOrWhole};
ghost use Rattle.stable_objects.specs.Replacing.{IsPut};

use crate::Slots;
use crate::layout::{
    CLOSED, FIRST_SLOT, FIRST_VERSION, MAGIC, MAGIC_PLACE, NO_STORE, OPEN, SECOND_VERSION,
    SWITCH_PLACE, fits_first, gate_place, new_form, place_of,
};
use crate::replacing::head_of;
use byteorder::{ByteOrder, LittleEndian};
use disk_model::{Failed, FileNo, Machine};
use formats::{Layout, Params};
use oper_core::Bounds;

/// The three numbers, with the switch behind N.
pub fn numbers_of(params: Params) -> [u8; 12]
    ensures { result ≡ number_fields params }
{
    let mut bytes = [0; 12];
    LittleEndian::write_u32(&mut bytes, params.objects);
    bytes[SWITCH_PLACE] = u8::from(params.more);
    LittleEndian::write_u32(&mut bytes[4..], params.cap);
    LittleEndian::write_u32(&mut bytes[8..], params.limit);
    bytes
}

// The magic, the version's byte, and three numbers.
fn header_of(version: u8, params: Params) -> [u8; 20]
    ensures { result ≡ header_fields version params }
{
    let mut bytes = [0; 20];
    bytes[..7].copy_from_slice(&MAGIC);
    bytes[7] = version;
    bytes[8..].copy_from_slice(&numbers_of(params));
    bytes
}

/// Writes every slot gate closed.
pub fn close_slots<M: Machine>(machine: &mut M, layout: Layout) -> Result<(), Failed>
    requires { IsLayout layout }
    ensures runs { Runs (In Objects (KeepsFront layout.first)) Same (M.disk machine.old) (M.disk machine.new) }
    ensures closed { (M.disk machine.old).tells_files → OnOk result (HasClosedSlots layout ((M.disk machine.new).reads Objects)) }
    ensures cause { IsErr result → Rises (M.disk machine.old).disk_faults (M.disk machine.new).disk_faults }
{
    for slot in 0..2 * layout.params.objects {
        machine.write_at(FileNo::Objects, gate_place(layout, slot), &[CLOSED])?;
    }
    Ok(())
}

// Writes the magic, the version and the numbers of a new store. In versions 2 and 3 the header says that no store was
// there before.
fn write_fields<M: Machine>(machine: &mut M, params: Params) -> Result<(), Failed>
    requires { IsInRange params }
    ensures runs { Runs (In Objects KeepsGate) Same (M.disk machine.old) (M.disk machine.new) }
    ensures fields { (M.disk machine.old).tells_files → OnOk result (HasFields params ((M.disk machine.new).reads Objects)) }
    ensures slots { (M.disk machine.old).tells_files → HasClosedSlots (new_layout params) ((M.disk machine.old).reads Objects)
        → OnOk result (HasClosedSlots (new_layout params) ((M.disk machine.new).reads Objects)) }
    ensures cause { IsErr result → Rises (M.disk machine.old).disk_faults (M.disk machine.new).disk_faults }
{
    if fits_first(params) {
        machine.write_at(
            FileNo::Objects,
            MAGIC_PLACE,
            &header_of(FIRST_VERSION, params),
        )?;
        return Ok(());
    }
    let none = Params {
        objects: NO_STORE.objects,
        cap: NO_STORE.cap,
        limit: 0,
        more: NO_STORE.more,
    };
    machine.write_at(
        FileNo::Objects,
        MAGIC_PLACE,
        &header_of(SECOND_VERSION, none),
    )?;
    machine.write_at(FileNo::Objects, FIRST_SLOT, &numbers_of(params))?;
    Ok(())
}

impl Slots {
    /// Lays out the objects file of a new store with these numbers, every slot closed, and leaves its gate as it is. It
    /// fails where the device does.
    pub fn lay_out<M: Machine>(machine: &mut M, params: Params) -> Result<(), Failed>
        requires { IsInRange params }
        ensures runs { Runs (In Objects KeepsGate) Same (M.disk machine.old) (M.disk machine.new) }
        ensures laid_out { (M.disk machine.old).tells_files → OnOk result (IsLaidOut params ((M.disk machine.new).reads Objects)) }
        ensures settled { IsSettled (M.disk machine.old) → OnOk result (IsSettled (M.disk machine.new)) }
        ensures cause { IsErr result → Rises (M.disk machine.old).disk_faults (M.disk machine.new).disk_faults }
    {
        let layout = Slots::new_layout(params);
        close_slots(machine, layout)?;
        write_fields(machine, params)?;
        machine.sync(FileNo::Objects)?;
        Ok(())
    }

    /// Where the slots of a new store with these numbers stand.
    pub fn new_layout(params: Params) -> Layout
        requires { IsInRange params }
        ensures is { result ≡ new_layout params }
        ensures known { IsLayout result }
    {
        Layout {
            params,
            first: new_form(params).first,
        }
    }

    /// Writes a pair into slot 0 of an object, and opens it, in a file that is laid out and not in use yet. Nothing is
    /// synced. It fails where the device does, and takes no memory.
    pub fn put_first<M: Machine>(
        machine: &mut M,
        layout: Layout,
        object: u32,
        lsn: u64,
        bytes: &[u8],
    ) -> Result<(), Failed>
        requires layout { IsLayout layout }
        requires object { object < layout.params.objects }
        requires short { length bytes.now ≤ layout.params.cap }
        ensures runs { Runs (In Objects (Torn (slot_place layout object 0) (13 + length bytes.now))) Same (M.disk machine.old) (M.disk machine.new) }
        ensures put { (M.disk machine.old).tells_files → OnOk result (IsPut (slot_place layout object 0) lsn bytes.now ((M.disk machine.old).reads Objects) ((M.disk machine.new).reads Objects)) }
        ensures cause { IsErr result → Rises (M.disk machine.old).disk_faults (M.disk machine.new).disk_faults }
    {
        let place = place_of(layout, object, 0);
        machine.write_at(FileNo::Objects, place, &[OPEN])?;
        machine.write_at(
            FileNo::Objects,
            place + 1,
            &head_of(lsn, bytes.len() as u32),
        )?;
        machine.write_at(FileNo::Objects, place + 13, bytes)?;
        Ok(())
    }

    /// Makes the objects file of a store with these numbers, every slot closed. The gate is opened once all else is on
    /// the disk. It fails where the device does.
    pub fn create<M: Machine>(machine: &mut M, bounds: Bounds, limit: u32) -> Result<(), Failed>
        requires { IsInRange (params_with bounds limit) }
        ensures runs { Runs (In Objects Any) Same (M.disk machine.old) (M.disk machine.new) }
        ensures made { (M.disk machine.old).tells_files → OnOk result (IsNewFile (params_with bounds limit) ((M.disk machine.new).reads Objects)) }
        ensures settled { IsSettled (M.disk machine.old) → OnOk result (IsSettled (M.disk machine.new)) }

        // A crash at any moment of the call leaves the gate closed, or the whole file.
        ensures any_moment { (M.disk machine.old).tells_moments → IsSettled (M.disk machine.old) → IsClosedFile ((M.disk machine.old).reads Objects)
            → LeavesOnly (M.disk machine.old) (M.disk machine.new) (IsClosedOrWhole (M.disk machine.old) (params_with bounds limit)) }

        ensures cause { IsErr result → Rises (M.disk machine.old).disk_faults (M.disk machine.new).disk_faults }
    {
        let params = Params {
            objects: bounds.objects,
            cap: bounds.cap,
            limit,
            more: bounds.more,
        };
        Slots::lay_out(machine, params)?;
        Slots::open(machine)?;
        Ok(())
    }
}
