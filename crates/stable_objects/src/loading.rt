// Reads and checks the header and the numbers, and loads the slots.
ghost use Rattle.std.specs.Prelude.{◌≡◌, ◌≢◌, length, IfOk, IfErr, IsErrOf};
ghost use Rattle.disk_model.specs.Disk.{Files, Rises, Stays};
ghost use Rattle.disk_model.specs.declared.machine.FileNo.TheVariants.{Objects};
ghost use Rattle.formats.specs.Bytes.{IsOpenAt, IsClosedAt};
ghost use Rattle.formats.specs.FirstFault.{NoMore, HeadChecks, NumberChecks};
ghost use Rattle.formats.specs.Objects.{IsInRange, IsInForm, IsObjectsFile, params_at};
ghost use Rattle.formats.specs.Reading.{FailsBy};
ghost use Rattle.formats.specs.declared.params.Params.{Params as Numbers};
ghost use Rattle.stable_objects.specs.Layouts.{IsForm, IsLayout};
ghost use Rattle.stable_objects.specs.SlotsView.{AreOf};
ghost use Rattle.stable_objects.specs.Reading.{FailsAt, HasForm, HasHeader, IsDamagedAt, IsNoDamage, OpensNot};

use crate::damage::damaged_at;
use crate::heads::read_heads;
use crate::layout::{
    CAP_PLACE, FIRST_MOST, HEADER_BYTES, LEAST_ROOM, MAGIC, MAGIC_PLACE, MAX_LIMIT, MIN_CAP,
    NUMBERS_BYTES, OBJECTS_PLACE, OPEN, SECOND_VERSION, SWITCH_PLACE, first_form, gate_place,
    second_form,
};
use crate::{OpenErr, Slots};
use byteorder::{ByteOrder, LittleEndian};
use disk_model::{FileNo, Machine, read_padded};
use formats::{Form, Layout, Params, ReadErr};
use oper_core::Bounds;
use std::alloc::Global;

// The form of a file whose header has these bytes.
fn parse_header(head: &[u8]) -> Result<Form, ReadErr>
    requires long { length head.now ≡ 17 }
    ensures ok { IfOk result (HasForm head.now) }
    ensures cause { IfErr result (FailsBy ⊥ (FailsAt (HeadChecks head.now NoMore))) }
    ensures no_memory { IfErr result (λ e. e ≢ ReadErr.Memory) }
{
    if head[1..8] != MAGIC[..] {
        return Err(damaged_at(MAGIC_PLACE));
    }
    if head[8] != SECOND_VERSION {
        return Ok(first_form());
    }
    let objects = LittleEndian::read_u32(&head[9..]);
    if objects > FIRST_MOST.objects {
        return Err(damaged_at(OBJECTS_PLACE));
    }
    let cap = LittleEndian::read_u32(&head[13..]);
    if cap > FIRST_MOST.cap {
        return Err(damaged_at(CAP_PLACE));
    }
    Ok(second_form(Bounds {
        objects,
        cap,
        more: false,
    }))
}

// The numbers in these bytes, which stand in a file of this form.
fn parse_numbers(bytes: &[u8], form: Form) -> Result<Params, ReadErr>
    requires long { length bytes.now ≡ 12 }
    requires form { IsForm form }
    ensures ok { IfOk result (λ p. (p ≡ params_at 0 bytes.now) × IsInRange p × IsInForm form p) }
    ensures cause { IfErr result (FailsBy ⊥ (FailsAt (NumberChecks form (params_at 0 bytes.now) NoMore))) }
    ensures no_memory { IfErr result (λ e. e ≢ ReadErr.Memory) }
{
    let objects = LittleEndian::read_u24(bytes);
    let more = bytes[SWITCH_PLACE] > 0;
    if objects == 0
        || objects > form.most.objects
        || objects < form.older.objects
        || (more && !form.most.more)
    {
        return Err(damaged_at(form.numbers));
    }
    let cap = LittleEndian::read_u32(&bytes[4..]);
    if cap < MIN_CAP || cap > form.most.cap || cap < form.older.cap {
        return Err(damaged_at(form.numbers + 4));
    }
    let limit = LittleEndian::read_u32(&bytes[8..]);
    if limit < 2 * cap + LEAST_ROOM || limit > MAX_LIMIT {
        return Err(damaged_at(form.numbers + 8));
    }
    Ok(Params {
        objects,
        cap,
        limit,
        more,
    })
}

// The form of the file.
fn read_form<M: Machine>(machine: &mut M) -> Result<Form, OpenErr>
    ensures kept { Stays (M.disk machine.old) (M.disk machine.new) }
    ensures known { IfOk result IsForm }
    ensures read { (files : Files) → (M.disk machine.new).agrees files → IfOk result (λ form. IsOpenAt 0 (files Objects) × HasForm (files Objects) form) }
    ensures cause { IfErr result (OpensNot ((files : Files) → (M.disk machine.new).agrees files → IsClosedAt 0 (files Objects))
        (FailsBy (Rises (M.disk machine.old).disk_faults (M.disk machine.new).disk_faults)
        (FailsAt (λ place. (files : Files) → (M.disk machine.new).agrees files → IsDamagedAt (files Objects) place)))) }
    ensures no_memory { IfErr result (λ e. e ≢ OpenErr.Memory) }
{
    let mut head = [0; HEADER_BYTES];
    read_padded(machine, FileNo::Objects, 0, &mut head)?;
    if head[0] != OPEN {
        return Err(OpenErr::NotAStore);
    }
    let form = parse_header(&head)?;
    Ok(form)
}

// The numbers of a file of this form.
fn read_numbers<M: Machine>(machine: &mut M, form: Form) -> Result<Params, ReadErr>
    requires { IsForm form }
    ensures kept { Stays (M.disk machine.old) (M.disk machine.new) }
    ensures in_range { IfOk result (λ p. IsInRange p × IsInForm form p) }
    ensures read { (files : Files) → (M.disk machine.new).agrees files → IfOk result (λ p. p ≡ params_at form.numbers (files Objects)) }
    ensures cause { IfErr result (FailsBy (Rises (M.disk machine.old).disk_faults (M.disk machine.new).disk_faults)
        (FailsAt (λ place. (files : Files) → (M.disk machine.new).agrees files → NumberChecks form (params_at form.numbers (files Objects)) NoMore place))) }
    ensures no_memory { IfErr result (λ e. e ≢ ReadErr.Memory) }
{
    let mut bytes = [0; NUMBERS_BYTES];
    read_padded(machine, FileNo::Objects, form.numbers, &mut bytes)?;
    let params = parse_numbers(&bytes, form)?;
    Ok(params)
}

// Where the slots stand, in a file that reaches to the last slot's gate.
fn read_layout<M: Machine>(machine: &mut M) -> Result<Layout, OpenErr>
    ensures kept { Stays (M.disk machine.old) (M.disk machine.new) }
    ensures is_layout { IfOk result IsLayout }
    ensures read { (files : Files) → (M.disk machine.new).agrees files → IfOk result (λ layout. HasHeader layout (files Objects)) }
    ensures cause { IfErr result (OpensNot ((files : Files) → (M.disk machine.new).agrees files → IsClosedAt 0 (files Objects))
        (FailsBy (Rises (M.disk machine.old).disk_faults (M.disk machine.new).disk_faults)
        (FailsAt (λ place. (files : Files) → (M.disk machine.new).agrees files → IsDamagedAt (files Objects) place)))) }
    ensures no_memory { IfErr result (λ e. e ≢ OpenErr.Memory) }
{
    let form = read_form(machine)?;
    let params = read_numbers(machine, form)?;
    let layout = Layout {
        params,
        first: form.first,
    };
    let size = machine.size(FileNo::Objects)?;
    if size <= gate_place(layout, 2 * params.objects - 1) {
        return Err(OpenErr::Damaged {
            file: FileNo::Objects,
            place: 0,
        });
    }
    Ok(layout)
}

impl Slots {
    /// The slots of the store in the objects file.
    ///
    /// It answers `NotAStore` where the objects gate is not open, `Damaged` where the file breaks its format,
    /// `DiskFault` where the device fails, and `Memory`, which comes only where the gate is open.
    pub fn load<M: Machine>(alloc: Global, machine: &mut M) -> Result<Slots, OpenErr>
        ensures kept { Stays (M.disk machine.old) (M.disk machine.new) }
        ensures read { (files : Files) → (M.disk machine.new).agrees files → IfOk result (λ s. AreOf s (files Objects)) }
        ensures cause { IfErr result (OpensNot ((files : Files) → (M.disk machine.new).agrees files → IsClosedAt 0 (files Objects))
            (FailsBy (Rises (M.disk machine.old).disk_faults (M.disk machine.new).disk_faults)
            (FailsAt (λ place. (files : Files) → (M.disk machine.new).agrees files → IsDamagedAt (files Objects) place)))) }
        ensures whole { (files : Files) → (M.disk machine.new).agrees files → (p : Numbers) → IsObjectsFile p (files Objects) → IfErr result IsNoDamage }
        ensures memory { (files : Files) → (M.disk machine.new).agrees files → IsErrOf result OpenErr.Memory → IsOpenAt 0 (files Objects) }
    {
        let layout = read_layout(machine)?;
        let size = machine.size(FileNo::Objects)?;
        let (heads, lengths) = read_heads(alloc, machine, layout, size)?;
        Ok(Slots {
            params: layout.params,
            first: layout.first,
            heads,
            lengths,
        })
    }
}
