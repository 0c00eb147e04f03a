// The lines of the objects file.
ghost use Rattle.std.specs.Prelude.{◌≡◌, ◌++◌, ◌&&◌, ◌≤◌, ◌<◌, ◌^◌, IfErr, IfNone, IfOk, IfSome, IsTrue, OnOk, false, length, nat_le, true};
ghost use Rattle.disk_model.specs.Disk.{Files, Rises, Stays};
ghost use Rattle.disk_model.specs.declared.machine.FileNo.TheVariants.{Objects};
ghost use Rattle.formats.specs.Bytes.{number_at};
ghost use Rattle.formats.specs.Objects.{form_in, is_set, params_at, first_form as version_one, second_form as version_two, is_second as says_second};
ghost use Rattle.formats.specs.Reading.{FailsBy};
ghost use Rattle.oper_core.specs.Meaning.{IsSmall};
ghost use Rattle.stable_objects.specs.Layouts.{IsForm};
ghost use Rattle.redo_check.specs.Lines.{begin_lines, has_cap as cap_fits, has_count as count_fits, has_limit as limit_fits, head_lines, is_placed, numbers_lines, older_lines};
ghost use Rattle.redo_check.specs.Files.{behind_lines, bounds_after, bounds_said, objects_lines, version_of};

use crate::numbers::{has_magic, is_gate, short_number};
use crate::slots::push_slots;
use crate::text::{push_found, push_line};
use byteorder::{ByteOrder, LittleEndian};
use disk_model::{FileNo, Machine, read_padded};
use formats::{Form, Layout, Params, ReadErr};
use oper_core::{Bounds, Memory};
use std::alloc::Global;

/// The gate, the magic, the version, and two numbers of four bytes.
const HEAD: usize = 17;

/// The byte of versions 2 and 3.
const SECOND: u8 = b'2';

/// The greatest bounds of a store of version 1, and of versions 2 and 3.
const FIRST_MOST: Bounds = Bounds {
    objects: 4096,
    cap: 16384,
    more: false,
};

const SECOND_MOST: Bounds = Bounds {
    objects: 65535,
    cap: 1048576,
    more: true,
};

/// Whether the header says version 2 or 3.
fn is_second(head: &[u8]) -> bool
    requires { length head.now ≡ 17 }
    ensures { result ≡ says_second head.now }
{
    head[8] == SECOND
}

/// Adds the lines of the gate, the magic and the version.
fn push_begin(alloc: Global, text: &mut Vec<u8>, head: &[u8], version: u64) -> Result<(), Memory>
    requires { length head.now ≡ 17 }
    ensures { OnOk result (text.new.items ≡ text.old.items ++ begin_lines version head.now) }
{
    let file = FileNo::Objects;
    push_found(
        alloc,
        text,
        file,
        0,
        b"gate",
        u64::from(head[0]),
        is_gate(head[0]),
    )?;
    push_line(alloc, text, file, 1, b"magic", has_magic(head, b"RDOOBJ0"))?;
    push_found(alloc, text, file, 8, b"version", version, true)?;
    Ok(())
}

/// Whether a number is at most so great.
fn is_at_most(number: u32, most: u32) -> bool
    ensures { result ≡ nat_le number most }
{
    number <= most
}

/// Adds the lines of the smaller store that was there before.
fn push_older(alloc: Global, text: &mut Vec<u8>, head: &[u8]) -> Result<(), Memory>
    requires { length head.now ≡ 17 }
    ensures { OnOk result (text.new.items ≡ text.old.items ++ older_lines head.now) }
{
    let file = FileNo::Objects;
    let objects = short_number(head, 9);
    let few = is_at_most(objects, FIRST_MOST.objects);
    push_found(alloc, text, file, 9, b"old N", u64::from(objects), few)?;
    let cap = short_number(head, 13);
    let short = is_at_most(cap, FIRST_MOST.cap);
    push_found(alloc, text, file, 13, b"old CAP", u64::from(cap), short)?;
    Ok(())
}

/// Adds the lines of the header of a file of this version.
fn push_head(alloc: Global, text: &mut Vec<u8>, head: &[u8], version: u64) -> Result<(), Memory>
    requires { length head.now ≡ 17 }
    ensures { OnOk result (text.new.items ≡ text.old.items ++ head_lines version head.now) }
{
    push_begin(alloc, text, head, version)?;
    if !is_second(head) {
        return Ok(());
    }
    push_older(alloc, text, head)?;
    Ok(())
}

fn first_form() -> Form
    ensures { result ≡ version_one }
{
    Form {
        numbers: 9,
        first: 32,
        older: Bounds {
            objects: 0,
            cap: 0,
            more: false,
        },
        most: FIRST_MOST,
    }
}

fn second_form(older: Bounds) -> Form
    requires objects { older.objects ≤ 4096 }
    requires cap { older.cap ≤ 16384 }
    ensures { result ≡ version_two older }
{
    let numbers = 32 + 2 * u64::from(older.objects) * (13 + u64::from(older.cap));
    Form {
        numbers,
        first: numbers + 32,
        older,
        most: SECOND_MOST,
    }
}

/// Whether a store of version 1 may have these bounds.
fn is_older(older: Bounds) -> bool
    ensures is { result ≡ (nat_le older.objects 4096 && nat_le older.cap 16384) }
    ensures within { IsTrue result → (older.objects ≤ 4096) × (older.cap ≤ 16384) }
{
    older.objects <= FIRST_MOST.objects && older.cap <= FIRST_MOST.cap
}

/// The bounds of the smaller store that was there before, as versions 2 and 3 have them.
fn older_of(head: &[u8]) -> Bounds
    requires { length head.now ≡ 17 }
    ensures { result ≡ record { objects = number_at 4 9 head.now; cap = number_at 4 13 head.now; more = false } }
{
    Bounds {
        objects: short_number(head, 9),
        cap: short_number(head, 13),
        more: false,
    }
}

/// Where things stand in a file of version 2 or 3; none where the header does not say it.
fn larger_form(head: &[u8]) -> Option<Form>
    requires long { length head.now ≡ 17 }
    requires second { says_second head.now ≡ true }
    ensures some { IfSome result (λ form. (form ≡ form_in head.now) × IsForm form × (is_placed head.now ≡ true)) }
    ensures none { IfNone result (is_placed head.now ≡ false) }
{
    let older = older_of(head);
    if is_older(older) {
        return Some(second_form(older));
    }
    None
}

/// Where things stand in the file; none where the header does not say it.
fn form_of(head: &[u8]) -> Option<Form>
    requires { length head.now ≡ 17 }
    ensures some { IfSome result (λ form. (form ≡ form_in head.now) × IsForm form × (is_placed head.now ≡ true)) }
    ensures none { IfNone result (is_placed head.now ≡ false) }
{
    if is_second(head) {
        return larger_form(head);
    }
    Some(first_form())
}

/// Whether the switch of the numbers at this place is set.
fn read_switch<M: Machine>(machine: &mut M, numbers: u64) -> Result<bool, ReadErr>
    requires { numbers < 2 ^ 28 }
    ensures kept { Stays (M.disk machine.old) (M.disk machine.new) }
    ensures read { (files : Files) → (M.disk machine.new).agrees files → IfOk result (λ set. set ≡ is_set numbers (files Objects)) }
    ensures cause { IfErr result (FailsBy (Rises (M.disk machine.old).disk_faults (M.disk machine.new).disk_faults) (λ file place. ⊥)) }
{
    let mut switch = [0; 1];
    read_padded(machine, FileNo::Objects, numbers + 3, &mut switch)?;
    Ok(switch[0] > 0)
}

/// The version of the file, by its header and the switch beside N.
fn read_version<M: Machine>(machine: &mut M, head: &[u8]) -> Result<u64, ReadErr>
    requires { length head.now ≡ 17 }
    ensures kept { Stays (M.disk machine.old) (M.disk machine.new) }
    ensures read { (files : Files) → (M.disk machine.new).agrees files → IfOk result (λ version. version ≡ version_of head.now (files Objects)) }
    ensures cause { IfErr result (FailsBy (Rises (M.disk machine.old).disk_faults (M.disk machine.new).disk_faults) (λ file place. ⊥)) }
{
    if !is_second(head) {
        return Ok(1);
    }
    let Some(form) = larger_form(head) else {
        return Ok(2);
    };
    let set = read_switch(machine, form.numbers)?;
    if set { Ok(3) } else { Ok(2) }
}

fn has_count(form: Form, p: Params) -> bool
    ensures is { result ≡ count_fits form p }
    ensures within { IsTrue result → (1 ≤ p.objects) × (p.objects ≤ form.most.objects) }
{
    1 <= p.objects
        && p.objects <= form.most.objects
        && form.older.objects <= p.objects
        && (form.most.more || !p.more)
}

fn has_cap(form: Form, p: Params) -> bool
    ensures is { result ≡ cap_fits form p }
    ensures within { IsTrue result → p.cap ≤ form.most.cap }
{
    16 <= p.cap && p.cap <= form.most.cap && form.older.cap <= p.cap
}

fn has_limit(p: Params) -> bool
    ensures { result ≡ limit_fits p }
{
    2 * u64::from(p.cap) + 4096 <= u64::from(p.limit) && p.limit <= 1 << 29
}

/// Whether N and CAP are within their ranges, and so say where the slots stand.
fn are_bounds(form: Form, p: Params) -> bool
    requires { IsForm form }
    ensures is { result ≡ (count_fits form p && cap_fits form p) }
    ensures within { IsTrue result → (1 ≤ p.objects) × (p.objects ≤ 65535) × (p.cap ≤ 1048576) }
{
    has_count(form, p) && has_cap(form, p)
}

/// The numbers of the store, in 12 bytes.
fn params_of(bytes: &[u8]) -> Params
    requires { length bytes.now ≡ 12 }
    ensures { result ≡ params_at 0 bytes.now }
{
    Params {
        objects: LittleEndian::read_u24(bytes),
        cap: short_number(bytes, 4),
        limit: short_number(bytes, 8),
        more: bytes[3] > 0,
    }
}

/// Adds the lines of the store's numbers.
fn push_numbers(alloc: Global, text: &mut Vec<u8>, form: Form, p: Params) -> Result<(), Memory>
    requires { IsForm form }
    ensures { OnOk result (text.new.items ≡ text.old.items ++ numbers_lines form p) }
{
    let (file, place) = (FileNo::Objects, form.numbers);
    push_found(
        alloc,
        text,
        file,
        place,
        b"N",
        u64::from(p.objects),
        has_count(form, p),
    )?;
    push_found(
        alloc,
        text,
        file,
        place + 4,
        b"CAP",
        u64::from(p.cap),
        has_cap(form, p),
    )?;
    push_found(
        alloc,
        text,
        file,
        place + 8,
        b"LIMIT",
        u64::from(p.limit),
        has_limit(p),
    )?;
    Ok(())
}

/// Adds the lines of what stands behind the header: the numbers, and, where they say where the slots stand, these.
fn push_behind<M: Machine>(
    alloc: Global,
    machine: &mut M,
    text: &mut Vec<u8>,
    form: Form,
) -> Result<(), ReadErr>
    requires { IsForm form }
    ensures kept { Stays (M.disk machine.old) (M.disk machine.new) }
    ensures text { (files : Files) → (M.disk machine.new).agrees files → OnOk result (text.new.items ≡ text.old.items ++ behind_lines form (files Objects)) }
    ensures cause { IfErr result (FailsBy (Rises (M.disk machine.old).disk_faults (M.disk machine.new).disk_faults) (λ file place. ⊥)) }
{
    let mut bytes = [0; 12];
    read_padded(machine, FileNo::Objects, form.numbers, &mut bytes)?;
    let params = params_of(&bytes);
    push_numbers(alloc, text, form, params)?;
    if !are_bounds(form, params) {
        return Ok(());
    }
    let layout = Layout {
        params,
        first: form.first,
    };
    push_slots(alloc, machine, text, layout)?;
    Ok(())
}

/// The bounds of the store, by the numbers behind its header; none where they are out of their ranges.
fn bounds_behind<M: Machine>(machine: &mut M, form: Form) -> Result<Option<Bounds>, ReadErr>
    requires { IsForm form }
    ensures kept { Stays (M.disk machine.old) (M.disk machine.new) }
    ensures small { IfOk result (λ found. IfSome found IsSmall) }
    ensures read { (files : Files) → (M.disk machine.new).agrees files → IfOk result (λ found. found ≡ bounds_after form (files Objects)) }
    ensures cause { IfErr result (FailsBy (Rises (M.disk machine.old).disk_faults (M.disk machine.new).disk_faults) (λ file place. ⊥)) }
{
    let mut bytes = [0; 12];
    read_padded(machine, FileNo::Objects, form.numbers, &mut bytes)?;
    let params = params_of(&bytes);
    if !are_bounds(form, params) {
        return Ok(None);
    }
    Ok(Some(Bounds {
        objects: params.objects,
        cap: params.cap,
        more: params.more,
    }))
}

/// The bounds of the store, by its header; none where that does not say them.
pub fn read_bounds<M: Machine>(machine: &mut M) -> Result<Option<Bounds>, ReadErr>
    ensures kept { Stays (M.disk machine.old) (M.disk machine.new) }
    ensures small { IfOk result (λ found. IfSome found IsSmall) }
    ensures read { (files : Files) → (M.disk machine.new).agrees files → IfOk result (λ found. found ≡ bounds_said (files Objects)) }
    ensures cause { IfErr result (FailsBy (Rises (M.disk machine.old).disk_faults (M.disk machine.new).disk_faults) (λ file place. ⊥)) }
{
    let mut head = [0; HEAD];
    read_padded(machine, FileNo::Objects, 0, &mut head)?;
    let Some(form) = form_of(&head) else {
        return Ok(None);
    };
    let found = bounds_behind(machine, form)?;
    Ok(found)
}

/// Adds the lines of the objects file.
pub fn push_objects<M: Machine>(
    alloc: Global,
    machine: &mut M,
    text: &mut Vec<u8>,
) -> Result<(), ReadErr>
    ensures kept { Stays (M.disk machine.old) (M.disk machine.new) }
    ensures text { (files : Files) → (M.disk machine.new).agrees files → OnOk result (text.new.items ≡ text.old.items ++ objects_lines (files Objects)) }
    ensures cause { IfErr result (FailsBy (Rises (M.disk machine.old).disk_faults (M.disk machine.new).disk_faults) (λ file place. ⊥)) }
{
    let mut head = [0; HEAD];
    read_padded(machine, FileNo::Objects, 0, &mut head)?;
    let version = read_version(machine, &head)?;
    push_head(alloc, text, &head, version)?;
    let Some(form) = form_of(&head) else {
        return Ok(());
    };
    push_behind(alloc, machine, text, form)?;
    Ok(())
}
