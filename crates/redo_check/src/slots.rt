// The lines of the slots.
ghost use Rattle.std.specs.Prelude.{◌≡◌, ◌<◌, ◌≤◌, ◌++◌, ◌^◌, ◌+◌, ◌*◌, IfErr, IfOk, OnOk, length, nat_lt};
ghost use Rattle.disk_model.specs.Disk.{Files, Rises, Stays};
ghost use Rattle.disk_model.specs.Padded.{padded};
ghost use Rattle.disk_model.specs.declared.machine.FileNo.TheVariants.{Objects};
ghost use Rattle.formats.specs.Objects.{last_slot, slot_place};
ghost use Rattle.formats.specs.Reading.{FailsBy};
ghost use Rattle.redo_check.specs.Lines.{number_line};
ghost use Rattle.redo_check.specs.Slots.{has_own_lsn as lsn_fits, has_value as value_fits, open_lines, pair_lines, slot_lines, slot_of, slot_words, slots_lines};

use crate::numbers::{is_gate, long_number, short_number};
use crate::slot::{Found, Slot};
use crate::text::push_found;
use disk_model::{FileNo, Machine, read_padded};
use formats::{LSN_END, Layout, ReadErr};
use oper_core::Memory;
use std::alloc::Global;
use tool_output::push_spaced;

/// A slot's gate, its identifier and its length.
const HEAD: u64 = 13;

/// The place of a slot's gate.
fn place_of(layout: Layout, object: u32, number: u32) -> u64
    requires near { layout.first < 2 ^ 28 }
    requires cap { layout.params.cap ≤ 1048576 }
    requires object { object < 65536 }
    requires number { number < 2 }
    ensures is { result ≡ slot_place layout object number }
    ensures near { result < 2 ^ 40 }
{
    layout.first + u64::from(2 * object + number) * (HEAD + u64::from(layout.params.cap))
}

/// What the front of a slot says.
fn parse_slot(head: &[u8]) -> Slot
    requires { length head.now ≡ 13 }
    ensures { result ≡ slot_of head.now }
{
    if is_gate(head[0]) {
        Slot {
            is_open: true,
            lsn: long_number(head, 1),
            length: short_number(head, 9),
        }
    } else {
        Slot {
            is_open: false,
            lsn: 0,
            length: 0,
        }
    }
}

/// The slot at a place.
fn read_slot<M: Machine>(machine: &mut M, place: u64) -> Result<Slot, ReadErr>
    ensures kept { Stays (M.disk machine.old) (M.disk machine.new) }
    ensures read { (files : Files) → (M.disk machine.new).agrees files → IfOk result (λ slot. slot ≡ slot_of (padded (files Objects) place 13)) }
    ensures cause { IfErr result (FailsBy (Rises (M.disk machine.old).disk_faults (M.disk machine.new).disk_faults) (λ file place. ⊥)) }
{
    let mut head = [0; 13];
    read_padded(machine, FileNo::Objects, place, &mut head)?;
    Ok(parse_slot(&head))
}

fn has_own_lsn(it: Found) -> bool
    ensures { result ≡ lsn_fits it }
{
    1 <= it.slot.lsn && it.slot.lsn < LSN_END && !(it.slot.lsn == it.rival)
}

fn has_value(cap: u32, size: u64, it: Found) -> bool
    requires { it.place < 2 ^ 40 }
    ensures { result ≡ value_fits cap size it }
{
    it.slot.length <= cap
        && (it.slot.length == 0 || it.place + HEAD + u64::from(it.slot.length) <= size)
}

/// Which slot it is.
fn words_of(alloc: Global, it: Found) -> Result<Vec<u8>, Memory>
    ensures { IfOk result (λ made. made.items ≡ slot_words it) }
{
    let mut words = Vec::new(alloc);
    words.extend_from_slice(b"object")?;
    push_spaced(alloc, &mut words, u64::from(it.object))?;
    words.extend_from_slice(b" slot")?;
    push_spaced(alloc, &mut words, u64::from(it.number))?;
    words.extend_from_slice(if it.holds { b" holds" } else { b"" })?;
    Ok(words)
}

/// Which slot it is, and what of it.
fn words_about(alloc: Global, it: Found, what: &[u8]) -> Result<Vec<u8>, Memory>
    ensures { IfOk result (λ made. made.items ≡ slot_words it ++ what.now) }
{
    let mut words = words_of(alloc, it)?;
    words.extend_from_slice(what)?;
    Ok(words)
}

/// Adds a line about a slot.
fn push_about(
    alloc: Global,
    text: &mut Vec<u8>,
    it: Found,
    place: u64,
    what: &[u8],
    number: u64,
    good: bool,
) -> Result<(), Memory>
    ensures { OnOk result (text.new.items ≡ text.old.items ++ number_line Objects place (slot_words it ++ what.now) number good) }
{
    let words = words_about(alloc, it, what)?;
    push_found(
        alloc,
        text,
        FileNo::Objects,
        place,
        words.as_slice(),
        number,
        good,
    )?;
    Ok(())
}

/// Adds the lines of an open slot.
fn push_open(
    alloc: Global,
    text: &mut Vec<u8>,
    cap: u32,
    size: u64,
    it: Found,
) -> Result<(), Memory>
    requires { it.place < 2 ^ 40 }
    ensures { OnOk result (text.new.items ≡ text.old.items ++ open_lines cap size it) }
{
    push_about(
        alloc,
        text,
        it,
        it.place + 1,
        b" identifier",
        it.slot.lsn,
        has_own_lsn(it),
    )?;
    let length = u64::from(it.slot.length);
    push_about(
        alloc,
        text,
        it,
        it.place + 9,
        b" length",
        length,
        has_value(cap, size, it),
    )?;
    Ok(())
}

/// Adds the lines of a slot, where it is open.
fn push_slot(
    alloc: Global,
    text: &mut Vec<u8>,
    cap: u32,
    size: u64,
    it: Found,
) -> Result<(), Memory>
    requires { it.place < 2 ^ 40 }
    ensures { OnOk result (text.new.items ≡ text.old.items ++ slot_lines cap size it) }
{
    if !it.slot.is_open {
        return Ok(());
    }
    push_open(alloc, text, cap, size, it)?;
    Ok(())
}

/// Adds the lines of an object's slots.
fn push_pair(
    alloc: Global,
    text: &mut Vec<u8>,
    layout: Layout,
    size: u64,
    object: u32,
    first: Slot,
    second: Slot,
) -> Result<(), Memory>
    requires near { layout.first < 2 ^ 28 }
    requires cap { layout.params.cap ≤ 1048576 }
    requires object { object < 65536 }
    ensures { OnOk result (text.new.items ≡ text.old.items ++ pair_lines layout size object first second) }
{
    let one = Found {
        object,
        number: 0,
        place: place_of(layout, object, 0),
        slot: first,
        rival: 0,
        holds: second.lsn <= first.lsn,
    };
    push_slot(alloc, text, layout.params.cap, size, one)?;
    let other = Found {
        object,
        number: 1,
        place: place_of(layout, object, 1),
        slot: second,
        rival: first.lsn,
        holds: first.lsn < second.lsn,
    };
    push_slot(alloc, text, layout.params.cap, size, other)?;
    Ok(())
}

/// Reads an object's slots, and adds their lines.
fn push_object<M: Machine>(
    alloc: Global,
    machine: &mut M,
    text: &mut Vec<u8>,
    layout: Layout,
    size: u64,
    object: u32,
) -> Result<(), ReadErr>
    requires near { layout.first < 2 ^ 28 }
    requires cap { layout.params.cap ≤ 1048576 }
    requires object { object < 65536 }
    ensures kept { Stays (M.disk machine.old) (M.disk machine.new) }
    ensures text { (files : Files) → (M.disk machine.new).agrees files → OnOk result (text.new.items ≡ text.old.items ++
        pair_lines layout size object (slot_of (padded (files Objects) (slot_place layout object 0) 13)) (slot_of (padded (files Objects) (slot_place layout object 1) 13))) }
    ensures cause { IfErr result (FailsBy (Rises (M.disk machine.old).disk_faults (M.disk machine.new).disk_faults) (λ file place. ⊥)) }
{
    let first = read_slot(machine, place_of(layout, object, 0))?;
    let second = read_slot(machine, place_of(layout, object, 1))?;
    push_pair(alloc, text, layout, size, object, first, second)?;
    Ok(())
}

/// Whether the file reaches to the last slot's gate.
fn is_whole(layout: Layout, size: u64) -> bool
    requires near { layout.first < 2 ^ 28 }
    requires cap { layout.params.cap ≤ 1048576 }
    requires some { 1 ≤ layout.params.objects }
    requires few { layout.params.objects ≤ 65535 }
    ensures { result ≡ nat_lt (last_slot layout) size }
{
    place_of(layout, layout.params.objects - 1, 1) < size
}

/// Adds the line of the file's length, and those of the slots.
pub fn push_slots<M: Machine>(
    alloc: Global,
    machine: &mut M,
    text: &mut Vec<u8>,
    layout: Layout,
) -> Result<(), ReadErr>
    requires near { layout.first < 2 ^ 28 }
    requires cap { layout.params.cap ≤ 1048576 }
    requires some { 1 ≤ layout.params.objects }
    requires few { layout.params.objects ≤ 65535 }
    ensures kept { Stays (M.disk machine.old) (M.disk machine.new) }
    ensures text { (files : Files) → (M.disk machine.new).agrees files → OnOk result (text.new.items ≡ text.old.items ++ slots_lines layout (files Objects)) }
    ensures cause { IfErr result (FailsBy (Rises (M.disk machine.old).disk_faults (M.disk machine.new).disk_faults) (λ file place. ⊥)) }
{
    let file = FileNo::Objects;
    let size = machine.size(file)?;
    push_found(
        alloc,
        text,
        file,
        0,
        b"length",
        size,
        is_whole(layout, size),
    )?;
    for object in 0..layout.params.objects {
        push_object(alloc, machine, text, layout, size, object)?;
    }
    Ok(())
}
