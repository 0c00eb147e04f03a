// Reads the heads of the slots.
ghost use Rattle.std.specs.Prelude.{◌≡◌, ◌<◌, ◌*◌, ◌^◌, if◌then◌else◌, nat_lt, length, IfOk, IfErr, OnOk};
ghost use Rattle.disk_model.specs.Disk.{Files, Rises, Stays};
ghost use Rattle.disk_model.specs.declared.machine.FileNo.TheVariants.{Objects};
ghost use Rattle.formats.specs.Reading.{FailsBy};
ghost use Rattle.stable_objects.specs.Heads.{ShowsFile, head_at, IsReadWhole, IsHeadFault, IsWholePair, IsPairFault, AreWholePairs, HasPairFault};
ghost use Rattle.stable_objects.specs.Layouts.{IsLayout};
ghost use Rattle.stable_objects.specs.Reading.{FailsAt};

use crate::damage::damaged_at;
use crate::layout::{OPEN, SLOT_HEAD_BYTES, place_of};
use crate::window::Window;
use byteorder::{ByteOrder, LittleEndian};
use disk_model::Machine;
use formats::{LSN_END, Layout, ReadErr};
use std::alloc::Global;

// The LSN in a slot and the length of its value, 0 and 0 where its gate is closed.
#[derive(Clone, Copy)]
struct SlotHead {
    lsn: u64,
    long: u32,
}

// The LSNs in the two slots of an object, and the length of the value that it holds.
#[derive(Clone, Copy)]
struct Pair {
    first: u64,
    second: u64,
    long: u32,
}

// What the bytes of a head say, in a file of this size.
fn parse_head(head: &[u8], cap: u32, place: u64, size: u64) -> Result<SlotHead, ReadErr>
    requires long { length head.now ≡ 13 }
    requires small { place < 2 ^ 40 }
    ensures read { IfOk result (λ found. IsReadWhole cap place size (head_at 0 head.now) found.lsn found.long) }
    ensures cause { IfErr result (FailsBy ⊥ (FailsAt (IsHeadFault cap place size (head_at 0 head.now)))) }
{
    if head[0] != OPEN {
        return Ok(SlotHead { lsn: 0, long: 0 });
    }
    let lsn = LittleEndian::read_u64(&head[1..]);
    if lsn == 0 || lsn >= LSN_END {
        return Err(damaged_at(place + 1));
    }
    let long = LittleEndian::read_u32(&head[9..]);
    if long > cap {
        return Err(damaged_at(place + 9));
    }
    if long != 0 && size < place + SLOT_HEAD_BYTES + long as u64 {
        return Err(damaged_at(place + 9));
    }
    Ok(SlotHead { lsn, long })
}

// The head of the slot at a place.
fn read_head<M: Machine>(
    machine: &mut M,
    window: &mut Window,
    cap: u32,
    place: u64,
    size: u64,
) -> Result<SlotHead, ReadErr>
    requires shows { ShowsFile (M.disk machine.old) window.old.place window.old.bytes.items }
    requires small { place < 2 ^ 40 }
    ensures shows { OnOk result (ShowsFile (M.disk machine.new) window.new.place window.new.bytes.items) }
    ensures kept { Stays (M.disk machine.old) (M.disk machine.new) }
    ensures read { (files : Files) → (M.disk machine.new).agrees files → IfOk result (λ found. IsReadWhole cap place size (head_at place (files Objects)) found.lsn found.long) }
    ensures cause { IfErr result (FailsBy (Rises (M.disk machine.old).disk_faults (M.disk machine.new).disk_faults)
        (FailsAt (λ at. (files : Files) → (M.disk machine.new).agrees files → IsHeadFault cap place size (head_at place (files Objects)) at))) }
{
    let head = window.head_at(machine, place)?;
    let found = parse_head(&head, cap, place, size)?;
    Ok(found)
}

// The length of the value of an object whose slots have these heads.
fn held_long(first: SlotHead, second: SlotHead) -> u32
    ensures { result ≡ (if nat_lt first.lsn second.lsn then second.long else first.long) }
{
    if first.lsn < second.lsn {
        second.long
    } else {
        first.long
    }
}

// The heads of the two slots of an object.
fn read_pair<M: Machine>(
    machine: &mut M,
    window: &mut Window,
    layout: Layout,
    object: u32,
    size: u64,
) -> Result<Pair, ReadErr>
    requires shows { ShowsFile (M.disk machine.old) window.old.place window.old.bytes.items }
    requires layout { IsLayout layout }
    requires object { object < layout.params.objects }
    ensures shows { OnOk result (ShowsFile (M.disk machine.new) window.new.place window.new.bytes.items) }
    ensures kept { Stays (M.disk machine.old) (M.disk machine.new) }
    ensures read { (files : Files) → (M.disk machine.new).agrees files → IfOk result (λ pair. IsWholePair layout object size (files Objects) pair.first pair.second pair.long) }
    ensures cause { IfErr result (FailsBy (Rises (M.disk machine.old).disk_faults (M.disk machine.new).disk_faults)
        (FailsAt (λ at. (files : Files) → (M.disk machine.new).agrees files → IsPairFault layout object size (files Objects) at))) }
{
    let cap = layout.params.cap;
    let first = read_head(machine, window, cap, place_of(layout, object, 0), size)?;
    let place = place_of(layout, object, 1);
    let second = read_head(machine, window, cap, place, size)?;
    if first.lsn != 0 && first.lsn == second.lsn {
        return Err(damaged_at(place + 1));
    }
    Ok(Pair {
        first: first.lsn,
        second: second.lsn,
        long: held_long(first, second),
    })
}

/// The LSNs in all slots of a file of this size, two for each object, 0 where a slot is closed, and the length of
/// each object's value.
pub fn read_heads<M: Machine>(
    alloc: Global,
    machine: &mut M,
    layout: Layout,
    size: u64,
) -> Result<(Vec<u64>, Vec<u32>), ReadErr>
    requires { IsLayout layout }
    ensures kept { Stays (M.disk machine.old) (M.disk machine.new) }
    ensures count { IfOk result (λ found. (length found.0.items ≡ 2 * layout.params.objects) × (length found.1.items ≡ layout.params.objects)) }
    ensures read { (files : Files) → (M.disk machine.new).agrees files → IfOk result (λ found. AreWholePairs layout size (files Objects) layout.params.objects found.0.items found.1.items) }
    ensures cause { IfErr result (FailsBy (Rises (M.disk machine.old).disk_faults (M.disk machine.new).disk_faults)
        (FailsAt (λ at. (files : Files) → (M.disk machine.new).agrees files → HasPairFault layout size (files Objects) at))) }
{
    let mut heads = Vec::with_capacity(alloc, 2 * layout.params.objects as usize)?;
    let mut lengths = Vec::with_capacity(alloc, layout.params.objects as usize)?;
    let mut window = Window::open(alloc, machine, layout, size)?;
    for object in 0..layout.params.objects {
        let pair = read_pair(machine, &mut window, layout, object, size)?;
        heads.push(pair.first)?;
        heads.push(pair.second)?;
        lengths.push(pair.long)?;
    }
    Ok((heads, lengths))
}
