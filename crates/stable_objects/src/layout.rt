// Where things stand in the objects file.
ghost use Rattle.std.specs.Prelude.{◌≡◌, ◌≤◌, ◌<◌, ◌*◌, ◌&&◌};
ghost use Rattle.formats.specs.Objects.{slot_place, first_form as version_one, second_form as version_two};
ghost use Rattle.stable_objects.specs.Layouts.{IsLayout, fits_first as has_room, new_form as form_of};
ghost use Rattle.stable_objects.specs.SlotGates.{slot_gate};

use formats::{Form, Layout, Params};
use oper_core::Bounds;

pub const OPEN: u8 = 1;

pub const CLOSED: u8 = 0;

pub const MAGIC: [u8; 7] = *b"RDOOBJ0";

pub const MAGIC_PLACE: u64 = 1;

// The byte after the magic in a file of version 1, as it is written. Every byte but that of version 2 is read so.
pub const FIRST_VERSION: u8 = b'1';

pub const SECOND_VERSION: u8 = b'2';

pub const VERSION_PLACE: u64 = 8;

// In versions 2 and 3, the bounds of the smaller store that was there before; in version 1, N and CAP.
pub const OBJECTS_PLACE: u64 = 9;

pub const CAP_PLACE: u64 = 13;

// The gate, the magic, the version, and two numbers of four bytes.
pub const HEADER_BYTES: usize = 17;

// N with the switch behind it, CAP and LIMIT.
pub const NUMBERS_BYTES: usize = 12;

// The place of the switch in them: 0 there is version 1 or 2, any other value version 3.
pub const SWITCH_PLACE: usize = 3;

// The switch, as it is written.
pub const MORE: u8 = 1;

// In version 1 the slots begin here.
pub const FIRST_SLOT: u64 = 32;

// In versions 2 and 3 the numbers have so many bytes, of which the last 20 are free.
pub const NUMBERS_ROOM: u64 = 32;

// A slot's gate, its LSN and its length.
pub const SLOT_HEAD_BYTES: u64 = 13;

pub const MIN_CAP: u32 = 16;

/// The greatest bounds of a store of version 1.
pub const FIRST_MOST: Bounds = Bounds {
    objects: 4096,
    cap: 16384,
    more: false,
};

/// The greatest bounds of a store of version 2 or 3.
pub const SECOND_MOST: Bounds = Bounds {
    objects: 65535,
    cap: 1048576,
    more: true,
};

/// No store, where a new one is made.
pub const NO_STORE: Bounds = Bounds {
    objects: 0,
    cap: 0,
    more: false,
};

// How far the limit is at least above twice CAP.
pub const LEAST_ROOM: u32 = 4096;

pub const MAX_LIMIT: u32 = 1 << 29;

/// The form of version 1.
pub fn first_form() -> Form
    ensures { result ≡ version_one }
{
    Form {
        numbers: OBJECTS_PLACE,
        first: FIRST_SLOT,
        older: NO_STORE,
        most: FIRST_MOST,
    }
}

/// The form of versions 2 and 3, behind the slots of a store of version 1 with these bounds.
pub fn second_form(older: Bounds) -> Form
    requires objects { older.objects ≤ 4096 }
    requires cap { older.cap ≤ 16384 }
    ensures { result ≡ version_two older }
{
    let numbers = FIRST_SLOT + 2 * older.objects as u64 * (SLOT_HEAD_BYTES + older.cap as u64);
    Form {
        numbers,
        first: numbers + NUMBERS_ROOM,
        older,
        most: SECOND_MOST,
    }
}

/// Whether version 1 has room for these numbers, and is enough for what the store admits.
pub fn fits_first(params: Params) -> bool
    ensures { result ≡ has_room params }
{
    params.objects <= FIRST_MOST.objects && params.cap <= FIRST_MOST.cap && !params.more
}

/// The form of a new store with these numbers: version 1 where that is enough, else version 2 or 3.
pub fn new_form(params: Params) -> Form
    ensures { result ≡ form_of params }
{
    if fits_first(params) {
        first_form()
    } else {
        second_form(NO_STORE)
    }
}

/// The place of a slot's gate. Slots are counted through the file, two for each object.
pub fn gate_place(layout: Layout, slot: u32) -> u64
    requires layout { IsLayout layout }
    requires slot { slot ≤ 2 * layout.params.objects }
    ensures { result ≡ slot_gate layout slot }
{
    layout.first + slot as u64 * (SLOT_HEAD_BYTES + layout.params.cap as u64)
}

/// The place of the gate of slot 0 or 1 of an object.
pub fn place_of(layout: Layout, object: u32, slot: u32) -> u64
    requires layout { IsLayout layout }
    requires object { object < layout.params.objects }
    requires slot { slot < 2 }
    ensures { result ≡ slot_place layout object slot }
{
    gate_place(layout, 2 * object + slot)
}
