// What is asked of one record: whether it is right in its place, which LSN comes after it, whether it is a command.
ghost use Rattle.std.specs.Prelude.{◌≡◌, ◌≤◌, ◌+◌, ◌↔◌, ℕ, IsTrue};
ghost use Rattle.oper_core.specs.Meaning.{Meaning};
ghost use Rattle.formats.specs.Records.{next_behind, IsPlaced};
ghost use Rattle.log_records.specs.Loading.{IsStart, AreStarts};
ghost use Rattle.log_records.specs.RecordLog.{counts};

use formats::{LSN_END, Record};
use oper_core::{Bounds, Oper};

// Whether this object is from the least one on and below a number, and its redo start is from the base on and before the
// next LSN.
fn is_start(object: u32, start: u64, least: u64, objects: u32, base: u64, next: u64) -> bool
    ensures { IsTrue result ↔ IsStart objects base next least (object, start) }
{
    least <= object as u64 && object < objects && base <= start && start < next
}

// Whether these are redo starts of a checkpoint: the objects rise, and each pair is one of an object that is there.
fn are_starts(starts: &[(u32, u64)], objects: u32, base: u64, next: u64) -> bool
    ensures { IsTrue result ↔ AreStarts objects base next starts.now }
{
    let mut least = 0;
    for (object, start) in starts {
        if !is_start(*object, *start, least, objects, base, next) {
            return false;
        }
        least = *object as u64 + 1;
    }
    true
}

// Whether a record is right in its place.
pub fn is_placed<O: Oper>(record: &Record<O>, b: Bounds, base: u64, next: u64) -> bool
    ensures { IsTrue result ↔ IsPlaced (O.meaning b) base next «record».now }
{
    match record {
        Record::Command(lsn, _) | Record::Identity(lsn, _, _) => { *lsn == next && *lsn < LSN_END }
        Record::Checkpoint(table) => {
            table.next == next && are_starts(table.starts.as_slice(), b.objects, base, next)
        }
    }
}

/// The next LSN after a record that is right in its place: a checkpoint takes none.
pub fn next_behind<O: Oper>(record: &Record<O>, next: u64) -> u64
    ensures { (m : Meaning O) (base : ℕ) → IsPlaced m base next «record».now → result ≡ next_behind next «record».now }
{
    match record.lsn() {
        Some(_) => next.saturating_add(1),
        None => next,
    }
}

/// How many commands a record is: one, or none.
pub fn commands_in<O: Oper>(record: &Record<O>) -> u64
    ensures value { result ≡ counts «record».now }
    ensures few { result ≤ 1 }
    ensures fits { (m : Meaning O) (base next : ℕ) → IsPlaced m base next «record».now → next + result ≤ next_behind next «record».now }
{
    match record {
        Record::Command(_, _) => 1,
        Record::Identity(_, _, _) | Record::Checkpoint(_) => 0,
    }
}
