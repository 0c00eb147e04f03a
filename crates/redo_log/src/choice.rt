// Which records of a log are listed.
ghost use Rattle.std.specs.Prelude.{◌≡◌, ◌&&◌, ◌||◌, ◌==◌};
ghost use Rattle.std.specs.List.{list_any};
ghost use Rattle.oper_core.specs.declared.bounds.Bounds.{Bounds as Limits};
ghost use Rattle.op_codec.specs.AllOps.{all_meaning};
ghost use Rattle.redo_log.specs.Choosing.{admits, has_object, is_about, is_all, is_from, is_of_kind, is_to, number_of};

use crate::kinds::kind_of;
use formats::Record;
use op_codec::AllOps;
use oper_core::Oper;

/// What is asked of a record: its line is said where it is all of this. Where nothing is asked the lines of the header, of the
/// blocks and of the end are said too.
#[derive(Clone, Copy, Debug, PartialEq, Eq)]
pub struct Choice {
    /// Its LSN is not below this one.
    pub from: Option<u64>,
    /// Its LSN is not above this one.
    pub to: Option<u64>,
    /// It reads or writes this object.
    pub object: Option<u32>,
    /// It is of the kind that has this number.
    pub kind: Option<u8>,
}

/// Whether nothing is asked.
pub fn is_all(choice: Choice) -> bool
    ensures { result ≡ is_all choice }
{
    choice.from.is_none() && choice.to.is_none() && choice.object.is_none() && choice.kind.is_none()
}

/// The LSN of a record; of a checkpoint, the one that comes next.
fn number_of(it: &Record<AllOps>) -> u64
    ensures { result ≡ number_of it.now }
{
    match it {
        Record::Command(lsn, _) | Record::Identity(lsn, _, _) => *lsn,
        Record::Checkpoint(table) => table.next,
    }
}

/// Whether a number is not below this one, if one is asked.
fn is_from(from: Option<u64>, number: u64) -> bool
    ensures { result ≡ is_from from number }
{
    match from {
        Some(from) => from <= number,
        None => true,
    }
}

/// Whether it is not above this one, if one is asked.
fn is_to(to: Option<u64>, number: u64) -> bool
    ensures { result ≡ is_to to number }
{
    match to {
        Some(to) => number <= to,
        None => true,
    }
}

/// Whether an object is among some.
fn is_among(objects: &[u32], object: u32) -> bool
    ensures { result ≡ list_any (λ y. y == object) objects.now }
{
    objects.contains(&object)
}

fn either(one: bool, other: bool) -> bool
    ensures { result ≡ (one || other) }
{
    one || other
}

/// Whether an operation reads or writes an object.
fn touches(op: &AllOps, object: u32) -> bool
    ensures { (b : Limits) → result ≡ (list_any (λ y. y == object) ((all_meaning b).reads op.now) || list_any (λ y. y == object) ((all_meaning b).writes op.now)) }
{
    let reads = is_among(op.reads().as_slice(), object);
    let writes = is_among(op.writes().as_slice(), object);
    either(reads, writes)
}

/// Whether a record's command does, or it is an identity write of the object.
fn has_object(object: u32, it: &Record<AllOps>) -> bool
    ensures { (b : Limits) → result ≡ has_object (all_meaning b) object it.now }
{
    match it {
        Record::Command(_, op) => touches(op, object),
        Record::Identity(_, other, _) => *other == object,
        Record::Checkpoint(_) => false,
    }
}

/// The same, if an object is asked.
fn is_about(object: Option<u32>, it: &Record<AllOps>) -> bool
    ensures { (b : Limits) → result ≡ is_about (all_meaning b) object it.now }
{
    match object {
        Some(object) => has_object(object, it),
        None => true,
    }
}

/// Whether it is of this kind, if one is asked.
fn is_of_kind(kind: Option<u8>, it: &Record<AllOps>) -> bool
    ensures { result ≡ is_of_kind kind it.now }
{
    match kind {
        Some(kind) => kind_of(it) == kind,
        None => true,
    }
}

fn all_of(first: bool, second: bool, third: bool, fourth: bool) -> bool
    ensures { result ≡ (first && second && third && fourth) }
{
    first && second && third && fourth
}

/// Whether a record is all that is asked.
pub fn admits(choice: Choice, it: &Record<AllOps>) -> bool
    ensures { (b : Limits) → result ≡ admits choice (all_meaning b) it.now }
{
    let number = number_of(it);
    let from = is_from(choice.from, number);
    let to = is_to(choice.to, number);
    let about = is_about(choice.object, it);
    let of_kind = is_of_kind(choice.kind, it);
    all_of(from, to, about, of_kind)
}
