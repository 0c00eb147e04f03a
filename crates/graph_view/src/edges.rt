ghost use Rattle.std.specs.Prelude.{◌≡◌};
ghost use Rattle.std.specs.List.{list_any};
ghost use Rattle.oper_core.specs.State.{is_among};
ghost use Rattle.install_order.specs.Entries.{reads_at, writes_at};
ghost use Rattle.install_order.specs.Tests.{is_written_between, is_written_from};
ghost use Rattle.graph_view.specs.Edges.{is_over, has_edge};

use crate::kind::Kind;
use install_order::Entry;
use oper_core::Objs;

/// Whether an edge of the kind goes from the operation of the first number to that of the second.
pub fn has_edge(kind: Kind, from: u64, to: u64, entries: &[Entry]) -> bool
    ensures { result ≡ has_edge entries.now kind from to }
{
    entries.iter().any(|e| e.lsn == to && is_over_any(kind, from, to, &e.writes, entries))
}

/// Whether such an edge goes over one of the objects, which the operation of the second number writes.
fn is_over_any(kind: Kind, from: u64, to: u64, objects: &Objs, entries: &[Entry]) -> bool
    ensures { result ≡ list_any (is_over entries.now kind from to) objects.now }
{
    objects
        .as_slice()
        .iter()
        .any(|x| is_over(kind, from, to, *x, entries))
}

/// Whether such an edge goes over the object, which the operation of the second number writes.
fn is_over(kind: Kind, from: u64, to: u64, x: u32, entries: &[Entry]) -> bool
    ensures { result ≡ is_over entries.now kind from to x }
{
    match kind {
        Kind::ReadWrite => from < to && reads(from, x, entries),
        Kind::WriteWrite => from < to && writes(from, x, entries),
        Kind::LostVersion => {
            to < from
                && reads(from, x, entries)
                && !is_written_between(to, from, x, entries)
                && is_written_from(from, x, entries)
        }
    }
}

/// Whether the operation of this number reads the object.
fn reads(n: u64, x: u32, entries: &[Entry]) -> bool
    ensures { result ≡ reads_at entries.now n x }
{
    entries.iter().any(|e| e.lsn == n && has(&e.reads, x))
}

/// Whether the operation of this number writes the object.
fn writes(n: u64, x: u32, entries: &[Entry]) -> bool
    ensures { result ≡ writes_at entries.now n x }
{
    entries.iter().any(|e| e.lsn == n && has(&e.writes, x))
}

/// Whether an operation strictly between the two numbers writes the object.
fn is_written_between(low: u64, high: u64, x: u32, entries: &[Entry]) -> bool
    ensures { result ≡ is_written_between entries.now low high x }
{
    entries
        .iter()
        .any(|e| low < e.lsn && e.lsn < high && has(&e.writes, x))
}

/// Whether an operation at the number or after it writes the object.
fn is_written_from(low: u64, x: u32, entries: &[Entry]) -> bool
    ensures { result ≡ is_written_from entries.now low x }
{
    entries.iter().any(|e| low <= e.lsn && has(&e.writes, x))
}

/// Whether the object is one of them.
fn has(objects: &Objs, x: u32) -> bool
    ensures { result ≡ is_among x objects.now }
{
    objects.as_slice().iter().any(|y| x == *y)
}
