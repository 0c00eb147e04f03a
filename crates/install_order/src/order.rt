ghost use Rattle.std.specs.Prelude.{◌≡◌, ◌↔◌, IsTrue};
ghost use Rattle.oper_core.specs.State.{is_among};
ghost use Rattle.install_order.specs.Order.{Edge, IsExposed, IsClosed};
ghost use Rattle.install_order.specs.Entries.{reads_at, writes_at, accesses, set_of};
ghost use Rattle.install_order.specs.Tests.{is_written_between, is_written_from, is_edge_at, is_edge_over, is_edge, is_read_by, is_untouched, is_in_order, is_exposed, is_closed};

use crate::Entry;

/// Whether the first of the two numbered operations has to be installed no later than the second.
pub fn edge(a: u64, b: u64, entries: &[Entry]) -> bool
    ensures { IsTrue result ↔ Edge (accesses entries.now) a b }
{
    is_edge(a, b, entries)
}

/// Whether no entry outside the installed ones accesses the object, or the first that does reads it.
pub fn exposed(x: u32, installed: &[u64], entries: &[Entry]) -> bool
    ensures { IsTrue result ↔ IsExposed (accesses entries.now) (set_of installed.now) x }
{
    is_exposed(x, installed, entries)
}

/// Whether no entry outside the installed ones accesses an object that a later installed one writes.
pub fn closed(installed: &[u64], entries: &[Entry]) -> bool
    ensures { IsTrue result ↔ IsClosed (accesses entries.now) (set_of installed.now) }
{
    is_closed(installed, entries)
}

/// The test of `edge`: some entry with the second LSN writes an object over which an edge goes.
fn is_edge(a: u64, b: u64, entries: &[Entry]) -> bool
    ensures { result ≡ is_edge entries.now a b }
{
    entries.iter().any(|e| e.lsn == b && is_edge_over(a, b, e.writes.as_slice(), entries))
}

/// Whether an edge goes over one of the objects, which the second operation writes.
fn is_edge_over(a: u64, b: u64, objects: &[u32], entries: &[Entry]) -> bool
    ensures { result ≡ is_edge_over entries.now a b objects.now }
{
    objects.iter().any(|x| is_edge_at(a, b, *x, entries))
}

/// Whether an edge goes over the object, which the second operation writes.
fn is_edge_at(a: u64, b: u64, x: u32, entries: &[Entry]) -> bool
    ensures { result ≡ is_edge_at entries.now a b x }
{
    (a < b && (reads(a, x, entries) || writes(a, x, entries)))
        || (b < a
            && reads(a, x, entries)
            && !is_written_between(b, a, x, entries)
            && is_written_from(a, x, entries))
}

/// Whether the entry of this LSN reads the object.
fn reads(n: u64, x: u32, entries: &[Entry]) -> bool
    ensures { result ≡ reads_at entries.now n x }
{
    entries.iter().any(|e| e.lsn == n && e.reads_object(x))
}

/// Whether the entry of this LSN writes the object.
fn writes(n: u64, x: u32, entries: &[Entry]) -> bool
    ensures { result ≡ writes_at entries.now n x }
{
    entries.iter().any(|e| e.lsn == n && e.writes_object(x))
}

/// Whether an entry strictly between the two numbers writes the object.
fn is_written_between(low: u64, high: u64, x: u32, entries: &[Entry]) -> bool
    ensures { result ≡ is_written_between entries.now low high x }
{
    entries
        .iter()
        .any(|e| low < e.lsn && e.lsn < high && e.writes_object(x))
}

/// Whether an entry at the LSN or after it writes the object.
fn is_written_from(low: u64, x: u32, entries: &[Entry]) -> bool
    ensures { result ≡ is_written_from entries.now low x }
{
    entries.iter().any(|e| low <= e.lsn && e.writes_object(x))
}

/// The test of `exposed`: each entry is installed, doesn't write the object, or has one at or before it that reads it.
fn is_exposed(x: u32, installed: &[u64], entries: &[Entry]) -> bool
    ensures { result ≡ is_exposed x installed.now entries.now }
{
    entries.iter().all(|p| {
        has(installed, p.lsn) || !p.writes_object(x) || is_read_by(p.lsn, x, installed, entries)
    })
}

/// Whether an entry outside the installed ones, at the LSN or before it, reads the object.
fn is_read_by(n: u64, x: u32, installed: &[u64], entries: &[Entry]) -> bool
    ensures { result ≡ is_read_by entries.now installed.now n x }
{
    entries.iter().any(|o| o.lsn <= n && !has(installed, o.lsn) && o.reads_object(x))
}

/// The test of `closed`: each entry is installed, or no later installed one writes what it accesses.
fn is_closed(installed: &[u64], entries: &[Entry]) -> bool
    ensures { result ≡ is_closed installed.now entries.now }
{
    entries.iter().all(|o| has(installed, o.lsn) || is_in_order(o, installed, entries))
}

/// Whether no installed entry after this one writes what it accesses.
fn is_in_order(entry: &Entry, installed: &[u64], entries: &[Entry]) -> bool
    ensures { result ≡ is_in_order entry.now installed.now entries.now }
{
    entries.iter().all(|p| {
        !has(installed, p.lsn) || p.lsn <= entry.lsn || is_untouched(entry, p.writes.as_slice())
    })
}

/// Whether the entry accesses none of the objects.
fn is_untouched(entry: &Entry, objects: &[u32]) -> bool
    ensures { result ≡ is_untouched entry.now objects.now }
{
    objects
        .iter()
        .all(|x| !(entry.reads_object(*x) || entry.writes_object(*x)))
}

/// Whether the LSN is one of them.
fn has(lsns: &[u64], n: u64) -> bool
    ensures { result ≡ is_among n lsns.now }
{
    lsns.iter().any(|k| n == *k)
}
