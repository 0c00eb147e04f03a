// The plan that a table makes.
ghost use Rattle.std.specs.Prelude.{◌≡◌, IsTrue, map};
ghost use Rattle.std.specs.List.Sorted.{IsStrictlyIncreasing};
ghost use Rattle.analysis_pass.specs.Analysis.{table_or, least_start};

use crate::Plan;
use dirty_page_table::{DirtyPageTable, Starts};
use std::alloc::Global;

/// The plan of a redo that goes by this table, which is that of the log's last checkpoint; where none is given, by one that
/// starts every object at this base, the log's. The redo starts at the least of the table's next LSN and its redo starts.
pub fn analyse(alloc: Global, base: u64, last: Option<DirtyPageTable>) -> Plan
    ensures table { result.table ≡ table_or base last }
    ensures start { result.start ≡ least_start result.table.next result.table.starts }
{
    let table = match last {
        Some(table) => table,
        None => DirtyPageTable {
            next: base,
            starts: Starts::new(Vec::new(alloc)),
        },
    };
    let starts = table.starts.as_slice();
    Plan {
        start: least(table.next, starts),
        rises: rise(starts),
        table,
    }
}

// The least of a number and of the redo starts.
fn least(next: u64, starts: &[(u32, u64)]) -> u64
    ensures { result ≡ least_start next starts.now }
{
    let mut least = next;
    for (_, start) in starts {
        least = least.min(*start);
    }
    least
}

// Whether each object is above the one before it.
fn rise(starts: &[(u32, u64)]) -> bool
    ensures { IsTrue result → IsStrictlyIncreasing (map (λ s. s.0) starts.now) }
{
    starts.is_sorted_by(|(one, _), (next, _)| one < next)
}
