ghost use Rattle.std.specs.Prelude.{◌≡◌, ◌<◌, ◌≤◌, ◌^◌, ℕ, Bool, All, IfOk, IsTrue, length, map};
ghost use Rattle.std.specs.List.Sorted.{IsStrictlyIncreasing};
ghost use Rattle.dirty_page_table.specs.declared.table.DirtyPageTable.{DirtyPageTable};
ghost use Rattle.dirty_page_table.specs.RedoStarts.{redo_from, AreLeastWriters};

use crate::{DirtyPageTable, Starts};
use oper_core::Memory;
use std::alloc::Global;

/// The table of these objects, each with its redo start, where the next record has this number.
pub fn take(alloc: Global, starts: &[(u32, u64)], next: u64) -> Result<DirtyPageTable, Memory>
    requires rising { IsStrictlyIncreasing (map (λ s. s.0) starts.now) }
    requires few { length starts.now < 2 ^ 32 }
    requires before { All (λ s. s.1 < next) starts.now }
    ensures next { IfOk result (λ table. table.next ≡ next) }
    ensures starts { IfOk result (λ table. table.starts ≡ starts.now) }
{
    let pairs = Vec::from_slice(alloc, starts)?;
    Ok(DirtyPageTable {
        next,
        starts: Starts::new(pairs),
    })
}

/// The number from which a redo applies what the records write to the object: its redo start in the table, or the
/// table's next LSN where it has none.
/// Of two pairs of one object it takes the first.
pub fn redo_from(table: &DirtyPageTable, object: u32) -> u64
    ensures { result ≡ redo_from table.now object }
{
    for (other, start) in table.starts.as_slice() {
        if object == *other {
            return *start;
        }
    }
    table.next
}

/// Where the redo starts are, for each object, the least number of an uninstalled operation that writes it, a redo of
/// an object starts at that number, so it leaves none of these operations out; where there is none, at the next LSN.
/// `writes n x` says that the operation n is not installed and writes the object x.
pub fn starts_at_the_least_writer()
    ensures skips_nothing { (writes : ℕ → ℕ → Bool) (table : DirtyPageTable) → AreLeastWriters writes table.starts →
        (n x : ℕ) → IsTrue (writes n x) → redo_from table x ≤ n }
    ensures written { (writes : ℕ → ℕ → Bool) (table : DirtyPageTable) → AreLeastWriters writes table.starts →
        (n x : ℕ) → IsTrue (writes n x) → IsTrue (writes (redo_from table x) x) }
    ensures unwritten { (writes : ℕ → ℕ → Bool) (table : DirtyPageTable) → AreLeastWriters writes table.starts →
        (x : ℕ) → ((n : ℕ) → IsTrue (writes n x) → ⊥) → redo_from table x ≡ table.next }
{}
