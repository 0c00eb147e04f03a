ghost use Rattle.std.specs.Prelude.{◌≡◌, map};
ghost use Rattle.std.specs.List.Sorted.{IsStrictlyIncreasing};
ghost use Rattle.dirty_page_table.specs.RedoStarts.{start_or, redo_from as starts_from};

use dirty_page_table::DirtyPageTable;
use std::marker::Model;

/// Where a redo starts, and from which LSN on it applies what the records write to each object.
#[derive(Drop)]
pub struct Plan {
    pub(crate) start: u64,
    pub(crate) table: DirtyPageTable,

    // Where this is set, the objects of the table rise, so one is found by binary search.
    pub(crate) rises: bool,
}

impl Model for Plan {
    ghost use Rattle.std.specs.Prelude.{◌≡◌, true, map};
    ghost use Rattle.std.specs.List.Sorted.{IsStrictlyIncreasing};
    ghost use Rattle.analysis_pass.specs.Analysis.{PlanView};

    ghost Value = { PlanView };

    ghost view = { λ p. record { start = p.start; table = p.table } };

    ghost invariant = { λ p. p.rises ≡ true → IsStrictlyIncreasing (map (λ s. s.0) p.table.starts) };
}

impl Plan {
    /// The LSN of the first record that the redo tests.
    pub fn start(&self) -> u64
        ensures { result ≡ self.now.start }
    {
        self.start
    }

    /// The table by which the redo goes.
    pub fn table(&self) -> &DirtyPageTable
        ensures { result.now ≡ self.now.table }
    {
        &self.table
    }

    /// The LSN from which the redo applies what the records write to this object. Where the table's objects rise, as
    /// in every check of a whole log, it is found by binary search, else pair by pair.
    pub fn redo_from(&self, object: u32) -> u64
        ensures { result ≡ starts_from self.now.table object }
    {
        if self.rises {
            search(self.table.starts.as_slice(), object, self.table.next)
        } else {
            dirty_page_table::redo_from(&self.table, object)
        }
    }
}

// The number beside an object, or the other number where it has none.
fn search(starts: &[(u32, u64)], object: u32, other: u64) -> u64
    requires { IsStrictlyIncreasing (map (λ s. s.0) starts.now) }
    ensures { result ≡ start_or other starts.now object }
{
    match starts.binary_search_by_key(&object, |&(x, _)| x) {
        Ok(place) => starts[place].1,
        Err(_) => other,
    }
}
