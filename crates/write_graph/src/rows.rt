ghost use Rattle.std.specs.Prelude.{◌≡◌, ℕ, ◌<◌, ◌≤◌, ◌*◌, ◌^◌, [], length, IsTrue, OnOk, MatchOption};
ghost use Rattle.oper_core.specs.State.{is_among};
ghost use Rattle.write_graph.specs.Places.{place_in};
ghost use Rattle.write_graph.specs.RowTables.{IsRow};
ghost use Rattle.write_graph.specs.Rows.{last_cell_of, waiting_of, AreEmpty, AreSameLast, AreSameWaiting, IsLastSet, IsWaiting, IsTaken, AreCellsAdded};

use indexmap::IndexSet;
use number_lists::{PackedOption, SparseChains, push_in_room};
use oper_core::Memory;
use std::alloc::Global;
use std::marker::Model;

/// How many objects there are at most.
const MOST: usize = 1 << 32;

/// By object: the cell of its last write, and the cells of the reads that wait for its next write.
#[derive(Drop)]
pub(crate) struct Rows {
    objects: IndexSet<u32>,
    last: Vec<PackedOption>,
    waiting: SparseChains,
}

impl Model for Rows {
    ghost use Rattle.std.specs.Prelude.{◌-◌, min, length};
    ghost use Rattle.std.specs.Vec.{vec_capacity};
    ghost use Rattle.indexmap.specs.IndexSet.{spare};
    ghost use Rattle.write_graph.specs.Rows.{Rows};
    ghost use Rattle.write_graph.specs.RowTables.{rows_of, AreTables};

    ghost Value = { Rows };

    ghost view = { λ r. rows_of r.objects.keys r.last.items r.waiting (min (spare r.objects) (vec_capacity r.last - length r.last.items)) };

    ghost invariant = { λ r. AreTables r.objects.keys r.last.items r.waiting };
}

impl Rows {
    /// No last writers, and no cells.
    pub(crate) fn new(alloc: Global) -> Self
        ensures { AreEmpty result }
    {
        Rows {
            objects: IndexSet::new(alloc),
            last: Vec::new(alloc),
            waiting: SparseChains::new(alloc),
        }
    }

    /// Makes room for so many times eight more objects and cells. Nothing else changes, also where it is out of memory.
    pub(crate) fn make_room(&mut self, count: usize) -> Result<(), Memory>
        requires few { count ≤ 2 ^ 28 }
        ensures last { AreSameLast self.old self.new }
        ensures waiting { AreSameWaiting self.old self.new }
        ensures cells { self.new.cells ≡ self.old.cells }
        ensures row_room { OnOk result (8 * count ≤ self.new.row_room) }
        ensures cell_room { OnOk result (8 * count ≤ self.new.cell_room) }
    {
        let more = 8 * count;
        if self.last.len() > MOST - more {
            return Err(Memory);
        }
        self.objects.reserve(more)?;
        self.last.reserve(more)?;
        self.waiting.make_room(more, more)?;
        Ok(())
    }

    /// Adds eight cells, none of which waits.
    pub(crate) fn add_cells(&mut self)
        requires { 8 ≤ self.old.cell_room }
        ensures { AreCellsAdded self.old self.new }
    {
        self.waiting.add_items(8);
    }

    /// The cell of the last write of the object.
    pub(crate) fn last(&self, x: u32) -> Option<u32>
        ensures { result ≡ last_cell_of self.now x }
    {
        let last = self.last.as_slice();
        let row = self.find(x)?;
        last[row].get()
    }

    /// Sets the cell of the last write of the object.
    pub(crate) fn set_last(&mut self, x: u32, cell: u32)
        requires room { 0 < self.old.row_room }
        requires cell { cell < 4294967295 }
        ensures { IsLastSet self.old x cell self.new }
    {
        let row = self.row(x);
        self.last[row] = PackedOption::some(cell);
    }

    /// Lets a cell that doesn't wait yet wait for the next write of the object.
    pub(crate) fn wait(&mut self, x: u32, cell: u32)
        requires room { 0 < self.old.row_room }
        requires cell { cell < self.old.cells }
        requires free { (y : ℕ) → IsTrue (is_among cell (waiting_of self.old y)) → ⊥ }
        ensures { IsWaiting self.old x cell self.new }
    {
        let row = self.row(x);
        self.waiting.push(row as u32, cell);
    }

    /// Takes a cell that waits for the next write of the object.
    pub(crate) fn take(&mut self, x: u32) -> Option<u32>
        ensures { MatchOption result ((waiting_of self.old x ≡ []) × (self.new ≡ self.old)) (λ c. IsTaken self.old x c self.new) }
    {
        let row = self.find(x)?;
        self.waiting.pop(row as u32)
    }

    /// The row of the object, if it has one.
    fn find(&self, x: u32) -> Option<usize>
        ensures { MatchOption result (place_in x self.now.objects ≡ length self.now.objects) (λ row. (row ≡ place_in x self.now.objects) × (row < length self.now.objects)) }
    {
        self.objects.get_index_of(&x)
    }

    /// The row of the object, which is made if there is none.
    fn row(&mut self, x: u32) -> usize
        requires { 0 < self.old.row_room }
        ensures { IsRow self.old x result self.new }
    {
        let Ok((row, is_new)) = self.objects.insert_full(x) else {
            unreachable!()
        };
        if is_new {
            push_in_room(&mut self.last, PackedOption::none());
            self.waiting.add_list();
        }
        row
    }
}
