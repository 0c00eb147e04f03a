ghost use Rattle.std.specs.Prelude.{◌≡◌, ◌≤◌, ◌^◌, OnOk};
ghost use Rattle.std.specs.Vec.{vec_capacity};
ghost use Rattle.graph_nodes.specs.Kept.{IsWide};

use crate::front::Front;
use number_lists::NumberSet;
use oper_core::Memory;
use std::alloc::Global;

/// A search against the arcs, and one along them. Their tables stay from one search to the next, so that none takes memory.
#[derive(Drop)]
pub(crate) struct Searches {
    /// The nodes that were found against the arcs.
    pub(crate) found: NumberSet,
    /// The nodes that were found along the arcs.
    pub(crate) ahead: NumberSet,
    /// How far the search against the arcs has come.
    pub(crate) back: Front,
    /// The cells or the slots of the node that is looked at.
    pub(crate) cells: Vec<u32>,
}

impl Searches {
    /// Searches among no nodes.
    pub(crate) fn new(alloc: Global) -> Self
        ensures found { result.found.end ≡ 0 }
        ensures ahead { result.ahead.end ≡ 0 }
    {
        Searches {
            found: NumberSet::new(alloc),
            ahead: NumberSet::new(alloc),
            back: Front { next: 0, spent: 0 },
            cells: Vec::new(alloc),
        }
    }

    /// Takes the memory that searches among so many nodes more need, where no node has more cells than so many.
    pub(crate) fn make_room(&mut self, cells: usize, count: usize) -> Result<(), Memory>
        requires few { count ≤ 2 ^ 32 }
        ensures found { IsWide self.old.found self.new.found }
        ensures ahead { IsWide self.old.ahead self.new.ahead }
        ensures capacity { vec_capacity self.old.cells ≤ vec_capacity self.new.cells }
        ensures room { OnOk result ((count ≤ self.new.found.room) × (count ≤ self.new.ahead.room) × (cells ≤ vec_capacity self.new.cells)) }
    {
        self.found.make_room(count)?;
        self.ahead.make_room(count)?;
        self.cells.clear();
        self.cells.reserve(cells)?;
        Ok(())
    }
}
