ghost use Rattle.std.specs.Prelude.{◌≡◌, ℕ, ◌<◌, ◌≤◌, ◌+◌, ◌^◌, ◌++◌, ◌∷◌, [], true, Some, IsTrue, OnOk, IfOk, length};
ghost use Rattle.std.specs.List.{filter};
ghost use Rattle.graph_nodes.specs.Arcs.{held_at, node_at};
ghost use Rattle.graph_nodes.specs.Named.{IsMinimal};
ghost use Rattle.graph_nodes.specs.Removed.{IsRemoved};
ghost use Rattle.write_graph.specs.Cells.{slot_access};
ghost use Rattle.write_graph.specs.Rows.{last_of, last_held};
ghost use Rattle.write_graph.specs.Listing.{is_with};
ghost use Rattle.write_graph.specs.Linked.{AreLinked, links_room};
ghost use Rattle.write_graph.specs.Firsts.{IsNextWriter};

use crate::cells::own_cell;
use crate::entry_table::Entries;
use crate::linking::{answer_all, last_held, lead_writers, wait_all};
use crate::listing::push_if;
use crate::rows::Rows;
use graph_nodes::SlotGraph;
use install_order::{Entry, arcs_left_by_a_removal, arcs_of_one_more, no_arc_is_no_edge};
use oper_core::Memory;
use std::alloc::Global;

/// How many slots there are at most.
const MOST: usize = 1 << 28;

/// The slots of the entries with the arcs between them, and by object who wrote it last and who reads that version.
#[derive(Drop)]
pub(crate) struct Links {
    pub(crate) graph: SlotGraph,
    pub(crate) rows: Rows,
}

impl Links {
    /// Links of no entries.
    pub(crate) fn new(alloc: Global) -> Self
        ensures linked { AreLinked [] result.graph result.rows }
        ensures held { result.graph.held ≡ [] }
    {
        Links {
            graph: SlotGraph::new(alloc),
            rows: Rows::new(alloc),
        }
    }

    /// Takes the memory for so many more entries. Nothing else changes, also where it is out of memory.
    pub(crate) fn make_room(&mut self, count: usize, entries: &Entries) -> Result<(), Memory>
        requires few { count ≤ 2 ^ 28 }
        requires linked { AreLinked entries.now.items self.old.graph self.old.rows }
        ensures linked { AreLinked entries.now.items self.new.graph self.new.rows }
        ensures held { self.new.graph.held ≡ self.old.graph.held }
        ensures room { OnOk result (count ≤ links_room self.new.graph self.new.rows) }
    {
        if self.graph.len() > MOST - count {
            return Err(Memory);
        }
        self.graph.make_room(count)?;
        self.rows.make_room(count)?;
        Ok(())
    }

    /// Adds the slot of an entry that comes after the earlier ones.
    pub(crate) fn add(&mut self, entry: &Entry, earlier: &Entries)
        requires linked { AreLinked earlier.now.items self.old.graph self.old.rows }
        requires room { 0 < links_room self.old.graph self.old.rows }
        ensures linked { AreLinked (earlier.now.items ++ entry.now ∷ []) self.new.graph self.new.rows }
        ensures held { self.new.graph.held ≡ self.old.graph.held ++ true ∷ [] }
        ensures room { links_room self.old.graph self.old.rows ≤ links_room self.new.graph self.new.rows + 1 }
    {
        arcs_of_one_more();
        let slot = self.graph.len() as u32;
        self.graph.add_slot();
        self.rows.add_cells();
        wait_all(slot, entry.reads.as_slice(), &mut self.rows);
        let writes = entry.writes.as_slice();
        lead_writers(slot, writes, &mut self.graph, &self.rows);
        answer_all(slot, writes, &mut self.graph, &mut self.rows);
        let _node = self.graph.node(slot);
    }

    /// Removes the node of a slot, into which no arc leads from another.
    pub(crate) fn remove(&mut self, slot: u32, entries: &Entries)
        requires linked { AreLinked entries.now.items self.old.graph self.old.rows }
        requires held { IsTrue (held_at self.old.graph.held slot) }
        requires minimal { IsMinimal self.old.graph.arcs self.old.graph.node (node_at self.old.graph.node slot) }
        ensures linked { AreLinked entries.now.items self.new.graph self.new.rows }
        ensures removed { IsRemoved self.old.graph (node_at self.old.graph.node slot) self.new.graph }
        ensures room { links_room self.new.graph self.new.rows ≡ links_room self.old.graph self.old.rows }
    {
        no_arc_is_no_edge();
        arcs_left_by_a_removal();
        self.graph.remove(slot);
        let _slots = self.graph.len();
    }

    /// The next writer of the object after the slot, which writes it.
    pub(crate) fn next_writer(&self, x: u32, slot: u32, entries: &Entries) -> Option<u32>
        requires linked { AreLinked entries.now.items self.now.graph self.now.rows }
        requires writes { IsTrue ((slot_access entries.now.items self.now.graph.held).writes slot x) }
        ensures { IsNextWriter (slot_access entries.now.items self.now.graph.held) x slot result }
    {
        let _slots = self.graph.len();
        self.graph.arc(own_cell(slot, x, entries.writes(slot)))
    }

    /// Those of the objects whose last writer is held and of one node with the slot.
    pub(crate) fn last_written(
        &self,
        alloc: Global,
        objects: &[u32],
        slot: u32,
    ) -> Result<Vec<u32>, Memory>
        requires slot { slot < length self.now.graph.node }
        requires below { (x w : ℕ) → last_of self.now.rows x ≡ Some w → w < length self.now.graph.node }
        ensures { IfOk result (λ found. found.items ≡ filter (λ x. is_with self.now.graph slot (last_held self.now.graph.held self.now.rows x)) objects.now) }
    {
        let mut found = Vec::new(alloc);
        for x in objects {
            push_if(*x, self.is_last_in(*x, slot), &mut found)?;
        }
        Ok(found)
    }

    /// Whether the slot that wrote the object last is held and of one node with the slot.
    fn is_last_in(&self, x: u32, slot: u32) -> bool
        requires slot { slot < length self.now.graph.node }
        requires below { (w : ℕ) → last_of self.now.rows x ≡ Some w → w < length self.now.graph.node }
        ensures { result ≡ is_with self.now.graph slot (last_held self.now.graph.held self.now.rows x) }
    {
        let Some(w) = last_held(x, &self.graph, &self.rows) else {
            return false;
        };
        self.graph.node(w) == self.graph.node(slot)
    }
}
