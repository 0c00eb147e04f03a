ghost use Rattle.std.specs.Prelude.{◌≡◌, ◌<◌, ◌≤◌, ◌++◌, ◌∷◌, [], ◌↔◌, not, Bool, ℕ, All, IsTrue, IsFalse, IfOk, OnOk, IfSome, IfNone, length, map};
ghost use Rattle.std.specs.List.{filter};
ghost use Rattle.std.specs.List.Sorted.{IsStrictlyIncreasing};
ghost use Rattle.install_order.specs.Order.{Edge, flush_set_of};
ghost use Rattle.install_order.specs.Entries.{accesses};
ghost use Rattle.write_graph.specs.Objects.{IsWriter, IsWritten};
ghost use Rattle.write_graph.specs.Graph.{lsns, IsNodeNamed, NamesNode, NamesMinimal, IsLeast, Lists, IsCount, IsSingleIdentity};

use crate::entry_table::Entries;
use crate::firsts::{note_writes, pass_over, written};
use crate::links::Links;
use crate::listing::{lsns_of, slots_of, written_by};
use crate::renewing::add_held;
use crate::slot_names::slots_name_nodes;
use indexmap::IndexMap;
use install_order::{Entry, nodes_stand_for_nodes};
use oper_core::Memory;
use std::alloc::Global;
use std::marker::Model;
use std::mem;

/// How many more slots may be left of entries that were taken out than there are held ones.
const SPARE: usize = 16;

/// For how many entries memory is taken at a time.
const BATCH: usize = 16;

/// How many objects an entry writes at most.
const WRITES: usize = 4;

/// A node's name: the least LSN of an entry in it.
pub type NodeNo = u64;

/// The logged operations that are not installed, which contracts see as the list of their entries, whose LSNs rise.
#[derive(Drop)]
pub struct WriteGraph {
    alloc: Global,
    /// By slot, the entries, also those that were taken out: of these, the LSNs may be lowered.
    entries: Entries,
    links: Links,
    /// By object that a held entry writes, the slot of the first that does.
    firsts: IndexMap<u32, u32>,
    /// How many of the slots are held.
    held: usize,
    /// The slots of a node that is taken out.
    members: Vec<u32>,
    /// For how many more entries there is memory.
    room: usize,
}

impl Model for WriteGraph {
    ghost use Rattle.std.specs.Prelude.{◌≡◌, nat_eq, length};
    ghost use Rattle.std.specs.Vec.{vec_capacity};
    ghost use Rattle.indexmap.specs.IndexMap.{get, spare};
    ghost use Rattle.write_graph.specs.Graph.{Graph, lsns};
    ghost use Rattle.write_graph.specs.Cells.{slot_access, held_entries};
    ghost use Rattle.write_graph.specs.Linked.{AreLinked, HasRoom, links_room};
    ghost use Rattle.write_graph.specs.Firsts.{AreFirsts};
    ghost use Rattle.write_graph.specs.Naming.{AreClimbing};

    ghost Value = { Graph };

    ghost view = { λ g. record {
      entries = held_entries g.links.graph.held g.entries.items;
      room = g.room;
    } };

    ghost invariant = { λ g. AreClimbing g.links.graph.held (lsns g.entries.items) × AreLinked g.entries.items g.links.graph g.links.rows ×
        (g.held ≡ length (held_entries g.links.graph.held g.entries.items)) ×
        HasRoom g.room (length g.entries.items) (links_room g.links.graph g.links.rows) g.entries.room (spare g.firsts) (vec_capacity g.members) × AreFirsts (slot_access g.entries.items g.links.graph.held) (get nat_eq g.firsts) };
}

impl WriteGraph {
    /// A graph without entries.
    pub fn new(alloc: Global) -> Result<Self, Memory>
        ensures { IfOk result (λ graph. graph.entries ≡ []) }
    {
        Ok(WriteGraph {
            alloc,
            entries: Entries::new(alloc),
            links: Links::new(alloc),
            firsts: IndexMap::new(alloc),
            held: 0,
            members: Vec::new(alloc),
            room: 0,
        })
    }

    /// Takes the memory that the next `add` of this entry needs. Nothing else changes, also where it is out of memory.
    pub fn make_room(&mut self, _entry: &Entry) -> Result<(), Memory>
        ensures room { OnOk result (0 < self.new.room) }
        ensures same { self.new.entries ≡ self.old.entries }
    {
        if self.entries.len() > self.held.saturating_mul(2).saturating_add(SPARE) {
            self.renew()?;
        }
        self.reserve()
    }

    /// Makes the slots anew, for the entries that are held alone. Nothing else changes, also where it is out of memory.
    fn renew(&mut self) -> Result<(), Memory>
        ensures { self.new.entries ≡ self.old.entries }
    {
        let mut graph = WriteGraph::new(self.alloc)?;
        let moved = self.move_to(&mut graph);
        drop(graph);
        moved
    }

    /// Adds the entries that are held to a graph without entries, and exchanges the two. This graph stays as it is
    /// where it is out of memory.
    fn move_to(&mut self, graph: &mut WriteGraph) -> Result<(), Memory>
        requires { graph.old.entries ≡ [] }
        ensures { self.new.entries ≡ self.old.entries }
    {
        add_held(&self.entries, &self.links.graph, graph)?;
        mem::swap(self, graph);
        Ok(())
    }

    /// Takes the memory for some more slots, where there is none for one. Nothing else changes, also where it is out of memory.
    pub(crate) fn reserve(&mut self) -> Result<(), Memory>
        ensures room { OnOk result (0 < self.new.room) }
        ensures same { self.new.entries ≡ self.old.entries }
    {
        if self.room > 0 {
            return Ok(());
        }
        let count = self.entries.len() + BATCH;
        self.entries.make_room(BATCH)?;
        self.members.clear();
        self.members.reserve(count)?;
        self.firsts.reserve(WRITES * BATCH)?;
        self.links.make_room(BATCH, &self.entries)?;
        self.room = BATCH;
        Ok(())
    }

    /// Adds an entry, whose LSN is above all others.
    pub fn add(&mut self, entry: Entry)
        requires above { All (λ n. n < entry.lsn) (lsns self.old.entries) }
        requires room { 0 < self.old.room }
        ensures { self.new.entries ≡ self.old.entries ++ entry ∷ [] }
    {
        self.entries.lower(entry.lsn);
        self.links.add(&entry, &self.entries);
        let slot = self.entries.len() as u32;
        note_writes(slot, entry.writes.as_slice(), &mut self.firsts);
        self.entries.push(&entry);
        self.held += 1;
        self.room -= 1;
    }

    /// The minimal node with the least name. None exactly where there is no entry.
    pub fn minimal(&self) -> Option<NodeNo>
        ensures some { IfSome result (IsLeast (NamesMinimal self.now.entries)) }
        ensures none { IfNone result (self.now.entries ≡ []) }
    {
        self.minimal_from(0)
    }

    /// The minimal node with the least name at or above the LSN. None exactly where there is none such.
    pub fn minimal_from(&self, n: NodeNo) -> Option<NodeNo>
        ensures some { IfSome result (IsLeast (λ k. (n ≤ k) × NamesMinimal self.now.entries k)) }
        ensures none { IfNone result ((k : ℕ) → n ≤ k → NamesMinimal self.now.entries k → ⊥) }
    {
        slots_name_nodes();
        let from = self.entries.slot_from(n);
        let slot = self.links.graph.minimal_from(from)?;
        Some(self.entries.lsn(slot))
    }

    /// The LSNs of the node's entries, rising.
    pub fn ops(&self, n: NodeNo) -> Result<Vec<u64>, Memory>
        requires { NamesNode self.now.entries n }
        ensures { IfOk result (λ found. (node : ℕ → Bool) → IsNodeNamed self.now.entries n node →
            Lists (λ k. IsTrue (node k)) found.items) }
    {
        let slots = slots_of(self.alloc, n, &self.entries, &self.links.graph)?;
        lsns_of(self.alloc, slots.as_slice(), &self.entries)
    }

    /// The objects whose last writer is in the node, rising.
    pub fn flush_set(&self, n: NodeNo) -> Result<Vec<u32>, Memory>
        requires { NamesNode self.now.entries n }
        ensures { IfOk result (λ objects. (node : ℕ → Bool) → IsNodeNamed self.now.entries n node →
            Lists (flush_set_of (accesses self.now.entries) node) objects.items) }
    {
        slots_name_nodes();
        nodes_stand_for_nodes();
        let slot = self.entries.slot_of(n);
        let slots = slots_of(self.alloc, n, &self.entries, &self.links.graph)?;
        let objects = written_by(self.alloc, slots.as_slice(), &self.entries)?;
        self.links
            .last_written(self.alloc, objects.as_slice(), slot)
    }

    /// Whether the node has one entry alone, which is an identity write.
    pub fn single_identity(&self, n: NodeNo) -> bool
        requires { NamesNode self.now.entries n }
        ensures { (node : ℕ → Bool) → IsNodeNamed self.now.entries n node →
            IsTrue result ↔ IsSingleIdentity self.now.entries n node }
    {
        slots_name_nodes();
        let slot = self.entries.slot_of(n);
        if !self.links.graph.is_single(slot) {
            return false;
        }
        self.entries.is_identity(slot)
    }

    /// Takes out the entries of a minimal node, and leaves every other node as it was.
    pub fn remove_minimal(&mut self, n: NodeNo)
        requires { NamesMinimal self.old.entries n }
        ensures entries { (node : ℕ → Bool) → IsNodeNamed self.old.entries n node →
            self.new.entries ≡ filter (λ e. not (node e.lsn)) self.old.entries }
        ensures nodes { (k : ℕ) (other : ℕ → Bool) →
            IsNodeNamed self.new.entries k other ↔ (IsNodeNamed self.old.entries k other × ¬ (k ≡ n)) }
        ensures flush_sets { (k : ℕ) (other : ℕ → Bool) (x : ℕ) → IsNodeNamed self.new.entries k other →
            flush_set_of (accesses self.new.entries) other x ↔ flush_set_of (accesses self.old.entries) other x }
        ensures edges { (node : ℕ → Bool) (o p : ℕ) → IsNodeNamed self.old.entries n node →
            Edge (accesses self.new.entries) o p ↔ (IsFalse (node o) × Edge (accesses self.old.entries) o p) }
        ensures fewer { length self.new.entries < length self.old.entries }
        ensures room { self.old.room ≤ self.new.room }
    {
        slots_name_nodes();
        let slot = self.entries.slot_of(n);
        self.links.graph.members(slot, &mut self.members);
        self.held -= self.members.len();
        let node = self.links.graph.node(slot);
        pass_over(
            self.members.as_slice(),
            node,
            &self.links,
            &self.entries,
            &mut self.firsts,
        );
        self.links.remove(slot, &self.entries);
    }

    /// The objects that entries write, rising, each with the least LSN of an entry that writes it.
    pub fn redo_starts(&self) -> Result<Vec<(u32, u64)>, Memory>
        ensures objects { IfOk result (λ starts. Lists (IsWritten (accesses self.now.entries)) (map (λ s. s.0) starts.items)) }
        ensures lsns { IfOk result (λ starts. All (λ s. IsLeast (IsWriter (accesses self.now.entries) s.0) s.1) starts.items) }
    {
        let objects = written(self.alloc, &self.firsts)?;
        let mut starts = Vec::new(self.alloc);
        for x in &objects {
            let Some(slot) = self.firsts.get(x) else {
                unreachable!()
            };
            starts.push((*x, self.entries.lsn(*slot)))?;
        }
        Ok(starts)
    }

    /// How many nodes there are.
    pub fn node_count(&self) -> u64
        ensures count { IsCount (NamesNode self.now.entries) result }
    {
        slots_name_nodes();
        self.links.graph.node_count() as u64
    }

    /// How many entries there are, whose LSNs rise.
    pub fn len(&self) -> u64
        ensures count { result ≡ length self.now.entries }
        ensures rising { IsStrictlyIncreasing (lsns self.now.entries) }
    {
        self.held as u64
    }
}
