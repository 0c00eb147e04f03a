ghost use Rattle.std.specs.Prelude.{◌≡◌, ℕ, ◌<◌, ◌≤◌, ◌+◌, ◌*◌, ◌/◌, ◌^◌, [], None, Some, ◌↔◌, IsTrue, IfSome, IfNone, length, nat_eq, slice_set, OnOk};
ghost use Rattle.std.specs.List.{IsDistinct};
ghost use Rattle.std.specs.Vec.{vec_capacity};
ghost use Rattle.oper_core.specs.State.{is_among};
ghost use Rattle.install_order.specs.Digraph.{AreNodes};
ghost use Rattle.graph_nodes.specs.Arcs.{IsArc, arc_at, node_at, held_at};
ghost use Rattle.graph_nodes.specs.Named.{IsMinimal, IsName, NamesMinimal, IsLeast};
ghost use Rattle.number_lists.specs.Marks.{IsCount};
ghost use Rattle.graph_nodes.specs.Removed.{IsRemoved};
ghost use Rattle.graph_nodes.specs.Kept.{IsSlotAdded, AreCellsAdded};

use crate::arcs::Arcs;
use crate::clearing::clear_slots;
use crate::levels::Levels;
use crate::linking::link_cell;
use crate::merging::{gather, join_lists};
use crate::names::Names;
use crate::nodes::Nodes;
use crate::pruning::tidy;
use crate::removing::{release, scatter};
use crate::searches::Searches;
use crate::uniting::find_way;
use number_lists::{Chains, PackedOption, SparseChains, push_in_room};
use oper_core::Memory;
use std::alloc::Global;
use std::marker::Model;

/// Slots, the arcs of their cells, and the nodes of the slots that reach each other.
#[derive(Drop)]
pub struct SlotGraph {
    /// Where the arc of each cell leads; a slot has eight cells.
    arcs: Arcs,
    /// The slot that stands for the node of each slot.
    node: Vec<u32>,
    /// Whether each slot is held, that is, not removed.
    held: Vec<bool>,
    names: Names,
    members: Chains,
    /// By node, the cells whose arcs lead into it from another, and some without such an arc, but never those alone.
    into: SparseChains,
    searches: Searches,
    levels: Levels,
    /// How many looks at cells are saved up.
    saved: u64,
    /// For how many more slots all tables have memory.
    room: usize,
}

impl Model for SlotGraph {
    ghost use Rattle.std.specs.Prelude.{◌≡◌, ◌≤◌, length};
    ghost use Rattle.std.specs.Vec.{vec_capacity};
    ghost use Rattle.graph_nodes.specs.Named.{Graph};
    ghost use Rattle.graph_nodes.specs.Kept.{IsKept, IsMarked, HasRoom};
    ghost use Rattle.graph_nodes.specs.Levels.{HaveLevels, HasLevelRoom};

    ghost Value = { Graph };

    ghost view = { λ g. record { arcs = g.arcs.cells; node = g.node.items; held = g.held.items; room = g.room } };

    ghost invariant = { λ g. IsKept g.arcs.cells g.node.items g.held.items g.names.name g.members g.into × (g.searches.found.end ≡ length g.node.items) × (g.searches.ahead.end ≡ length g.node.items) ×
        HasRoom g.room (length g.node.items) g.arcs.room (vec_capacity g.node) (vec_capacity g.held) (vec_capacity g.searches.cells) g.names g.members g.into g.searches.found g.searches.ahead × IsMarked g.node.items g.held.items g.into g.names ×
        HaveLevels g.arcs.cells g.node.items g.held.items g.levels.level.items g.levels.near × HasLevelRoom g.room (length g.node.items) (vec_capacity g.levels.level) g.levels.near };
}

impl SlotGraph {
    /// No slots.
    pub fn new(alloc: Global) -> Self
        ensures arcs { result.arcs ≡ [] }
        ensures node { result.node ≡ [] }
        ensures held { result.held ≡ [] }
    {
        SlotGraph {
            arcs: Arcs::new(alloc),
            node: Vec::new(alloc),
            held: Vec::new(alloc),
            names: Names::new(alloc),
            members: Chains::new(alloc),
            into: SparseChains::new(alloc),
            searches: Searches::new(alloc),
            levels: Levels::new(alloc),
            saved: 0,
            room: 0,
        }
    }

    /// How many slots there are, each with eight cells.
    pub fn len(&self) -> usize
        ensures count { result ≡ length self.now.node }
        ensures cells { length self.now.arcs ≡ 8 * result }
        ensures held { length self.now.held ≡ result }
    {
        let _members = &self.members;
        self.node.len()
    }

    /// Where the arc of the cell leads, if it has one.
    pub fn arc(&self, cell: u32) -> Option<u32>
        requires { cell < length self.now.arcs }
        ensures { result ≡ arc_at self.now.arcs cell }
    {
        self.arcs.get(cell as usize)
    }

    /// Whether the slot is held: it is until it is removed.
    pub fn is_held(&self, slot: u32) -> bool
        requires { slot < length self.now.node }
        ensures { result ≡ held_at self.now.held slot }
    {
        let _members = &self.members;
        self.held[slot as usize]
    }

    /// The slot that stands for the node of this one: two slots have the same exactly if they reach each other.
    pub fn node(&self, slot: u32) -> u32
        requires { slot < length self.now.node }
        ensures value { result ≡ node_at self.now.node slot }
        ensures nodes { AreNodes (IsArc self.now.arcs) (node_at self.now.node) }
    {
        let _members = &self.members;
        self.node[slot as usize]
    }

    /// Takes the memory that so many calls of `add_slot` need. Nothing else changes, also where it is out of memory.
    pub fn make_room(&mut self, count: usize) -> Result<(), Memory>
        requires few { count ≤ 2 ^ 28 }
        ensures arcs { self.new.arcs ≡ self.old.arcs }
        ensures node { self.new.node ≡ self.old.node }
        ensures held { self.new.held ≡ self.old.held }
        ensures room { OnOk result (count ≤ self.new.room) }
    {
        self.arcs.make_room(count)?;
        self.node.reserve(count)?;
        self.held.reserve(count)?;
        self.names.make_room(count)?;
        self.members.make_room(count, count)?;
        self.into.make_room(count, 8 * count)?;
        self.searches.make_room(self.arcs.len() + 8 * count, count)?;
        self.levels.make_room(self.node.len() + count, count)?;
        self.room = count;
        Ok(())
    }

    /// Adds a slot, which is held and whose cells have no arcs.
    pub fn add_slot(&mut self)
        requires room { 0 < self.old.room }
        requires small { length self.old.node < 2 ^ 28 }
        ensures added { IsSlotAdded self.old self.new }
        ensures nodes { AreNodes (IsArc self.new.arcs) (node_at self.new.node) }
    {
        let slot = self.node.len() as u32;
        push_in_room(&mut self.node, slot);
        push_in_room(&mut self.held, true);
        self.names.add();
        self.members.add_list();
        self.members.add_item();
        self.members.push(slot, slot);
        self.into.add_list();
        add_cells(&mut self.arcs, &mut self.into);
        self.searches.found.add_number();
        self.searches.ahead.add_number();
        self.levels.near.add_list();
        self.levels.near.add_items(8);
        self.room -= 1;
    }

    /// Gives a cell its arc.
    pub fn insert(&mut self, cell: u32, to: u32)
        requires cell { cell < length self.old.arcs }
        requires none { arc_at self.old.arcs cell ≡ None }
        requires from_held { IsTrue (held_at self.old.held (cell / 8)) }
        requires to_held { IsTrue (held_at self.old.held to) }
        ensures arcs { self.new.arcs ≡ slice_set self.old.arcs cell (Some to) }
        ensures slots { length self.new.node ≡ length self.old.node }
        ensures held { self.new.held ≡ self.old.held }
        ensures nodes { AreNodes (IsArc self.new.arcs) (node_at self.new.node) }
        ensures room { self.new.room ≡ self.old.room }
    {
        find_way(
            self.node[cell as usize / 8],
            self.node[to as usize],
            &Nodes {
                arcs: &self.arcs,
                node: self.node.as_slice(),
                members: &self.members,
            },
            &self.into,
            &mut self.levels,
            &mut self.searches,
        );
        gather(
            &self.searches.found,
            self.node.as_mut_slice(),
            &mut self.names,
            &mut self.members,
            &mut self.into,
            &mut self.searches.cells,
        );
        self.arcs.set(cell as usize, PackedOption::some(to));
        let n = self.node[to as usize];
        self.into.push(n, cell);
        tidy(
            n,
            &self.arcs,
            self.node.as_slice(),
            &mut self.into,
            &mut self.searches.cells,
            &mut self.saved,
        );
        self.names.tell(n, self.into.count(n) == 0);
        join_lists(n, &self.searches.found, &mut self.levels.near);
        link_cell(
            cell,
            &Nodes {
                arcs: &self.arcs,
                node: self.node.as_slice(),
                members: &self.members,
            },
            self.levels.level.as_slice(),
            &mut self.levels.near,
        );
    }

    /// Takes out the slots of a minimal node: they are held no more, have no arcs, and are nodes by themselves.
    pub fn remove(&mut self, slot: u32)
        requires held { IsTrue (held_at self.old.held slot) }
        requires minimal { IsMinimal self.old.arcs self.old.node (node_at self.old.node slot) }
        ensures removed { IsRemoved self.old (node_at self.old.node slot) self.new }
        ensures nodes { AreNodes (IsArc self.new.arcs) (node_at self.new.node) }
    {
        let n = self.node[slot as usize];
        self.members.copy_to(n, &mut self.searches.cells);
        release(self.searches.cells.as_slice(), self.held.as_mut_slice());
        clear_slots(
            self.searches.cells.as_slice(),
            &mut self.arcs,
            self.node.as_slice(),
            &mut self.into,
            &mut self.names,
        );
        scatter(
            n,
            self.searches.cells.as_slice(),
            self.node.as_mut_slice(),
            &mut self.members,
        );
        self.names.remove(n, self.searches.cells.as_slice());
    }

    /// Whether the slot's node has no other slot.
    pub fn is_single(&self, slot: u32) -> bool
        requires { slot < length self.now.node }
        ensures { IsTrue result ↔ ((i : ℕ) → node_at self.now.node i ≡ node_at self.now.node slot → i ≡ slot) }
    {
        self.members.count(self.node[slot as usize]) == 1
    }

    /// Writes down the slots of the slot's node, in any order.
    pub fn members(&self, slot: u32, out: &mut Vec<u32>)
        requires slot { slot < length self.now.node }
        requires room { length self.now.node ≤ vec_capacity out.old }
        ensures members { (i : ℕ) → IsTrue (is_among i out.new.items) ↔ (node_at self.now.node i ≡ node_at self.now.node slot) }
        ensures distinct { IsDistinct nat_eq out.new.items }
        ensures capacity { vec_capacity out.old ≤ vec_capacity out.new }
    {
        self.members.copy_to(self.node[slot as usize], out);
    }

    /// The least slot, at or above the given one, that is the name of a minimal node. None exactly where there is none.
    pub fn minimal_from(&self, from: u32) -> Option<u32>
        ensures some { IfSome result (IsLeast (λ i. (from ≤ i) × NamesMinimal self.now i)) }
        ensures none { IfNone result ((i : ℕ) → from ≤ i → NamesMinimal self.now i → ⊥) }
    {
        self.names.next_minimal(from)
    }

    /// How many nodes there are of slots that are held: so many slots are the names of nodes.
    pub fn node_count(&self) -> usize
        ensures { IsCount (IsName self.now) result }
    {
        self.names.count()
    }
}

/// Adds eight cells without arcs.
fn add_cells(arcs: &mut Arcs, into: &mut SparseChains)
    requires arcs { 0 < arcs.old.room }
    requires into { 8 ≤ into.old.item_room }
    ensures added { AreCellsAdded 8 arcs.old.cells arcs.new.cells into.old into.new }
    ensures room { arcs.old.room ≡ arcs.new.room + 1 }
{
    arcs.add_slot();
    into.add_items(8);
}
