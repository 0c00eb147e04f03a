ghost use Rattle.std.specs.Prelude.{◌≡◌, ℕ, ◌<◌, ◌≤◌, ◌⊎◌, ◌^◌, [], false, IsTrue, OnOk, length, slice_set};
ghost use Rattle.oper_core.specs.State.{is_among};
ghost use Rattle.number_lists.specs.Marks.{mark_at, IsCount, IsNext};
ghost use Rattle.graph_nodes.specs.Arcs.{name_at};
ghost use Rattle.graph_nodes.specs.Named.{AreForgotten, AreNamesMerged, IsTold, IsNameAdded};
ghost use Rattle.graph_nodes.specs.Removed.{AreAlone};

use crate::name_table::NameTable;
use number_lists::{NumberSet, NumberTree};
use oper_core::Memory;
use std::alloc::Global;
use std::marker::Model;

/// The names of nodes, which are their least slots, and which of the nodes are minimal.
#[derive(Drop)]
pub(crate) struct Names {
    /// By node, its name.
    name: NameTable,
    /// The names of the nodes whose slots are held.
    names: NumberTree,
    /// The names of those that are minimal.
    minimal: NumberTree,
}

impl Model for Names {
    ghost use Rattle.std.specs.Prelude.{◌≡◌, ◌^◌, ◌≤◌, min, length};
    ghost use Rattle.graph_nodes.specs.Named.{Naming, AreSlots};

    ghost Value = { Naming };

    ghost view = { λ n. record { name = n.name.items; names = n.names.marks; minimal = n.minimal.marks; room = min n.name.room (min n.names.room n.minimal.room) } };

    ghost invariant = { λ n. AreSlots n.name.items × (length n.names.marks ≡ length n.name.items) × (length n.minimal.marks ≡ length n.name.items) × (length n.name.items ≤ 2 ^ 32) };
}

impl Names {
    /// No names.
    pub(crate) fn new(alloc: Global) -> Self
        ensures name { result.name ≡ [] }
        ensures names { result.names ≡ [] }
        ensures minimal { result.minimal ≡ [] }
    {
        Names {
            name: NameTable::new(alloc),
            names: NumberTree::new(alloc),
            minimal: NumberTree::new(alloc),
        }
    }

    /// How many names there are of nodes whose slots are held.
    pub(crate) fn count(&self) -> usize
        ensures { IsCount (λ k. IsTrue (mark_at self.now.names k)) result }
    {
        self.names.len()
    }

    /// The least name of a minimal node at or above the number.
    pub(crate) fn next_minimal(&self, from: u32) -> Option<u32>
        ensures { IsNext self.now.minimal from result }
    {
        self.minimal.next(from)
    }

    /// Takes the memory that so many calls of `add` need. Nothing else changes, also where it is out of memory.
    pub(crate) fn make_room(&mut self, count: usize) -> Result<(), Memory>
        requires few { count ≤ 2 ^ 32 }
        ensures name { self.new.name ≡ self.old.name }
        ensures names { self.new.names ≡ self.old.names }
        ensures minimal { self.new.minimal ≡ self.old.minimal }
        ensures room { OnOk result (count ≤ self.new.room) }
        ensures kept { self.old.room ≤ self.new.room }
    {
        self.name.make_room(count)?;
        self.names.make_room(count)?;
        self.minimal.make_room(count)?;
        Ok(())
    }

    /// Adds a node, which is minimal and whose one slot is the next one.
    pub(crate) fn add(&mut self)
        requires room { 0 < self.old.room }
        requires small { length self.old.name < 2 ^ 32 }
        ensures { IsNameAdded self.old self.new }
    {
        let slot = self.name.len() as u32;
        self.name.add();
        self.names.add_number();
        self.names.insert(slot);
        self.minimal.add_number();
        self.minimal.insert(slot);
    }

    /// Gives the least of the taken nodes' names to one of them, and takes away the others.
    pub(crate) fn merge(&mut self, one: u32, taken: &NumberSet)
        requires one { IsTrue (is_among one taken.now.members) }
        requires below { one < taken.now.end }
        requires taken { taken.now.end ≤ length self.old.name }
        ensures { AreNamesMerged taken.now.members one self.old self.new }
    {
        let least = least_name(taken, &self.name);
        forget(least, taken, &self.name, &mut self.names);
        forget(least, taken, &self.name, &mut self.minimal);
        self.name.set(one, least);
    }

    /// Tells whether no arc leads into the node from another.
    pub(crate) fn tell(&mut self, m: u32, is_free: bool)
        requires { m < length self.old.name }
        ensures { IsTold m is_free self.old self.new }
    {
        let name = self.name.get(m);
        let is_minimal = is_free && self.names.contains(name);
        self.minimal.set(name, is_minimal);
    }

    /// Takes away the name of the node, and lets each of the slots be a node of its own name.
    pub(crate) fn remove(&mut self, m: u32, slots: &[u32])
        requires node { m < length self.old.name }
        requires slots { (i : ℕ) → IsTrue (is_among i slots.now) → i < length self.old.name }
        ensures name { AreAlone slots.now self.old.name self.new.name }
        ensures names { self.new.names ≡ slice_set self.old.names (name_at self.old.name m) false }
        ensures minimal { self.new.minimal ≡ slice_set self.old.minimal (name_at self.old.name m) false }
        ensures room { self.new.room ≡ self.old.room }
    {
        let name = self.name.get(m);
        self.names.remove(name);
        self.minimal.remove(name);
        part(slots, &mut self.name);
    }
}

/// Takes away the marks at the taken nodes' names but the least.
fn forget(least: u32, taken: &NumberSet, name: &NameTable, marks: &mut NumberTree)
    requires names { taken.now.end ≤ length name.now.items }
    requires below { (m : ℕ) → m < length name.now.items → name_at name.now.items m < length marks.old.marks }
    ensures forgotten { AreForgotten taken.now.members name.now.items least marks.old.marks marks.new.marks }
    ensures room { marks.new.room ≡ marks.old.room }
{
    for i in 0..taken.len() {
        let m = taken.get(i);
        let here = name.get(m);
        if here != least {
            marks.remove(here);
        }
    }
}

/// Gives each of the slots its own name.
fn part(slots: &[u32], name: &mut NameTable)
    requires { (i : ℕ) → IsTrue (is_among i slots.now) → i < length name.old.items }
    ensures alone { AreAlone slots.now name.old.items name.new.items }
    ensures room { name.new.room ≡ name.old.room }
{
    for s in slots {
        name.set_own(*s);
    }
}

/// The least of the taken nodes' names.
fn least_name(taken: &NumberSet, name: &NameTable) -> u32
    requires some { 0 < length taken.now.members }
    requires names { taken.now.end ≤ length name.now.items }
    ensures least { (m : ℕ) → IsTrue (is_among m taken.now.members) → result ≤ name_at name.now.items m }
    ensures from { (m : ℕ) × IsTrue (is_among m taken.now.members) × (result ≡ name_at name.now.items m) }
{
    let first = taken.get(0);
    let mut least = name.get(first);
    for i in 0..taken.len() {
        let m = taken.get(i);
        least = smaller(least, name.get(m));
    }
    least
}

/// The smaller of two numbers.
fn smaller(left: u32, right: u32) -> u32
    ensures left { result ≤ left }
    ensures right { result ≤ right }
    ensures one { (result ≡ left) ⊎ (result ≡ right) }
{
    if left < right { left } else { right }
}
