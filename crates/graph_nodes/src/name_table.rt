ghost use Rattle.std.specs.Prelude.{◌≡◌, ℕ, ◌<◌, ◌≤◌, ◌+◌, ◌^◌, ◌++◌, ◌∷◌, [], length, max, slice_set, OnOk};
ghost use Rattle.std.specs.Vec.{vec_capacity};
ghost use Rattle.graph_nodes.specs.Arcs.{name_at};

use number_lists::push_in_room;
use oper_core::Memory;
use std::alloc::Global;
use std::marker::Model;

/// The names of nodes. It takes memory up to the greatest node that ever had another name than its own slot.
#[derive(Drop)]
pub(crate) struct NameTable {
    /// The names of the first nodes. The others have their own slots for names.
    first: Vec<u32>,
    /// How many nodes there are.
    count: usize,
    /// For how many more nodes there is memory.
    room: usize,
}

impl Model for NameTable {
    ghost use Rattle.std.specs.Prelude.{◌+◌, ◌≤◌, ◌^◌, length};
    ghost use Rattle.std.specs.Vec.{vec_capacity};
    ghost use Rattle.graph_nodes.specs.Named.{NameList, names_of};

    ghost Value = { NameList };

    ghost view = { λ t. record { items = names_of t.first.items t.count; room = t.room } };

    ghost invariant = { λ t. (length t.first.items ≤ t.count) × (t.count ≤ 2 ^ 32) × (t.count + t.room ≤ vec_capacity t.first) };
}

impl NameTable {
    /// No names.
    pub(crate) fn new(alloc: Global) -> Self
        ensures { result.items ≡ [] }
    {
        NameTable {
            first: Vec::new(alloc),
            count: 0,
            room: 0,
        }
    }

    /// How many names there are.
    pub(crate) fn len(&self) -> usize
        ensures { result ≡ length self.now.items }
    {
        let _first = &self.first;
        self.count
    }

    /// The name of the node.
    pub(crate) fn get(&self, m: u32) -> u32
        ensures { result ≡ name_at self.now.items m }
    {
        if (m as usize) < self.first.len() {
            self.first[m as usize]
        } else {
            m
        }
    }

    /// Takes the memory for so many more names. Nothing else changes, also where it is out of memory.
    pub(crate) fn make_room(&mut self, count: usize) -> Result<(), Memory>
        requires few { count ≤ 2 ^ 32 }
        ensures items { self.new.items ≡ self.old.items }
        ensures room { OnOk result (count ≤ self.new.room) }
        ensures kept { self.old.room ≤ self.new.room }
    {
        self.first.reserve(self.count + count - self.first.len())?;
        self.room = self.room.max(count);
        Ok(())
    }

    /// Adds a node, whose name is its own slot.
    pub(crate) fn add(&mut self)
        requires room { 0 < self.old.room }
        requires small { length self.old.items < 2 ^ 32 }
        ensures items { self.new.items ≡ self.old.items ++ length self.old.items ∷ [] }
        ensures room { self.old.room ≡ self.new.room + 1 }
    {
        let _first = &self.first;
        self.count += 1;
        self.room -= 1;
    }

    /// Sets the name of the node.
    pub(crate) fn set(&mut self, m: u32, name: u32)
        requires { m < length self.old.items }
        ensures items { self.new.items ≡ slice_set self.old.items m name }
        ensures room { self.new.room ≡ self.old.room }
    {
        fill(m as usize + 1, &mut self.first);
        self.first[m as usize] = name;
    }

    /// Gives the node its own slot for a name.
    pub(crate) fn set_own(&mut self, m: u32)
        ensures items { self.new.items ≡ slice_set self.old.items m m }
        ensures room { self.new.room ≡ self.old.room }
    {
        if (m as usize) < self.first.len() {
            self.first[m as usize] = m;
        }
    }
}

/// Writes down the names of so many nodes at least.
fn fill(count: usize, names: &mut Vec<u32>)
    requires room { count ≤ vec_capacity names.old }
    requires small { count ≤ 2 ^ 32 }
    ensures each { (m : ℕ) → name_at names.new.items m ≡ name_at names.old.items m }
    ensures enough { count ≤ length names.new.items }
    ensures few { length names.new.items ≤ max (length names.old.items) count }
    ensures capacity { vec_capacity names.old ≤ vec_capacity names.new }
{
    for m in names.len()..count {
        push_in_room(names, m as u32);
    }
}
