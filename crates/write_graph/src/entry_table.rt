ghost use Rattle.std.specs.Prelude.{◌≡◌, ℕ, ◌<◌, ◌≤◌, ◌+◌, ◌^◌, ◌++◌, ◌∷◌, [], OnOk, length, map, slice_index, slice_index_or, slice_range};
ghost use Rattle.std.specs.Vec.{vec_len, vec_capacity};
ghost use Rattle.write_graph.specs.Graph.{lsns};
ghost use Rattle.write_graph.specs.Cells.{reads_of, writes_of, identity_of};
ghost use Rattle.write_graph.specs.Places.{NeverFall, IsSlotOfLsn};
ghost use Rattle.write_graph.specs.Lowered.{lowered};

use crate::head::Head;
use crate::head_table::Heads;
use crate::lowering::lower_last;
use crate::places::{slot_from, slot_of};
use install_order::Entry;
use number_lists::push_in_room;
use oper_core::{Memory, Objs};
use std::alloc::Global;
use std::marker::Model;

/// How many objects an entry accesses at most.
const OBJECTS: usize = 8;

/// Entries, each of which takes memory for as many objects as it has.
#[derive(Drop)]
pub(crate) struct Entries {
    lsns: Vec<u64>,
    heads: Heads,
    objects: Vec<u32>,
}

impl Model for Entries {
    ghost use Rattle.std.specs.Prelude.{◌-◌, ◌/◌, min, length};
    ghost use Rattle.std.specs.Vec.{vec_capacity};
    ghost use Rattle.write_graph.specs.Heads.{Entries, entries_of, AreHeads};

    ghost Value = { Entries };

    ghost view = { λ e. record {
      items = entries_of e.lsns.items e.heads.items e.objects.items;
      room = min (min (vec_capacity e.lsns - length e.lsns.items) e.heads.room) ((vec_capacity e.objects - length e.objects.items) / 8);
    } };

    ghost invariant = { λ e. AreHeads e.lsns.items e.heads.items e.objects.items };
}

impl Entries {
    /// No entries.
    pub(crate) fn new(alloc: Global) -> Self
        ensures { result.items ≡ [] }
    {
        Entries {
            lsns: Vec::new(alloc),
            heads: Heads::new(alloc),
            objects: Vec::new(alloc),
        }
    }

    /// How many entries there are.
    pub(crate) fn len(&self) -> usize
        ensures { result ≡ length self.now.items }
    {
        let _heads = &self.heads;
        self.lsns.len()
    }

    /// The first slot whose entry has the LSN or a greater one.
    pub(crate) fn slot_from(&self, n: u64) -> u32
        requires rising { NeverFall (lsns self.now.items) }
        requires small { length self.now.items ≤ 2 ^ 28 }
        ensures below { result ≤ length self.now.items }
        ensures before { (i : ℕ) → i < result → slice_index (lsns self.now.items) i < n }
        ensures after { (i : ℕ) → result ≤ i → i < length self.now.items → n ≤ slice_index (lsns self.now.items) i }
    {
        let _heads = &self.heads;
        slot_from(n, self.lsns.as_slice())
    }

    /// The last slot whose entry has the LSN.
    pub(crate) fn slot_of(&self, n: u64) -> u32
        requires rising { NeverFall (lsns self.now.items) }
        requires small { length self.now.items ≤ 2 ^ 28 }
        ensures { IsSlotOfLsn (lsns self.now.items) n result }
    {
        let _heads = &self.heads;
        slot_of(n, self.lsns.as_slice())
    }

    /// The LSN of an entry.
    pub(crate) fn lsn(&self, i: u32) -> u64
        requires { i < length self.now.items }
        ensures { result ≡ slice_index (lsns self.now.items) i }
    {
        let _heads = &self.heads;
        self.lsns[i as usize]
    }

    /// The objects that an entry reads.
    pub(crate) fn reads(&self, i: u32) -> &[u32]
        requires { i < length self.now.items }
        ensures value { result.now ≡ reads_of self.now.items i }
        ensures few { length result.now ≤ 4 }
    {
        let _lsns = &self.lsns;
        let head = self.heads.get(i);
        part(
            head.start as usize,
            head.reads as usize,
            self.objects.as_slice(),
        )
    }

    /// The objects that an entry writes.
    pub(crate) fn writes(&self, i: u32) -> &[u32]
        requires { i < length self.now.items }
        ensures value { result.now ≡ writes_of self.now.items i }
        ensures few { length result.now ≤ 4 }
    {
        let _lsns = &self.lsns;
        let head = self.heads.get(i);
        let start = head.start as usize + head.reads as usize;
        part(start, head.writes as usize, self.objects.as_slice())
    }

    /// Whether an entry is an identity write.
    pub(crate) fn is_identity(&self, i: u32) -> bool
        requires { i < length self.now.items }
        ensures { result ≡ identity_of self.now.items i }
    {
        let _lsns = &self.lsns;
        self.heads.get(i).identity
    }

    /// A copy of an entry.
    pub(crate) fn copy(&self, i: u32) -> Entry
        requires { i < length self.now.items }
        ensures { result ≡ slice_index_or self.now.items i result }
    {
        Entry {
            lsn: self.lsn(i),
            reads: copied(self.reads(i)),
            writes: copied(self.writes(i)),
            identity: self.is_identity(i),
        }
    }

    /// Takes the memory for so many more entries. Nothing else changes, also where it is out of memory.
    pub(crate) fn make_room(&mut self, count: usize) -> Result<(), Memory>
        requires few { count ≤ 2 ^ 28 }
        ensures items { self.new.items ≡ self.old.items }
        ensures room { OnOk result (count ≤ self.new.room) }
    {
        self.lsns.reserve(count)?;
        self.heads.make_room(count)?;
        self.objects.reserve(OBJECTS * count)?;
        Ok(())
    }

    /// Lowers the LSNs that are above `n` to `n`. They stand last, and where LSNs were added in rising order there are none.
    /// Each call takes a step for each LSN that it lowers.
    pub(crate) fn lower(&mut self, n: u64)
        requires rising { NeverFall (lsns self.old.items) }
        requires small { length self.old.items ≤ 2 ^ 28 }
        ensures lowered { self.new.items ≡ map (lowered n) self.old.items }
        ensures room { self.new.room ≡ self.old.room }
    {
        lower_last(n, &mut self.lsns);
    }

    /// Adds an entry at the end.
    pub(crate) fn push(&mut self, entry: &Entry)
        requires room { 0 < self.old.room }
        requires small { length self.old.items < 2 ^ 28 }
        ensures items { self.new.items ≡ self.old.items ++ entry.now ∷ [] }
        ensures room { self.old.room ≤ self.new.room + 1 }
    {
        let reads = entry.reads.as_slice();
        let writes = entry.writes.as_slice();
        let head = Head {
            start: self.objects.len() as u32,
            reads: reads.len() as u8,
            writes: writes.len() as u8,
            identity: entry.identity,
        };
        push_in_room(&mut self.lsns, entry.lsn);
        self.heads.push(head);
        push_all(&mut self.objects, reads);
        push_all(&mut self.objects, writes);
    }
}

/// Adds the numbers at the end, where there is room for them.
fn push_all(numbers: &mut Vec<u32>, more: &[u32])
    requires { vec_len numbers.old + length more.now ≤ vec_capacity numbers.old }
    ensures items { numbers.new.items ≡ numbers.old.items ++ more.now }
    ensures capacity { vec_capacity numbers.old ≤ vec_capacity numbers.new }
{
    for k in more {
        push_in_room(numbers, *k);
    }
}

/// So many of the numbers, from a place on.
fn part(start: usize, count: usize, numbers: &[u32]) -> &[u32]
    requires { start + count ≤ length numbers.now }
    ensures { result.now ≡ slice_range numbers.now start (start + count) }
{
    &numbers[start..start + count]
}

/// The same objects.
fn copied(objects: &[u32]) -> Objs
    requires few { length objects.now ≤ 4 }
    ensures { result ≡ objects.now }
{
    let mut copy = Objs::new();
    for x in objects {
        copy.push(*x);
    }
    copy
}
