ghost use Rattle.std.specs.Prelude.{◌≡◌, ◌<◌, ◌≤◌, ◌+◌, ◌++◌, ◌∷◌, [], ◌%◌, ◌/◌, OnOk, length, slice_index_or, nat_le};

use crate::head::Head;
use number_lists::push_in_room;
use oper_core::Memory;
use std::alloc::Global;
use std::marker::Model;

/// One more than what an entry reads at most, and than what it writes.
const COUNTS: u8 = 5;

/// From what code on the entry is an identity write.
const IDENTITY: u8 = 25;

/// The heads of entries, in five bytes each.
#[derive(Drop)]
pub(crate) struct Heads {
    starts: Vec<u32>,
    /// How many objects each reads and writes, and whether it is an identity write, as one number.
    codes: Vec<u8>,
}

impl Model for Heads {
    ghost use Rattle.std.specs.Prelude.{◌≡◌, ◌-◌, min, length};
    ghost use Rattle.std.specs.Vec.{vec_capacity};
    ghost use Rattle.write_graph.specs.Heads.{Heads, heads_of};

    ghost Value = { Heads };

    ghost view = { λ h. record { items = heads_of h.starts.items h.codes.items; room = min (vec_capacity h.starts) (vec_capacity h.codes) - length h.starts.items } };

    ghost invariant = { λ h. length h.codes.items ≡ length h.starts.items };
}

impl Heads {
    /// No heads.
    pub(crate) fn new(alloc: Global) -> Self
        ensures { result.items ≡ [] }
    {
        Heads {
            starts: Vec::new(alloc),
            codes: Vec::new(alloc),
        }
    }

    /// The head at a place.
    pub(crate) fn get(&self, i: u32) -> Head
        requires { i < length self.now.items }
        ensures { result ≡ slice_index_or self.now.items i result }
    {
        let start = self.starts[i as usize];
        let code = self.codes[i as usize];
        Head {
            start,
            reads: code % COUNTS,
            writes: code / COUNTS % COUNTS,
            identity: code >= IDENTITY,
        }
    }

    /// Takes the memory for so many more heads. Nothing else changes, also where it is out of memory.
    pub(crate) fn make_room(&mut self, count: usize) -> Result<(), Memory>
        ensures items { self.new.items ≡ self.old.items }
        ensures room { OnOk result (count ≤ self.new.room) }
        ensures kept { self.old.room ≤ self.new.room }
    {
        self.starts.reserve(count)?;
        self.codes.reserve(count)?;
        Ok(())
    }

    /// Adds a head at the end.
    pub(crate) fn push(&mut self, head: Head)
        requires room { 0 < self.old.room }
        requires reads { head.reads ≤ 4 }
        requires writes { head.writes ≤ 4 }
        ensures items { self.new.items ≡ self.old.items ++ head ∷ [] }
        ensures room { self.old.room ≤ self.new.room + 1 }
    {
        push_in_room(&mut self.starts, head.start);
        push_in_room(&mut self.codes, code_of(head));
    }
}

/// What the head tells beside its start.
fn code_of(head: Head) -> u8
    requires reads { head.reads ≤ 4 }
    requires writes { head.writes ≤ 4 }
    ensures reads { result % 5 ≡ head.reads }
    ensures writes { result / 5 % 5 ≡ head.writes }
    ensures identity { nat_le 25 result ≡ head.identity }
{
    let code = head.reads + COUNTS * head.writes;
    if head.identity { code + IDENTITY } else { code }
}
