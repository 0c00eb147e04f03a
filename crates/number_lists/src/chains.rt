ghost use Rattle.std.specs.Prelude.{◌≡◌, ℕ, ◌<◌, ◌≤◌, List, [], ◌∷◌, length, slice_index, nat_eq, IsTrue, OnOk, MatchOption};
ghost use Rattle.std.specs.List.{IsDistinct};
ghost use Rattle.oper_core.specs.State.{is_among};
ghost use Rattle.number_lists.specs.Links.{follow};
ghost use Rattle.std.specs.Vec.{vec_capacity};
ghost use Rattle.number_lists.specs.Lists.{list_at, IsFree, IsCleared, IsEmptied, IsPushed, IsPopped, IsPoured, IsWider, IsLonger};

use crate::push::push_in_room;
use oper_core::Memory;
use std::alloc::Global;
use std::marker::Model;

/// How many numbers there are at most.
const MOST: usize = 1 << 31;

/// One list: where it begins, and how many numbers it has.
#[derive(Clone, Copy)]
struct Chain {
    first: u32,
    count: u32,
}

/// Lists of numbers, each of which is in one of them at most, as contracts see them.
#[derive(Drop)]
pub struct Chains {
    chains: Vec<Chain>,
    next: Vec<u32>,
}

impl Model for Chains {
    ghost use Rattle.std.specs.Prelude.{◌≤◌, ◌^◌, min, length};
    ghost use Rattle.std.specs.Vec.{vec_capacity};
    ghost use Rattle.number_lists.specs.Lists.{Lists, AreApart};

    ghost Value = { Lists };

    ghost use Rattle.number_lists.specs.Followed.{lists_of, view_of};

    ghost view = { λ g. view_of g.next.items (min (vec_capacity g.next) (2 ^ 31)) g.chains.items (vec_capacity g.chains) };

    ghost invariant = { λ g. AreApart (lists_of g.next.items g.chains.items) (length g.next.items) × (length g.next.items ≤ 2 ^ 31) };
}

impl Chains {
    /// No lists.
    pub fn new(alloc: Global) -> Self
        ensures lists { result.lists ≡ [] }
        ensures items { result.items ≡ 0 }
    {
        Chains {
            chains: Vec::new(alloc),
            next: Vec::new(alloc),
        }
    }

    /// How many lists there are.
    pub fn len(&self) -> usize
        ensures { result ≡ length self.now.lists }
    {
        let _next = &self.next;
        self.chains.len()
    }

    /// How many numbers a list has.
    pub fn count(&self, list: u32) -> usize
        requires { list < length self.now.lists }
        ensures value { result ≡ length (list_at self.now.lists list) }
        ensures distinct { IsDistinct nat_eq (list_at self.now.lists list) }
    {
        let chain = self.chains[list as usize];
        chain.count as usize
    }

    /// The first number of a list, none where it is empty.
    pub fn first(&self, list: u32) -> Option<u32>
        requires { list < length self.now.lists }
        ensures { MatchOption result (list_at self.now.lists list ≡ []) (λ k. (rest : List ℕ) × (list_at self.now.lists list ≡ k ∷ rest)) }
    {
        let chain = self.chains[list as usize];
        if chain.count == 0 {
            return None;
        }
        Some(chain.first)
    }

    /// Puts a number that is in no list in front of a list.
    pub fn push(&mut self, list: u32, item: u32)
        requires list { list < length self.old.lists }
        requires item { item < self.old.items }
        requires free { IsFree self.old.lists item }
        ensures { IsPushed self.old list item self.new }
    {
        let chain = self.chains[list as usize];
        self.next[item as usize] = chain.first;
        self.chains[list as usize] = Chain {
            first: item,
            count: chain.count + 1,
        };
    }

    /// Takes the first number out of a list.
    pub fn pop(&mut self, list: u32) -> Option<u32>
        requires { list < length self.old.lists }
        ensures { MatchOption result (IsEmptied self.old list self.new) (λ k. IsPopped self.old list k self.new) }
    {
        let chain = self.chains[list as usize];
        if chain.count == 0 {
            return None;
        }
        let count = chain.count - 1;
        let first = after(chain.first, count as usize, self.next.as_slice());
        self.chains[list as usize] = Chain { first, count };
        Some(chain.first)
    }

    /// Takes all numbers out of a list.
    pub fn clear(&mut self, list: u32)
        requires { list < length self.old.lists }
        ensures { IsCleared self.old list self.new }
    {
        self.chains[list as usize] = Chain { first: 0, count: 0 };
    }

    /// Moves all numbers of one list to another.
    pub fn pour(&mut self, from: u32, to: u32)
        requires from { from < length self.old.lists }
        requires to { to < length self.old.lists }
        requires apart { from ≡ to → ⊥ }
        ensures { IsPoured self.old from to self.new }
    {
        'moves: while let Some(item) = self.pop(from) {
            self.push(to, item);
        }
    }

    /// Writes down the numbers of a list.
    pub fn copy_to(&self, list: u32, out: &mut Vec<u32>)
        requires list { list < length self.now.lists }
        requires room { self.now.items ≤ vec_capacity out.old }
        ensures items { out.new.items ≡ list_at self.now.lists list }
        ensures distinct { IsDistinct nat_eq out.new.items }
        ensures capacity { vec_capacity out.old ≤ vec_capacity out.new }
    {
        let chain = self.chains[list as usize];
        walk(self.next.as_slice(), chain.first, chain.count as usize, out);
    }

    /// Makes room for so many more lists and numbers. Nothing else changes, also where it is out of memory, as
    /// it is where there would be more numbers than `2^31`.
    pub fn make_room(&mut self, lists: usize, items: usize) -> Result<(), Memory>
        ensures lists { self.new.lists ≡ self.old.lists }
        ensures items { self.new.items ≡ self.old.items }
        ensures list_room { OnOk result (lists ≤ self.new.list_room) }
        ensures item_room { OnOk result (items ≤ self.new.item_room) }
        ensures lists_kept { self.old.list_room ≤ self.new.list_room }
        ensures items_kept { self.old.item_room ≤ self.new.item_room }
    {
        if items > MOST - self.next.len() {
            return Err(Memory);
        }
        self.chains.reserve(lists)?;
        self.next.reserve(items)?;
        Ok(())
    }

    /// One more list, which is empty.
    pub fn add_list(&mut self)
        requires { 0 < self.old.list_room }
        ensures { IsWider self.old self.new }
    {
        push_in_room(&mut self.chains, Chain { first: 0, count: 0 });
    }

    /// One more number, which is in no list.
    pub fn add_item(&mut self)
        requires { 0 < self.old.item_room }
        ensures { IsLonger self.old self.new }
    {
        push_in_room(&mut self.next, 0);
    }
}

/// Writes down so many numbers, from the first on along the links.
fn walk(next: &[u32], first: u32, count: usize, out: &mut Vec<u32>)
    requires below { (k : ℕ) → IsTrue (is_among k (follow next.now count first)) → k < length next.now }
    requires room { count ≤ vec_capacity out.old }
    ensures items { out.new.items ≡ follow next.now count first }
    ensures capacity { vec_capacity out.old ≤ vec_capacity out.new }
{
    out.clear();
    let mut at = first;
    for done in 0..count {
        push_in_room(out, at);
        at = after(at, count - done - 1, next);
    }
}

/// The number after this one in a list, of which so many are left. Where none is, any number, without a look at the table: each
/// look there may wait for memory.
fn after(at: u32, left: usize, next: &[u32]) -> u32
    requires { (left ≡ 0 → ⊥) → at < length next.now }
    ensures { follow next.now left result ≡ follow next.now left (slice_index next.now at) }
{
    if left == 0 { at } else { next[at as usize] }
}
