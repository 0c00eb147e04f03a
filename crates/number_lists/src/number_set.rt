ghost use Rattle.std.specs.Prelude.{◌≡◌, ℕ, ◌<◌, ◌≤◌, ◌+◌, ◌^◌, ◌++◌, ◌∷◌, [], IsFalse, length, slice_index, max, nat_eq, OnOk};
ghost use Rattle.std.specs.List.{IsDistinct};
ghost use Rattle.std.specs.Vec.{vec_capacity};
ghost use Rattle.oper_core.specs.State.{is_among};
ghost use Rattle.number_lists.specs.Members.{IsWith};

use crate::push::push_in_room;
use oper_core::Memory;
use std::alloc::Global;
use std::marker::Model;

/// A set of numbers below an end, which contracts see as the list of its members in the order in which they came.
#[derive(Drop)]
pub struct NumberSet {
    members: Vec<u32>,
    /// Where each member stands; of another number, anything, or nothing past the greatest that was ever put in.
    place: Vec<u32>,
    /// Below what the numbers are.
    end: usize,
    /// By how much the end may rise without memory.
    room: usize,
}

impl Model for NumberSet {
    ghost use Rattle.std.specs.Prelude.{◌+◌, ◌<◌, ◌≤◌, ◌^◌, length};
    ghost use Rattle.std.specs.Vec.{vec_capacity};
    ghost use Rattle.number_lists.specs.Members.{Members, ArePlaced};

    ghost Value = { Members };

    ghost view = { λ s. record { members = s.members.items; end = s.end; room = s.room } };

    ghost invariant = { λ s. ArePlaced s.members.items s.place.items × (length s.place.items ≤ s.end) × (s.end ≤ 2 ^ 32) ×
        (s.end + s.room ≤ vec_capacity s.members) × (s.end + s.room ≤ vec_capacity s.place) };
}

impl NumberSet {
    /// No numbers, and none to come.
    pub fn new(alloc: Global) -> Self
        ensures members { result.members ≡ [] }
        ensures end { result.end ≡ 0 }
    {
        NumberSet {
            members: Vec::new(alloc),
            place: Vec::new(alloc),
            end: 0,
            room: 0,
        }
    }

    /// How many members there are.
    pub fn len(&self) -> usize
        ensures count { result ≡ length self.now.members }
        ensures few { result ≤ self.now.end }
        ensures distinct { IsDistinct nat_eq self.now.members }
    {
        let _place = &self.place;
        self.members.len()
    }

    /// The member at a place.
    pub fn get(&self, i: usize) -> u32
        requires { i < length self.now.members }
        ensures value { result ≡ slice_index self.now.members i }
        ensures below { result < self.now.end }
    {
        let _place = &self.place;
        self.members[i]
    }

    /// Whether the number is a member.
    pub fn contains(&self, n: u32) -> bool
        requires { n < self.now.end }
        ensures { result ≡ is_among n self.now.members }
    {
        if n as usize >= self.place.len() {
            return false;
        }
        let at = self.place[n as usize] as usize;
        if at < self.members.len() {
            self.members[at] == n
        } else {
            false
        }
    }

    /// Takes out all members.
    pub fn clear(&mut self)
        ensures members { self.new.members ≡ [] }
        ensures end { self.new.end ≡ self.old.end }
        ensures room { self.old.room ≤ self.new.room }
    {
        self.members.clear();
    }

    /// Puts in a number that is no member.
    pub fn insert(&mut self, n: u32)
        requires below { n < self.old.end }
        requires out { IsFalse (is_among n self.old.members) }
        ensures members { self.new.members ≡ self.old.members ++ n ∷ [] }
        ensures end { self.new.end ≡ self.old.end }
        ensures room { self.old.room ≤ self.new.room }
    {
        fill(n as usize + 1, &mut self.place);
        self.place[n as usize] = self.members.len() as u32;
        push_in_room(&mut self.members, n);
    }

    /// Puts in a number, where it is no member yet.
    pub fn add(&mut self, n: u32)
        requires { n < self.old.end }
        ensures { IsWith self.old n self.new }
    {
        if self.contains(n) {
            return;
        }
        self.insert(n);
    }

    /// Makes room for the end to rise by so many. Nothing else changes, also where it is out of memory.
    pub fn make_room(&mut self, count: usize) -> Result<(), Memory>
        requires few { count ≤ 2 ^ 32 }
        ensures members { self.new.members ≡ self.old.members }
        ensures end { self.new.end ≡ self.old.end }
        ensures room { OnOk result (count ≤ self.new.room) }
        ensures kept { self.old.room ≤ self.new.room }
    {
        let end = self.end + count;
        self.members.reserve(end - self.members.len())?;
        self.place.reserve(end - self.place.len())?;
        self.room = self.room.max(count);
        Ok(())
    }

    /// Lets the end rise by one.
    pub fn add_number(&mut self)
        requires room { 0 < self.old.room }
        requires small { self.old.end < 2 ^ 32 }
        ensures members { self.new.members ≡ self.old.members }
        ensures end { self.new.end ≡ self.old.end + 1 }
        ensures room { self.old.room ≤ self.new.room + 1 }
    {
        let _members = &self.members;
        self.end += 1;
        self.room -= 1;
    }
}

/// Adds noughts at the end, until there are so many numbers.
fn fill(count: usize, numbers: &mut Vec<u32>)
    requires { count ≤ vec_capacity numbers.old }
    ensures each { (i : ℕ) → slice_index numbers.new.items i ≡ slice_index numbers.old.items i }
    ensures enough { count ≤ length numbers.new.items }
    ensures longer { length numbers.old.items ≤ length numbers.new.items }
    ensures few { length numbers.new.items ≤ max (length numbers.old.items) count }
    ensures capacity { vec_capacity numbers.old ≤ vec_capacity numbers.new }
{
    for i in numbers.len()..count {
        push_in_room(numbers, 0);
    }
}
