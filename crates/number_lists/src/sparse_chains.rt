ghost use Rattle.std.specs.Prelude.{◌≡◌, ℕ, ◌<◌, ◌≤◌, ◌+◌, ◌^◌, [], length, nat_eq, OnOk, IsTrue, MatchOption, ◌∷◌, List, slice_index, map};
ghost use Rattle.std.specs.List.{IsDistinct};
ghost use Rattle.std.specs.Vec.{vec_capacity};
ghost use Rattle.oper_core.specs.State.{is_among};
ghost use Rattle.number_lists.specs.Lists.{list_at, IsFree, IsCleared, IsEmptied, IsPushed, IsPopped, IsPoured, IsWider, AreAdded};
ghost use Rattle.number_lists.specs.Sparse.{IsBegun, IsStood};

use crate::chains::Chains;
use crate::push::push_in_room;
use oper_core::Memory;
use std::alloc::Global;
use std::marker::Model;

/// The list of the free places.
const FREE: u32 = 0;

/// How many numbers there are at most.
const MOST: usize = 1 << 31;

/// How many lists there are at most, that of the free places among them.
const MOST_LISTS: usize = 1 << 32;

/// The same lists as those of `Chains`, for numbers of which few are in one at a time: a number stands at a place while it is in a list,
/// and the places are what is listed. Room is reserved for all numbers, and only places that were taken are ever written.
#[derive(Drop)]
pub struct SparseChains {
    /// The free places, and behind them the lists.
    places: Chains,
    /// By place, the number that stands there; of a free one, any.
    numbers: Vec<u32>,
    /// How many numbers there are.
    items: usize,
    /// For how many more numbers there is memory.
    room: usize,
}

impl Model for SparseChains {
    ghost use Rattle.std.specs.Prelude.{◌+◌, ◌≤◌, ◌^◌, length};
    ghost use Rattle.std.specs.Vec.{vec_capacity};
    ghost use Rattle.number_lists.specs.Lists.{Lists};
    ghost use Rattle.number_lists.specs.Sparse.{seen, AreStanding};

    ghost Value = { Lists };

    ghost view = { λ s. seen s.places s.numbers.items s.items s.room };

    ghost invariant = { λ s. AreStanding s.places s.numbers.items s.items × (s.items + s.room ≤ 2 ^ 31) ×
        (s.items + s.room ≤ s.places.items + s.places.item_room) × (s.items + s.room ≤ vec_capacity s.numbers) };
}

impl SparseChains {
    /// No lists.
    pub fn new(alloc: Global) -> Self
        ensures lists { result.lists ≡ [] }
        ensures items { result.items ≡ 0 }
    {
        SparseChains {
            places: Chains::new(alloc),
            numbers: Vec::new(alloc),
            items: 0,
            room: 0,
        }
    }

    /// How many numbers a list has.
    pub fn count(&self, list: u32) -> usize
        requires { list < length self.now.lists }
        ensures value { result ≡ length (list_at self.now.lists list) }
        ensures distinct { IsDistinct nat_eq (list_at self.now.lists list) }
    {
        let _numbers = &self.numbers;
        self.places.count(list + 1)
    }

    /// The first number of a list, none where it is empty.
    pub fn first(&self, list: u32) -> Option<u32>
        requires { list < length self.now.lists }
        ensures { MatchOption result (list_at self.now.lists list ≡ []) (λ k. (rest : List ℕ) × (list_at self.now.lists list ≡ k ∷ rest)) }
    {
        let Some(place) = self.places.first(list + 1) else {
            return None;
        };
        Some(self.numbers[place as usize])
    }

    /// Puts a number that is in no list in front of a list.
    pub fn push(&mut self, list: u32, item: u32)
        requires list { list < length self.old.lists }
        requires item { item < self.old.items }
        requires free { IsFree self.old.lists item }
        ensures { IsPushed self.old list item self.new }
    {
        let place = stand(item, &mut self.places, &mut self.numbers);
        self.places.push(list + 1, place);
    }

    /// Takes the first number out of a list.
    pub fn pop(&mut self, list: u32) -> Option<u32>
        requires { list < length self.old.lists }
        ensures { MatchOption result (IsEmptied self.old list self.new) (λ k. IsPopped self.old list k self.new) }
    {
        let Some(place) = self.places.pop(list + 1) else {
            return None;
        };
        self.places.push(FREE, place);
        Some(self.numbers[place as usize])
    }

    /// Takes all numbers out of a list.
    pub fn clear(&mut self, list: u32)
        requires { list < length self.old.lists }
        ensures { IsCleared self.old list self.new }
    {
        self.places.pour(list + 1, FREE);
    }

    /// Moves all numbers of one list to another.
    pub fn pour(&mut self, from: u32, to: u32)
        requires from { from < length self.old.lists }
        requires to { to < length self.old.lists }
        requires apart { from ≡ to → ⊥ }
        ensures { IsPoured self.old from to self.new }
    {
        self.places.pour(from + 1, to + 1);
    }

    /// Writes down the numbers of a list.
    pub fn copy_to(&self, list: u32, out: &mut Vec<u32>)
        requires list { list < length self.now.lists }
        requires room { self.now.items ≤ vec_capacity out.old }
        ensures items { out.new.items ≡ list_at self.now.lists list }
        ensures distinct { IsDistinct nat_eq out.new.items }
        ensures capacity { vec_capacity out.old ≤ vec_capacity out.new }
    {
        self.places.copy_to(list + 1, out);
        name_all(out, self.numbers.as_slice());
    }

    /// Makes room for so many more lists and numbers. Nothing else changes, also where it is out of memory, as
    /// it is where there would be more numbers than `2^31`.
    pub fn make_room(&mut self, lists: usize, items: usize) -> Result<(), Memory>
        ensures lists { self.new.lists ≡ self.old.lists }
        ensures items { self.new.items ≡ self.old.items }
        ensures list_room { OnOk result (lists ≤ self.new.list_room) }
        ensures item_room { OnOk result (items ≤ self.new.item_room) }
        ensures lists_kept { self.old.list_room ≤ self.new.list_room }
        ensures items_kept { self.old.item_room ≤ self.new.item_room }
    {
        if lists >= MOST_LISTS - self.places.len() {
            return Err(Memory);
        }
        if items > MOST - self.items {
            return Err(Memory);
        }
        let more = self.items + items - self.numbers.len();
        self.places.make_room(lists + 1, more)?;
        self.numbers.reserve(more)?;
        self.room = self.room.max(items);
        Ok(())
    }

    /// One more list, which is empty.
    pub fn add_list(&mut self)
        requires { 0 < self.old.list_room }
        ensures { IsWider self.old self.new }
    {
        begin(&mut self.places);
        self.places.add_list();
    }

    /// So many more numbers, which are in no list.
    pub fn add_items(&mut self, count: usize)
        requires { count ≤ self.old.item_room }
        ensures { AreAdded count self.old self.new }
    {
        self.items += count;
        self.room -= count;
    }
}

/// Adds the list of the free places, where there is none yet.
fn begin(places: &mut Chains)
    requires { length places.old.lists ≡ 0 → 0 < places.old.list_room }
    ensures { IsBegun places.old places.new }
{
    if places.len() == 0 {
        places.add_list();
    }
}

/// Finds a place for a number that is in no list, a free one where there is one; the place is in no list then.
fn stand(item: u32, places: &mut Chains, numbers: &mut Vec<u32>) -> u32
    requires begun { 0 < length places.old.lists }
    requires count { places.old.items ≡ length numbers.old.items }
    requires room { list_at places.old.lists 0 ≡ [] → (0 < places.old.item_room) × (length numbers.old.items < vec_capacity numbers.old) × (length numbers.old.items < 2 ^ 31) }
    ensures stood { IsStood item result places.old numbers.old.items places.new numbers.new.items }
    ensures capacity { vec_capacity numbers.old ≤ vec_capacity numbers.new }
{
    if let Some(place) = places.pop(FREE) {
        numbers[place as usize] = item;
        return place;
    }
    let place = numbers.len() as u32;
    places.add_item();
    push_in_room(numbers, item);
    place
}

/// Puts the numbers that stand at the places in their stead.
fn name_all(places: &mut Vec<u32>, numbers: &[u32])
    requires { (k : ℕ) → IsTrue (is_among k places.old.items) → k < length numbers.now }
    ensures items { places.new.items ≡ map (slice_index numbers.now) places.old.items }
    ensures capacity { vec_capacity places.old ≤ vec_capacity places.new }
{
    for i in 0..places.len() {
        let place = places[i];
        places[i] = numbers[place as usize];
    }
}
