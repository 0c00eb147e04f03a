ghost use Rattle.std.specs.Prelude.{◌≡◌, ◌<◌, ◌++◌, [], ◌∷◌, List, ℕ, length, IfNone, IfSome, OnOk, OnErr, slice_get, slice_index_or, slice_set, Some};

use crate::{ByteList, Memory};
use arrayvec::ArrayVec;
use std::alloc::Global;
use std::marker::Model;
use std::mem;

/// A list of at most four values, each a list of bytes. The list itself takes no memory.
#[derive(Drop)]
pub struct Values {
    alloc: Global,
    items: ArrayVec<ByteList, 4, Global>,
}

impl Model for Values {
    ghost Value = { List (List ℕ) };

    ghost view = { λ s. s.items.items };
}

impl Values {
    /// No values.
    pub fn new(alloc: Global) -> Self
        ensures { result ≡ [] }
    {
        Values {
            alloc,
            items: ArrayVec::new_in(alloc),
        }
    }

    /// Adds a copy of the bytes as the last value.
    pub fn push(&mut self, value: &[u8]) -> Result<(), Memory>
        requires { length self.old < 4 }
        ensures ok { OnOk result (self.new ≡ self.old ++ value.now ∷ []) }
        ensures err { OnErr result (self.new ≡ self.old) }
    {
        let copy = value.to_vec(self.alloc)?;
        self.push_list(ByteList::new(copy));
        Ok(())
    }

    /// Adds the list, moved in, as the last value. No memory.
    pub fn push_list(&mut self, list: ByteList)
        requires { length self.old < 4 }
        ensures { self.new ≡ self.old ++ list ∷ [] }
    {
        self.items.push(list);
    }

    /// Takes the last value out, if there is one.
    pub fn pop(&mut self) -> Option<ByteList>
        ensures some { IfSome result (λ list. self.old ≡ self.new ++ list ∷ []) }
        ensures none { IfNone result (self.old ≡ []) }
    {
        self.items.pop()
    }

    /// Puts a value in a place, and gives the one that was there. No memory.
    pub fn replace(&mut self, i: usize, list: ByteList) -> ByteList
        requires { i < length self.old }
        ensures value { result ≡ slice_index_or self.old i [] }
        ensures after { self.new ≡ slice_set self.old i list }
    {
        mem::replace(&mut self.items.as_mut_slice()[i], list)
    }

    /// How many values there are.
    pub fn len(&self) -> usize
        ensures { result ≡ length self.now }
    {
        self.items.len()
    }

    /// The value at a place.
    pub fn get(&self, i: usize) -> &[u8]
        requires { i < length self.now }
        ensures { slice_get self.now i ≡ Some result.now }
    {
        self.items.as_slice()[i].as_slice()
    }
}
