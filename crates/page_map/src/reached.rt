// The objects of a range that a check has met.
ghost use Rattle.std.specs.Prelude.{◌≡◌, ◌<◌, ◌≤◌, ◌-◌, ◌^◌, ◌++◌, ◌∷◌, [], true, IfOk, OnErr, OnOk, length, suc};
ghost use Rattle.page_map.specs.Checks.{is_new};

use crate::map::Map;
use oper_core::Memory;
use std::alloc::Global;
use std::marker::Model;

/// Objects of a range, in the order in which they were met, and a mark for each.
#[derive(Drop)]
pub(crate) struct Reached<'m> {
    map: &'m Map,
    marks: Vec<bool>,
    objects: Vec<u32>,
}

impl<'m> Model for Reached<'m> {
    ghost use Rattle.page_map.specs.Checks.{IsMarked, Reached};

    ghost Value = { Reached };

    ghost view = { λ r. record { range = r.map.now; objects = r.objects.items } };

    ghost invariant = { λ r. IsMarked r.map.now r.marks.items r.objects.items };
}

impl<'m> Reached<'m> {
    /// None are.
    pub(crate) fn new(alloc: Global, map: &'m Map) -> Result<Self, Memory>
        ensures { IfOk result (λ reached. reached ≡ record { range = map.now; objects = [] }) }
    {
        let count = (map.last() - map.root()) as usize + 1;
        Ok(Reached {
            map,
            marks: vec![in alloc; false; count]?,
            objects: Vec::new(alloc),
        })
    }

    /// The range.
    pub(crate) fn map(&self) -> &'m Map
        ensures { result.now ≡ self.now.range }
    {
        let _marks = &self.marks;
        self.map
    }

    /// How many they are.
    pub(crate) fn count(&self) -> usize
        ensures value { result ≡ length self.now.objects }
        ensures within { result ≤ suc (self.now.range.hi - self.now.range.lo) }
        ensures few { result < 2 ^ 33 }
    {
        let _marks = &self.marks;
        self.objects.len()
    }

    /// Whether an object is one of the range that was not met.
    pub(crate) fn is_new(&self, object: u32) -> bool
        ensures { result ≡ is_new self.now.range self.now.objects object }
    {
        object >= self.map.root()
            && object <= self.map.last()
            && !self.marks[(object - self.map.root()) as usize]
    }

    /// One more is met.
    pub(crate) fn add(&mut self, object: u32) -> Result<(), Memory>
        requires { is_new self.old.range self.old.objects object ≡ true }
        ensures range { self.new.range ≡ self.old.range }
        ensures objects { OnOk result (self.new.objects ≡ self.old.objects ++ object ∷ []) }
        ensures none { OnErr result (self.new.objects ≡ self.old.objects) }
    {
        let place = (object - self.map.root()) as usize;
        self.objects.push(object)?;
        self.marks[place] = true;
        Ok(())
    }
}
