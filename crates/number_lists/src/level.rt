ghost use Rattle.std.specs.Prelude.{◌≡◌, ℕ, ◌<◌, ◌≤◌, ◌+◌, ◌*◌, ◌/◌, ◌^◌, ◌++◌, ◌∷◌, [], true, false, IsTrue, IsFalse, OnOk, length, slice_set, slice_index_or};
ghost use Rattle.std.specs.Vec.{vec_len, vec_capacity};
ghost use Rattle.number_lists.specs.Marks.{mark_at, IsEmptyRow};

use crate::push::push_in_room;
use oper_core::Memory;
use std::alloc::Global;
use std::marker::Model;

/// How many numbers a row has.
pub(crate) const ROW: usize = 64;

/// Whether each number below an end has a mark, and how many marks each row has.
#[derive(Drop)]
pub(crate) struct Level {
    marks: Vec<bool>,
    counts: Vec<usize>,
}

impl Model for Level {
    ghost use Rattle.std.specs.Prelude.{◌-◌, ◌≤◌, ◌^◌, min, length};
    ghost use Rattle.std.specs.Vec.{vec_capacity};
    ghost use Rattle.number_lists.specs.Marks.{Marks};
    ghost use Rattle.number_lists.specs.Counts.{AreCounted};

    ghost Value = { Marks };

    ghost view = { λ l. record { marks = l.marks.items; room = min (vec_capacity l.marks - length l.marks.items) (vec_capacity l.counts - length l.counts.items) } };

    ghost invariant = { λ l. AreCounted l.marks.items l.counts.items × (length l.marks.items ≤ 2 ^ 32) };
}

impl Level {
    /// No numbers.
    pub(crate) fn new(alloc: Global) -> Self
        ensures { result.marks ≡ [] }
    {
        Level {
            marks: Vec::new(alloc),
            counts: Vec::new(alloc),
        }
    }

    /// How many numbers there are.
    pub(crate) fn len(&self) -> usize
        ensures count { result ≡ length self.now.marks }
        ensures small { result ≤ 2 ^ 32 }
    {
        let _counts = &self.counts;
        self.marks.len()
    }

    /// Whether each number has a mark.
    pub(crate) fn marks(&self) -> &[bool]
        ensures { result.now ≡ self.now.marks }
    {
        let _counts = &self.counts;
        self.marks.as_slice()
    }

    /// Whether the number has a mark.
    pub(crate) fn has(&self, n: usize) -> bool
        requires { n < length self.now.marks }
        ensures { result ≡ mark_at self.now.marks n }
    {
        let _counts = &self.counts;
        self.marks[n]
    }

    /// Marks the number.
    pub(crate) fn put(&mut self, n: usize)
        requires { n < length self.old.marks }
        ensures marks { self.new.marks ≡ slice_set self.old.marks n true }
        ensures room { self.new.room ≡ self.old.room }
    {
        if self.marks[n] {
            return;
        }
        self.marks[n] = true;
        self.counts[n / ROW] += 1;
    }

    /// Takes away the mark of the number.
    pub(crate) fn take(&mut self, n: usize)
        requires { n < length self.old.marks }
        ensures marks { self.new.marks ≡ slice_set self.old.marks n false }
        ensures room { self.new.room ≡ self.old.room }
    {
        if !self.marks[n] {
            return;
        }
        self.marks[n] = false;
        self.counts[n / ROW] -= 1;
    }

    /// Whether the number's row has marks.
    pub(crate) fn has_marks(&self, n: usize) -> bool
        requires { n < length self.now.marks }
        ensures some { IsTrue result → (i : ℕ) × (i / 64 ≡ n / 64) × IsTrue (mark_at self.now.marks i) }
        ensures none { IsFalse result → IsEmptyRow self.now.marks (n / 64) }
    {
        let _marks = &self.marks;
        self.counts[n / ROW] > 0
    }

    /// Takes the memory for so many more numbers. Nothing else changes, also where it is out of memory.
    pub(crate) fn make_room(&mut self, count: usize) -> Result<(), Memory>
        ensures marks { self.new.marks ≡ self.old.marks }
        ensures room { OnOk result (count ≤ self.new.room) }
        ensures kept { self.old.room ≤ self.new.room }
    {
        self.marks.reserve(count)?;
        self.counts.reserve(count)?;
        Ok(())
    }

    /// One more number, which has no mark.
    pub(crate) fn add(&mut self)
        requires room { 0 < self.old.room }
        requires small { length self.old.marks < 2 ^ 32 }
        ensures marks { self.new.marks ≡ self.old.marks ++ false ∷ [] }
        ensures room { self.old.room ≤ self.new.room + 1 }
    {
        add_row(self.marks.len(), &mut self.counts);
        push_in_room(&mut self.marks, false);
    }
}

/// Adds a row without marks, where the number is past the last one.
fn add_row(n: usize, counts: &mut Vec<usize>)
    requires number { n ≤ 64 * length counts.old.items }
    requires room { vec_len counts.old < vec_capacity counts.old }
    ensures each { (row : ℕ) → slice_index_or counts.new.items row 0 ≡ slice_index_or counts.old.items row 0 }
    ensures enough { n < 64 * length counts.new.items }
    ensures few { length counts.new.items ≤ length counts.old.items + 1 }
    ensures capacity { vec_capacity counts.old ≤ vec_capacity counts.new }
{
    if n / ROW >= counts.len() {
        push_in_room(counts, 0);
    }
}
