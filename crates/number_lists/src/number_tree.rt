ghost use Rattle.std.specs.Prelude.{◌≡◌, ◌≢◌, ℕ, ◌<◌, ◌≤◌, ◌+◌, ◌*◌, ◌/◌, ◌^◌, [], true, false, IsTrue, IsFalse, OnOk, length, slice_set};
ghost use Rattle.number_lists.specs.Marks.{mark_at, IsCount, IsNext, IsFirstBelow, IsNextRow, IsEmptyRow, AreLevels, IsGrown};

use crate::level::{Level, ROW};
use oper_core::Memory;
use std::alloc::Global;
use std::marker::Model;

/// A set of numbers below an end, in which the next member is found without a look at each number.
#[derive(Drop)]
pub struct NumberTree {
    /// Whether each number is a member.
    low: Level,
    /// Whether each row of `low` has a member.
    mid: Level,
    /// Whether each row of `mid` has one.
    high: Level,
    /// Whether each row of `high` has one.
    top: Level,
    count: usize,
    /// No number below this one is a member.
    least: usize,
    /// By how much the end may rise without memory.
    room: usize,
}

impl Model for NumberTree {
    ghost use Rattle.std.specs.Prelude.{◌≡◌, ◌+◌, ◌≤◌, ◌^◌, length};
    ghost use Rattle.number_lists.specs.Marks.{Marks, AreLevels, IsBelowMarks, count_marks};

    ghost Value = { Marks };

    ghost view = { λ t. record { marks = t.low.marks; room = t.room } };

    ghost invariant = { λ t. AreLevels t.low.marks t.mid.marks t.high.marks t.top.marks × (t.count ≡ count_marks t.low.marks) × IsBelowMarks t.least t.low.marks × (length t.low.marks ≤ 2 ^ 32) ×
        (t.room ≤ t.low.room) × (t.room ≤ t.mid.room) × (t.room ≤ t.high.room) × (t.room ≤ t.top.room) };
}

impl NumberTree {
    /// No numbers, and none to come.
    pub fn new(alloc: Global) -> Self
        ensures marks { result.marks ≡ [] }
        ensures room { result.room ≡ 0 }
    {
        NumberTree {
            low: Level::new(alloc),
            mid: Level::new(alloc),
            high: Level::new(alloc),
            top: Level::new(alloc),
            count: 0,
            least: 0,
            room: 0,
        }
    }

    /// How many members there are.
    pub fn len(&self) -> usize
        ensures { IsCount (λ n. IsTrue (mark_at self.now.marks n)) result }
    {
        let _low = &self.low;
        self.count
    }

    /// Whether the number is a member.
    pub fn contains(&self, n: u32) -> bool
        requires { n < length self.now.marks }
        ensures { result ≡ mark_at self.now.marks n }
    {
        self.low.has(n as usize)
    }

    /// Puts in a number, or takes it out.
    pub fn set(&mut self, n: u32, is_member: bool)
        requires { n < length self.old.marks }
        ensures marks { self.new.marks ≡ slice_set self.old.marks n is_member }
        ensures room { self.new.room ≡ self.old.room }
    {
        if is_member {
            self.insert(n);
        } else {
            self.remove(n);
        }
    }

    /// Puts in a number.
    pub fn insert(&mut self, n: u32)
        requires { n < length self.old.marks }
        ensures marks { self.new.marks ≡ slice_set self.old.marks n true }
        ensures room { self.new.room ≡ self.old.room }
    {
        let n = n as usize;
        if self.low.has(n) {
            return;
        }
        mark(
            n,
            &mut self.low,
            &mut self.mid,
            &mut self.high,
            &mut self.top,
        );
        self.count += 1;
        self.least = self.least.min(n);
    }

    /// Takes out a number.
    pub fn remove(&mut self, n: u32)
        requires { n < length self.old.marks }
        ensures marks { self.new.marks ≡ slice_set self.old.marks n false }
        ensures room { self.new.room ≡ self.old.room }
    {
        let n = n as usize;
        if !self.low.has(n) {
            return;
        }
        unmark(
            n,
            &mut self.low,
            &mut self.mid,
            &mut self.high,
            &mut self.top,
        );
        self.count -= 1;
        self.least = past(self.least, n);
    }

    /// The least member at or above the number. None exactly where there is none.
    pub fn next(&self, from: u32) -> Option<u32>
        ensures { IsNext self.now.marks from result }
    {
        self.next_at(self.least.max(from as usize))
    }

    /// The same from a number on that may be the end. The number's row is looked at first, and the levels only where it has none.
    fn next_at(&self, from: usize) -> Option<u32>
        requires small { from ≤ 2 ^ 32 }
        ensures { IsNext self.now.marks from result }
    {
        let row = from / ROW + 1;
        let near = first_in(self.low.marks(), from, row * ROW);
        if let Some(found) = near {
            return Some(found as u32);
        }
        let block = row / ROW + 1;
        let part = block / ROW + 1;
        let parts = first_in(self.top.marks(), part, self.top.len());
        let blocks = next_over(self.high.marks(), block, parts);
        let rows = next_over(self.mid.marks(), row, blocks);
        let Some(found) = next_over(self.low.marks(), from, rows) else {
            return None;
        };
        Some(found as u32)
    }

    /// Makes room for the end to rise by so many. Nothing else changes, also where it is out of memory.
    pub fn make_room(&mut self, count: usize) -> Result<(), Memory>
        ensures marks { self.new.marks ≡ self.old.marks }
        ensures room { OnOk result (count ≤ self.new.room) }
        ensures kept { self.old.room ≤ self.new.room }
    {
        if self.room >= count {
            return Ok(());
        }
        self.low.make_room(count)?;
        self.mid.make_room(count)?;
        self.high.make_room(count)?;
        self.top.make_room(count)?;
        self.room = count;
        Ok(())
    }

    /// Lets the end rise by one number, which is no member.
    pub fn add_number(&mut self)
        requires room { 0 < self.old.room }
        requires small { length self.old.marks < 2 ^ 32 }
        ensures marks { (n : ℕ) → mark_at self.new.marks n ≡ mark_at self.old.marks n }
        ensures end { length self.new.marks ≡ length self.old.marks + 1 }
        ensures room { self.old.room ≡ self.new.room + 1 }
    {
        self.low.add();
        grow(self.low.len(), &mut self.mid);
        grow(self.mid.len(), &mut self.high);
        grow(self.high.len(), &mut self.top);
        self.room -= 1;
    }
}

/// Adds a row, where there are too few for so many entries below.
fn grow(entries: usize, rows: &mut Level)
    requires room { 0 < rows.old.room }
    requires entries { entries ≤ 64 * length rows.old.marks + 64 }
    requires small { entries ≤ 2 ^ 32 }
    ensures grown { IsGrown entries rows.old.marks rows.new.marks }
    ensures room { rows.old.room ≤ rows.new.room + 1 }
{
    if entries / ROW >= rows.len() {
        rows.add();
    }
}

/// What no member is below once this number is taken out, if none is below `least` before.
fn past(least: usize, n: usize) -> usize
    requires least { least ≤ 2 ^ 32 }
    requires number { n < 2 ^ 32 }
    ensures below { (k : ℕ) → k < result → k ≢ n → k < least }
    ensures small { result ≤ 2 ^ 32 }
{
    if n == least { n + 1 } else { least }
}

/// Puts in the number, and marks its row in each level.
fn mark(n: usize, low: &mut Level, mid: &mut Level, high: &mut Level, top: &mut Level)
    requires below { n < length low.old.marks }
    requires levels { AreLevels low.old.marks mid.old.marks high.old.marks top.old.marks }
    ensures low { (low.new.marks ≡ slice_set low.old.marks n true) × (low.new.room ≡ low.old.room) }
    ensures mid { mid.new.room ≡ mid.old.room }
    ensures high { high.new.room ≡ high.old.room }
    ensures top { top.new.room ≡ top.old.room }
    ensures levels { AreLevels low.new.marks mid.new.marks high.new.marks top.new.marks }
{
    let row = n / ROW;
    let block = row / ROW;
    low.put(n);
    mid.put(row);
    high.put(block);
    top.put(block / ROW);
}

/// Takes out the number, and the marks of its rows that have no others.
fn unmark(n: usize, low: &mut Level, mid: &mut Level, high: &mut Level, top: &mut Level)
    requires below { n < length low.old.marks }
    requires levels { AreLevels low.old.marks mid.old.marks high.old.marks top.old.marks }
    ensures low { (low.new.marks ≡ slice_set low.old.marks n false) × (low.new.room ≡ low.old.room) }
    ensures mid { mid.new.room ≡ mid.old.room }
    ensures high { high.new.room ≡ high.old.room }
    ensures top { top.new.room ≡ top.old.room }
    ensures levels { AreLevels low.new.marks mid.new.marks high.new.marks top.new.marks }
{
    let row = n / ROW;
    if has_others(n, low) {
        return;
    }
    let block = row / ROW;
    if has_others(row, mid) {
        return;
    }
    if has_others(block, high) {
        return;
    }
    top.take(block / ROW);
}

/// Takes away the mark, and reports whether its row has others.
fn has_others(n: usize, level: &mut Level) -> bool
    requires { n < length level.old.marks }
    ensures marks { level.new.marks ≡ slice_set level.old.marks n false }
    ensures room { level.new.room ≡ level.old.room }
    ensures others { IsTrue result → (i : ℕ) × (i / 64 ≡ n / 64) × IsTrue (mark_at level.new.marks i) }
    ensures none { IsFalse result → IsEmptyRow level.new.marks (n / 64) }
{
    level.take(n);
    level.has_marks(n)
}

/// The first mark at or above the number. `row` is the first row after that of the number that has a mark.
fn next_over(marks: &[bool], from: usize, row: Option<usize>) -> Option<usize>
    requires small { from ≤ 2 ^ 32 }
    requires row { IsNextRow marks.now (from / 64 + 1) row }
    ensures { IsNext marks.now from result }
{
    let found = first_in(marks, from, (from / ROW + 1) * ROW);
    if found.is_some() {
        return found;
    }
    let Some(row) = row else {
        return None;
    };
    first_in(marks, row * ROW, row * ROW + ROW)
}

/// The first mark from one number on and below another.
fn first_in(marks: &[bool], from: usize, end: usize) -> Option<usize>
    ensures { IsFirstBelow marks.now from end result }
{
    for i in from..end {
        if is_marked(marks, i) {
            return Some(i);
        }
    }
    None
}

/// Whether the number has a mark.
fn is_marked(marks: &[bool], i: usize) -> bool
    ensures { result ≡ mark_at marks.now i }
{
    if i < marks.len() { marks[i] } else { false }
}
