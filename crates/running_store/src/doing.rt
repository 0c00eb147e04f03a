// A command is checked and done on what it reads.
ghost use Rattle.std.specs.Prelude.{◌≡◌, ◌==◌, ◌<◌, ◌≤◌, ◌||◌, ℕ, All, List, Some, length, IsSome, if◌then◌else◌, IsTrue, OnErr, OnOk};
ghost use Rattle.std.specs.Result.{result_err};
ghost use Rattle.oper_core.specs.Meaning.{FitsReads, IsInGrammar};
ghost use Rattle.oper_core.specs.State.{is_among};
ghost use Rattle.number_lists.specs.Marks.{mark_at};
ghost use Rattle.dirty_cache.specs.Contents.{held, is_dirty, HasRoom, KeepsRooms};
ghost use Rattle.running_store.specs.Calls.Commands.{IsReady};
ghost use Rattle.running_store.specs.Laid.Fetched.{IsFetched};
ghost use Rattle.running_store.specs.Laid.{IsLaidOn, with_entries};
ghost use Rattle.running_store.specs.Laid.Lengths.{with_marks};
ghost use Rattle.running_store.specs.Laid.Lent.{cached_values, inputs_in};
ghost use Rattle.running_store.specs.Parts.{meaning_in};
ghost use Rattle.running_store.specs.Laid.Ran.{HasRun};

use crate::empties::note_value;
use crate::lending::{apply_inputs, check_inputs};
use crate::objects::Objects;
use dirty_cache::Cache;
use number_lists::NumberTree;
use oper_core::{ByteList, Memory, Oper, Refusal, Values};

/// Puts an object's new value into the cache under an LSN, and notes whether it is empty. No memory.
fn put_value(cache: &mut Cache, empties: &mut NumberTree, lsn: u64, object: u32, value: ByteList)
    requires below { object < length empties.old.marks }
    requires room { HasRoom cache.old object }
    ensures entries { (x : ℕ) → held cache.new x ≡ (if x == object then Some (record { lsn = lsn; bytes = value }) else held cache.old x) }
    ensures dirty { (x : ℕ) → is_dirty cache.new x ≡ ((x == object) || is_dirty cache.old x) }
    ensures rooms { KeepsRooms cache.old cache.new }
    ensures count { length empties.new.marks ≡ length empties.old.marks }
    ensures marks { (x : ℕ) → mark_at empties.new.marks x ≡ (if x == object then (length value == 0) else mark_at empties.old.marks x) }
{
    note_value(empties, object, value.as_slice());
    cache.set(object, lsn, value.into_vec());
}

/// The same for several objects, whose values stand side by side with them.
fn put_values(
    cache: &mut Cache,
    empties: &mut NumberTree,
    lsn: u64,
    objects: &[u32],
    values: Values,
)
    requires below { All (λ x. x < length empties.old.marks) objects.now }
    requires room { All (HasRoom cache.old) objects.now }
    requires count { length values ≡ length objects.now }
    ensures entries { (x : ℕ) → held cache.new x ≡ with_entries (held cache.old) lsn objects.now values x }
    ensures dirty { (x : ℕ) → is_dirty cache.new x ≡ (is_among x objects.now || is_dirty cache.old x) }
    ensures count { length empties.new.marks ≡ length empties.old.marks }
    ensures marks { (x : ℕ) → mark_at empties.new.marks x ≡ with_marks (mark_at empties.old.marks) objects.now values x }
{
    let mut values = values;
    while let Some(value) = values.pop() {
        put_value(cache, empties, lsn, objects[values.len()], value);
    }
}

impl Objects {
    /// Whether the cache may hold all these objects at once, also where all are clean.
    pub(crate) fn may_hold(&self, objects: &[u32]) -> bool {
        objects.len() <= self.cache.limit()
    }

    /// Whether all these objects are cached.
    pub(crate) fn holds_all(&self, objects: &[u32]) -> bool
        ensures { IsTrue result → All (λ x. IsSome (held self.now.cache x)) objects.now }
    {
        for object in objects {
            if !self.holds(*object) {
                return false;
            }
        }
        true
    }

    /// How many bytes a value has at most.
    pub(crate) fn longest(&self) -> u32
        ensures { (x : ℕ) → length (cached_values self.now.cache x) ≤ self.now.slots.params.cap }
    {
        self.slots.params().cap
    }

    /// The answer of a command's check on what it reads. Each object has the pair that it had.
    pub(crate) fn check<O: Oper>(&mut self, op: &O, copies: &Option<Values>) -> Result<(), Refusal>
        requires grammar { IsInGrammar (meaning_in O.meaning self.old.slots.params) op.now }
        requires fits { FitsReads (meaning_in O.meaning self.old.slots.params) op.now (inputs_in self.old.cache ((meaning_in O.meaning self.old.slots.params).reads op.now) copies.now) }
        ensures answer { result_err result ≡ (meaning_in O.meaning self.old.slots.params).check op.now (inputs_in self.old.cache ((meaning_in O.meaning self.old.slots.params).reads op.now) copies.now) }
        ensures slots { self.new.slots ≡ self.old.slots }
        ensures entries { (x : ℕ) → held self.new.cache x ≡ held self.old.cache x }
        ensures fetched { IsFetched self.old self.new }
        ensures laid { (file : List ℕ) → IsLaidOn self.old file → IsLaidOn self.new file }
    {
        let bounds = self.bounds();
        // Called for its clauses: the LSNs are small.
        let _params = self.params();
        check_inputs(self.alloc, bounds, &mut self.cache, op, copies)
    }

    /// Does a command on what it reads: the objects that it writes, `writes`, get the values made, under an LSN. Without
    /// memory each object has the pair that it had.
    pub(crate) fn run<O: Oper>(
        &mut self,
        lsn: u64,
        op: O,
        copies: Option<Values>,
        writes: &[u32],
    ) -> Result<(), Memory>
        requires ready { IsReady O.meaning self.old.slots.params op (inputs_in self.old.cache ((meaning_in O.meaning self.old.slots.params).reads op) copies) }
        requires writes { writes.now ≡ (meaning_in O.meaning self.old.slots.params).writes op }
        requires room { All (HasRoom self.old.cache) writes.now }
        ensures slots { self.new.slots ≡ self.old.slots }
        ensures laid { (file : List ℕ) → IsLaidOn self.old file → IsLaidOn self.new file }
        ensures done { OnOk result (HasRun O.meaning self.old self.new lsn op copies) }
        ensures same { OnErr result ((x : ℕ) → held self.new.cache x ≡ held self.old.cache x) }
        ensures fetched { OnErr result (IsFetched self.old self.new) }
    {
        let bounds = self.bounds();
        // Called for its clauses: the LSNs are small.
        let _params = self.params();
        let made = apply_inputs(self.alloc, bounds, &mut self.cache, op, copies)?;
        put_values(&mut self.cache, &mut self.empties, lsn, writes, made);
        Ok(())
    }
}
