// The log of another store is followed, record by record.
ghost use Rattle.std.specs.Prelude.{◌≡◌, ◌≢◌, ◌≤◌, ◌^◌, ◌↔◌, ℕ, false, List, [], IsErrOf, IsTrue, length, None, Some};
ghost use Rattle.oper_core.specs.State.{State};
ghost use Rattle.oper_core.specs.declared.bounds.Bounds.{Bounds};
ghost use Rattle.formats.specs.Records.{IsRecord, lsn_of, record_code};
ghost use Rattle.formats.specs.declared.params.Params.{Params};
ghost use Rattle.formats.specs.declared.record.Record.{Record as Logged};
ghost use Rattle.explain_core.specs.History.{IsMember, Member};
ghost use Rattle.explain_core.specs.Turns.{dirty_in};
ghost use Rattle.explain_core.specs.Sound.{IsSound};
ghost use Rattle.explain_core.specs.World.{IsLive, World};
ghost use Rattle.execution.specs.Following.{HasLsn, judge_in};
ghost use Rattle.execution.specs.Judged.{judge_behind, may_follow};
ghost use Rattle.running_store.specs.Parts.{ShowsVolatile};
ghost use Rattle.store_engine.specs.Engine.{params_of};
ghost use Rattle.store_engine.specs.Following.{HasFollowed, HasTendedThin};
ghost use Rattle.store_engine.specs.Store.{meaning_in};

use crate::Engine;
use disk_model::Machine;
use execution::RecordErr;
use formats::Record;
use oper_core::Oper;
use running_store::StoreErr;

impl<O: Oper> Engine<O> {
    /// Takes a record of another log as the next one: a command that nothing refuses, or an identity write of the value that its
    /// object has. False where the LSN is below the next one: the engine had it already.
    ///
    /// It answers `Gap` where the LSN is above the next one; `DiskFault`, `Damaged` and `Memory` while the objects are fetched
    /// on which it is judged; `Differs` where it is not what may come next; `LogFull` where the log would pass 2^48 bytes,
    /// whatever the store's limit is, and nothing is forced then; `DiskFault` where the block that waits is forced, since it has
    /// no room for the record; and `Memory`. Where it is not taken the map is as it was, and the log has no record more.
    pub fn follow<M: Machine>(
        &mut self,
        machine: &mut M,
        logged: Record<O>,
    ) -> Result<bool, RecordErr>
        requires unbroken { self.old.broken ≡ false }
        requires alone { self.old.group ≡ None }
        requires with_lsn { HasLsn logged }
        requires grammar { IsRecord (meaning_in O.meaning (params_of self.old)) logged }
        requires short { length (record_code (meaning_in O.meaning (params_of self.old)) logged) ≤ 2 ^ 30 }
        ensures followed { HasFollowed O.meaning (M.disk machine.old) (M.disk machine.new) self.old self.new logged result }
        // A record with another number than the next costs nothing.
        ensures idle { lsn_of logged ≢ Some self.old.parts.log.next → (machine.new ≡ machine.old) × (self.new ≡ self.old) }
    {
        execution::follow(&mut self.store, machine, logged)
    }

    /// How many objects are dirty.
    pub fn dirty(&self) -> u64
        ensures { (p : Params) (file : List ℕ) (w : World O) → ShowsVolatile (meaning_in O.meaning p) p file self.now.parts.volatile w → result ≡ dirty_in (meaning_in O.meaning p) w }
    {
        running_store::dirty_objects_are_counted::<O>();
        self.store.objects().dirty_count() as u64
    }

    /// A turn for which nothing is logged: where the minimal node of the least name that has at most one object to flush has one,
    /// that and others like it are installed together, so many at most (of 0 it is one) and with three syncs at most for all of
    /// them; where it has none, it leaves the graph. It answers how many nodes were installed: none exactly where there is no such
    /// node. Nothing may wait for a force.
    pub fn tend_thin<M: Machine>(&mut self, machine: &mut M, most: usize) -> Result<u64, StoreErr>
        requires unbroken { self.old.broken ≡ false }
        requires alone { self.old.group ≡ None }
        requires uncopied { self.old.copied ≡ None }
        requires empty { self.old.parts.log.log.pending ≡ [] }
        ensures tended { HasTendedThin O.meaning (M.disk machine.old) (M.disk machine.new) self.old self.new most result }
        ensures memory { IsErrOf result StoreErr.Memory → (machine.new ≡ machine.old) × (self.new ≡ self.old) }
    {
        explain_core::every_run_keeps::<O>();
        explain_core::a_thin_turn_may_be_taken::<O>();
        standing::image_stands::<O>();
        cache_manager::tend_thin(&mut self.store, machine, most)
    }
}

/// In a sound live world, as an engine shows it, a record is judged as behind the world's history. What may come next there is
/// what the history has a member for: a command that is accepted on the values, or an identity write of the value that its object
/// has.
pub fn records_are_judged<O: Oper>()
    ensures judged { (b : Bounds) (w : World O) (r : Logged O) → IsSound (O.meaning b) w → IsLive w → judge_in (O.meaning b) w r ≡ judge_behind (O.meaning b) w.history r }
    ensures member { (b : Bounds) (s : State) (member : Member O) → IsTrue (may_follow (O.meaning b) s member) ↔ IsMember (O.meaning b) s member }
{
    explain_core::history_gives_the_map::<O>();
    explain_core::live_cache_is_the_map::<O>();
}
