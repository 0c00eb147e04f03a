// The log of a standby's store is read into memory, to compare a stream with it.
ghost use Rattle.std.specs.Prelude.{◌≡◌, ◌<◌, ◌++◌, [], List, ℕ, false, length, IfOk, IsErrOf};
ghost use Rattle.std.specs.List.{AllByRecursion};
ghost use Rattle.disk_model.specs.Disk.{Rises};
ghost use Rattle.disk_model.specs.declared.machine.FileNo.{FileNo};
ghost use Rattle.oper_core.specs.Meaning.{IsSmall};
ghost use Rattle.oper_core.specs.declared.bounds.Bounds.{Bounds as Numbers};
ghost use Rattle.explain_core.specs.World.{World};
ghost use Rattle.formats.specs.Log.{IsPayload};
ghost use Rattle.formats.specs.Objects.{bounds_of};
ghost use Rattle.formats.specs.Records.{records_of};
ghost use Rattle.formats.specs.declared.params.Params.{Params};
ghost use Rattle.formats.specs.declared.record.Record.{Record};
ghost use Rattle.frame_stream.specs.Frames.{Splits, frames};
ghost use Rattle.store_engine.specs.Engine.{IsAttached, IsEngineRead, ShowsIn, params_of};
ghost use Rattle.store_engine.specs.Shipping.{AreFramesFrom, base_of};
ghost use Rattle.store_engine.specs.Store.{meaning_in};
ghost use Rattle.standby_node.specs.Same.{AreAllSame, BeginsNoFrame, HasCompared, IsMirrorOf, IsUnlikeIn, MirrorView, Unlike, ends_at, with_all};
ghost use Rattle.standby_node.specs.Standby.{AreFramesOf};

use crate::{Mirror, Standby, what_is_shipped_is_followed};
use disk_model::Machine;
use oper_core::{Bounds, Memory, Oper};
use std::alloc::Global;
use store_engine::ShipErr;

// The records of a log that begins with this LSN, and whose frames these are. They are compared with themselves, so it is memory
// that is wanting where this fails.
fn load<O: Oper>(alloc: Global, bounds: Bounds, base: u64, log: &[u8]) -> Result<Mirror, Memory>
    requires small { IsSmall bounds }
    ensures numbers { IfOk result (λ it. (it.bounds ≡ bounds) × (it.base ≡ base)) }
    ensures start { IfOk result (λ it. it.frames ≡ record { passed = 0; kept = [] }) }
    ensures codes { (payloads : List (List ℕ)) (groups : List (List (Record O))) → AllByRecursion IsPayload payloads → AreFramesOf (O.meaning bounds) payloads groups → log.now ≡ frames payloads
        → IfOk result (λ it. it.codes ≡ with_all base (O.meaning bounds) [] (records_of groups)) }
{
    log_records::one_record::<O>();
    let mut mirror = Mirror::new(alloc, bounds, base);
    match mirror.take::<O>(log) {
        Ok(()) => Ok(mirror.at_start()),
        Err(_) => Err(Memory),
    }
}

/// A stream whose whole frames were all compared, and are the same, has no other record than the store, in whatever frames it is
/// told apart. Where all of its whole frames were followed too, and it goes on, a record that is another one comes in a frame that
/// ends later.
pub fn a_stream_is_compared<O: Oper>()
    ensures same { (b : Numbers) (first : List (List ℕ)) (bytes : List ℕ) (it : MirrorView) → IsSmall b → HasCompared (O.meaning b) first bytes it → BeginsNoFrame (O.meaning b) it.frames.kept → AreAllSame it.base (O.meaning b) first bytes }
    ensures later { (b : Numbers) (base : ℕ) (first : List (List ℕ)) (bytes more : List ℕ) (payloads : List (List ℕ)) (groups : List (List (Record O))) (kept : List ℕ) (why : Unlike) → IsSmall b → AreAllSame base (O.meaning b) first bytes
        → Splits bytes payloads kept → AreFramesOf (O.meaning b) payloads groups → (it : IsUnlikeIn base (O.meaning b) first (bytes ++ more) why) → length bytes < ends_at base (O.meaning b) it }
{
    log_records::one_record::<O>();
}

impl<O: Oper> Standby<O> {
    // The numbers that bound its operations.
    fn bounds(&self) -> Bounds
        ensures value { result ≡ bounds_of (params_of self.now.engine) }
        ensures small { IsSmall result }
    {
        let params = self.engine.params();
        Bounds {
            objects: params.objects,
            cap: params.cap,
            more: params.more,
        }
    }

    // The allocator of its memory.
    fn alloc(&self) -> Global {
        self.engine.alloc()
    }

    // The LSN with which its log begins.
    fn log_base<M: Machine>(&mut self, machine: &mut M) -> Result<u64, ShipErr>
        requires unbroken { self.old.engine.broken ≡ false }
        ensures base { IfOk result (λ base. base ≡ base_of self.old.engine) }
        ensures read { IsEngineRead O.meaning (M.disk machine.old) (M.disk machine.new) self.old.engine self.new.engine (IsErrOf result ShipErr.DiskFault) }
        ensures rest { self.new ≡ record self.old { engine = self.new.engine } }
        ensures fault { IsErrOf result ShipErr.DiskFault → Rises (M.disk machine.old).disk_faults (M.disk machine.new).disk_faults }
        ensures undamaged { (file : FileNo) (place : ℕ) → IsErrOf result (ShipErr.Damaged file place) → ⊥ }
    {
        match self.engine.ship(machine, 0) {
            Err(ShipErr::Gone { base }) => Ok(base),
            Err(cause) => Err(cause),
            Ok(_) => Ok(0),
        }
    }

    // Its log, which begins with this LSN, as frames.
    fn read_log<M: Machine>(&mut self, machine: &mut M, base: u64) -> Result<Vec<u8>, ShipErr>
        requires unbroken { self.old.engine.broken ≡ false }
        ensures read { IsEngineRead O.meaning (M.disk machine.old) (M.disk machine.new) self.old.engine self.new.engine (IsErrOf result ShipErr.DiskFault) }
        ensures rest { self.new ≡ record self.old { engine = self.new.engine } }
        ensures frames { (M.disk machine.old).tells_files → IfOk result (λ log. AreFramesFrom O.meaning (M.disk machine.old) self.old.engine base log.items) }
        ensures fault { IsErrOf result ShipErr.DiskFault → Rises (M.disk machine.old).disk_faults (M.disk machine.new).disk_faults }
        ensures undamaged { (M.disk machine.old).tells_files → IsAttached O.meaning (M.disk machine.old) self.old.engine → (file : FileNo) (place : ℕ) → IsErrOf result (ShipErr.Damaged file place) → ⊥ }
    {
        let mut log = Vec::new(self.engine.alloc());
        match self.engine.frames(machine, base, &mut log) {
            Ok(()) => Ok(log),
            Err(cause) => Err(cause),
        }
    }

    /// The stable records of its log, in memory: what a stream is compared with before it is followed. The log is read, and nothing
    /// else is done. It may fail with `DiskFault` and `Memory`, and with `Damaged` where a record breaks its format.
    pub fn mirror<M: Machine>(&mut self, machine: &mut M) -> Result<Mirror, ShipErr>
        requires unbroken { self.old.engine.broken ≡ false }
        ensures read { IsEngineRead O.meaning (M.disk machine.old) (M.disk machine.new) self.old.engine self.new.engine (IsErrOf result ShipErr.DiskFault) }
        ensures rest { self.new ≡ record self.old { engine = self.new.engine } }
        ensures attached { IsAttached O.meaning (M.disk machine.old) self.old.engine → IsAttached O.meaning (M.disk machine.new) self.new.engine }
        ensures start { IfOk result (λ it. it.frames ≡ record { passed = 0; kept = [] }) }
        ensures mirrors { (p : Params) (w : World O) → ShowsIn O.meaning p (M.disk machine.old) self.old.engine w → IfOk result (IsMirrorOf (meaning_in O.meaning p) p w) }
        ensures fault { IsErrOf result ShipErr.DiskFault → Rises (M.disk machine.old).disk_faults (M.disk machine.new).disk_faults }
        ensures undamaged { (M.disk machine.old).tells_files → IsAttached O.meaning (M.disk machine.old) self.old.engine → (file : FileNo) (place : ℕ) → IsErrOf result (ShipErr.Damaged file place) → ⊥ }
    {
        what_is_shipped_is_followed::<O>();
        let bounds = self.bounds();
        let alloc = self.alloc();
        let base = self.log_base(machine)?;
        let log = self.read_log(machine, base)?;
        Ok(load::<O>(alloc, bounds, base, &log)?)
    }
}
