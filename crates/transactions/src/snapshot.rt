// A state of the store is kept, while commands are added.
ghost use Rattle.std.specs.Prelude.{◌≡◌, ◌≤◌, ◌<◌, ◌⊎◌, ◌++◌, ◌∷◌, [], ⊤, ℕ, List, false, true, length, take, None, Err, IfOk, IfSome, IsErrOf, IsSome, IsTrue, OnErr, OnOk};
ghost use Rattle.disk_model.specs.Disk.{Passes};
ghost use Rattle.execution.specs.declared.exec_err.ExecErr.TheVariants.{DiskFault};
ghost use Rattle.formats.specs.declared.params.Params.{Params};
ghost use Rattle.store_engine.specs.Engine.{Holds, params_of};
ghost use Rattle.store_engine.specs.Store.{state_of};
ghost use Rattle.transactions.specs.Snapshots.{AreKept, Covers, HasFailed, IsSnapshot, KeepsOn, RunsBeside};
ghost use Rattle.transactions.specs.Staged.{OnlyReads};

use crate::keeping::keep_all;
use crate::seeing::push_value;
use crate::snapshot_err::SnapshotErr;
use crate::transaction::Transaction;
use dirty_cache::Cache;
use disk_model::Machine;
use oper_core::{Memory, Oper, Values};
use std::alloc::Global;
use std::mem;
use store_engine::{Engine, ExecErr, engine_stands};

/// The state of a store at a moment. The value of an object is kept from before the first command that changes it since; those of
/// all others are read from the store.
///
/// Before each call that adds commands, what they write has to be kept: [`Snapshot::exec`] does so for one command,
/// [`Snapshot::keep_staged`] for those of a transaction, [`Snapshot::keep`] for others. Where that is refused the snapshot is given
/// up, and the call is made as without it. A store that goes back to fewer commands tells it by [`Snapshot::go_back`]. No other
/// call on a store matters to it.
#[derive(Drop)]
pub struct Snapshot {
    // So many commands the store had.
    at: u64,
    // The values that were kept; none where it is given up.
    kept: Option<Cache>,
}

impl Snapshot {
    /// A snapshot of the state that the store has now.
    pub fn begin<O: Oper, M: Machine>(
        alloc: Global,
        engine: &Engine<O>,
        machine: &M,
    ) -> Result<Self, Memory>
        ensures begun { (p : Params) (commands : List O) → Holds O.meaning p (M.disk machine.now) engine.now commands → IfOk result (λ s. IsSnapshot O.meaning p s commands commands) }
        ensures stands { IfOk result (λ s. IsSome s.kept) }
    {
        engine_stands(machine, engine);
        let kept = Cache::new(alloc, 1)?;
        Ok(Snapshot {
            at: engine.accepted(),
            kept: Some(kept),
        })
    }

    /// Whether it was given up.
    pub fn is_given_up(&self) -> bool
        ensures yes { IsTrue result → self.now.kept ≡ None }
        ensures no { result ≡ false → IsSome self.now.kept }
    {
        self.kept.is_none()
    }

    /// Adds the value that an object had when the snapshot began to a list of values. It answers `GivenUp` exactly where the snapshot
    /// was, and reads nothing then.
    pub fn value<O: Oper, M: Machine>(
        &self,
        engine: &mut Engine<O>,
        machine: &mut M,
        object: u32,
        into: &mut Values,
    ) -> Result<(), SnapshotErr>
        requires unbroken { engine.old.broken ≡ false }
        requires few { length into.old < 4 }
        ensures reads { OnlyReads O.meaning (M.disk machine.old) (M.disk machine.new) engine.old engine.new (HasFailed result) }
        ensures value { (p : Params) (base commands : List O) → Holds O.meaning p (M.disk machine.old) engine.old commands → IsSnapshot O.meaning p self.now base commands → object < p.objects →
            OnOk result (into.new ≡ into.old ++ state_of O.meaning p base object ∷ []) }
        ensures given_up { self.now.kept ≡ None → result ≡ Err SnapshotErr.GivenUp }
        ensures stands { IsErrOf result SnapshotErr.GivenUp → self.now.kept ≡ None }
    {
        let Some(kept) = &self.kept else {
            return Err(SnapshotErr::GivenUp);
        };
        match push_value(kept, engine, machine, object, into) {
            Ok(()) => Ok(()),
            Err(cause) => Err(SnapshotErr::Read(cause)),
        }
    }

    /// Sees that the values which these objects have now are kept, or is given up. The store is only read. Where they are kept
    /// already nothing changes.
    pub fn keep<O: Oper, M: Machine>(
        &mut self,
        engine: &mut Engine<O>,
        machine: &mut M,
        objects: &[u32],
    )
        requires unbroken { engine.old.broken ≡ false }
        ensures reads { OnlyReads O.meaning (M.disk machine.old) (M.disk machine.new) engine.old engine.new (engine.new.broken ≡ true) }
        ensures whole { IsSome self.new.kept → engine.new.broken ≡ false }
        ensures kept { IfSome self.new.kept (λ kept. AreKept (params_of engine.old).objects kept objects.now) }
        ensures on { KeepsOn self.old self.new }
        ensures stands { IfSome self.old.kept (λ kept. AreKept (params_of engine.old).objects kept objects.now) → self.new ≡ self.old }
        ensures snapshot { (p : Params) (base commands : List O) → Holds O.meaning p (M.disk machine.old) engine.old commands → IsSnapshot O.meaning p self.old base commands → IsSnapshot O.meaning p self.new base commands }
    {
        let Some(mut kept) = mem::replace(&mut self.kept, None) else {
            return;
        };
        if !keep_all(&mut kept, engine, machine, objects) {
            return;
        }
        self.kept = Some(kept);
    }

    /// Does the same for all that the staged commands of a transaction write.
    pub fn keep_staged<O: Oper, M: Machine>(
        &mut self,
        engine: &mut Engine<O>,
        machine: &mut M,
        transaction: &Transaction<O>,
    )
        requires unbroken { engine.old.broken ≡ false }
        ensures reads { OnlyReads O.meaning (M.disk machine.old) (M.disk machine.new) engine.old engine.new (engine.new.broken ≡ true) }
        ensures whole { IsSome self.new.kept → engine.new.broken ≡ false }
        ensures covers { Covers O.meaning (params_of engine.old) self.new transaction.now.ops.items }
        ensures on { KeepsOn self.old self.new }
        ensures stands { Covers O.meaning (params_of engine.old) self.old transaction.now.ops.items → self.new ≡ self.old }
        ensures snapshot { (p : Params) (base commands : List O) → Holds O.meaning p (M.disk machine.old) engine.old commands → IsSnapshot O.meaning p self.old base commands → IsSnapshot O.meaning p self.new base commands }
    {
        let mut next = 0;
        while let Some(op) = transaction.ops.get(next) {
            if engine.is_broken() {
                return;
            }
            self.keep(engine, machine, op.writes().as_slice());
            next += 1;
        }
    }

    /// Does a command as the engine's `exec`, and the snapshot goes on beside it, or is given up. It answers `DiskFault` too where
    /// the disk fails while a value is read that is to be kept; no command is done then.
    pub fn exec<O: Oper, M: Machine>(
        &mut self,
        engine: &mut Engine<O>,
        machine: &mut M,
        op: O,
    ) -> Result<u64, ExecErr>
        requires unbroken { engine.old.broken ≡ false }
        ensures time { Passes (M.disk machine.old) (M.disk machine.new) }
        ensures run { RunsBeside O.meaning M.disk machine.old machine.new engine.old engine.new op result ⊎ ((result ≡ Err DiskFault) × (engine.new.broken ≡ true) × OnlyReads O.meaning (M.disk machine.old) (M.disk machine.new) engine.old engine.new ⊤) }
        ensures done { (p : Params) (base commands : List O) → Holds O.meaning p (M.disk machine.old) engine.old commands → IsSnapshot O.meaning p self.old base commands → OnOk result (IsSnapshot O.meaning p self.new base (commands ++ op ∷ [])) }
        ensures undone { (p : Params) (base commands : List O) → Holds O.meaning p (M.disk machine.old) engine.old commands → IsSnapshot O.meaning p self.old base commands → OnErr result (IsSnapshot O.meaning p self.new base commands) }
    {
        let writes = op.writes();
        self.keep(engine, machine, writes.as_slice());
        if engine.is_broken() {
            return Err(ExecErr::DiskFault);
        }
        engine.exec(machine, op)
    }

    /// The store went back to first ones of its commands: the snapshot is given up, where it began behind these.
    pub fn go_back<O: Oper, M: Machine>(&mut self, engine: &Engine<O>, machine: &M)
        ensures back { (p : Params) (base commands : List O) (n : ℕ) → IsSnapshot O.meaning p self.old base commands → Holds O.meaning p (M.disk machine.now) engine.now (take n commands) →
            IsSnapshot O.meaning p self.new base (take n commands) }
        ensures stands { self.old.at ≤ engine.now.parts.log.accepted → self.new ≡ self.old }
    {
        engine_stands(machine, engine);
        if self.at <= engine.accepted() {
            return;
        }
        self.kept = None;
    }
}

/// A snapshot that keeps all that commands write goes on where they are added, or any first ones of them.
pub fn a_snapshot_goes_on<O: Oper>()
    ensures { (p : Params) (snapshot : Snapshot) (base commands ops : List O) (n : ℕ) → IsSnapshot O.meaning p snapshot base commands → Covers O.meaning p snapshot ops →
        IsSnapshot O.meaning p snapshot base (commands ++ take n ops) }
{}
