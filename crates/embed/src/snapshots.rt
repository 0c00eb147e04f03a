// Snapshots: a state is kept while the store goes on.
ghost use Rattle.std.specs.Prelude.{◌≡◌, ◌≤◌, ◌⊎◌, ◌++◌, ◌∷◌, [], ⊤, ℕ, true, false, List, None, Err, take, IfOk, IfSome, IsErrOf, IsSome, OnErr, OnOk};
ghost use Rattle.disk_model.specs.Disk.{Passes};
ghost use Rattle.formats.specs.declared.params.Params.{Params};
ghost use Rattle.execution.specs.declared.exec_err.ExecErr.TheVariants.{DiskFault};
ghost use Rattle.op_codec.specs.AllOps.{AllOps as Command, all_meaning};
ghost use Rattle.store_engine.specs.Engine.{Holds, accepted_in, params_of};
ghost use Rattle.store_engine.specs.Store.{state_of};
ghost use Rattle.transactions.specs.Snapshots.{AreKept, Covers, HasFailed, IsSnapshot, KeepsOn, RunsBeside};
ghost use Rattle.transactions.specs.Staged.{OnlyReads};
ghost use Rattle.embed.specs.Embedded.{GivesValue, IsStillBroken};

use crate::Store;
use crate::calls::copy_front;
use disk_model::Machine;
use op_codec::AllOps;
use oper_core::{Memory, Values};
use store_engine::ExecErr;
use transactions::{Snapshot, SnapshotErr, Transaction};

impl<M: Machine + Drop> Store<M> {
    /// A snapshot of the state that the store has now, as `Snapshot::begin`.
    pub fn snapshot(&self) -> Result<Snapshot, Memory>
        ensures begun { (p : Params) (commands : List Command) → Holds all_meaning p (M.disk self.now.machine) self.now.engine commands → IfOk result (λ s. IsSnapshot all_meaning p s commands commands) }
        ensures stands { IfOk result (λ s. IsSome s.kept) }
    {
        Snapshot::begin(self.engine.alloc(), &self.engine, &self.machine)
    }

    /// Does a command beside a snapshot, as `Snapshot::exec`.
    pub fn exec_beside(&mut self, snapshot: &mut Snapshot, op: AllOps) -> Result<u64, ExecErr>
        ensures time { Passes (M.disk self.old.machine) (M.disk self.new.machine) }
        ensures run { self.old.engine.broken ≡ false → RunsBeside all_meaning M.disk self.old.machine self.new.machine self.old.engine self.new.engine op result ⊎ ((result ≡ Err DiskFault) × (self.new.engine.broken ≡ true) × OnlyReads all_meaning (M.disk self.old.machine) (M.disk self.new.machine) self.old.engine self.new.engine ⊤) }
        ensures done { (p : Params) (base commands : List Command) → Holds all_meaning p (M.disk self.old.machine) self.old.engine commands → IsSnapshot all_meaning p snapshot.old base commands → OnOk result (IsSnapshot all_meaning p snapshot.new base (commands ++ op ∷ [])) }
        ensures undone { (p : Params) (base commands : List Command) → Holds all_meaning p (M.disk self.old.machine) self.old.engine commands → IsSnapshot all_meaning p snapshot.old base commands → OnErr result (IsSnapshot all_meaning p snapshot.new base commands) }
        ensures broken { self.old.engine.broken ≡ true → IsStillBroken ExecErr.DiskFault self.old self.new result × (snapshot.new ≡ snapshot.old) }
    {
        if self.is_broken() {
            return Err(ExecErr::DiskFault);
        }
        snapshot.exec(&mut self.engine, &mut self.machine, op)
    }

    /// Sees that the values which these objects have now are kept, as `Snapshot::keep`: before any call that may change them. A
    /// snapshot that stands then has them all.
    pub fn keep(&mut self, snapshot: &mut Snapshot, objects: &[u32])
        ensures time { Passes (M.disk self.old.machine) (M.disk self.new.machine) }
        ensures reads { self.old.engine.broken ≡ false → OnlyReads all_meaning (M.disk self.old.machine) (M.disk self.new.machine) self.old.engine self.new.engine (self.new.engine.broken ≡ true) }
        ensures whole { self.old.engine.broken ≡ false → IsSome snapshot.new.kept → self.new.engine.broken ≡ false }
        ensures kept { self.old.engine.broken ≡ false → IfSome snapshot.new.kept (λ kept. AreKept (params_of self.old.engine).objects kept objects.now) }
        ensures on { KeepsOn snapshot.old snapshot.new }
        ensures stands { IfSome snapshot.old.kept (λ kept. AreKept (params_of self.old.engine).objects kept objects.now) → snapshot.new ≡ snapshot.old }
        ensures snapshot { (p : Params) (base commands : List Command) → Holds all_meaning p (M.disk self.old.machine) self.old.engine commands → IsSnapshot all_meaning p snapshot.old base commands → IsSnapshot all_meaning p snapshot.new base commands }
        ensures broken { self.old.engine.broken ≡ true → (self.new ≡ self.old) × (snapshot.new ≡ snapshot.old) }
    {
        if self.is_broken() {
            return;
        }
        snapshot.keep(&mut self.engine, &mut self.machine, objects);
    }

    /// Sees that all is kept that the staged commands of a transaction write, as `Snapshot::keep_staged`: before its commit.
    pub fn keep_staged(&mut self, snapshot: &mut Snapshot, transaction: &Transaction<AllOps>)
        ensures time { Passes (M.disk self.old.machine) (M.disk self.new.machine) }
        ensures reads { self.old.engine.broken ≡ false → OnlyReads all_meaning (M.disk self.old.machine) (M.disk self.new.machine) self.old.engine self.new.engine (self.new.engine.broken ≡ true) }
        ensures whole { self.old.engine.broken ≡ false → IsSome snapshot.new.kept → self.new.engine.broken ≡ false }
        ensures covers { self.old.engine.broken ≡ false → Covers all_meaning (params_of self.old.engine) snapshot.new transaction.now.ops.items }
        ensures on { KeepsOn snapshot.old snapshot.new }
        ensures stands { Covers all_meaning (params_of self.old.engine) snapshot.old transaction.now.ops.items → snapshot.new ≡ snapshot.old }
        ensures snapshot { (p : Params) (base commands : List Command) → Holds all_meaning p (M.disk self.old.machine) self.old.engine commands → IsSnapshot all_meaning p snapshot.old base commands → IsSnapshot all_meaning p snapshot.new base commands }
        ensures broken { self.old.engine.broken ≡ true → (self.new ≡ self.old) × (snapshot.new ≡ snapshot.old) }
    {
        if self.is_broken() {
            return;
        }
        snapshot.keep_staged(&mut self.engine, &mut self.machine, transaction);
    }

    /// Copies the front of the value that an object had when a snapshot began, as much as there is room for, and answers how many
    /// bytes the value has; none where there is no such object. It answers `GivenUp` exactly where the snapshot was given up.
    pub fn snapshot_value(
        &mut self,
        snapshot: &Snapshot,
        object: u32,
        into: &mut [u8],
    ) -> Result<Option<usize>, SnapshotErr>
        ensures time { Passes (M.disk self.old.machine) (M.disk self.new.machine) }
        ensures reads { self.old.engine.broken ≡ false → OnlyReads all_meaning (M.disk self.old.machine) (M.disk self.new.machine) self.old.engine self.new.engine (HasFailed result) }
        ensures value { (p : Params) (base commands : List Command) → Holds all_meaning p (M.disk self.old.machine) self.old.engine commands → IsSnapshot all_meaning p snapshot.now base commands →
            IfOk result (GivesValue p.objects object (state_of all_meaning p base object) into.old into.new) }
        ensures given_up { self.old.engine.broken ≡ false → snapshot.now.kept ≡ None → result ≡ Err SnapshotErr.GivenUp }
        ensures stands { IsErrOf result SnapshotErr.GivenUp → snapshot.now.kept ≡ None }
        ensures broken { self.old.engine.broken ≡ true → IsStillBroken (SnapshotErr.Read DiskFault) self.old self.new result }
    {
        if self.is_broken() {
            return Err(SnapshotErr::Read(ExecErr::DiskFault));
        }
        if snapshot.is_given_up() {
            return Err(SnapshotErr::GivenUp);
        }
        if object >= self.engine.params().objects {
            return Ok(None);
        }
        let mut values = Values::new(self.engine.alloc());
        if let Err(e) = snapshot.value(&mut self.engine, &mut self.machine, object, &mut values) {
            return Err(e);
        }
        match values.pop() {
            Some(value) => Ok(Some(copy_front(value.as_slice(), into))),
            None => Err(SnapshotErr::Read(ExecErr::Memory)),
        }
    }

    /// The store went back to first ones of its commands, by `abort` or `reopen`: a snapshot that began behind these is given up, as
    /// by `Snapshot::go_back`, and no other.
    pub fn bring_back(&self, snapshot: &mut Snapshot)
        ensures back { (p : Params) (base commands : List Command) (n : ℕ) → IsSnapshot all_meaning p snapshot.old base commands → Holds all_meaning p (M.disk self.now.machine) self.now.engine (take n commands) →
            IsSnapshot all_meaning p snapshot.new base (take n commands) }
        ensures stands { snapshot.old.at ≤ accepted_in self.now.engine → snapshot.new ≡ snapshot.old }
    {
        snapshot.go_back(&self.engine, &self.machine);
    }
}
