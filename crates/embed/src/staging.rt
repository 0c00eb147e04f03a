// Transactions: commands that are staged, and then all added or none.
ghost use Rattle.std.specs.Prelude.{◌≡◌, ◌+◌, ◌≤◌, ◌^◌, ◌++◌, true, false, List, None, Err, length, take, IfOk, IsErrOf};
ghost use Rattle.disk_model.specs.Disk.{LeavesOnly, Passes};
ghost use Rattle.disk_model.specs.Silent.{IsSilent};
ghost use Rattle.execution.specs.Answers.{ending_of_exec};
ghost use Rattle.formats.specs.declared.params.Params.{Params};
ghost use Rattle.op_codec.specs.AllOps.{AllOps as Command, all_meaning};
ghost use Rattle.running_store.specs.Calls.{IsFailed};
ghost use Rattle.store_engine.specs.Engine.{Between, Holds, forced_in};
ghost use Rattle.store_engine.specs.Store.{Stands, state_of};
ghost use Rattle.transactions.specs.Admitted.{HasStaged};
ghost use Rattle.transactions.specs.Committing.{IsLeft, IsLeftLazily};
ghost use Rattle.transactions.specs.Staged.{IsStaged, OnlyReads};
ghost use Rattle.embed.specs.Embedded.{GivesValue, IsStillBroken};

use crate::Store;
use crate::calls::copy_front;
use disk_model::Machine;
use op_codec::AllOps;
use oper_core::Values;
use store_engine::ExecErr;
use transactions::{CommitErr, Transaction};

impl<M: Machine + Drop> Store<M> {
    /// Stages a command, after those that are staged: as `Transaction::exec`. Nothing is logged, and the store has the commands that
    /// it had.
    pub fn stage(
        &mut self,
        transaction: &mut Transaction<AllOps>,
        op: AllOps,
    ) -> Result<(), ExecErr>
        ensures time { Passes (M.disk self.old.machine) (M.disk self.new.machine) }
        ensures reads { self.old.engine.broken ≡ false → OnlyReads all_meaning (M.disk self.old.machine) (M.disk self.new.machine) self.old.engine self.new.engine (IsFailed (ending_of_exec result)) }
        ensures staged { (p : Params) (commands : List Command) → Holds all_meaning p (M.disk self.old.machine) self.old.engine commands →
            IsStaged all_meaning p commands transaction.old.ops.items transaction.old.bytes transaction.old.made →
            HasStaged all_meaning p commands transaction.old.ops.items transaction.new.ops.items transaction.new.bytes transaction.new.made op result }
        ensures broken { self.old.engine.broken ≡ true → IsStillBroken ExecErr.DiskFault self.old self.new result × (transaction.new ≡ transaction.old) }
    {
        if self.is_broken() {
            return Err(ExecErr::DiskFault);
        }
        transaction.exec(&mut self.engine, &mut self.machine, op)
    }

    /// Copies the front of the value that an object has after the staged commands, as much as there is room for, and answers how
    /// many bytes the value has; none where there is no such object.
    pub fn staged_value(
        &mut self,
        transaction: &Transaction<AllOps>,
        object: u32,
        into: &mut [u8],
    ) -> Result<Option<usize>, ExecErr>
        ensures time { Passes (M.disk self.old.machine) (M.disk self.new.machine) }
        ensures reads { self.old.engine.broken ≡ false → OnlyReads all_meaning (M.disk self.old.machine) (M.disk self.new.machine) self.old.engine self.new.engine (IsFailed (ending_of_exec result)) }
        ensures value { (p : Params) (commands : List Command) → Holds all_meaning p (M.disk self.old.machine) self.old.engine commands →
            IsStaged all_meaning p commands transaction.now.ops.items transaction.now.bytes transaction.now.made →
            IfOk result (GivesValue p.objects object (state_of all_meaning p (commands ++ transaction.now.ops.items) object) into.old into.new) }
        ensures broken { self.old.engine.broken ≡ true → IsStillBroken ExecErr.DiskFault self.old self.new result }
    {
        if self.is_broken() {
            return Err(ExecErr::DiskFault);
        }
        if object >= self.engine.params().objects {
            return Ok(None);
        }
        let mut values = Values::new(self.engine.alloc());
        if let Err(e) = transaction.value(
            &mut self.engine,
            &mut self.machine,
            object,
            &mut values,
        ) {
            return Err(e);
        }
        match values.pop() {
            Some(value) => Ok(Some(copy_front(value.as_slice(), into))),
            None => Err(ExecErr::Memory),
        }
    }

    /// Adds the staged commands, all in one group, or none of them: as `Transaction::commit`. What `Cut` leaves in the group
    /// `abort` gives up.
    pub fn commit(&mut self, transaction: &mut Transaction<AllOps>) -> Result<(), CommitErr>
        requires alone { self.old.engine.broken ≡ false → self.old.engine.group ≡ None }
        ensures time { Passes (M.disk self.old.machine) (M.disk self.new.machine) }
        ensures left { (p : Params) (commands : List Command) → Holds all_meaning p (M.disk self.old.machine) self.old.engine commands →
            IsStaged all_meaning p commands transaction.old.ops.items transaction.old.bytes transaction.old.made →
            self.old.engine.parts.log.next + length transaction.old.ops.items ≤ 2 ^ 62 →
            IsLeft all_meaning p (M.disk self.new.machine) self.old.engine self.new.engine commands transaction.old.ops.items result }
        ensures images { (M.disk self.old.machine).tells_moments → (p : Params) (commands : List Command) → Holds all_meaning p (M.disk self.old.machine) self.old.engine commands →
            IsStaged all_meaning p commands transaction.old.ops.items transaction.old.bytes transaction.old.made →
            LeavesOnly (M.disk self.old.machine) (M.disk self.new.machine) (Between all_meaning p (M.disk self.old.machine) None (forced_in self.old.engine) (length commands) commands) }
        ensures kept { IsErrOf result CommitErr.LogFull → (transaction.new.ops ≡ transaction.old.ops) × (transaction.new.bytes ≡ transaction.old.bytes) × (transaction.new.made ≡ transaction.old.made) }
        ensures broken { self.old.engine.broken ≡ true → IsStillBroken CommitErr.DiskFault self.old self.new result × (transaction.new ≡ transaction.old) }
    {
        if self.is_broken() {
            return Err(CommitErr::DiskFault);
        }
        transaction.commit(&mut self.engine, &mut self.machine)
    }

    /// Adds the staged commands, or none of them, and forces nothing: as `Transaction::commit_lazily`. What `Cut` leaves `reopen`
    /// undoes, with all that is not forced.
    pub fn commit_lazily(&mut self, transaction: &mut Transaction<AllOps>) -> Result<(), CommitErr>
        requires alone { self.old.engine.broken ≡ false → self.old.engine.group ≡ None }
        ensures time { Passes (M.disk self.old.machine) (M.disk self.new.machine) }
        ensures left { (p : Params) (commands : List Command) → Holds all_meaning p (M.disk self.old.machine) self.old.engine commands →
            IsStaged all_meaning p commands transaction.old.ops.items transaction.old.bytes transaction.old.made →
            self.old.engine.parts.log.next + length transaction.old.ops.items ≤ 2 ^ 62 →
            IsLeftLazily all_meaning p (M.disk self.new.machine) self.old.engine self.new.engine commands transaction.old.ops.items result }
        ensures images { (M.disk self.old.machine).tells_moments → (p : Params) (commands : List Command) → Holds all_meaning p (M.disk self.old.machine) self.old.engine commands →
            IsStaged all_meaning p commands transaction.old.ops.items transaction.old.bytes transaction.old.made →
            self.old.engine.parts.log.next + length transaction.old.ops.items ≤ 2 ^ 62 →
            LeavesOnly (M.disk self.old.machine) (M.disk self.new.machine) (IsSilent (λ files. Stands all_meaning p files (take (forced_in self.old.engine) commands)) (M.disk self.old.machine).said) }
        ensures kept { IsErrOf result CommitErr.LogFull → (transaction.new.ops ≡ transaction.old.ops) × (transaction.new.bytes ≡ transaction.old.bytes) × (transaction.new.made ≡ transaction.old.made) }
        ensures broken { self.old.engine.broken ≡ true → IsStillBroken CommitErr.DiskFault self.old self.new result × (transaction.new ≡ transaction.old) }
    {
        if self.is_broken() {
            return Err(CommitErr::DiskFault);
        }
        transaction.commit_lazily(&mut self.engine, &mut self.machine)
    }
}
