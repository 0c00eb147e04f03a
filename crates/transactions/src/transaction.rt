// Commands are staged.
ghost use Rattle.std.specs.Prelude.{◌≡◌, ◌+◌, ◌<◌, ◌≤◌, ◌^◌, ◌++◌, ◌∷◌, [], List, None, false, length, take, IfOk, IfSome, IsErrOf, OnOk};
ghost use Rattle.disk_model.specs.Disk.{LeavesOnly, Passes};
ghost use Rattle.disk_model.specs.Silent.{IsSilent};
ghost use Rattle.formats.specs.declared.params.Params.{Params};
ghost use Rattle.execution.specs.Answers.{ending_of_exec};
ghost use Rattle.running_store.specs.Calls.{IsFailed};
ghost use Rattle.store_engine.specs.Engine.{Between, Holds, forced_in};
ghost use Rattle.store_engine.specs.Store.{Stands, record_length, state_of};
ghost use Rattle.transactions.specs.Admitted.{HasStaged};
ghost use Rattle.transactions.specs.Committing.{IsLeft, IsLeftLazily};
ghost use Rattle.transactions.specs.Staged.{IsStaged, OnlyReads};

use crate::admitting::admit;
use crate::commit_err::CommitErr;
use crate::committing::commit;
use crate::lazily::commit_lazily;
use crate::overlay::{make_rooms, set_all};
use crate::seeing::push_value;
use dirty_cache::Cache;
use disk_model::Machine;
use formats::RECORD_HEAD;
use oper_core::{Memory, Oper, Values};
use std::alloc::Global;
use std::collections::VecDeque;
use store_engine::{Engine, ExecErr};

/// The commands of a transaction, of which none is logged, and the values that they make.
#[derive(Drop)]
pub struct Transaction<O: Oper> {
    alloc: Global,
    pub(crate) ops: VecDeque<O>,
    // So many bytes have their records.
    bytes: u64,
    // The values that they make.
    pub(crate) made: Cache,
}

// So many bytes have the records with that of one command more; none where no number of 64 bits says it.
fn longer<O: Oper>(bytes: u64, op: &O) -> Option<u64>
    ensures { (p : Params) → IfSome result (λ n. n ≡ bytes + record_length O.meaning p op.now) }
{
    let length = op.code_length().checked_add(RECORD_HEAD as u64)?;
    bytes.checked_add(length)
}

impl<O: Oper> Transaction<O> {
    /// A transaction without commands.
    pub fn new(alloc: Global) -> Result<Self, Memory>
        ensures none { IfOk result (λ it. it.ops.items ≡ []) }
        ensures staged { (p : Params) (commands : List O) → IfOk result (λ it. IsStaged O.meaning p commands it.ops.items it.bytes it.made) }
    {
        let made = Cache::new(alloc, 1)?;
        Ok(Transaction {
            alloc,
            ops: VecDeque::new(alloc),
            bytes: 0,
            made,
        })
    }

    /// So many bytes have the records of the staged commands.
    pub fn bytes(&self) -> u64
        ensures { result ≡ self.now.bytes }
    {
        self.bytes
    }

    /// Adds the value that an object has after the staged commands to a list of values.
    pub fn value<M: Machine>(
        &self,
        engine: &mut Engine<O>,
        machine: &mut M,
        object: u32,
        into: &mut Values,
    ) -> Result<(), ExecErr>
        requires unbroken { engine.old.broken ≡ false }
        requires few { length into.old < 4 }
        ensures reads { OnlyReads O.meaning (M.disk machine.old) (M.disk machine.new) engine.old engine.new (IsFailed (ending_of_exec result)) }
        ensures value { (p : Params) (commands : List O) → Holds O.meaning p (M.disk machine.old) engine.old commands → IsStaged O.meaning p commands self.now.ops.items self.now.bytes self.now.made →
            OnOk result (into.new ≡ into.old ++ state_of O.meaning p (commands ++ self.now.ops.items) object ∷ []) }
    {
        push_value(&self.made, engine, machine, object, into)
    }

    /// Adds the staged commands to those of the engine, all in one group, or none of them. What waits is forced first. They are
    /// stable after the next force, all at once, and a crash meanwhile leaves none of them, whatever is answered.
    ///
    /// It answers `LogFull` only where the log has no room for all their records; none is added then, and they are still staged:
    /// the engine may be drained and trimmed, and this be called again. It answers `Cut` only where memory runs out or the disk
    /// fails; what is in the group then is undone by `roll_back`.
    pub fn commit<M: Machine>(
        &mut self,
        engine: &mut Engine<O>,
        machine: &mut M,
    ) -> Result<(), CommitErr>
        requires unbroken { engine.old.broken ≡ false }
        requires alone { engine.old.group ≡ None }
        ensures time { Passes (M.disk machine.old) (M.disk machine.new) }
        ensures left { (p : Params) (commands : List O) → Holds O.meaning p (M.disk machine.old) engine.old commands → IsStaged O.meaning p commands self.old.ops.items self.old.bytes self.old.made →
            engine.old.parts.log.next + length self.old.ops.items ≤ 2 ^ 62 → IsLeft O.meaning p (M.disk machine.new) engine.old engine.new commands self.old.ops.items result }
        ensures images { (M.disk machine.old).tells_moments → (p : Params) (commands : List O) → Holds O.meaning p (M.disk machine.old) engine.old commands → IsStaged O.meaning p commands self.old.ops.items self.old.bytes self.old.made →
            LeavesOnly (M.disk machine.old) (M.disk machine.new) (Between O.meaning p (M.disk machine.old) None (forced_in engine.old) (length commands) commands) }
        ensures kept { IsErrOf result CommitErr.LogFull → (self.new.ops ≡ self.old.ops) × (self.new.bytes ≡ self.old.bytes) × (self.new.made ≡ self.old.made) }
    {
        commit(engine, machine, &mut self.ops, self.bytes)
    }

    /// Adds the staged commands to those of the engine, or none of them, and forces nothing: so many transactions may go with one
    /// force. They are stable after the next force, all at once, and a crash meanwhile leaves just what was forced before.
    ///
    /// It answers `LogFull` as `commit` does. It answers `Cut` only where memory runs out or the disk fails; some of them may be
    /// added then, and `reopen` undoes them, with all that is not forced: the transactions before this one that wait, too.
    pub fn commit_lazily<M: Machine>(
        &mut self,
        engine: &mut Engine<O>,
        machine: &mut M,
    ) -> Result<(), CommitErr>
        requires unbroken { engine.old.broken ≡ false }
        requires alone { engine.old.group ≡ None }
        ensures time { Passes (M.disk machine.old) (M.disk machine.new) }
        ensures group { engine.new.group ≡ None }
        ensures left { (p : Params) (commands : List O) → Holds O.meaning p (M.disk machine.old) engine.old commands → IsStaged O.meaning p commands self.old.ops.items self.old.bytes self.old.made →
            engine.old.parts.log.next + length self.old.ops.items ≤ 2 ^ 62 → IsLeftLazily O.meaning p (M.disk machine.new) engine.old engine.new commands self.old.ops.items result }
        ensures images { (M.disk machine.old).tells_moments → (p : Params) (commands : List O) → Holds O.meaning p (M.disk machine.old) engine.old commands → IsStaged O.meaning p commands self.old.ops.items self.old.bytes self.old.made →
            engine.old.parts.log.next + length self.old.ops.items ≤ 2 ^ 62 →
            LeavesOnly (M.disk machine.old) (M.disk machine.new) (IsSilent (λ files. Stands O.meaning p files (take (forced_in engine.old) commands)) (M.disk machine.old).said) }
        ensures kept { IsErrOf result CommitErr.LogFull → (self.new.ops ≡ self.old.ops) × (self.new.bytes ≡ self.old.bytes) × (self.new.made ≡ self.old.made) }
    {
        commit_lazily(engine, machine, &mut self.ops, self.bytes)
    }

    /// Stages a command on an engine, after those that are staged: it is judged on the values that these make, laid over those of the
    /// engine. Nothing is logged, so it answers neither `LogFull` nor `LsnEnd`. It answers `Refused` as `Engine::exec` would after all of
    /// them.
    pub fn exec<M: Machine>(
        &mut self,
        engine: &mut Engine<O>,
        machine: &mut M,
        op: O,
    ) -> Result<(), ExecErr>
        requires unbroken { engine.old.broken ≡ false }
        ensures reads { OnlyReads O.meaning (M.disk machine.old) (M.disk machine.new) engine.old engine.new (IsFailed (ending_of_exec result)) }
        ensures staged { (p : Params) (commands : List O) → Holds O.meaning p (M.disk machine.old) engine.old commands → IsStaged O.meaning p commands self.old.ops.items self.old.bytes self.old.made →
            HasStaged O.meaning p commands self.old.ops.items self.new.ops.items self.new.bytes self.new.made op result }
    {
        let Some(bytes) = longer(self.bytes, &op) else {
            return Err(ExecErr::Memory);
        };
        let writes = op.writes();
        match admit(self.alloc, &self.made, engine, machine, &op) {
            Ok(values) => {
                if let Err(_) = make_rooms(&mut self.made, writes.as_slice()) {
                    return Err(ExecErr::Memory);
                }
                match self.ops.push_back(op) {
                    Ok(_) => {
                        set_all(&mut self.made, writes.as_slice(), values);
                        self.bytes = bytes;
                        Ok(())
                    }
                    Err(_) => Err(ExecErr::Memory),
                }
            }
            Err(e) => Err(e),
        }
    }
}
