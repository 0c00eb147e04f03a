// The commands of a transaction are added, all in one group.
ghost use Rattle.std.specs.Prelude.{◌≡◌, ◌+◌, ◌≤◌, ◌^◌, List, false, None, length, IsErrOf};
ghost use Rattle.disk_model.specs.Disk.{LeavesOnly, Passes};
ghost use Rattle.formats.specs.declared.params.Params.{Params};
ghost use Rattle.store_engine.specs.Engine.{Between, Holds, forced_in, params_of, records_of};
ghost use Rattle.store_engine.specs.Store.{meaning_in, state_of};
ghost use Rattle.transactions.specs.Accepted.{AreAccepted};
ghost use Rattle.transactions.specs.Committing.{IsLeft};

use crate::beginning::{begin, close, has_room};
use crate::commit_err::CommitErr;
use crate::running::run_all;
use disk_model::Machine;
use oper_core::Oper;
use std::collections::VecDeque;
use store_engine::Engine;

/// Adds commands that nothing refuses, one after the other, whose records have so many bytes, all in one group, or none of
/// them: what waits is forced, and where the log has room for all, they are run. A force makes them stable, all at once.
///
/// Whatever it answers, a crash meanwhile leaves none of them. It answers `LogFull` only where there is no room, and `Cut` only
/// where memory runs out or the disk fails within; then the group is still open, and `roll_back` takes out what it has.
pub(crate) fn commit<O: Oper, M: Machine>(
    engine: &mut Engine<O>,
    machine: &mut M,
    ops: &mut VecDeque<O>,
    bytes: u64,
) -> Result<(), CommitErr>
    requires unbroken { engine.old.broken ≡ false }
    requires alone { engine.old.group ≡ None }
    ensures time { Passes (M.disk machine.old) (M.disk machine.new) }
    ensures left { (p : Params) (commands : List O) → Holds O.meaning p (M.disk machine.old) engine.old commands → AreAccepted (meaning_in O.meaning p) (state_of O.meaning p commands) ops.old.items →
        bytes ≡ records_of O.meaning (params_of engine.old) ops.old.items → engine.old.parts.log.next + length ops.old.items ≤ 2 ^ 62 → IsLeft O.meaning p (M.disk machine.new) engine.old engine.new commands ops.old.items result }
    ensures kept { IsErrOf result CommitErr.LogFull → ops.new ≡ ops.old }
    ensures images { (M.disk machine.old).tells_moments → (p : Params) (commands : List O) → Holds O.meaning p (M.disk machine.old) engine.old commands → AreAccepted (meaning_in O.meaning p) (state_of O.meaning p commands) ops.old.items →
        LeavesOnly (M.disk machine.old) (M.disk machine.new) (Between O.meaning p (M.disk machine.old) None (forced_in engine.old) (length commands) commands) }
{
    if let Err(_) = begin(engine, machine) {
        return Err(CommitErr::DiskFault);
    }
    if !has_room(engine, bytes) {
        close(engine, machine);
        return Err(CommitErr::LogFull);
    }
    if let Err(e) = run_all(engine, machine, ops) {
        return Err(CommitErr::Cut(e));
    }
    close(engine, machine);
    Ok(())
}
