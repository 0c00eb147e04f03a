// The commands of a transaction are added, and nothing is forced.
ghost use Rattle.std.specs.Prelude.{◌≡◌, ◌+◌, ◌≤◌, ◌^◌, List, false, None, length, take, IsErrOf};
ghost use Rattle.disk_model.specs.Disk.{LeavesOnly, Passes};
ghost use Rattle.disk_model.specs.Silent.{IsSilent};
ghost use Rattle.formats.specs.declared.params.Params.{Params};
ghost use Rattle.store_engine.specs.Engine.{Holds, forced_in, params_of, records_of};
ghost use Rattle.store_engine.specs.Store.{Stands, meaning_in, state_of};
ghost use Rattle.transactions.specs.Accepted.{AreAccepted};
ghost use Rattle.transactions.specs.Committing.{IsLeftLazily};

use crate::beginning::has_room;
use crate::commit_err::CommitErr;
use crate::running::run_all;
use disk_model::Machine;
use oper_core::Oper;
use std::collections::VecDeque;
use store_engine::{Engine, engine_stands};

/// Adds commands that nothing refuses, one after the other, whose records have so many bytes, where the log has room for all, or
/// none of them. Nothing is forced: whatever it answers, a crash meanwhile leaves just what was forced before.
///
/// It answers `LogFull` only where there is no room, and `Cut` only where memory runs out or the disk fails within; then some first
/// ones are added, and `reopen` takes them out, with all that is not forced.
pub(crate) fn commit_lazily<O: Oper, M: Machine>(
    engine: &mut Engine<O>,
    machine: &mut M,
    ops: &mut VecDeque<O>,
    bytes: u64,
) -> Result<(), CommitErr>
    requires unbroken { engine.old.broken ≡ false }
    requires alone { engine.old.group ≡ None }
    ensures time { Passes (M.disk machine.old) (M.disk machine.new) }
    ensures group { engine.new.group ≡ None }
    ensures left { (p : Params) (commands : List O) → Holds O.meaning p (M.disk machine.old) engine.old commands → AreAccepted (meaning_in O.meaning p) (state_of O.meaning p commands) ops.old.items →
        bytes ≡ records_of O.meaning (params_of engine.old) ops.old.items → engine.old.parts.log.next + length ops.old.items ≤ 2 ^ 62 → IsLeftLazily O.meaning p (M.disk machine.new) engine.old engine.new commands ops.old.items result }
    ensures kept { IsErrOf result CommitErr.LogFull → ops.new ≡ ops.old }
    ensures images { (M.disk machine.old).tells_moments → (p : Params) (commands : List O) → Holds O.meaning p (M.disk machine.old) engine.old commands → AreAccepted (meaning_in O.meaning p) (state_of O.meaning p commands) ops.old.items →
        bytes ≡ records_of O.meaning (params_of engine.old) ops.old.items → engine.old.parts.log.next + length ops.old.items ≤ 2 ^ 62 →
        LeavesOnly (M.disk machine.old) (M.disk machine.new) (IsSilent (λ files. Stands O.meaning p files (take (forced_in engine.old) commands)) (M.disk machine.old).said) }
{
    engine_stands(machine, engine);
    standing::image_stands::<O>();
    if !has_room(engine, bytes) {
        return Err(CommitErr::LogFull);
    }
    if let Err(e) = run_all(engine, machine, ops) {
        return Err(CommitErr::Cut(e));
    }
    Ok(())
}
