// Checkpoints: that of a call, and the one with which a restart ends.
ghost use Rattle.std.specs.Prelude.{◌≡◌, false};
ghost use Rattle.running_store.specs.Calls.{IsCall, Never, ending_of_store};
ghost use Rattle.running_store.specs.Kept.{StopsAt};
ghost use Rattle.formats.specs.Limits.{log_limit};
ghost use Rattle.running_store.specs.Taking.{Takes};
ghost use Rattle.checkpointing.specs.Courses.{checkpoint_course, closing_course};
ghost use Rattle.checkpointing.specs.Left.{KeepsCounts, ending_of_checkpoint};

use crate::CheckpointErr;
use crate::logging::take_checkpoint;
use disk_model::Machine;
use formats::MAX_LOG;
use oper_core::Oper;
use running_store::{Store, StoreErr};

/// Takes a checkpoint of where a redo begins now, and forces it. Where the log has no room for it, what waits is forced, and
/// `LogFull` says how long the log then is, and what a block of the checkpoint would add.
pub fn checkpoint<O: Oper, M: Machine>(
    store: &mut Store<O>,
    machine: &mut M,
) -> Result<(), CheckpointErr>
    requires unbroken { store.old.broken ≡ false }
    ensures call { IsCall O.meaning (M.disk machine.old) (M.disk machine.new) store.old store.new 0 (StopsAt log_limit) (ending_of_checkpoint result) }
    ensures takes { Takes O.meaning (M.disk machine.old) (M.disk machine.new) store.old.parts store.new.parts (λ m w used. checkpoint_course m w used) (ending_of_checkpoint result) }
    ensures counts { KeepsCounts store.old.parts store.new.parts }
{
    let Some(need) = take_checkpoint(store, machine)? else {
        return Ok(());
    };
    let used = store.log().used();
    store.force(machine)?;
    Err(CheckpointErr::LogFull {
        used,
        need,
        limit: MAX_LOG,
    })
}

/// Takes a checkpoint of where a redo begins now and forces it, where the log has room for it; else it takes none.
pub fn closing_checkpoint<O: Oper, M: Machine>(
    store: &mut Store<O>,
    machine: &mut M,
) -> Result<(), StoreErr>
    requires unbroken { store.old.broken ≡ false }
    ensures call { IsCall O.meaning (M.disk machine.old) (M.disk machine.new) store.old store.new 0 Never (ending_of_store result) }
    ensures takes { Takes O.meaning (M.disk machine.old) (M.disk machine.new) store.old.parts store.new.parts (λ m w used. closing_course m w used) (ending_of_store result) }
    ensures counts { KeepsCounts store.old.parts store.new.parts }
{
    take_checkpoint(store, machine)?;
    Ok(())
}
