// A checkpoint goes into the log.
ghost use Rattle.std.specs.Prelude.{◌≡◌, ◌+◌, ◌*◌, ◌≤◌, ◌^◌, false, length};
ghost use Rattle.running_store.specs.Calls.{IsCall};
ghost use Rattle.running_store.specs.Taking.{Takes};
ghost use Rattle.running_store.specs.Calls.Checkpoints.{IsCheckpointHere};
ghost use Rattle.checkpointing.specs.Checkpoints.{IsTableNow};
ghost use Rattle.checkpointing.specs.Courses.{taking_course, logged_course};
ghost use Rattle.checkpointing.specs.Left.{KeepsCounts, Overlong, checkpoint_ending};

use crate::taking::checkpoint_now;
use dirty_page_table::DirtyPageTable;
use disk_model::Machine;
use formats::{BLOCK_HEAD, CHECK_HEAD, MAX_LOG, START_BYTES};
use oper_core::Oper;
use running_store::{Store, StoreErr};

/// How many bytes the record of a checkpoint has.
fn checkpoint_bytes(table: &DirtyPageTable) -> u64
    requires { length table.now.starts ≤ 65535 }
    ensures { result ≡ 13 + 12 * length table.now.starts }
{
    (CHECK_HEAD + START_BYTES * table.starts.as_slice().len()) as u64
}

/// Logs a checkpoint and forces it, where the log has a place for it; the block that waits has room. Where it has none the answer
/// is how many bytes a block of it has. Without memory nothing changes but room.
fn log_checkpoint<O: Oper, M: Machine>(
    store: &mut Store<O>,
    machine: &mut M,
    table: DirtyPageTable,
) -> Result<Option<u64>, StoreErr>
    requires unbroken { store.old.broken ≡ false }
    requires checkpoint { IsCheckpointHere (O.meaning store.old.parts.log.bounds) store.old.parts.log table }
    requires room { length store.old.parts.log.log.pending + (13 + 12 * length table.starts) ≤ 2 ^ 30 }
    ensures call { IsCall O.meaning (M.disk machine.old) (M.disk machine.new) store.old store.new 0 Overlong (checkpoint_ending store.new.parts.log result) }
    ensures takes { IsTableNow O.meaning (M.disk machine.old) store.old.parts table → Takes O.meaning (M.disk machine.old) (M.disk machine.new)
        store.old.parts store.new.parts (λ m v used. logged_course m v used) (checkpoint_ending store.new.parts.log result) }
    ensures counts { KeepsCounts store.old.parts store.new.parts }
{
    explain_core::checkpoint_keeps::<O>();
    let n = checkpoint_bytes(&table);
    let log = store.log();
    if MAX_LOG.saturating_sub(log.used()) < log.growth(n) {
        return Ok(Some(n + BLOCK_HEAD as u64));
    }
    store.append_checkpoint(table)?;
    store.force(machine)?;
    Ok(None)
}

/// Takes a checkpoint now: room is made for it, and where it has a place in the log it is logged and forced. Where it has none the
/// answer is how many bytes a block of it has.
pub(crate) fn take_checkpoint<O: Oper, M: Machine>(
    store: &mut Store<O>,
    machine: &mut M,
) -> Result<Option<u64>, StoreErr>
    requires unbroken { store.old.broken ≡ false }
    ensures call { IsCall O.meaning (M.disk machine.old) (M.disk machine.new) store.old store.new 0 Overlong (checkpoint_ending store.new.parts.log result) }
    ensures takes { Takes O.meaning (M.disk machine.old) (M.disk machine.new) store.old.parts store.new.parts (λ m w used. taking_course m w used) (checkpoint_ending store.new.parts.log result) }
    ensures counts { KeepsCounts store.old.parts store.new.parts }
{
    let table = checkpoint_now(store)?;
    store.make_block_room(machine, checkpoint_bytes(&table))?;
    log_checkpoint(store, machine, table)
}
