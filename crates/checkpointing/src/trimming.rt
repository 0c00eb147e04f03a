// A trim.
ghost use Rattle.std.specs.Prelude.{◌≡◌, ◌≤◌, ◌+◌, ◌^◌, [], false, IfErr, OnOk};
ghost use Rattle.log_records.specs.Loading.{IsTailFault};
ghost use Rattle.running_store.specs.Calls.{IsCall};
ghost use Rattle.running_store.specs.Kept.{HasLog, StopsAt};
ghost use Rattle.running_store.specs.Calls.Rewrites.{ending_of_rewrite};
ghost use Rattle.running_store.specs.StoreView.{next_of};
ghost use Rattle.running_store.specs.Taking.{Takes};
ghost use Rattle.checkpointing.specs.Courses.{trim_within};
ghost use Rattle.checkpointing.specs.Left.{DamagedBy, IsTooLong, KeepsCounts};

use crate::taking::{checkpoint_now, least_start};
use disk_model::Machine;
use formats::LSN_END;
use log_records::RewriteErr;
use oper_core::Oper;
use running_store::Store;

/// Forces the log and puts another in its place: the commands and identity writes from the least LSN in the graph on, or
/// none where the graph is empty, and after them a checkpoint taken now. A log of the last epoch is not trimmed: `Exhausted`
/// comes before all else. The other refusals come after the force. Where the file of the new log would have more than `most`
/// bytes, `LogFull` says how long the log is, and how long that file would be. `Damaged` names the place of a record that breaks its format, and never comes where the log keeps
/// its records.
pub fn trim<O: Oper, M: Machine>(
    store: &mut Store<O>,
    machine: &mut M,
    most: u64,
) -> Result<(), RewriteErr>
    requires unbroken { store.old.broken ≡ false }
    requires most { most ≤ 2 ^ 48 }
    ensures call { IsCall O.meaning (M.disk machine.old) (M.disk machine.new) store.old store.new 0 (StopsAt most) (ending_of_rewrite result) }
    ensures takes { Takes O.meaning (M.disk machine.old) (M.disk machine.new) store.old.parts store.new.parts
        (λ m w used. trim_within m most store.old.parts.log.log.header.epoch w used) (ending_of_rewrite result) }
    ensures counts { KeepsCounts store.old.parts store.new.parts }
    ensures epoch { OnOk result (store.new.parts.log.log.header.epoch ≡ store.old.parts.log.log.header.epoch + 1) }
    ensures undamaged { (M.disk machine.old).tells_files → HasLog (O.meaning store.old.parts.log.bounds) (M.disk machine.old) store.old.parts.log → IfErr result (DamagedBy (λ file place. ⊥)) }
    ensures damage { IfErr result (DamagedBy (IsTailFault (O.meaning store.new.parts.log.bounds) (M.disk machine.new) store.new.parts.log.log)) }
    ensures long { IfErr result IsTooLong }
    ensures emptied { store.old.parts.volatile.entries ≡ [] → OnOk result (store.new.parts.log.log.header.base ≡ next_of store.new) }
{
    let epoch = store.log().epoch();
    if epoch >= LSN_END {
        return Err(RewriteErr::Exhausted { epoch });
    }
    store.force(machine)?;
    let table = checkpoint_now(store)?;
    let base = least_start(store.log().next(), table.starts.as_slice());
    store.rewrite(machine, base, table, most)?;
    Ok(())
}
