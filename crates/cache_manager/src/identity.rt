// Identity writes.
ghost use Rattle.std.specs.Prelude.{◌≡◌, ◌<◌, ◌≤◌, ◌^◌, ◌++◌, ◌∷◌, [], false, true, OnOk, IfSome, IfNone};
ghost use Rattle.dirty_cache.specs.Contents.{is_dirty};
ghost use Rattle.running_store.specs.Calls.{IsCall};
ghost use Rattle.cache_manager.specs.InstallCourses.{identity_course};
ghost use Rattle.cache_manager.specs.LogsDirty.{identity_entries};
ghost use Rattle.running_store.specs.Kept.{IsLonger, StopsAt};
ghost use Rattle.formats.specs.Limits.{log_limit};
ghost use Rattle.running_store.specs.StoreView.{logged_since, next_of};
ghost use Rattle.running_store.specs.Taking.{Takes};
ghost use Rattle.cache_manager.specs.Endings.{ending_of};
ghost use Rattle.cache_manager.specs.RecordPlace.{HasRecordPlace, LacksRecordPlace};

use crate::InstallErr;
use disk_model::Machine;
use formats::{BLOCK_HEAD, IDENTITY_HEAD, LSN_END, MAX_LOG};
use log_records::RecordLog;
use oper_core::Oper;
use running_store::Store;

/// Why a record of n bytes has no place in the log, if it has none.
fn refusal<O: Oper>(log: &RecordLog<O>, n: u64) -> Option<InstallErr>
    requires some { 0 < n }
    requires short { n ≤ 2 ^ 30 }
    ensures none { IfNone result (HasRecordPlace log.now n) }
    ensures some { IfSome result (LacksRecordPlace log.now n) }
{
    let used = log.used();
    if MAX_LOG.saturating_sub(used) < log.growth(n) {
        return Some(InstallErr::LogFull {
            used,
            need: n + BLOCK_HEAD as u64,
            limit: MAX_LOG,
        });
    }
    let lsn = log.next();
    if lsn >= LSN_END {
        return Some(InstallErr::LsnEnd { lsn });
    }
    None
}

/// Logs an identity write of a dirty object: before it what waits is forced where the block would pass its greatest length,
/// and before a refusal too.
pub(crate) fn log_identity<O: Oper, M: Machine>(
    store: &mut Store<O>,
    machine: &mut M,
    x: u32,
) -> Result<(), InstallErr>
    requires unbroken { store.old.broken ≡ false }
    requires dirty { is_dirty store.old.parts.volatile.objects.cache x ≡ true }
    ensures call { IsCall O.meaning (M.disk machine.old) (M.disk machine.new) store.old store.new (logged_since store.old store.new) (StopsAt log_limit) (ending_of result) }
    ensures takes { Takes O.meaning (M.disk machine.old) (M.disk machine.new) store.old.parts store.new.parts (λ m w used. identity_course m x w used) (ending_of result) }
    ensures logged { OnOk result (IsLonger 1 store.old.parts store.new.parts) }
    ensures entries { OnOk result (store.new.parts.volatile.entries ≡ store.old.parts.volatile.entries ++ identity_entries (next_of store.old) (x ∷ [])) }
{
    explain_core::append_keeps::<O>();
    // Called for its clause: the next LSN is 2^62 at most.
    let _params = store.params();
    let n = IDENTITY_HEAD as u64 + store.objects().value(x).len() as u64;
    store.make_block_room(machine, n)?;
    if let Some(e) = refusal(store.log(), n) {
        store.force(machine)?;
        return Err(e);
    }
    store.append_identity(x)?;
    Ok(())
}
