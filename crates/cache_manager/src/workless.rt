// Nodes that have no object to flush are finished while they are next.
ghost use Rattle.std.specs.Prelude.{◌≡◌, ◌+◌, ◌≤◌, false, length, if◌then◌else◌, IfOk, OnOk};
ghost use Rattle.formats.specs.declared.params.Params.{Params as Numbers};
ghost use Rattle.explain_core.specs.World.{World};
ghost use Rattle.running_store.specs.Calls.{IsCall, Never};
ghost use Rattle.running_store.specs.Parts.{Shows, meaning_in};
ghost use Rattle.running_store.specs.StoreView.{log_length, next_of};
ghost use Rattle.running_store.specs.Taking.{Takes};
ghost use Rattle.cache_manager.specs.Endings.{ending_of};
ghost use Rattle.cache_manager.specs.InstallCourses.{is_next_workless, removals, workless_course, workless_nodes};
ghost use Rattle.cache_manager.specs.LogsDirty.{LogsDirty};

use crate::InstallErr;
use crate::rounds::finish_next;
use crate::thin::work_of;
use disk_model::Machine;
use oper_core::Oper;
use running_store::Store;

/// Finishes the minimal node of the least name, if it has no object to flush. It answers whether there was such a node.
fn finish_workless<O: Oper, M: Machine>(
    store: &mut Store<O>,
    machine: &mut M,
) -> Result<bool, InstallErr>
    requires unbroken { store.old.broken ≡ false }
    ensures call { IsCall O.meaning (M.disk machine.old) (M.disk machine.new) store.old store.new 0 Never (ending_of result) }
    ensures takes { Takes O.meaning (M.disk machine.old) (M.disk machine.new) store.old.parts store.new.parts (λ m w used. workless_course m w used) (ending_of result) }
    ensures found { (p : Numbers) (w : World O) → Shows (meaning_in O.meaning p) p (M.disk machine.old) store.old.parts w →
        IfOk result (λ found. found ≡ is_next_workless (meaning_in O.meaning p) w) }
    ensures next { next_of store.new ≡ next_of store.old }
    ensures fewer { IfOk result (λ found. length store.new.parts.volatile.entries + (if found then 1 else 0) ≤ length store.old.parts.volatile.entries) }
    ensures logs { OnOk result (LogsDirty store.old.parts store.new.parts) }
{
    let Some(name) = store.graph().minimal() else {
        return Ok(false);
    };
    let work = work_of(store.objects(), store.graph(), name)?;
    if work.is_empty() {
        finish_next(store, machine, name, &[])?;
        return Ok(true);
    }
    Ok(false)
}

/// Finishes the minimal node of the least name while there is one that has no object to flush, and so many at most. All that
/// waits is forced before the first. It answers how many nodes they were.
pub(crate) fn finish_all_workless<O: Oper, M: Machine>(
    store: &mut Store<O>,
    machine: &mut M,
    most: usize,
) -> Result<u64, InstallErr>
    requires unbroken { store.old.broken ≡ false }
    ensures call { IsCall O.meaning (M.disk machine.old) (M.disk machine.new) store.old store.new 0 Never (ending_of result) }
    ensures takes { Takes O.meaning (M.disk machine.old) (M.disk machine.new) store.old.parts store.new.parts (λ m w used. workless_nodes m most w used) (ending_of result) }
    ensures count { (p : Numbers) (w : World O) → Shows (meaning_in O.meaning p) p (M.disk machine.old) store.old.parts w →
        IfOk result (λ n. n ≡ removals (workless_nodes (meaning_in O.meaning p) most w (log_length store.old)).steps) }
    ensures next { next_of store.new ≡ next_of store.old }
    ensures fewer { IfOk result (λ n. length store.new.parts.volatile.entries + n ≤ length store.old.parts.volatile.entries) }
    ensures most { IfOk result (λ n. n ≤ most) }
    ensures logs { OnOk result (LogsDirty store.old.parts store.new.parts) }
{
    let mut count = 0;
    while count < most {
        let found = finish_workless(store, machine)?;
        if !found {
            return Ok(count as u64);
        }
        count += 1;
    }
    Ok(count as u64)
}
