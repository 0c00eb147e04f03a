// The next node is installed, round by round.
ghost use Rattle.std.specs.Prelude.{◌≡◌, ◌≤◌, ◌<◌, ◌+◌, ℕ, Bool, false, length, take, OnOk, IfOk};
ghost use Rattle.std.specs.List.Sorted.{IsStrictlyIncreasing};
ghost use Rattle.formats.specs.declared.params.Params.{Params as Numbers};
ghost use Rattle.write_graph.specs.Graph.{IsLeast, IsNodeNamed, NamesMinimal, lsns};
ghost use Rattle.explain_core.specs.World.{World};
ghost use Rattle.running_store.specs.Calls.{IsCall, Never, ending_of_force};
ghost use Rattle.running_store.specs.Courses.{course};
ghost use Rattle.cache_manager.specs.InstallCourses.{finish_steps, install_course};
ghost use Rattle.running_store.specs.Courses.Stop.{Through};
ghost use Rattle.running_store.specs.Kept.{StopsAt};
ghost use Rattle.formats.specs.Limits.{log_limit};
ghost use Rattle.running_store.specs.Parts.{Shows, meaning_in};
ghost use Rattle.running_store.specs.StoreView.{log_length, logged_since, next_of};
ghost use Rattle.running_store.specs.Taking.{Takes};
ghost use Rattle.cache_manager.specs.Endings.{ending_of};
ghost use Rattle.cache_manager.specs.LogsDirty.{LogsDirty};
ghost use Rattle.cache_manager.specs.Thin.{IsWork};
ghost use Rattle.cache_manager.specs.Told.{IsInstall, TellsParts, listed};

use crate::beside::may_finish;
use crate::identities::log_others;
use crate::thin::work_of;
use crate::{Install, InstallErr};
use disk_model::{Failed, Machine};
use oper_core::Oper;
use running_store::Store;
use write_graph::NodeNo;

/// Finishes the minimal node of the least name, which has at most one object to flush: all that waits is forced, the
/// object flushed, and the node taken out of the graph. It answers how many entries that has.
pub(crate) fn finish_next<O: Oper, M: Machine>(
    store: &mut Store<O>,
    machine: &mut M,
    n: NodeNo,
    work: &[u32],
) -> Result<u64, Failed>
    requires unbroken { store.old.broken ≡ false }
    requires least { IsLeast (NamesMinimal store.old.parts.volatile.entries) n }
    requires is_work { (node : ℕ → Bool) → IsNodeNamed store.old.parts.volatile.entries n node → IsWork store.old.parts.volatile node work.now }
    requires few { length work.now ≤ 1 }
    ensures call { IsCall O.meaning (M.disk machine.old) (M.disk machine.new) store.old store.new 0 Never (ending_of_force result) }
    ensures takes { Takes O.meaning (M.disk machine.old) (M.disk machine.new) store.old.parts store.new.parts (λ m w used. course (finish_steps m w) used Through) (ending_of_force result) }
    ensures next { next_of store.new ≡ next_of store.old }
    ensures ops { IfOk result (λ ops. (0 < ops) × (length store.old.parts.volatile.entries ≡ length store.new.parts.volatile.entries + ops)) }
    ensures rising { OnOk result (IsStrictlyIncreasing (lsns store.new.parts.volatile.entries)) }
    ensures logs { OnOk result (LogsDirty store.old.parts store.new.parts) }
{
    explain_core::every_run_keeps::<O>();
    let held = store.graph().len();
    store.force(machine)?;
    store.finish(machine, n, work)?;
    Ok(held - store.graph().len())
}

/// The first of the objects, if there is one.
pub(crate) fn first_of(work: &[u32]) -> Option<u32>
    ensures { listed result ≡ take 1 work.now }
{
    match work.first() {
        Some(x) => Some(*x),
        None => None,
    }
}

/// Installs the minimal node of the least name. While it has two objects or more to flush, identity writes of all but the
/// longest are logged; then all that waits is forced, the one object, if there is one, is flushed, and the node leaves the
/// graph. At `LogFull` and `LsnEnd` an identity write has no place, and all that waited is forced.
///
/// Beside a copy of the slots, which has the objects below a number, a copied object is flushed from a node of one identity
/// write alone: of the others it is logged. Where none is taken the number is 0.
pub fn install_one<O: Oper, M: Machine>(
    store: &mut Store<O>,
    machine: &mut M,
    copied: u32,
) -> Result<Install, InstallErr>
    requires unbroken { store.old.broken ≡ false }
    ensures call { IsCall O.meaning (M.disk machine.old) (M.disk machine.new) store.old store.new (logged_since store.old store.new) (StopsAt log_limit) (ending_of result) }
    ensures takes { Takes O.meaning (M.disk machine.old) (M.disk machine.new) store.old.parts store.new.parts (λ m w used. install_course m copied w used) (ending_of result) }
    ensures told { (p : Numbers) (w : World O) → Shows (meaning_in O.meaning p) p (M.disk machine.old) store.old.parts w →
        IfOk result (IsInstall (meaning_in O.meaning p) w (install_course (meaning_in O.meaning p) copied w (log_length store.old)).steps) }
    ensures tells { IfOk result (TellsParts store.old.parts store.new.parts) }
    ensures logs { OnOk result (LogsDirty store.old.parts store.new.parts) }
{
    explain_core::every_run_keeps::<O>();
    install_order::last_blind_write_is_alone();
    // Called for its clause: the LSNs of the graph rise.
    let _held = store.graph().len();
    let first = store.log().next();
    while let Some(name) = store.graph().minimal() {
        // Called for its clause: the next LSN is 2^62 at most.
        let _params = store.params();
        let work = work_of(store.objects(), store.graph(), name)?;
        let due = work.as_slice();
        if may_finish(store.graph(), name, due, copied) {
            let ops = finish_next(store, machine, name, due)?;
            return Ok(Install::Installed {
                ops,
                flushed: first_of(due),
                identities: store.log().next() - first,
            });
        }
        log_others(store, machine, due, copied)?;
    }
    Ok(Install::Clean)
}
