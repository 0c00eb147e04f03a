// The redo.
ghost use Rattle.std.specs.Prelude.{◌≡◌, ℕ, None, [], false, IfErr, OnOk};
ghost use Rattle.disk_model.specs.Disk.{Rises, IsSettled};
ghost use Rattle.formats.specs.Objects.{bounds_of};
ghost use Rattle.formats.specs.Reading.{FailsBy};
ghost use Rattle.formats.specs.declared.params.Params.{Params};
ghost use Rattle.dirty_cache.specs.Contents.{held};
ghost use Rattle.explain_core.specs.World.{World};
ghost use Rattle.standing.specs.Moments.{TakesSome};
ghost use Rattle.running_store.specs.Calls.Beside.{IsOnObjects};
ghost use Rattle.running_store.specs.Calls.{IsCall, Never, ending_of_read};
ghost use Rattle.redo_pass.specs.Causes.{IsRedoFault};
ghost use Rattle.redo_pass.specs.Redo.{IsLogDue, IsRedone, redo_steps};

use crate::limit::keep_within;
use crate::replay::replay;
use analysis_pass::Plan;
use disk_model::Machine;
use explain_core::Marks;
use formats::ReadErr;
use oper_core::Oper;
use running_store::Store;

/// Does the log's commands and identity writes from the plan's start on again, in a store whose files are read: nothing is
/// cached, and the graph is empty. They are read one after the other, and one is in memory at a time. Each is applied to the
/// objects that it writes whose LSN is below its own and whose redo start is not above it; where it is applied to
/// some, it enters the graph. After each record, while more objects are dirty or more records wait in the graph than the
/// marks say, and a node is thin, a turn is taken that logs nothing.
pub fn redo<O: Oper, M: Machine>(
    plan: &Plan,
    store: &mut Store<O>,
    machine: &mut M,
    marks: Marks,
) -> Result<(), ReadErr>
    requires unbroken { store.old.broken ≡ false }
    requires empty { ((x : ℕ) → held store.old.parts.volatile.objects.cache x ≡ None) × (store.old.parts.volatile.entries ≡ []) }
    ensures call { IsCall O.meaning (M.disk machine.old) (M.disk machine.new) store.old store.new 0 Never (ending_of_read result) }
    ensures objects { IsOnObjects (M.disk machine.old) (M.disk machine.new) store.old store.new }

    // Of each world that a restart finds in the files and of which this is the plan: all steps of its redo are taken.
    ensures redone { (M.disk machine.old).tells_files → IsSettled (M.disk machine.old) → (p : Params) (w : World O) →
        IsLogDue (O.meaning (bounds_of p)) p (M.disk machine.old) store.old.parts.log store.old.parts.volatile.objects.slots plan.now w →
        OnOk result (IsRedone (O.meaning (bounds_of p)) p (M.disk machine.new).reads store.new.parts.volatile marks w) }

    // At each moment, whatever the answer, each image shows the world after some first ones of these steps.
    ensures steps { (M.disk machine.old).tells_moments → IsSettled (M.disk machine.old) → (p : Params) (w : World O) →
        IsLogDue (O.meaning (bounds_of p)) p (M.disk machine.old) store.old.parts.log store.old.parts.volatile.objects.slots plan.now w →
        TakesSome (O.meaning (bounds_of p)) p (M.disk machine.old) (M.disk machine.new) w
        (redo_steps (O.meaning (bounds_of p)) marks w) }
    ensures cause { IfErr result (FailsBy (Rises (M.disk machine.old).disk_faults (M.disk machine.new).disk_faults)
        (IsRedoFault (O.meaning store.old.parts.log.bounds) (M.disk machine.old) (M.disk machine.new) store.old.parts.log.log
        store.old.parts.volatile.objects.slots store.new.parts.volatile.objects.slots)) }
{
    explain_core::turns_keep::<O>();
    standing::unseen_steps_change_nothing::<O>();
    // Called for its clauses: the log is that of a store with these numbers.
    let _params = store.params();
    let mut reader = store.log_reader(machine, plan.start())?;
    while let Some(record) = store.read_log(machine, &mut reader)? {
        replay(plan, store, machine, record)?;
        keep_within(store, machine, marks)?;
    }
    Ok(())
}
