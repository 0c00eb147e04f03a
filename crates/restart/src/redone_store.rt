// What is loaded is done again, and a checkpoint is logged.
ghost use Rattle.std.specs.Prelude.{IfErr, OnOk};
ghost use Rattle.disk_model.specs.Disk.{Rises};
ghost use Rattle.formats.specs.Reading.{FailsBy};
ghost use Rattle.formats.specs.declared.params.Params.{Params as Numbers};
ghost use Rattle.explain_core.specs.World.{World};
ghost use Rattle.standing.specs.Moments.{TakesSome};
ghost use Rattle.running_store.specs.Calls.{IsCall, Never, ending_of_read};
ghost use Rattle.running_store.specs.Parts.{meaning_in};
ghost use Rattle.running_store.specs.StoreView.{log_length};
ghost use Rattle.running_store.specs.Taking.{IsAfter};
ghost use Rattle.restart.specs.Courses.{opening_course};
ghost use Rattle.restart.specs.Damage.{IsFoundInRedo};
ghost use Rattle.restart.specs.Loading.{IsFreshStore};
ghost use Rattle.restart.specs.Redoing.{IsToRedo};

use analysis_pass::Plan;
use checkpointing::closing_checkpoint;
use disk_model::Machine;
use explain_core::Marks;
use formats::ReadErr;
use oper_core::Oper;
use redo_pass::redo;
use running_store::Store;

/// Does again the records of the log that the plan wants, and logs a checkpoint where the log has room for one. The store then
/// shows the world after the redo and the checkpoint, and so do the files. The redo installs while it is above
/// the marks and a node is thin.
pub(crate) fn open<O: Oper, M: Machine>(
    plan: &Plan,
    store: &mut Store<O>,
    machine: &mut M,
    marks: Marks,
) -> Result<(), ReadErr>
    requires ready { IsFreshStore (M.disk machine.old) store.old }
    ensures call { IsCall O.meaning (M.disk machine.old) (M.disk machine.new) store.old store.new 0 Never (ending_of_read result) }
    ensures follows { (p : Numbers) (w : World O) →
        IsToRedo (meaning_in O.meaning p) p (M.disk machine.old) store.old.parts plan.now w →
        OnOk result (IsAfter (meaning_in O.meaning p) p (M.disk machine.new) store.new.parts w
        (opening_course (meaning_in O.meaning p) marks w (log_length store.old))) }
    ensures steps { (M.disk machine.old).tells_moments → (p : Numbers) (w : World O) →
        IsToRedo (meaning_in O.meaning p) p (M.disk machine.old) store.old.parts plan.now w →
        TakesSome (meaning_in O.meaning p) p (M.disk machine.old) (M.disk machine.new) w
        (opening_course (meaning_in O.meaning p) marks w (log_length store.old)).steps }
    ensures damage { IfErr result (FailsBy (Rises (M.disk machine.old).disk_faults (M.disk machine.new).disk_faults)
        (IsFoundInRedo O.meaning (M.disk machine.old) (M.disk machine.new) store.old.parts store.new.parts)) }
{
    explain_core::turns_keep::<O>();
    redo_pass::a_found_world_is_due::<O>();
    redo(plan, store, machine, marks)?;
    closing_checkpoint(store, machine)?;
    Ok(())
}
