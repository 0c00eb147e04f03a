// The restart.
ghost use Rattle.std.specs.Prelude.{◌<◌, ℕ, IfOk};
ghost use Rattle.formats.specs.declared.params.Params.{Params as Numbers};
ghost use Rattle.explain_core.specs.World.{World};
ghost use Rattle.standing.specs.Moments.{ShowsSome};
ghost use Rattle.running_store.specs.Parts.{meaning_in};
ghost use Rattle.running_store.specs.Taking.{IsAfter};
ghost use Rattle.restart.specs.Courses.{redo_marks, restart_course};
ghost use Rattle.restart.specs.Damage.{IsReported};
ghost use Rattle.restart.specs.Loading.{IsFresh};
ghost use Rattle.restart.specs.Opening.{IsJudged, IsOpening, OpensOn, OpensThrough, opened};

use crate::Tuning;
use crate::loading::load;
use crate::redone_store::open;
use disk_model::Machine;
use oper_core::Oper;
use running_store::Store;
use stable_objects::OpenErr;
use std::alloc::Global;

/// Opens the files: they are read, the records are done again, and a checkpoint is logged where the log stays within 2^48 bytes.
/// The machine need not be settled: it begins with a sync of each file, and what reads give is what the files show. The
/// objects gate is tested before memory is taken.
pub fn restart<O: Oper, M: Machine>(
    alloc: Global,
    machine: &mut M,
    tuning: Tuning,
) -> Result<Store<O>, OpenErr>
    requires some { 0 < tuning.clean }
    ensures opening { IsOpening O.meaning (M.disk machine.old) (M.disk machine.new) (opened result) }
    ensures judged { (M.disk machine.old).tells_files → IsJudged O.meaning (M.disk machine.old) (M.disk machine.new) (opened result) }
    ensures reported { IsReported O.meaning (M.disk machine.old) (M.disk machine.new) (opened result) }
    ensures fresh { IfOk result IsFresh }

    // Of each world that the files show the whole course is taken, and the log is as long as that says.
    ensures follows { (p : Numbers) (used : ℕ) (w : World O) → OpensOn (meaning_in O.meaning p) p (M.disk machine.old) used w →
        IfOk (opened result) (λ it. IsAfter (meaning_in O.meaning p) p (M.disk machine.new) it w
        (restart_course (meaning_in O.meaning p) (redo_marks tuning p) w used)) }
    ensures steps { (M.disk machine.old).tells_moments → (p : Numbers) (used : ℕ) (w : World O) →
        OpensOn (meaning_in O.meaning p) p (M.disk machine.old) used w →
        OpensThrough (meaning_in O.meaning p) p (M.disk machine.old) (M.disk machine.new) w
        (restart_course (meaning_in O.meaning p) (redo_marks tuning p) w used).steps }
    // Whatever it answers, what reads give shows the world after some first steps.
    ensures reads { (M.disk machine.old).tells_moments → (p : Numbers) (used : ℕ) (w : World O) →
        OpensOn (meaning_in O.meaning p) p (M.disk machine.old) used w →
        ShowsSome (meaning_in O.meaning p) p w (restart_course (meaning_in O.meaning p) (redo_marks tuning p) w used).steps (M.disk machine.new).reads }
{
    explain_core::crash_keeps::<O>();
    standing::unseen_steps_change_nothing::<O>();
    let (mut store, plan) = load::<O, M>(alloc, machine, tuning)?;
    let marks = tuning.redo_marks(store.params());
    match open(&plan, &mut store, machine, marks) {
        Ok(()) => {
            // Called for its clauses: a store that is not broken is in use.
            let _params = store.params();
            Ok(store)
        }
        Err(cause) => {
            // A value of many parts is dropped by a call, which the proof passes in one step.
            drop(store);
            Err(OpenErr::from(cause))
        }
    }
}
