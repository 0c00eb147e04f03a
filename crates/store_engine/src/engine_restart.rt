// The files are opened, and what is not installed of their commands is done again.
ghost use Rattle.std.specs.Prelude.{◌≡◌, ◌<◌, false, List, ℕ, None, length, IfOk};
ghost use Rattle.disk_model.specs.Disk.{LeavesOnly};
ghost use Rattle.formats.specs.declared.params.Params.{Params};
ghost use Rattle.explain_core.specs.World.{World};
ghost use Rattle.running_store.specs.Taking.{IsAfter};
ghost use Rattle.restart.specs.Courses.{redo_marks, restart_course};
ghost use Rattle.restart.specs.Damage.{IsReported};
ghost use Rattle.restart.specs.Opening.{IsJudged, IsOpening, OpensOn, OpensThrough};
ghost use Rattle.restart.specs.Starts.{OrAtStart};
ghost use Rattle.store_engine.specs.Engine.{Opens, Holds, Between, IsAttached, forced_in, opened};
ghost use Rattle.store_engine.specs.Store.{meaning_in};

use crate::Engine;
use disk_model::Machine;
use oper_core::Oper;
use restart::Tuning;
use stable_objects::OpenErr;
use std::alloc::Global;

impl<O: Oper> Engine<O> {
    /// Opens the files: what a process before this one left unsynced is synced, the log and the slots are read, what is not
    /// installed is done again, and one checkpoint is logged and forced, where the log stays within 2^48 bytes.
    ///
    /// The machine need not be settled: what reads give is what the files stand for. `Memory` comes only
    /// where the objects gate is open.
    pub fn restart<M: Machine>(
        alloc: Global,
        machine: &mut M,
        tuning: Tuning,
    ) -> Result<Engine<O>, OpenErr>
        requires { 0 < tuning.clean }
        ensures opening { IsOpening O.meaning (M.disk machine.old) (M.disk machine.new) (opened result) }
        ensures judged { (M.disk machine.old).tells_files → IsJudged O.meaning (M.disk machine.old) (M.disk machine.new) (opened result) }
        ensures ready { IfOk result (λ engine. (engine.broken ≡ false) × (engine.group ≡ None) × (engine.copied ≡ None) × (engine.identities ≡ 0) × IsAttached O.meaning (M.disk machine.new) engine) }
        ensures reported { IsReported O.meaning (M.disk machine.old) (M.disk machine.new) (opened result) }

        // Of each world that the files show the whole course is taken, and the log is as long as that says.
        ensures follows { (p : Params) (used : ℕ) (w : World O) → OpensOn (meaning_in O.meaning p) p (M.disk machine.old) used w →
            IfOk result (λ engine. IsAfter (meaning_in O.meaning p) p (M.disk machine.new) engine.parts w (restart_course (meaning_in O.meaning p) (redo_marks tuning p) w used)) }
        ensures steps { (M.disk machine.old).tells_moments → (p : Params) (used : ℕ) (w : World O) → OpensOn (meaning_in O.meaning p) p (M.disk machine.old) used w →
            OpensThrough (meaning_in O.meaning p) p (M.disk machine.old) (M.disk machine.new) w (restart_course (meaning_in O.meaning p) (redo_marks tuning p) w used).steps }

        // So engine and files stand for the commands of the files, all of them forced.
        ensures holds { (p : Params) (commands : List O) → Opens O.meaning p (M.disk machine.old) commands →
            IfOk result (λ engine. Holds O.meaning p (M.disk machine.new) engine commands × (forced_in engine ≡ length commands)) }
        ensures images { (M.disk machine.old).tells_moments → (p : Params) (commands : List O) → Opens O.meaning p (M.disk machine.old) commands →
            LeavesOnly (M.disk machine.old) (M.disk machine.new) (OrAtStart (M.disk machine.old) (Between O.meaning p (M.disk machine.old) None (length commands) (length commands) commands)) }
        // Whatever it answers, what reads give stands for the same commands, so that the files may be opened again.
        ensures again { (M.disk machine.old).tells_moments → (p : Params) (commands : List O) → Opens O.meaning p (M.disk machine.old) commands → Opens O.meaning p (M.disk machine.new) commands }
    {
        explain_core::every_run_keeps::<O>();
        standing::image_stands::<O>();
        standing::files_show_a_world::<O>();
        restart::a_restart_may_be_made::<O>();
        let store = restart::restart(alloc, machine, tuning)?;
        Ok(Engine {
            store,
            group: None,
            copied: None,
        })
    }
}
