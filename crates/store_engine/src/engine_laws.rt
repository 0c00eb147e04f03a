// What engines and images say of commands.
ghost use Rattle.std.specs.Prelude.{◌≡◌, ◌<◌, ◌^◌, ◌+◌, ℕ, IsFalse, IsTrue, List, None, drop, length};
ghost use Rattle.std.specs.Option.{is_some};
ghost use Rattle.disk_model.specs.Disk.{Files};
ghost use Rattle.formats.specs.Image.{EndsAt};
ghost use Rattle.formats.specs.declared.params.Params.{Params};
ghost use Rattle.explain_core.specs.History.{commands_of};
ghost use Rattle.explain_core.specs.World.{World, Step, run, step};
ghost use Rattle.explain_core.specs.World.Step.{End};
ghost use Rattle.explain_core.specs.declared.marks.Marks.{Marks};
ghost use Rattle.standing.specs.Standing.{IsFound};
ghost use Rattle.running_store.specs.Courses.{Stop};
ghost use Rattle.cache_manager.specs.InstallCourses.{logged_in};
ghost use Rattle.running_store.specs.Courses.Stop.{Through};
ghost use Rattle.running_store.specs.Running.{AreUpkeep};
ghost use Rattle.checkpointing.specs.Courses.{trim_course};
ghost use Rattle.restart.specs.Courses.{restart_course};
ghost use Rattle.store_engine.specs.Emptied.{IsEmptied};
ghost use Rattle.running_store.specs.Kept.{StopsAt};
ghost use Rattle.execution.specs.Stops.{StopsWithin};
ghost use Rattle.store_engine.specs.Engine.{Holds, InEachImage, Says, SaysStop, SaysStopWithin, ShowsIn};
ghost use Rattle.store_engine.specs.Store.{IsWellFormed, Stands, meaning_in};

use crate::Engine;
use disk_model::Machine;
use oper_core::Oper;

/// Engine and files that stand for commands say so: each image of the moment stands for those that are forced, and the map
/// has the values after all.
pub fn engine_stands<O: Oper, M: Machine>(machine: &M, engine: &Engine<O>)
    ensures { (p : Params) (commands : List O) → Holds O.meaning p (M.disk machine.now) engine.now commands →
        Says O.meaning p (M.disk machine.now) engine.now commands }
{
    standing::image_stands::<O>();
    explain_core::live_cache_is_the_map::<O>();
    explain_core::crash_takes_the_group::<O>();
    let _ = machine;
    let _ = engine;
}

/// Why a call was stopped is what each image of the moment says: where the log ends, which LSN is the next, or which
/// epoch the log in force has. Within a group these are less by the commands of the group, which wait.
pub fn stop_is_said<O: Oper, M: Machine>(machine: &M, engine: &Engine<O>)
    ensures alone { (p : Params) (w : World O) (most : ℕ) (stop : Stop) → ShowsIn O.meaning p (M.disk machine.now) engine.now w →
        StopsAt most engine.now.parts.log stop → InEachImage (M.disk machine.now) (λ files. SaysStop O.meaning p files stop) }
    ensures within { (p : Params) (w : World O) (most : ℕ) (stop : Stop) → ShowsIn O.meaning p (M.disk machine.now) engine.now w → IsTrue (is_some w.group) →
        StopsWithin most engine.now.parts.log stop → InEachImage (M.disk machine.now) (λ files. SaysStopWithin O.meaning p (commands_of (drop w.forced w.history)) files stop) }
{
    let _ = machine;
    let _ = engine;
}

/// The end of a group is a step: an engine that shows a world with an open group shows, with none, the world after it.
pub fn group_is_closed<O: Oper, M: Machine>(machine: &M, engine: &Engine<O>)
    ensures { (p : Params) (w : World O) → ShowsIn O.meaning p (M.disk machine.now) engine.now w → IsTrue (is_some w.group) →
        ShowsIn O.meaning p (M.disk machine.now) (record engine.now { group = None }) (step (meaning_in O.meaning p) w End) }
{
    explain_core::end_keeps::<O>();
    let _ = machine;
    let _ = engine;
}

/// Steps that add no command make the history longer by the identity writes that they log.
pub fn identities_are_counted<O: Oper>()
    ensures { (p : Params) (w : World O) (steps : List (Step O)) → AreUpkeep steps →
        length (run (meaning_in O.meaning p) w steps).history ≡ length w.history + length (logged_in steps) }
{}

/// A trim of a store whose write graph is empty, as a drain leaves it, leaves nothing in the log but a checkpoint: no command and
/// no identity write, and the log begins at the next LSN.
pub fn a_trim_behind_a_drain_leaves_nothing<O: Oper>()
    ensures { (p : Params) (w : World O) (epoch used : ℕ) → ((n : ℕ) → IsFalse (w.graph n)) →
        (trim_course (meaning_in O.meaning p) epoch w used).stop ≡ Through →
        IsEmptied (run (meaning_in O.meaning p) w (trim_course (meaning_in O.meaning p) epoch w used).steps) }
{}

/// Files that stand for commands show a world that a restart finds, which has these commands, and their log has a length;
/// what a restart does keeps the commands.
pub fn opens_on_a_world<O: Oper>()
    ensures world { (p : Params) (files : Files) (commands : List O) → Stands O.meaning p files commands →
        (used : ℕ) × (w : World O) × IsFound (meaning_in O.meaning p) p files commands w × EndsAt files used }
    ensures kept { (p : Params) (files : Files) (commands : List O) (w : World O) (marks : Marks) (used : ℕ) →
        IsFound (meaning_in O.meaning p) p files commands w →
        commands_of (run (meaning_in O.meaning p) w (restart_course (meaning_in O.meaning p) marks w used).steps).history ≡ commands }
{
    standing::files_show_a_world::<O>();
}

/// Files that stand for commands meet their format, and stand for fewer commands than there are LSNs.
pub fn standing_files_meet_their_format<O: Oper>()
    ensures format { (p : Params) (files : Files) (commands : List O) → Stands O.meaning p files commands → IsWellFormed O.meaning files }
    ensures few { (p : Params) (files : Files) (commands : List O) → Stands O.meaning p files commands → length commands < 2 ^ 62 }
{
    standing::standing_files_have_no_fault::<O>();
}
