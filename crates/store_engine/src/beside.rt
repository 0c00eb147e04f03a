// The calls of an engine beside a copy of its slots.
ghost use Rattle.std.specs.Prelude.{◌≡◌, ℕ, IsTrue, List, None};
ghost use Rattle.std.specs.Option.{is_some};
ghost use Rattle.oper_core.specs.Cell.{Cell};
ghost use Rattle.oper_core.specs.Meaning.{IsSmall};
ghost use Rattle.oper_core.specs.declared.bounds.Bounds.{Bounds};
ghost use Rattle.explain_core.specs.Backup.{IsCopied};
ghost use Rattle.explain_core.specs.RunLaws.{Begins};
ghost use Rattle.explain_core.specs.Sound.{IsSound};
ghost use Rattle.explain_core.specs.World.{IsLive, Step, World, run};
ghost use Rattle.running_store.specs.Courses.{force_course};
ghost use Rattle.running_store.specs.Running.{IsRunning};
ghost use Rattle.cache_manager.specs.InstallCourses.{drain_course, install_course, turn_course};
ghost use Rattle.checkpointing.specs.Courses.{checkpoint_course, upkeep_course};
ghost use Rattle.checkpointing.specs.declared.due.Due.{Due};
ghost use Rattle.execution.specs.Courses.{exec_course};
ghost use Rattle.store_engine.specs.Beside.{CourseKeepsCopy, MayGoBeside};
ghost use Rattle.store_engine.specs.Calls.{begin_course, end_course};
ghost use Rattle.store_engine.specs.Grouping.{ungrouped};
ghost use Rattle.store_engine.specs.Lists.{commands_course};
ghost use Rattle.store_engine.specs.LogOf.{CopyHoldsLog, KeepsShown};

use disk_model::Machine;
use oper_core::Oper;

/// The steps of each call but a trim may be taken beside a copy of the slots, which has the objects below a number: of a
/// command, of a force, of an install, of a turn and of a drain that keep to it, of a checkpoint, of upkeep without a trim, and of the
/// beginning and the end of a group. A fetch takes none.
pub fn calls_go_beside_a_copy<O: Oper>()
    ensures exec { (b : Bounds) (copied limit : ℕ) (op : O) (w : World O) (used : ℕ) → IsSmall b → IsSound (O.meaning b) w → IsLive w →
        MayGoBeside (O.meaning b) copied w (exec_course (O.meaning b) (is_some w.group) limit op w used).steps }
    ensures force { (b : Bounds) (copied : ℕ) (w : World O) (used : ℕ) → IsSmall b → IsRunning (O.meaning b) w →
        MayGoBeside (O.meaning b) copied w (force_course (O.meaning b) w used).steps }
    ensures install { (b : Bounds) (copied : ℕ) (w : World O) (used : ℕ) → IsSmall b → IsRunning (O.meaning b) w →
        MayGoBeside (O.meaning b) copied w (install_course (O.meaning b) copied w used).steps }
    ensures turn { (b : Bounds) (copied most : ℕ) (w : World O) (used : ℕ) → IsSmall b → IsRunning (O.meaning b) w →
        MayGoBeside (O.meaning b) copied w (turn_course (O.meaning b) copied most w used).steps }
    ensures drain { (b : Bounds) (copied : ℕ) (w : World O) (used : ℕ) → IsSmall b → IsRunning (O.meaning b) w →
        MayGoBeside (O.meaning b) copied w (drain_course (O.meaning b) copied w used).steps }
    ensures checkpoint { (b : Bounds) (copied : ℕ) (w : World O) (used : ℕ) → IsSmall b → IsRunning (O.meaning b) w →
        MayGoBeside (O.meaning b) copied w (checkpoint_course (O.meaning b) w used).steps }
    ensures upkeep { (b : Bounds) (due : Due) (epoch copied : ℕ) (w : World O) (used : ℕ) → due.trim ≡ None → IsSmall b → IsRunning (O.meaning b) w →
        MayGoBeside (O.meaning b) copied w (upkeep_course (O.meaning b) due epoch copied w used).steps }
    ensures begin { (b : Bounds) (copied : ℕ) (w : World O) (used : ℕ) → IsSmall b → IsRunning (O.meaning b) w →
        MayGoBeside (O.meaning b) copied w (begin_course (O.meaning b) w used).steps }
    ensures end { (b : Bounds) (copied : ℕ) (w : World O) (used : ℕ) → IsTrue (is_some w.group) →
        MayGoBeside (O.meaning b) copied w (end_course (O.meaning b) w used).steps }
{
    execution::exec_may_be_taken::<O>();
    cache_manager::force_may_be_taken::<O>();
    cache_manager::install_may_be_taken::<O>();
    cache_manager::turn_may_be_taken::<O>();
    cache_manager::drain_may_be_taken::<O>();
    cache_manager::installs_go_beside_a_copy::<O>();
    checkpointing::checkpoint_may_be_taken::<O>();
    checkpointing::upkeep_may_be_taken::<O>();
}

/// What was copied of a world stays a copy under all first steps of a course that may go beside it, so also where a call on an
/// engine that shows the world took that course, some of it or all. Commands, one after the other, leave it whatever they are, since
/// they set no slot and cut no log.
pub fn a_copy_goes_on<O: Oper, M: Machine>()
    ensures some { (b : Bounds) (copied : ℕ) (cells : ℕ → Cell) (w : World O) (steps taken : List (Step O)) → IsSmall b → IsSound (O.meaning b) w →
        IsCopied (O.meaning b) (ungrouped w) copied cells → MayGoBeside (O.meaning b) copied w steps → Begins steps taken →
        IsCopied (O.meaning b) (ungrouped (run (O.meaning b) w taken)) copied cells }
    ensures course { CourseKeepsCopy O.meaning M.disk }
    ensures commands { (b : Bounds) (copied limit : ℕ) (cells : ℕ → Cell) (ops : List O) (w : World O) (used : ℕ) → IsCopied (O.meaning b) (ungrouped w) copied cells →
        IsCopied (O.meaning b) (ungrouped (run (O.meaning b) w (commands_course (O.meaning b) limit ops w used).steps)) copied cells }
{
    explain_core::copy_stays::<O>();
}

/// Where engine and files show a world, files to which the engine's log is copied have the log of that world.
pub fn a_copied_log_is_of_the_world<O: Oper, M: Machine>()
    ensures keeps { KeepsShown O.meaning M.disk }
    ensures holds { CopyHoldsLog O.meaning M.disk }
{}
