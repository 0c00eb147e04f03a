ghost use Rattle.std.specs.Prelude.{ℕ};
ghost use Rattle.oper_core.specs.Meaning.{IsSmall};
ghost use Rattle.oper_core.specs.declared.bounds.Bounds.{Bounds};
ghost use Rattle.explain_core.specs.World.{World};
ghost use Rattle.running_store.specs.Running.{IsRunning, MayBeTaken};
ghost use Rattle.checkpointing.specs.declared.due.Due.{Due};
ghost use Rattle.checkpointing.specs.Courses.{checkpoint_course, closing_course, trim_within, upkeep_course};

use oper_core::Oper;

/// A checkpoint may be taken in every world in which calls are made, also where it is refused, and it adds no command.
pub fn checkpoint_may_be_taken<O: Oper>()
    ensures { (b : Bounds) (w : World O) (used : ℕ) → IsSmall b → IsRunning (O.meaning b) w →
        MayBeTaken (O.meaning b) w (checkpoint_course (O.meaning b) w used).steps }
{
    explain_core::every_run_keeps::<O>();
}

/// So may the checkpoint with which a restart ends.
pub fn closing_checkpoint_may_be_taken<O: Oper>()
    ensures { (b : Bounds) (w : World O) (used : ℕ) → IsSmall b → IsRunning (O.meaning b) w →
        MayBeTaken (O.meaning b) w (closing_course (O.meaning b) w used).steps }
{
    explain_core::every_run_keeps::<O>();
}

/// So may a trim of a log of any epoch, however long it may leave the log.
pub fn trim_may_be_taken<O: Oper>()
    ensures { (b : Bounds) (w : World O) (most epoch used : ℕ) → IsSmall b → IsRunning (O.meaning b) w →
        MayBeTaken (O.meaning b) w (trim_within (O.meaning b) most epoch w used).steps }
{
    explain_core::every_run_keeps::<O>();
}

/// And so may upkeep, whatever is due.
pub fn upkeep_may_be_taken<O: Oper>()
    ensures { (b : Bounds) (w : World O) (due : Due) (epoch copied used : ℕ) → IsSmall b → IsRunning (O.meaning b) w →
        MayBeTaken (O.meaning b) w (upkeep_course (O.meaning b) due epoch copied w used).steps }
{
    explain_core::every_run_keeps::<O>();
    cache_manager::turn_may_be_taken::<O>();
}
