ghost use Rattle.std.specs.Prelude.{ℕ};
ghost use Rattle.oper_core.specs.Meaning.{IsSmall};
ghost use Rattle.oper_core.specs.declared.bounds.Bounds.{Bounds};
ghost use Rattle.formats.specs.declared.record.Record.{Record};
ghost use Rattle.explain_core.specs.Sound.{IsSound};
ghost use Rattle.explain_core.specs.World.{World, IsLive};
ghost use Rattle.running_store.specs.Running.{IsRunning};
ghost use Rattle.execution.specs.Taken.{MayExec, MayFollow};

use oper_core::Oper;

/// A command's course may be taken in every sound world in which nothing is left to replay, also where it is stopped, and
/// while a group is open. Where nothing refuses the command and nothing stops it, the world has one command more, which is
/// this one; else it has those that it had.
pub fn exec_may_be_taken<O: Oper>()
    ensures { (b : Bounds) (w : World O) (limit : ℕ) (op : O) (used : ℕ) → IsSmall b → IsSound (O.meaning b) w → IsLive w →
        MayExec (O.meaning b) limit op w used }
{
    explain_core::every_run_keeps::<O>();
    cache_manager::force_may_be_taken::<O>();
}

/// The course of a record of another log may be taken in every sound world in which nothing is left to replay and no group is
/// open. Where nothing stops it, the history is the one behind what was made of the record; where the log is full no step is taken.
pub fn follow_may_be_taken<O: Oper>()
    ensures { (b : Bounds) (w : World O) (r : Record O) (used : ℕ) → IsSmall b → IsRunning (O.meaning b) w →
        MayFollow (O.meaning b) r w used }
{
    explain_core::every_run_keeps::<O>();
    cache_manager::force_may_be_taken::<O>();
}
