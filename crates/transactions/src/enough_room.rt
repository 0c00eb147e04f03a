// Room that is there serves.
ghost use Rattle.std.specs.Prelude.{◌≡◌, ◌≤◌, ◌++◌, ◌∷◌, [], ℕ, Err, List};
ghost use Rattle.execution.specs.declared.exec_err.ExecErr.TheVariants.{LogFull};
ghost use Rattle.explain_core.specs.World.{World};
ghost use Rattle.formats.specs.declared.params.Params.{Params};
ghost use Rattle.running_store.specs.Courses.Stop.{Full};
ghost use Rattle.running_store.specs.Taking.Ending.{Done, Stopped};
ghost use Rattle.store_engine.specs.Commands.{HasRun};
ghost use Rattle.store_engine.specs.Engine.{EngineView, ShowsIn, records_of};
ghost use Rattle.store_engine.specs.Lists.{AddsFront};
ghost use Rattle.transactions.specs.Room.{HasRoomOf};

use disk_model::Machine;
use oper_core::Oper;
use store_engine::exec_goes_on;

/// Where the log has room for records of so many bytes, no command whose record, with those of the commands that were added since,
/// has no more is answered `LogFull`, and no call that adds commands of no more is stopped so.
pub fn room_is_enough<O: Oper, M: Machine>()
    ensures call { (old new : M) (before after : EngineView) (p : Params) (w : World O) (commands ops : List O) (bytes used need limit : ℕ) → ShowsIn O.meaning p (M.disk old) before w →
        HasRoomOf before bytes → records_of O.meaning p ops ≤ bytes → AddsFront O.meaning p (M.disk old) (M.disk new) before after w commands ops (Stopped (Full used need limit)) → ⊥ }
    ensures command { (old mid new : M) (before between after : EngineView) (p : Params) (w : World O) (commands ops : List O) (op : O) (bytes used need limit : ℕ) → ShowsIn O.meaning p (M.disk old) before w →
        HasRoomOf before bytes → records_of O.meaning p (ops ++ op ∷ []) ≤ bytes → AddsFront O.meaning p (M.disk old) (M.disk mid) before between w commands ops Done →
        HasRun O.meaning (M.disk mid) (M.disk new) between after op (Err (LogFull used need limit)) → ⊥ }
{
    exec_goes_on::<O, M>();
}
