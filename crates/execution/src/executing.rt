// A command is checked, logged, and done on the objects.
ghost use Rattle.std.specs.Prelude.{◌≡◌, false};
ghost use Rattle.formats.specs.declared.params.Params.{Params as Numbers};
ghost use Rattle.explain_core.specs.World.{World};
ghost use Rattle.running_store.specs.Calls.{IsCall};
ghost use Rattle.running_store.specs.Parts.{Shows, meaning_in};
ghost use Rattle.running_store.specs.StoreView.{log_length, store_params};
ghost use Rattle.running_store.specs.Taking.{Takes};
ghost use Rattle.execution.specs.Answers.{HasCauseIn, ending_of_exec};
ghost use Rattle.execution.specs.Courses.{exec_course};
ghost use Rattle.execution.specs.Done.{IsOutcome};
ghost use Rattle.execution.specs.Stops.{StopsCommand};

use crate::admitting::admit;
use crate::exec_err::ExecErr;
use crate::placing::require_place;
use disk_model::Machine;
use oper_core::Oper;
use running_store::Store;

/// Adds a command to the log's buffer, to the objects and to the write graph. It answers how many were accepted since the
/// store was made. While a group is open (`grouped`) nothing is forced. A store knows of no group: the world that it shows is
/// then that of the engine above, but with no group open.
///
/// The first that applies is answered: `Refused`, on the command alone; `DiskFault`, `Damaged` and `Memory` while the
/// objects that it reads are fetched; `Refused`, on their values; `Memory`, where its code has 2^63 bytes or more;
/// `LogFull` and `LsnEnd`, after a force outside groups; `Memory` for its values, its record and its entry. Where it isn't
/// done each object has the value that it had, and the graph is as it was.
pub fn execute<O: Oper, M: Machine>(
    store: &mut Store<O>,
    machine: &mut M,
    op: O,
    grouped: bool,
) -> Result<u64, ExecErr>
    requires unbroken { store.old.broken ≡ false }
    ensures call { IsCall O.meaning (M.disk machine.old) (M.disk machine.new) store.old store.new 0 (StopsCommand grouped (store_params store.old).limit) (ending_of_exec result) }
    ensures takes { Takes O.meaning (M.disk machine.old) (M.disk machine.new) store.old.parts store.new.parts (λ m w used. exec_course m grouped (store_params store.old).limit op w used) (ending_of_exec result) }
    // Each answer comes exactly where its cause holds.
    ensures in_world { (p : Numbers) (w : World O) → Shows (meaning_in O.meaning p) p (M.disk machine.old) store.old.parts w →
        HasCauseIn grouped (meaning_in O.meaning p) p.limit w (log_length store.old) op result }
    ensures outcome { IsOutcome O.meaning grouped (M.disk machine.old) (M.disk machine.new) store.old.parts store.new.parts op result }
{
    explain_core::append_keeps::<O>();
    let (copies, length) = admit(store, machine, &op)?;
    require_place(store, machine, length, grouped)?;
    store.append_command(op, copies)?;
    Ok(store.log().accepted())
}
