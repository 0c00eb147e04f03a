// Commands that are accepted one after the other are run.
ghost use Rattle.std.specs.Prelude.{◌≡◌, false, List};
ghost use Rattle.std.specs.Result.{result_err};
ghost use Rattle.formats.specs.declared.params.Params.{Params};
ghost use Rattle.store_engine.specs.Engine.{Holds};
ghost use Rattle.store_engine.specs.Lists.{AddsFront, AreCalls, ending_of};
ghost use Rattle.store_engine.specs.Store.{meaning_in, state_of};
ghost use Rattle.transactions.specs.Accepted.{AreAccepted, IsNoRefusal};

use disk_model::Machine;
use oper_core::Oper;
use std::collections::VecDeque;
use store_engine::{Engine, ExecErr, calls_go_on, exec_goes_on, nothing_is_made};

/// Runs commands, one after the other. Where nothing refuses them, each on the values after those before it, all are added,
/// or a beginning of them, where the log, memory or the disk ends it: none is refused.
pub(crate) fn run_all<O: Oper, M: Machine>(
    engine: &mut Engine<O>,
    machine: &mut M,
    ops: &mut VecDeque<O>,
) -> Result<(), ExecErr>
    requires unbroken { engine.old.broken ≡ false }
    ensures calls { AreCalls O.meaning (M.disk machine.old) (M.disk machine.new) engine.old engine.new (result_err result) }
    ensures adds { (p : Params) (commands : List O) → (holds : Holds O.meaning p (M.disk machine.old) engine.old commands) → AreAccepted (meaning_in O.meaning p) (state_of O.meaning p commands) ops.old.items →
        AddsFront O.meaning p (M.disk machine.old) (M.disk machine.new) engine.old engine.new holds.world commands ops.old.items (ending_of (result_err result)) }
    ensures unrefused { (p : Params) (commands : List O) → Holds O.meaning p (M.disk machine.old) engine.old commands → AreAccepted (meaning_in O.meaning p) (state_of O.meaning p commands) ops.old.items →
        IsNoRefusal (result_err result) }
{
    exec_goes_on::<O, M>();
    calls_go_on::<O, M>();
    nothing_is_made(machine, engine);
    while let Some(op) = ops.pop_front() {
        if let Err(e) = engine.exec(machine, op) {
            return Err(e);
        }
    }
    Ok(())
}
