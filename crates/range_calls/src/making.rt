// One command of a plan is run.
ghost use Rattle.std.specs.Prelude.{◌≡◌, List, [], ◌∷◌, None};
ghost use Rattle.std.specs.Result.{result_err};
ghost use Rattle.formats.specs.declared.params.Params.{Params};
ghost use Rattle.running_store.specs.Taking.Ending.{Done};
ghost use Rattle.store_engine.specs.Lists.{ending_of};
ghost use Rattle.store_calls.specs.Making.{Adds, Calls};
ghost use Rattle.range_calls.specs.Answers.{cause_in, made_of, refused_of};
ghost use Rattle.range_calls.specs.Due.{IsDue};
ghost use Rattle.range_calls.specs.Store.{Command, state_of};

use crate::CallErr;
use disk_model::Machine;
use op_codec::AllOps;
use store_calls::Store;

/// Runs a command that is due: it is accepted, or refused as too large where a value may hold fewer than 1,024 bytes.
pub fn make<R, S: Store<AllOps>, M: Machine>(
    store: &mut S,
    machine: &mut M,
    op: AllOps,
) -> Result<(), CallErr<R>>
    requires unbroken { S.view.unbroken store.old }
    ensures calls { Calls S.view (M.disk machine.old) (M.disk machine.new) store.old store.new (cause_in result) }
    ensures adds { (p : Params) (commands : List Command) → S.view.holds p (M.disk machine.old) store.old commands → IsDue p (state_of p commands) op →
        Adds S.view (M.disk machine.old) (M.disk machine.new) store.old store.new p commands (made_of p.cap (op ∷ [])) (cause_in result) }
    ensures answer { (p : Params) (commands : List Command) → S.view.holds p (M.disk machine.old) store.old commands → IsDue p (state_of p commands) op →
        ending_of (cause_in result) ≡ Done → result_err result ≡ refused_of p.cap (op ∷ []) None }
{
    match store.exec(machine, op) {
        Ok(_) => Ok(()),
        Err(cause) => Err(CallErr::Exec(cause)),
    }
}
