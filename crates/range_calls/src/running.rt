// Commands are run that may be refused.
ghost use Rattle.std.specs.Prelude.{[], ◌∷◌, None};
ghost use Rattle.range_calls.specs.Few.{if_any};
ghost use Rattle.range_calls.specs.Rounds.{Comes, tried_all};
ghost use Rattle.range_calls.specs.Store.{state_of};

use crate::CallErr;
use crate::few::Few;
use disk_model::Machine;
use op_codec::AllOps;
use store_calls::Store;

/// Runs a command, which is made where it is accepted. It answers as `Store::exec` does.
pub fn run<R, S: Store<AllOps>, M: Machine>(
    store: &mut S,
    machine: &mut M,
    op: AllOps,
) -> Result<(), CallErr<R>>
    requires unbroken { S.view.unbroken store.old }
    ensures { Comes S.view (M.disk machine.old) (M.disk machine.new) store.old store.new (λ p commands. tried_all p (state_of p commands) (op ∷ []) None) result }
{
    match store.exec(machine, op) {
        Ok(_) => Ok(()),
        Err(cause) => Err(CallErr::Exec(cause)),
    }
}

/// Runs a command, if there is one.
fn run_any<R, S: Store<AllOps>, M: Machine>(
    store: &mut S,
    machine: &mut M,
    op: Option<AllOps>,
) -> Result<(), CallErr<R>>
    requires unbroken { S.view.unbroken store.old }
    ensures { Comes S.view (M.disk machine.old) (M.disk machine.new) store.old store.new (λ p commands. tried_all p (state_of p commands) (if_any op) None) result }
{
    store.nothing_is_made(machine);
    match op {
        Some(op) => run(store, machine, op),
        None => Ok(()),
    }
}

/// Runs commands in their order, as far as each is accepted.
pub(crate) fn run_all<R, S: Store<AllOps>, M: Machine>(
    store: &mut S,
    machine: &mut M,
    ops: Few,
) -> Result<(), CallErr<R>>
    requires unbroken { S.view.unbroken store.old }
    ensures { Comes S.view (M.disk machine.old) (M.disk machine.new) store.old store.new (λ p commands. tried_all p (state_of p commands) ops None) result }
{
    S::calls_go_on::<M>();
    let (first, second, third) = ops.into_parts();
    run_any(store, machine, first)?;
    run_any(store, machine, second)?;
    run_any(store, machine, third)
}
