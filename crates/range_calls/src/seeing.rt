// An object is fetched.
ghost use Rattle.std.specs.Prelude.{◌≡◌, List, true, nat_lt, IfOk, OnErr};
ghost use Rattle.formats.specs.declared.params.Params.{Params};
ghost use Rattle.running_store.specs.Taking.Ending.{Done};
ghost use Rattle.store_engine.specs.Lists.{ending_of};
ghost use Rattle.store_calls.specs.Making.{Reads};
ghost use Rattle.range_calls.specs.Answers.{cause_in};
ghost use Rattle.range_calls.specs.Store.{Command, state_of};

use crate::CallErr;
use disk_model::Machine;
use op_codec::AllOps;
use store_calls::Store;

/// Sees that an object is cached. It reports whether the store has the object.
pub fn see<R, S: Store<AllOps>, M: Machine>(
    store: &mut S,
    machine: &mut M,
    object: u32,
) -> Result<bool, CallErr<R>>
    requires unbroken { S.view.unbroken store.old }
    ensures reads { Reads S.view (M.disk machine.old) (M.disk machine.new) store.old store.new (cause_in result) }
    ensures there { IfOk result (λ there. there ≡ nat_lt object (S.view.params store.old).objects) }
    ensures failed { OnErr result (ending_of (cause_in result) ≡ Done → ⊥) }
    ensures cached { IfOk result (λ there. there ≡ true → S.view.cached store.new object) }
    ensures value { (p : Params) (commands : List Command) → S.view.holds p (M.disk machine.old) store.old commands →
        IfOk result (λ there. there ≡ true → S.view.value store.new object ≡ state_of p commands object) }
{
    Ok(store.fetch(machine, object)?)
}
