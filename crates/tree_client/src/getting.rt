// The value of a key.
ghost use Rattle.std.specs.Prelude.{◌≡◌, [], List};
ghost use Rattle.formats.specs.Objects.{bounds_of};
ghost use Rattle.formats.specs.declared.params.Params.{Params};
ghost use Rattle.running_store.specs.Taking.Ending.{Done};
ghost use Rattle.store_engine.specs.Lists.{ending_of};
ghost use Rattle.store_calls.specs.Making.{Calls};
ghost use Rattle.logical_btree.specs.Plan.{get_answer};
ghost use Rattle.tree_client.specs.Answers.{cause_in, told};
ghost use Rattle.range_calls.specs.Store.{Command, state_of};

use crate::tree_err::TreeErr;
use crate::walking::walk;
use disk_model::Machine;
use key_entries::{Short, value_in};
use logical_btree::{Tree, TreeRefusal};
use op_codec::AllOps;
use range_calls::CallErr;
use store_calls::Store;

/// The value of a key, if it is there. No command is added.
///
/// It answers `NoObject` exactly where the range ends past the last object, `BadTree` exactly where the way to the key meets
/// a bad object, the one met first, and `Exec` with what the store answered to a fetch: `DiskFault`, `Damaged` or `Memory`.
pub fn get<S: Store<AllOps>, M: Machine>(
    tree: &Tree,
    store: &mut S,
    machine: &mut M,
    key: &Short,
) -> Result<Option<Short>, TreeErr>
    requires unbroken { S.view.unbroken store.old }
    ensures calls { Calls S.view (M.disk machine.old) (M.disk machine.new) store.old store.new (cause_in result) }
    ensures adds { (p : Params) (commands : List Command) → S.view.holds p (M.disk machine.old) store.old commands →
        S.view.adds p (M.disk machine.old) (M.disk machine.new) store.old store.new commands [] (ending_of (cause_in result)) }
    ensures answer { (p : Params) (commands : List Command) → S.view.holds p (M.disk machine.old) store.old commands → ending_of (cause_in result) ≡ Done →
        result ≡ told (get_answer (bounds_of p) tree.now.lo tree.now.hi (state_of p commands) key.now) }
{
    store.nothing_is_made(machine);
    if tree.last() >= store.params().objects {
        return Err(CallErr::Refused(TreeRefusal::NoObject));
    }
    let end = walk(tree, store, machine, *key)?;
    Ok(value_in(end.pairs.as_slice(), *key))
}
