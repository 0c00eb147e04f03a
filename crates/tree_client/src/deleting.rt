// A key is deleted.
ghost use Rattle.std.specs.Prelude.{◌≡◌, List};
ghost use Rattle.std.specs.Result.{result_err};
ghost use Rattle.formats.specs.Objects.{bounds_of};
ghost use Rattle.formats.specs.declared.params.Params.{Params};
ghost use Rattle.running_store.specs.Taking.Ending.{Done};
ghost use Rattle.store_engine.specs.Lists.{ending_of};
ghost use Rattle.store_calls.specs.Making.{Calls};
ghost use Rattle.logical_btree.specs.Plan.{delete_plan};
ghost use Rattle.tree_client.specs.Answers.{cause_in, made_of, refused_in};
ghost use Rattle.range_calls.specs.Store.{Command, state_of};

use crate::tree_err::TreeErr;
use crate::walking::walk;
use btree_ops::NodeOp;
use disk_model::Machine;
use key_entries::{Short, has_key};
use logical_btree::{Tree, TreeRefusal, commands_are_accepted};
use op_codec::{AllOps, node_op};
use range_calls::{CallErr, make};
use store_calls::Store;

/// Deletes a key and its value, by one command.
///
/// It answers `NoObject` exactly where the range ends past the last object, `BadTree` exactly where the way to the key meets
/// a bad object, the one met first, `NoKey` exactly where the key is not there, and `Exec` with what the store answered to
/// a fetch or to the command: `Refused(TooLarge)` exactly where a value may hold fewer than 1,024 bytes and the command is
/// due, and nothing else is refused.
pub fn delete<S: Store<AllOps>, M: Machine>(
    tree: &Tree,
    store: &mut S,
    machine: &mut M,
    key: &Short,
) -> Result<(), TreeErr>
    requires unbroken { S.view.unbroken store.old }
    ensures calls { Calls S.view (M.disk machine.old) (M.disk machine.new) store.old store.new (cause_in result) }
    ensures adds { (p : Params) (commands : List Command) → S.view.holds p (M.disk machine.old) store.old commands →
        S.view.adds p (M.disk machine.old) (M.disk machine.new) store.old store.new commands
        (made_of p.cap (delete_plan (bounds_of p) tree.now.lo tree.now.hi (state_of p commands) key.now).commands) (ending_of (cause_in result)) }
    ensures answer { (p : Params) (commands : List Command) → S.view.holds p (M.disk machine.old) store.old commands → ending_of (cause_in result) ≡ Done →
        result_err result ≡ refused_in p.cap (delete_plan (bounds_of p) tree.now.lo tree.now.hi (state_of p commands) key.now) }
{
    store.nothing_is_made(machine);
    S::calls_go_on::<M>();
    commands_are_accepted();
    if tree.last() >= store.params().objects {
        return Err(CallErr::Refused(TreeRefusal::NoObject));
    }
    let end = walk(tree, store, machine, *key)?;
    if has_key(end.pairs.as_slice(), *key) {
        let _bytes = key.as_slice();
        let op = node_op(NodeOp::Delete {
            object: end.leaf,
            key: *key,
        });
        return make(store, machine, op);
    }
    Err(CallErr::Refused(TreeRefusal::NoKey))
}
