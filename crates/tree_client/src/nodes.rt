// An object is fetched, and read as a node.
ghost use Rattle.std.specs.Prelude.{◌≡◌, ◌<◌, List, Ok};
ghost use Rattle.formats.specs.declared.params.Params.{Params};
ghost use Rattle.running_store.specs.Taking.Ending.{Done};
ghost use Rattle.store_engine.specs.Lists.{ending_of};
ghost use Rattle.logical_btree.specs.Walk.{node_at};
ghost use Rattle.logical_btree.specs.Below.{below_in};
ghost use Rattle.tree_client.specs.Answers.{cause_in};
ghost use Rattle.tree_client.specs.Finding.{node_answer};
ghost use Rattle.store_calls.specs.Making.{Reads};
ghost use Rattle.range_calls.specs.Store.{Command, state_of};

use crate::tree_err::TreeErr;
use btree_ops::Node;
use disk_model::Machine;
use key_entries::Short;
use logical_btree::{Below, Tree, TreeRefusal};
use op_codec::AllOps;
use range_calls::{CallErr, see};
use store_calls::Store;

/// The node of an object of the range. It is refused as `BadTree` where the object is bad.
pub(crate) fn node_of<S: Store<AllOps>, M: Machine>(
    tree: &Tree,
    store: &mut S,
    machine: &mut M,
    object: u32,
) -> Result<Node, TreeErr>
    requires unbroken { S.view.unbroken store.old }
    ensures reads { Reads S.view (M.disk machine.old) (M.disk machine.new) store.old store.new (cause_in result) }
    ensures answer { (p : Params) (commands : List Command) → S.view.holds p (M.disk machine.old) store.old commands → object < p.objects →
        ending_of (cause_in result) ≡ Done → result ≡ node_answer object (node_at tree.now.lo tree.now.hi (state_of p commands) object) }
{
    let there = see(store, machine, object)?;
    if !there {
        return Err(CallErr::Refused(TreeRefusal::NoObject));
    }
    match tree.node(object, store.get(object)) {
        Some(node) => Ok(node),
        None => Err(CallErr::Refused(TreeRefusal::BadTree { object })),
    }
}

/// Where a way to a key goes on from the node of an object of the range; none where that is a leaf, or the object is bad.
pub(crate) fn below_of<S: Store<AllOps>, M: Machine>(
    tree: &Tree,
    store: &mut S,
    machine: &mut M,
    object: u32,
    key: Short,
) -> Result<Option<Below>, TreeErr>
    requires unbroken { S.view.unbroken store.old }
    ensures reads { Reads S.view (M.disk machine.old) (M.disk machine.new) store.old store.new (cause_in result) }
    ensures answer { (p : Params) (commands : List Command) → S.view.holds p (M.disk machine.old) store.old commands → object < p.objects →
        ending_of (cause_in result) ≡ Done → result ≡ Ok (below_in key (node_at tree.now.lo tree.now.hi (state_of p commands) object)) }
{
    let there = see(store, machine, object)?;
    if !there {
        return Ok(None);
    }
    Ok(tree.below(object, store.get(object), key))
}
