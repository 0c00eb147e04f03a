// The way from the root to a leaf.
ghost use Rattle.std.specs.Prelude.{◌≡◌, ◌<◌, ◌≤◌, List, None};
ghost use Rattle.formats.specs.declared.params.Params.{Params};
ghost use Rattle.running_store.specs.Taking.Ending.{Done};
ghost use Rattle.store_engine.specs.Lists.{ending_of};
ghost use Rattle.logical_btree.specs.Walk as walks;
ghost use Rattle.tree_client.specs.Answers.{cause_in};
ghost use Rattle.tree_client.specs.Finding.{first_of, full_at, leaf_end, way_end};
ghost use Rattle.store_calls.specs.Making.{Reads};
ghost use Rattle.range_calls.specs.Store.{Command, state_of};

use crate::full::Full;
use crate::nodes::{below_of, node_of};
use crate::tree_err::TreeErr;
use btree_ops::Node;
use disk_model::Machine;
use key_entries::{Pairs, Short};
use logical_btree::{Tree, TreeRefusal, is_full};
use op_codec::AllOps;
use range_calls::{CallErr, reads_go_on};
use store_calls::Store;

/// The leaf at the end of a way, with its pairs, and the first full node on the way.
#[derive(Drop)]
pub(crate) struct WayEnd {
    pub(crate) leaf: u32,
    pub(crate) pairs: Pairs,
    pub(crate) full: Option<Full>,
}

/// How many objects the range has.
pub(crate) fn size(tree: &Tree) -> u64
    ensures value { result ≡ walks.size tree.now.lo tree.now.hi }
    ensures order { tree.now.lo ≤ tree.now.hi }
{
    let last = tree.last();
    (last - tree.root()) as u64 + 1
}

/// The full node that was seen, or else this one, if it is full.
fn note_full(seen: Option<Full>, parent: Option<u32>, object: u32, is_full: bool) -> Option<Full>
    ensures { result ≡ first_of seen (full_at parent object is_full) }
{
    if seen.is_some() {
        return seen;
    }
    if is_full {
        return Some(Full {
            parent,
            child: object,
        });
    }
    None
}

/// The end of a way at an object that is no inner node.
fn end_at<S: Store<AllOps>, M: Machine>(
    tree: &Tree,
    store: &mut S,
    machine: &mut M,
    object: u32,
    seen: Option<Full>,
    parent: Option<u32>,
) -> Result<WayEnd, TreeErr>
    requires unbroken { S.view.unbroken store.old }
    ensures reads { Reads S.view (M.disk machine.old) (M.disk machine.new) store.old store.new (cause_in result) }
    ensures answer { (p : Params) (commands : List Command) → S.view.holds p (M.disk machine.old) store.old commands → object < p.objects →
        ending_of (cause_in result) ≡ Done → result ≡ leaf_end seen parent object (walks.node_at tree.now.lo tree.now.hi (state_of p commands) object) }
{
    let node = node_of(tree, store, machine, object)?;
    let full = note_full(seen, parent, object, is_full(&node));
    match node {
        Node::Leaf(pairs) => Ok(WayEnd {
            leaf: object,
            pairs,
            full,
        }),
        Node::Inner(_, _) => Err(CallErr::Refused(TreeRefusal::BadTree { object })),
    }
}

/// Goes from the root to the leaf under which a key stands. Of an inner node only the child is read where the way goes on.
pub(crate) fn walk<S: Store<AllOps>, M: Machine>(
    tree: &Tree,
    store: &mut S,
    machine: &mut M,
    key: Short,
) -> Result<WayEnd, TreeErr>
    requires unbroken { S.view.unbroken store.old }
    requires there { tree.now.hi < (S.view.params store.old).objects }
    ensures reads { Reads S.view (M.disk machine.old) (M.disk machine.new) store.old store.new (cause_in result) }
    ensures answer { (p : Params) (commands : List Command) → S.view.holds p (M.disk machine.old) store.old commands → ending_of (cause_in result) ≡ Done →
        result ≡ way_end None None (walks.walk tree.now.lo tree.now.hi (state_of p commands) key) }
{
    store.nothing_is_made(machine);
    reads_go_on::<S, M>();
    let mut object = tree.root();
    let mut parent = None;
    let mut full = None;
    for _step in 0..size(tree) {
        let found = below_of(tree, store, machine, object, key)?;
        match found {
            None => return end_at(tree, store, machine, object, full, parent),
            Some(below) => {
                full = note_full(full, parent, object, below.full);
                parent = Some(object);
                object = below.child;
            }
        }
    }
    Err(CallErr::Refused(TreeRefusal::BadTree { object }))
}
