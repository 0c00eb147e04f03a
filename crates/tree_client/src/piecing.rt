// The pairs of one leaf, for a walk through all pairs of a tree that holds few of them at a time.
ghost use Rattle.std.specs.Prelude.{◌≡◌, ◌+◌, ◌<◌, ◌≤◌, ◌++◌, ◌∷◌, [], List, Ok, Err, true, IfErr, IfOk};
ghost use Rattle.std.specs.List.{filter};
ghost use Rattle.arrayvec.specs.ArrayVec.{array_vec_len};
ghost use Rattle.formats.specs.Objects.{bounds_of};
ghost use Rattle.formats.specs.declared.params.Params.{Params};
ghost use Rattle.running_store.specs.Taking.Ending.{Done};
ghost use Rattle.store_engine.specs.Lists.{ending_of};
ghost use Rattle.logical_btree.specs.Plan.{get_answer, get_on};
ghost use Rattle.logical_btree.specs.Walk as walks;
ghost use Rattle.store_calls.specs.Making.{Calls, Reads};
ghost use Rattle.range_calls.specs.Store.{Command, state_of};
ghost use Rattle.tree_client.specs.Answers.{cause_in, cause_of, told};
ghost use Rattle.tree_client.specs.Pieces.{end_below, span_answer};

use crate::nodes::node_of;
use crate::part::lesser;
use crate::tree_err::TreeErr;
use crate::walking::size;
use arrayvec::ArrayVec;
use btree_ops::Node;
use disk_model::Machine;
use key_entries::{Pairs, Short};
use logical_btree::{Tree, TreeRefusal, child_for};
use op_codec::AllOps;
use range_calls::{CallErr, reads_go_on};
use store_calls::Store;

/// Some pairs of a tree, from a key on, and the key at which the next piece begins; none where this is the last.
#[derive(Drop)]
pub struct Piece {
    pub pairs: Pairs,
    pub next: Option<Short>,
}

/// The lesser of a key and an end, if there is one.
fn nearer(key: Short, end: &Option<Short>) -> Short
    ensures { result ≡ walks.lower_end key end.now }
{
    match end {
        None => key,
        Some(end) => lesser(key, *end),
    }
}

/// Where the keys end that stand under the same child as a key.
fn end_for(key: Short, end: Option<Short>, branches: &[(Short, u32)]) -> Option<Short>
    ensures { result ≡ end_below key end branches.now }
{
    for i in 0..branches.len() {
        if key < branches[i].0 {
            return Some(nearer(branches[i].0, &end));
        }
    }
    end
}

/// Whether a key is below an end, if there is one.
fn is_before(key: Short, end: &Option<Short>) -> bool
    ensures { result ≡ walks.is_below key end.now }
{
    match end {
        None => true,
        Some(end) => key < *end,
    }
}

/// Whether a key is not below one, and below an end, if there is one.
fn is_asked(key: Short, from: Short, end: &Option<Short>) -> bool
    ensures { result ≡ walks.is_within key (record { from = from; to = end.now }) }
{
    !(key < from) && is_before(key, end)
}

/// Adds a pair, if its key is asked for.
fn push_asked(pair: (Short, Short), from: Short, end: &Option<Short>, pairs: &mut Pairs)
    requires room { array_vec_len pairs.old < 7 }
    ensures items { pairs.new.items ≡ pairs.old.items ++ filter (λ e. walks.is_within e.0 (record { from = from; to = end.now })) (pair ∷ []) }
    ensures few { array_vec_len pairs.new ≤ array_vec_len pairs.old + 1 }
{
    if !is_asked(pair.0, from, end) {
        return;
    }
    pairs.push(pair);
}

/// The pairs of a leaf whose keys are asked for.
fn asked_pairs(leaf: &Pairs, from: Short, end: &Option<Short>) -> Pairs
    ensures { result.items ≡ filter (λ e. walks.is_within e.0 (record { from = from; to = end.now })) leaf.now.items }
{
    let all = leaf.as_slice();
    let mut pairs: Pairs = ArrayVec::new();
    for i in 0..all.len() {
        push_asked(all[i], from, end, &mut pairs);
    }
    pairs
}

/// Goes from the root to the leaf under which a key stands, and gives its pairs from the key on. Each node on the way is fetched
/// once.
fn leaf_piece<S: Store<AllOps>, M: Machine>(
    tree: &Tree,
    store: &mut S,
    machine: &mut M,
    key: Short,
) -> Result<Piece, TreeErr>
    requires unbroken { S.view.unbroken store.old }
    requires there { tree.now.hi < (S.view.params store.old).objects }
    ensures reads { Reads S.view (M.disk machine.old) (M.disk machine.new) store.old store.new (cause_in result) }
    ensures pairs { (p : Params) (commands : List Command) → S.view.holds p (M.disk machine.old) store.old commands →
        IfOk result (λ piece. walks.scan tree.now.lo tree.now.hi (state_of p commands) (record { from = key; to = piece.next }) ≡ Ok piece.pairs.items) }
    ensures rising { IfOk result (λ piece. walks.is_below key piece.next ≡ true) }
    ensures bad { (p : Params) (commands : List Command) → S.view.holds p (M.disk machine.old) store.old commands →
        IfErr result (λ e. ending_of (cause_of e) ≡ Done → told (get_on key (walks.walk tree.now.lo tree.now.hi (state_of p commands) key)) ≡ Err e) }
{
    store.nothing_is_made(machine);
    reads_go_on::<S, M>();
    let mut object = tree.root();
    let mut end: Option<Short> = None;
    for _step in 0..size(tree) {
        let node = node_of(tree, store, machine, object)?;
        match node {
            Node::Leaf(leaf) => {
                let pairs = asked_pairs(&leaf, key, &end);
                return Ok(Piece { pairs, next: end });
            }
            Node::Inner(first, branches) => {
                let others = branches.as_slice();
                end = end_for(key, end, others);
                object = child_for(key, first, others);
            }
        }
    }
    Err(CallErr::Refused(TreeRefusal::BadTree { object }))
}

/// The pairs from a key on, as far as they stand in one leaf, and the key at which the next piece begins: at most seven, and none
/// where their keys were deleted. No command is added. From the least key on, and then from each `next` on, come all pairs of the
/// tree, rising.
///
/// It fails as [`get`](crate::get) of the key does.
///
/// At most seven pairs, so it takes no memory and keeps no stack that a change of the tree would break.
pub fn piece_from<S: Store<AllOps>, M: Machine>(
    tree: &Tree,
    store: &mut S,
    machine: &mut M,
    from: &Short,
) -> Result<Piece, TreeErr>
    requires unbroken { S.view.unbroken store.old }
    ensures calls { Calls S.view (M.disk machine.old) (M.disk machine.new) store.old store.new (cause_in result) }
    ensures adds { (p : Params) (commands : List Command) → S.view.holds p (M.disk machine.old) store.old commands →
        S.view.adds p (M.disk machine.old) (M.disk machine.new) store.old store.new commands [] (ending_of (cause_in result)) }

    // They are all the pairs from the key on to where the next piece begins, as `range` gives them, or to the last.
    ensures pairs { (p : Params) (commands : List Command) → S.view.holds p (M.disk machine.old) store.old commands →
        IfOk result (λ piece. span_answer (bounds_of p) tree.now.lo tree.now.hi (state_of p commands) (record { from = from.now; to = piece.next }) ≡ Ok piece.pairs.items) }

    ensures rising { IfOk result (λ piece. walks.is_below from.now piece.next ≡ true) }
    ensures refused { (p : Params) (commands : List Command) → S.view.holds p (M.disk machine.old) store.old commands →
        IfErr result (λ e. ending_of (cause_of e) ≡ Done → told (get_answer (bounds_of p) tree.now.lo tree.now.hi (state_of p commands) from.now) ≡ Err e) }
{
    store.nothing_is_made(machine);
    if tree.last() >= store.params().objects {
        return Err(CallErr::Refused(TreeRefusal::NoObject));
    }
    let found = leaf_piece(tree, store, machine, *from)?;
    Ok(found)
}
