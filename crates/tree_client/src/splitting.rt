// The splits that take free objects of a range.
ghost use Rattle.std.specs.Prelude.{◌≡◌, ◌<◌, ◌≤◌, ◌∷◌, List, None, IfSome, suc};
ghost use Rattle.formats.specs.declared.params.Params.{Params};
ghost use Rattle.logical_btree.specs.Plan as plans;
ghost use Rattle.range_calls.specs.Free.{IsLeastFree, free_between};
ghost use Rattle.range_calls.specs.Store.{Command, state_of};
ghost use Rattle.tree_client.specs.Answers.{cause_in};
ghost use Rattle.tree_client.specs.Finding.{split_answer};

use crate::full::Full;
use crate::tree_err::TreeErr;
use btree_ops::NodeOp;
use disk_model::Machine;
use logical_btree::{Tree, TreeRefusal};
use op_codec::AllOps;
use range_calls::{CallErr, least_free};
use store_calls::Store;

/// The least free object of the range.
fn first_free<S: Store<AllOps>, M: Machine>(tree: &Tree, store: &S, machine: &M) -> Option<u32>
    ensures within { IfSome result (λ x. x ≤ tree.now.hi) }
    ensures answer { (p : Params) (commands : List Command) → S.view.holds p (M.disk machine.now) store.now commands → tree.now.hi < p.objects →
        IsLeastFree (state_of p commands) tree.now.lo tree.now.hi result }
{
    least_free(store, machine, tree.root(), tree.last())
}

/// Splits the root with a free object and the least free one after it.
fn split_root_beside<S: Store<AllOps>, M: Machine>(
    store: &S,
    machine: &M,
    left: u32,
    last: u32,
    root: u32,
) -> Result<NodeOp, TreeErr>
    requires within { left ≤ last }
    requires there { last < (S.view.params store.now).objects }
    ensures found { cause_in result ≡ None }
    ensures answer { (p : Params) (commands : List Command) → S.view.holds p (M.disk machine.now) store.now commands → last < p.objects →
        result ≡ split_answer (plans.split_root_with root (left ∷ free_between (state_of p commands) (suc left) last)) }
{
    let _objects = store.params().objects;
    let next = left + 1;
    match least_free(store, machine, next, last) {
        Some(right) => Ok(NodeOp::SplitRoot { root, left, right }),
        None => Err(CallErr::Refused(TreeRefusal::TreeFull { need: 2, free: 1 })),
    }
}

/// Splits the root with the two least free objects.
fn split_root<S: Store<AllOps>, M: Machine>(
    tree: &Tree,
    store: &S,
    machine: &M,
    root: u32,
) -> Result<NodeOp, TreeErr>
    requires there { tree.now.hi < (S.view.params store.now).objects }
    ensures found { cause_in result ≡ None }
    ensures answer { (p : Params) (commands : List Command) → S.view.holds p (M.disk machine.now) store.now commands → tree.now.hi < p.objects →
        result ≡ split_answer (plans.split_root_with root (free_between (state_of p commands) tree.now.lo tree.now.hi)) }
{
    match first_free(tree, store, machine) {
        Some(left) => split_root_beside(store, machine, left, tree.last(), root),
        None => Err(CallErr::Refused(TreeRefusal::TreeFull { need: 2, free: 0 })),
    }
}

/// Splits a child with the least free object.
fn split_child<S: Store<AllOps>, M: Machine>(
    tree: &Tree,
    store: &S,
    machine: &M,
    parent: u32,
    child: u32,
) -> Result<NodeOp, TreeErr>
    ensures found { cause_in result ≡ None }
    ensures answer { (p : Params) (commands : List Command) → S.view.holds p (M.disk machine.now) store.now commands → tree.now.hi < p.objects →
        result ≡ split_answer (plans.split_child_with parent child (free_between (state_of p commands) tree.now.lo tree.now.hi)) }
{
    match first_free(tree, store, machine) {
        Some(new) => Ok(NodeOp::SplitChild { parent, child, new }),
        None => Err(CallErr::Refused(TreeRefusal::TreeFull { need: 1, free: 0 })),
    }
}

/// The split of a full node.
pub(crate) fn split<S: Store<AllOps>, M: Machine>(
    tree: &Tree,
    store: &S,
    machine: &M,
    full: Full,
) -> Result<NodeOp, TreeErr>
    requires there { tree.now.hi < (S.view.params store.now).objects }
    ensures found { cause_in result ≡ None }
    ensures answer { (p : Params) (commands : List Command) → S.view.holds p (M.disk machine.now) store.now commands → tree.now.hi < p.objects →
        result ≡ split_answer (plans.split_with (free_between (state_of p commands) tree.now.lo tree.now.hi) full.child full.parent) }
{
    match full.parent {
        None => split_root(tree, store, machine, full.child),
        Some(parent) => split_child(tree, store, machine, parent, full.child),
    }
}
