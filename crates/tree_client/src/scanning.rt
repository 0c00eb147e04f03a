// The pairs of a range of keys.
ghost use Rattle.std.specs.Prelude.{◌≡◌, ◌<◌, ◌+◌, ◌^◌, ◌++◌, ◌∷◌, [], List, OnOk, IfErr};
ghost use Rattle.std.specs.List.{filter};
ghost use Rattle.formats.specs.declared.params.Params.{Params};
ghost use Rattle.running_store.specs.Taking.Ending.{Done};
ghost use Rattle.store_engine.specs.Lists.{ending_of};
ghost use Rattle.logical_btree.specs.Walk as walks;
ghost use Rattle.tree_client.specs.Answers.{cause_in, cause_of};
ghost use Rattle.store_calls.specs.Making.{Reads};
ghost use Rattle.range_calls.specs.declared.call_err.CallErr.TheVariants.{Memory as OutOfMemory};
ghost use Rattle.tree_client.specs.Scanning.{AreWithin, GoesOn, IsBad, child_scan, part_scan, span, weight, weight_of};
ghost use Rattle.range_calls.specs.Store.{Command, state_of};

use crate::nodes::node_of;
use crate::part::{Part, Scan, greater, is_below, lesser};
use crate::tree_err::TreeErr;
use btree_ops::Node;
use disk_model::Machine;
use key_entries::Short;
use logical_btree::{Tree, TreeRefusal};
use op_codec::AllOps;
use range_calls::{CallErr, reads_run_short};
use store_calls::Store;

/// Whether a key is not below one, and below another.
fn is_asked(key: Short, from: Short, to: Short) -> bool
    ensures { result ≡ walks.is_within key (span from to) }
{
    !(key < from) && key < to
}

/// Adds a pair, if its key is asked for.
fn push_asked(
    pair: (Short, Short),
    from: Short,
    to: Short,
    pairs: &mut Vec<(Short, Short)>,
) -> Result<(), TreeErr>
    ensures ok { OnOk result (pairs.new.items ≡ pairs.old.items ++ filter (λ e. walks.is_within e.0 (span from to)) (pair ∷ [])) }
    ensures memory { IfErr result (λ e. e ≡ OutOfMemory) }
{
    if !is_asked(pair.0, from, to) {
        return Ok(());
    }
    pairs.push(pair)?;
    Ok(())
}

/// Adds the pairs of a leaf whose keys are asked for.
fn push_pairs(
    leaf: &[(Short, Short)],
    from: Short,
    to: Short,
    pairs: &mut Vec<(Short, Short)>,
) -> Result<(), TreeErr>
    ensures ok { OnOk result (pairs.new.items ≡ pairs.old.items ++ filter (λ e. walks.is_within e.0 (span from to)) leaf.now) }
    ensures memory { IfErr result (λ e. e ≡ OutOfMemory) }
{
    for i in 0..leaf.len() {
        push_asked(leaf[i], from, to, pairs)?;
    }
    Ok(())
}

/// Puts a part on the others: it is met next.
fn push_part(part: Part, parts: &mut Vec<Part>) -> Result<(), TreeErr>
    ensures ok { OnOk result (parts.new.items ≡ parts.old.items ++ part ∷ []) }
    ensures memory { IfErr result (λ e. e ≡ OutOfMemory) }
{
    parts.push(part)?;
    Ok(())
}

/// Meets an object: the pairs of a leaf are added, and the children of an inner node are left to be met.
pub(crate) fn meet<S: Store<AllOps>, M: Machine>(
    tree: &Tree,
    store: &mut S,
    machine: &mut M,
    object: u32,
    depth: u64,
    from: Short,
    to: Short,
    scan: &mut Scan,
) -> Result<(), TreeErr>
    requires unbroken { S.view.unbroken store.old }
    ensures reads { Reads S.view (M.disk machine.old) (M.disk machine.new) store.old store.new (cause_in result) }
    ensures ok { (p : Params) (commands : List Command) → S.view.holds p (M.disk machine.old) store.old commands → object < p.objects → AreWithin tree.now.lo tree.now.hi scan.old.parts.items →
        OnOk result (GoesOn tree.now.lo tree.now.hi (state_of p commands) (walks.scan_from tree.now.lo tree.now.hi (state_of p commands) depth (span from to) object)
        scan.old.parts.items scan.old.pairs.items scan.new.parts.items scan.new.pairs.items) }
    ensures bad { (p : Params) (commands : List Command) → S.view.holds p (M.disk machine.old) store.old commands → object < p.objects →
        IfErr result (λ e. ending_of (cause_of e) ≡ Done → IsBad (walks.scan_from tree.now.lo tree.now.hi (state_of p commands) depth (span from to) object) e) }
    ensures lighter { OnOk result (weight scan.new.parts.items < weight scan.old.parts.items + 9 ^ depth) }
{
    store.nothing_is_made(machine);
    reads_run_short::<S, M>();
    if depth == 0 {
        return Err(CallErr::Refused(TreeRefusal::BadTree { object }));
    }
    match node_of(tree, store, machine, object)? {
        Node::Leaf(leaf) => push_pairs(leaf.as_slice(), from, to, &mut scan.pairs),
        Node::Inner(child, branches) => {
            let _few = branches.as_slice();
            let part = Part {
                child,
                branches,
                depth: depth - 1,
                from,
                to,
            };
            push_part(part, &mut scan.parts)
        }
    }
}

/// Meets a child, if its keys can be among those asked for.
fn meet_child<S: Store<AllOps>, M: Machine>(
    tree: &Tree,
    store: &mut S,
    machine: &mut M,
    child: u32,
    depth: u64,
    from: Short,
    to: Short,
    scan: &mut Scan,
) -> Result<(), TreeErr>
    requires unbroken { S.view.unbroken store.old }
    ensures reads { Reads S.view (M.disk machine.old) (M.disk machine.new) store.old store.new (cause_in result) }
    ensures ok { (p : Params) (commands : List Command) → S.view.holds p (M.disk machine.old) store.old commands → child < p.objects → AreWithin tree.now.lo tree.now.hi scan.old.parts.items →
        OnOk result (GoesOn tree.now.lo tree.now.hi (state_of p commands) (child_scan tree.now.lo tree.now.hi (state_of p commands) depth from to child)
        scan.old.parts.items scan.old.pairs.items scan.new.parts.items scan.new.pairs.items) }
    ensures bad { (p : Params) (commands : List Command) → S.view.holds p (M.disk machine.old) store.old commands → child < p.objects →
        IfErr result (λ e. ending_of (cause_of e) ≡ Done → IsBad (child_scan tree.now.lo tree.now.hi (state_of p commands) depth from to child) e) }
    ensures lighter { OnOk result (weight scan.new.parts.items < weight scan.old.parts.items + 9 ^ depth) }
{
    store.nothing_is_made(machine);
    if is_below(from, to) {
        return meet(tree, store, machine, child, depth, from, to, scan);
    }
    Ok(())
}

/// Meets the first child of a part, and leaves the others.
pub(crate) fn meet_part<S: Store<AllOps>, M: Machine>(
    tree: &Tree,
    store: &mut S,
    machine: &mut M,
    part: Part,
    scan: &mut Scan,
) -> Result<(), TreeErr>
    requires unbroken { S.view.unbroken store.old }
    requires there { tree.now.hi < (S.view.params store.old).objects }
    ensures reads { Reads S.view (M.disk machine.old) (M.disk machine.new) store.old store.new (cause_in result) }
    ensures ok { (p : Params) (commands : List Command) → S.view.holds p (M.disk machine.old) store.old commands → AreWithin tree.now.lo tree.now.hi (scan.old.parts.items ++ part ∷ []) →
        OnOk result (GoesOn tree.now.lo tree.now.hi (state_of p commands) (part_scan tree.now.lo tree.now.hi (state_of p commands) part)
        scan.old.parts.items scan.old.pairs.items scan.new.parts.items scan.new.pairs.items) }
    ensures bad { (p : Params) (commands : List Command) → S.view.holds p (M.disk machine.old) store.old commands → AreWithin tree.now.lo tree.now.hi (scan.old.parts.items ++ part ∷ []) →
        IfErr result (λ e. ending_of (cause_of e) ≡ Done → IsBad (part_scan tree.now.lo tree.now.hi (state_of p commands) part) e) }
    ensures lighter { OnOk result (weight scan.new.parts.items < weight scan.old.parts.items + weight_of part) }
{
    store.nothing_is_made(machine);
    reads_run_short::<S, M>();
    let Part {
        child,
        branches,
        depth,
        from,
        to,
    } = part;
    if branches.is_empty() {
        return meet_child(tree, store, machine, child, depth, from, to, scan);
    }
    let mut others = branches;
    let (key, next) = others.remove(0);
    let rest = Part {
        child: next,
        branches: others,
        depth,
        from: greater(from, key),
        to,
    };
    push_part(rest, &mut scan.parts)?;
    meet_child(
        tree,
        store,
        machine,
        child,
        depth,
        from,
        lesser(key, to),
        scan,
    )
}
