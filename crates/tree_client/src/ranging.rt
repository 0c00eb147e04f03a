// The pairs of a range of keys of a tree.
ghost use Rattle.std.specs.Prelude.{◌≡◌, [], List, Ok, Err, IfOk, IfErr};
ghost use Rattle.formats.specs.Objects.{bounds_of};
ghost use Rattle.formats.specs.declared.params.Params.{Params};
ghost use Rattle.running_store.specs.Taking.Ending.{Done};
ghost use Rattle.store_engine.specs.Lists.{ending_of};
ghost use Rattle.store_calls.specs.Making.{Calls};
ghost use Rattle.logical_btree.specs.Plan.{range_answer};
ghost use Rattle.tree_client.specs.Answers.{cause_in, cause_of, told};
ghost use Rattle.range_calls.specs.Store.{Command, state_of};

use crate::part::Scan;
use crate::scanning::{meet, meet_part};
use crate::tree_err::TreeErr;
use crate::walking::size;
use disk_model::Machine;
use key_entries::Short;
use logical_btree::{Tree, TreeRefusal};
use op_codec::AllOps;
use range_calls::{CallErr, reads_go_on};
use std::alloc::Global;
use store_calls::Store;

/// The pairs whose keys are not below `from` and are below `to`, rising. No command is added.
///
/// It answers `NoObject` exactly where the range ends past the last object, `BadTree` exactly where the scan meets a bad
/// object, the one met first, `Exec` with what the store answered to a fetch, and `Memory`.
pub fn range<S: Store<AllOps>, M: Machine>(
    alloc: Global,
    tree: &Tree,
    store: &mut S,
    machine: &mut M,
    from: &Short,
    to: &Short,
) -> Result<Vec<(Short, Short)>, TreeErr>
    requires unbroken { S.view.unbroken store.old }
    ensures calls { Calls S.view (M.disk machine.old) (M.disk machine.new) store.old store.new (cause_in result) }
    ensures adds { (p : Params) (commands : List Command) → S.view.holds p (M.disk machine.old) store.old commands →
        S.view.adds p (M.disk machine.old) (M.disk machine.new) store.old store.new commands [] (ending_of (cause_in result)) }
    ensures pairs { (p : Params) (commands : List Command) → S.view.holds p (M.disk machine.old) store.old commands →
        IfOk result (λ pairs. range_answer (bounds_of p) tree.now.lo tree.now.hi (state_of p commands) from.now to.now ≡ Ok pairs.items) }
    ensures refused { (p : Params) (commands : List Command) → S.view.holds p (M.disk machine.old) store.old commands →
        IfErr result (λ e. ending_of (cause_of e) ≡ Done → told (range_answer (bounds_of p) tree.now.lo tree.now.hi (state_of p commands) from.now to.now) ≡ Err e) }
{
    store.nothing_is_made(machine);
    reads_go_on::<S, M>();
    let last = tree.last();
    if last >= store.params().objects {
        return Err(CallErr::Refused(TreeRefusal::NoObject));
    }
    let parts = Vec::new(alloc);
    let pairs = Vec::new(alloc);
    let mut scan = Scan { parts, pairs };
    meet(
        tree,
        store,
        machine,
        tree.root(),
        size(tree),
        *from,
        *to,
        &mut scan,
    )?;
    while let Some(part) = scan.parts.pop() {
        meet_part(tree, store, machine, part, &mut scan)?;
    }
    let Scan {
        parts: _parts,
        pairs,
    } = scan;
    Ok(pairs)
}
