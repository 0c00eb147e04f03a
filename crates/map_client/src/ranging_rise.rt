// The pairs of a span of keys, by rising key.
ghost use Rattle.std.specs.Prelude.{◌≡◌, ◌<◌, ◌++◌, ◌∷◌, [], List, Ok, Err, IfErr, IfOk, OnOk, option_map};
ghost use Rattle.formats.specs.Objects.{bounds_of};
ghost use Rattle.formats.specs.declared.params.Params.{Params};
ghost use Rattle.page_map.specs.Ranges.{and_then, range_answer};
ghost use Rattle.running_store.specs.Taking.Ending.{Done};
ghost use Rattle.store_engine.specs.Lists.{ending_of};
ghost use Rattle.store_calls.specs.Making.{Calls, Reads};
ghost use Rattle.range_calls.specs.Store.{Command, state_of};
ghost use Rattle.range_calls.specs.declared.call_err.CallErr.TheVariants.{Memory as OutOfMemory};
ghost use Rattle.map_client.specs.Answers.{cause_in, cause_of, told};
ghost use Rattle.map_client.specs.Ranging.{next_told, range_told};
ghost use Rattle.map_client.specs.RangingWay.{RangeGoesOn, RangeIsBad};

use crate::call_refusal::CallRefusal;
use crate::gathered::Gathered;
use crate::map_err::MapErr;
use crate::order::Order;
use crate::ranging_leaf::leaf_under;
use crate::ranging_pairs::{gather_leaf, is_more};
use crate::stepping::end_bytes;
use disk_model::Machine;
use op_codec::AllOps;
use oper_core::ByteList;
use page_map::Map;
use range_calls::{CallErr, reads_go_on, reads_run_short};
use std::alloc::Global;
use store_calls::Store;

/// Gathers in the leaf of a key, from that key on, and answers where the next leaf begins, if there is one.
fn range_turn<S: Store<AllOps>, M: Machine>(
    map: &Map,
    store: &mut S,
    machine: &mut M,
    from: &[u8],
    to: Option<&[u8]>,
    gathered: &mut Gathered,
) -> Result<Option<Vec<u8>>, MapErr>
    requires unbroken { S.view.unbroken store.old }
    requires there { map.now.hi < (S.view.params store.old).objects }
    ensures reads { Reads S.view (M.disk machine.old) (M.disk machine.new) store.old store.new (cause_in result) }
    ensures found { (p : Params) (commands : List Command) → S.view.holds p (M.disk machine.old) store.old commands →
        IfOk result (λ next. RangeGoesOn map.now.lo map.now.hi (state_of p commands) (record { from = from.now; to = option_map (λ end. end.now) to.entry }) gathered.old.pairs.items gathered.old.left gathered.new.pairs.items gathered.new.left (option_map (λ v. v.items) next)) }
    ensures bad { (p : Params) (commands : List Command) → S.view.holds p (M.disk machine.old) store.old commands →
        IfErr result (λ e. ending_of (cause_of e) ≡ Done → RangeIsBad map.now.lo map.now.hi (state_of p commands) (record { from = from.now; to = option_map (λ end. end.now) to.entry }) gathered.old.left e) }
{
    store.nothing_is_made(machine);
    reads_go_on::<S, M>();
    if !is_more(gathered.left, from, to) {
        return Ok(None);
    }
    let leaf = leaf_under(gathered.alloc, map, store, machine, from)?;
    gather_leaf(
        map,
        store,
        machine,
        &leaf,
        from,
        to,
        Order::Rising,
        gathered,
    )?;
    Ok(leaf.to)
}

/// Gathers leaf by leaf. There are no more leaves than objects in the range.
fn range_leaves<S: Store<AllOps>, M: Machine>(
    map: &Map,
    store: &mut S,
    machine: &mut M,
    from: &[u8],
    to: Option<&[u8]>,
    gathered: &mut Gathered,
) -> Result<(), MapErr>
    requires unbroken { S.view.unbroken store.old }
    requires there { map.now.hi < (S.view.params store.old).objects }
    ensures reads { Reads S.view (M.disk machine.old) (M.disk machine.new) store.old store.new (cause_in result) }
    ensures found { (p : Params) (commands : List Command) → S.view.holds p (M.disk machine.old) store.old commands →
        OnOk result (and_then (Ok gathered.old.pairs.items) (range_answer map.now.lo map.now.hi (state_of p commands) (record { from = from.now; to = option_map (λ end. end.now) to.entry }) gathered.old.left) ≡ Ok gathered.new.pairs.items) }
    ensures bad { (p : Params) (commands : List Command) → S.view.holds p (M.disk machine.old) store.old commands →
        IfErr result (λ e. ending_of (cause_of e) ≡ Done → told (and_then (Ok gathered.old.pairs.items) (range_answer map.now.lo map.now.hi (state_of p commands) (record { from = from.now; to = option_map (λ end. end.now) to.entry }) gathered.old.left)) ≡ Err e) }
{
    reads_go_on::<S, M>();
    let last = map.last();
    let mut leaves = last - map.root();
    let mut next = range_turn(map, store, machine, from, to, gathered)?;
    while leaves > 0 {
        leaves -= 1;
        match end_bytes(&next) {
            Some(at) => {
                let further = range_turn(map, store, machine, at, to, gathered)?;
                next = further;
            }
            None => return Ok(()),
        }
    }
    Ok(())
}

/// The first pairs whose keys stand from `from` on and below `to`, at most so many, by rising key. No command is added.
///
/// It answers `NoObject` exactly where the range ends past the last object, `BadMap` exactly where it meets a bad object on the way
/// from leaf to leaf, the one met first, `Exec` with what the store answered to a fetch, and `Memory`, where the pairs or a key that
/// is carried along can't be copied.
pub fn range<S: Store<AllOps>, M: Machine>(
    alloc: Global,
    map: &Map,
    store: &mut S,
    machine: &mut M,
    from: &[u8],
    to: Option<&[u8]>,
    limit: u32,
) -> Result<Vec<(ByteList, ByteList)>, MapErr>
    requires unbroken { S.view.unbroken store.old }
    ensures calls { Calls S.view (M.disk machine.old) (M.disk machine.new) store.old store.new (cause_in result) }
    ensures adds { (p : Params) (commands : List Command) → S.view.holds p (M.disk machine.old) store.old commands →
        S.view.adds p (M.disk machine.old) (M.disk machine.new) store.old store.new commands [] (ending_of (cause_in result)) }
    ensures found { (p : Params) (commands : List Command) → S.view.holds p (M.disk machine.old) store.old commands →
        IfOk result (λ found. range_told (bounds_of p) map.now.lo map.now.hi (state_of p commands) (record { from = from.now; to = option_map (λ end. end.now) to.entry }) limit ≡ Ok found.items) }
    ensures refused { (p : Params) (commands : List Command) → S.view.holds p (M.disk machine.old) store.old commands →
        IfErr result (λ e. ending_of (cause_of e) ≡ Done → range_told (bounds_of p) map.now.lo map.now.hi (state_of p commands) (record { from = from.now; to = option_map (λ end. end.now) to.entry }) limit ≡ Err e) }
{
    store.nothing_is_made(machine);
    if map.last() >= store.params().objects {
        return Err(CallErr::Refused(CallRefusal::NoObject));
    }
    let pairs = Vec::new(alloc);
    let left = limit as usize;
    let mut gathered = Gathered { alloc, pairs, left };
    range_leaves(map, store, machine, from, to, &mut gathered)?;
    let Gathered {
        alloc: _alloc,
        pairs,
        left: _left,
    } = gathered;
    Ok(pairs)
}

/// The least key above a key.
fn key_above(alloc: Global, key: &[u8]) -> Result<Vec<u8>, MapErr>
    ensures key { IfOk result (λ above. above.items ≡ key.now ++ 0 ∷ []) }
    ensures memory { IfErr result (λ e. e ≡ OutOfMemory) }
{
    let mut above = key.to_vec(alloc)?;
    above.push(0)?;
    Ok(above)
}

/// The first pair above a key, if there is one: that of an empty key is the first pair of all, since no key that is set is empty. No
/// command is added.
///
/// It answers `NoObject`, `BadMap`, `Exec` and `Memory` where `range` does.
pub fn next<S: Store<AllOps>, M: Machine>(
    alloc: Global,
    map: &Map,
    store: &mut S,
    machine: &mut M,
    key: &[u8],
) -> Result<Vec<(ByteList, ByteList)>, MapErr>
    requires unbroken { S.view.unbroken store.old }
    ensures calls { Calls S.view (M.disk machine.old) (M.disk machine.new) store.old store.new (cause_in result) }
    ensures adds { (p : Params) (commands : List Command) → S.view.holds p (M.disk machine.old) store.old commands →
        S.view.adds p (M.disk machine.old) (M.disk machine.new) store.old store.new commands [] (ending_of (cause_in result)) }
    ensures found { (p : Params) (commands : List Command) → S.view.holds p (M.disk machine.old) store.old commands →
        IfOk result (λ found. next_told (bounds_of p) map.now.lo map.now.hi (state_of p commands) key.now ≡ Ok found.items) }
    ensures refused { (p : Params) (commands : List Command) → S.view.holds p (M.disk machine.old) store.old commands →
        IfErr result (λ e. ending_of (cause_of e) ≡ Done → next_told (bounds_of p) map.now.lo map.now.hi (state_of p commands) key.now ≡ Err e) }
{
    store.nothing_is_made(machine);
    reads_run_short::<S, M>();
    let from = key_above(alloc, key)?;
    range(alloc, map, store, machine, from.as_slice(), None, 1)
}
