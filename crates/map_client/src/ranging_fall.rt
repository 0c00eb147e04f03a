// The pairs of a span of keys, by falling key.
ghost use Rattle.std.specs.Prelude.{◌≡◌, ◌<◌, [], List, Ok, Err, IfErr, IfOk, OnOk, option_map};
ghost use Rattle.formats.specs.Objects.{bounds_of};
ghost use Rattle.formats.specs.declared.params.Params.{Params};
ghost use Rattle.page_map.specs.Ranges.{and_then, back_answer};
ghost use Rattle.running_store.specs.Taking.Ending.{Done};
ghost use Rattle.store_engine.specs.Lists.{ending_of};
ghost use Rattle.store_calls.specs.Making.{Calls, Reads};
ghost use Rattle.range_calls.specs.Store.{Command, state_of};
ghost use Rattle.map_client.specs.Answers.{cause_in, cause_of, told};
ghost use Rattle.map_client.specs.Ranging.{back_told, prev_told};
ghost use Rattle.map_client.specs.RangingWay.{BackGoesOn, BackIsBad};

use crate::call_refusal::CallRefusal;
use crate::gathered::Gathered;
use crate::map_err::MapErr;
use crate::order::Order;
use crate::ranging_leaf::leaf_below;
use crate::ranging_pairs::{gather_leaf, is_more};
use crate::stepping::end_bytes;
use disk_model::Machine;
use op_codec::AllOps;
use oper_core::ByteList;
use page_map::Map;
use range_calls::{CallErr, reads_go_on};
use std::alloc::Global;
use store_calls::Store;

/// Gathers in the leaf before an end, from that end back, and answers where the leaf begins, if there is more to read.
fn back_turn<S: Store<AllOps>, M: Machine>(
    map: &Map,
    store: &mut S,
    machine: &mut M,
    from: &[u8],
    to: Option<&[u8]>,
    gathered: &mut Gathered,
) -> Result<Option<Vec<u8>>, MapErr>
    requires unbroken { S.view.unbroken store.old }
    requires there { map.now.hi < (S.view.params store.old).objects }
    ensures reads { Reads S.view (M.disk machine.old) (M.disk machine.new) store.old store.new (cause_in result) }
    ensures found { (p : Params) (commands : List Command) → S.view.holds p (M.disk machine.old) store.old commands →
        IfOk result (λ begin. BackGoesOn map.now.lo map.now.hi (state_of p commands) (record { from = from.now; to = option_map (λ end. end.now) to.entry }) gathered.old.pairs.items gathered.old.left gathered.new.pairs.items gathered.new.left (option_map (λ v. v.items) begin)) }
    ensures bad { (p : Params) (commands : List Command) → S.view.holds p (M.disk machine.old) store.old commands →
        IfErr result (λ e. ending_of (cause_of e) ≡ Done → BackIsBad map.now.lo map.now.hi (state_of p commands) (record { from = from.now; to = option_map (λ end. end.now) to.entry }) gathered.old.left e) }
{
    store.nothing_is_made(machine);
    reads_go_on::<S, M>();
    if !is_more(gathered.left, from, to) {
        return Ok(None);
    }
    let leaf = leaf_below(gathered.alloc, map, store, machine, to)?;
    gather_leaf(
        map,
        store,
        machine,
        &leaf.stop,
        from,
        to,
        Order::Falling,
        gathered,
    )?;
    Ok(Some(leaf.from))
}

/// Gathers leaf by leaf, back. There are no more leaves than objects in the range.
fn back_leaves<S: Store<AllOps>, M: Machine>(
    map: &Map,
    store: &mut S,
    machine: &mut M,
    from: &[u8],
    to: Option<&[u8]>,
    gathered: &mut Gathered,
) -> Result<(), MapErr>
    requires unbroken { S.view.unbroken store.old }
    requires there { map.now.hi < (S.view.params store.old).objects }
    ensures reads { Reads S.view (M.disk machine.old) (M.disk machine.new) store.old store.new (cause_in result) }
    ensures found { (p : Params) (commands : List Command) → S.view.holds p (M.disk machine.old) store.old commands →
        OnOk result (and_then (Ok gathered.old.pairs.items) (back_answer map.now.lo map.now.hi (state_of p commands) (record { from = from.now; to = option_map (λ end. end.now) to.entry }) gathered.old.left) ≡ Ok gathered.new.pairs.items) }
    ensures bad { (p : Params) (commands : List Command) → S.view.holds p (M.disk machine.old) store.old commands →
        IfErr result (λ e. ending_of (cause_of e) ≡ Done → told (and_then (Ok gathered.old.pairs.items) (back_answer map.now.lo map.now.hi (state_of p commands) (record { from = from.now; to = option_map (λ end. end.now) to.entry }) gathered.old.left)) ≡ Err e) }
{
    reads_go_on::<S, M>();
    let last = map.last();
    let mut leaves = last - map.root();
    let mut begin = back_turn(map, store, machine, from, to, gathered)?;
    while leaves > 0 {
        leaves -= 1;
        match end_bytes(&begin) {
            Some(at) => {
                let earlier = back_turn(map, store, machine, from, Some(at), gathered)?;
                begin = earlier;
            }
            None => return Ok(()),
        }
    }
    Ok(())
}

/// The last pairs whose keys stand from `from` on and below `to`, at most so many, by falling key. No command is added.
///
/// It answers `NoObject` exactly where the range ends past the last object, `BadMap` exactly where it meets a bad object on the way
/// from leaf to leaf, the one met first, `Exec` with what the store answered to a fetch, and `Memory`, where the pairs or a key that
/// is carried along can't be copied.
pub fn back<S: Store<AllOps>, M: Machine>(
    alloc: Global,
    map: &Map,
    store: &mut S,
    machine: &mut M,
    from: &[u8],
    to: Option<&[u8]>,
    limit: u32,
) -> Result<Vec<(ByteList, ByteList)>, MapErr>
    requires unbroken { S.view.unbroken store.old }
    ensures calls { Calls S.view (M.disk machine.old) (M.disk machine.new) store.old store.new (cause_in result) }
    ensures adds { (p : Params) (commands : List Command) → S.view.holds p (M.disk machine.old) store.old commands →
        S.view.adds p (M.disk machine.old) (M.disk machine.new) store.old store.new commands [] (ending_of (cause_in result)) }
    ensures found { (p : Params) (commands : List Command) → S.view.holds p (M.disk machine.old) store.old commands →
        IfOk result (λ found. back_told (bounds_of p) map.now.lo map.now.hi (state_of p commands) (record { from = from.now; to = option_map (λ end. end.now) to.entry }) limit ≡ Ok found.items) }
    ensures refused { (p : Params) (commands : List Command) → S.view.holds p (M.disk machine.old) store.old commands →
        IfErr result (λ e. ending_of (cause_of e) ≡ Done → back_told (bounds_of p) map.now.lo map.now.hi (state_of p commands) (record { from = from.now; to = option_map (λ end. end.now) to.entry }) limit ≡ Err e) }
{
    store.nothing_is_made(machine);
    if map.last() >= store.params().objects {
        return Err(CallErr::Refused(CallRefusal::NoObject));
    }
    let pairs = Vec::new(alloc);
    let left = limit as usize;
    let mut gathered = Gathered { alloc, pairs, left };
    back_leaves(map, store, machine, from, to, &mut gathered)?;
    let Gathered {
        alloc: _alloc,
        pairs,
        left: _left,
    } = gathered;
    Ok(pairs)
}

/// The last pair below a key, or of all where no key is given, if there is one. No command is added.
///
/// It answers `NoObject`, `BadMap`, `Exec` and `Memory` where `back` does.
pub fn prev<S: Store<AllOps>, M: Machine>(
    alloc: Global,
    map: &Map,
    store: &mut S,
    machine: &mut M,
    key: Option<&[u8]>,
) -> Result<Vec<(ByteList, ByteList)>, MapErr>
    requires unbroken { S.view.unbroken store.old }
    ensures calls { Calls S.view (M.disk machine.old) (M.disk machine.new) store.old store.new (cause_in result) }
    ensures adds { (p : Params) (commands : List Command) → S.view.holds p (M.disk machine.old) store.old commands →
        S.view.adds p (M.disk machine.old) (M.disk machine.new) store.old store.new commands [] (ending_of (cause_in result)) }
    ensures found { (p : Params) (commands : List Command) → S.view.holds p (M.disk machine.old) store.old commands →
        IfOk result (λ found. prev_told (bounds_of p) map.now.lo map.now.hi (state_of p commands) (option_map (λ key. key.now) key.entry) ≡ Ok found.items) }
    ensures refused { (p : Params) (commands : List Command) → S.view.holds p (M.disk machine.old) store.old commands →
        IfErr result (λ e. ending_of (cause_of e) ≡ Done → prev_told (bounds_of p) map.now.lo map.now.hi (state_of p commands) (option_map (λ key. key.now) key.entry) ≡ Err e) }
{
    back(alloc, map, store, machine, &[], key, 1)
}
