// How many pairs stand in a span of keys.
ghost use Rattle.std.specs.Prelude.{◌≡◌, ◌<◌, ◌^◌, [], List, Ok, Err, IfErr, IfOk, IfSome, option_map};
ghost use Rattle.formats.specs.Objects.{bounds_of};
ghost use Rattle.formats.specs.declared.params.Params.{Params};
ghost use Rattle.page_map.specs.Map.{bytes_at};
ghost use Rattle.page_map.specs.Ranges.{count_answer};
ghost use Rattle.running_store.specs.Taking.Ending.{Done};
ghost use Rattle.store_engine.specs.Lists.{ending_of};
ghost use Rattle.store_calls.specs.Making.{Calls, Reads};
ghost use Rattle.range_calls.specs.Store.{Command, state_of};
ghost use Rattle.range_calls.specs.declared.call_err.CallErr.TheVariants.{Memory as OutOfMemory};
ghost use Rattle.map_client.specs.Answers.{cause_in, cause_of, or_bad, told};
ghost use Rattle.map_client.specs.Ranging as ranging;
ghost use Rattle.map_client.specs.Ranging.{count_told};
ghost use Rattle.map_client.specs.RangingWay.{CountGoesOn, CountIsBad};

use crate::call_refusal::CallRefusal;
use crate::map_err::MapErr;
use crate::ranging_leaf::leaf_under;
use crate::stepping::{end_bytes, is_below};
use disk_model::Machine;
use op_codec::AllOps;
use page_map::{Map, MapRefusal, page_on, places_in};
use range_calls::{CallErr, reads_go_on, reads_run_short, see};
use std::alloc::Global;
use store_calls::Store;

/// What one leaf adds to a count, and the key at which the next leaf begins, if there is one.
#[derive(Drop)]
struct Counted {
    count: usize,
    next: Option<Vec<u8>>,
}

/// How many pairs of a leaf have keys from `from` on and below `to`, and below the end of the leaf's own span. None where a cell
/// that is asked does not fit, or the bytes are no leaf.
fn count_on(bytes: &[u8], from: &[u8], to: Option<&[u8]>, end: Option<&[u8]>) -> Option<usize>
    ensures value { result ≡ ranging.count_on bytes.now (record { from = from.now; to = option_map (λ end. end.now) to.entry }) (option_map (λ end. end.now) end.entry) }
    ensures few { IfSome result (λ count. count < 2 ^ 17) }
{
    let page = page_on(0, bytes)?;
    let places = places_in(&page, from, to, end)?;
    let _first = places.first();
    Some(places.count())
}

/// How many they are in the leaf of an object.
pub(crate) fn count_leaf<S: Store<AllOps>, M: Machine>(
    map: &Map,
    store: &mut S,
    machine: &mut M,
    object: u32,
    from: &[u8],
    to: Option<&[u8]>,
    end: Option<&[u8]>,
) -> Result<usize, MapErr>
    requires unbroken { S.view.unbroken store.old }
    ensures reads { Reads S.view (M.disk machine.old) (M.disk machine.new) store.old store.new (cause_in result) }
    ensures few { IfOk result (λ count. count < 2 ^ 17) }
    ensures answer { (p : Params) (commands : List Command) → S.view.holds p (M.disk machine.old) store.old commands → object < p.objects →
        ending_of (cause_in result) ≡ Done →
        result ≡ or_bad object (ranging.count_on (bytes_at map.now.lo (state_of p commands) object) (record { from = from.now; to = option_map (λ end. end.now) to.entry }) (option_map (λ end. end.now) end.entry)) }
{
    let there = see(store, machine, object)?;
    if !there {
        return Err(CallErr::Refused(CallRefusal::NoObject));
    }
    match count_on(map.bytes(object, store.get(object)), from, to, end) {
        Some(count) => Ok(count),
        None => Err(CallErr::Refused(CallRefusal::Map(MapRefusal::BadMap { object }))),
    }
}

/// Counts in the leaf of a key, from that key on, and finds where the next leaf begins, if there is one.
fn count_turn<S: Store<AllOps>, M: Machine>(
    alloc: Global,
    map: &Map,
    store: &mut S,
    machine: &mut M,
    from: &[u8],
    to: Option<&[u8]>,
) -> Result<Counted, MapErr>
    requires unbroken { S.view.unbroken store.old }
    requires there { map.now.hi < (S.view.params store.old).objects }
    ensures reads { Reads S.view (M.disk machine.old) (M.disk machine.new) store.old store.new (cause_in result) }
    ensures few { IfOk result (λ turn. turn.count < 2 ^ 17) }
    ensures found { (p : Params) (commands : List Command) → S.view.holds p (M.disk machine.old) store.old commands →
        IfOk result (λ turn. CountGoesOn map.now.lo map.now.hi (state_of p commands) (record { from = from.now; to = option_map (λ end. end.now) to.entry }) turn.count (option_map (λ v. v.items) turn.next)) }
    ensures bad { (p : Params) (commands : List Command) → S.view.holds p (M.disk machine.old) store.old commands →
        IfErr result (λ e. ending_of (cause_of e) ≡ Done → CountIsBad map.now.lo map.now.hi (state_of p commands) (record { from = from.now; to = option_map (λ end. end.now) to.entry }) e) }
{
    store.nothing_is_made(machine);
    reads_go_on::<S, M>();
    if !is_below(from, to) {
        return Ok(Counted {
            count: 0,
            next: None,
        });
    }
    let leaf = leaf_under(alloc, map, store, machine, from)?;
    let count = count_leaf(
        map,
        store,
        machine,
        leaf.object,
        from,
        to,
        end_bytes(&leaf.to),
    )?;
    Ok(Counted {
        count,
        next: leaf.to,
    })
}

/// A copy of a key.
fn copy(alloc: Global, key: &[u8]) -> Result<Vec<u8>, MapErr>
    ensures key { IfOk result (λ copy. copy.items ≡ key.now) }
    ensures memory { IfErr result (λ e. e ≡ OutOfMemory) }
{
    Ok(key.to_vec(alloc)?)
}

/// Counts leaf by leaf. There are no more leaves than objects in the range.
fn count_leaves<S: Store<AllOps>, M: Machine>(
    alloc: Global,
    map: &Map,
    store: &mut S,
    machine: &mut M,
    from: &[u8],
    to: Option<&[u8]>,
) -> Result<u64, MapErr>
    requires unbroken { S.view.unbroken store.old }
    requires there { map.now.hi < (S.view.params store.old).objects }
    ensures reads { Reads S.view (M.disk machine.old) (M.disk machine.new) store.old store.new (cause_in result) }
    ensures found { (p : Params) (commands : List Command) → S.view.holds p (M.disk machine.old) store.old commands →
        IfOk result (λ count. count_answer map.now.lo map.now.hi (state_of p commands) (record { from = from.now; to = option_map (λ end. end.now) to.entry }) ≡ Ok count) }
    ensures bad { (p : Params) (commands : List Command) → S.view.holds p (M.disk machine.old) store.old commands →
        IfErr result (λ e. ending_of (cause_of e) ≡ Done → told (count_answer map.now.lo map.now.hi (state_of p commands) (record { from = from.now; to = option_map (λ end. end.now) to.entry })) ≡ Err e) }
{
    store.nothing_is_made(machine);
    reads_go_on::<S, M>();
    reads_run_short::<S, M>();
    let last = map.last();
    let mut left = (last - map.root()) as u64 + 1;
    let mut total = 0;
    let mut next = Some(copy(alloc, from)?);
    while left > 0 {
        left -= 1;
        match end_bytes(&next) {
            Some(at) => {
                let turn = count_turn(alloc, map, store, machine, at, to)?;
                total += turn.count as u64;
                next = turn.next;
            }
            None => return Ok(total),
        }
    }
    Ok(total)
}

/// How many pairs have keys from `from` on and below `to`. No command is added.
///
/// It answers `NoObject` exactly where the range ends past the last object, `BadMap` exactly where it meets a bad object on the way
/// from leaf to leaf, the one met first, `Exec` with what the store answered to a fetch, and `Memory`, where a key that is carried
/// along can't be copied.
pub fn count<S: Store<AllOps>, M: Machine>(
    alloc: Global,
    map: &Map,
    store: &mut S,
    machine: &mut M,
    from: &[u8],
    to: Option<&[u8]>,
) -> Result<u64, MapErr>
    requires unbroken { S.view.unbroken store.old }
    ensures calls { Calls S.view (M.disk machine.old) (M.disk machine.new) store.old store.new (cause_in result) }
    ensures adds { (p : Params) (commands : List Command) → S.view.holds p (M.disk machine.old) store.old commands →
        S.view.adds p (M.disk machine.old) (M.disk machine.new) store.old store.new commands [] (ending_of (cause_in result)) }
    ensures found { (p : Params) (commands : List Command) → S.view.holds p (M.disk machine.old) store.old commands →
        IfOk result (λ count. count_told (bounds_of p) map.now.lo map.now.hi (state_of p commands) (record { from = from.now; to = option_map (λ end. end.now) to.entry }) ≡ Ok count) }
    ensures refused { (p : Params) (commands : List Command) → S.view.holds p (M.disk machine.old) store.old commands →
        IfErr result (λ e. ending_of (cause_of e) ≡ Done → count_told (bounds_of p) map.now.lo map.now.hi (state_of p commands) (record { from = from.now; to = option_map (λ end. end.now) to.entry }) ≡ Err e) }
{
    store.nothing_is_made(machine);
    if map.last() >= store.params().objects {
        return Err(CallErr::Refused(CallRefusal::NoObject));
    }
    count_leaves(alloc, map, store, machine, from, to)
}
