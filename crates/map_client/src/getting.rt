// The value of a key.
ghost use Rattle.std.specs.Prelude.{◌≡◌, ◌<◌, [], List, Ok, Err, IfErr, IfOk, option_map};
ghost use Rattle.formats.specs.Objects.{bounds_of};
ghost use Rattle.formats.specs.declared.params.Params.{Params};
ghost use Rattle.running_store.specs.Taking.Ending.{Done};
ghost use Rattle.store_engine.specs.Lists.{ending_of};
ghost use Rattle.page_map.specs.Walk as walks;
ghost use Rattle.store_calls.specs.Making.{Calls, Reads};
ghost use Rattle.range_calls.specs.Store.{Command, state_of};
ghost use Rattle.range_calls.specs.declared.call_err.CallErr.TheVariants.{Memory as OutOfMemory};
ghost use Rattle.map_client.specs.Answers.{cause_in, cause_of, get_told, told};
ghost use Rattle.map_client.specs.Reading as reading;

use crate::call_refusal::CallRefusal;
use crate::map_err::MapErr;
use crate::walking::walk;
use disk_model::Machine;
use op_codec::AllOps;
use page_map::{Map, MapRefusal, page_on, value_in};
use range_calls::{CallErr, reads_go_on, reads_run_short, see};
use std::alloc::Global;
use store_calls::Store;

/// What a leaf has at a key. None where a cell that is asked does not fit, or the bytes are no leaf.
fn found_on<'a>(bytes: &'a [u8], key: &[u8]) -> Option<Option<&'a [u8]>>
    ensures { option_map (option_map (λ value. value.now)) result ≡ reading.found_on bytes.now key.now }
{
    let page = page_on(0, bytes)?;
    value_in(&page, key)
}

/// A copy of a value, if there is one.
fn copied(alloc: Global, found: Option<&[u8]>) -> Result<Option<Vec<u8>>, MapErr>
    ensures value { IfOk result (λ copy. option_map (λ v. v.items) copy ≡ option_map (λ v. v.now) found.entry) }
    ensures memory { IfErr result (λ e. e ≡ OutOfMemory) }
{
    match found {
        Some(value) => Ok(Some(value.to_vec(alloc)?)),
        None => Ok(None),
    }
}

/// What the leaf of a key has at it.
fn value_at<S: Store<AllOps>, M: Machine>(
    alloc: Global,
    map: &Map,
    store: &mut S,
    machine: &mut M,
    leaf: u32,
    key: &[u8],
) -> Result<Option<Vec<u8>>, MapErr>
    requires unbroken { S.view.unbroken store.old }
    ensures reads { Reads S.view (M.disk machine.old) (M.disk machine.new) store.old store.new (cause_in result) }
    ensures found { (p : Params) (commands : List Command) → S.view.holds p (M.disk machine.old) store.old commands →
        IfOk result (λ found. walks.get_at map.now.lo (state_of p commands) key.now (walks.walk_from map.now.lo map.now.hi (state_of p commands) key.now 0 leaf) ≡ Ok (option_map (λ v. v.items) found)) }
    ensures bad { (p : Params) (commands : List Command) → S.view.holds p (M.disk machine.old) store.old commands → leaf < p.objects →
        IfErr result (λ e. ending_of (cause_of e) ≡ Done →
        told (walks.get_at map.now.lo (state_of p commands) key.now (walks.walk_from map.now.lo map.now.hi (state_of p commands) key.now 0 leaf)) ≡ Err e) }
{
    reads_run_short::<S, M>();
    let there = see(store, machine, leaf)?;
    if !there {
        return Err(CallErr::Refused(CallRefusal::NoObject));
    }
    match found_on(map.bytes(leaf, store.get(leaf)), key) {
        Some(found) => copied(alloc, found),
        None => Err(CallErr::Refused(CallRefusal::Map(MapRefusal::BadMap { object: leaf }))),
    }
}

/// The value of a key, if it is there. No command is added.
///
/// It answers `NoObject` exactly where the range ends past the last object, `BadMap` exactly where the way to the key meets a
/// bad object, the one met first, `Exec` with what the store answered to a fetch: `DiskFault`, `Damaged` or `Memory`, and
/// `Memory`, where the copy of the value can't be made.
pub fn get<S: Store<AllOps>, M: Machine>(
    alloc: Global,
    map: &Map,
    store: &mut S,
    machine: &mut M,
    key: &[u8],
) -> Result<Option<Vec<u8>>, MapErr>
    requires unbroken { S.view.unbroken store.old }
    ensures reads { Reads S.view (M.disk machine.old) (M.disk machine.new) store.old store.new (cause_in result) }
    ensures calls { Calls S.view (M.disk machine.old) (M.disk machine.new) store.old store.new (cause_in result) }
    ensures adds { (p : Params) (commands : List Command) → S.view.holds p (M.disk machine.old) store.old commands →
        S.view.adds p (M.disk machine.old) (M.disk machine.new) store.old store.new commands [] (ending_of (cause_in result)) }
    ensures found { (p : Params) (commands : List Command) → S.view.holds p (M.disk machine.old) store.old commands →
        IfOk result (λ found. get_told (bounds_of p) map.now.lo map.now.hi (state_of p commands) key.now ≡ Ok (option_map (λ v. v.items) found)) }
    ensures refused { (p : Params) (commands : List Command) → S.view.holds p (M.disk machine.old) store.old commands →
        IfErr result (λ e. ending_of (cause_of e) ≡ Done → get_told (bounds_of p) map.now.lo map.now.hi (state_of p commands) key.now ≡ Err e) }
{
    store.nothing_is_made(machine);
    reads_go_on::<S, M>();
    if map.last() >= store.params().objects {
        return Err(CallErr::Refused(CallRefusal::NoObject));
    }
    let leaf = walk(map, store, machine, key)?;
    value_at(alloc, map, store, machine, leaf, key)
}
