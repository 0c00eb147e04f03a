// The value of a name.
ghost use Rattle.std.specs.Prelude.{◌≡◌, List, Ok, Err, Some, IfErr, IfOk, option_map};
ghost use Rattle.formats.specs.Objects.{bounds_of};
ghost use Rattle.formats.specs.declared.params.Params.{Params};
ghost use Rattle.running_store.specs.Taking.Ending.{Done};
ghost use Rattle.store_engine.specs.Lists.{ending_of};
ghost use Rattle.store_calls.specs.Making.{Reads};
ghost use Rattle.range_calls.specs.Store.{Command, state_of};
ghost use Rattle.range_calls.specs.declared.call_err.CallErr.TheVariants.{Memory as OutOfMemory};
ghost use Rattle.map_client.specs.Answers.{cause_in, cause_of};
ghost use Rattle.named_objects.specs.Answers.{value_told, valued};

use crate::finding::find;
use disk_model::Machine;
use map_client::{CallRefusal, MapErr};
use op_codec::AllOps;
use page_map::{Map, MapRefusal};
use range_calls::{CallErr, reads_go_on, reads_run_short, see};
use std::alloc::Global;
use store_calls::Store;

/// A copy of a value.
fn copied(alloc: Global, value: &[u8]) -> Result<Option<Vec<u8>>, MapErr>
    ensures value { IfOk result (λ copy. option_map (λ v. v.items) copy ≡ Some value.now) }
    ensures memory { IfErr result (λ e. e ≡ OutOfMemory) }
{
    Ok(Some(value.to_vec(alloc)?))
}

/// What an object has, which is the value of a name.
fn value_of<S: Store<AllOps>, M: Machine>(
    alloc: Global,
    map: &Map,
    store: &mut S,
    machine: &mut M,
    object: u32,
) -> Result<Option<Vec<u8>>, MapErr>
    requires unbroken { S.view.unbroken store.old }
    ensures reads { Reads S.view (M.disk machine.old) (M.disk machine.new) store.old store.new (cause_in result) }
    ensures found { (p : Params) (commands : List Command) → S.view.holds p (M.disk machine.old) store.old commands →
        IfOk result (λ value. valued (bounds_of p) map.now.lo (state_of p commands) (Ok (Some object)) ≡ Ok (option_map (λ v. v.items) value)) }
    ensures refused { (p : Params) (commands : List Command) → S.view.holds p (M.disk machine.old) store.old commands →
        IfErr result (λ e. ending_of (cause_of e) ≡ Done → valued (bounds_of p) map.now.lo (state_of p commands) (Ok (Some object)) ≡ Err e) }
{
    reads_run_short::<S, M>();
    let there = see(store, machine, object)?;
    if !there {
        return Err(CallErr::Refused(CallRefusal::Map(MapRefusal::BadMap { object: map.root() })));
    }
    copied(alloc, store.get(object))
}

/// The value of a name, if the name is there. No command is added.
///
/// It answers what `find` answers, and `BadMap` with the root where the store has no such object.
pub fn value<S: Store<AllOps>, M: Machine>(
    alloc: Global,
    map: &Map,
    store: &mut S,
    machine: &mut M,
    name: &[u8],
) -> Result<Option<Vec<u8>>, MapErr>
    requires unbroken { S.view.unbroken store.old }
    ensures reads { Reads S.view (M.disk machine.old) (M.disk machine.new) store.old store.new (cause_in result) }
    ensures found { (p : Params) (commands : List Command) → S.view.holds p (M.disk machine.old) store.old commands →
        IfOk result (λ value. value_told (bounds_of p) map.now.lo map.now.hi (state_of p commands) name.now ≡ Ok (option_map (λ v. v.items) value)) }
    ensures refused { (p : Params) (commands : List Command) → S.view.holds p (M.disk machine.old) store.old commands →
        IfErr result (λ e. ending_of (cause_of e) ≡ Done → value_told (bounds_of p) map.now.lo map.now.hi (state_of p commands) name.now ≡ Err e) }
{
    reads_go_on::<S, M>();
    let object = find(alloc, map, store, machine, name)?;
    match object {
        Some(object) => value_of(alloc, map, store, machine, object),
        None => Ok(None),
    }
}
