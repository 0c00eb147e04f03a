// The object of a name.
ghost use Rattle.std.specs.Prelude.{◌≡◌, List, None, Ok, Err, IfErr, IfOk, option_map};
ghost use Rattle.formats.specs.Objects.{bounds_of};
ghost use Rattle.formats.specs.declared.params.Params.{Params};
ghost use Rattle.running_store.specs.Taking.Ending.{Done};
ghost use Rattle.store_engine.specs.Lists.{ending_of};
ghost use Rattle.store_calls.specs.Making.{Reads};
ghost use Rattle.range_calls.specs.Store.{Command, state_of};
ghost use Rattle.range_calls.specs.declared.call_err.CallErr.TheVariants.{Memory as OutOfMemory};
ghost use Rattle.map_client.specs.Answers.{cause_in};
ghost use Rattle.name_ranges.specs.Directory as directories;
ghost use Rattle.named_objects.specs.Answers.{find_told, numbered, object_told};

use disk_model::Machine;
use map_client::{CallRefusal, MapErr, get};
use name_ranges::{key_of, number_in};
use op_codec::AllOps;
use page_map::{Map, MapRefusal};
use range_calls::{CallErr, reads_run_short};
use std::alloc::Global;
use store_calls::Store;

/// The key of a name.
pub(crate) fn key(alloc: Global, name: &[u8]) -> Result<Vec<u8>, MapErr>
    ensures value { IfOk result (λ key. key.items ≡ directories.key_of name.now) }
    ensures memory { IfErr result (λ e. e ≡ OutOfMemory) }
{
    match key_of(alloc, name) {
        Ok(key) => Ok(key),
        Err(_) => Err(CallErr::Memory),
    }
}

/// The object whose number the value of a key is.
fn object_in(map: &Map, number: Option<Vec<u8>>) -> Result<Option<u32>, MapErr>
    ensures value { result ≡ numbered map.now.lo (Ok (option_map (λ v. v.items) number)) }
    ensures quiet { cause_in result ≡ None }
{
    let Some(number) = number else {
        return Ok(None);
    };
    match number_in(number.as_slice()) {
        Some(object) => Ok(Some(object)),
        None => Err(CallErr::Refused(CallRefusal::Map(MapRefusal::BadMap { object: map.root() }))),
    }
}

/// The object whose number a key has, if the key is there.
pub(crate) fn object_at<S: Store<AllOps>, M: Machine>(
    alloc: Global,
    map: &Map,
    store: &mut S,
    machine: &mut M,
    key: &[u8],
) -> Result<Option<u32>, MapErr>
    requires unbroken { S.view.unbroken store.old }
    ensures reads { Reads S.view (M.disk machine.old) (M.disk machine.new) store.old store.new (cause_in result) }
    ensures answer { (p : Params) (commands : List Command) → S.view.holds p (M.disk machine.old) store.old commands → ending_of (cause_in result) ≡ Done →
        result ≡ object_told (bounds_of p) map.now.lo map.now.hi (state_of p commands) key.now }
{
    let number = get(alloc, map, store, machine, key)?;
    object_in(map, number)
}

/// The object of a name, if the name is there. No command is added.
///
/// It answers what `map_client::get` answers of the key of the name, and `BadMap` with the root where the value of the key is no number
/// of an object.
pub fn find<S: Store<AllOps>, M: Machine>(
    alloc: Global,
    map: &Map,
    store: &mut S,
    machine: &mut M,
    name: &[u8],
) -> Result<Option<u32>, MapErr>
    requires unbroken { S.view.unbroken store.old }
    ensures reads { Reads S.view (M.disk machine.old) (M.disk machine.new) store.old store.new (cause_in result) }
    ensures answer { (p : Params) (commands : List Command) → S.view.holds p (M.disk machine.old) store.old commands → ending_of (cause_in result) ≡ Done →
        result ≡ find_told (bounds_of p) map.now.lo map.now.hi (state_of p commands) name.now }
{
    store.nothing_is_made(machine);
    reads_run_short::<S, M>();
    let key = key(alloc, name)?;
    object_at(alloc, map, store, machine, key.as_slice())
}
