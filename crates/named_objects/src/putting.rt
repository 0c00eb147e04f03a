// A name is given a value.
ghost use Rattle.std.specs.Prelude.{◌≡◌, IfErr, IfOk};
ghost use Rattle.range_calls.specs.Rounds.{Comes};
ghost use Rattle.range_calls.specs.declared.call_err.CallErr.TheVariants.{Memory as OutOfMemory};
ghost use Rattle.name_ranges.specs.Directory as directories;
ghost use Rattle.named_objects.specs.Answers.{as_key};
ghost use Rattle.named_objects.specs.Giving.{new_comes, put_comes};

use crate::finding::{key, object_at};
use crate::given::Given;
use disk_model::Machine;
use map_client::{CallRefusal, MapErr, set};
use name_ranges::number_bytes;
use op_codec::AllOps;
use page_map::{Map, MapRefusal};
use page_ops::Text;
use range_calls::{CallErr, reads_run_short, run};
use std::alloc::Global;
use store_calls::Store;

/// The number of an object as the value of a key.
fn number(alloc: Global, object: u32) -> Result<Text, MapErr>
    ensures value { IfOk result (λ number. number ≡ directories.number_bytes object) }
    ensures memory { IfErr result (λ e. e ≡ OutOfMemory) }
{
    match number_bytes(alloc, object) {
        Ok(bytes) => match Text::new(bytes) {
            Some(number) => Ok(number),
            None => Err(CallErr::Memory),
        },
        Err(_) => Err(CallErr::Memory),
    }
}

/// The key of a new name, which may be too long for a map.
fn new_key(key: Vec<u8>) -> Result<Text, MapErr>
    ensures { result ≡ as_key key.items }
{
    match Text::new(key) {
        Some(key) => Ok(key),
        None => Err(CallErr::Refused(CallRefusal::Map(MapRefusal::TooLong))),
    }
}

/// Writes a value to a spare object, and sets a key to its number.
fn put_new<S: Store<AllOps>, M: Machine>(
    alloc: Global,
    map: &Map,
    store: &mut S,
    machine: &mut M,
    key: Vec<u8>,
    given: Given,
    spare: u32,
) -> Result<(), MapErr>
    requires unbroken { S.view.unbroken store.old }
    ensures { Comes S.view (M.disk machine.old) (M.disk machine.new) store.old store.new (new_comes map.now.lo map.now.hi key.items given spare) result }
{
    store.nothing_is_made(machine);
    reads_run_short::<S, M>();
    S::calls_go_on::<M>();
    let number = number(alloc, spare)?;
    let text = new_key(key)?;
    run(store, machine, given.fresh(spare))?;
    set(alloc, map, store, machine, text, number)
}

/// Gives a name a value: in the object that it has, or where the name is new in a spare one, to whose number its key is set then.
///
/// The value is written first, so a name is never there without one. Where it is refused behind that, the spare object has other
/// bytes, and no name has changed. It answers what `find` and `map_client::set` answer, and `Exec` with what the store answered to
/// the operation that writes the value.
pub fn put<S: Store<AllOps>, M: Machine>(
    alloc: Global,
    map: &Map,
    store: &mut S,
    machine: &mut M,
    name: &[u8],
    given: Given,
    spare: u32,
) -> Result<(), MapErr>
    requires unbroken { S.view.unbroken store.old }
    ensures { Comes S.view (M.disk machine.old) (M.disk machine.new) store.old store.new (put_comes map.now.lo map.now.hi name.now given spare) result }
{
    store.nothing_is_made(machine);
    reads_run_short::<S, M>();
    S::calls_go_on::<M>();
    let key = key(alloc, name)?;
    let object = object_at(alloc, map, store, machine, key.as_slice())?;
    match object {
        Some(object) => run(store, machine, given.changed(object)),
        None => put_new(alloc, map, store, machine, key, given, spare),
    }
}
