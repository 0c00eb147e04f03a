// A name is taken away.
ghost use Rattle.range_calls.specs.Rounds.{Comes};
ghost use Rattle.named_objects.specs.Giving.{take_comes};

use crate::finding::key;
use disk_model::Machine;
use map_client::{MapErr, delete};
use op_codec::AllOps;
use page_map::Map;
use range_calls::reads_run_short;
use std::alloc::Global;
use store_calls::Store;

/// Takes a name away, with its value. What was its object has the same bytes, and no name. It answers what `map_client::delete`
/// answers of the key of the name.
pub fn take<S: Store<AllOps>, M: Machine>(
    alloc: Global,
    map: &Map,
    store: &mut S,
    machine: &mut M,
    name: &[u8],
) -> Result<(), MapErr>
    requires unbroken { S.view.unbroken store.old }
    ensures { Comes S.view (M.disk machine.old) (M.disk machine.new) store.old store.new (take_comes map.now.lo map.now.hi name.now) result }
{
    store.nothing_is_made(machine);
    reads_run_short::<S, M>();
    let key = key(alloc, name)?;
    delete(alloc, map, store, machine, key.as_slice())
}
