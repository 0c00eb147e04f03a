// How many bytes of the log the changes of names take at most.
ghost use Rattle.std.specs.Prelude.{◌≡◌, ◌<◌, ◌^◌, List, IfOk};
ghost use Rattle.formats.specs.declared.params.Params.{Params};
ghost use Rattle.store_calls.specs.Making.{Reads};
ghost use Rattle.range_calls.specs.Store.{Command, state_of};
ghost use Rattle.map_client.specs.Answers.{cause_in};
ghost use Rattle.named_objects.specs.Records as records;

use crate::given::Given;
use disk_model::Machine;
use map_client::{MapErr, root_level};
use op_codec::AllOps;
use page_map::{Map, room_of};
use store_calls::Store;

/// How many levels the map of the range has above its leaves. No command is added.
pub fn levels<S: Store<AllOps>, M: Machine>(
    map: &Map,
    store: &mut S,
    machine: &mut M,
) -> Result<u8, MapErr>
    requires unbroken { S.view.unbroken store.old }
    ensures reads { Reads S.view (M.disk machine.old) (M.disk machine.new) store.old store.new (cause_in result) }
    ensures found { (p : Params) (commands : List Command) → S.view.holds p (M.disk machine.old) store.old commands → map.now.lo < p.objects →
        IfOk result (λ levels. levels ≡ records.levels_of map.now.lo (state_of p commands)) }
{
    root_level(map, store, machine)
}

/// The record of a command on pages has so many bytes at most.
fn page_most(cap: u32) -> u64
    ensures value { result ≡ records.page_most cap }
    ensures few { result < 2 ^ 17 }
{
    room_of(cap) as u64 + 26
}

/// So many bytes of the log a put takes at most, in a store whose values hold so many, where the map has so many levels.
pub fn put_most(cap: u32, levels: u8, given: &Given) -> u64
    ensures { result ≡ records.put_most cap levels given.now }
{
    given.record_length() + (6 * levels as u64 + 7) * page_most(cap)
}

/// And so many a take.
pub fn take_most(cap: u32, levels: u8) -> u64
    ensures { result ≡ records.take_most cap levels }
{
    (2 * levels as u64 + 5) * page_most(cap)
}
