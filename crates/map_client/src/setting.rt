// A key gets a value.
ghost use Rattle.std.specs.Prelude.{◌≡◌, List};
ghost use Rattle.std.specs.Result.{result_err};
ghost use Rattle.formats.specs.declared.params.Params.{Params};
ghost use Rattle.page_map.specs.Sets as sets;
ghost use Rattle.page_map.specs.Sets.{set_turn};
ghost use Rattle.running_store.specs.Taking.Ending.{Done};
ghost use Rattle.store_engine.specs.Lists.{ending_of};
ghost use Rattle.store_calls.specs.Making.{Calls, Makes};
ghost use Rattle.range_calls.specs.Rounds.{Comes};
ghost use Rattle.range_calls.specs.Store.{Command};
ghost use Rattle.map_client.specs.Answers.{cause_in};
ghost use Rattle.map_client.specs.Changing.{set_comes, set_made};
ghost use Rattle.map_client.specs.Turning.{IsReady, round_of};

use crate::call_refusal::CallRefusal;
use crate::cutting::cut;
use crate::map_err::MapErr;
use crate::opening::require_open;
use crate::pair::NewPair;
use crate::putting::put_in;
use crate::walking::{root_level, walk};
use disk_model::Machine;
use op_codec::{AllOps, page_op};
use page_map::{Map, MapRefusal, room_of};
use page_ops::Text;
use range_calls::{CallErr, Few, Round, Rounds, reads_go_on, take_rounds};
use std::alloc::Global;
use store_calls::Store;

/// A key has so many bytes at most.
const LONGEST_KEY: usize = 1_023;

/// Whether a map takes the pair, in a store whose pages have so much room.
fn is_pair(room: usize, key: &Text, value: &Text) -> bool
    ensures { result ≡ sets.is_pair room (key.now, value.now) }
{
    let length = key.as_slice().len();
    8 * (length + 8) <= room
        && 4 * value.as_slice().len() <= room
        && 0 < length
        && length <= LONGEST_KEY
}

impl<'a, S: Store<AllOps>> Rounds<S> for NewPair<'a> {
    type Refusal = CallRefusal;

    ghost next = { λ pair b s. round_of (set_turn b pair.map.now.lo pair.map.now.hi pair.key pair.value s) };

    ghost is_there = { λ pair p. IsReady pair.map.now.hi pair.room pair.key pair.value p };

    /// Finds the commands that come next: the one that puts the pair into its leaf, where it has room; else those that cut a page.
    fn next_round<M: Machine>(&self, store: &mut S, machine: &mut M) -> Result<Round, MapErr> {
        reads_go_on::<S, M>();
        let leaf = walk(self.map, store, machine, self.key.as_slice())?;
        let found = put_in(self, store, machine, leaf)?;
        match found {
            Some(op) => Ok(Round {
                ops: Few::new(Some(page_op(op)), None, None),
                last: true,
            }),
            None => cut(self, store, machine),
        }
    }
}

/// Makes the rounds of a set.
fn set_rounds<S: Store<AllOps>, M: Machine>(
    pair: &NewPair,
    store: &mut S,
    machine: &mut M,
) -> Result<(), MapErr>
    requires unbroken { S.view.unbroken store.old }
    requires ready { IsReady pair.now.map.now.hi pair.now.room pair.now.key pair.now.value (S.view.params store.old) }
    ensures { Comes S.view (M.disk machine.old) (M.disk machine.new) store.old store.new (set_made pair.now.map.now.lo pair.now.map.now.hi pair.now.key pair.now.value) result }
{
    S::calls_go_on::<M>();
    let _last = pair.map.last();
    let level = root_level(pair.map, store, machine)?;
    take_rounds(pair, store, machine, 2 * level as u64 + 3)
}

/// Gives a key a value.
///
/// Where the leaf of the key has no room for the pair, pages are cut in two, from the first one up whose page above has room for
/// one more name, or from the root on, each by commands behind which the range holds what it held; the last command puts the pair
/// in. It answers `NoObject` exactly where the range ends past the last object, else `NoPages` exactly where the store admits no
/// changes of maps, else `TooLong` exactly where the pair is too long for the store's pages or the key is empty, else `BadMap` with
/// the first bad object that is met, `MapFull` where a page has to be cut and too few objects of the range are empty, or the map has
/// all its levels, and `Exec` with what the store answered to a fetch or to a command, of which on a map none is refused.
pub fn set<S: Store<AllOps>, M: Machine>(
    alloc: Global,
    map: &Map,
    store: &mut S,
    machine: &mut M,
    key: Text,
    value: Text,
) -> Result<(), MapErr>
    requires unbroken { S.view.unbroken store.old }
    ensures comes { Comes S.view (M.disk machine.old) (M.disk machine.new) store.old store.new (set_comes map.now.lo map.now.hi key value) result }
    ensures calls { Calls S.view (M.disk machine.old) (M.disk machine.new) store.old store.new (cause_in result) }
    ensures adds { (p : Params) (commands : List Command) → S.view.holds p (M.disk machine.old) store.old commands →
        S.view.adds p (M.disk machine.old) (M.disk machine.new) store.old store.new commands
        (set_comes map.now.lo map.now.hi key value p commands).commands (ending_of (cause_in result)) }
    ensures answer { (p : Params) (commands : List Command) → S.view.holds p (M.disk machine.old) store.old commands → ending_of (cause_in result) ≡ Done →
        result_err result ≡ (set_comes map.now.lo map.now.hi key value p commands).refusal }
{
    store.nothing_is_made(machine);
    require_open(map, store)?;
    let room = room_of(store.params().cap);
    if !is_pair(room, &key, &value) {
        return Err(CallErr::Refused(CallRefusal::Map(MapRefusal::TooLong)));
    }
    let pair = NewPair {
        alloc,
        map,
        room,
        key,
        value,
    };
    set_rounds(&pair, store, machine)
}
