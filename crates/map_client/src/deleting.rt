// A key is deleted.
ghost use Rattle.std.specs.Prelude.{◌≡◌, ◌<◌, List, false};
ghost use Rattle.std.specs.Result.{result_err};
ghost use Rattle.formats.specs.declared.params.Params.{Params};
ghost use Rattle.running_store.specs.Taking.Ending.{Done};
ghost use Rattle.store_engine.specs.Lists.{ending_of};
ghost use Rattle.page_map.specs.Deletes.{tidy_turn};
ghost use Rattle.page_map.specs.Map.{bytes_at};
ghost use Rattle.page_map.specs.Plan.{delete_command};
ghost use Rattle.store_calls.specs.Making.{Calls, Makes, Reads};
ghost use Rattle.range_calls.specs.Rounds.{Comes};
ghost use Rattle.range_calls.specs.Store.{Command, state_of};
ghost use Rattle.map_client.specs.Answers.{cause_in};
ghost use Rattle.map_client.specs.Changing.{delete_comes, delete_made, delete_of, found, out_made, tidy_made};
ghost use Rattle.map_client.specs.Reading as reading;
ghost use Rattle.map_client.specs.Turning.{tidy_round};

use crate::call_refusal::CallRefusal;
use crate::giving::{leaf_goes, root_goes};
use crate::map_err::MapErr;
use crate::opening::require_open;
use crate::walking::{root_level, walk};
use crate::way::Way;
use disk_model::Machine;
use op_codec::{AllOps, page_op};
use page_map::{Map, MapRefusal, delete_in, page_on};
use page_ops::PageOp;
use range_calls::{CallErr, Few, Round, Rounds, reads_go_on, run, see, take_rounds};
use std::alloc::Global;
use store_calls::Store;

/// The command that deletes a key of a leaf, where it is there. It is the object that is answered where a cell that is asked does
/// not fit, or the bytes are no leaf.
fn delete_on(object: u32, bytes: &[u8], key: &[u8]) -> Result<Option<PageOp>, u32>
    ensures { result ≡ reading.delete_on object bytes.now key.now }
{
    match page_on(0, bytes) {
        Some(page) => delete_in(object, &page, key),
        None => Err(object),
    }
}

/// The command that deletes a key of the leaf at the end of its way.
fn deletion_in<S: Store<AllOps>, M: Machine>(
    map: &Map,
    store: &mut S,
    machine: &mut M,
    leaf: u32,
    key: &[u8],
) -> Result<AllOps, MapErr>
    requires unbroken { S.view.unbroken store.old }
    ensures reads { Reads S.view (M.disk machine.old) (M.disk machine.new) store.old store.new (cause_in result) }
    ensures answer { (p : Params) (commands : List Command) → S.view.holds p (M.disk machine.old) store.old commands → leaf < p.objects → ending_of (cause_in result) ≡ Done →
        result ≡ found (delete_of (reading.delete_on leaf (bytes_at map.now.lo (state_of p commands) leaf) key.now)) }
{
    let there = see(store, machine, leaf)?;
    if !there {
        return Err(CallErr::Refused(CallRefusal::NoObject));
    }
    match delete_on(leaf, map.bytes(leaf, store.get(leaf)), key) {
        Ok(Some(op)) => Ok(page_op(op)),
        Ok(None) => Err(CallErr::Refused(CallRefusal::Map(MapRefusal::NoKey))),
        Err(object) => Err(CallErr::Refused(CallRefusal::Map(MapRefusal::BadMap { object }))),
    }
}

/// The command that deletes a key.
fn deletion<S: Store<AllOps>, M: Machine>(
    map: &Map,
    store: &mut S,
    machine: &mut M,
    key: &[u8],
) -> Result<AllOps, MapErr>
    requires unbroken { S.view.unbroken store.old }
    requires there { map.now.hi < (S.view.params store.old).objects }
    ensures reads { Reads S.view (M.disk machine.old) (M.disk machine.new) store.old store.new (cause_in result) }
    ensures answer { (p : Params) (commands : List Command) → S.view.holds p (M.disk machine.old) store.old commands → ending_of (cause_in result) ≡ Done →
        result ≡ found (delete_of (delete_command map.now.lo map.now.hi (state_of p commands) key.now)) }
{
    reads_go_on::<S, M>();
    let leaf = walk(map, store, machine, key)?;
    deletion_in(map, store, machine, leaf, key)
}

impl<'a, S: Store<AllOps>> Rounds<S> for Way<'a> {
    type Refusal = CallRefusal;

    ghost next = { λ way b s. tidy_round (tidy_turn way.map.now.lo way.map.now.hi s way.key.now) };

    ghost is_there = { λ way p. way.map.now.hi < p.objects };

    /// Finds what is tidied next: a leaf without cells, or else a root with one child.
    fn next_round<M: Machine>(&self, store: &mut S, machine: &mut M) -> Result<Round, MapErr> {
        reads_go_on::<S, M>();
        let _last = self.map.last();
        let level = root_level(self.map, store, machine)?;
        if level == 0 {
            return Ok(Round {
                ops: Few::new(None, None, None),
                last: false,
            });
        }
        let leaf = leaf_goes(self, store, machine, level)?;
        if !leaf.is_empty() {
            return Ok(Round {
                ops: leaf,
                last: false,
            });
        }
        let root = root_goes(self, store, machine, level)?;
        Ok(Round {
            ops: root,
            last: false,
        })
    }
}

/// Tidies the way to a key.
pub(crate) fn tidy<S: Store<AllOps>, M: Machine>(
    way: &Way,
    store: &mut S,
    machine: &mut M,
) -> Result<(), MapErr>
    requires unbroken { S.view.unbroken store.old }
    requires there { way.now.map.now.hi < (S.view.params store.old).objects }
    ensures { Comes S.view (M.disk machine.old) (M.disk machine.new) store.old store.new (tidy_made way.now.map.now.lo way.now.map.now.hi way.now.key.now) result }
{
    S::calls_go_on::<M>();
    let _last = way.map.last();
    let level = root_level(way.map, store, machine)?;
    take_rounds(way, store, machine, level as u64 + 2)
}

/// Makes the command that deletes a key.
fn take_out<S: Store<AllOps>, M: Machine>(
    way: &Way,
    store: &mut S,
    machine: &mut M,
) -> Result<(), MapErr>
    requires unbroken { S.view.unbroken store.old }
    requires there { way.now.map.now.hi < (S.view.params store.old).objects }
    ensures { Comes S.view (M.disk machine.old) (M.disk machine.new) store.old store.new (out_made way.now.map.now.lo way.now.map.now.hi way.now.key.now) result }
{
    S::calls_go_on::<M>();
    let op = deletion(way.map, store, machine, way.key)?;
    run(store, machine, op)
}

/// Makes the commands of a delete.
fn delete_and_tidy<S: Store<AllOps>, M: Machine>(
    way: &Way,
    store: &mut S,
    machine: &mut M,
) -> Result<(), MapErr>
    requires unbroken { S.view.unbroken store.old }
    requires there { way.now.map.now.hi < (S.view.params store.old).objects }
    ensures { Comes S.view (M.disk machine.old) (M.disk machine.new) store.old store.new (delete_made way.now.map.now.lo way.now.map.now.hi way.now.key.now) result }
{
    S::calls_go_on::<M>();
    take_out(way, store, machine)?;
    tidy(way, store, machine)
}

/// Deletes a key and its value.
///
/// The first command takes the key out. Those behind it tidy the way to it: a leaf that has no cells left gives way to the one
/// beside it, and a root with one child becomes it, each by commands behind which the range holds the same. It answers `NoObject`
/// exactly where the range ends past the last object, else `NoPages` exactly where the store admits no changes of maps, else
/// `NoKey` exactly where the key is not there, `BadMap` with the first bad object that is met, also where the key has gone already,
/// and `Exec` with what the store answered to a fetch or to a command, of which on a map none is refused.
pub fn delete<S: Store<AllOps>, M: Machine>(
    alloc: Global,
    map: &Map,
    store: &mut S,
    machine: &mut M,
    key: &[u8],
) -> Result<(), MapErr>
    requires unbroken { S.view.unbroken store.old }
    ensures comes { Comes S.view (M.disk machine.old) (M.disk machine.new) store.old store.new (delete_comes map.now.lo map.now.hi key.now) result }
    ensures calls { Calls S.view (M.disk machine.old) (M.disk machine.new) store.old store.new (cause_in result) }
    ensures adds { (p : Params) (commands : List Command) → S.view.holds p (M.disk machine.old) store.old commands →
        S.view.adds p (M.disk machine.old) (M.disk machine.new) store.old store.new commands
        (delete_comes map.now.lo map.now.hi key.now p commands).commands (ending_of (cause_in result)) }
    ensures answer { (p : Params) (commands : List Command) → S.view.holds p (M.disk machine.old) store.old commands → ending_of (cause_in result) ≡ Done →
        result_err result ≡ (delete_comes map.now.lo map.now.hi key.now p commands).refusal }
{
    store.nothing_is_made(machine);
    require_open(map, store)?;
    let way = Way { alloc, map, key };
    delete_and_tidy(&way, store, machine)
}
