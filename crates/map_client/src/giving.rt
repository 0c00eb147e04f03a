// A leaf that has become empty gives way, and a root with one child becomes it.
ghost use Rattle.std.specs.Prelude.{◌≡◌, ◌<◌, List, Ok, Some, None, true, option_map};
ghost use Rattle.formats.specs.declared.params.Params.{Params};
ghost use Rattle.page_map.specs.Deletes.{child_goes as goes_as, front_at, gives_way as way_given, root_goes as root_is, tidy_from};
ghost use Rattle.page_map.specs.Map.{bytes_at};
ghost use Rattle.page_map.specs.declared.beside.Beside.TheVariants.{Before};
ghost use Rattle.page_ops.specs.Reading.{opens};
ghost use Rattle.running_store.specs.Taking.Ending.{Done};
ghost use Rattle.store_engine.specs.Lists.{ending_of};
ghost use Rattle.store_calls.specs.Making.{Reads};
ghost use Rattle.range_calls.specs.Store.{Command, state_of};
ghost use Rattle.map_client.specs.Answers as answers;
ghost use Rattle.map_client.specs.Answers.{cause_in};
ghost use Rattle.map_client.specs.Tidying as tidying;
ghost use Rattle.map_client.specs.Tidying.{StandsIn, leaf_at, stored};

use crate::call_refusal::CallRefusal;
use crate::emptied::Emptied;
use crate::map_err::MapErr;
use crate::stepping::end_bytes;
use crate::stop::Stop;
use crate::tidying::{
    both_stored, front_on, leaf_under, only_child_of, page_above, taken_on, takes_on,
};
use crate::way::Way;
use disk_model::Machine;
use op_codec::AllOps;
use page_map::{Beside, MapRefusal, takes_both};
use range_calls::{CallErr, Few, reads_go_on, see};
use store_calls::Store;

/// How many cells of a leaf are within its span.
fn cells_within<S: Store<AllOps>, M: Machine>(
    way: &Way,
    store: &mut S,
    machine: &mut M,
    leaf: &Stop,
) -> Result<usize, MapErr>
    requires unbroken { S.view.unbroken store.old }
    ensures reads { Reads S.view (M.disk machine.old) (M.disk machine.new) store.old store.new (cause_in result) }
    ensures answer { (p : Params) (commands : List Command) → S.view.holds p (M.disk machine.old) store.old commands → leaf.now.object < p.objects → ending_of (cause_in result) ≡ Done →
        result ≡ answers.or_bad leaf.now.object (front_at way.now.map.now.lo way.now.map.now.hi (state_of p commands) (option_map (λ v. v.items) leaf.now.to) leaf.now.object) }
{
    let object = leaf.object;
    let there = see(store, machine, object)?;
    if !there {
        return Err(CallErr::Refused(CallRefusal::NoObject));
    }
    match front_on(
        way.map.bytes(object, store.get(object)),
        end_bytes(&leaf.to),
    ) {
        Some(count) => Ok(count),
        None => Err(CallErr::Refused(CallRefusal::Map(MapRefusal::BadMap { object }))),
    }
}

/// The commands by which the leaf before an empty one takes its place, too.
fn other_takes<S: Store<AllOps>, M: Machine>(
    way: &Way,
    store: &mut S,
    machine: &mut M,
    found: &Emptied,
    other: u32,
) -> Result<Few, MapErr>
    requires unbroken { S.view.unbroken store.old }
    ensures reads { Reads S.view (M.disk machine.old) (M.disk machine.new) store.old store.new (cause_in result) }
    ensures answer { (p : Params) (commands : List Command) → S.view.holds p (M.disk machine.old) store.old commands → other < p.objects → ending_of (cause_in result) ≡ Done →
        result ≡ stored (way_given way.now.map.now.lo way.now.map.now.hi (state_of p commands) found.now.above (leaf_at found.now.place found.now.leaf.object found.now.from.items) (Before other)) }
{
    let there = see(store, machine, other)?;
    if !there {
        return Err(CallErr::Refused(CallRefusal::NoObject));
    }
    let place = found.place.saturating_sub(1);
    let bytes = way.map.bytes(other, store.get(other));
    match takes_on(
        found.above,
        place,
        other,
        found.leaf.object,
        bytes,
        found.from.as_slice(),
    ) {
        Some(ops) => Ok(both_stored(ops)),
        None => Err(CallErr::Refused(CallRefusal::Map(MapRefusal::BadMap { object: other }))),
    }
}

/// The commands by which an empty leaf gives way to the one beside it.
fn gives_way<S: Store<AllOps>, M: Machine>(
    way: &Way,
    store: &mut S,
    machine: &mut M,
    found: &Emptied,
) -> Result<Few, MapErr>
    requires unbroken { S.view.unbroken store.old }
    ensures reads { Reads S.view (M.disk machine.old) (M.disk machine.new) store.old store.new (cause_in result) }
    ensures answer { (p : Params) (commands : List Command) → S.view.holds p (M.disk machine.old) store.old commands → way.now.map.now.hi < p.objects → StandsIn way.now.map.now.hi found.now.beside → ending_of (cause_in result) ≡ Done →
        result ≡ stored (way_given way.now.map.now.lo way.now.map.now.hi (state_of p commands) found.now.above (leaf_at found.now.place found.now.leaf.object found.now.from.items) found.now.beside) }
{
    store.nothing_is_made(machine);
    match found.beside {
        Beside::Only => Ok(Few::new(None, None, None)),
        Beside::Next { object } => Ok(both_stored(takes_both(
            found.above,
            found.place,
            object,
            found.leaf.object,
        ))),
        Beside::Before { object } => other_takes(way, store, machine, found, object),
    }
}

/// What is done to the leaf of the key, under a root of this level, which isn't a leaf.
pub(crate) fn leaf_goes<S: Store<AllOps>, M: Machine>(
    way: &Way,
    store: &mut S,
    machine: &mut M,
    levels: u8,
) -> Result<Few, MapErr>
    requires unbroken { S.view.unbroken store.old }
    requires inner { 0 < levels }
    ensures reads { Reads S.view (M.disk machine.old) (M.disk machine.new) store.old store.new (cause_in result) }
    ensures answer { (p : Params) (commands : List Command) → S.view.holds p (M.disk machine.old) store.old commands → way.now.map.now.hi < p.objects → ending_of (cause_in result) ≡ Done →
        result ≡ stored (tidy_from way.now.map.now.lo way.now.map.now.hi (state_of p commands) way.now.key.now levels way.now.map.now.lo None) }
{
    reads_go_on::<S, M>();
    let at = page_above(way, store, machine, levels)?;
    let found = leaf_under(way, store, machine, at)?;
    let count = cells_within(way, store, machine, &found.leaf)?;
    if count == 0 {
        return gives_way(way, store, machine, &found);
    }
    Ok(Few::new(None, None, None))
}

/// The one child of the root.
fn child_of_root<S: Store<AllOps>, M: Machine>(
    way: &Way,
    store: &mut S,
    machine: &mut M,
) -> Result<Option<u32>, MapErr>
    requires unbroken { S.view.unbroken store.old }
    ensures reads { Reads S.view (M.disk machine.old) (M.disk machine.new) store.old store.new (cause_in result) }
    ensures answer { (p : Params) (commands : List Command) → S.view.holds p (M.disk machine.old) store.old commands → way.now.map.now.lo < p.objects → ending_of (cause_in result) ≡ Done →
        result ≡ answers.or_bad way.now.map.now.lo (tidying.only_child_of way.now.map.now.lo way.now.map.now.hi (bytes_at way.now.map.now.lo (state_of p commands) way.now.map.now.lo)) }
{
    let object = way.map.root();
    let there = see(store, machine, object)?;
    if !there {
        return Err(CallErr::Refused(CallRefusal::NoObject));
    }
    match only_child_of(way.map, way.map.bytes(object, store.get(object))) {
        Some(child) => Ok(child),
        None => Err(CallErr::Refused(CallRefusal::Map(MapRefusal::BadMap { object }))),
    }
}

/// The commands by which a child of the root, on this level, goes.
fn child_goes<S: Store<AllOps>, M: Machine>(
    way: &Way,
    store: &mut S,
    machine: &mut M,
    level: u8,
    child: u32,
) -> Result<Few, MapErr>
    requires unbroken { S.view.unbroken store.old }
    ensures reads { Reads S.view (M.disk machine.old) (M.disk machine.new) store.old store.new (cause_in result) }
    ensures answer { (p : Params) (commands : List Command) → S.view.holds p (M.disk machine.old) store.old commands → child < p.objects → ending_of (cause_in result) ≡ Done →
        result ≡ stored (goes_as way.now.map.now.lo way.now.map.now.hi (state_of p commands) level (Some (Some child))) }
{
    let root = way.map.root();
    let there = see(store, machine, child)?;
    if !there {
        return Err(CallErr::Refused(CallRefusal::NoObject));
    }
    match taken_on(level, root, child, way.map.bytes(child, store.get(child))) {
        Some(ops) => Ok(both_stored(ops)),
        None => Err(CallErr::Refused(CallRefusal::Map(MapRefusal::BadMap { object: child }))),
    }
}

/// What is done to a root of this level, which isn't a leaf.
pub(crate) fn root_goes<S: Store<AllOps>, M: Machine>(
    way: &Way,
    store: &mut S,
    machine: &mut M,
    levels: u8,
) -> Result<Few, MapErr>
    requires unbroken { S.view.unbroken store.old }
    requires inner { 0 < levels }
    ensures reads { Reads S.view (M.disk machine.old) (M.disk machine.new) store.old store.new (cause_in result) }
    ensures answer { (p : Params) (commands : List Command) → S.view.holds p (M.disk machine.old) store.old commands → way.now.map.now.hi < p.objects →
        opens (bytes_at way.now.map.now.lo (state_of p commands) way.now.map.now.lo) ≡ true → ending_of (cause_in result) ≡ Done →
        result ≡ stored (root_is way.now.map.now.lo way.now.map.now.hi (state_of p commands) levels) }
{
    reads_go_on::<S, M>();
    let _last = way.map.last();
    let child = child_of_root(way, store, machine)?;
    match child {
        Some(child) => child_goes(way, store, machine, levels - 1, child),
        None => Ok(Few::new(None, None, None)),
    }
}
