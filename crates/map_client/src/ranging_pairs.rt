// The pairs of a leaf that stand in a span of keys.
ghost use Rattle.std.specs.Prelude.{◌≡◌, ◌<◌, ◌+◌, ◌^◌, ◌++◌, ◌∷◌, ◌&&◌, [], List, true, false, None, Some, IfErr, IfSome, OnOk, nat_lt, option_map, reverse};
ghost use Rattle.formats.specs.declared.params.Params.{Params};
ghost use Rattle.page_ops.specs.Reading.{beside_of, has_cell, key_of};
ghost use Rattle.page_map.specs.Map as maps;
ghost use Rattle.page_map.specs.Map.{bytes_at};
ghost use Rattle.page_map.specs.Steps.{cells_from};
ghost use Rattle.running_store.specs.Taking.Ending.{Done};
ghost use Rattle.store_engine.specs.Lists.{ending_of};
ghost use Rattle.store_calls.specs.Making.{Adds, Reads};
ghost use Rattle.range_calls.specs.Store.{Command, state_of};
ghost use Rattle.range_calls.specs.declared.call_err.CallErr.TheVariants.{Memory as OutOfMemory};
ghost use Rattle.map_client.specs.Answers.{bad_map, cause_in, cause_of};
ghost use Rattle.map_client.specs.Ranging as ranging;
ghost use Rattle.map_client.specs.Ranging.{Fails, behind, cells_behind, cells_by, pairs_on};

use crate::call_refusal::CallRefusal;
use crate::gathered::Gathered;
use crate::map_err::MapErr;
use crate::order::Order;
use crate::stepping::{end_bytes, is_below};
use crate::stop::Stop;
use disk_model::Machine;
use op_codec::AllOps;
use oper_core::ByteList;
use page_map::{Map, MapRefusal, Places, page_on, places_in};
use page_ops::Page;
use range_calls::{CallErr, reads_run_short, see};
use std::alloc::Global;
use store_calls::Store;

/// Adds a pair.
fn push_pair(
    alloc: Global,
    key: &[u8],
    value: &[u8],
    pairs: &mut Vec<(ByteList, ByteList)>,
) -> Result<(), MapErr>
    ensures pair { OnOk result (pairs.new.items ≡ pairs.old.items ++ (key.now, value.now) ∷ []) }
    ensures memory { IfErr result (λ e. e ≡ OutOfMemory) }
{
    let key = key.to_vec(alloc)?;
    let value = value.to_vec(alloc)?;
    pairs.push((ByteList::new(key), ByteList::new(value)))?;
    Ok(())
}

/// Adds a cell of a leaf, where it is there and its key fits; else the object is bad.
fn push_cell(
    alloc: Global,
    object: u32,
    leaf: &Page,
    i: usize,
    pairs: &mut Vec<(ByteList, ByteList)>,
) -> Result<(), MapErr>
    ensures there { OnOk result (has_cell leaf.now i ≡ true) }
    ensures pair { OnOk result (pairs.new.items ≡ pairs.old.items ++ (key_of leaf.now i, beside_of leaf.now i) ∷ []) }
    ensures fails { IfErr result (λ e. Fails object (has_cell leaf.now i ≡ false) e) }
{
    match leaf.cell(i) {
        Some((key, value)) => push_pair(alloc, key, value, pairs),
        None => Err(CallErr::Refused(CallRefusal::Map(MapRefusal::BadMap { object }))),
    }
}

/// Adds so many cells of a leaf, from one on.
fn push_rising(
    alloc: Global,
    object: u32,
    leaf: &Page,
    first: usize,
    count: usize,
    pairs: &mut Vec<(ByteList, ByteList)>,
) -> Result<(), MapErr>
    requires few { first + count < 2 ^ 17 }
    ensures cells { OnOk result (behind pairs.old.items (cells_from leaf.now first count) ≡ Some pairs.new.items) }
    ensures fails { IfErr result (λ e. Fails object (cells_from leaf.now first count ≡ None) e) }
{
    for i in 0..count {
        push_cell(alloc, object, leaf, first + i, pairs)?;
    }
    Ok(())
}

/// Adds so many cells of a leaf from one on, the last one first.
fn push_falling(
    alloc: Global,
    object: u32,
    leaf: &Page,
    first: usize,
    count: usize,
    pairs: &mut Vec<(ByteList, ByteList)>,
) -> Result<(), MapErr>
    requires few { first + count < 2 ^ 17 }
    ensures cells { OnOk result (behind pairs.old.items (option_map reverse (cells_from leaf.now first count)) ≡ Some pairs.new.items) }
    ensures fails { IfErr result (λ e. Fails object (option_map reverse (cells_from leaf.now first count) ≡ None) e) }
{
    let mut left = count;
    while left > 0 {
        left -= 1;
        push_cell(alloc, object, leaf, first + left, pairs)?;
    }
    Ok(())
}

/// Adds the cells of a leaf at these places, at most so many: the first ones rising, or the last ones falling.
fn push_cells(
    alloc: Global,
    object: u32,
    leaf: &Page,
    places: &Places,
    order: Order,
    most: usize,
    pairs: &mut Vec<(ByteList, ByteList)>,
) -> Result<(), MapErr>
    ensures cells { OnOk result (behind pairs.old.items (cells_by order leaf.now most places.now) ≡ Some pairs.new.items) }
    ensures fails { IfErr result (λ e. Fails object (cells_by order leaf.now most places.now ≡ None) e) }
{
    match order {
        Order::Rising => {
            let cells = places.from_front(most);
            push_rising(alloc, object, leaf, cells.first(), cells.count(), pairs)
        }
        Order::Falling => {
            let cells = places.from_back(most);
            push_falling(alloc, object, leaf, cells.first(), cells.count(), pairs)
        }
    }
}

/// The same with what was gathered before, and how many more may follow.
fn push_places(
    object: u32,
    leaf: &Page,
    places: &Places,
    order: Order,
    gathered: &mut Gathered,
) -> Result<(), MapErr>
    ensures pairs { OnOk result (cells_behind order leaf.now gathered.old.pairs.items gathered.old.left places.now ≡ Some (gathered.new.pairs.items, gathered.new.left)) }
    ensures fails { IfErr result (λ e. Fails object (cells_behind order leaf.now gathered.old.pairs.items gathered.old.left places.now ≡ None) e) }
{
    let most = gathered.left;
    push_cells(
        gathered.alloc,
        object,
        leaf,
        places,
        order,
        most,
        &mut gathered.pairs,
    )?;
    gathered.left = most.saturating_sub(places.count());
    Ok(())
}

/// A leaf, and where the pairs stand in it that have keys from `from` on and below `to`, and below the end of the leaf's own span.
/// None where a cell that is asked does not fit, or the bytes are no leaf.
fn places_on<'a>(
    bytes: &'a [u8],
    from: &[u8],
    to: Option<&[u8]>,
    end: Option<&[u8]>,
) -> Option<(Page<'a>, Places)>
    ensures places { option_map (λ found. found.1) result ≡ ranging.places_on bytes.now (record { from = from.now; to = option_map (λ end. end.now) to.entry }) (option_map (λ end. end.now) end.entry) }
    ensures leaf { IfSome result (λ found. found.0 ≡ bytes.now) }
{
    let leaf = page_on(0, bytes)?;
    let places = places_in(&leaf, from, to, end)?;
    Some((leaf, places))
}

/// Gathers the pairs of a leaf with these bytes that stand in a span.
fn gather(
    object: u32,
    bytes: &[u8],
    from: &[u8],
    to: Option<&[u8]>,
    end: Option<&[u8]>,
    order: Order,
    gathered: &mut Gathered,
) -> Result<(), MapErr>
    ensures pairs { OnOk result (pairs_on order bytes.now (record { from = from.now; to = option_map (λ end. end.now) to.entry }) (option_map (λ end. end.now) end.entry) gathered.old.pairs.items gathered.old.left ≡ Some (gathered.new.pairs.items, gathered.new.left)) }
    ensures fails { IfErr result (λ e. Fails object (pairs_on order bytes.now (record { from = from.now; to = option_map (λ end. end.now) to.entry }) (option_map (λ end. end.now) end.entry) gathered.old.pairs.items gathered.old.left ≡ None) e) }
{
    match places_on(bytes, from, to, end) {
        Some((leaf, places)) => push_places(object, &leaf, &places, order, gathered),
        None => Err(CallErr::Refused(CallRefusal::Map(MapRefusal::BadMap { object }))),
    }
}

/// Gathers the pairs of the leaf of an object.
pub(crate) fn gather_leaf<S: Store<AllOps>, M: Machine>(
    map: &Map,
    store: &mut S,
    machine: &mut M,
    leaf: &Stop,
    from: &[u8],
    to: Option<&[u8]>,
    order: Order,
    gathered: &mut Gathered,
) -> Result<(), MapErr>
    requires unbroken { S.view.unbroken store.old }
    ensures reads { Reads S.view (M.disk machine.old) (M.disk machine.new) store.old store.new (cause_in result) }
    ensures pairs { (p : Params) (commands : List Command) → S.view.holds p (M.disk machine.old) store.old commands →
        OnOk result (pairs_on order (bytes_at map.now.lo (state_of p commands) leaf.now.object) (record { from = from.now; to = option_map (λ end. end.now) to.entry }) (option_map (λ v. v.items) leaf.now.to) gathered.old.pairs.items gathered.old.left
        ≡ Some (gathered.new.pairs.items, gathered.new.left)) }
    ensures bad { (p : Params) (commands : List Command) → S.view.holds p (M.disk machine.old) store.old commands → leaf.now.object < p.objects →
        IfErr result (λ e. ending_of (cause_of e) ≡ Done →
        (pairs_on order (bytes_at map.now.lo (state_of p commands) leaf.now.object) (record { from = from.now; to = option_map (λ end. end.now) to.entry }) (option_map (λ v. v.items) leaf.now.to) gathered.old.pairs.items gathered.old.left ≡ None) × (e ≡ bad_map leaf.now.object)) }
{
    reads_run_short::<S, M>();
    let object = leaf.object;
    let there = see(store, machine, object)?;
    if !there {
        return Err(CallErr::Refused(CallRefusal::NoObject));
    }
    gather(
        object,
        map.bytes(object, store.get(object)),
        from,
        to,
        end_bytes(&leaf.to),
        order,
        gathered,
    )
}

/// Whether there is more to read: more pairs may follow, and keys can stand in the span.
pub(crate) fn is_more(left: usize, from: &[u8], to: Option<&[u8]>) -> bool
    ensures { result ≡ (nat_lt 0 left && maps.is_below from.now (option_map (λ end. end.now) to.entry)) }
{
    left > 0 && is_below(from, to)
}
