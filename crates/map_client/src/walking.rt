// The way from the root to a leaf.
ghost use Rattle.std.specs.Prelude.{◌≡◌, ◌<◌, ◌≤◌, List, Err, IfErr, IfOk, IfSome};
ghost use Rattle.formats.specs.declared.params.Params.{Params};
ghost use Rattle.running_store.specs.Taking.Ending.{Done};
ghost use Rattle.store_engine.specs.Lists.{ending_of};
ghost use Rattle.page_map.specs.Map.{bytes_at};
ghost use Rattle.page_map.specs.Walk as walks;
ghost use Rattle.store_calls.specs.Making.{Reads};
ghost use Rattle.range_calls.specs.Store.{Command, state_of};
ghost use Rattle.map_client.specs.Answers.{cause_in, cause_of, or_bad, told};
ghost use Rattle.map_client.specs.Reading as reading;

use crate::call_refusal::CallRefusal;
use crate::map_err::MapErr;
use disk_model::Machine;
use op_codec::AllOps;
use page_map::{Map, MapRefusal, page_on};
use page_ops::Page;
use range_calls::{CallErr, reads_go_on, see};
use store_calls::Store;

/// The level of a page.
fn level_of(bytes: &[u8]) -> Option<u8>
    ensures { result ≡ reading.level_of bytes.now }
{
    let page = Page::open(bytes)?;
    Some(page.level())
}

/// The child of a page of this level under which a key stands.
fn child_on(map: &Map, level: u8, bytes: &[u8], key: &[u8]) -> Option<u32>
    ensures value { result ≡ reading.child_on map.now.lo map.now.hi level bytes.now key.now }
    ensures within { IfSome result (λ child. child ≤ map.now.hi) }
{
    let page = page_on(level, bytes)?;
    map.child_for(&page, key)
}

/// The level of the root: how many levels stand above the leaves. No command is added.
pub fn root_level<S: Store<AllOps>, M: Machine>(
    map: &Map,
    store: &mut S,
    machine: &mut M,
) -> Result<u8, MapErr>
    requires unbroken { S.view.unbroken store.old }
    ensures reads { Reads S.view (M.disk machine.old) (M.disk machine.new) store.old store.new (cause_in result) }
    ensures answer { (p : Params) (commands : List Command) → S.view.holds p (M.disk machine.old) store.old commands → map.now.lo < p.objects →
        ending_of (cause_in result) ≡ Done → result ≡ or_bad map.now.lo (reading.level_of (bytes_at map.now.lo (state_of p commands) map.now.lo)) }
{
    let root = map.root();
    let there = see(store, machine, root)?;
    if !there {
        return Err(CallErr::Refused(CallRefusal::NoObject));
    }
    match level_of(map.bytes(root, store.get(root))) {
        Some(level) => Ok(level),
        None => Err(CallErr::Refused(CallRefusal::Map(MapRefusal::BadMap { object: root }))),
    }
}

/// The child of an inner page under which a key stands.
fn child_of<S: Store<AllOps>, M: Machine>(
    map: &Map,
    store: &mut S,
    machine: &mut M,
    object: u32,
    level: u8,
    key: &[u8],
) -> Result<u32, MapErr>
    requires unbroken { S.view.unbroken store.old }
    ensures reads { Reads S.view (M.disk machine.old) (M.disk machine.new) store.old store.new (cause_in result) }
    ensures within { IfOk result (λ child. child ≤ map.now.hi) }
    ensures answer { (p : Params) (commands : List Command) → S.view.holds p (M.disk machine.old) store.old commands → object < p.objects →
        ending_of (cause_in result) ≡ Done →
        result ≡ or_bad object (reading.child_on map.now.lo map.now.hi level (bytes_at map.now.lo (state_of p commands) object) key.now) }
{
    let there = see(store, machine, object)?;
    if !there {
        return Err(CallErr::Refused(CallRefusal::NoObject));
    }
    match child_on(map, level, map.bytes(object, store.get(object)), key) {
        Some(child) => Ok(child),
        None => Err(CallErr::Refused(CallRefusal::Map(MapRefusal::BadMap { object }))),
    }
}

/// Goes from the root to level 0, to the object under which a key stands. Each page on the way is fetched once; that object is
/// not looked at.
pub(crate) fn walk<S: Store<AllOps>, M: Machine>(
    map: &Map,
    store: &mut S,
    machine: &mut M,
    key: &[u8],
) -> Result<u32, MapErr>
    requires unbroken { S.view.unbroken store.old }
    requires there { map.now.hi < (S.view.params store.old).objects }
    ensures reads { Reads S.view (M.disk machine.old) (M.disk machine.new) store.old store.new (cause_in result) }
    ensures within { IfOk result (λ leaf. leaf ≤ map.now.hi) }
    ensures leaf { (p : Params) (commands : List Command) → S.view.holds p (M.disk machine.old) store.old commands →
        IfOk result (λ leaf. walks.walk map.now.lo map.now.hi (state_of p commands) key.now ≡ walks.walk_from map.now.lo map.now.hi (state_of p commands) key.now 0 leaf) }
    ensures bad { (p : Params) (commands : List Command) → S.view.holds p (M.disk machine.old) store.old commands →
        IfErr result (λ e. ending_of (cause_of e) ≡ Done → told (walks.walk map.now.lo map.now.hi (state_of p commands) key.now) ≡ Err e) }
{
    store.nothing_is_made(machine);
    reads_go_on::<S, M>();
    let _last = map.last();
    let mut object = map.root();
    let levels = root_level(map, store, machine)?;
    for step in 0..levels {
        object = child_of(map, store, machine, object, levels - step, key)?;
    }
    Ok(object)
}
