// What is read where the way to a key is tidied, page by page.
ghost use Rattle.std.specs.Prelude.{◌≡◌, ◌<◌, ◌≤◌, List, None, Err, IfErr, IfOk, map as map_list, option_map};
ghost use Rattle.formats.specs.declared.params.Params.{Params};
ghost use Rattle.op_codec.specs.AllOps.{page};
ghost use Rattle.page_map.specs.Deletes.{listed, tidy_from};
ghost use Rattle.page_map.specs.Steps.{ended, step_seen};
ghost use Rattle.running_store.specs.Taking.Ending.{Done};
ghost use Rattle.store_engine.specs.Lists.{ending_of};
ghost use Rattle.store_calls.specs.Making.{Reads};
ghost use Rattle.range_calls.specs.Store.{Command, state_of};
ghost use Rattle.range_calls.specs.declared.call_err.CallErr.TheVariants.{Memory as OutOfMemory};
ghost use Rattle.map_client.specs.Answers.{cause_in, cause_of, told};
ghost use Rattle.map_client.specs.Tidying as tidying;
ghost use Rattle.map_client.specs.Tidying.{StandsIn, both_seen, leaf_turn};

use crate::call_refusal::CallRefusal;
use crate::emptied::Emptied;
use crate::map_err::MapErr;
use crate::stepping::{end_bytes, further, go_down};
use crate::stop::Stop;
use crate::way::Way;
use disk_model::Machine;
use op_codec::{AllOps, page_op};
use page_map::{
    Beside, Map, MapRefusal, Step, before_takes, front_in, page_on, root_takes, takes_both,
};
use page_ops::{Page, PageOp};
use range_calls::{CallErr, Few, reads_go_on, reads_run_short, see};
use std::alloc::Global;
use store_calls::Store;

/// Two commands on pages, or one, as commands of the store.
pub(crate) fn both_stored(ops: (PageOp, Option<PageOp>)) -> Few
    ensures { result ≡ map_list page (listed ops) }
{
    let (first, second) = ops;
    match second {
        Some(second) => Few::new(Some(page_op(first)), Some(page_op(second)), None),
        None => Few::new(Some(page_op(first)), None, None),
    }
}

/// The step down from a page of level 1 to the leaf under which a key stands, and the child beside it.
fn both_on<'a>(
    map: &Map,
    bytes: &'a [u8],
    to: Option<&[u8]>,
    key: &[u8],
) -> Option<(Step<'a>, Beside)>
    ensures { option_map both_seen result ≡ tidying.both_on map.now.lo map.now.hi bytes.now (option_map (λ end. end.now) to.entry) key.now }
{
    let page = page_on(1, bytes)?;
    let step = map.step_under(&page, to, key)?;
    let beside = map.beside(&page, step.place, step.end.is_some())?;
    Some((step, beside))
}

/// How many cells of a leaf are within a span with this end.
pub(crate) fn front_on(bytes: &[u8], end: Option<&[u8]>) -> Option<usize>
    ensures { result ≡ tidying.front_on bytes.now (option_map (λ end. end.now) end.entry) }
{
    let page = page_on(0, bytes)?;
    front_in(&page, end)
}

/// The commands by which the leaf of these bytes takes the place of the next one, too, which begins at `end`.
pub(crate) fn takes_on(
    above: u32,
    place: u16,
    stays: u32,
    goes: u32,
    bytes: &[u8],
    end: &[u8],
) -> Option<(PageOp, Option<PageOp>)>
    ensures { option_map listed result ≡ tidying.takes_on above place stays goes bytes.now end.now }
{
    let page = page_on(0, bytes)?;
    before_takes(above, place, stays, goes, &page, end)
}

/// The one child of a root of these bytes.
pub(crate) fn only_child_of(map: &Map, bytes: &[u8]) -> Option<Option<u32>>
    ensures { result ≡ tidying.only_child_of map.now.lo map.now.hi bytes.now }
{
    let page = Page::open(bytes)?;
    map.only_child(&page)
}

/// The commands by which the one child of a root, of this level and these bytes, goes.
pub(crate) fn taken_on(
    level: u8,
    root: u32,
    child: u32,
    bytes: &[u8],
) -> Option<(PageOp, Option<PageOp>)>
    ensures { option_map listed result ≡ tidying.taken_on level root child bytes.now }
{
    let page = page_on(level, bytes)?;
    Some(root_takes(root, child, &page))
}

/// The leaf to which a step goes from the page above it.
fn leaf_of(alloc: Global, step: Step, beside: Beside, above: Stop) -> Result<Emptied, MapErr>
    ensures leaf { IfOk result (λ found. (found.above ≡ above.object) × (found.place ≡ (step_seen step.entry).place) × (found.from.items ≡ (step_seen step.entry).from) × (found.beside ≡ beside)
        × (found.leaf.object ≡ (step_seen step.entry).object) × (option_map (λ v. v.items) found.leaf.to ≡ ended (option_map (λ v. v.items) above.to) (step_seen step.entry).end)) }
    ensures memory { IfErr result (λ e. e ≡ OutOfMemory) }
{
    let object = above.object;
    let from = step.from.to_vec(alloc)?;
    let leaf = further(alloc, step, above.to)?;
    Ok(Emptied {
        above: object,
        place: step.place,
        from,
        beside,
        leaf,
    })
}

/// The page above the leaf of the key, from a root of this level, which isn't a leaf.
pub(crate) fn page_above<S: Store<AllOps>, M: Machine>(
    way: &Way,
    store: &mut S,
    machine: &mut M,
    levels: u8,
) -> Result<Stop, MapErr>
    requires unbroken { S.view.unbroken store.old }
    requires inner { 0 < levels }
    ensures reads { Reads S.view (M.disk machine.old) (M.disk machine.new) store.old store.new (cause_in result) }
    ensures found { (p : Params) (commands : List Command) → S.view.holds p (M.disk machine.old) store.old commands → way.now.map.now.hi < p.objects →
        IfOk result (λ at. (at.object ≤ way.now.map.now.hi) × (tidy_from way.now.map.now.lo way.now.map.now.hi (state_of p commands) way.now.key.now levels way.now.map.now.lo None
        ≡ tidy_from way.now.map.now.lo way.now.map.now.hi (state_of p commands) way.now.key.now 1 at.object (option_map (λ v. v.items) at.to))) }
    ensures bad { (p : Params) (commands : List Command) → S.view.holds p (M.disk machine.old) store.old commands → way.now.map.now.hi < p.objects →
        IfErr result (λ e. ending_of (cause_of e) ≡ Done → told (tidy_from way.now.map.now.lo way.now.map.now.hi (state_of p commands) way.now.key.now levels way.now.map.now.lo None) ≡ Err e) }
{
    store.nothing_is_made(machine);
    reads_go_on::<S, M>();
    let _last = way.map.last();
    let mut at = Stop {
        object: way.map.root(),
        to: None,
    };
    for step in 0..levels - 1 {
        at = go_down(
            way.alloc,
            way.map,
            store,
            machine,
            at,
            levels - step,
            way.key,
        )?;
    }
    Ok(at)
}

/// The leaf of the key under the page above it.
pub(crate) fn leaf_under<S: Store<AllOps>, M: Machine>(
    way: &Way,
    store: &mut S,
    machine: &mut M,
    at: Stop,
) -> Result<Emptied, MapErr>
    requires unbroken { S.view.unbroken store.old }
    ensures reads { Reads S.view (M.disk machine.old) (M.disk machine.new) store.old store.new (cause_in result) }
    ensures found { (p : Params) (commands : List Command) → S.view.holds p (M.disk machine.old) store.old commands →
        IfOk result (λ found. (found.leaf.object ≤ way.now.map.now.hi) × StandsIn way.now.map.now.hi found.beside × (tidy_from way.now.map.now.lo way.now.map.now.hi (state_of p commands) way.now.key.now 1 at.object (option_map (λ v. v.items) at.to)
        ≡ leaf_turn way.now.map.now.lo way.now.map.now.hi (state_of p commands) found.above found.place found.leaf.object found.from.items (option_map (λ v. v.items) found.leaf.to) found.beside)) }
    ensures bad { (p : Params) (commands : List Command) → S.view.holds p (M.disk machine.old) store.old commands → at.object < p.objects →
        IfErr result (λ e. ending_of (cause_of e) ≡ Done → told (tidy_from way.now.map.now.lo way.now.map.now.hi (state_of p commands) way.now.key.now 1 at.object (option_map (λ v. v.items) at.to)) ≡ Err e) }
{
    reads_run_short::<S, M>();
    let object = at.object;
    let there = see(store, machine, object)?;
    if !there {
        return Err(CallErr::Refused(CallRefusal::NoObject));
    }
    match both_on(
        way.map,
        way.map.bytes(object, store.get(object)),
        end_bytes(&at.to),
        way.key,
    ) {
        Some((step, beside)) => leaf_of(way.alloc, step, beside, at),
        None => Err(CallErr::Refused(CallRefusal::Map(MapRefusal::BadMap { object }))),
    }
}
