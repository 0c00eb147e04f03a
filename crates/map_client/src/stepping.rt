// The way to a leaf, with the end of the span of its keys.
ghost use Rattle.std.specs.Prelude.{◌≡◌, ◌<◌, List, false, Some, None, IfErr, IfOk, option_map};
ghost use Rattle.formats.specs.declared.params.Params.{Params};
ghost use Rattle.page_map.specs.Map as maps;
ghost use Rattle.page_map.specs.Map.{bytes_at};
ghost use Rattle.page_map.specs.Steps.{Step as StepDown, ended, step_seen};
ghost use Rattle.running_store.specs.Taking.Ending.{Done};
ghost use Rattle.store_engine.specs.Lists.{ending_of};
ghost use Rattle.store_calls.specs.Making.{Reads};
ghost use Rattle.range_calls.specs.Store.{Command, state_of};
ghost use Rattle.range_calls.specs.declared.call_err.CallErr.TheVariants.{Memory as OutOfMemory};
ghost use Rattle.map_client.specs.Answers.{bad_map, cause_in, cause_of};
ghost use Rattle.map_client.specs.Ranging as ranging;

use crate::call_refusal::CallRefusal;
use crate::map_err::MapErr;
use crate::spanned::Spanned;
use crate::stop::Stop;
use disk_model::Machine;
use op_codec::AllOps;
use page_map::{Map, MapRefusal, Step, page_on};
use range_calls::{CallErr, reads_run_short, see};
use std::alloc::Global;
use std::cmp::Ordering;
use store_calls::Store;

/// The bytes of an end, if there is one.
pub(crate) fn end_bytes(end: &Option<Vec<u8>>) -> Option<&[u8]>
    ensures { option_map (λ e. e.now) result ≡ option_map (λ e. e.items) end.now }
{
    match end {
        Some(key) => Some(key.as_slice()),
        None => None,
    }
}

/// Whether a key is below an end.
pub(crate) fn is_below(key: &[u8], end: Option<&[u8]>) -> bool
    ensures { result ≡ maps.is_below key.now (option_map (λ end. end.now) end.entry) }
{
    match end {
        None => true,
        Some(end) => match key.cmp(end) {
            Ordering::Less => true,
            Ordering::Equal | Ordering::Greater => false,
        },
    }
}

/// The step down from a page of this level to the child under which a key stands.
fn step_on<'a>(
    map: &Map,
    level: u8,
    bytes: &'a [u8],
    to: Option<&[u8]>,
    key: &[u8],
) -> Option<Step<'a>>
    ensures { option_map step_seen result ≡ ranging.step_on map.now.lo map.now.hi level bytes.now (option_map (λ end. end.now) to.entry) key.now }
{
    let page = page_on(level, bytes)?;
    map.step_under(&page, to, key)
}

/// The child of a step, and where its span ends.
pub(crate) fn further(alloc: Global, step: Step, to: Option<Vec<u8>>) -> Result<Stop, MapErr>
    ensures stop { IfOk result (λ stop. (stop.object ≡ (step_seen step.entry).object) × (option_map (λ v. v.items) stop.to ≡ ended (option_map (λ v. v.items) to) (step_seen step.entry).end)) }
    ensures memory { IfErr result (λ e. e ≡ OutOfMemory) }
{
    match step.end {
        Some(key) => {
            let copy = key.to_vec(alloc)?;
            Ok(Stop {
                object: step.object,
                to: Some(copy),
            })
        }
        None => Ok(Stop {
            object: step.object,
            to,
        }),
    }
}

/// Goes from an inner page to the child under which a key stands.
pub(crate) fn go_down<S: Store<AllOps>, M: Machine>(
    alloc: Global,
    map: &Map,
    store: &mut S,
    machine: &mut M,
    at: Stop,
    level: u8,
    key: &[u8],
) -> Result<Stop, MapErr>
    requires unbroken { S.view.unbroken store.old }
    ensures reads { Reads S.view (M.disk machine.old) (M.disk machine.new) store.old store.new (cause_in result) }
    ensures found { (p : Params) (commands : List Command) → S.view.holds p (M.disk machine.old) store.old commands →
        IfOk result (λ next. (step : StepDown)
        × (ranging.step_on map.now.lo map.now.hi level (bytes_at map.now.lo (state_of p commands) at.object) (option_map (λ v. v.items) at.to) key.now ≡ Some step)
        × (next.object ≡ step.object) × (option_map (λ v. v.items) next.to ≡ ended (option_map (λ v. v.items) at.to) step.end)) }
    ensures bad { (p : Params) (commands : List Command) → S.view.holds p (M.disk machine.old) store.old commands → at.object < p.objects →
        IfErr result (λ e. ending_of (cause_of e) ≡ Done →
        (ranging.step_on map.now.lo map.now.hi level (bytes_at map.now.lo (state_of p commands) at.object) (option_map (λ v. v.items) at.to) key.now ≡ None) × (e ≡ bad_map at.object)) }
{
    reads_run_short::<S, M>();
    let object = at.object;
    let there = see(store, machine, object)?;
    if !there {
        return Err(CallErr::Refused(CallRefusal::NoObject));
    }
    match step_on(
        map,
        level,
        map.bytes(object, store.get(object)),
        end_bytes(&at.to),
        key,
    ) {
        Some(step) => further(alloc, step, at.to),
        None => Err(CallErr::Refused(CallRefusal::Map(MapRefusal::BadMap { object }))),
    }
}

/// The step down from a page of this level to the last child that begins below an end.
fn below_on<'a>(
    map: &Map,
    level: u8,
    bytes: &'a [u8],
    to: Option<&[u8]>,
    end: Option<&[u8]>,
) -> Option<Step<'a>>
    ensures { option_map step_seen result ≡ ranging.below_on map.now.lo map.now.hi level bytes.now (option_map (λ end. end.now) to.entry) (option_map (λ end. end.now) end.entry) }
{
    let page = page_on(level, bytes)?;
    map.step_below(&page, to, end)
}

/// The child of a step, and the whole span of its keys.
fn spanned(alloc: Global, step: Step, to: Option<Vec<u8>>) -> Result<Spanned, MapErr>
    ensures span { IfOk result (λ at. (at.stop.object ≡ (step_seen step.entry).object) × (at.from.items ≡ (step_seen step.entry).from)
        × (option_map (λ v. v.items) at.stop.to ≡ ended (option_map (λ v. v.items) to) (step_seen step.entry).end)) }
    ensures memory { IfErr result (λ e. e ≡ OutOfMemory) }
{
    let from = step.from.to_vec(alloc)?;
    let stop = further(alloc, step, to)?;
    Ok(Spanned { from, stop })
}

/// Goes from an inner page to the last child that begins below an end.
pub(crate) fn go_below<S: Store<AllOps>, M: Machine>(
    alloc: Global,
    map: &Map,
    store: &mut S,
    machine: &mut M,
    at: Spanned,
    level: u8,
    end: Option<&[u8]>,
) -> Result<Spanned, MapErr>
    requires unbroken { S.view.unbroken store.old }
    ensures reads { Reads S.view (M.disk machine.old) (M.disk machine.new) store.old store.new (cause_in result) }
    ensures found { (p : Params) (commands : List Command) → S.view.holds p (M.disk machine.old) store.old commands →
        IfOk result (λ next. (step : StepDown)
        × (ranging.below_on map.now.lo map.now.hi level (bytes_at map.now.lo (state_of p commands) at.stop.object) (option_map (λ v. v.items) at.stop.to) (option_map (λ end. end.now) end.entry) ≡ Some step)
        × (next.stop.object ≡ step.object) × (next.from.items ≡ step.from) × (option_map (λ v. v.items) next.stop.to ≡ ended (option_map (λ v. v.items) at.stop.to) step.end)) }
    ensures bad { (p : Params) (commands : List Command) → S.view.holds p (M.disk machine.old) store.old commands → at.stop.object < p.objects →
        IfErr result (λ e. ending_of (cause_of e) ≡ Done →
        (ranging.below_on map.now.lo map.now.hi level (bytes_at map.now.lo (state_of p commands) at.stop.object) (option_map (λ v. v.items) at.stop.to) (option_map (λ end. end.now) end.entry) ≡ None)
        × (e ≡ bad_map at.stop.object)) }
{
    reads_run_short::<S, M>();
    let Spanned { from: _from, stop } = at;
    let object = stop.object;
    let there = see(store, machine, object)?;
    if !there {
        return Err(CallErr::Refused(CallRefusal::NoObject));
    }
    match below_on(
        map,
        level,
        map.bytes(object, store.get(object)),
        end_bytes(&stop.to),
        end,
    ) {
        Some(step) => spanned(alloc, step, stop.to),
        None => Err(CallErr::Refused(CallRefusal::Map(MapRefusal::BadMap { object }))),
    }
}
