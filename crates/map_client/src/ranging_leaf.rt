// The leaf of a key, and the one before an end, with the span of its keys.
ghost use Rattle.std.specs.Prelude.{◌≡◌, ◌<◌, ℕ, List, Err, IfErr, IfOk, option_map};
ghost use Rattle.formats.specs.declared.params.Params.{Params};
ghost use Rattle.page_map.specs.Ranges.{stop as stop_at, under_key};
ghost use Rattle.page_map.specs.Steps.{last_below};
ghost use Rattle.running_store.specs.Taking.Ending.{Done};
ghost use Rattle.store_engine.specs.Lists.{ending_of};
ghost use Rattle.store_calls.specs.Making.{Reads};
ghost use Rattle.range_calls.specs.Store.{Command, state_of};
ghost use Rattle.map_client.specs.Answers.{cause_in, cause_of, told};
ghost use Rattle.map_client.specs.RangingWay.{IsOnWay};

use crate::map_err::MapErr;
use crate::spanned::Spanned;
use crate::stepping::{go_below, go_down};
use crate::stop::Stop;
use crate::walking::root_level;
use disk_model::Machine;
use op_codec::AllOps;
use page_map::Map;
use range_calls::reads_go_on;
use std::alloc::Global;
use store_calls::Store;

/// Goes from the root to level 0, to the object under which a key stands. Each page on the way is fetched once; that object is
/// not looked at.
pub(crate) fn leaf_under<S: Store<AllOps>, M: Machine>(
    alloc: Global,
    map: &Map,
    store: &mut S,
    machine: &mut M,
    key: &[u8],
) -> Result<Stop, MapErr>
    requires unbroken { S.view.unbroken store.old }
    requires there { map.now.hi < (S.view.params store.old).objects }
    ensures reads { Reads S.view (M.disk machine.old) (M.disk machine.new) store.old store.new (cause_in result) }
    ensures leaf { (p : Params) (commands : List Command) → S.view.holds p (M.disk machine.old) store.old commands →
        IfOk result (λ leaf. (from : List ℕ) × IsOnWay map.now.lo map.now.hi (state_of p commands) (under_key key.now) 0 leaf.object (record { from = from; to = option_map (λ v. v.items) leaf.to })) }
    ensures bad { (p : Params) (commands : List Command) → S.view.holds p (M.disk machine.old) store.old commands →
        IfErr result (λ e. ending_of (cause_of e) ≡ Done → told (stop_at map.now.lo map.now.hi (state_of p commands) (under_key key.now)) ≡ Err e) }
{
    store.nothing_is_made(machine);
    reads_go_on::<S, M>();
    let _last = map.last();
    let levels = root_level(map, store, machine)?;
    let mut at = Stop {
        object: map.root(),
        to: None,
    };
    for step in 0..levels {
        at = go_down(alloc, map, store, machine, at, levels - step, key)?;
    }
    Ok(at)
}

/// Goes in the same way to the last object on level 0 whose keys begin below an end.
pub(crate) fn leaf_below<S: Store<AllOps>, M: Machine>(
    alloc: Global,
    map: &Map,
    store: &mut S,
    machine: &mut M,
    end: Option<&[u8]>,
) -> Result<Spanned, MapErr>
    requires unbroken { S.view.unbroken store.old }
    requires there { map.now.hi < (S.view.params store.old).objects }
    ensures reads { Reads S.view (M.disk machine.old) (M.disk machine.new) store.old store.new (cause_in result) }
    ensures leaf { (p : Params) (commands : List Command) → S.view.holds p (M.disk machine.old) store.old commands →
        IfOk result (λ leaf. IsOnWay map.now.lo map.now.hi (state_of p commands) (last_below (option_map (λ end. end.now) end.entry)) 0 leaf.stop.object
        (record { from = leaf.from.items; to = option_map (λ v. v.items) leaf.stop.to })) }
    ensures bad { (p : Params) (commands : List Command) → S.view.holds p (M.disk machine.old) store.old commands →
        IfErr result (λ e. ending_of (cause_of e) ≡ Done → told (stop_at map.now.lo map.now.hi (state_of p commands) (last_below (option_map (λ end. end.now) end.entry))) ≡ Err e) }
{
    store.nothing_is_made(machine);
    reads_go_on::<S, M>();
    let _last = map.last();
    let levels = root_level(map, store, machine)?;
    let from = Vec::new(alloc);
    let stop = Stop {
        object: map.root(),
        to: None,
    };
    let mut at = Spanned { from, stop };
    for step in 0..levels {
        at = go_below(alloc, map, store, machine, at, levels - step, end)?;
    }
    Ok(at)
}
