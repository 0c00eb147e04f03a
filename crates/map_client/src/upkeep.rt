// What calls that were cut short have left in a range is taken away.
ghost use Rattle.std.specs.Prelude.{◌≡◌, ◌<◌, ◌++◌, ◌∷◌, [], List, None, Err, IfErr, IfOk, OnOk, if◌then◌else◌, map as map_list, not};
ghost use Rattle.std.specs.Result.{result_err};
ghost use Rattle.formats.specs.declared.params.Params.{Params};
ghost use Rattle.call_plans.specs.Free.{is_empty};
ghost use Rattle.op_codec.specs.AllOps.{page};
ghost use Rattle.page_map.specs.Sweeps as sweeps;
ghost use Rattle.page_map.specs.Checks as checks;
ghost use Rattle.page_ops.specs.declared.page_op.PageOp.TheVariants.{Free};
ghost use Rattle.running_store.specs.Taking.Ending.{Done};
ghost use Rattle.store_engine.specs.Lists.{ending_of};
ghost use Rattle.store_calls.specs.Making.{Calls, Reads};
ghost use Rattle.range_calls.specs.Rounds.{Comes, tried_all};
ghost use Rattle.range_calls.specs.Store.{Command, state_of};
ghost use Rattle.range_calls.specs.declared.call_err.CallErr.TheVariants.{Memory as OutOfMemory};
ghost use Rattle.map_client.specs.Answers.{cause_in, cause_of, told};
ghost use Rattle.map_client.specs.Changing.{sweep_comes, sweep_made, tidy_comes};

use crate::checking::checked_pages;
use crate::map_err::MapErr;
use crate::opening::require_open;
use crate::way::Way;
use disk_model::Machine;
use op_codec::{AllOps, page_op};
use page_map::{Check, Map};
use page_ops::PageOp;
use range_calls::{reads_go_on, reads_run_short, run};
use std::alloc::Global;
use store_calls::Store;

/// Tidies the way to a key, which may be there or not: a leaf that has no cells gives way to the one beside it, and a root with one
/// child becomes it, each by commands behind which the range holds the same. A delete does the same behind its first command: this
/// does what one that was cut short has left.
///
/// It answers `NoObject` exactly where the range ends past the last object, else `NoPages` exactly where the store admits no changes
/// of maps, else `BadMap` with the first bad object that is met, and `Exec` with what the store answered to a fetch or to a command,
/// of which on a map none is refused.
pub fn tidy<S: Store<AllOps>, M: Machine>(
    alloc: Global,
    map: &Map,
    store: &mut S,
    machine: &mut M,
    key: &[u8],
) -> Result<(), MapErr>
    requires unbroken { S.view.unbroken store.old }
    ensures calls { Calls S.view (M.disk machine.old) (M.disk machine.new) store.old store.new (cause_in result) }
    ensures adds { (p : Params) (commands : List Command) → S.view.holds p (M.disk machine.old) store.old commands →
        S.view.adds p (M.disk machine.old) (M.disk machine.new) store.old store.new commands
        (tidy_comes map.now.lo map.now.hi key.now p commands).commands (ending_of (cause_in result)) }
    ensures answer { (p : Params) (commands : List Command) → S.view.holds p (M.disk machine.old) store.old commands → ending_of (cause_in result) ≡ Done →
        result_err result ≡ (tidy_comes map.now.lo map.now.hi key.now p commands).refusal }
{
    store.nothing_is_made(machine);
    require_open(map, store)?;
    let way = Way { alloc, map, key };
    crate::deleting::tidy(&way, store, machine)
}

/// Whether an object's value has some byte. No device call is made.
fn holds_bytes<S: Store<AllOps>, M: Machine>(store: &S, machine: &M, object: u32) -> bool
    ensures { (p : Params) (commands : List Command) → S.view.holds p (M.disk machine.now) store.now commands → object < p.objects →
        result ≡ not (is_empty (state_of p commands object)) }
{
    match store.next_empty(machine, object) {
        Some(empty) => empty > object,
        None => true,
    }
}

/// Whether an object holds something and was not met by a check.
fn is_left<S: Store<AllOps>, M: Machine>(check: &Check, store: &S, machine: &M, object: u32) -> bool
    ensures { (p : Params) (commands : List Command) → S.view.holds p (M.disk machine.now) store.now commands → object < p.objects →
        result ≡ sweeps.is_left check.now.range check.now.met.objects object (state_of p commands object) }
{
    check.is_new(object) && holds_bytes(store, machine, object)
}

/// Adds an object to those that are left over, where it is one.
fn add_left<S: Store<AllOps>, M: Machine>(
    left: &mut Vec<u32>,
    check: &Check,
    store: &S,
    machine: &M,
    object: u32,
) -> Result<(), MapErr>
    ensures added { (p : Params) (commands : List Command) → S.view.holds p (M.disk machine.now) store.now commands → object < p.objects →
        OnOk result (left.new.items ≡ (if sweeps.is_left check.now.range check.now.met.objects object (state_of p commands object) then left.old.items ++ object ∷ [] else left.old.items)) }
    ensures memory { IfErr result (λ e. e ≡ OutOfMemory) }
{
    if !is_left(check, store, machine, object) {
        return Ok(());
    }
    left.push(object)?;
    Ok(())
}

/// The objects behind the root that hold something and were not met by a check.
fn left_over<S: Store<AllOps>, M: Machine>(
    alloc: Global,
    map: &Map,
    check: &Check,
    store: &S,
    machine: &M,
) -> Result<Vec<u32>, MapErr>
    requires there { map.now.hi < (S.view.params store.now).objects }
    requires range { check.now.range ≡ map.now }
    ensures left { (p : Params) (commands : List Command) → S.view.holds p (M.disk machine.now) store.now commands →
        IfOk result (λ left. left.items ≡ sweeps.left_over map.now check.now.met.objects (state_of p commands)) }
    ensures memory { IfErr result (λ e. e ≡ OutOfMemory) }
{
    let mut left = Vec::new(alloc);
    for above in map.root()..map.last() {
        let object = above + 1;
        add_left(&mut left, check, store, machine, object)?;
    }
    Ok(left)
}

/// The objects that a sweep empties.
fn swept<S: Store<AllOps>, M: Machine>(
    alloc: Global,
    map: &Map,
    store: &mut S,
    machine: &mut M,
) -> Result<Vec<u32>, MapErr>
    requires unbroken { S.view.unbroken store.old }
    requires there { map.now.hi < (S.view.params store.old).objects }
    ensures reads { Reads S.view (M.disk machine.old) (M.disk machine.new) store.old store.new (cause_in result) }
    ensures found { (p : Params) (commands : List Command) → S.view.holds p (M.disk machine.old) store.old commands →
        IfOk result (λ left. sweeps.sweep_plan map.now (state_of p commands) ≡ record { commands = map_list (λ x. Free x) left.items; refusal = None }) }
    ensures bad { (p : Params) (commands : List Command) → S.view.holds p (M.disk machine.old) store.old commands →
        IfErr result (λ e. ending_of (cause_of e) ≡ Done → told (checks.check map.now (state_of p commands)) ≡ Err e) }
{
    reads_go_on::<S, M>();
    reads_run_short::<S, M>();
    let check = checked_pages(alloc, map, store, machine)?;
    left_over(alloc, map, &check, store, machine)
}

/// Empties objects, one after the other, as far as each command is accepted.
fn free_all<S: Store<AllOps>, M: Machine>(
    store: &mut S,
    machine: &mut M,
    objects: &[u32],
) -> Result<(), MapErr>
    requires unbroken { S.view.unbroken store.old }
    ensures { Comes S.view (M.disk machine.old) (M.disk machine.new) store.old store.new (λ p commands. tried_all p (state_of p commands) (map_list (λ x. page (Free x)) objects.now) None) result }
{
    store.nothing_is_made(machine);
    S::calls_go_on::<M>();
    for object in objects {
        run(store, machine, page_op(PageOp::Free { page: *object }))?;
    }
    store.nothing_is_made(machine);
    Ok(())
}

/// Makes the commands of a sweep.
fn sweep_objects<S: Store<AllOps>, M: Machine>(
    alloc: Global,
    map: &Map,
    store: &mut S,
    machine: &mut M,
) -> Result<(), MapErr>
    requires unbroken { S.view.unbroken store.old }
    requires there { map.now.hi < (S.view.params store.old).objects }
    ensures { Comes S.view (M.disk machine.old) (M.disk machine.new) store.old store.new (sweep_made map.now.lo map.now.hi) result }
{
    S::calls_go_on::<M>();
    let left = swept(alloc, map, store, machine)?;
    free_all(store, machine, left.as_slice())
}

/// Empties the objects of the range that hold something and are no page of the map: calls that were cut short have left them. First
/// all pages are read, as by `check`; what the map holds stays.
///
/// It answers `NoObject` exactly where the range ends past the last object, else `NoPages` exactly where the store admits no changes
/// of maps, else `BadMap` exactly where the range is no map, with the first bad object that `check` meets, `Exec` with what the store
/// answered to a fetch or to a command, of which on a map none is refused, and `Memory`.
pub fn sweep<S: Store<AllOps>, M: Machine>(
    alloc: Global,
    map: &Map,
    store: &mut S,
    machine: &mut M,
) -> Result<(), MapErr>
    requires unbroken { S.view.unbroken store.old }
    ensures calls { Calls S.view (M.disk machine.old) (M.disk machine.new) store.old store.new (cause_in result) }
    ensures adds { (p : Params) (commands : List Command) → S.view.holds p (M.disk machine.old) store.old commands →
        S.view.adds p (M.disk machine.old) (M.disk machine.new) store.old store.new commands
        (sweep_comes map.now.lo map.now.hi p commands).commands (ending_of (cause_in result)) }
    ensures answer { (p : Params) (commands : List Command) → S.view.holds p (M.disk machine.old) store.old commands → ending_of (cause_in result) ≡ Done →
        result_err result ≡ (sweep_comes map.now.lo map.now.hi p commands).refusal }
{
    store.nothing_is_made(machine);
    require_open(map, store)?;
    sweep_objects(alloc, map, store, machine)
}
