// Whether a range is a map.
ghost use Rattle.std.specs.Prelude.{◌≡◌, ◌<◌, ◌≤◌, ◌-◌, [], List, Ok, Err, IfErr, IfOk, IsTrue, OnOk, length, suc};
ghost use Rattle.formats.specs.Objects.{bounds_of};
ghost use Rattle.formats.specs.declared.params.Params.{Params};
ghost use Rattle.page_map.specs.Checks.{before, begun, check as check_is, check_from, is_met, taken};
ghost use Rattle.page_map.specs.Map.{bytes_at};
ghost use Rattle.page_map.specs.Splits.{cells_read};
ghost use Rattle.page_ops.specs.Reading.{level_in};
ghost use Rattle.running_store.specs.Taking.Ending.{Done};
ghost use Rattle.store_engine.specs.Lists.{ending_of};
ghost use Rattle.store_calls.specs.Making.{Calls, Reads};
ghost use Rattle.range_calls.specs.Store.{Command, state_of};
ghost use Rattle.range_calls.specs.declared.call_err.CallErr.TheVariants.{Memory as OutOfMemory};
ghost use Rattle.map_client.specs.Answers.{cause_in, cause_of, told};
ghost use Rattle.map_client.specs.Checking.{GoesOn, IsBad, check_told};

use crate::call_refusal::CallRefusal;
use crate::checked::Checked;
use crate::map_err::MapErr;
use disk_model::Machine;
use op_codec::AllOps;
use oper_core::Memory;
use page_map::{Awaited, Check, Map, MapRefusal, a_check_goes_page_by_page};
use range_calls::{CallErr, reads_go_on, reads_run_short, see};
use std::alloc::Global;
use store_calls::Store;

/// The level that bytes tell, whatever they are.
fn level_of(bytes: &[u8]) -> u8
    ensures { result ≡ level_in bytes.now }
{
    if bytes.len() < 2 {
        return 0;
    }
    bytes[1]
}

/// The level that the root tells.
fn root_told<S: Store<AllOps>, M: Machine>(
    map: &Map,
    store: &mut S,
    machine: &mut M,
) -> Result<u8, MapErr>
    requires unbroken { S.view.unbroken store.old }
    ensures reads { Reads S.view (M.disk machine.old) (M.disk machine.new) store.old store.new (cause_in result) }
    ensures answer { (p : Params) (commands : List Command) → S.view.holds p (M.disk machine.old) store.old commands → map.now.lo < p.objects →
        ending_of (cause_in result) ≡ Done → result ≡ Ok (level_in (bytes_at map.now.lo (state_of p commands) map.now.lo)) }
{
    let root = map.root();
    let there = see(store, machine, root)?;
    if !there {
        return Err(CallErr::Refused(CallRefusal::NoObject));
    }
    Ok(level_of(map.bytes(root, store.get(root))))
}

/// A check of the range begins at its root.
fn begin<'m>(alloc: Global, map: &'m Map, level: u8) -> Result<Check<'m>, MapErr>
    ensures check { IfOk result (λ check. check ≡ begun map.now level) }
    ensures memory { IfErr result (λ e. e ≡ OutOfMemory) }
{
    match Check::new(alloc, map, level) {
        Ok(check) => Ok(check),
        Err(Memory) => Err(CallErr::Memory),
    }
}

/// Meets a page, of which these are the bytes: whether it is a page of the map.
fn meet_page(alloc: Global, page: Awaited, bytes: &[u8], check: &mut Check) -> Result<bool, MapErr>
    ensures fits { IfOk result (λ is. is ≡ is_met page bytes.now check.old) }
    ensures next { IfOk result (λ is. IsTrue is → check.new ≡ taken page (cells_read bytes.now) check.old) }
    ensures few { IfOk result (λ is. IsTrue is → length check.new.met.objects ≤ suc (check.new.range.hi - check.new.range.lo)) }
    ensures memory { IfErr result (λ e. e ≡ OutOfMemory) }
{
    match check.meet(alloc, page, bytes) {
        Ok(is) => Ok(is),
        Err(Memory) => Err(CallErr::Memory),
    }
}

/// Meets the page that comes next: what is below it comes next, or it is bad.
fn meet<S: Store<AllOps>, M: Machine>(
    alloc: Global,
    map: &Map,
    store: &mut S,
    machine: &mut M,
    page: Awaited,
    check: &mut Check,
) -> Result<(), MapErr>
    requires unbroken { S.view.unbroken store.old }
    requires there { map.now.hi < (S.view.params store.old).objects }
    requires range { check.old.range ≡ map.now }
    ensures reads { Reads S.view (M.disk machine.old) (M.disk machine.new) store.old store.new (cause_in result) }
    ensures range { OnOk result (check.new.range ≡ map.now) }
    ensures more { OnOk result (length check.new.met.objects ≡ suc (length check.old.met.objects)) }
    ensures few { OnOk result (length check.new.met.objects ≤ suc (map.now.hi - map.now.lo)) }
    ensures goes { (p : Params) (commands : List Command) → S.view.holds p (M.disk machine.old) store.old commands →
        OnOk result (GoesOn (state_of p commands) page check.old check.new) }
    ensures bad { (p : Params) (commands : List Command) → S.view.holds p (M.disk machine.old) store.old commands →
        IfErr result (λ e. ending_of (cause_of e) ≡ Done → IsBad (state_of p commands) (before page check.old) e) }
{
    a_check_goes_page_by_page();
    store.nothing_is_made(machine);
    reads_run_short::<S, M>();
    let object = page.object;
    if !check.is_new(object) {
        return Err(CallErr::Refused(CallRefusal::Map(MapRefusal::BadMap { object })));
    }
    let there = see(store, machine, object)?;
    if !there {
        return Err(CallErr::Refused(CallRefusal::NoObject));
    }
    let fits = meet_page(alloc, page, map.bytes(object, store.get(object)), check)?;
    if !fits {
        return Err(CallErr::Refused(CallRefusal::Map(MapRefusal::BadMap { object })));
    }
    Ok(())
}

/// Meets page after page, until none is awaited.
fn meet_all<S: Store<AllOps>, M: Machine>(
    alloc: Global,
    map: &Map,
    store: &mut S,
    machine: &mut M,
    check: &mut Check,
) -> Result<(), MapErr>
    requires unbroken { S.view.unbroken store.old }
    requires there { map.now.hi < (S.view.params store.old).objects }
    requires range { check.old.range ≡ map.now }
    ensures reads { Reads S.view (M.disk machine.old) (M.disk machine.new) store.old store.new (cause_in result) }
    ensures range { OnOk result (check.new.range ≡ map.now) }
    ensures met { (p : Params) (commands : List Command) → S.view.holds p (M.disk machine.old) store.old commands →
        OnOk result (check_from (state_of p commands) check.old ≡ Ok check.new.met) }
    ensures bad { (p : Params) (commands : List Command) → S.view.holds p (M.disk machine.old) store.old commands →
        IfErr result (λ e. ending_of (cause_of e) ≡ Done → IsBad (state_of p commands) check.old e) }
{
    a_check_goes_page_by_page();
    store.nothing_is_made(machine);
    reads_go_on::<S, M>();
    while let Some(page) = check.next() {
        meet(alloc, map, store, machine, page, check)?;
    }
    Ok(())
}

/// A check that has gone through all pages of the range, from the root on.
pub(crate) fn checked_pages<'m, S: Store<AllOps>, M: Machine>(
    alloc: Global,
    map: &'m Map,
    store: &mut S,
    machine: &mut M,
) -> Result<Check<'m>, MapErr>
    requires unbroken { S.view.unbroken store.old }
    requires there { map.now.hi < (S.view.params store.old).objects }
    ensures reads { Reads S.view (M.disk machine.old) (M.disk machine.new) store.old store.new (cause_in result) }
    ensures range { IfOk result (λ done. done.range ≡ map.now) }
    ensures met { (p : Params) (commands : List Command) → S.view.holds p (M.disk machine.old) store.old commands →
        IfOk result (λ done. check_is map.now (state_of p commands) ≡ Ok done.met) }
    ensures bad { (p : Params) (commands : List Command) → S.view.holds p (M.disk machine.old) store.old commands →
        IfErr result (λ e. ending_of (cause_of e) ≡ Done → told (check_is map.now (state_of p commands)) ≡ Err e) }
{
    reads_go_on::<S, M>();
    reads_run_short::<S, M>();
    let _last = map.last();
    let level = root_told(map, store, machine)?;
    let mut check = begin(alloc, map, level)?;
    meet_all(alloc, map, store, machine, &mut check)?;
    Ok(check)
}

/// Whether the range is a map, and what it has: from the root on all pages are read, with all of their cells. No command is added.
///
/// It answers `NoObject` exactly where the range ends past the last object, `BadMap` exactly where the range is no map, with the
/// first object on the way through it that is bad (`check` of page_map), `Exec` with what the store answered to a fetch, and
/// `Memory`, where the keys of the pages that are still awaited can't be kept.
pub fn check<S: Store<AllOps>, M: Machine>(
    alloc: Global,
    map: &Map,
    store: &mut S,
    machine: &mut M,
) -> Result<Checked, MapErr>
    requires unbroken { S.view.unbroken store.old }
    ensures calls { Calls S.view (M.disk machine.old) (M.disk machine.new) store.old store.new (cause_in result) }
    ensures adds { (p : Params) (commands : List Command) → S.view.holds p (M.disk machine.old) store.old commands →
        S.view.adds p (M.disk machine.old) (M.disk machine.new) store.old store.new commands [] (ending_of (cause_in result)) }
    ensures found { (p : Params) (commands : List Command) → S.view.holds p (M.disk machine.old) store.old commands →
        IfOk result (λ checked. check_told (bounds_of p) map.now (state_of p commands) ≡ Ok checked) }
    ensures refused { (p : Params) (commands : List Command) → S.view.holds p (M.disk machine.old) store.old commands →
        IfErr result (λ e. ending_of (cause_of e) ≡ Done → check_told (bounds_of p) map.now (state_of p commands) ≡ Err e) }
{
    store.nothing_is_made(machine);
    if map.last() >= store.params().objects {
        return Err(CallErr::Refused(CallRefusal::NoObject));
    }
    let check = checked_pages(alloc, map, store, machine)?;
    Ok(Checked {
        pages: check.pages() as u64,
        keys: check.keys(),
        past: check.past(),
    })
}
