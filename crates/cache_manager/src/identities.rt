// Identity writes of several objects, one after the other.
ghost use Rattle.std.specs.Prelude.{◌≡◌, ◌⊎◌, ◌<◌, ◌++◌, ℕ, false, true, All, List, Some, slice_get, length, map, OnOk, IfOk};
ghost use Rattle.std.specs.List.Sorted.{IsStrictlyIncreasing};
ghost use Rattle.dirty_cache.specs.Contents.{is_dirty};
ghost use Rattle.running_store.specs.Calls.{IsCall};
ghost use Rattle.running_store.specs.Courses.{cached_length};
ghost use Rattle.cache_manager.specs.InstallCourses.{but_longest, identities};
ghost use Rattle.cache_manager.specs.LogsDirty.{HasLogged, identity_entries};
ghost use Rattle.running_store.specs.Kept.{IsLonger, StopsAt};
ghost use Rattle.running_store.specs.Laid.{values_in};
ghost use Rattle.formats.specs.Limits.{log_limit};
ghost use Rattle.running_store.specs.StoreView.{logged_since, next_of};
ghost use Rattle.running_store.specs.Taking.{Takes};
ghost use Rattle.cache_manager.specs.Endings.{ending_of};

use crate::InstallErr;
use crate::identity::log_identity;
use disk_model::Machine;
use identity_writes::plan;
use oper_core::{Memory, Oper};
use running_store::{Objects, Store};
use std::alloc::Global;

/// Logs an identity write of each of these objects, which are dirty.
pub(crate) fn log_all<O: Oper, M: Machine>(
    store: &mut Store<O>,
    machine: &mut M,
    xs: &[u32],
) -> Result<(), InstallErr>
    requires unbroken { store.old.broken ≡ false }
    requires dirty { All (λ x. is_dirty store.old.parts.volatile.objects.cache x ≡ true) xs.now }
    ensures call { IsCall O.meaning (M.disk machine.old) (M.disk machine.new) store.old store.new (logged_since store.old store.new) (StopsAt log_limit) (ending_of result) }
    ensures takes { Takes O.meaning (M.disk machine.old) (M.disk machine.new) store.old.parts store.new.parts (λ m w used. identities m xs.now w used) (ending_of result) }
    ensures logged { OnOk result (IsLonger (length xs.now) store.old.parts store.new.parts) }
    ensures entries { OnOk result (store.new.parts.volatile.entries ≡ store.old.parts.volatile.entries ++ identity_entries (next_of store.old) xs.now) }
{
    for x in xs {
        log_identity(store, machine, *x)?;
    }
    Ok(())
}

/// The lengths of the values of dirty objects.
pub(crate) fn lengths_of(alloc: Global, objects: &Objects, xs: &[u32]) -> Result<Vec<u32>, Memory>
    requires dirty { All (λ x. is_dirty objects.now.cache x ≡ true) xs.now }
    ensures { (file : List ℕ) → IfOk result (λ lengths. lengths.items ≡ map (λ x. length (values_in objects.now file x)) xs.now) }
{
    let _params = objects.params();
    let mut lengths = Vec::new(alloc);
    for x in xs {
        lengths.push(objects.value(*x).len() as u32)?;
    }
    Ok(lengths)
}

/// Logs an identity write of each of these objects but the one with the longest value of those that are not copied, which
/// are those from a number on. They are dirty, and two at least, or one that is copied.
pub(crate) fn log_others<O: Oper, M: Machine>(
    store: &mut Store<O>,
    machine: &mut M,
    work: &[u32],
    copied: u32,
) -> Result<(), InstallErr>
    requires unbroken { store.old.broken ≡ false }
    requires dirty { All (λ x. is_dirty store.old.parts.volatile.objects.cache x ≡ true) work.now }
    requires rising { IsStrictlyIncreasing work.now }
    requires some { (1 < length work.now) ⊎ ((x : ℕ) × (slice_get work.now 0 ≡ Some x) × (x < copied)) }
    ensures call { IsCall O.meaning (M.disk machine.old) (M.disk machine.new) store.old store.new (logged_since store.old store.new) (StopsAt log_limit) (ending_of result) }
    ensures takes { Takes O.meaning (M.disk machine.old) (M.disk machine.new) store.old.parts store.new.parts
        (λ m w used. identities m (but_longest copied (cached_length m w) work.now) w used) (ending_of result) }
    ensures logged { OnOk result ((n : ℕ) × (0 < n) × IsLonger n store.old.parts store.new.parts) }
    ensures objects { OnOk result (HasLogged work.now store.old.parts store.new.parts) }
{
    let alloc = store.alloc();
    let lengths = lengths_of(alloc, store.objects(), work)?;
    let planned = plan(alloc, work, lengths.as_slice(), copied)?;
    log_all(store, machine, planned.log.as_slice())
}
