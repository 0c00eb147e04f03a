// What is logged before a turn, so that its nodes may be finished.
ghost use Rattle.std.specs.Prelude.{◌≡◌, ◌<◌, ◌^◌, ◌++◌, [], ℕ, List, false, true, All, IfNone, IfOk, IfSome, OnOk};
ghost use Rattle.std.specs.List.Sorted.{IsStrictlyIncreasing};
ghost use Rattle.dirty_cache.specs.Contents.{is_dirty};
ghost use Rattle.formats.specs.Limits.{log_limit};
ghost use Rattle.write_graph.specs.Graph.{NamesMinimal, lsns};
ghost use Rattle.running_store.specs.Calls.{IsCall};
ghost use Rattle.running_store.specs.Kept.{IsLonger, StopsAt};
ghost use Rattle.running_store.specs.Parts.{volatile};
ghost use Rattle.running_store.specs.StoreView.{logged_since};
ghost use Rattle.running_store.specs.Taking.{Takes};
ghost use Rattle.cache_manager.specs.Endings.{ending_of};
ghost use Rattle.cache_manager.specs.InstallCourses.{identities, readied};
ghost use Rattle.cache_manager.specs.LogsDirty.{LogsDirty};
ghost use Rattle.cache_manager.specs.ReadyNodes.{AreLoggedFirst, AreOthers, IsNextReady, IsReadied, IsReadyFrom};

use crate::InstallErr;
use crate::beside::may_finish;
use crate::identities::{lengths_of, log_all};
use crate::thin::work_of;
use disk_model::Machine;
use identity_writes::plan;
use oper_core::{Memory, Oper};
use running_store::{Objects, Store};
use std::alloc::Global;
use write_graph::{NodeNo, WriteGraph};

/// Adds all of these dirty objects but the one with the longest value of those that are not copied.
fn add_others(
    alloc: Global,
    objects: &Objects,
    work: &[u32],
    copied: u32,
    logs: &mut Vec<u32>,
) -> Result<(), Memory>
    requires dirty { All (λ x. is_dirty objects.now.cache x ≡ true) work.now }
    requires rising { IsStrictlyIncreasing work.now }
    ensures { OnOk result ((others : List ℕ) × (logs.new.items ≡ logs.old.items ++ others) × AreOthers objects.now copied work.now others) }
{
    let lengths = lengths_of(alloc, objects, work)?;
    let planned = plan(alloc, work, lengths.as_slice(), copied)?;
    logs.extend_from_slice(planned.log.as_slice())?;
    Ok(())
}

/// Adds a minimal node and what is logged of it, where it may not be finished yet.
fn consider(
    alloc: Global,
    objects: &Objects,
    graph: &WriteGraph,
    n: NodeNo,
    copied: u32,
    names: &mut Vec<NodeNo>,
    logs: &mut Vec<u32>,
) -> Result<(), Memory>
    requires { NamesMinimal graph.now.entries n }
    ensures { OnOk result (IsReadied (volatile objects.now graph.now.entries) copied n names.old.items logs.old.items names.new.items logs.new.items) }
{
    let work = work_of(objects, graph, n)?;
    let due = work.as_slice();
    if may_finish(graph, n, due, copied) {
        return Ok(());
    }
    add_others(alloc, objects, due, copied, logs)?;
    names.push(n)?;
    Ok(())
}

/// What is logged of the minimal nodes that may not be finished yet, from the least name on, and of so many at most.
fn choose_others(
    alloc: Global,
    objects: &Objects,
    graph: &WriteGraph,
    copied: u32,
    most: usize,
) -> Result<Vec<u32>, Memory>
    requires low { All (λ n. n < 2 ^ 62) (lsns graph.now.entries) }
    ensures { IfOk result (λ logs. (names : List ℕ) × IsReadyFrom (volatile objects.now graph.now.entries) copied most 0 names logs.items) }
{
    let mut names = Vec::new(alloc);
    let mut logs = Vec::new(alloc);
    let mut from = 0;
    while let Some(name) = graph.minimal_from(from) {
        if names.len() >= most {
            return Ok(logs);
        }
        consider(alloc, objects, graph, name, copied, &mut names, &mut logs)?;
        from = name + 1;
    }
    Ok(logs)
}

/// What is logged before a turn of so many nodes at most, if the minimal node of the least name may not be finished yet.
fn logged_first(
    alloc: Global,
    objects: &Objects,
    graph: &WriteGraph,
    copied: u32,
    most: usize,
) -> Result<Option<Vec<u32>>, Memory>
    requires low { All (λ n. n < 2 ^ 62) (lsns graph.now.entries) }
    ensures some { IfOk result (λ found. IfSome found (λ logs. AreLoggedFirst (volatile objects.now graph.now.entries) copied most logs.items)) }
    ensures none { IfOk result (λ found. IfNone found (IsNextReady (volatile objects.now graph.now.entries) copied)) }
{
    let Some(name) = graph.minimal() else {
        return Ok(None);
    };
    let work = work_of(objects, graph, name)?;
    if may_finish(graph, name, work.as_slice(), copied) {
        return Ok(None);
    }
    let logs = choose_others(alloc, objects, graph, copied, most)?;
    Ok(Some(logs))
}

/// Where the minimal node of the least name may not be finished yet, what stands in the way is logged of it and of others like it, of so
/// many nodes at most. Nothing is forced but what makes room.
pub(crate) fn make_ready<O: Oper, M: Machine>(
    store: &mut Store<O>,
    machine: &mut M,
    copied: u32,
    most: usize,
) -> Result<(), InstallErr>
    requires unbroken { store.old.broken ≡ false }
    ensures call { IsCall O.meaning (M.disk machine.old) (M.disk machine.new) store.old store.new (logged_since store.old store.new) (StopsAt log_limit) (ending_of result) }
    ensures takes { Takes O.meaning (M.disk machine.old) (M.disk machine.new) store.old.parts store.new.parts (λ m w used. identities m (readied m copied most w) w used) (ending_of result) }
    ensures logged { OnOk result ((n : ℕ) × IsLonger n store.old.parts store.new.parts) }
    ensures none { store.old.parts.volatile.entries ≡ [] → OnOk result (store.new.parts ≡ store.old.parts) }
    ensures logs { OnOk result (LogsDirty store.old.parts store.new.parts) }
{
    explain_core::every_run_keeps::<O>();
    install_order::last_blind_write_is_alone();
    // Called for its clause: the LSNs of the graph are below 2^62.
    let _params = store.params();
    let Some(logs) = logged_first(store.alloc(), store.objects(), store.graph(), copied, most)?
    else {
        return Ok(());
    };
    log_all(store, machine, logs.as_slice())
}
