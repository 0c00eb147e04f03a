// A turn: nodes are made ready and installed together, or one is alone, and then those that have no object to flush.
ghost use Rattle.std.specs.Prelude.{◌≡◌, ◌+◌, ◌<◌, ◌≤◌, ℕ, false, length, IsFalse, IsTrue, IfOk, OnOk, Some};
ghost use Rattle.formats.specs.declared.params.Params.{Params as Numbers};
ghost use Rattle.write_graph.specs.Graph.{IsLeast, NamesMinimal};
ghost use Rattle.explain_core.specs.Turns.{round_gates};
ghost use Rattle.explain_core.specs.World.{World};
ghost use Rattle.running_store.specs.Calls.{IsCall, Never};
ghost use Rattle.running_store.specs.Kept.{StopsAt};
ghost use Rattle.formats.specs.Limits.{log_limit};
ghost use Rattle.running_store.specs.Parts.{Shows, meaning_in, volatile};
ghost use Rattle.running_store.specs.StoreView.{log_length, logged_since, next_of};
ghost use Rattle.running_store.specs.Taking.{Takes};
ghost use Rattle.cache_manager.specs.DueNodes.{NamesDue};
ghost use Rattle.cache_manager.specs.Endings.{ending_of};
ghost use Rattle.cache_manager.specs.InstallCourses.{first_course, may_flush, ready_turn, removals, round_course, turn_course};
ghost use Rattle.cache_manager.specs.LogsDirty.{LogsDirty};
ghost use Rattle.cache_manager.specs.Told.{TellsTurn, installed};

use crate::InstallErr;
use crate::choosing::{choose_round, only_object};
use crate::readying::make_ready;
use crate::removing::remove_nodes;
use crate::rounds::install_one;
use crate::workless::finish_all_workless;
use disk_model::Machine;
use oper_core::{Memory, Oper};
use running_store::{Objects, Store};
use write_graph::{NodeNo, WriteGraph};

/// Installs the minimal nodes that have one object to flush, from the least name on and so many at most: all that waits is
/// forced, the objects are flushed together, and the nodes leave the graph. It answers how many they were.
pub(crate) fn install_round<O: Oper, M: Machine>(
    store: &mut Store<O>,
    machine: &mut M,
    copied: u32,
    most: usize,
) -> Result<u64, InstallErr>
    requires unbroken { store.old.broken ≡ false }
    ensures call { IsCall O.meaning (M.disk machine.old) (M.disk machine.new) store.old store.new 0 Never (ending_of result) }
    ensures takes { Takes O.meaning (M.disk machine.old) (M.disk machine.new) store.old.parts store.new.parts (λ m w used. round_course m copied most w used) (ending_of result) }
    ensures count { (p : Numbers) (w : World O) → Shows (meaning_in O.meaning p) p (M.disk machine.old) store.old.parts w →
        IfOk result (λ n. n ≡ length (round_gates (meaning_in O.meaning p) (may_flush (meaning_in O.meaning p) copied) most w)) }
    ensures next { next_of store.new ≡ next_of store.old }
    ensures fewer { IfOk result (λ n. length store.new.parts.volatile.entries + n ≤ length store.old.parts.volatile.entries) }
    ensures most { IfOk result (λ n. n ≤ most) }
    ensures some { 0 < most → (k : ℕ) → NamesDue store.old.parts.volatile copied k → IfOk result (λ n. 0 < n) }
    ensures logs { OnOk result (LogsDirty store.old.parts store.new.parts) }
{
    explain_core::every_run_keeps::<O>();
    explain_core::a_round_may_be_taken::<O>();
    install_order::last_blind_write_is_alone();
    // Called for its clause: the LSNs of the graph are below 2^62.
    let _params = store.params();
    let round = choose_round(store.alloc(), store.objects(), store.graph(), copied, most)?;
    store.flush_round(machine, round.objects.as_slice())?;
    remove_nodes(store, machine, round.names.as_slice())?;
    Ok(round.names.len() as u64)
}

/// Whether a minimal node has one object to flush, and may be finished beside a copy of the slots that has the objects below a
/// number.
fn is_due(objects: &Objects, graph: &WriteGraph, n: NodeNo, copied: u32) -> Result<bool, Memory>
    requires { NamesMinimal graph.now.entries n }
    ensures due { IfOk result (λ is. IsTrue is → NamesDue (volatile objects.now graph.now.entries) copied n) }
    ensures not_due { IfOk result (λ is. IsFalse is → NamesDue (volatile objects.now graph.now.entries) copied n → ⊥) }
{
    let Some(_) = only_object(objects, graph, n, copied)? else {
        return Ok(false);
    };
    Ok(true)
}

/// A round is taken where the minimal node of the least name, which this is, has one object to flush, and else that node is installed
/// alone. It answers how many nodes were installed.
fn install_first<O: Oper, M: Machine>(
    store: &mut Store<O>,
    machine: &mut M,
    name: NodeNo,
    copied: u32,
    most: usize,
) -> Result<u64, InstallErr>
    requires unbroken { store.old.broken ≡ false }
    requires some { 0 < most }
    requires least { IsLeast (NamesMinimal store.old.parts.volatile.entries) name }
    ensures call { IsCall O.meaning (M.disk machine.old) (M.disk machine.new) store.old store.new (logged_since store.old store.new) (StopsAt log_limit) (ending_of result) }
    ensures takes { Takes O.meaning (M.disk machine.old) (M.disk machine.new) store.old.parts store.new.parts (λ m w used. first_course m copied most w used) (ending_of result) }
    ensures count { (p : Numbers) (w : World O) → Shows (meaning_in O.meaning p) p (M.disk machine.old) store.old.parts w →
        IfOk result (λ n. n ≡ removals (first_course (meaning_in O.meaning p) copied most w (log_length store.old)).steps) }
    ensures tells { IfOk result (λ n. TellsTurn store.old.parts store.new.parts (Some n)) }
    ensures most { IfOk result (λ n. n ≤ most) }
    ensures logs { OnOk result (LogsDirty store.old.parts store.new.parts) }
{
    install_order::last_blind_write_is_alone();
    let due = is_due(store.objects(), store.graph(), name, copied)?;
    if due {
        return install_round(store, machine, copied, most);
    }
    install_one(store, machine, copied)?;
    Ok(1)
}

/// A turn that logs nothing before: a round or an install, and behind it those leave the graph that have no object to flush, while the
/// minimal node of the least name is such a one: so many nodes at most.
fn take_ready_turn<O: Oper, M: Machine>(
    store: &mut Store<O>,
    machine: &mut M,
    copied: u32,
    most: usize,
) -> Result<Option<u64>, InstallErr>
    requires unbroken { store.old.broken ≡ false }
    requires some { 0 < most }
    ensures call { IsCall O.meaning (M.disk machine.old) (M.disk machine.new) store.old store.new (logged_since store.old store.new) (StopsAt log_limit) (ending_of result) }
    ensures takes { Takes O.meaning (M.disk machine.old) (M.disk machine.new) store.old.parts store.new.parts (λ m w used. ready_turn m copied most w used) (ending_of result) }
    ensures count { (p : Numbers) (w : World O) → Shows (meaning_in O.meaning p) p (M.disk machine.old) store.old.parts w →
        IfOk result (λ found. installed found ≡ removals (ready_turn (meaning_in O.meaning p) copied most w (log_length store.old)).steps) }
    ensures tells { IfOk result (TellsTurn store.old.parts store.new.parts) }
    ensures most { IfOk result (λ found. installed found ≤ most) }
    ensures logs { OnOk result (LogsDirty store.old.parts store.new.parts) }
{
    install_order::last_blind_write_is_alone();
    let Some(name) = store.graph().minimal() else {
        return Ok(None);
    };
    let first = install_first(store, machine, name, copied, most)?;
    let more = finish_all_workless(store, machine, most - first as usize)?;
    Ok(Some(first + more))
}

/// Where the minimal node of the least name has one object to flush, that and others like it are installed together. Where it may not be
/// finished yet, identity writes are logged before, without a force, of its objects and of those of others like it, so that they are
/// installed together too; where it still may not be finished it is installed alone. Those behind it that have no object to flush leave
/// the graph after it: so many nodes at most. It answers how many nodes were installed, if there was one.
pub(crate) fn take_turn<O: Oper, M: Machine>(
    store: &mut Store<O>,
    machine: &mut M,
    copied: u32,
    most: usize,
) -> Result<Option<u64>, InstallErr>
    requires unbroken { store.old.broken ≡ false }
    requires some { 0 < most }
    ensures call { IsCall O.meaning (M.disk machine.old) (M.disk machine.new) store.old store.new (logged_since store.old store.new) (StopsAt log_limit) (ending_of result) }
    ensures takes { Takes O.meaning (M.disk machine.old) (M.disk machine.new) store.old.parts store.new.parts (λ m w used. turn_course m copied most w used) (ending_of result) }
    ensures count { (p : Numbers) (w : World O) → Shows (meaning_in O.meaning p) p (M.disk machine.old) store.old.parts w →
        IfOk result (λ found. installed found ≡ removals (turn_course (meaning_in O.meaning p) copied most w (log_length store.old)).steps) }
    ensures tells { IfOk result (TellsTurn store.old.parts store.new.parts) }
    ensures most { IfOk result (λ found. installed found ≤ most) }
    ensures logs { OnOk result (LogsDirty store.old.parts store.new.parts) }
{
    make_ready(store, machine, copied, most)?;
    take_ready_turn(store, machine, copied, most)
}
