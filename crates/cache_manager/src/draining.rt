// All nodes are installed, turn by turn.
ghost use Rattle.std.specs.Prelude.{◌≡◌, ◌+◌, ◌≤◌, ℕ, List, false, [], length, OnOk, IfOk};
ghost use Rattle.dirty_cache.specs.Contents.{AreDirty, is_dirty};
ghost use Rattle.formats.specs.declared.params.Params.{Params as Numbers};
ghost use Rattle.explain_core.specs.World.{World};
ghost use Rattle.running_store.specs.Calls.{IsCall};
ghost use Rattle.cache_manager.specs.InstallCourses.{drain_course, removals, round_limit, turn_course};
ghost use Rattle.running_store.specs.Kept.{StopsAt};
ghost use Rattle.formats.specs.Limits.{log_limit};
ghost use Rattle.running_store.specs.Parts.{Shows, meaning_in};
ghost use Rattle.running_store.specs.StoreView.{log_length, logged_since, next_of};
ghost use Rattle.running_store.specs.Taking.{Takes};
ghost use Rattle.cache_manager.specs.Endings.{ending_of};
ghost use Rattle.cache_manager.specs.LogsDirty.{LogsDirty};
ghost use Rattle.cache_manager.specs.Told.{TellsTurn, installed};

use crate::InstallErr;
use crate::turning::take_turn;
use disk_model::Machine;
use oper_core::Oper;
use running_store::{Store, objects_within};

// So many nodes are installed in a round at least, and as many as have objects of at most so many bytes together, however long
// their values are.
const LEAST: usize = 64;

const BYTES: usize = 1 << 20;

/// A turn of as many nodes as a full round has.
pub(crate) fn take_full_turn<O: Oper, M: Machine>(
    store: &mut Store<O>,
    machine: &mut M,
    copied: u32,
) -> Result<Option<u64>, InstallErr>
    requires unbroken { store.old.broken ≡ false }
    ensures call { IsCall O.meaning (M.disk machine.old) (M.disk machine.new) store.old store.new (logged_since store.old store.new) (StopsAt log_limit) (ending_of result) }
    ensures takes { Takes O.meaning (M.disk machine.old) (M.disk machine.new) store.old.parts store.new.parts (λ m w used. turn_course m copied (round_limit m) w used) (ending_of result) }
    ensures count { (p : Numbers) (w : World O) → Shows (meaning_in O.meaning p) p (M.disk machine.old) store.old.parts w →
        IfOk result (λ found. installed found ≡ removals (turn_course (meaning_in O.meaning p) copied (round_limit (meaning_in O.meaning p)) w (log_length store.old)).steps) }
    ensures tells { IfOk result (TellsTurn store.old.parts store.new.parts) }
    ensures logs { OnOk result (LogsDirty store.old.parts store.new.parts) }
{
    let most = objects_within(LEAST, BYTES, store.params());
    take_turn(store, machine, copied, most)
}

/// Installs nodes until none is left, beside a copy of the slots as [`install_one`](crate::install_one) does: in turns as of
/// [`tend`](crate::tend), each of as many nodes as a full round has.
/// It answers how many nodes were installed.
pub fn drain<O: Oper, M: Machine>(
    store: &mut Store<O>,
    machine: &mut M,
    copied: u32,
) -> Result<u64, InstallErr>
    requires unbroken { store.old.broken ≡ false }
    ensures call { IsCall O.meaning (M.disk machine.old) (M.disk machine.new) store.old store.new (logged_since store.old store.new) (StopsAt log_limit) (ending_of result) }
    ensures takes { Takes O.meaning (M.disk machine.old) (M.disk machine.new) store.old.parts store.new.parts (λ m w used. drain_course m copied w used) (ending_of result) }
    ensures count { (p : Numbers) (w : World O) → Shows (meaning_in O.meaning p) p (M.disk machine.old) store.old.parts w →
        IfOk result (λ n. n ≡ removals (drain_course (meaning_in O.meaning p) copied w (log_length store.old)).steps) }
    // Each node has an entry at least, and each identity write puts one into the graph.
    ensures bounded { IfOk result (λ n. n + next_of store.old ≤ length store.old.parts.volatile.entries + next_of store.new) }
    // And these are of different objects that were dirty.
    ensures few { (objects : List ℕ) → AreDirty store.old.parts.volatile.objects.cache objects → IfOk result (λ n. n ≤ length store.old.parts.volatile.entries + length objects) }
    ensures drained { OnOk result (store.new.parts.volatile.entries ≡ []) }
    ensures clean { (p : Numbers) (w : World O) → Shows (meaning_in O.meaning p) p (M.disk machine.old) store.old.parts w →
        OnOk result ((x : ℕ) → is_dirty store.new.parts.volatile.objects.cache x ≡ false) }
{
    explain_core::every_run_keeps::<O>();
    explain_core::a_round_may_be_taken::<O>();
    install_order::last_blind_write_is_alone();
    // Called for their clauses: the LSNs of the graph rise, and are below the next, which is 2^62 at most.
    let _params = store.params();
    let _held = store.graph().len();
    let mut count = 0;
    while let Some(n) = take_full_turn(store, machine, copied)? {
        let _params = store.params();
        count += n;
    }
    Ok(count)
}
