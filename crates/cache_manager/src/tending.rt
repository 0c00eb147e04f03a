// Upkeep, one turn at a time.
ghost use Rattle.std.specs.Prelude.{◌≡◌, ℕ, false, max, IfOk};
ghost use Rattle.formats.specs.declared.params.Params.{Params as Numbers};
ghost use Rattle.explain_core.specs.World.{World};
ghost use Rattle.running_store.specs.Calls.{IsCall};
ghost use Rattle.running_store.specs.Kept.{StopsAt};
ghost use Rattle.formats.specs.Limits.{log_limit};
ghost use Rattle.running_store.specs.Parts.{Shows, meaning_in};
ghost use Rattle.running_store.specs.StoreView.{log_length, logged_since};
ghost use Rattle.running_store.specs.Taking.{Takes};
ghost use Rattle.cache_manager.specs.Endings.{ending_of};
ghost use Rattle.cache_manager.specs.InstallCourses.{removals, turn_course};
ghost use Rattle.cache_manager.specs.Told.{TellsTend, installed};

use crate::InstallErr;
use crate::turning::take_turn;
use disk_model::Machine;
use oper_core::Oper;
use running_store::Store;

// So many, and 1 in place of 0.
pub(crate) fn one_or_more(most: usize) -> usize
    ensures { result ≡ max 1 most }
{
    most.max(1)
}

// How many nodes a turn installed.
fn count_of(found: Option<u64>) -> u64
    ensures { result ≡ installed found }
{
    match found {
        Some(n) => n,
        None => 0,
    }
}

/// A turn: where the minimal node of the least name has one object to flush, that and others like it are installed together, so
/// many at most (of 0 it is one): all that waits is forced, and three syncs at most serve all of them. Where it may not be finished yet,
/// beside a copy of the slots too, identity writes of its objects and of those of others like it are logged first, so that they are
/// installed together; where it still may not be, it is installed as by [`install_one`](crate::install_one). Behind them those leave the
/// graph that have no object to flush, while the minimal node of the least name is such a one, so many together at most. It answers how
/// many nodes were installed: none exactly where none was left.
pub fn tend<O: Oper, M: Machine>(
    store: &mut Store<O>,
    machine: &mut M,
    copied: u32,
    most: usize,
) -> Result<u64, InstallErr>
    requires unbroken { store.old.broken ≡ false }
    ensures call { IsCall O.meaning (M.disk machine.old) (M.disk machine.new) store.old store.new (logged_since store.old store.new) (StopsAt log_limit) (ending_of result) }
    ensures takes { Takes O.meaning (M.disk machine.old) (M.disk machine.new) store.old.parts store.new.parts (λ m w used. turn_course m copied (max 1 most) w used) (ending_of result) }
    ensures count { (p : Numbers) (w : World O) → Shows (meaning_in O.meaning p) p (M.disk machine.old) store.old.parts w →
        IfOk result (λ n. n ≡ removals (turn_course (meaning_in O.meaning p) copied (max 1 most) w (log_length store.old)).steps) }
    ensures tells { IfOk result (TellsTend (max 1 most) store.old.parts store.new.parts) }
{
    let most = one_or_more(most);
    let found = take_turn(store, machine, copied, most)?;
    Ok(count_of(found))
}
