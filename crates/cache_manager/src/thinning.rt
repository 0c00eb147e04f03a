// Turns that log nothing.
ghost use Rattle.std.specs.Prelude.{◌≡◌, ◌+◌, ◌<◌, ◌≤◌, ℕ, false, nat_lt, length, max, IfOk, IsErrOf, OnOk};
ghost use Rattle.formats.specs.declared.params.Params.{Params as Numbers};
ghost use Rattle.explain_core.specs.Turns.{free_gates, free_round, has_thin, thin_turn};
ghost use Rattle.explain_core.specs.World.{World, IsAllStable, run};
ghost use Rattle.standing.specs.Moments.{TakesSome};
ghost use Rattle.running_store.specs.Calls.Beside.{IsOnObjectsAlone};
ghost use Rattle.running_store.specs.Calls.{IsCall, Never, ending_of_store};
ghost use Rattle.running_store.specs.Parts.{VolatileShows, meaning_in};
ghost use Rattle.cache_manager.specs.DueNodes.{NamesDue};
ghost use Rattle.cache_manager.specs.InstallCourses.{removals};

use crate::choosing::choose_round;
use crate::removing::remove_nodes;
use crate::tending::one_or_more;
use crate::thin::least_thin;
use disk_model::Machine;
use oper_core::Oper;
use running_store::{Store, StoreErr};

/// Installs the minimal nodes that have one object to flush, from the least name on and so many at most: the objects are flushed
/// together, and the nodes leave the graph. Nothing is forced. It answers how many they were.
fn install_due<O: Oper, M: Machine>(
    store: &mut Store<O>,
    machine: &mut M,
    most: usize,
) -> Result<u64, StoreErr>
    requires unbroken { store.old.broken ≡ false }
    ensures call { IsCall O.meaning (M.disk machine.old) (M.disk machine.new) store.old store.new 0 Never (ending_of_store result) }
    ensures beside { IsOnObjectsAlone (M.disk machine.old) (M.disk machine.new) store.old store.new }
    ensures shows { (p : Numbers) (w : World O) → let m = meaning_in O.meaning p in
        VolatileShows m p (M.disk machine.old) store.old.parts.volatile w → IsAllStable w →
        OnOk result (VolatileShows m p (M.disk machine.new) store.new.parts.volatile (run m w (free_round m most w))) }
    ensures steps { (M.disk machine.old).tells_moments → (p : Numbers) (w : World O) → let m = meaning_in O.meaning p in
        VolatileShows m p (M.disk machine.old) store.old.parts.volatile w → IsAllStable w →
        TakesSome m p (M.disk machine.old) (M.disk machine.new) w (free_round m most w) }
    ensures count { (p : Numbers) (w : World O) → let m = meaning_in O.meaning p in
        VolatileShows m p (M.disk machine.old) store.old.parts.volatile w → IfOk result (λ n. n ≡ length (free_gates m most w)) }
    ensures few { IfOk result (λ n. (n ≤ most) × (length store.new.parts.volatile.entries + n ≤ length store.old.parts.volatile.entries)) }
    ensures some { 0 < most → (k : ℕ) → NamesDue store.old.parts.volatile 0 k → IfOk result (λ n. 0 < n) }
    ensures memory { IsErrOf result StoreErr.Memory → (machine.new ≡ machine.old) × (store.new ≡ store.old) }
{
    explain_core::a_round_may_be_taken::<O>();
    install_order::last_blind_write_is_alone();
    // Called for its clause: the LSNs of the graph are below 2^62.
    let _params = store.params();
    let round = choose_round(store.alloc(), store.objects(), store.graph(), 0, most)?;
    store.flush_together(machine, round.objects.as_slice())?;
    remove_nodes(store, machine, round.names.as_slice())?;
    Ok(round.names.len() as u64)
}

/// A turn that logs nothing: where the minimal node of the least name that has at most one object to flush has one, that and others
/// like it are installed together, so many at most (of 0 it is one) and with three syncs at most for all of them; where it has
/// none, it leaves the graph. It answers how many nodes were installed: none exactly where there is no such node. Without memory
/// nothing changes. The store may be one that a redo fills: members of its world may be left to replay, but all of them have to be
/// stable.
pub fn tend_thin<O: Oper, M: Machine>(
    store: &mut Store<O>,
    machine: &mut M,
    most: usize,
) -> Result<u64, StoreErr>
    requires unbroken { store.old.broken ≡ false }
    ensures call { IsCall O.meaning (M.disk machine.old) (M.disk machine.new) store.old store.new 0 Never (ending_of_store result) }
    ensures beside { IsOnObjectsAlone (M.disk machine.old) (M.disk machine.new) store.old store.new }
    ensures shows { (p : Numbers) (w : World O) → let m = meaning_in O.meaning p in
        VolatileShows m p (M.disk machine.old) store.old.parts.volatile w → IsAllStable w →
        OnOk result (VolatileShows m p (M.disk machine.new) store.new.parts.volatile (run m w (thin_turn m most w))) }
    ensures steps { (M.disk machine.old).tells_moments → (p : Numbers) (w : World O) → let m = meaning_in O.meaning p in
        VolatileShows m p (M.disk machine.old) store.old.parts.volatile w → IsAllStable w →
        TakesSome m p (M.disk machine.old) (M.disk machine.new) w (thin_turn m most w) }
    ensures count { (p : Numbers) (w : World O) → let m = meaning_in O.meaning p in
        VolatileShows m p (M.disk machine.old) store.old.parts.volatile w → IsAllStable w →
        IfOk result (λ n. (nat_lt 0 n ≡ has_thin m w) × (n ≡ removals (thin_turn m most w))) }
    ensures few { IfOk result (λ n. (n ≤ max 1 most) × (length store.new.parts.volatile.entries + n ≤ length store.old.parts.volatile.entries)) }
    ensures memory { IsErrOf result StoreErr.Memory → (machine.new ≡ machine.old) × (store.new ≡ store.old) }
{
    // Called for its clause: the LSNs of the graph are below 2^62.
    let _params = store.params();
    let Some(thin) = least_thin(store.objects(), store.graph())? else {
        return Ok(0);
    };
    if thin.work.is_empty() {
        store.finish(machine, thin.name, &[])?;
        return Ok(1);
    }
    install_due(store, machine, one_or_more(most))
}
