// Thin nodes are installed while a redo is above its marks.
ghost use Rattle.std.specs.Prelude.{◌≡◌, ℕ, List, false, OnOk};
ghost use Rattle.formats.specs.Objects.{bounds_of};
ghost use Rattle.formats.specs.declared.params.Params.{Params};
ghost use Rattle.explain_core.specs.Sound.{IsSound};
ghost use Rattle.explain_core.specs.Turns.{is_over as is_over_in, turns};
ghost use Rattle.explain_core.specs.World.{World, IsAllStable};
ghost use Rattle.standing.specs.Moments.{TakesSome};
ghost use Rattle.running_store.specs.Calls.Beside.{IsOnObjectsAlone};
ghost use Rattle.running_store.specs.Calls.{IsCall, Never, ending_of_store};
ghost use Rattle.running_store.specs.Parts.{ShowsVolatile, VolatileShows};
ghost use Rattle.redo_pass.specs.Progress.{IsLimited};

use cache_manager::tend_thin;
use disk_model::Machine;
use explain_core::Marks;
use oper_core::Oper;
use running_store::{Store, StoreErr, dirty_objects_are_counted};

/// Whether more objects are dirty in the store, or more records wait in its graph, than the marks say.
fn is_over<O: Oper>(store: &Store<O>, marks: Marks) -> bool
    ensures { (p : Params) (file : List ℕ) (w : World O) → let m = O.meaning (bounds_of p) in
        IsSound m w → ShowsVolatile m p file store.now.parts.volatile w → result ≡ is_over_in m marks w }
{
    dirty_objects_are_counted::<O>();
    marks.is_above(store.objects().dirty_count(), store.graph().len())
}

/// While that is so and a node is thin, takes a turn that logs nothing.
pub(crate) fn keep_within<O: Oper, M: Machine>(
    store: &mut Store<O>,
    machine: &mut M,
    marks: Marks,
) -> Result<(), StoreErr>
    requires unbroken { store.old.broken ≡ false }
    ensures call { IsCall O.meaning (M.disk machine.old) (M.disk machine.new) store.old store.new 0 Never (ending_of_store result) }
    ensures beside { IsOnObjectsAlone (M.disk machine.old) (M.disk machine.new) store.old store.new }
    ensures limited { (p : Params) (w : World O) → VolatileShows (O.meaning (bounds_of p)) p (M.disk machine.old) store.old.parts.volatile w → IsAllStable w →
        OnOk result (IsLimited (O.meaning (bounds_of p)) p (M.disk machine.new).reads store.new.parts.volatile marks w) }

    // At each moment, whatever the answer, each image shows the world after some first steps of some turns.
    ensures steps { (M.disk machine.old).tells_moments → (p : Params) (w : World O) →
        VolatileShows (O.meaning (bounds_of p)) p (M.disk machine.old) store.old.parts.volatile w → IsAllStable w →
        (turned : ℕ) × TakesSome (O.meaning (bounds_of p)) p (M.disk machine.old) (M.disk machine.new) w
        (turns (O.meaning (bounds_of p)) marks turned w) }
{
    explain_core::turns_keep::<O>();
    while is_over(store, marks) {
        if tend_thin(store, machine, marks.most)? == 0 {
            return Ok(());
        }
    }
    Ok(())
}
