// Free objects of a range.
ghost use Rattle.std.specs.Prelude.{◌≤◌, ◌<◌, List, IfSome};
ghost use Rattle.formats.specs.declared.params.Params.{Params};
ghost use Rattle.range_calls.specs.Free.{IsLeastFree};
ghost use Rattle.range_calls.specs.Store.{Command, state_of};

use disk_model::Machine;
use op_codec::AllOps;
use store_calls::Store;

/// The least free object from one to another, both among them: its value is empty. No device call is made.
pub fn least_free<S: Store<AllOps>, M: Machine>(
    store: &S,
    machine: &M,
    from: u32,
    last: u32,
) -> Option<u32>
    ensures within { IfSome result (λ x. x ≤ last) }
    ensures answer { (p : Params) (commands : List Command) → S.view.holds p (M.disk machine.now) store.now commands → last < p.objects →
        IsLeastFree (state_of p commands) from last result }
{
    match store.next_empty(machine, from) {
        Some(object) => { if object <= last { Some(object) } else { None } }
        None => None,
    }
}
