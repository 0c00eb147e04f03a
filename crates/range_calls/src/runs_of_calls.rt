// What calls make that come one after the other.
ghost use Rattle.std.specs.Prelude.{◌≡◌, List};
ghost use Rattle.disk_model.specs.Disk.{Files};
ghost use Rattle.formats.specs.declared.params.Params.{Params};
ghost use Rattle.op_codec.specs.AllOps.{all_meaning};
ghost use Rattle.store_engine.specs.Store.{Stands};
ghost use Rattle.store_engine.specs.Uniqueness.{HaveOneState};
ghost use Rattle.range_calls.specs.Joining.{HoldsBehind, ReadsBehind, ReadsShort};
ghost use Rattle.range_calls.specs.Store.{Command, meaning_in};

use disk_model::Machine;
use op_codec::AllOps;
use store_calls::Store;
use store_engine::one_state;

/// A call after calls that only read makes what it makes alone, and the store stands for the same commands.
pub fn reads_go_on<S: Store<AllOps>, M: Machine>()
    ensures behind { ReadsBehind S.view M.disk }
    ensures holds { HoldsBehind S.view M.disk }
{
    S::calls_go_on::<M>();
}

/// Calls that only read may run out of memory after it.
pub fn reads_run_short<S: Store<AllOps>, M: Machine>()
    ensures { ReadsShort S.view M.disk }
{
    S::calls_go_on::<M>();
}

/// Files stand for one store, and for one state of it.
pub fn files_stand_for_one_state()
    ensures store { (p q : Params) (files : Files) (commands others : List Command) → Stands all_meaning p files commands → Stands all_meaning q files others → p ≡ q }
    ensures state { (p q : Params) (files : Files) (commands others : List Command) → Stands all_meaning p files commands → Stands all_meaning q files others →
        HaveOneState (meaning_in p) commands others }
{
    one_state::<AllOps>();
}
