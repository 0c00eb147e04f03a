// What files stand for is fixed by the files.
ghost use Rattle.std.specs.Prelude.{◌≡◌, List};
ghost use Rattle.disk_model.specs.Disk.{Files};
ghost use Rattle.formats.specs.Objects.{bounds_of};
ghost use Rattle.standing.specs.Standing.{StandsFor};
ghost use Rattle.formats.specs.declared.params.Params.{Params};
ghost use Rattle.store_engine.specs.Uniqueness.{HaveOneState};

use oper_core::Oper;

/// Files stand for one store, and for at most one state of it: whatever lists of commands they stand for are of one
/// length, and the states after them are equal.
pub fn one_state<O: Oper>()
    ensures params { (p q : Params) (files : Files) (commands others : List O) →
        StandsFor O.meaning p files commands → StandsFor O.meaning q files others → p ≡ q }
    ensures state { (p q : Params) (files : Files) (commands others : List O) →
        StandsFor O.meaning p files commands → StandsFor O.meaning q files others →
        HaveOneState (O.meaning (bounds_of p)) commands others }
{
    standing::files_hold_one_store::<O>();
    standing::files_stand_for_one_state::<O>();
}
