// What goes on beside a backup.
ghost use Rattle.std.specs.Prelude.{◌≡◌, ℕ, List, take};
ghost use Rattle.formats.specs.declared.params.Params.{Params};
ghost use Rattle.explain_core.specs.Backup.{backup_of, installed_in_copy};
ghost use Rattle.explain_core.specs.Explains.{Explains};
ghost use Rattle.explain_core.specs.History.{accesses_of, value_at};
ghost use Rattle.explain_core.specs.RunLaws.{Begins};
ghost use Rattle.explain_core.specs.World.{Step, World, run};
ghost use Rattle.store_engine.specs.Beside.{MayGoBeside};
ghost use Rattle.store_engine.specs.Engine.{EngineView, ShowsIn, so_far};
ghost use Rattle.store_engine.specs.Lists.{commands_course};
ghost use Rattle.store_engine.specs.Store.{meaning_in};
ghost use Rattle.backup_copy.specs.Copies.{Copies};

use disk_model::Machine;
use oper_core::Oper;

/// A backup goes on beside the calls of the engine: where a call on an engine that shows a world takes some first steps of a
/// course that may go beside a copy, as [`store_engine::calls_go_beside_a_copy`] says of each but a trim, or runs commands, one
/// after the other, the copying stands as it stood. The target is not touched.
pub fn copies_go_on<O: Oper, M: Machine, T: Machine>()
    ensures steps { (p : Params) (old new : M) (before after : EngineView) (w : World O) (steps taken : List (Step O)) (t : T) →
        Copies O.meaning p (M.disk old) before w (T.disk t) → MayGoBeside (meaning_in O.meaning p) (so_far before.copied) w steps → Begins steps taken →
        ShowsIn O.meaning p (M.disk new) after (run (meaning_in O.meaning p) w taken) → after.copied ≡ before.copied →
        Copies O.meaning p (M.disk new) after (run (meaning_in O.meaning p) w taken) (T.disk t) }
    ensures commands { (p : Params) (old new : M) (before after : EngineView) (w : World O) (limit used : ℕ) (ops : List O) (t : T) →
        Copies O.meaning p (M.disk old) before w (T.disk t) →
        ShowsIn O.meaning p (M.disk new) after (run (meaning_in O.meaning p) w (commands_course (meaning_in O.meaning p) limit ops w used).steps) → after.copied ≡ before.copied →
        Copies O.meaning p (M.disk new) after (run (meaning_in O.meaning p) w (commands_course (meaning_in O.meaning p) limit ops w used).steps) (T.disk t) }
{
    store_engine::a_copy_goes_on::<O, M>();
}

/// So at each step the cells that were copied, with the live slots of the objects that are not copied yet, are explained by the
/// installed members without those that the copy is too old for. This is what the order of the installs is for.
pub fn the_copy_is_explained<O: Oper, M: Machine, T: Machine>()
    ensures { (p : Params) (now : M) (engine : EngineView) (w : World O) (t : T) → (is : Copies O.meaning p (M.disk now) engine w (T.disk t)) →
        Explains (accesses_of (meaning_in O.meaning p) (take w.forced w.history)) (value_at (meaning_in O.meaning p) (take w.forced w.history))
        (installed_in_copy (meaning_in O.meaning p) w is.done is.cells) (backup_of is.done is.cells w.slots) }
{
    explain_core::copy_stands::<O>();
}
