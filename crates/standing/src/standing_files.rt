ghost use Rattle.std.specs.Prelude.{◌≡◌, ◌<◌, ◌≤◌, ◌+◌, ◌⊎◌, ℕ, Bool, IsTrue, IsFalse, List, [], ◌∷◌, length, take};
ghost use Rattle.std.specs.List.{AllByRecursion};
ghost use Rattle.disk_model.specs.Disk.{Files, OthersStay};
ghost use Rattle.disk_model.specs.declared.machine.FileNo.{FileNo};
ghost use Rattle.disk_model.specs.declared.machine.FileNo.TheVariants.{Objects};
ghost use Rattle.oper_core.specs.Cell.{Cell};
ghost use Rattle.oper_core.specs.Meaning.{AreWithin, state_after};
ghost use Rattle.formats.specs.Bytes.{IsOpenAt};
ghost use Rattle.formats.specs.Image.{IsFault};
ghost use Rattle.formats.specs.Objects.{IsObjectsFile, bounds_of, cell_of, place_in, lsn_at};
ghost use Rattle.formats.specs.declared.params.Params.{Params};
ghost use Rattle.log_blocks.specs.Creating.{IsNewLog};
ghost use Rattle.stable_objects.specs.Upgrades.Growing.{IsGrown};
ghost use Rattle.stable_objects.specs.Upgrades.Larger.{IsLarger};
ghost use Rattle.stable_objects.specs.Making.{IsNewFile};
ghost use Rattle.install_order.specs.Order.{Access};
ghost use Rattle.explain_core.specs.Backup.{IsCopied, copy_of};
ghost use Rattle.explain_core.specs.History.{commands_of};
ghost use Rattle.explain_core.specs.Sound.{IsSound, SkipsNothing};
ghost use Rattle.explain_core.specs.Stable.{Stable};
ghost use Rattle.explain_core.specs.World.{World, Step, Starts, step, new_world, plan_of};
ghost use Rattle.standing.specs.Shown.{next_held, commands_held, IsUnseen};
ghost use Rattle.standing.specs.Standing.{HoldsStable, FilesShow, StandsFor, IsFound};

use oper_core::Oper;

/// Files that show a sound world stand for the commands of its stable members.
pub fn image_stands<O: Oper>()
    ensures { (p : Params) (files : Files) (w : World O) → IsSound (O.meaning (bounds_of p)) w →
        FilesShow (O.meaning (bounds_of p)) p files w →
        StandsFor O.meaning p files (commands_of (take w.forced w.history)) }
{
    explain_core::stable_parts_stand::<O>();
}

/// Files that stand for commands show a sound world that has these commands, just after a crash.
pub fn files_show_a_world<O: Oper>()
    ensures { (p : Params) (files : Files) (commands : List O) → StandsFor O.meaning p files commands →
        (w : World O) × IsFound (O.meaning (bounds_of p)) p files commands w }
{
    explain_core::stable_parts_stand::<O>();
}

/// Files are those of one store, and hold one set of stable parts.
pub fn files_hold_one_store<O: Oper>()
    ensures params { (p q : Params) (files : Files) (a b : Stable O) →
        HoldsStable (O.meaning (bounds_of p)) p files a → HoldsStable (O.meaning (bounds_of q)) q files b → p ≡ q }
    ensures parts { (p q : Params) (files : Files) (a b : Stable O) →
        HoldsStable (O.meaning (bounds_of p)) p files a → HoldsStable (O.meaning (bounds_of q)) q files b → a ≡ b }
{}

/// Files stand for at most one state: whatever lists of commands they stand for are of one length, and the states after
/// them are equal. The length is what the log reports: the commands before its base, and its own.
pub fn files_stand_for_one_state<O: Oper>()
    ensures count { (p q : Params) (files : Files) (commands others : List O) →
        StandsFor O.meaning p files commands → StandsFor O.meaning q files others →
        length commands ≡ length others }
    ensures told { (p : Params) (files : Files) (commands : List O) (it : StandsFor O.meaning p files commands) →
        commands_held (O.meaning (bounds_of p)) p files it.parts it.holds ≡ length commands }
    ensures state { (p q : Params) (files : Files) (commands others : List O) (x : ℕ) →
        StandsFor O.meaning p files commands → StandsFor O.meaning q files others →
        state_after (O.meaning (bounds_of p)) commands x ≡ state_after (O.meaning (bounds_of q)) others x }
{
    files_hold_one_store::<O>();
    explain_core::one_state::<O>();
}

/// A step that changes no file leaves a sound world shown: an append, a checkpoint, a removal, a replay, a crash, and the
/// opening and the end of a group.
pub fn unseen_steps_change_nothing<O: Oper>()
    ensures { (p : Params) (files : Files) (w : World O) (next : Step O) → IsSound (O.meaning (bounds_of p)) w → IsUnseen next →
        FilesShow (O.meaning (bounds_of p)) p files w →
        FilesShow (O.meaning (bounds_of p)) p files (step (O.meaning (bounds_of p)) w next) }
{}

/// The files of a new store show the world of a new store, and so stand for no commands.
pub fn new_files_stand_for_nothing<O: Oper>()
    ensures shows { (p : Params) (files : Files) → IsNewFile p (files Objects) → IsNewLog files →
        FilesShow (O.meaning (bounds_of p)) p files (new_world O) }
    ensures stands { (p : Params) (files : Files) → IsNewFile p (files Objects) → IsNewLog files →
        StandsFor O.meaning p files [] }
{
    explain_core::every_run_keeps::<O>();
    image_stands::<O>();
}

/// Files that hold the stable parts of other files, for the same bounds or wider ones, stand for what those stand for.
pub fn same_parts_stand_for_the_same<O: Oper>()
    ensures { (p q : Params) (files others : Files) (parts : Stable O) (commands : List O) →
        AreWithin (bounds_of p) (bounds_of q) →
        HoldsStable (O.meaning (bounds_of p)) p files parts → HoldsStable (O.meaning (bounds_of q)) q others parts →
        StandsFor O.meaning p files commands → StandsFor O.meaning q others commands }
{
    files_hold_one_store::<O>();
    explain_core::wider_bounds_keep_stable_parts::<O>();
}

/// Files of which the objects file alone changed stand for the commands that they stood for, where each object has the pair that
/// it had, and, in the larger store, where that file grew.
pub fn a_changed_objects_file_stands<O: Oper>()
    ensures still { (p : Params) (old new : Files) (commands : List O) → OthersStay Objects old new → IsObjectsFile p (new Objects) →
        ((x : ℕ) → x < p.objects → cell_of x (new Objects) ≡ cell_of x (old Objects)) →
        StandsFor O.meaning p old commands → StandsFor O.meaning p new commands }
    ensures grown { (p q : Params) (old new : Files) (commands : List O) → IsLarger p q → OthersStay Objects old new →
        IsGrown p q (old Objects) (new Objects) → StandsFor O.meaning p old commands → StandsFor O.meaning q new commands }
{
    same_parts_stand_for_the_same::<O>();
}

/// Files that stand for commands meet their format: they have no fault, and each open slot has the LSN of a record
/// before the log's end.
pub fn standing_files_have_no_fault<O: Oper>()
    ensures whole { (p : Params) (files : Files) (commands : List O) (file : FileNo) (place : ℕ) →
        StandsFor O.meaning p files commands → IsFault O.meaning files file place → ⊥ }
    ensures late { (p : Params) (files : Files) (commands : List O) (it : StandsFor O.meaning p files commands)
        (x s : ℕ) → x < p.objects → s < 2 → IsOpenAt (place_in (files Objects) x s) (files Objects) →
        lsn_at (place_in (files Objects) x s) (files Objects)
        < next_held (O.meaning (bounds_of p)) p files it.parts it.holds }
{}

/// Of the checkpoints of a log the format says all but one thing: that no redo start is past a record that is not installed.
pub fn checkpoints_of_a_log_fit<O: Oper>()
    ensures { (p : Params) (files : Files) (parts : Stable O) (a : Access) (installed : ℕ → Bool) →
        HoldsStable (O.meaning (bounds_of p)) p files parts →
        AllByRecursion (λ t. (n x : ℕ) → IsFalse (installed n) → IsTrue (a.writes n x) → t.redo_from x ≤ n) parts.tables →
        AllByRecursion (SkipsNothing a installed parts.base (parts.base + length parts.records)) parts.tables }
{}

/// Files that hold the copied cells, the live slots of the others, and the live log without its checkpoints, or with one that asks
/// for all records, stand for the commands that are stable in the live store.
pub fn a_copy_stands<O: Oper>()
    ensures { (p : Params) (files : Files) (w : World O) (copied : ℕ) (cells : ℕ → Cell) (tables : List Starts) →
        IsSound (O.meaning (bounds_of p)) w → IsCopied (O.meaning (bounds_of p)) w copied cells →
        (tables ≡ []) ⊎ (tables ≡ plan_of [] w.base ∷ []) →
        HoldsStable (O.meaning (bounds_of p)) p files (copy_of w copied cells tables) →
        StandsFor O.meaning p files (commands_of (take w.forced w.history)) }
{
    explain_core::copy_stands::<O>();
}
