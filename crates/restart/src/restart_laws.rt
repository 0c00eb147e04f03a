ghost use Rattle.std.specs.Prelude.{◌≡◌, ℕ};
ghost use Rattle.disk_model.specs.Disk.{Files};
ghost use Rattle.disk_model.specs.declared.machine.FileNo.{FileNo};
ghost use Rattle.oper_core.specs.Meaning.{IsSmall};
ghost use Rattle.oper_core.specs.declared.bounds.Bounds.{Bounds};
ghost use Rattle.formats.specs.FirstFault.{IsDamaged};
ghost use Rattle.formats.specs.Image.{IsFault};
ghost use Rattle.explain_core.specs.Sound.{IsSound};
ghost use Rattle.explain_core.specs.World.{World, run, AreAllowed};
ghost use Rattle.explain_core.specs.declared.marks.Marks.{Marks};
ghost use Rattle.restart.specs.Courses.{restart_course};
ghost use Rattle.restart.specs.Reopened.{IsReopened};
ghost use Rattle.restart.specs.WellFormed.{IsWellFormed};

use oper_core::Oper;

/// A restart may be made in every sound world, whenever the store stops. After it calls may be made, the commands are those
/// that were stable, and each of them is.
pub fn a_restart_may_be_made<O: Oper>()
    ensures allowed { (b : Bounds) (w : World O) (marks : Marks) (used : ℕ) → IsSmall b → IsSound (O.meaning b) w →
        AreAllowed (O.meaning b) w (restart_course (O.meaning b) marks w used).steps }
    ensures reopened { (b : Bounds) (w : World O) (marks : Marks) (used : ℕ) → IsSmall b → IsSound (O.meaning b) w →
        IsReopened (O.meaning b) w (run (O.meaning b) w (restart_course (O.meaning b) marks w used).steps) }
{
    explain_core::crash_keeps::<O>();
    explain_core::turns_keep::<O>();
    redo_pass::a_redo_leaves_nothing::<O>();
    checkpointing::closing_checkpoint_may_be_taken::<O>();
}

/// Files are damaged in one file at one place, that of the first check that fails, where they break their format; files
/// that meet their format nowhere.
pub fn one_damage<O: Oper>()
    ensures place { (files : Files) (file other : FileNo) (place at : ℕ) →
        IsDamaged O.meaning files file place → IsDamaged O.meaning files other at → (file ≡ other) × (place ≡ at) }
    ensures fault { (files : Files) (file : FileNo) (place : ℕ) → IsDamaged O.meaning files file place → IsFault O.meaning files file place }
    ensures none { (files : Files) (file : FileNo) (place : ℕ) → IsWellFormed O.meaning files → IsDamaged O.meaning files file place → ⊥ }
{}
