ghost use Rattle.std.specs.Prelude.{ℕ, ◌+◌, List, [], ◌∷◌, take};
ghost use Rattle.oper_core.specs.declared.bounds.Bounds.{Bounds};
ghost use Rattle.oper_core.specs.Meaning.{IsSmall};
ghost use Rattle.explain_core.specs.History.{accesses_of, value_at};
ghost use Rattle.oper_core.specs.Cell.{Cell};
ghost use Rattle.explain_core.specs.Explains.{Explains};
ghost use Rattle.explain_core.specs.World.{World, Step, step, run, IsAllowed, AreAllowed, plan_of};
ghost use Rattle.explain_core.specs.Sound.{IsSound};
ghost use Rattle.explain_core.specs.Stable.{IsStableOf};
ghost use Rattle.explain_core.specs.Backup.{AreBeside, IsCopied, MayWhileCopied, with_next, backup_of, installed_in_copy, copy_of};

use oper_core::Oper;

/// The slots of a sound world may be copied one after the other while it goes on: at first none is, each step that is
/// allowed meanwhile leaves what was copied, and the next object may be copied at any time.
pub fn copying_goes_on<O: Oper>()
    ensures none { (b : Bounds) (w : World O) (cells : ℕ → Cell) → IsCopied (O.meaning b) w 0 cells }
    ensures step { (b : Bounds) (w : World O) (next : Step O) (copied : ℕ) (cells : ℕ → Cell) →
        IsSound (O.meaning b) w → IsCopied (O.meaning b) w copied cells →
        IsAllowed (O.meaning b) w next → MayWhileCopied w copied next →
        IsCopied (O.meaning b) (step (O.meaning b) w next) copied cells }
    ensures more { (b : Bounds) (w : World O) (copied : ℕ) (cells : ℕ → Cell) →
        IsSound (O.meaning b) w → IsCopied (O.meaning b) w copied cells →
        IsCopied (O.meaning b) w (copied + 1) (with_next w copied cells) }
{}

/// The copied cells, with the live slots of the objects that are not copied yet, are explained by the installed members
/// without those that the copy is too old for; and with the live log, without its checkpoints or with one that asks for all
/// records, they are the stable parts of the same history.
pub fn copy_stands<O: Oper>()
    ensures explained { (b : Bounds) (w : World O) (copied : ℕ) (cells : ℕ → Cell) →
        IsSound (O.meaning b) w → IsCopied (O.meaning b) w copied cells →
        Explains (accesses_of (O.meaning b) (take w.forced w.history)) (value_at (O.meaning b) (take w.forced w.history))
        (installed_in_copy (O.meaning b) w copied cells) (backup_of copied cells w.slots) }
    ensures stands { (b : Bounds) (w : World O) (copied : ℕ) (cells : ℕ → Cell) →
        IsSound (O.meaning b) w → IsCopied (O.meaning b) w copied cells →
        IsStableOf (O.meaning b) (copy_of w copied cells []) (take w.forced w.history)
        (installed_in_copy (O.meaning b) w copied cells) }
    ensures with_checkpoint { (b : Bounds) (w : World O) (copied : ℕ) (cells : ℕ → Cell) →
        IsSound (O.meaning b) w → IsCopied (O.meaning b) w copied cells →
        IsStableOf (O.meaning b) (copy_of w copied cells (plan_of [] w.base ∷ [])) (take w.forced w.history)
        (installed_in_copy (O.meaning b) w copied cells) }
{}

/// The cells that were copied stay a copy under every list of steps that may be taken beside it, and meanwhile they are
/// explained, with the live slots of the objects that are not copied yet.
pub fn copy_stays<O: Oper>()
    ensures steps { (b : Bounds) (copied : ℕ) (cells : ℕ → Cell) (w : World O) (steps : List (Step O)) → IsSmall b →
        IsSound (O.meaning b) w → IsCopied (O.meaning b) w copied cells → AreAllowed (O.meaning b) w steps → AreBeside (O.meaning b) copied w steps →
        IsCopied (O.meaning b) (run (O.meaning b) w steps) copied cells }
    ensures explained { (b : Bounds) (copied : ℕ) (cells : ℕ → Cell) (w : World O) (steps : List (Step O)) → IsSmall b →
        IsSound (O.meaning b) w → IsCopied (O.meaning b) w copied cells → AreAllowed (O.meaning b) w steps → AreBeside (O.meaning b) copied w steps →
        Explains (accesses_of (O.meaning b) (take (run (O.meaning b) w steps).forced (run (O.meaning b) w steps).history))
        (value_at (O.meaning b) (take (run (O.meaning b) w steps).forced (run (O.meaning b) w steps).history))
        (installed_in_copy (O.meaning b) (run (O.meaning b) w steps) copied cells) (backup_of copied cells (run (O.meaning b) w steps).slots) }
{
    copying_goes_on::<O>();
    copy_stands::<O>();
    crate::every_run_keeps::<O>();
}
