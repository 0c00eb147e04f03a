ghost use Rattle.std.specs.Prelude.{ℕ, ◌<◌, Bool, List};
ghost use Rattle.oper_core.specs.Meaning.{IsSmall, Accepts};
ghost use Rattle.oper_core.specs.declared.bounds.Bounds.{Bounds};
ghost use Rattle.explain_core.specs.History.Member.{Command, Identity};
ghost use Rattle.explain_core.specs.World.{World, Step, step, run, IsAllowed, AreAllowed, IsLive, NoGroup, new_world};
ghost use Rattle.explain_core.specs.World.Step.{Begin, End, Append, Block_gate, Checkpoint, Slot_gate, Removal, Header_gate, Replay, Crash};
ghost use Rattle.explain_core.specs.Sound.{IsSound};

use oper_core::Oper;

/// The opening of a group keeps a live world sound.
pub fn begin_keeps<O: Oper>()
    ensures { (b : Bounds) (w : World O) → IsSound (O.meaning b) w → IsAllowed (O.meaning b) w Begin →
        IsSound (O.meaning b) (step (O.meaning b) w Begin) }
{}

/// The end of a group keeps a world sound.
pub fn end_keeps<O: Oper>()
    ensures { (b : Bounds) (w : World O) → IsSound (O.meaning b) w → IsAllowed (O.meaning b) w End →
        IsSound (O.meaning b) (step (O.meaning b) w End) }
{}

/// The append of a command that is accepted on the cache keeps a live world sound, within a group too; so does, outside
/// groups, that of an identity write of the cache's value.
pub fn append_keeps<O: Oper>()
    ensures command { (b : Bounds) (w : World O) (op : O) → IsSound (O.meaning b) w → IsLive w →
        Accepts (O.meaning b) (λ x. (w.cache x).value) op →
        IsSound (O.meaning b) (step (O.meaning b) w (Append (Command op))) }
    ensures identity { (b : Bounds) (w : World O) (x : ℕ) → IsSound (O.meaning b) w → IsLive w → NoGroup w →
        x < b.objects →
        IsSound (O.meaning b) (step (O.meaning b) w (Append (Identity x (w.cache x).value))) }
{}

/// The opening of a block's gate keeps a live world sound.
pub fn block_gate_keeps<O: Oper>()
    ensures { (b : Bounds) (w : World O) → IsSound (O.meaning b) w → IsAllowed (O.meaning b) w Block_gate →
        IsSound (O.meaning b) (step (O.meaning b) w Block_gate) }
{}

/// A checkpoint keeps a live world sound.
pub fn checkpoint_keeps<O: Oper>()
    ensures { (b : Bounds) (w : World O) → IsSound (O.meaning b) w → IsAllowed (O.meaning b) w Checkpoint →
        IsSound (O.meaning b) (step (O.meaning b) w Checkpoint) }
{}

/// The opening of the gate of a minimal node's one slot keeps a world sound, also in the middle of a redo, where the
/// cache may have wrong values of unexposed objects.
pub fn slot_gate_keeps<O: Oper>()
    ensures { (b : Bounds) (w : World O) (node : ℕ → Bool) (x : ℕ) → IsSound (O.meaning b) w →
        IsAllowed (O.meaning b) w (Slot_gate node x) →
        IsSound (O.meaning b) (step (O.meaning b) w (Slot_gate node x)) }
{}

/// The removal of a minimal node with nothing to flush keeps a world sound, also in the middle of a redo.
pub fn removal_keeps<O: Oper>()
    ensures { (b : Bounds) (w : World O) (node : ℕ → Bool) → IsSound (O.meaning b) w →
        IsAllowed (O.meaning b) w (Removal node) →
        IsSound (O.meaning b) (step (O.meaning b) w (Removal node)) }
{}

/// The opening of a header's gate keeps a live world sound.
pub fn header_gate_keeps<O: Oper>()
    ensures { (b : Bounds) (w : World O) (base : ℕ) → IsSound (O.meaning b) w →
        IsAllowed (O.meaning b) w (Header_gate base) →
        IsSound (O.meaning b) (step (O.meaning b) w (Header_gate base)) }
{}

/// A replay of the next record keeps a world sound.
pub fn replay_keeps<O: Oper>()
    ensures { (b : Bounds) (w : World O) → IsSmall b → IsSound (O.meaning b) w →
        IsAllowed (O.meaning b) w Replay →
        IsSound (O.meaning b) (step (O.meaning b) w Replay) }
{}

/// A crash keeps every world sound, whenever it comes.
pub fn crash_keeps<O: Oper>()
    ensures { (b : Bounds) (w : World O) → IsSmall b → IsSound (O.meaning b) w →
        IsSound (O.meaning b) (step (O.meaning b) w Crash) }
{}

/// Every run of allowed steps keeps a world sound, and a new store's world is sound.
pub fn every_run_keeps<O: Oper>()
    ensures from_sound { (b : Bounds) (w : World O) (steps : List (Step O)) → IsSmall b → IsSound (O.meaning b) w →
        AreAllowed (O.meaning b) w steps → IsSound (O.meaning b) (run (O.meaning b) w steps) }
    ensures from_new { (b : Bounds) (steps : List (Step O)) → IsSmall b →
        AreAllowed (O.meaning b) (new_world O) steps →
        IsSound (O.meaning b) (run (O.meaning b) (new_world O) steps) }
{}
