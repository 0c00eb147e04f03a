ghost use Rattle.std.specs.Prelude.{◌≡◌, ◌^◌, [], ◌∷◌};
ghost use Rattle.explain_core.specs.World.Step.{Block_gate, Checkpoint, Header_gate};
ghost use Rattle.running_store.specs.Courses.{course};
ghost use Rattle.running_store.specs.Courses.Stop.{Full, Through, Worn};
ghost use Rattle.checkpointing.specs.Worked.{checkpoint_both, closing_both, trim_both, trim_one};

/// Two objects are put and not installed: a checkpoint has a start for each, so its record has 37 bytes, which go into the block
/// that waits.
pub fn a_checkpoint_has_two_starts()
    ensures logged { checkpoint_both 62 ≡ course (Checkpoint ∷ Block_gate ∷ []) 99 Through }
    ensures closing { closing_both 62 ≡ course (Checkpoint ∷ Block_gate ∷ []) 99 Through }
    // where the log has no room for it, what waits is forced; at the end of a restart nothing is
    ensures full { checkpoint_both (2 ^ 48) ≡ course (Block_gate ∷ []) (2 ^ 48) (Full (2 ^ 48) 42 (2 ^ 48)) }
    ensures none { closing_both (2 ^ 48) ≡ course [] (2 ^ 48) Through }
{}

/// A trim leaves the records from the least one on that is not installed, and a checkpoint.
pub fn a_trim_keeps_what_is_not_installed()
    // all of them are kept, in one block with the checkpoint
    ensures both { trim_both 1 ≡ course (Block_gate ∷ Header_gate 1 ∷ []) 99 Through }
    // the first is installed, and all is forced: one record is kept, and the checkpoint has one start
    ensures one { trim_one ≡ course (Header_gate 2 ∷ []) 75 Through }
    // a log of the last epoch is not trimmed
    ensures worn { trim_both (2 ^ 62) ≡ course [] 62 (Worn (2 ^ 62)) }
{}
