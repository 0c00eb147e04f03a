ghost use Rattle.std.specs.Prelude.{◌≡◌, List, [], ◌∷◌};
ghost use Rattle.disk_model.specs.declared.machine.FileNo.TheVariants.{Objects};
ghost use Rattle.log_blocks.specs.Creating.{IsNewLog};
ghost use Rattle.stable_objects.specs.Making.{IsNewFile};
ghost use Rattle.explain_core.specs.ByteOps.{byte_meaning};
ghost use Rattle.explain_core.specs.Sound.{IsSound};
ghost use Rattle.explain_core.specs.World.{AreAllowed, new_world};
ghost use Rattle.explain_core.specs.declared.byte_op.ByteOp.{ByteOp};
ghost use Rattle.explain_core.specs.declared.byte_op.ByteOp.TheVariants.{Put};
ghost use Rattle.standing.specs.Standing.{FilesShow, StandsFor, stored};
ghost use Rattle.standing.specs.Worked.{small, small_meaning, small_steps, after_steps, right_checkpoint, skipping_checkpoint, files_with, rewritten_files, new_files};

use crate::{
    checkpoints_of_a_log_fit, files_hold_one_store, files_show_a_world, files_stand_for_one_state,
    image_stands, new_files_stand_for_nothing, same_parts_stand_for_the_same,
    standing_files_have_no_fault, unseen_steps_change_nothing,
};
use explain_core::{ByteOp, runs_of_bytes};

/// The bytes of a small store show the world after a command that is installed, an identity write that is not, and a
/// checkpoint; so they stand for the command.
pub fn a_small_store_stands()
    ensures allowed { AreAllowed small_meaning (new_world ByteOp) small_steps }
    ensures sound { IsSound small_meaning (after_steps small_steps) }
    ensures cells { (stored small (files_with right_checkpoint Objects) 0 ≡ record { lsn = 1; value = 170 ∷ [] })
        × (stored small (files_with right_checkpoint Objects) 1 ≡ record { lsn = 0; value = [] }) }
    ensures shows { FilesShow small_meaning small (files_with right_checkpoint) (after_steps small_steps) }
    ensures stands { StandsFor byte_meaning small (files_with right_checkpoint) (Put 0 170 ∷ []) }
{
    runs_of_bytes();
    image_stands::<ByteOp>();
    files_show_a_world::<ByteOp>();
    files_hold_one_store::<ByteOp>();
    files_stand_for_one_state::<ByteOp>();
    new_files_stand_for_nothing::<ByteOp>();
    same_parts_stand_for_the_same::<ByteOp>();
    standing_files_have_no_fault::<ByteOp>();
    unseen_steps_change_nothing::<ByteOp>();
    checkpoints_of_a_log_fit::<ByteOp>();
}

/// The log is the one in force, in whichever file it stands: rewritten into the other file with a greater epoch it says
/// the same, and what is in the first one does not matter any more.
pub fn a_rewritten_log_stands_for_the_same()
    ensures shows { FilesShow small_meaning small rewritten_files (after_steps small_steps) }
    ensures stands { StandsFor byte_meaning small rewritten_files (Put 0 170 ∷ []) }
{
    a_small_store_stands();
    image_stands::<ByteOp>();
}

/// The bytes of a new store show the world of a new store, and stand for no commands.
pub fn a_new_store_stands_for_nothing()
    ensures whole { IsNewFile small (new_files Objects) × IsNewLog new_files }
    ensures shows { FilesShow small_meaning small new_files (new_world ByteOp) }
    ensures stands { StandsFor byte_meaning small new_files [] }
{
    new_files_stand_for_nothing::<ByteOp>();
}

/// Why a checkpoint has to name the first record that is not installed: with one that names none, the same store stands for
/// no commands.
pub fn a_skipping_checkpoint_stands_for_nothing()
    ensures { (commands : List ByteOp) → StandsFor byte_meaning small (files_with skipping_checkpoint) commands → ⊥ }
{}
