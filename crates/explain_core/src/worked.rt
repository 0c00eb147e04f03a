ghost use Rattle.std.specs.Prelude.{ℕ, ◌≡◌, ◌∷◌, [], ◌++◌, List, Bool, true, false, None, Some, take};
ghost use Rattle.oper_core.specs.Meaning.{IsSmall, state_after};
ghost use Rattle.oper_core.specs.declared.bounds.Bounds.{Bounds};
ghost use Rattle.explain_core.specs.declared.byte_op.ByteOp.{ByteOp};
ghost use Rattle.explain_core.specs.ByteOps.{byte_meaning};
ghost use Rattle.explain_core.specs.History.Member.{Command};
ghost use Rattle.explain_core.specs.declared.byte_op.ByteOp.TheVariants.{Put};
ghost use Rattle.explain_core.specs.History.{accesses_of, value_at, commands_of};
ghost use Rattle.oper_core.specs.Cell.{Cell};
ghost use Rattle.explain_core.specs.Explains.{Explains};
ghost use Rattle.explain_core.specs.World.{World, Step, run, AreAllowed, IsLive, new_world, redo_of, replays, plan_of};
ghost use Rattle.explain_core.specs.Sound.{IsSound};
ghost use Rattle.explain_core.specs.Group.{groups_of};
ghost use Rattle.explain_core.specs.Worked.{two, swapped, half_flushed, after_steps, swap_node, swap_logged, swap_flushed, swap_removed, swap_checkpointed, swap_redone, swap_installed, swap_redone_again, group_opened, group_lost, group_kept, identity_node, both_copied, copied_flushed, stale_copied};
ghost use Rattle.explain_core.specs.World.Step.{Slot_gate};
ghost use Rattle.explain_core.specs.Backup.{MayWhileCopied, backup_of, installed_in_copy};

use crate::{
    ByteOp, append_keeps, begin_keeps, block_gate_keeps, checkpoint_keeps, copy_stands,
    copying_goes_on, crash_keeps, crash_takes_the_group, end_keeps, every_run_keeps,
    exactly_no_edge, forced_splits_no_group, graph_is_within, header_gate_keeps,
    history_gives_the_map, live_cache_is_the_map, minimal_nodes_are_whole, one_state,
    redo_gives_the_map, removal_keeps, replay_keeps, slot_gate_keeps, some_node_is_minimal,
    stable_parts_stand, turns_keep, wider_bounds_keep_stable_parts,
};

/// The laws at one operation type: every run of small operations from a new store is sound, and replayed to its end it
/// has the state after its commands in its cache.
pub fn runs_of_bytes()
    ensures sound { (b : Bounds) (steps : List (Step ByteOp)) → IsSmall b →
        AreAllowed (byte_meaning b) (new_world ByteOp) steps →
        IsSound (byte_meaning b) (run (byte_meaning b) (new_world ByteOp) steps) }
    ensures map { (b : Bounds) (w : World ByteOp) (x : ℕ) → IsSmall b → IsSound (byte_meaning b) w →
        ((run (byte_meaning b) w (redo_of w)).cache x).value ≡ state_after (byte_meaning b) (commands_of w.history) x }
{
    begin_keeps::<ByteOp>();
    end_keeps::<ByteOp>();
    append_keeps::<ByteOp>();
    block_gate_keeps::<ByteOp>();
    checkpoint_keeps::<ByteOp>();
    slot_gate_keeps::<ByteOp>();
    removal_keeps::<ByteOp>();
    header_gate_keeps::<ByteOp>();
    replay_keeps::<ByteOp>();
    crash_keeps::<ByteOp>();
    every_run_keeps::<ByteOp>();
    history_gives_the_map::<ByteOp>();
    live_cache_is_the_map::<ByteOp>();
    redo_gives_the_map::<ByteOp>();
    stable_parts_stand::<ByteOp>();
    one_state::<ByteOp>();
    wider_bounds_keep_stable_parts::<ByteOp>();
    turns_keep::<ByteOp>();
    copying_goes_on::<ByteOp>();
    copy_stands::<ByteOp>();
    forced_splits_no_group::<ByteOp>();
    crash_takes_the_group::<ByteOp>();
    exactly_no_edge::<ByteOp>();
    minimal_nodes_are_whole::<ByteOp>();
    some_node_is_minimal::<ByteOp>();
    graph_is_within::<ByteOp>();
}

/// Why two objects of one node are not flushed one after the other: with one half of the swap in its slot, no set of
/// installed records explains the slots.
pub fn half_a_swap_is_not_explained()
    ensures { (installed : ℕ → Bool) →
        Explains (accesses_of (byte_meaning two) swapped) (value_at (byte_meaning two) swapped) installed half_flushed → ⊥ }
{}

/// Two objects are put and swapped; 1 is logged as an identity write, 0 is flushed, and the swap's node is removed.
pub fn swap_is_flushed()
    ensures allowed { AreAllowed (byte_meaning two) (new_world ByteOp) swap_removed }
    ensures slots { ((after_steps swap_removed).slots 0 ≡ record { lsn = 3; value = 187 ∷ [] })
        × ((after_steps swap_removed).slots 1 ≡ record { lsn = 0; value = [] }) }
    ensures cache { ((after_steps swap_removed).cache 0 ≡ record { lsn = 3; value = 187 ∷ [] })
        × ((after_steps swap_removed).cache 1 ≡ record { lsn = 4; value = 170 ∷ [] }) }
    // only the identity write is left to install
    ensures graph { ((after_steps swap_removed).graph 1 ≡ false) × ((after_steps swap_removed).graph 2 ≡ false)
        × ((after_steps swap_removed).graph 3 ≡ false) × ((after_steps swap_removed).graph 4 ≡ true) }
    ensures map { (x : ℕ) → ((after_steps swap_removed).cache x).value
        ≡ state_after (byte_meaning two) (commands_of (after_steps swap_removed).history) x }
{}

/// Then a checkpoint is taken and forced, the log is cut before the identity write, and the store stops: the redo begins
/// with that record, and needs it for 1 alone.
pub fn swap_is_checkpointed()
    ensures allowed { AreAllowed (byte_meaning two) (new_world ByteOp) swap_checkpointed }
    ensures plan { ((plan_of (after_steps swap_checkpointed).tables 4).redo_from 0 ≡ 5)
        × ((plan_of (after_steps swap_checkpointed).tables 4).redo_from 1 ≡ 4)
        × ((plan_of (after_steps swap_checkpointed).tables 4).next ≡ 5) }
    ensures base { ((after_steps swap_checkpointed).base ≡ 4) × ((after_steps swap_checkpointed).commands_before ≡ 3)
        × ((after_steps swap_checkpointed).next ≡ 4) }
    ensures map { (x : ℕ) → ((run (byte_meaning two) (after_steps swap_checkpointed) (redo_of (after_steps swap_checkpointed))).cache x).value
        ≡ state_after (byte_meaning two) (commands_of (after_steps swap_checkpointed).history) x }
{}

/// The same, stopped just after the flush and replayed.
pub fn swap_is_redone()
    ensures allowed { AreAllowed (byte_meaning two) (new_world ByteOp) (swap_redone 4) }
    // the slot of 0 is newer than the first put, which is skipped
    ensures skipped { ((after_steps (swap_redone 1)).cache 0 ≡ record { lsn = 3; value = 187 ∷ [] })
        × ((after_steps (swap_redone 1)).graph 1 ≡ false) }
    ensures applied { ((after_steps (swap_redone 2)).cache 1 ≡ record { lsn = 2; value = 187 ∷ [] })
        × ((after_steps (swap_redone 2)).graph 2 ≡ true) }
    // the swap finds its own result in 0, and so makes bb of 1, where it had made aa
    ensures wrong { (after_steps (swap_redone 3)).cache 1 ≡ record { lsn = 3; value = 187 ∷ [] } }
    // nobody reads it before the identity write makes it right
    ensures healed { ((after_steps (swap_redone 4)).cache 0 ≡ record { lsn = 3; value = 187 ∷ [] })
        × ((after_steps (swap_redone 4)).cache 1 ≡ record { lsn = 4; value = 170 ∷ [] }) }
    ensures live { IsLive (after_steps (swap_redone 4)) }
    ensures map { (x : ℕ) → ((after_steps (swap_redone 4)).cache x).value
        ≡ state_after (byte_meaning two) (commands_of (after_steps (swap_redone 4)).history) x }
{}

/// The same, with an install in the middle of the redo: it writes a wrong value to the slot of 1, which nobody reads
/// before the identity write is replayed, in this redo and in one after a further stop.
pub fn swap_is_installed_in_a_redo()
    ensures allowed { AreAllowed (byte_meaning two) (new_world ByteOp) (swap_installed ++ replays 1) }
    ensures wrong { (after_steps swap_installed).slots 1 ≡ record { lsn = 3; value = 187 ∷ [] } }
    ensures map { (x : ℕ) → ((after_steps (swap_installed ++ replays 1)).cache x).value
        ≡ state_after (byte_meaning two) (commands_of (after_steps (swap_installed ++ replays 1)).history) x }
    ensures allowed_again { AreAllowed (byte_meaning two) (new_world ByteOp) (swap_redone_again 4) }
    ensures healed { ((after_steps (swap_redone_again 4)).cache 0 ≡ record { lsn = 3; value = 187 ∷ [] })
        × ((after_steps (swap_redone_again 4)).cache 1 ≡ record { lsn = 4; value = 170 ∷ [] }) }
    ensures map_again { (x : ℕ) → ((after_steps (swap_redone_again 4)).cache x).value
        ≡ state_after (byte_meaning two) (commands_of (after_steps (swap_redone_again 4)).history) x }
{}

/// After one put that is forced, a group of a put and a swap: where the store stops within it, nothing of it is left;
/// where it ends and is forced first, all of it is.
pub fn group_is_lost_or_kept()
    ensures lost_allowed { AreAllowed (byte_meaning two) (new_world ByteOp) group_lost }
    ensures inside { ((after_steps group_opened).group ≡ Some 2) × ((after_steps group_opened).cache 0 ≡ record { lsn = 3; value = 187 ∷ [] })
        × ((after_steps group_opened).cache 1 ≡ record { lsn = 3; value = 170 ∷ [] }) }
    ensures lost { ((after_steps group_lost).group ≡ None) × ((after_steps group_lost).cache 0 ≡ record { lsn = 1; value = 170 ∷ [] })
        × ((after_steps group_lost).cache 1 ≡ record { lsn = 0; value = [] }) }
    ensures lost_history { ((after_steps group_lost).history ≡ Command (Put 0 170) ∷ []) × ((after_steps group_lost).forced ≡ 1) }
    ensures lost_groups { groups_of (byte_meaning two) (new_world ByteOp) [] group_lost ≡ [] }
    ensures lost_map { (x : ℕ) → ((after_steps group_lost).cache x).value
        ≡ state_after (byte_meaning two) (commands_of (after_steps group_lost).history) x }
    ensures kept_allowed { AreAllowed (byte_meaning two) (new_world ByteOp) (group_kept 3) }
    ensures kept { ((after_steps (group_kept 3)).cache 0 ≡ record { lsn = 3; value = 187 ∷ [] })
        × ((after_steps (group_kept 3)).cache 1 ≡ record { lsn = 3; value = 170 ∷ [] }) }
    ensures kept_groups { groups_of (byte_meaning two) (new_world ByteOp) [] (group_kept 3)
        ≡ record { begun = 2; ended = 4 } ∷ [] }
    ensures kept_map { (x : ℕ) → ((after_steps (group_kept 3)).cache x).value
        ≡ state_after (byte_meaning two) (commands_of (after_steps (group_kept 3)).history) x }
{}

/// Both slots are copied after the removal of the swap's node, and then the identity write of 1 is installed: the copy
/// has the old slot of 1, and is explained by the members before that write, which a redo from the copy applies.
pub fn identity_is_flushed_beside_a_copy()
    ensures allowed { AreAllowed (byte_meaning two) (new_world ByteOp) copied_flushed }
    ensures rule { MayWhileCopied (after_steps swap_removed) 2 (Slot_gate identity_node 1) }
    ensures slot { ((after_steps copied_flushed).slots 1 ≡ record { lsn = 4; value = 170 ∷ [] })
        × (both_copied 0 ≡ record { lsn = 3; value = 187 ∷ [] }) × (both_copied 1 ≡ record { lsn = 0; value = [] }) }
    ensures installed { ((after_steps copied_flushed).installed 4 ≡ true)
        × (installed_in_copy (byte_meaning two) (after_steps copied_flushed) 2 both_copied 4 ≡ false)
        × (installed_in_copy (byte_meaning two) (after_steps copied_flushed) 2 both_copied 3 ≡ true) }
    ensures explained { Explains (accesses_of (byte_meaning two) (take 4 (after_steps copied_flushed).history))
        (value_at (byte_meaning two) (take 4 (after_steps copied_flushed).history))
        (installed_in_copy (byte_meaning two) (after_steps copied_flushed) 2 both_copied)
        (backup_of 2 both_copied (after_steps copied_flushed).slots) }
{}

/// Why the slot of a copied object is set from an identity write alone: where 0 is copied before the swap's node is
/// flushed, and 1 after the identity write is, no set of installed records explains the copy.
pub fn stale_copy_is_not_explained()
    ensures cells { (stale_copied 0 ≡ record { lsn = 0; value = [] }) × (stale_copied 1 ≡ record { lsn = 4; value = 170 ∷ [] }) }
    ensures rule { MayWhileCopied (after_steps swap_logged) 1 (Slot_gate swap_node 0) → ⊥ }
    ensures unexplained { (installed : ℕ → Bool) →
        Explains (accesses_of (byte_meaning two) (after_steps copied_flushed).history)
        (value_at (byte_meaning two) (after_steps copied_flushed).history) installed
        (backup_of 2 stale_copied (after_steps copied_flushed).slots) → ⊥ }
{}
