ghost use Rattle.std.specs.Prelude.{◌≡◌, ◌^◌, true, false, [], ◌∷◌};
ghost use Rattle.explain_core.specs.History.Member.{Identity};
ghost use Rattle.explain_core.specs.World.Step.{Append, Block_gate, Slot_gate, Removal};
ghost use Rattle.running_store.specs.Courses.{course};
ghost use Rattle.cache_manager.specs.InstallCourses.{logged_in, removals, flushed_in, members_removed};
ghost use Rattle.running_store.specs.Courses.Stop.{Through, Full};
ghost use Rattle.running_store.specs.Running.{IsRunning, MayBeTaken};
ghost use Rattle.cache_manager.specs.Worked.{two_objects, both_put, install_both, drain_both, swap_node, install_one_put, drain_apart};

use crate::install_may_be_taken;
use explain_core::ByteOp;

/// Two objects of one node, put and swapped: the values are equally long, so 1 is logged, and 0 is flushed.
pub fn a_swap_is_installed()
    ensures running { IsRunning two_objects both_put }
    ensures taken { MayBeTaken two_objects both_put (install_both 74).steps }
    ensures install { install_both 74
        ≡ course (Append (Identity 1 (170 ∷ [])) ∷ Block_gate ∷ Slot_gate swap_node 0 ∷ Removal swap_node ∷ []) 92 Through }
    // the identity write is no member of the node
    ensures node { (swap_node 1 ≡ true) × (swap_node 2 ≡ true) × (swap_node 3 ≡ true) × (swap_node 4 ≡ false) }
    ensures members { members_removed two_objects both_put (install_both 74).steps ≡ 3 }
    // the drain installs it after the swap's node, and logs nothing more
    ensures drain { (removals drain_both.steps ≡ 2) × (logged_in drain_both.steps ≡ 1 ∷ []) × (drain_both.used ≡ 92)
        × (drain_both.stop ≡ Through) }
    // where the log has no room for the identity write, what waits is forced
    ensures full { install_both (2 ^ 48) ≡ course (Block_gate ∷ []) (2 ^ 48) (Full (2 ^ 48) 23 (2 ^ 48)) }
{
    explain_core::every_run_keeps::<ByteOp>();
    install_may_be_taken::<ByteOp>();
}

/// The longer value is kept, and the empty one is logged.
pub fn the_longer_value_is_flushed()
    ensures flushed { flushed_in install_one_put.steps ≡ 1 ∷ [] }
    ensures logged { logged_in install_one_put.steps ≡ 0 ∷ [] }
    ensures used { install_one_put.used ≡ 79 }
{}

/// Objects of different nodes are flushed one after the other, and nothing is logged.
pub fn nodes_of_one_object_log_nothing()
    ensures { (removals drain_apart.steps ≡ 2) × (logged_in drain_apart.steps ≡ []) × (drain_apart.used ≡ 62) }
{}
