// What the courses of upkeep do to a world, and how far they go.
ghost use Rattle.std.specs.Prelude.{◌≡◌, ◌⊎◌, ◌+◌, ◌<◌, ◌≤◌, ℕ, IsTrue, IsFalse, All, List, length};
ghost use Rattle.formats.specs.declared.params.Params.{Params as Numbers};
ghost use Rattle.oper_core.specs.Meaning.{IsSmall};
ghost use Rattle.oper_core.specs.State.{is_among};
ghost use Rattle.oper_core.specs.declared.bounds.Bounds.{Bounds};
ghost use Rattle.explain_core.specs.RoundGates.{IsGateAmong};
ghost use Rattle.explain_core.specs.Sound.{IsSound};
ghost use Rattle.explain_core.specs.Turns.{count_below, dirty_in, gate_at, is_due, round_gates};
ghost use Rattle.explain_core.specs.World.{World, run, end_of, node_named};
ghost use Rattle.running_store.specs.Courses.{force_course};
ghost use Rattle.cache_manager.specs.InstallCourses.{all_turns, identities, has_members, install_course, drain_course, logged_in, flushed_in, is_next_due, is_next_workless, is_unready, may_flush, must_log, others_in, readied, removals, round_course, turn_course, unready_nodes, work_in};
ghost use Rattle.cache_manager.specs.DueNodes.{IsRoundFrom, gates_at};
ghost use Rattle.running_store.specs.Courses.Stop.{Through};
ghost use Rattle.explain_core.specs.Backup.{AreBeside};
ghost use Rattle.cache_manager.specs.FewLogged.{AreFewLogged};
ghost use Rattle.running_store.specs.Parts.{ShowsVolatile, Volatile, meaning_in};
ghost use Rattle.running_store.specs.Steps.RoundImages.{objects_of};
ghost use Rattle.running_store.specs.Running.{IsRunning, MayBeTaken, IsDrained};

use oper_core::Oper;

/// A force may be made in every world in which calls are made.
pub fn force_may_be_taken<O: Oper>()
    ensures { (b : Bounds) (w : World O) (used : ℕ) → IsSmall b → IsRunning (O.meaning b) w →
        MayBeTaken (O.meaning b) w (force_course (O.meaning b) w used).steps }
{
    explain_core::every_run_keeps::<O>();
}

/// Identity writes of objects that there are may be made, with the forces between them, and also where they are stopped.
pub fn identities_may_be_taken<O: Oper>()
    ensures { (b : Bounds) (w : World O) (objects : List ℕ) (used : ℕ) → IsSmall b → IsRunning (O.meaning b) w →
        All (λ x. x < b.objects) objects →
        MayBeTaken (O.meaning b) w (identities (O.meaning b) objects w used).steps }
{
    explain_core::every_run_keeps::<O>();
}

/// An install may be made, also where it is stopped, and beside a copy of the slots, which has the objects below a number. No
/// object is logged twice in it, so its rounds end with a node that may be finished.
pub fn install_may_be_taken<O: Oper>()
    ensures { (b : Bounds) (copied : ℕ) (w : World O) (used : ℕ) → IsSmall b → IsRunning (O.meaning b) w →
        MayBeTaken (O.meaning b) w (install_course (O.meaning b) copied w used).steps }
{
    explain_core::every_run_keeps::<O>();
    install_order::last_blind_write_is_alone();
}

/// A drain may be made, also where it is stopped. Where nothing stops it, nothing is left in the graph, and no object is
/// dirty.
pub fn drain_may_be_taken<O: Oper>()
    ensures taken { (b : Bounds) (copied : ℕ) (w : World O) (used : ℕ) → IsSmall b → IsRunning (O.meaning b) w →
        MayBeTaken (O.meaning b) w (drain_course (O.meaning b) copied w used).steps }
    ensures drained { (b : Bounds) (copied : ℕ) (w : World O) (used : ℕ) → IsSmall b → IsRunning (O.meaning b) w →
        (drain_course (O.meaning b) copied w used).stop ≡ Through →
        IsDrained (run (O.meaning b) w (drain_course (O.meaning b) copied w used).steps) }
{
    explain_core::every_run_keeps::<O>();
    explain_core::a_round_may_be_taken::<O>();
    install_order::last_blind_write_is_alone();
}

/// An install logs different objects that are dirty, and where nothing is copied none or not all of them; it flushes one object at most,
/// and it removes one node, unless it is stopped or the graph has no member.
pub fn install_is_bounded<O: Oper>()
    ensures logged { (b : Bounds) (copied : ℕ) (w : World O) (used : ℕ) → IsSmall b → IsRunning (O.meaning b) w →
        AreFewLogged (O.meaning b) copied w (logged_in (install_course (O.meaning b) copied w used).steps) }
    ensures flushed { (b : Bounds) (copied : ℕ) (w : World O) (used : ℕ) →
        length (flushed_in (install_course (O.meaning b) copied w used).steps) ≤ 1 }
    ensures removed { (b : Bounds) (copied : ℕ) (w : World O) (used : ℕ) → removals (install_course (O.meaning b) copied w used).steps ≤ 1 }
    ensures one { (b : Bounds) (copied : ℕ) (w : World O) (used : ℕ) → IsTrue (has_members (O.meaning b) w) →
        (install_course (O.meaning b) copied w used).stop ≡ Through → removals (install_course (O.meaning b) copied w used).steps ≡ 1 }
{
    explain_core::every_run_keeps::<O>();
    install_order::last_blind_write_is_alone();
}

/// The same bound holds for all that a drain logs, and it removes at most as many nodes as the graph has members and there
/// are dirty objects together: a round of several nodes takes as many members out at least.
pub fn drain_is_bounded<O: Oper>()
    ensures logged { (b : Bounds) (copied : ℕ) (w : World O) (used : ℕ) → IsSmall b → IsRunning (O.meaning b) w →
        AreFewLogged (O.meaning b) copied w (logged_in (drain_course (O.meaning b) copied w used).steps) }
    ensures removed { (b : Bounds) (copied : ℕ) (w : World O) (used : ℕ) → IsSmall b → IsRunning (O.meaning b) w →
        removals (drain_course (O.meaning b) copied w used).steps
        ≤ count_below (end_of w) w.graph + dirty_in (O.meaning b) w }
{
    explain_core::every_run_keeps::<O>();
    explain_core::a_round_may_be_taken::<O>();
    install_order::last_blind_write_is_alone();
}

/// A turn may be made, of so many nodes at most, also where it is stopped: identity writes that make nodes ready, a round or an install,
/// and the removals of nodes that have no object to flush.
pub fn turn_may_be_taken<O: Oper>()
    ensures { (b : Bounds) (copied most : ℕ) (w : World O) (used : ℕ) → IsSmall b → IsRunning (O.meaning b) w →
        MayBeTaken (O.meaning b) w (turn_course (O.meaning b) copied most w used).steps }
{
    explain_core::every_run_keeps::<O>();
    explain_core::a_round_may_be_taken::<O>();
    install_order::last_blind_write_is_alone();
}

/// A turn that nothing stops has as many nodes as it may have, or the next one behind it has an object to flush, or none is left. Where
/// the next node has no object to flush, it is not due, and nothing stops the turn.
pub fn a_turn_goes_on<O: Oper>()
    ensures far { (b : Bounds) (copied most : ℕ) (w : World O) (used : ℕ) → let m = O.meaning b in let turn = turn_course m copied most w used in
        0 < most → turn.stop ≡ Through →
        (removals turn.steps ≡ most) ⊎ IsFalse (is_next_workless m (run m w turn.steps)) }
    ensures through { (b : Bounds) (copied most : ℕ) (w : World O) (used : ℕ) → let m = O.meaning b in
        IsTrue (is_next_workless m w) → IsFalse (is_next_due m copied w) × ((turn_course m copied most w used).stop ≡ Through) }
{}

/// The nodes that a turn may make ready are as many as it may have, or all minimal ones that may not be finished yet. Where the next node
/// may not be finished, identity writes are logged of each of them, of all that it has to flush but one object at most; where it may,
/// of none.
pub fn a_turn_readies_all<O: Oper>()
    ensures all { (b : Bounds) (copied most : ℕ) (w : World O) (n : ℕ) → let m = O.meaning b in let names = unready_nodes m copied most w in
        n < end_of w → IsTrue (is_unready m copied w n) → (length names ≡ most) ⊎ IsTrue (is_among n names) }
    ensures logged { (b : Bounds) (copied most : ℕ) (w : World O) (n : ℕ) → let m = O.meaning b in let node = node_named m w n in
        IsTrue (must_log m copied w) → IsTrue (is_among n (unready_nodes m copied most w)) →
        ((x : ℕ) → IsTrue (is_among x (others_in m copied w node)) → IsTrue (is_among x (readied m copied most w)))
        × (length (work_in m w node) ≤ length (others_in m copied w node) + 1) }
{}

/// Turns of one node or more come to an end: so many as the graph has members and there are dirty objects together leave nothing in
/// the graph and no object dirty, unless one of them is stopped. What they log is bounded as of a drain.
pub fn turns_are_bounded<O: Oper>()
    ensures ends { (b : Bounds) (copied most : ℕ) (w : World O) (used : ℕ) → IsSmall b → IsRunning (O.meaning b) w → 0 < most →
        (all_turns (O.meaning b) copied most w used).stop ≡ Through →
        IsDrained (run (O.meaning b) w (all_turns (O.meaning b) copied most w used).steps) }
    ensures logged { (b : Bounds) (copied most : ℕ) (w : World O) (used : ℕ) → IsSmall b → IsRunning (O.meaning b) w → 0 < most →
        AreFewLogged (O.meaning b) copied w (logged_in (all_turns (O.meaning b) copied most w used).steps) }
{
    explain_core::every_run_keeps::<O>();
    explain_core::a_round_may_be_taken::<O>();
    install_order::last_blind_write_is_alone();
}

/// The steps of an install, of a turn and of a drain beside a copy of the slots, which has the objects below a number, may be taken while
/// it is made: the slot of a copied object is set by a node of one identity write alone.
pub fn installs_go_beside_a_copy<O: Oper>()
    ensures install { (b : Bounds) (copied : ℕ) (w : World O) (used : ℕ) → IsSmall b → IsRunning (O.meaning b) w →
        AreBeside (O.meaning b) copied w (install_course (O.meaning b) copied w used).steps }
    ensures turn { (b : Bounds) (copied most : ℕ) (w : World O) (used : ℕ) → IsSmall b → IsRunning (O.meaning b) w →
        AreBeside (O.meaning b) copied w (turn_course (O.meaning b) copied most w used).steps }
    ensures drain { (b : Bounds) (copied : ℕ) (w : World O) (used : ℕ) → IsSmall b → IsRunning (O.meaning b) w →
        AreBeside (O.meaning b) copied w (drain_course (O.meaning b) copied w used).steps }
{
    explain_core::every_run_keeps::<O>();
    explain_core::a_round_may_be_taken::<O>();
    install_order::last_blind_write_is_alone();
}

/// A round may be made, of so many nodes at most: behind a force the gates of minimal nodes are opened, which have one object to flush,
/// and behind them the nodes leave the graph.
pub fn round_may_be_taken<O: Oper>()
    ensures { (b : Bounds) (copied most : ℕ) (w : World O) (used : ℕ) → IsSmall b → IsRunning (O.meaning b) w →
        MayBeTaken (O.meaning b) w (round_course (O.meaning b) copied most w used).steps }
{
    explain_core::every_run_keeps::<O>();
    explain_core::a_round_may_be_taken::<O>();
}

/// The names that a store finds for a round are those of the nodes whose gates a round of its world opens, and the objects
/// beside them are those that the gates flush.
pub fn a_round_is_found<O: Oper>()
    ensures { (p : Numbers) (file : List ℕ) (it : Volatile) (copied most : ℕ) (names objects : List ℕ) (w : World O) → let m = meaning_in O.meaning p in
        ShowsVolatile m p file it w → IsSound m w → IsRoundFrom it copied most 0 names objects →
        (round_gates m (may_flush m copied) most w ≡ gates_at m w names) × (objects_of (gates_at m w names) ≡ objects) }
{
    install_order::last_blind_write_is_alone();
}

/// A round has as many nodes as it may have, or all that are due.
pub fn a_round_is_full<O: Oper>()
    ensures { (b : Bounds) (copied most : ℕ) (w : World O) (n : ℕ) → let m = O.meaning b in let gates = round_gates m (may_flush m copied) most w in
        n < end_of w → IsTrue (is_due m (may_flush m copied) w n) → (length gates ≡ most) ⊎ IsGateAmong (gate_at m w n) gates }
{}
