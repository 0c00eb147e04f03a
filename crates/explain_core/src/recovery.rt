ghost use Rattle.std.specs.Prelude.{ℕ, ◌≡◌, ◌+◌, ◌*◌, ◌-◌, ◌<◌, ◌≤◌, Bool, false, Some, IfSome, List, [], length, take};
ghost use Rattle.std.specs.List.{AllByRecursion};
ghost use Rattle.oper_core.specs.Meaning.{IsSmall, AreWithin, state_after};
ghost use Rattle.oper_core.specs.declared.bounds.Bounds.{Bounds};
ghost use Rattle.explain_core.specs.History.{Member, IsHistory, commands_of, value_at};
ghost use Rattle.explain_core.specs.World.{World, Step, step, run, AreAllowed, IsLive, IsAllStable, end_of, redo_of};
ghost use Rattle.explain_core.specs.World.Step.{Crash};
ghost use Rattle.explain_core.specs.Sound.{IsSound};
ghost use Rattle.explain_core.specs.Group.{IsUnsplit, groups_of};
ghost use Rattle.explain_core.specs.Turns.{turn, turns};
ghost use Rattle.explain_core.specs.declared.marks.Marks.{Marks};
ghost use Rattle.explain_core.specs.KeptLog.{IsLogKept};
ghost use Rattle.explain_core.specs.Stable.{Stable, IsStableOf, world_of, stable_of};

use oper_core::Oper;

/// The last values of a history are those of the state after its commands.
pub fn history_gives_the_map<O: Oper>()
    ensures { (b : Bounds) (h : List (Member O)) (x : ℕ) → IsHistory (O.meaning b) h →
        value_at (O.meaning b) h (length h) x ≡ state_after (O.meaning b) (commands_of h) x }
{}

/// In a sound live world the cache is the state after its commands.
pub fn live_cache_is_the_map<O: Oper>()
    ensures { (b : Bounds) (w : World O) (x : ℕ) → IsSound (O.meaning b) w → IsLive w →
        (w.cache x).value ≡ state_after (O.meaning b) (commands_of w.history) x }
{}

/// A sound world that is replayed to its end, without another step, is live, and its cache is the state after its
/// commands.
pub fn redo_gives_the_map<O: Oper>()
    ensures allowed { (b : Bounds) (w : World O) → IsSmall b → IsSound (O.meaning b) w →
        AreAllowed (O.meaning b) w (redo_of w) }
    ensures live { (b : Bounds) (w : World O) → IsSmall b → IsSound (O.meaning b) w →
        IsLive (run (O.meaning b) w (redo_of w)) }
    ensures map { (b : Bounds) (w : World O) (x : ℕ) → IsSmall b → IsSound (O.meaning b) w →
        ((run (O.meaning b) w (redo_of w)).cache x).value ≡ state_after (O.meaning b) (commands_of w.history) x }
{}

/// The turns of a redo, which replays and installs thin nodes while too many objects are dirty or too many members wait, are allowed in a sound
/// world whose members are all stable, with no group open; they keep it sound, and leave its log. Where nothing is left
/// to replay after them, the cache is the state after the commands.
pub fn turns_keep<O: Oper>()
    ensures allowed { (b : Bounds) (w : World O) (marks : Marks) (n : ℕ) → IsSmall b → IsSound (O.meaning b) w →
        IsAllStable w → AreAllowed (O.meaning b) w (turns (O.meaning b) marks n w) }
    ensures sound { (b : Bounds) (w : World O) (marks : Marks) (n : ℕ) → IsSmall b → IsSound (O.meaning b) w →
        IsAllStable w →
        IsSound (O.meaning b) (run (O.meaning b) w (turns (O.meaning b) marks n w)) }
    ensures log { (b : Bounds) (w : World O) (marks : Marks) (n : ℕ) →
        IsLogKept w (run (O.meaning b) w (turns (O.meaning b) marks n w)) }
    ensures map { (b : Bounds) (w : World O) (marks : Marks) (n x : ℕ) → IsSmall b → IsSound (O.meaning b) w →
        IsAllStable w → IsLive (run (O.meaning b) w (turns (O.meaning b) marks n w)) →
        ((run (O.meaning b) w (turns (O.meaning b) marks n w)).cache x).value
        ≡ state_after (O.meaning b) (commands_of w.history) x }
{}

/// From a world whose graph is empty, twice as many turns as members are left to replay are a whole redo: after them
/// nothing is left to do.
pub fn turns_end<O: Oper>()
    ensures { (b : Bounds) (w : World O) (marks : Marks) → ((n : ℕ) → w.graph n ≡ false) →
        turn (O.meaning b) marks (run (O.meaning b) w (turns (O.meaning b) marks (2 * (end_of w - w.next)) w)) ≡ [] }
{}

/// What is stable in a sound world is that of its stable history; a crash leaves the world that these parts make; and
/// the world that any stable parts make is sound.
pub fn stable_parts_stand<O: Oper>()
    ensures stands { (b : Bounds) (w : World O) → IsSound (O.meaning b) w →
        IsStableOf (O.meaning b) (stable_of w) (take w.forced w.history) w.installed }
    ensures crash { (b : Bounds) (w : World O) → IsSound (O.meaning b) w →
        step (O.meaning b) w Crash ≡ world_of (O.meaning b) (stable_of w) (take w.forced w.history) w.installed }
    ensures sound { (b : Bounds) (parts : Stable O) (h : List (Member O)) (installed : ℕ → Bool) →
        IsSmall b → IsStableOf (O.meaning b) parts h installed →
        IsSound (O.meaning b) (world_of (O.meaning b) parts h installed) }
{}

/// What is stable of a history under some bounds is stable of it under wider ones: each command is accepted there too, and
/// the values are the same.
pub fn wider_bounds_keep_stable_parts<O: Oper>()
    ensures { (b c : Bounds) (parts : Stable O) (h : List (Member O)) (installed : ℕ → Bool) → IsSmall b →
        AreWithin b c → IsStableOf (O.meaning b) parts h installed → IsStableOf (O.meaning c) parts h installed }
{}

/// In every run from a sound world, a new one or one that a restart finds, what is forced splits no group that the run opens:
/// none of the open one is forced, and of a closed one all is or none. A closed group is whole, after a crash too.
pub fn forced_splits_no_group<O: Oper>()
    ensures opened { (b : Bounds) (w : World O) (steps : List (Step O)) → IsSmall b → IsSound (O.meaning b) w →
        AreAllowed (O.meaning b) w steps →
        IfSome (run (O.meaning b) w steps).group (λ begun. (run (O.meaning b) w steps).forced < begun) }
    ensures closed { (b : Bounds) (w : World O) (steps : List (Step O)) → IsSmall b → IsSound (O.meaning b) w →
        AreAllowed (O.meaning b) w steps →
        AllByRecursion (IsUnsplit (run (O.meaning b) w steps).forced) (groups_of (O.meaning b) w [] steps) }
    ensures whole { (b : Bounds) (w : World O) (steps : List (Step O)) → IsSmall b → IsSound (O.meaning b) w →
        AreAllowed (O.meaning b) w steps →
        AllByRecursion (λ g. g.ended ≤ end_of (run (O.meaning b) w steps)) (groups_of (O.meaning b) w [] steps) }
{}

/// A crash takes an open group away whole: what is left is the history before it began. Each of its members is a command.
pub fn crash_takes_the_group<O: Oper>()
    ensures lost { (b : Bounds) (w : World O) (begun : ℕ) → IsSound (O.meaning b) w → w.group ≡ Some begun →
        (step (O.meaning b) w Crash).history ≡ take (begun - 1) w.history }
    ensures commands { (b : Bounds) (w : World O) (begun : ℕ) → IsSound (O.meaning b) w → w.group ≡ Some begun →
        length (commands_of w.history) ≡ length (commands_of (take (begun - 1) w.history)) + (end_of w - begun) }
{}

/// Slots, checkpoints, stable records and the count before the base alone fix the state and the number of commands: of
/// whatever histories the parts may be, these have equal states and equally many commands.
pub fn one_state<O: Oper>()
    ensures commands { (b : Bounds) (parts : Stable O) (h k : List (Member O)) (i j : ℕ → Bool) →
        IsStableOf (O.meaning b) parts h i → IsStableOf (O.meaning b) parts k j →
        length (commands_of h) ≡ length (commands_of k) }
    ensures state { (b : Bounds) (parts : Stable O) (h k : List (Member O)) (i j : ℕ → Bool) (x : ℕ) →
        IsSmall b → IsStableOf (O.meaning b) parts h i → IsStableOf (O.meaning b) parts k j →
        state_after (O.meaning b) (commands_of h) x ≡ state_after (O.meaning b) (commands_of k) x }
{}
