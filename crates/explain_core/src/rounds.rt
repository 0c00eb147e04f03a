// Slots of several nodes that are flushed together.
ghost use Rattle.std.specs.Prelude.{◌≡◌, ℕ, IsTrue, Bool, List, [], ◌∷◌};
ghost use Rattle.oper_core.specs.Meaning.{IsSmall};
ghost use Rattle.oper_core.specs.declared.bounds.Bounds.{Bounds};
ghost use Rattle.explain_core.specs.RoundGates.{AreApart, Gate, IsGateAmong, gate_step, gates_of, picked};
ghost use Rattle.install_order.specs.Order.{Access, IsMinimal, NoEdgeInto, within};
ghost use Rattle.explain_core.specs.RoundRemovals.{left_by};
ghost use Rattle.explain_core.specs.RunLaws.{Begins};
ghost use Rattle.explain_core.specs.Turns.{round_gates, thin_turn};
ghost use Rattle.explain_core.specs.Sound.{IsSound};
ghost use Rattle.explain_core.specs.World.{AreAllowed, IsAllowed, IsAllStable, Step, World, run, step};

use oper_core::Oper;

/// Slot gates that may be opened one directly after the other commute, and any of them may be opened without the others, which
/// keeps a world sound. So do some first steps of a list, with any of the slot gates that stand directly behind them.
pub fn any_gates_may_open<O: Oper>()
    ensures commute { (b : Bounds) (w : World O) (g h : Gate) → IsAllowed (O.meaning b) w (gate_step g) →
        IsAllowed (O.meaning b) (step (O.meaning b) w (gate_step g)) (gate_step h) →
        AreAllowed (O.meaning b) w (gate_step h ∷ gate_step g ∷ [])
        × (step (O.meaning b) (step (O.meaning b) w (gate_step g)) (gate_step h) ≡ step (O.meaning b) (step (O.meaning b) w (gate_step h)) (gate_step g)) }
    ensures any { (b : Bounds) (w : World O) (gates : List Gate) (which : List Bool) → IsSmall b → IsSound (O.meaning b) w →
        AreAllowed (O.meaning b) w (gates_of gates) →
        AreAllowed (O.meaning b) w (gates_of (picked which gates)) × IsSound (O.meaning b) (run (O.meaning b) w (gates_of (picked which gates))) }
    // of nodes that are minimal together all may be flushed, in any order
    ensures together { (b : Bounds) (w : World O) (gates : List Gate) → AreApart gates → ((g : Gate) → IsGateAmong g gates → IsAllowed (O.meaning b) w (gate_step g)) →
        AreAllowed (O.meaning b) w (gates_of gates) }
    ensures begins { (b : Bounds) (w : World O) (steps taken : List (Step O)) → IsSmall b → IsSound (O.meaning b) w →
        AreAllowed (O.meaning b) w steps → Begins steps taken →
        AreAllowed (O.meaning b) w taken × IsSound (O.meaning b) (run (O.meaning b) w taken) }
{}

/// A minimal node stays one when another one leaves the graph, which has none of its members.
pub fn minimal_nodes_stay()
    ensures { (a : Access) (g node other : ℕ → Bool) → NoEdgeInto (within g a) node → IsMinimal (within g a) other → ((n : ℕ) → IsTrue (other n) → IsTrue (left_by g node n)) →
        IsMinimal (within (left_by g node) a) other }
{}

/// The gates of a round may be opened one after the other, in every sound world whose members are all stable; so any of them
/// may, in any order.
pub fn a_round_may_be_taken<O: Oper>()
    ensures { (b : Bounds) (may : World O → ℕ → Bool) (most : ℕ) (w : World O) → IsSmall b → IsSound (O.meaning b) w → IsAllStable w →
        AreAllowed (O.meaning b) w (gates_of (round_gates (O.meaning b) may most w)) }
{}

/// A turn that logs nothing may be taken in every sound world whose members are all stable: a round, or the removal of the thin node
/// of the least name, where that has nothing to flush.
pub fn a_thin_turn_may_be_taken<O: Oper>()
    ensures { (b : Bounds) (most : ℕ) (w : World O) → IsSmall b → IsSound (O.meaning b) w → IsAllStable w →
        AreAllowed (O.meaning b) w (thin_turn (O.meaning b) most w) }
{}
