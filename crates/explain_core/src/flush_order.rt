ghost use Rattle.std.specs.Prelude.{ℕ, ◌↔◌, Bool, IsTrue, IsFalse, List};
ghost use Rattle.oper_core.specs.Meaning.{IsSmall};
ghost use Rattle.oper_core.specs.declared.bounds.Bounds.{Bounds};
ghost use Rattle.install_order.specs.Order.{Access, within, NoEdgeInto, IsNode, IsMinimal};
ghost use Rattle.install_order.specs.Computed.{IsWithin};
ghost use Rattle.explain_core.specs.History.{Member, accesses_of, value_at};
ghost use Rattle.oper_core.specs.Cell.{Cell};
ghost use Rattle.explain_core.specs.Explains.{Explains};
ghost use Rattle.explain_core.specs.World.{World, graph_access, end_of, node_named};
ghost use Rattle.explain_core.specs.Sound.{IsSound};
ghost use Rattle.explain_core.specs.Exact.{rest_of, CanInstall, IsPartOf};

use oper_core::Oper;

/// A part of the uninstalled members can be installed by writing current versions exactly where no edge over the
/// uninstalled members leads into it.
pub fn exactly_no_edge<O: Oper>()
    ensures { (b : Bounds) (h : List (Member O)) (installed part : ℕ → Bool) (state : ℕ → Cell) →
        IsTrue (installed 0) →
        Explains (accesses_of (O.meaning b) h) (value_at (O.meaning b) h) installed state →
        IsPartOf part (rest_of h installed) →
        CanInstall (O.meaning b) h installed part state
        ↔ NoEdgeInto (within (rest_of h installed) (accesses_of (O.meaning b) h)) part }
{}

/// A minimal node of the uninstalled members can be installed, and no part of a node that has one member and lacks
/// another can be.
pub fn minimal_nodes_are_whole<O: Oper>()
    ensures whole { (b : Bounds) (h : List (Member O)) (installed node : ℕ → Bool) (state : ℕ → Cell) →
        IsTrue (installed 0) →
        Explains (accesses_of (O.meaning b) h) (value_at (O.meaning b) h) installed state →
        IsPartOf node (rest_of h installed) →
        IsMinimal (within (rest_of h installed) (accesses_of (O.meaning b) h)) node →
        CanInstall (O.meaning b) h installed node state }
    ensures part { (b : Bounds) (h : List (Member O)) (installed node part : ℕ → Bool) (state : ℕ → Cell)
        (held lacked : ℕ) → IsTrue (installed 0) →
        Explains (accesses_of (O.meaning b) h) (value_at (O.meaning b) h) installed state →
        IsPartOf node (rest_of h installed) →
        IsNode (within (rest_of h installed) (accesses_of (O.meaning b) h)) node →
        IsPartOf part node → IsTrue (part held) → IsTrue (node lacked) → IsFalse (part lacked) →
        CanInstall (O.meaning b) h installed part state → ⊥ }
{}

/// What the graph of a sound world accesses is within its bounds and its end.
pub fn graph_is_within<O: Oper>()
    ensures { (b : Bounds) (w : World O) → IsSmall b → IsSound (O.meaning b) w →
        IsWithin (graph_access (O.meaning b) w) b.objects (end_of w) }
{}

/// Where the graph of a sound world has a member, one of its nodes is minimal, and it has members of the graph alone.
pub fn some_node_is_minimal<O: Oper>()
    ensures { (b : Bounds) (w : World O) (c : ℕ) → IsSmall b → IsSound (O.meaning b) w → IsTrue (w.graph c) →
        (n : ℕ) × IsTrue (w.graph n) × IsMinimal (graph_access (O.meaning b) w) (node_named (O.meaning b) w n)
        × IsPartOf (node_named (O.meaning b) w n) w.graph }
{}
