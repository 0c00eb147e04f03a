ghost use Rattle.std.specs.Prelude.{◌≡◌, ℕ, ◌≤◌, ◌==◌, ◌↔◌, ◌⊎◌, Bool, not, IsTrue, IsFalse};
ghost use Rattle.install_order.specs.Renamed.{IsRenamed, lsns_of, places_of};
ghost use Rattle.install_order.specs.More.{IsAdded, NewArc};
ghost use Rattle.install_order.specs.Digraph.{Walk, Joined, AreNodes, AreLevels, with_arc, outside, IsOnWay, merged, IsReached, AreWhole, arcs};
ghost use Rattle.install_order.specs.Order.{Access, Reaches, within, NoEdgeInto, IsNode, IsName, IsLastWriter};
ghost use Rattle.install_order.specs.Arcs.{Arc, ReachesByArcs, NoArcInto};

/// The arcs reach as far as the edges.
pub fn arcs_reach_the_same()
    ensures { (a : Access) (o p : ℕ) → ReachesByArcs a o p ↔ Reaches a o p }
{}

/// Where a set without an edge into it is taken out, the arcs that are left are those from outside it.
pub fn arcs_left_by_a_removal()
    ensures { (a : Access) (gone : ℕ → Bool) (o p : ℕ) → NoEdgeInto a gone →
        Arc (within (λ n. not (gone n)) a) o p ↔ (IsFalse (gone o) × Arc a o p) }
{}

/// Where an operation is added after all others, the arcs are those before and the new ones.
pub fn arcs_of_one_more()
    ensures { (a b : Access) (n o p : ℕ) → IsAdded a b n → Arc b o p ↔ (Arc a o p ⊎ NewArc a b n o p) }
{}

/// A set without an edge into it is one without an arc into it.
pub fn no_arc_is_no_edge()
    ensures { (a : Access) (set : ℕ → Bool) → NoEdgeInto a set ↔ NoArcInto a set }
{}

/// The operations with one representative are a node.
pub fn representatives_tell_nodes()
    ensures { (a : Access) (node : ℕ → ℕ) (n : ℕ) → AreNodes (Arc a) node → IsNode a (λ i. node i == node n) }
{}

/// What one arc more does to nodes and levels.
pub fn one_arc_more()
    ensures joined { (e : ℕ → ℕ → Bool) (v w i j : ℕ) →
        Joined (with_arc (arcs e) v w) i j ↔ (Joined (arcs e) i j ⊎ (IsOnWay (arcs e) v w i × IsOnWay (arcs e) v w j)) }
    // those on the way are merged
    ensures merged { (e : ℕ → ℕ → Bool) (node : ℕ → ℕ) (taken : ℕ → Bool) (v w one : ℕ) → AreNodes (arcs e) node →
        ((i : ℕ) → IsTrue (taken i) ↔ IsOnWay (arcs e) v w i) → IsTrue (taken one) →
        AreNodes (with_arc (arcs e) v w) (merged taken node one) }
    // a complete search against the arcs: what it found and w reaches is on the way, and nothing else
    ensures complete { (e : ℕ → ℕ → Bool) (node level : ℕ → ℕ) (found : ℕ → Bool) (v w i : ℕ) → AreLevels (arcs e) level →
        IsReached (arcs e) level (λ s. node s == node w) found v → AreNodes (arcs e) node → AreWhole node found → level v ≤ level w →
        IsOnWay (arcs e) v w i ↔ (Walk (arcs e) w i × IsTrue (found i)) }
    // a set that follows the arcs among what was found has all of it
    ensures taken { (e : ℕ → ℕ → Bool) (node level : ℕ → ℕ) (found taken : ℕ → Bool) (v w i : ℕ) → AreLevels (arcs e) level →
        IsReached (arcs e) level (λ s. node s == node w) found v → AreNodes (arcs e) node → AreWhole node found → level v ≤ level w →
        IsTrue (taken w) → ((o p : ℕ) → arcs e o p → IsTrue (taken o) → IsTrue (found p) → IsTrue (taken p)) →
        Walk (arcs e) w i → IsTrue (found i) → IsTrue (taken i) }
{}

/// Under other numbers in the same order the same operations reach each other.
pub fn places_stand_for_lsns()
    ensures { (a b : Access) (dom : ℕ → Bool) (end : ℕ) (lsn : ℕ → ℕ) (i j : ℕ) → IsRenamed a b dom end lsn → IsTrue (dom i) → IsTrue (dom j) →
        Reaches b (lsn i) (lsn j) ↔ Reaches a i j }
{}

/// Under other numbers in the same order, nodes, names, minimal nodes and last writers are the same too.
pub fn nodes_stand_for_nodes()
    ensures lsns { (a b : Access) (dom : ℕ → Bool) (end : ℕ) (lsn : ℕ → ℕ) (set : ℕ → Bool) (i : ℕ) → IsRenamed a b dom end lsn →
        IsNode a set → IsTrue (set i) → IsTrue (dom i) →
        IsNode b (lsns_of dom end lsn set) × IsTrue (lsns_of dom end lsn set (lsn i)) }
    ensures places { (a b : Access) (dom : ℕ → Bool) (end : ℕ) (lsn : ℕ → ℕ) (node : ℕ → Bool) (i : ℕ) → IsRenamed a b dom end lsn →
        IsNode b node → IsTrue (dom i) → IsTrue (node (lsn i)) → IsNode a (places_of dom lsn node) }
    ensures name { (a b : Access) (dom : ℕ → Bool) (end : ℕ) (lsn : ℕ → ℕ) (set : ℕ → Bool) (i : ℕ) → IsRenamed a b dom end lsn →
        IsTrue (dom i) → IsName set i → IsName (lsns_of dom end lsn set) (lsn i) }
    ensures free { (a b : Access) (dom : ℕ → Bool) (end : ℕ) (lsn : ℕ → ℕ) (set : ℕ → Bool) → IsRenamed a b dom end lsn →
        NoEdgeInto a set ↔ NoEdgeInto b (lsns_of dom end lsn set) }
    ensures last { (a b : Access) (dom : ℕ → Bool) (end : ℕ) (lsn : ℕ → ℕ) (x i : ℕ) → IsRenamed a b dom end lsn → IsTrue (dom i) →
        IsLastWriter b x (lsn i) ↔ IsLastWriter a x i }
{}

/// Where a set into which no arc leads from outside is taken out, the other nodes are as they were.
pub fn nodes_left_by_a_removal()
    ensures { (e : ℕ → ℕ → Bool) (node : ℕ → ℕ) (gone : ℕ → Bool) (i j : ℕ) → AreNodes (arcs e) node →
        ((o p : ℕ) → arcs e o p → IsTrue (gone p) → IsTrue (gone o)) → IsFalse (gone i) → IsFalse (gone j) →
        (node i ≡ node j) ↔ Joined (outside gone (arcs e)) i j }
{}
