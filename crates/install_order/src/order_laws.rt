ghost use Rattle.std.specs.Prelude.{◌≡◌, ℕ, ◌<◌, ◌↔◌, Bool, IsTrue, [], ◌∷◌};
ghost use Rattle.install_order.specs.Order.{Access, Edge, IsExposed, IsNode, IsName, IsMinimal, flush_set_of, IsLastBlindWrite};
ghost use Rattle.install_order.specs.Computed.{IsWithin, edge_test, node_of, least_below, is_flushed};
ghost use Rattle.install_order.specs.FirstReads.{FirstReads};
ghost use Rattle.install_order.specs.Tables.{IsTable, arrow, node, put, identity_write, copy, append, swap};

/// Edges, nodes, their names and their flush sets are computed as they are defined, and where there is an operation
/// one of the nodes is minimal.
pub fn nodes_are_computed()
    ensures edge { (a : Access) (objects end o p : ℕ) → IsWithin a objects end →
        IsTrue (edge_test a objects end o p) ↔ Edge a o p }
    ensures node { (a : Access) (objects end n : ℕ) → IsWithin a objects end →
        IsNode a (node_of (edge_test a objects end) end n) × IsTrue (node_of (edge_test a objects end) end n n) }
    ensures unique { (a : Access) (s t : ℕ → Bool) (n : ℕ) → IsNode a s → IsNode a t →
        IsTrue (s n) → IsTrue (t n) → s ≡ t }
    ensures name { (node : ℕ → Bool) (end n : ℕ) → IsTrue (node n) → n < end →
        IsName node (least_below end node) }
    ensures flush_set { (a : Access) (objects end x : ℕ) (node : ℕ → Bool) → IsWithin a objects end →
        IsTrue (is_flushed a end node x) ↔ flush_set_of a node x }
    // of the chosen operations, among which is each one that an edge leaves, one is in a minimal node
    ensures minimal { (a : Access) (objects end c : ℕ) (chosen : ℕ → Bool) → IsWithin a objects end →
        ((o p : ℕ) → Edge a o p → IsTrue (chosen o)) → ((n : ℕ) → IsTrue (chosen n) → n < end) →
        IsTrue (chosen c) →
        (n : ℕ) × IsTrue (chosen n) × IsMinimal a (node_of (edge_test a objects end) end n) }
{}

/// Exposed in other words: nobody outside the installed ones accesses the object, or the first who does reads it.
pub fn exposed_is_first_reads()
    ensures { (a : Access) (objects end x : ℕ) (installed : ℕ → Bool) → IsWithin a objects end →
        IsExposed a installed x ↔ FirstReads a installed x }
{}

/// The last write of an object is a node of its own where it reads nothing and writes nothing else.
pub fn last_blind_write_is_alone()
    ensures { (a : Access) (x n p : ℕ) (node : ℕ → Bool) → IsLastBlindWrite a x n →
        IsNode a node → IsTrue (node n) → IsTrue (node p) → p ≡ n }
{}

/// Small lists of operations with all their edges and nodes, in the order in which the nodes are installed.
pub fn worked_tables()
    // the copy reads the version that the last put destroys, so it goes before the put that wrote it
    ensures put_copy_put { IsTable (put 1 0 ∷ copy 2 0 1 ∷ put 3 0 ∷ [])
        (arrow 1 3 ∷ arrow 2 3 ∷ arrow 2 1 ∷ [])
        (node (2 ∷ []) (1 ∷ []) ∷ node (1 ∷ []) [] ∷ node (3 ∷ []) (0 ∷ []) ∷ []) }
    ensures copy_there_and_back { IsTable (copy 1 0 1 ∷ copy 2 1 0 ∷ [])
        (arrow 1 2 ∷ [])
        (node (1 ∷ []) (1 ∷ []) ∷ node (2 ∷ []) (0 ∷ []) ∷ []) }
    // the version of 1 that the second copy reads is lost, so both copies are one node
    ensures copy_there_and_back_put { IsTable (copy 1 0 1 ∷ copy 2 1 0 ∷ put 3 1 ∷ [])
        (arrow 1 2 ∷ arrow 2 3 ∷ arrow 1 3 ∷ arrow 2 1 ∷ [])
        (node (1 ∷ 2 ∷ []) (0 ∷ []) ∷ node (3 ∷ []) (1 ∷ []) ∷ []) }
    ensures put_put_swap { IsTable (put 1 0 ∷ put 2 1 ∷ swap 3 0 1 ∷ [])
        (arrow 1 3 ∷ arrow 2 3 ∷ arrow 3 1 ∷ arrow 3 2 ∷ [])
        (node (1 ∷ 2 ∷ 3 ∷ []) (0 ∷ 1 ∷ []) ∷ []) }
    // an identity write of 1 takes it out of the swap's flush set
    ensures put_put_swap_identity { IsTable (put 1 0 ∷ put 2 1 ∷ swap 3 0 1 ∷ identity_write 4 1 ∷ [])
        (arrow 1 3 ∷ arrow 2 3 ∷ arrow 3 1 ∷ arrow 3 2 ∷ arrow 2 4 ∷ arrow 3 4 ∷ [])
        (node (1 ∷ 2 ∷ 3 ∷ []) (0 ∷ []) ∷ node (4 ∷ []) (1 ∷ []) ∷ []) }
    ensures put_append { IsTable (put 1 1 ∷ append 2 0 1 ∷ [])
        (arrow 1 2 ∷ arrow 2 1 ∷ [])
        (node (1 ∷ 2 ∷ []) (1 ∷ []) ∷ []) }
    // every copy of the version that the last put destroys goes before the first put, and none of them shares its node
    ensures put_copies_put { IsTable (put 1 0 ∷ copy 2 0 1 ∷ copy 3 0 2 ∷ copy 4 0 3 ∷ copy 5 0 4 ∷ put 6 0 ∷ [])
        (arrow 1 6 ∷ arrow 2 1 ∷ arrow 3 1 ∷ arrow 4 1 ∷ arrow 5 1
        ∷ arrow 2 6 ∷ arrow 3 6 ∷ arrow 4 6 ∷ arrow 5 6 ∷ [])
        (node (2 ∷ []) (1 ∷ []) ∷ node (3 ∷ []) (2 ∷ []) ∷ node (4 ∷ []) (3 ∷ []) ∷ node (5 ∷ []) (4 ∷ [])
        ∷ node (1 ∷ []) [] ∷ node (6 ∷ []) (0 ∷ []) ∷ []) }
    // only the version that the copy reads is lost, not the one before it
    ensures put_put_copy_put { IsTable (put 1 0 ∷ put 2 0 ∷ copy 3 0 1 ∷ put 4 0 ∷ [])
        (arrow 1 2 ∷ arrow 1 4 ∷ arrow 2 4 ∷ arrow 3 4 ∷ arrow 3 2 ∷ [])
        (node (1 ∷ []) [] ∷ node (3 ∷ []) (1 ∷ []) ∷ node (2 ∷ []) [] ∷ node (4 ∷ []) (0 ∷ []) ∷ []) }
    // no version is lost where nothing overwrites it
    ensures put_copy { IsTable (put 1 0 ∷ copy 2 0 1 ∷ [])
        []
        (node (1 ∷ []) (0 ∷ []) ∷ node (2 ∷ []) (1 ∷ []) ∷ []) }
    // with the swap the first three are one node; where it is installed and left out, each is a node of its own
    ensures swap_copy_copy_put { IsTable (swap 1 0 1 ∷ copy 2 2 1 ∷ copy 3 0 2 ∷ put 4 0 ∷ [])
        (arrow 1 2 ∷ arrow 2 3 ∷ arrow 3 1 ∷ arrow 1 4 ∷ arrow 3 4 ∷ [])
        (node (1 ∷ 2 ∷ 3 ∷ []) (1 ∷ 2 ∷ []) ∷ node (4 ∷ []) (0 ∷ []) ∷ []) }
    ensures copy_copy_put { IsTable (copy 2 2 1 ∷ copy 3 0 2 ∷ put 4 0 ∷ [])
        (arrow 2 3 ∷ arrow 3 4 ∷ [])
        (node (2 ∷ []) (1 ∷ []) ∷ node (3 ∷ []) (2 ∷ []) ∷ node (4 ∷ []) (0 ∷ []) ∷ []) }
{}
