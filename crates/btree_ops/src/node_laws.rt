//! What a tree on these nodes needs to know of them, as laws on definitions.

ghost use Rattle.std.specs.Prelude.{◌≡◌, ◌≢◌, ◌≤◌, ◌⊎◌, ℕ, IsTrue, None, Some, List, ◌∷◌, length};
ghost use Rattle.std.specs.FinMap.Entries.{put};
ghost use Rattle.key_entries.specs.Short.{is_short};
ghost use Rattle.key_entries.specs.Entries.{byte_order};
ghost use Rattle.key_entries.specs.EntryLaws.{AreBytes};
ghost use Rattle.btree_ops.specs.Node.{leaf, inner, node_code, node_in, IsNode};
ghost use Rattle.btree_ops.specs.NodeLaws.{IsNodeOf};
ghost use Rattle.key_entries.specs.Pairs.{has, without};
ghost use Rattle.btree_ops.specs.Effects.{leaf_halves, inner_halves, behind_child};
ghost use Rattle.key_entries.specs.Pairs.{IsUpdate};
ghost use Rattle.btree_ops.specs.Laws.{SplitsLeaf, SplitsInner, IsBehindBranch};
ghost use Rattle.btree_ops.specs.declared.halves.Halves.{Halves};
ghost use Rattle.btree_ops.specs.declared.node.Node.{Node};

/// Each node has one code, from which it is read, and nothing else is read as a node.
pub fn nodes_have_one_code()
    ensures found { (node : Node) → IsNode node → node_in (node_code node) ≡ Some node }
    ensures only { (bytes : List ℕ) (node : Node) → AreBytes bytes → node_in bytes ≡ Some node → IsNodeOf bytes node }
    ensures leaf_size { (pairs : List (List ℕ × List ℕ)) → IsNode (leaf pairs) → length (node_code (leaf pairs)) ≤ 464 }
    ensures inner_size { (first : ℕ) (branches : List (List ℕ × ℕ)) → IsNode (inner first branches) →
        length (node_code (inner first branches)) ≤ 265 }
{}

/// A put acts on a leaf as on an ordered map: the key gets the value, every other key keeps its own, and the keys rise.
pub fn a_put_acts_on_a_map()
    ensures map { (key value : List ℕ) (pairs : List (List ℕ × List ℕ)) → IsUpdate key (Some value) pairs (put byte_order key value pairs) }
    ensures node { (key value : List ℕ) (pairs : List (List ℕ × List ℕ)) → IsNode (leaf pairs) → IsTrue (is_short key) → IsTrue (is_short value) →
        (IsTrue (has key pairs) ⊎ (length pairs ≢ 7)) → IsNode (leaf (put byte_order key value pairs)) }
{}

/// A delete acts on a leaf as on an ordered map: the key is gone, every other key keeps its value, and the keys rise.
pub fn a_delete_acts_on_a_map()
    ensures map { (key : List ℕ) (pairs : List (List ℕ × List ℕ)) → IsUpdate key None pairs (without key pairs) }
    ensures node { (key : List ℕ) (pairs : List (List ℕ × List ℕ)) → IsNode (leaf pairs) → IsNode (leaf (without key pairs)) }
{}

/// A split keeps all pairs, or all children, each on its side of the separator, and its halves are nodes that are not
/// empty. It is made of every node of seven entries.
pub fn a_split_keeps_all()
    ensures leaf { (pairs : List (List ℕ × List ℕ)) (h : Halves) → IsNode (leaf pairs) → leaf_halves pairs ≡ Some h → SplitsLeaf pairs h }
    ensures inner { (first : ℕ) (branches : List (List ℕ × ℕ)) (h : Halves) → IsNode (inner first branches) →
        inner_halves first branches ≡ Some h → SplitsInner first branches h }
    ensures full_leaf { (pairs : List (List ℕ × List ℕ)) → length pairs ≡ 7 → (h : Halves) × (leaf_halves pairs ≡ Some h) }
    ensures full_inner { (first : ℕ) (branches : List (List ℕ × ℕ)) → length branches ≡ 7 → (h : Halves) × (inner_halves first branches ≡ Some h) }
{}

/// A new child stands with its separator directly after the child that is split, of equal children after the first.
pub fn a_new_child_stands_behind()
    ensures { (child first : ℕ) (new : List ℕ × ℕ) (branches after : List (List ℕ × ℕ)) → behind_child child new first branches ≡ Some after →
        ((first ≡ child) × (after ≡ new ∷ branches)) ⊎ ((first ≢ child) × IsBehindBranch child new branches after) }
{}
