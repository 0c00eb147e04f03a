//! Trees worked out by computation.

ghost use Rattle.std.specs.Prelude.{◌≡◌, ◌++◌, None, Some, Ok, Err, [], ◌∷◌};
ghost use Rattle.oper_core.specs.State.{start};
ghost use Rattle.btree_ops.specs.declared.node_op.NodeOp.TheVariants.{Put, Delete, SplitChild, SplitRoot};
ghost use Rattle.logical_btree.specs.Plan.{insert_plan, delete_plan, get_answer, range_answer};
ghost use Rattle.logical_btree.specs.Worked.{bounds, pairs_to, puts_of, inserted, after_inserts, split_by_hand, no_node, one_separator, root_below_itself, endless, two_full};
ghost use Rattle.logical_btree.specs.declared.refusal.TreeRefusal.TheVariants.{NoObject, BadTree, TreeFull, NoKey};

/// Seven inserts are seven puts; the eighth splits the root first. What they stand for is read and deleted by key.
pub fn eight_inserts_split_the_root()
    ensures seven { inserted 7 (pairs_to 7) [] ≡ puts_of (pairs_to 7) }
    ensures eight { inserted 7 (pairs_to 8) [] ≡ puts_of (pairs_to 7) ++ SplitRoot 0 1 2 ∷ Put 2 (8 ∷ []) (168 ∷ []) ∷ [] }
    ensures get { get_answer bounds 0 7 (after_inserts 8) (8 ∷ []) ≡ Ok (Some (168 ∷ [])) }
    ensures range { range_answer bounds 0 7 (after_inserts 8) (3 ∷ []) (6 ∷ []) ≡ Ok ((3 ∷ [], 163 ∷ []) ∷ (4 ∷ [], 164 ∷ []) ∷ (5 ∷ [], 165 ∷ []) ∷ []) }
    ensures delete { delete_plan bounds 0 7 (after_inserts 8) (4 ∷ []) ≡ record { commands = Delete 2 (4 ∷ []) ∷ []; refusal = None } }
    ensures split { range_answer bounds 0 7 split_by_hand (1 ∷ []) (8 ∷ []) ≡ Ok (pairs_to 7) }
    ensures absent { delete_plan bounds 0 7 split_by_hand (9 ∷ []) ≡ record { commands = []; refusal = Some NoKey } }
    ensures full { insert_plan bounds 0 1 (after_inserts 7) (8 ∷ []) (168 ∷ []) ≡ record { commands = []; refusal = Some (TreeFull 2 1) } }
{}

/// A key that is equal to a separator stands to its right. The object that is met first of the bad ones is the one reported:
/// one that is no node, one with a child outside the range or with the root as a child, one after too long a way.
pub fn the_first_bad_object_is_told()
    ensures no_node { get_answer bounds 0 7 no_node (1 ∷ []) ≡ Err (BadTree 0) }
    ensures equal_right { get_answer bounds 0 7 one_separator (5 ∷ []) ≡ Err (BadTree 2) }
    ensures below_left { get_answer bounds 0 7 one_separator (4 ∷ 255 ∷ []) ≡ Ok None }
    ensures outside { get_answer bounds 0 1 one_separator (4 ∷ []) ≡ Err (BadTree 0) }
    ensures left_alone { range_answer bounds 0 7 one_separator (1 ∷ []) (5 ∷ []) ≡ Ok [] }
    ensures right_too { range_answer bounds 0 7 one_separator (1 ∷ []) (5 ∷ 0 ∷ []) ≡ Err (BadTree 2) }
    ensures root_below { get_answer bounds 0 7 root_below_itself (4 ∷ []) ≡ Err (BadTree 0) }
    ensures too_long { get_answer bounds 0 1 endless (4 ∷ []) ≡ Err (BadTree 1) }
{}

/// Of two full nodes on the way the first is split first. The answers at the edges: an empty root is an empty tree, a range
/// of no keys meets the root all the same, and no object past the store or above the end of its range is read.
pub fn the_first_full_node_is_split()
    ensures full { insert_plan bounds 0 15 two_full (8 ∷ []) (168 ∷ []) ≡ record {
      commands =
          SplitRoot 0 9 10 ∷ SplitChild 9 1 11 ∷ Put 11 (8 ∷ []) (168 ∷ []) ∷ [];
      refusal = None;
    } }
    ensures present { insert_plan bounds 0 15 two_full (7 ∷ []) (168 ∷ []) ≡ record { commands = Put 1 (7 ∷ []) (168 ∷ []) ∷ []; refusal = None } }
    ensures none_free { insert_plan bounds 0 8 two_full (8 ∷ []) (168 ∷ []) ≡ record { commands = []; refusal = Some (TreeFull 2 0) } }
    ensures empty { range_answer bounds 0 7 start (5 ∷ []) (3 ∷ []) ≡ Ok [] }
    ensures no_keys { range_answer bounds 0 7 no_node (5 ∷ []) (3 ∷ []) ≡ Err (BadTree 0) }
    ensures past { insert_plan bounds 5 16 no_node (1 ∷ []) (161 ∷ []) ≡ record { commands = []; refusal = Some NoObject } }
    ensures upside_down { insert_plan bounds 3 2 no_node (1 ∷ []) (161 ∷ []) ≡ record { commands = []; refusal = Some NoObject } }
{}
