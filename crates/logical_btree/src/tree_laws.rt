//! What holds of trees, as laws on definitions.

ghost use Rattle.std.specs.Prelude.{◌≡◌, ◌≤◌, ◌<◌, ℕ, T, IsTrue, None, Some, is_some, Ok, List, if◌then◌else◌};
ghost use Rattle.std.specs.FinMap.{get};
ghost use Rattle.std.specs.FinMap.Entries.{is_sorted};
ghost use Rattle.oper_core.specs.State.{State};
ghost use Rattle.oper_core.specs.declared.bounds.Bounds.{Bounds};
ghost use Rattle.key_entries.specs.Short.{is_short};
ghost use Rattle.key_entries.specs.Entries.{byte_order};
ghost use Rattle.call_plans.specs.Plan.{goes_on};
ghost use Rattle.call_plans.specs.Laws.{AllAccepted, DependOn, FirstTooLarge, EndsWith};
ghost use Rattle.btree_ops.specs.Operation.{node_meaning};
ghost use Rattle.btree_ops.specs.declared.node_op.NodeOp.{NodeOp};
ghost use Rattle.btree_ops.specs.declared.node_op.NodeOp.TheVariants.{Put};
ghost use Rattle.logical_btree.specs.Walk.{Pair};
ghost use Rattle.logical_btree.specs.Tree.{IsTree, content_of};
ghost use Rattle.logical_btree.specs.Plan.{insert_next, insert_plan, delete_plan, range_answer, is_there};
ghost use Rattle.logical_btree.specs.Laws.{IsRange, IsTreeFull, SplitKeeps, GetTells, RangeTells, InsertActs, DeleteActs};
ghost use Rattle.logical_btree.specs.declared.refusal.TreeRefusal.{TreeRefusal};
ghost use Rattle.logical_btree.specs.declared.refusal.TreeRefusal.TheVariants.{NoKey};

/// On a tree the calls act on the map of all its pairs as on an ordered map: a get reports what the map has, a range reports
/// the map's pairs in it, an insert and a delete change the map by their last command alone, or leave it as it was.
pub fn a_tree_is_an_ordered_map()
    ensures get { (b : Bounds) (lo hi : ℕ) (s : State) (key : List ℕ) → IsTrue (is_there b lo hi) → IsTree lo hi s → GetTells b lo hi s key }
    ensures range { (b : Bounds) (lo hi : ℕ) (s : State) (from to : List ℕ) → IsTrue (is_there b lo hi) → IsTree lo hi s
        → RangeTells b lo hi s from to }
    ensures insert { (b : Bounds) (lo hi : ℕ) (s : State) (key value : List ℕ) → IsRange b lo hi → IsTrue (is_short key) → IsTrue (is_short value)
        → IsTree lo hi s → InsertActs b lo hi s key value }
    ensures delete { (b : Bounds) (lo hi : ℕ) (s : State) (key : List ℕ) → IsRange b lo hi → IsTree lo hi s → DeleteActs b lo hi s key }
{}

/// Each split that an insert makes of a tree leaves a tree with the same pairs, and fewer objects free.
pub fn a_split_keeps_the_tree()
    ensures { (b : Bounds) (lo hi : ℕ) (s : State) (key value : List ℕ) (op : NodeOp) → IsRange b lo hi → IsTree lo hi s
        → insert_next b lo hi s key value ≡ goes_on op → SplitKeeps b lo hi s op }
{}

/// The pairs that a range reports a tree rise strictly by their keys.
pub fn a_range_rises()
    ensures { (b : Bounds) (lo hi : ℕ) (s : State) (from to : List ℕ) (pairs : List Pair) → IsTree lo hi s
        → range_answer b lo hi s from to ≡ Ok pairs → T (is_sorted byte_order pairs) }
{}

/// On every state, whether the range is a tree or not, the commands of a call are accepted one after the other where a
/// value holds 1,024 bytes; where it holds fewer, the first of them is refused as too large.
pub fn commands_are_accepted()
    ensures insert { (b : Bounds) (lo hi : ℕ) (s : State) (key value : List ℕ) → IsTrue (is_short key) → IsTrue (is_short value)
        → 1024 ≤ b.cap → AllAccepted (node_meaning b) s (insert_plan b lo hi s key value).commands }
    ensures delete { (b : Bounds) (lo hi : ℕ) (s : State) (key : List ℕ) → IsTrue (is_short key)
        → 1024 ≤ b.cap → AllAccepted (node_meaning b) s (delete_plan b lo hi s key).commands }
    ensures insert_too_large { (b : Bounds) (lo hi : ℕ) (s : State) (key value : List ℕ) → IsTrue (is_short key) → IsTrue (is_short value)
        → b.cap < 1024 → FirstTooLarge (node_meaning b) s (insert_plan b lo hi s key value).commands }
    ensures delete_too_large { (b : Bounds) (lo hi : ℕ) (s : State) (key : List ℕ) → IsTrue (is_short key)
        → b.cap < 1024 → FirstTooLarge (node_meaning b) s (delete_plan b lo hi s key).commands }
{}

/// On every state an insert that is not refused ends with its put: the splits before it come to an end, since each takes a
/// free object.
pub fn an_insert_ends_with_its_put()
    ensures { (b : Bounds) (lo hi : ℕ) (s : State) (key value : List ℕ) → IsRange b lo hi → EndsWith (λ op. (x : ℕ) × (op ≡ Put x key value)) (insert_plan b lo hi s key value) }
{}

/// On a tree an insert is refused for lack of free objects alone, and a delete exactly where the map lacks the key.
pub fn a_tree_refuses_by_cause()
    ensures insert { (b : Bounds) (lo hi : ℕ) (s : State) (key value : List ℕ) (r : TreeRefusal) → IsRange b lo hi → IsTree lo hi s
        → (insert_plan b lo hi s key value).refusal ≡ Some r → IsTreeFull r }
    ensures delete { (b : Bounds) (lo hi : ℕ) (s : State) (key : List ℕ) → IsTrue (is_there b lo hi) → IsTree lo hi s
        → (delete_plan b lo hi s key).refusal ≡ (if is_some (get (content_of lo hi s) key) then None else Some NoKey) }
{}

/// Whether a range is a tree, and what it holds, depends on its own objects alone.
pub fn a_tree_depends_on_its_range()
    ensures { (lo hi : ℕ) → lo ≤ hi → DependOn lo hi (IsTree lo hi) (content_of lo hi) }
{}
