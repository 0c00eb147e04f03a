// What inserts and deletes make of a tree over a whole run, wherever it stops.
ghost use Rattle.std.specs.Prelude.{◌≡◌, ℕ, take, map};
ghost use Rattle.oper_core.specs.State.{State};
ghost use Rattle.formats.specs.Objects.{bounds_of};
ghost use Rattle.formats.specs.declared.params.Params.{Params};
ghost use Rattle.op_codec.specs.AllOps.{node};
ghost use Rattle.logical_btree.specs.Tree.{IsTree, content_of};
ghost use Rattle.logical_btree.specs.Laws.{IsRange};
ghost use Rattle.range_calls.specs.OnlyCalls.{FilesKeep, MapCall, OnlyCallsKeep, called, commands_in, part_steps};
ghost use Rattle.tree_client.specs.Calls.{call_plan};

use logical_btree::{a_tree_depends_on_its_range, a_tree_is_an_ordered_map};
use range_calls::files_stand_for_one_state;

/// A range that was a tree after some commands, and whose objects were then written by inserts and deletes of this tree
/// alone, is a tree after each first part of the commands that came then, so after every stop. It holds the pairs that it held,
/// changed by those inserts and deletes whose last command is in that part, one after the other.
pub fn only_calls_keep_the_tree()
    ensures commands { (p : Params) (lo hi : ℕ) → IsRange (bounds_of p) lo hi →
        OnlyCallsKeep p lo hi node (call_plan (bounds_of p) lo hi) (IsTree lo hi) (content_of lo hi) }
    ensures files { (p : Params) (lo hi : ℕ) → IsRange (bounds_of p) lo hi →
        FilesKeep p lo hi node (call_plan (bounds_of p) lo hi) (IsTree lo hi) (content_of lo hi) }
    // A call that has added so many commands, by what `insert` and `delete` say, is such a part.
    ensures part { (p : Params) (lo hi : ℕ) (s : State) (call : MapCall) (n : ℕ) →
        commands_in (part_steps p lo hi node (call_plan (bounds_of p) lo hi) s (called call n)) ≡ take n (map node (call_plan (bounds_of p) lo hi s call).commands) }
{
    a_tree_is_an_ordered_map();
    a_tree_depends_on_its_range();
    files_stand_for_one_state();
}
