// What puts and deletes make of a hash file over a whole run, wherever it stops.
ghost use Rattle.std.specs.Prelude.{◌≡◌, ℕ, take, map};
ghost use Rattle.oper_core.specs.State.{State};
ghost use Rattle.formats.specs.Objects.{bounds_of};
ghost use Rattle.formats.specs.declared.params.Params.{Params};
ghost use Rattle.op_codec.specs.AllOps.{hash};
ghost use Rattle.hash_file.specs.File.{IsHash, content_of};
ghost use Rattle.hash_file.specs.Laws.{IsRange};
ghost use Rattle.range_calls.specs.OnlyCalls.{FilesKeep, MapCall, OnlyCallsKeep, called, commands_in, part_steps};
ghost use Rattle.hash_client.specs.Calls.{call_plan};

use hash_file::{a_hash_file_depends_on_its_range, a_hash_file_is_a_map};
use range_calls::files_stand_for_one_state;

/// A range that was a hash file after some commands, and whose objects were then written by puts and deletes of this file
/// alone, is a hash file after each first part of the commands that came then, so after every stop. It holds the pairs that it
/// held, changed by those puts and deletes whose last command is in that part, one after the other.
pub fn only_calls_keep_the_file()
    ensures commands { (p : Params) (lo hi : ℕ) → IsRange (bounds_of p) lo hi →
        OnlyCallsKeep p lo hi hash (call_plan (bounds_of p) lo hi) (IsHash lo hi) (content_of lo) }
    ensures files { (p : Params) (lo hi : ℕ) → IsRange (bounds_of p) lo hi →
        FilesKeep p lo hi hash (call_plan (bounds_of p) lo hi) (IsHash lo hi) (content_of lo) }
    // A call that has added so many commands, by what `put` and `delete` say, is such a part.
    ensures part { (p : Params) (lo hi : ℕ) (s : State) (call : MapCall) (n : ℕ) →
        commands_in (part_steps p lo hi hash (call_plan (bounds_of p) lo hi) s (called call n)) ≡ take n (map hash (call_plan (bounds_of p) lo hi s call).commands) }
{
    a_hash_file_is_a_map();
    a_hash_file_depends_on_its_range();
    files_stand_for_one_state();
}
