// What the calls do to a map.
ghost use Rattle.std.specs.Prelude.{◌≡◌, ◌<◌, ◌≤◌, ◌^◌, ℕ, IsTrue, None, Ok, Some, List, length, option_to_list, take};
ghost use Rattle.std.specs.FinMap.{entries, get as get_pair};
ghost use Rattle.std.specs.List.{list_all};
ghost use Rattle.oper_core.specs.Meaning.{Accepts};
ghost use Rattle.oper_core.specs.State.{State};
ghost use Rattle.oper_core.specs.declared.bounds.Bounds.{Bounds};
ghost use Rattle.formats.specs.Objects.{bounds_of};
ghost use Rattle.formats.specs.declared.params.Params.{Params};
ghost use Rattle.page_map.specs.Map.{IsMap, Span, all_keys, content_of};
ghost use Rattle.page_map.specs.Plan.{Admits, delete_command};
ghost use Rattle.page_ops.specs.Operation.{page_meaning};
ghost use Rattle.page_ops.specs.declared.page_op.PageOp.{PageOp};
ghost use Rattle.page_map.specs.Sets.{IsKept};
ghost use Rattle.page_map.specs.Reads.{are_bytes, back_of, count_of, first_of, last_of, next_of, prefix_of, prev_of, range_of};
ghost use Rattle.range_calls.specs.Store.{Command, state_of};
ghost use Rattle.map_client.specs.Answers.{get_told};
ghost use Rattle.map_client.specs.Laws.{DeleteActs, SetActs, TakesOut};
ghost use Rattle.map_client.specs.Ranging.{back_told, count_told, next_told, prefix_told, prev_told, range_told};

use page_map::{
    a_delete_is_done_or_refused, a_get_finds_what_the_map_has, a_set_is_done_or_refused,
    changes_are_those_of_the_map, ranges_are_read_from_leaves, reads_are_ranges,
};

/// Where the range is a map a get answers what the map has at the key. A delete is refused exactly where the map lacks the key;
/// else its commands are all accepted, the first one makes the map without the key, and those behind it keep what the map holds. The
/// commands of a set are all accepted, and at each moment the range is a map, with the old content or, behind the last one, with the
/// pair; or the set is refused by its cause. The command that takes a key out is accepted whatever the range holds.
pub fn calls_act_as_on_an_ordered_map()
    ensures get { (b : Bounds) (lo hi : ℕ) (s : State) (key : List ℕ) → hi < 2 ^ 32 → hi < b.objects → (is : IsMap lo hi s) → get_told b lo hi s key ≡ Ok (get_pair (content_of is) key) }
    ensures accepted { (b : Bounds) (lo hi : ℕ) (s : State) (key : List ℕ) (op : PageOp) → lo ≤ hi → hi < 2 ^ 32 → Admits b hi → ((x : ℕ) → length (s x) ≤ b.cap)
        → delete_command lo hi s key ≡ Ok (Some op) → Accepts (page_meaning b) s op }
    ensures taken { (b : Bounds) (lo hi : ℕ) (s : State) (key : List ℕ) → hi < 2 ^ 32 → Admits b hi → 1024 ≤ b.cap → ((x : ℕ) → length (s x) ≤ b.cap) → (is : IsMap lo hi s)
        → TakesOut b lo hi s is key }
    ensures delete { (p : Params) (commands : List Command) (lo hi : ℕ) (key : List ℕ) → hi < 2 ^ 32 → Admits (bounds_of p) hi → 1024 ≤ p.cap
        → (is : IsKept (bounds_of p) lo hi (state_of p commands)) → DeleteActs p commands lo hi is key }
    ensures set { (p : Params) (commands : List Command) (lo hi : ℕ) (key value : List ℕ) → hi < 2 ^ 32 → Admits (bounds_of p) hi → 1024 ≤ p.cap
        → (is : IsKept (bounds_of p) lo hi (state_of p commands)) → SetActs p commands lo hi is key value }
{
    a_get_finds_what_the_map_has();
    changes_are_those_of_the_map();
    a_set_is_done_or_refused();
    a_delete_is_done_or_refused();
}

/// Where the range is a map a count answers how many pairs of the map have keys in the span, a range the first of them, at most so
/// many, one back the last of them, and the reads beside a key the first pair above it and the last one below it. Where its keys
/// are bytes, a prefix has those that begin with it. A range of one of all keys has the first pair of all, and the last one stands
/// before no key.
pub fn reads_of_ranges_are_those_of_the_map()
    ensures count { (b : Bounds) (lo hi : ℕ) (s : State) (span : Span) → hi < 2 ^ 32 → hi < b.objects → (is : IsMap lo hi s) → count_told b lo hi s span ≡ Ok (count_of (content_of is) span) }
    ensures range { (b : Bounds) (lo hi : ℕ) (s : State) (span : Span) (most : ℕ) → hi < 2 ^ 32 → hi < b.objects → (is : IsMap lo hi s) → range_told b lo hi s span most ≡ Ok (range_of (content_of is) span most) }
    ensures back { (b : Bounds) (lo hi : ℕ) (s : State) (span : Span) (most : ℕ) → hi < 2 ^ 32 → hi < b.objects → (is : IsMap lo hi s) → back_told b lo hi s span most ≡ Ok (back_of (content_of is) span most) }
    ensures next { (b : Bounds) (lo hi : ℕ) (s : State) (key : List ℕ) → hi < 2 ^ 32 → hi < b.objects → (is : IsMap lo hi s) → next_told b lo hi s key ≡ Ok (option_to_list (next_of (content_of is) key)) }
    ensures prev { (b : Bounds) (lo hi : ℕ) (s : State) (key : List ℕ) → hi < 2 ^ 32 → hi < b.objects → (is : IsMap lo hi s) → prev_told b lo hi s (Some key) ≡ Ok (option_to_list (prev_of (content_of is) key)) }
    ensures prefix { (b : Bounds) (lo hi : ℕ) (s : State) (bytes : List ℕ) (most : ℕ) → hi < 2 ^ 32 → hi < b.objects → (is : IsMap lo hi s) → IsTrue (list_all (λ c. are_bytes c.0) (entries (content_of is)))
        → prefix_told b lo hi s bytes most ≡ Ok (take most (prefix_of (content_of is) bytes)) }
    ensures first { (b : Bounds) (lo hi : ℕ) (s : State) → hi < 2 ^ 32 → hi < b.objects → (is : IsMap lo hi s) → range_told b lo hi s all_keys 1 ≡ Ok (option_to_list (first_of (content_of is))) }
    ensures last { (b : Bounds) (lo hi : ℕ) (s : State) → hi < 2 ^ 32 → hi < b.objects → (is : IsMap lo hi s) → prev_told b lo hi s None ≡ Ok (option_to_list (last_of (content_of is))) }
{
    ranges_are_read_from_leaves();
    reads_are_ranges();
}
