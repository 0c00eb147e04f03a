//! What holds of maps, as laws on definitions.

ghost use Rattle.std.specs.Prelude.{◌≡◌, ◌<◌, ◌≤◌, ◌^◌, ◌+◌, ◌*◌, ℕ, true, false, IsTrue, None, Ok, Err, List, [], length, slice_get};
ghost use Rattle.std.specs.List.{list_all};
ghost use Rattle.std.specs.FinMap.{FinMap, empty, entries, get};
ghost use Rattle.oper_core.specs.State.{State};
ghost use Rattle.oper_core.specs.Meaning.{after};
ghost use Rattle.oper_core.specs.declared.bounds.Bounds.{Bounds};
ghost use Rattle.key_entries.specs.Entries.{byte_order};
ghost use Rattle.call_plans.specs.Laws.{AreAlike, after_all};
ghost use Rattle.page_ops.specs.Operation.{page_meaning, written_by};
ghost use Rattle.page_ops.specs.declared.page_op.PageOp.{PageOp};
ghost use Rattle.page_map.specs.Checks.{Checking, Met, before, check, check_from, is_met, met_on, taken};
ghost use Rattle.page_map.specs.Deletes.{Deletes, IsFull, NoneIsEmpty, delete_plan, tidy_plan, tidy_turn};
ghost use Rattle.page_map.specs.Map.{IsMap, Range, Span, all_keys, bytes_at, content_of, objects_in, times};
ghost use Rattle.page_map.specs.Plan.{Admits, DeleteMakes, SetMakes};
ghost use Rattle.page_map.specs.Ranges.{back_answer, count_answer, range_answer};
ghost use Rattle.page_map.specs.Reads.{above, are_bytes, back_of, below, count_of, first_of, last_of, next_of, pairs_of, prefix_of, prefix_span, prev_of, range_of};
ghost use Rattle.page_map.specs.Sets.{IsKept, IsTurn, Keeps, Sets, set_plan, set_turn};
ghost use Rattle.page_map.specs.Splits.{cells_read};
ghost use Rattle.page_map.specs.Sweeps.{Sweeps, sweep_plan};
ghost use Rattle.page_map.specs.Walk.{get_answer};
ghost use Rattle.page_map.specs.declared.awaited.Awaited.{Awaited};

use page_ops::{a_search_finds_the_place, operations_are_on_cells};

/// On a map a get answers what the map has at the key.
pub fn a_get_finds_what_the_map_has()
    ensures { (lo hi : ℕ) (s : State) (key : List ℕ) → hi < 2 ^ 32 → (is : IsMap lo hi s) → get_answer lo hi s key ≡ Ok (get (content_of is) key) }
{
    a_search_finds_the_place();
}

/// On a map the command of a set makes the map with the pair, where it is accepted, and that of a delete the map without the key;
/// there is none exactly where the map lacks the key. Each is one operation on the leaf of the key, and is refused for no other
/// cause than that the leaf would be too large.
pub fn changes_are_those_of_the_map()
    ensures set { (b : Bounds) (lo hi : ℕ) (s : State) (key value : List ℕ) → hi < 2 ^ 32 → (is : IsMap lo hi s) → SetMakes b lo hi s is key value }
    ensures delete { (b : Bounds) (lo hi : ℕ) (s : State) (key : List ℕ) → hi < 2 ^ 32 → (is : IsMap lo hi s) → DeleteMakes b lo hi s is key }
{
    a_search_finds_the_place();
    operations_are_on_cells();
}

/// On a map the commands of a delete are accepted one after the other, and behind each the range is a map: from the first one on,
/// without the key; they are two for each level at most and five. It is refused exactly where the map lacks the key. The commands
/// that tidy the way to a key, where a leaf without cells gives way and a root with one child becomes it, keep what the map holds.
/// Where no leaf was without cells but only children, nothing is left to tidy behind a delete that is done, and again none is.
pub fn a_delete_is_done_or_refused()
    ensures delete { (b : Bounds) (lo hi : ℕ) (s : State) (key : List ℕ) → hi < 2 ^ 32 → Admits b hi → (is : IsKept b lo hi s) → Deletes b lo hi s is key (delete_plan b lo hi key s) }
    ensures tidy { (b : Bounds) (lo hi : ℕ) (s : State) (key : List ℕ) → hi < 2 ^ 32 → Admits b hi → (is : IsKept b lo hi s)
        → ((tidy_plan b lo hi key s).refusal ≡ None) × Keeps b lo hi s is (tidy_plan b lo hi key s).commands }
    ensures tidied { (b : Bounds) (lo hi : ℕ) (s : State) (key : List ℕ) → hi < 2 ^ 32 → Admits b hi → (is : IsKept b lo hi s) → NoneIsEmpty is.map.level is.map.tree → (delete_plan b lo hi key s).refusal ≡ None
        → (tidy_turn lo hi (after_all (page_meaning b) s (delete_plan b lo hi key s).commands) key ≡ Ok []) × IsFull b lo hi (after_all (page_meaning b) s (delete_plan b lo hi key s).commands) }
{
    a_search_finds_the_place();
    operations_are_on_cells();
}

/// A command that writes an object which the map does not reach keeps the map and what it holds: so a page may be made before it
/// is named, and be freed when it no longer is.
pub fn what_is_not_reached_may_be_written()
    ensures { (b : Bounds) (lo hi : ℕ) (s : State) (op : PageOp) (is : IsMap lo hi s) → times (written_by op) (objects_in is.level is.tree) ≡ 0
        → (kept : IsMap lo hi (after (page_meaning b) s op)) × (content_of kept ≡ content_of is) }
{}

/// Whether a range is a map, and what it holds, depends on its own objects alone.
pub fn a_map_depends_on_its_range()
    ensures { (lo hi : ℕ) (s t : State) → AreAlike lo hi s t → (is : IsMap lo hi s) → (also : IsMap lo hi t) × (content_of also ≡ content_of is) }
{}

/// A range whose first object is empty is a map without pairs, and where no value is longer than CAP it is one that calls keep.
pub fn an_empty_root_is_an_empty_map()
    ensures map { (lo hi : ℕ) (s : State) → lo ≤ hi → s lo ≡ [] → (is : IsMap lo hi s) × (content_of is ≡ empty) }
    ensures kept { (b : Bounds) (lo hi : ℕ) (s : State) → ((x : ℕ) → length (s x) ≤ b.cap) → lo ≤ hi → s lo ≡ [] → (is : IsKept b lo hi s) × (content_of is.map ≡ empty) }
{}

/// On a map what comes next in a set is one of three: commands that cut a page in two, or take out cells past its span, each of
/// which is accepted on the state that those before it leave, and behind each of which the range is a map with the old content;
/// the command that ends the call and makes the map with the pair; or a refusal, because the key or the value is too long, fewer
/// than two objects are empty, or the map has all its levels.
pub fn a_set_goes_by_turns()
    ensures { (b : Bounds) (lo hi : ℕ) (s : State) (key value : List ℕ) → hi < 2 ^ 32 → Admits b hi → (is : IsKept b lo hi s)
        → IsTurn b lo hi s is key value (set_turn b lo hi key value s) }
{
    a_search_finds_the_place();
    operations_are_on_cells();
}

/// On a map the commands of a set are accepted one after the other, and behind each the range is a map: with the old content
/// before the last one, and with the pair behind it; or the set is refused by its cause, and all of them keep the content. On
/// each level no more is cut than the page on the way, so there are six commands for each, and seven.
pub fn a_set_is_done_or_refused()
    ensures { (b : Bounds) (lo hi : ℕ) (s : State) (key value : List ℕ) → hi < 2 ^ 32 → Admits b hi → (is : IsKept b lo hi s)
        → Sets b lo hi s is key value (set_plan b lo hi key value s) (6 * is.map.level + 7) }
{
    a_search_finds_the_place();
    operations_are_on_cells();
}

/// Where no leaf of a map is without cells but only children, a set that is done leaves it so; within the set a cut may leave the
/// leaf of the key without cells, until the pair is put there. A delete that is done leaves it so, too (`tidied`), and a map of one
/// leaf has none: so behind sets and deletes that are done a delete leaves nothing to tidy.
pub fn whole_sets_leave_no_leaf_empty()
    ensures { (b : Bounds) (lo hi : ℕ) (s : State) (key value : List ℕ) → hi < 2 ^ 32 → Admits b hi → (is : IsKept b lo hi s) → NoneIsEmpty is.map.level is.map.tree → (set_plan b lo hi key value s).refusal ≡ None
        → IsFull b lo hi (after_all (page_meaning b) s (set_plan b lo hi key value s).commands) }
{
    a_search_finds_the_place();
    operations_are_on_cells();
}

/// On a map ranges are read from its leaves: the pairs of a span from its beginning on, or from its end back, at most so many, and
/// how many there are.
pub fn ranges_are_read_from_leaves()
    ensures range { (lo hi : ℕ) (s : State) (span : Span) (most : ℕ) → hi < 2 ^ 32 → (is : IsMap lo hi s) → range_answer lo hi s span most ≡ Ok (range_of (content_of is) span most) }
    ensures back { (lo hi : ℕ) (s : State) (span : Span) (most : ℕ) → hi < 2 ^ 32 → (is : IsMap lo hi s) → back_answer lo hi s span most ≡ Ok (back_of (content_of is) span most) }
    ensures count { (lo hi : ℕ) (s : State) (span : Span) → hi < 2 ^ 32 → (is : IsMap lo hi s) → count_answer lo hi s span ≡ Ok (count_of (content_of is) span) }
{
    a_search_finds_the_place();
}

/// The first pair of a map and the last one, the first above a key and the last below it are ranges of one pair; and where keys are
/// bytes, the pairs whose keys begin with some bytes are those of a span.
pub fn reads_are_ranges()
    ensures first { (m : FinMap byte_order (List ℕ)) → first_of m ≡ slice_get (range_of m all_keys 1) 0 }
    ensures last { (m : FinMap byte_order (List ℕ)) → last_of m ≡ slice_get (back_of m all_keys 1) 0 }
    ensures next { (m : FinMap byte_order (List ℕ)) (key : List ℕ) → next_of m key ≡ slice_get (range_of m (above key) 1) 0 }
    ensures prev { (m : FinMap byte_order (List ℕ)) (key : List ℕ) → prev_of m key ≡ slice_get (back_of m (below key) 1) 0 }
    ensures prefix { (m : FinMap byte_order (List ℕ)) (bytes : List ℕ) → IsTrue (list_all (λ c. are_bytes c.0) (entries m)) → prefix_of m bytes ≡ pairs_of m (prefix_span bytes) }
{}

/// Where a check comes to the end it has found a map, with the objects, pairs and cells past spans that it has met; and of each map
/// it finds these. So it names a bad object exactly where the range is no map.
pub fn a_check_finds_a_map()
    ensures sound { (range : Range) (s : State) (met : Met) → range.lo ≤ range.hi → check range s ≡ Ok met → (is : IsMap range.lo range.hi s) × (met_on is ≡ met) }
    ensures complete { (range : Range) (s : State) → range.hi < 2 ^ 32 → (is : IsMap range.lo range.hi s) → check range s ≡ Ok (met_on is) }
{
    a_search_finds_the_place();
}

/// A check goes page by page: where the page that comes next is met, what is below it comes next; else it is bad.
pub fn a_check_goes_page_by_page()
    ensures met { (s : State) (x : Awaited) (c : Checking) → is_met x (bytes_at c.range.lo s x.object) c ≡ true
        → check_from s (before x c) ≡ check_from s (taken x (cells_read (bytes_at c.range.lo s x.object)) c) }
    ensures bad { (s : State) (x : Awaited) (c : Checking) → is_met x (bytes_at c.range.lo s x.object) c ≡ false → check_from s (before x c) ≡ Err x.object }
    ensures done { (s : State) (c : Checking) → c.waiting ≡ [] → check_from s c ≡ Ok c.met }
{}

/// On a map a sweep frees the objects of the range that hold something and are not reached: each of its commands keeps what the map
/// holds, and behind them every object that is not reached is empty.
pub fn a_sweep_leaves_nothing_over()
    ensures { (b : Bounds) (lo hi : ℕ) (s : State) → hi < 2 ^ 32 → Admits b hi → (is : IsKept b lo hi s) → Sweeps b lo hi s is (sweep_plan (record { lo = lo; hi = hi }) s) }
{
    a_search_finds_the_place();
    operations_are_on_cells();
}
