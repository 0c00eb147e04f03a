// What the calls of upkeep do to a map.
ghost use Rattle.std.specs.Prelude.{◌≡◌, ◌<◌, ◌≤◌, ◌^◌, ℕ, List, Ok};
ghost use Rattle.oper_core.specs.State.{State};
ghost use Rattle.oper_core.specs.declared.bounds.Bounds.{Bounds};
ghost use Rattle.formats.specs.Objects.{bounds_of};
ghost use Rattle.formats.specs.declared.params.Params.{Params};
ghost use Rattle.page_map.specs.Checks.{met_on};
ghost use Rattle.page_map.specs.Map.{IsMap, Range};
ghost use Rattle.page_map.specs.Plan.{Admits};
ghost use Rattle.page_map.specs.Sets.{IsKept};
ghost use Rattle.range_calls.specs.Store.{Command, state_of};
ghost use Rattle.map_client.specs.Checking.{check_told, counted};
ghost use Rattle.map_client.specs.Laws.{SweepActs, TidyActs};
ghost use Rattle.map_client.specs.declared.checked.Checked.{Checked};

use page_map::{a_check_finds_a_map, a_delete_is_done_or_refused, a_sweep_leaves_nothing_over};

/// A check answers what a range has exactly where it is a map. There the commands that tidy the way to a key, and those of a sweep,
/// are all accepted, and behind each the range is a map with the old content; behind a sweep nothing is left over.
pub fn upkeep_keeps_the_map()
    ensures found { (b : Bounds) (range : Range) (s : State) → range.hi < 2 ^ 32 → range.hi < b.objects → (is : IsMap range.lo range.hi s) → check_told b range s ≡ Ok (counted (met_on is)) }
    ensures sound { (b : Bounds) (range : Range) (s : State) (checked : Checked) → range.lo ≤ range.hi → check_told b range s ≡ Ok checked → (is : IsMap range.lo range.hi s) × (counted (met_on is) ≡ checked) }
    ensures tidy { (p : Params) (commands : List Command) (lo hi : ℕ) (key : List ℕ) → hi < 2 ^ 32 → Admits (bounds_of p) hi → 1024 ≤ p.cap
        → (is : IsKept (bounds_of p) lo hi (state_of p commands)) → TidyActs p commands lo hi is key }
    ensures sweep { (p : Params) (commands : List Command) (lo hi : ℕ) → hi < 2 ^ 32 → Admits (bounds_of p) hi → 1024 ≤ p.cap
        → (is : IsKept (bounds_of p) lo hi (state_of p commands)) → SweepActs p commands lo hi is }
{
    a_check_finds_a_map();
    a_delete_is_done_or_refused();
    a_sweep_leaves_nothing_over();
}
