ghost use Rattle.std.specs.Prelude.{◌≡◌, List, is_some, true, ℕ};
ghost use Rattle.std.specs.FinMap.{get};
ghost use Rattle.std.specs.List.{AllByRecursion};
ghost use Rattle.named_words.specs.Effects.{Names};
ghost use Rattle.named_words.specs.Scans.{Scans, is_answered};

/// A scan from 0 to the end answers each name that is there at each of its calls, whatever else comes and goes meanwhile.
pub fn a_scan_finds_each_name()
    ensures { (name : List ℕ) (calls : List (Names × ℕ)) (pages : List (List (List ℕ))) → Scans 0 calls pages →
        AllByRecursion (λ call. is_some (get call.0 name) ≡ true) calls → is_answered name pages ≡ true }
{}
