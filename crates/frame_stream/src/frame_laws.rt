ghost use Rattle.std.specs.Prelude.{◌≡◌, ℕ, List, ◌++◌};
ghost use Rattle.frame_stream.specs.Frames.{Splits};

/// A stream is whole frames and an unfinished rest in one way. What a piece more makes of it is told by the rest and that
/// piece alone.
pub fn frames_are_told_apart()
    ensures payloads { (bytes : List ℕ) (payloads others : List (List ℕ)) (rest other : List ℕ) →
        Splits bytes payloads rest → Splits bytes others other → payloads ≡ others }
    ensures rest { (bytes : List ℕ) (payloads others : List (List ℕ)) (rest other : List ℕ) →
        Splits bytes payloads rest → Splits bytes others other → rest ≡ other }
    ensures pieces { (bytes piece : List ℕ) (payloads more : List (List ℕ)) (rest last : List ℕ) →
        Splits bytes payloads rest → Splits (rest ++ piece) more last → Splits (bytes ++ piece) (payloads ++ more) last }
{}
