ghost use Rattle.std.specs.Prelude.{◌≡◌, ℕ, List, ◌++◌};
ghost use Rattle.client_frames.specs.Frames.{Frame, IsFrame, frame_bytes};
ghost use Rattle.client_frames.specs.Reading.{Splits};

/// Bytes begin with at most one frame, so no frame's bytes begin another's; a stream is whole frames and an unfinished rest in one
/// way; and what a piece more makes of it is told by the rest and that piece alone, so it does not matter how reads cut it.
pub fn client_frames_are_told_apart()
    ensures frame { (a b : Frame) (x y : List ℕ) → IsFrame a → IsFrame b → frame_bytes a ++ x ≡ frame_bytes b ++ y → (a ≡ b) × (x ≡ y) }
    ensures stream { (bytes rest other : List ℕ) (frames others : List Frame) →
        Splits bytes frames rest → Splits bytes others other → (frames ≡ others) × (rest ≡ other) }
    ensures pieces { (bytes piece rest last : List ℕ) (frames more : List Frame) →
        Splits bytes frames rest → Splits (rest ++ piece) more last → Splits (bytes ++ piece) (frames ++ more) last }
{}
