ghost use Rattle.std.specs.Prelude.{◌≡◌, ◌++◌, List, ℕ};
ghost use Rattle.resp_words.specs.Replies.{IsSmall, Said, heard, reply_bytes};

/// Bytes begin with at most one reply, so what clients are said can be read back in one way. No text of an answer makes a
/// client hear a reply more, since the ends of its lines are sent as spaces.
pub fn replies_are_told_apart()
    ensures reply { (a b : Said) (x y : List ℕ) → IsSmall a → IsSmall b → reply_bytes a ++ x ≡ reply_bytes b ++ y → heard a ≡ heard b }
    ensures rest { (a b : Said) (x y : List ℕ) → IsSmall a → IsSmall b → reply_bytes a ++ x ≡ reply_bytes b ++ y → x ≡ y }
{}
