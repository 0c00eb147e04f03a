ghost use Rattle.std.specs.Prelude.{ℤ, ◌≡◌, ◌++◌, ◌∷◌, [], None, Some, codes};
ghost use Rattle.std.specs.List.{flat_map};
ghost use Rattle.resp_words.specs.Commands.{command_bytes, ended};
ghost use Rattle.resp_words.specs.Lines.{AreWords};
ghost use Rattle.resp_words.specs.Replies.{array, error, integer, reply_bytes, status, value};
ghost use Rattle.resp_words.specs.Worked.{minus_seven};

/// Commands and replies as they are on the wire, line by line.
pub fn bytes_are_as_worked()
    ensures command { command_bytes (codes "GET" ∷ codes "key" ∷ []) ≡ flat_map ended (codes "*2" ∷ codes "$3" ∷ codes "GET" ∷ codes "$3" ∷ codes "key" ∷ []) }
    ensures empty_word { command_bytes (codes "SET" ∷ codes "k" ∷ [] ∷ [])
        ≡ flat_map ended (codes "*3" ∷ codes "$3" ∷ codes "SET" ∷ codes "$1" ∷ codes "k" ∷ codes "$0" ∷ [] ∷ []) }
    ensures words { AreWords (codes " GET  key " ++ 13 ∷ []) (codes "GET" ∷ codes "key" ∷ []) }
    ensures texts { reply_bytes (status (codes "OK")) ++ reply_bytes (error (codes "ERR no")) ≡ flat_map ended (codes "+OK" ∷ codes "-ERR no" ∷ []) }
    ensures numbers { reply_bytes (integer minus_seven) ≡ ended (codes ":-7") }
    ensures values { reply_bytes (value (Some (codes "abc"))) ++ reply_bytes (value None) ≡ flat_map ended (codes "$3" ∷ codes "abc" ∷ codes "$-1" ∷ []) }
    ensures arrays { reply_bytes (array (Some 12)) ++ reply_bytes (array None) ≡ flat_map ended (codes "*12" ∷ codes "*-1" ∷ []) }
    ensures one_line { reply_bytes (error (codes "ERR" ++ 13 ∷ 10 ∷ codes "+OK")) ≡ ended (codes "-ERR  +OK") }
{}
