ghost use Rattle.std.specs.Prelude.{◌≡◌, ◌++◌, ◌∷◌, [], codes, true, false};
ghost use Rattle.std.specs.List.{flat_map};
ghost use Rattle.resp_words.specs.Commands.{ended};
ghost use Rattle.named_words.specs.Effects.{put, take};
ghost use Rattle.named_words.specs.Patterns.{matches};
ghost use Rattle.named_words.specs.Worked.{Works};

/// What requests on values do, and the bytes that Redis answers to them.
pub fn values_are_as_worked()
    ensures get { Works (codes "GET a") [] (flat_map ended (codes "$2" ∷ codes "10" ∷ [])) }
    ensures get_none { Works (codes "get x") [] (flat_map ended (codes "$-1" ∷ [])) }
    ensures set { Works (codes "SET x y") (put (codes "x") (codes "y") ∷ []) (flat_map ended (codes "+OK" ∷ [])) }
    ensures set_missing { Works (codes "SET a y NX") [] (flat_map ended (codes "$-1" ∷ [])) }
    ensures set_back { Works (codes "SET a 7 xx GET") (put (codes "a") (codes "7") ∷ []) (flat_map ended (codes "$2" ∷ codes "10" ∷ [])) }
    ensures set_syntax { Works (codes "SET a 7 NX XX") [] (flat_map ended (codes "-ERR syntax error" ∷ [])) }
    ensures get_range { Works (codes "GETRANGE b -3 -2") [] (flat_map ended (codes "$2" ∷ codes "ll" ∷ [])) }
    ensures append { Works (codes "APPEND a 5") (put (codes "a") (codes "105") ∷ []) (flat_map ended (codes ":3" ∷ [])) }
    ensures m_get { Works (codes "MGET a x") [] (flat_map ended (codes "*2" ∷ codes "$2" ∷ codes "10" ∷ codes "$-1" ∷ [])) }
    ensures m_set { Works (codes "MSET a 1 x 2") (put (codes "a") (codes "1") ∷ put (codes "x") (codes "2") ∷ []) (flat_map ended (codes "+OK" ∷ [])) }
{}

/// What requests on numbers and names do, and the bytes that Redis answers to them.
pub fn names_are_as_worked()
    ensures incr { Works (codes "INCR a") (put (codes "a") (codes "11") ∷ []) (flat_map ended (codes ":11" ∷ [])) }
    ensures decr_new { Works (codes "DECRBY x 3") (put (codes "x") (codes "-3") ∷ []) (flat_map ended (codes ":-3" ∷ [])) }
    ensures no_number { Works (codes "INCR b") [] (flat_map ended (codes "-ERR value is not an integer or out of range" ∷ [])) }
    ensures overflow { Works (codes "INCRBY a 9223372036854775807") [] (flat_map ended (codes "-ERR increment or decrement would overflow" ∷ [])) }
    ensures exists { Works (codes "EXISTS a a x") [] (flat_map ended (codes ":2" ∷ [])) }
    ensures copy { Works (codes "COPY a x") (put (codes "x") (codes "10") ∷ []) (flat_map ended (codes ":1" ∷ [])) }
    ensures copy_there { Works (codes "COPY a b") [] (flat_map ended (codes ":0" ∷ [])) }
    ensures rename { Works (codes "RENAME a b") (take (codes "a") ∷ put (codes "b") (codes "10") ∷ []) (flat_map ended (codes "+OK" ∷ [])) }
    ensures rename_none { Works (codes "RENAME x b") [] (flat_map ended (codes "-ERR no such key" ∷ [])) }
    ensures delete { Works (codes "DEL x a") (take (codes "a") ∷ []) (flat_map ended (codes ":1" ∷ [])) }
{}

/// What is refused, in Redis's words.
pub fn refusals_are_as_worked()
    ensures unknown { Works (codes "FOO a b") [] (flat_map ended (codes "-ERR unknown command 'FOO', with args beginning with: 'a' 'b' " ∷ [])) }
    ensures count { Works (codes "GET") [] (flat_map ended (codes "-ERR wrong number of arguments for 'get' command" ∷ [])) }
    ensures part_count { Works (codes "CLIENT SETNAME") [] (flat_map ended (codes "-ERR wrong number of arguments for 'client|setname' command" ∷ [])) }
    ensures part { Works (codes "client kill") [] (flat_map ended (codes "-ERR unknown subcommand 'kill'. Try CLIENT HELP." ∷ [])) }
    ensures odd { Works (codes "MSET a 1 b") [] (flat_map ended (codes "-ERR wrong number of arguments for 'mset' command" ∷ [])) }
    ensures number { Works (codes "INCRBY a +1") [] (flat_map ended (codes "-ERR value is not an integer or out of range" ∷ [])) }
    ensures cursor { Works (codes "SCAN -1") [] (flat_map ended (codes "-ERR invalid cursor" ∷ [])) }
    ensures database { Works (codes "SELECT 1") [] (flat_map ended (codes "-ERR DB index is out of range" ∷ [])) }
    ensures same { Works (codes "COPY a a") [] (flat_map ended (codes "-ERR source and destination objects are the same" ∷ [])) }
{}

/// Names that patterns fit, and others.
pub fn patterns_are_as_worked()
    ensures star { matches (codes "h*o") (codes "hello") ≡ true }
    ensures star_none { matches (codes "hello*") (codes "hello") ≡ true }
    ensures one { matches (codes "h?llo") (codes "hllo") ≡ false }
    ensures class { matches (codes "h[a-cx]llo") (codes "hxllo") ≡ true }
    ensures outside { matches (codes "h[^e]llo") (codes "hello") ≡ false }
    ensures backslash { matches (97 ∷ 92 ∷ 42 ∷ []) (codes "a*") ≡ true }
    ensures two_stars { matches (codes "*ab*ab") (codes "abaab") ≡ true }
    ensures unclosed { matches (codes "[ab") (codes "b") ≡ true }
{}
