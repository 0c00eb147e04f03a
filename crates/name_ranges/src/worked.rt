//! Keys and a small range worked out by computation.

ghost use Rattle.std.specs.Prelude.{◌≡◌, ◌∷◌, [], Ok, None, Some, codes, replicate};
ghost use Rattle.call_plans.specs.Plan.{one_command, refused_by};
ghost use Rattle.page_ops.specs.declared.page_op.PageOp.TheVariants.{Delete, Put, Set};
ghost use Rattle.page_map.specs.Deletes.{delete_plan};
ghost use Rattle.page_map.specs.Sets.{set_plan};
ghost use Rattle.page_map.specs.Walk.{get_answer};
ghost use Rattle.page_map.specs.declared.refusal.MapRefusal.TheVariants.{NoKey, TooLong};
ghost use Rattle.named_words.specs.Effects.{place_of};
ghost use Rattle.name_ranges.specs.Directory.{IsSpare, key_of, name_in, name_most, number_bytes, number_in, object_of};
ghost use Rattle.name_ranges.specs.Named.{IsNamed};
ghost use Rattle.name_ranges.specs.Worked.{bounds, of_a, only_a, sample};

/// Places are halves of FNV-1a of 64 bits, and keys begin with them.
pub fn keys_are_as_worked()
    ensures place_of_none { place_of [] ≡ 7347990519673328018 }
    ensures place { place_of (codes "foobar") ≡ 4812695130666218484 }
    ensures key_of_none { key_of [] ≡ 101 ∷ 249 ∷ 78 ∷ 114 ∷ 66 ∷ 17 ∷ 17 ∷ 146 ∷ [] }
    ensures key { key_of (codes "a") ≡ 87 ∷ 177 ∷ 238 ∷ 38 ∷ 67 ∷ 0 ∷ 246 ∷ 70 ∷ 97 ∷ [] }
    ensures name { name_in (key_of (codes "foobar")) ≡ codes "foobar" }
    ensures number { number_bytes 66051 ≡ 3 ∷ 2 ∷ 1 ∷ 0 ∷ [] }
    ensures read_back { number_in (3 ∷ 2 ∷ 1 ∷ 0 ∷ []) ≡ 66051 }
{}

/// What a directory has for names, and how long names may be.
pub fn directories_are_as_worked()
    ensures there { object_of of_a (codes "a") ≡ Some 5 }
    ensures missing { object_of of_a (codes "b") ≡ None }
    ensures spare { IsSpare 3 100 of_a 6 }
    ensures shortest { name_most 1024 ≡ 112 }
    ensures longest { name_most 65535 ≡ 1015 }
{}

/// A small range has one name, and the commands of a set, of a delete and of a set that is too long.
pub fn a_range_is_as_worked()
    ensures named { IsNamed bounds 0 3 sample only_a }
    ensures found { get_answer 0 3 sample (key_of (codes "a")) ≡ Ok (Some (5 ∷ 0 ∷ 0 ∷ 0 ∷ [])) }
    ensures not_found { get_answer 0 3 sample (key_of (codes "b")) ≡ Ok None }
    ensures set { set_plan bounds 0 3 (key_of (codes "b")) (number_bytes 6) sample ≡ one_command (Put 0 1 (key_of (codes "b")) (number_bytes 6)) }
    ensures set_again { set_plan bounds 0 3 (key_of (codes "a")) (number_bytes 6) sample ≡ one_command (Set 0 0 (number_bytes 6)) }
    ensures deleted { delete_plan bounds 0 3 (key_of (codes "a")) sample ≡ one_command (Delete 0 0) }
    ensures missing { delete_plan bounds 0 3 (key_of (codes "b")) sample ≡ refused_by NoKey }
    ensures long { (set_plan bounds 0 3 (key_of (replicate 113 97)) (number_bytes 6) sample).refusal ≡ Some TooLong }
{}
