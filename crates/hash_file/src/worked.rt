//! Hash files worked out by computation.

ghost use Rattle.std.specs.Prelude.{◌≡◌, ◌++◌, ◌==◌, if◌then◌else◌, length, None, Some, Ok, Err, [], ◌∷◌};
ghost use Rattle.oper_core.specs.State.{start};
ghost use Rattle.hash_ops.specs.Blocks.{directory, directory_in};
ghost use Rattle.hash_ops.specs.declared.hash_op.HashOp.TheVariants.{Put, Delete, Split};
ghost use Rattle.hash_file.specs.Plan.{put_plan, delete_plan, get_answer};
ghost use Rattle.hash_file.specs.Worked.{bounds, pairs_to, put_all, after_puts, begun_with, value, seven_alike, eighth_alike, seven_even, no_directory, one_entry, no_pairs};
ghost use Rattle.hash_file.specs.declared.refusal.HashRefusal.TheVariants.{NoObject, BadHash, HashFull, NoRoom, NoKey};

/// The first put begins the file. The eighth key doubles the directory, and its bucket has room then.
pub fn eight_puts_split_the_bucket()
    ensures seven { put_all 7 (pairs_to 7) [] ≡ begun_with (pairs_to 7) }
    ensures eight { put_all 7 (pairs_to 8) [] ≡ begun_with (pairs_to 7) ++ Split 0 1 2 ∷ Put 1 (8 ∷ []) (168 ∷ []) ∷ [] }
    ensures count { length (put_all 7 (pairs_to 8) []) ≡ 10 }
    ensures get { get_answer bounds 0 7 (after_puts 7 (pairs_to 8)) (8 ∷ []) ≡ Ok (Some (168 ∷ [])) }
    ensures delete { delete_plan bounds 0 7 (after_puts 7 (pairs_to 8)) (4 ∷ []) ≡ record { commands = Delete 1 (4 ∷ []) ∷ []; refusal = None } }
    ensures no_room { put_plan bounds 0 1 (after_puts 1 (pairs_to 7)) (8 ∷ []) (168 ∷ []) ≡ record { commands = []; refusal = Some (NoRoom 0) } }
{}

/// Eight keys of one number's six low bits: six splits, each with the least free object, and the bucket is still full.
pub fn eight_keys_alike_fill_a_bucket()
    ensures before { put_all 7 seven_alike [] ≡ begun_with seven_alike }
    ensures splits { put_plan bounds 0 7 (after_puts 7 seven_alike) eighth_alike value ≡ record {
      commands = Split 0 1 2 ∷ Split 0 1 3 ∷ Split 0 1 4 ∷ Split 0 1 5 ∷ Split 0 1 6 ∷ Split 0 1 7 ∷ [];
      refusal = Some (HashFull 1);
    } }
{}

/// A split of a bucket that is as deep as the directory doubles it, one of another bucket does not.
pub fn a_split_doubles_where_it_must()
    ensures before { directory_in (after_puts 7 (pairs_to 14) 0) ≡ Some (directory 1 (1 ∷ 2 ∷ [])) }
    ensures doubles { put_plan bounds 0 7 (after_puts 7 (pairs_to 14)) (15 ∷ []) (175 ∷ []) ≡ record { commands = Split 0 2 3 ∷ Put 3 (15 ∷ []) (175 ∷ []) ∷ []; refusal = None } }
    ensures doubled { directory_in (after_puts 7 (pairs_to 15) 0) ≡ Some (directory 2 (1 ∷ 2 ∷ 1 ∷ 3 ∷ [])) }
    ensures stays { put_plan bounds 0 7 (after_puts 7 (pairs_to 15)) (16 ∷ []) (176 ∷ []) ≡ record { commands = Split 0 1 4 ∷ Put 1 (16 ∷ []) (176 ∷ []) ∷ []; refusal = None } }
    ensures stayed { directory_in (after_puts 7 (pairs_to 16) 0) ≡ Some (directory 2 (1 ∷ 2 ∷ 4 ∷ 3 ∷ [])) }
    ensures twice { put_plan bounds 0 7 (after_puts 7 seven_even) (16 ∷ []) value ≡ record { commands = Split 0 1 2 ∷ Split 0 1 3 ∷ Put 1 (16 ∷ []) value ∷ []; refusal = None } }
    ensures present { put_plan bounds 0 7 (after_puts 7 seven_even) (4 ∷ []) value ≡ record { commands = Put 1 (4 ∷ []) value ∷ []; refusal = None } }
{}

/// The first object that is not what it should be is reported: the first of the range, or the one that the key's entry names.
pub fn the_first_bad_object_is_reported()
    ensures no_directory { get_answer bounds 0 7 no_directory (1 ∷ []) ≡ Err (BadHash 0) }
    ensures no_bucket { get_answer bounds 0 7 (one_entry 1 (9 ∷ [])) (1 ∷ []) ≡ Err (BadHash 1) }
    ensures empty_bucket { get_answer bounds 0 7 (one_entry 1 []) (1 ∷ []) ≡ Err (BadHash 1) }
    ensures outside { get_answer bounds 1 7 (λ x. one_entry 0 (no_pairs 0) (if x == 1 then 0 else 1)) (1 ∷ []) ≡ Err (BadHash 0) }
    ensures itself { get_answer bounds 0 7 (one_entry 0 (no_pairs 0)) (1 ∷ []) ≡ Err (BadHash 0) }
    ensures too_deep { get_answer bounds 0 7 (one_entry 1 (no_pairs 1)) (1 ∷ []) ≡ Err (BadHash 1) }
    ensures good { get_answer bounds 0 7 (one_entry 1 (no_pairs 0)) (1 ∷ []) ≡ Ok None }
{}

/// A range that is not begun holds nothing, and no object past the store is read.
pub fn the_edges_of_a_range()
    ensures get { get_answer bounds 0 7 start (1 ∷ []) ≡ Ok None }
    ensures delete { delete_plan bounds 0 7 start (1 ∷ []) ≡ record { commands = []; refusal = Some NoKey } }
    ensures past { put_plan bounds 0 8 start (1 ∷ []) value ≡ record { commands = []; refusal = Some NoObject } }
    ensures alone { put_plan bounds 3 3 start (1 ∷ []) value ≡ record { commands = []; refusal = Some NoObject } }
{}
