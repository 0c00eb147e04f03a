//! Pages and codes worked out by computation.

ghost use Rattle.std.specs.Prelude.{◌≡◌, Ok, Err, Some, None, [], ◌∷◌};
ghost use Rattle.oper_core.specs.declared.refusal.Refusal.TheVariants.{BadPlace, NotNode, TooLarge};
ghost use Rattle.page_ops.specs.Reading.{seek};
ghost use Rattle.page_ops.specs.Effects.{bytes_made, to_fill, put_made, set_made, delete_made, part_made, absorb_made, join_made, turn_made, turn_two_made, root_made};
ghost use Rattle.page_ops.specs.Operation.{op_code};
ghost use Rattle.page_ops.specs.Worked.{leaf_of, inner_of, a, b, c, d, child};
ghost use Rattle.page_ops.specs.declared.page_op.PageOp.TheVariants.{Put, Set, Delete, Part, Absorb, Join, Keep, Turn, TurnTwo, Root, Free};

/// A put, a set and a delete on the bytes are those on the cells.
pub fn cells_go_in_and_out()
    ensures bytes { leaf_of (a ∷ b ∷ []) ≡ 5 ∷ 0 ∷ 2 ∷ 0 ∷ 1 ∷ 0 ∷ 1 ∷ 11 ∷ 12 ∷ 2 ∷ 0 ∷ 2 ∷ 9 ∷ 4 ∷ 0 ∷ 9 ∷ 0 ∷ [] }
    ensures first { bytes_made 1024 (put_made 0 (3 ∷ []) (31 ∷ []) (to_fill [])) ≡ Ok (leaf_of (c ∷ [])) }
    ensures front { bytes_made 1024 (put_made 0 (1 ∷ []) (11 ∷ 12 ∷ []) (leaf_of (b ∷ d ∷ []))) ≡ Ok (leaf_of (a ∷ b ∷ d ∷ [])) }
    ensures inside { bytes_made 1024 (put_made 2 (3 ∷ []) (31 ∷ []) (leaf_of (a ∷ b ∷ d ∷ []))) ≡ Ok (leaf_of (a ∷ b ∷ c ∷ d ∷ [])) }
    ensures end { bytes_made 1024 (put_made 3 (7 ∷ 7 ∷ []) (71 ∷ 72 ∷ 73 ∷ []) (leaf_of (a ∷ b ∷ c ∷ []))) ≡ Ok (leaf_of (a ∷ b ∷ c ∷ d ∷ [])) }
    ensures set { bytes_made 1024 (set_made 1 (5 ∷ 6 ∷ []) (leaf_of (a ∷ b ∷ c ∷ []))) ≡ Ok (leaf_of (a ∷ (2 ∷ 9 ∷ [], 5 ∷ 6 ∷ []) ∷ c ∷ [])) }
    ensures delete { bytes_made 1024 (delete_made 1 (leaf_of (a ∷ b ∷ c ∷ []))) ≡ Ok (leaf_of (a ∷ c ∷ [])) }
    ensures last { bytes_made 1024 (delete_made 0 (leaf_of (a ∷ []))) ≡ Ok (leaf_of []) }
{}

/// A page is cut, and two are joined.
pub fn pages_are_parted()
    ensures upper { bytes_made 1024 (part_made 2 4 (leaf_of (a ∷ b ∷ c ∷ d ∷ []))) ≡ Ok (leaf_of (c ∷ d ∷ [])) }
    ensures lower { bytes_made 1024 (part_made 0 2 (leaf_of (a ∷ b ∷ c ∷ d ∷ []))) ≡ Ok (leaf_of (a ∷ b ∷ [])) }
    ensures joined { bytes_made 1024 (absorb_made 2 (leaf_of (a ∷ b ∷ [])) (leaf_of (c ∷ d ∷ []))) ≡ Ok (leaf_of (a ∷ b ∷ c ∷ d ∷ [])) }
    ensures upper_of_both { bytes_made 1024 (join_made 1 4 (leaf_of (a ∷ b ∷ [])) (leaf_of (c ∷ d ∷ []))) ≡ Ok (leaf_of (b ∷ c ∷ d ∷ [])) }
    ensures of_the_other { bytes_made 1024 (join_made 3 4 (leaf_of (a ∷ b ∷ [])) (leaf_of (c ∷ d ∷ []))) ≡ Ok (leaf_of (d ∷ [])) }
    ensures some { bytes_made 1024 (absorb_made 1 (leaf_of (a ∷ b ∷ [])) (leaf_of (c ∷ d ∷ []))) ≡ Ok (leaf_of (a ∷ b ∷ c ∷ [])) }
{}

/// An inner page gets a child more, or one less.
pub fn an_inner_page_is_turned()
    ensures split { bytes_made 1024 (turn_two_made 0 1 8 (5 ∷ []) 9 (inner_of (child [] 8 ∷ child (6 ∷ []) 4 ∷ []))) ≡ Ok (inner_of (child [] 8 ∷ child (5 ∷ []) 9 ∷ child (6 ∷ []) 4 ∷ [])) }
    ensures merged { bytes_made 1024 (turn_made 0 2 8 (inner_of (child [] 8 ∷ child (5 ∷ []) 9 ∷ child (6 ∷ []) 4 ∷ []))) ≡ Ok (inner_of (child [] 8 ∷ child (6 ∷ []) 4 ∷ [])) }
    ensures root { bytes_made 1024 (root_made 1 8 (6 ∷ []) 4) ≡ Ok (inner_of (child [] 8 ∷ child (6 ∷ []) 4 ∷ [])) }
{}

/// The place of a key.
pub fn the_place_of_a_key_is_found()
    ensures there { seek (leaf_of (a ∷ b ∷ c ∷ d ∷ [])) (3 ∷ []) ≡ Some 2 }
    ensures between { seek (leaf_of (a ∷ b ∷ c ∷ d ∷ [])) (4 ∷ []) ≡ Some 3 }
    ensures above { seek (leaf_of (a ∷ b ∷ c ∷ d ∷ [])) (9 ∷ []) ≡ Some 4 }
    ensures below { seek (leaf_of (a ∷ b ∷ c ∷ d ∷ [])) (0 ∷ []) ≡ Some 0 }
{}

/// What is refused: another place, no page, a page that would be longer than CAP.
pub fn other_bytes_are_refused()
    ensures place { bytes_made 1024 (put_made 1 (3 ∷ []) [] (leaf_of (a ∷ b ∷ d ∷ []))) ≡ Err BadPlace }
    ensures again { bytes_made 1024 (put_made 1 (2 ∷ 9 ∷ []) [] (leaf_of (a ∷ b ∷ d ∷ []))) ≡ Err BadPlace }
    ensures behind { bytes_made 1024 (delete_made 3 (leaf_of (a ∷ b ∷ c ∷ []))) ≡ Err BadPlace }
    ensures node { bytes_made 1024 (put_made 0 (3 ∷ []) [] (1 ∷ 0 ∷ [])) ≡ Err NotNode }
    ensures inner { bytes_made 1024 (put_made 0 (3 ∷ []) [] (inner_of (child [] 8 ∷ []))) ≡ Err NotNode }
    ensures long { bytes_made 16 (put_made 1 (3 ∷ []) (31 ∷ []) (leaf_of (a ∷ []))) ≡ Err TooLarge }
    // the places say 9 and 200: what is asked of the second cell is outside
    ensures torn { bytes_made 1024 (delete_made 1 (5 ∷ 0 ∷ 2 ∷ 0 ∷ 1 ∷ 0 ∷ 1 ∷ 11 ∷ 12 ∷ 2 ∷ 0 ∷ 2 ∷ 9 ∷ 4 ∷ 0 ∷ 200 ∷ 0 ∷ [])) ≡ Err BadPlace }
{}

/// The bytes of operations on leaves.
pub fn changes_have_their_codes()
    ensures put { op_code (Put 7 3 (1 ∷ []) (11 ∷ 12 ∷ [])) ≡ 21 ∷ 7 ∷ 0 ∷ 0 ∷ 0 ∷ 3 ∷ 0 ∷ 1 ∷ 0 ∷ 1 ∷ 2 ∷ 0 ∷ 11 ∷ 12 ∷ [] }
    ensures set { op_code (Set 7 3 (11 ∷ 12 ∷ [])) ≡ 22 ∷ 7 ∷ 0 ∷ 0 ∷ 0 ∷ 3 ∷ 0 ∷ 2 ∷ 0 ∷ 11 ∷ 12 ∷ [] }
    ensures delete { op_code (Delete 7 3) ≡ 23 ∷ 7 ∷ 0 ∷ 0 ∷ 0 ∷ 3 ∷ 0 ∷ [] }
    ensures free { op_code (Free 258) ≡ 31 ∷ 2 ∷ 1 ∷ 0 ∷ 0 ∷ [] }
{}

/// The bytes of operations by which pages are cut and joined.
pub fn parts_have_their_codes()
    ensures part { op_code (Part 8 7 2 4) ≡ 24 ∷ 8 ∷ 0 ∷ 0 ∷ 0 ∷ 7 ∷ 0 ∷ 0 ∷ 0 ∷ 2 ∷ 0 ∷ 4 ∷ 0 ∷ [] }
    ensures absorb { op_code (Absorb 7 8 4) ≡ 25 ∷ 7 ∷ 0 ∷ 0 ∷ 0 ∷ 8 ∷ 0 ∷ 0 ∷ 0 ∷ 4 ∷ 0 ∷ [] }
    ensures join { op_code (Join 9 7 8 2 4) ≡ 26 ∷ 9 ∷ 0 ∷ 0 ∷ 0 ∷ 7 ∷ 0 ∷ 0 ∷ 0 ∷ 8 ∷ 0 ∷ 0 ∷ 0 ∷ 2 ∷ 0 ∷ 4 ∷ 0 ∷ [] }
    ensures keep { op_code (Keep 7 2) ≡ 27 ∷ 7 ∷ 0 ∷ 0 ∷ 0 ∷ 2 ∷ 0 ∷ [] }
    ensures turn { op_code (Turn 7 0 2 8) ≡ 28 ∷ 7 ∷ 0 ∷ 0 ∷ 0 ∷ 0 ∷ 0 ∷ 2 ∷ 0 ∷ 8 ∷ 0 ∷ 0 ∷ 0 ∷ [] }
    ensures turn_two { op_code (TurnTwo 7 0 1 8 (5 ∷ []) 9) ≡ 29 ∷ 7 ∷ 0 ∷ 0 ∷ 0 ∷ 0 ∷ 0 ∷ 1 ∷ 0 ∷ 8 ∷ 0 ∷ 0 ∷ 0 ∷ 1 ∷ 0 ∷ 5 ∷ 9 ∷ 0 ∷ 0 ∷ 0 ∷ [] }
    ensures root { op_code (Root 7 1 8 (6 ∷ []) 4) ≡ 30 ∷ 7 ∷ 0 ∷ 0 ∷ 0 ∷ 1 ∷ 8 ∷ 0 ∷ 0 ∷ 0 ∷ 1 ∷ 0 ∷ 6 ∷ 4 ∷ 0 ∷ 0 ∷ 0 ∷ [] }
{}
