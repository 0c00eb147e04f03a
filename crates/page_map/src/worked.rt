//! A cut worked out by computation.

ghost use Rattle.std.specs.Prelude.{◌≡◌, None};
ghost use Rattle.std.specs.FinMap.Entries.{put};
ghost use Rattle.key_entries.specs.Entries.{byte_order};
ghost use Rattle.page_map.specs.Splits.{cell_size, leaf_split, size_of};
ghost use Rattle.page_map.specs.Worked.{key_of, two, value};

/// A leaf of 1,024 bytes has no room for a third pair of 380 bytes. Where that comes in front, the leaf is cut before the first pair
/// that it has: it is left without cells until the pair is put.
pub fn a_cut_may_leave_a_leaf_without_cells()
    ensures pair { cell_size (key_of 1, value) ≡ 380 }
    ensures all { size_of (put byte_order (key_of 1) value two) ≡ 1140 }
    ensures place { (leaf_split 7 None (key_of 1) value two two).place ≡ 0 }
{}
