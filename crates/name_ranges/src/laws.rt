//! What operations do to names, as laws on definitions.

ghost use Rattle.std.specs.Prelude.{◌≡◌, ◌≢◌, ◌<◌, ◌≤◌, ◌+◌, ◌^◌, ◌++◌, ◌∷◌, [], ℕ, List, Ok, Option, None, Some, length, nat_le};
ghost use Rattle.std.specs.FinMap.{empty, insert, remove};
ghost use Rattle.oper_core.specs.State.{State};
ghost use Rattle.oper_core.specs.declared.bounds.Bounds.{Bounds};
ghost use Rattle.op_codec.specs.AllOps.{AllOps, plain};
ghost use Rattle.op_meaning.specs.declared.plain_op.PlainOp.TheVariants.{Append, Copy, Put};
ghost use Rattle.page_map.specs.Map.{is_within};
ghost use Rattle.page_map.specs.Reads.{pairs_of};
ghost use Rattle.page_map.specs.Walk.{get_answer};
ghost use Rattle.named_words.specs.Effects.{Names, names_from, place_of};
ghost use Rattle.name_ranges.specs.Changes.{Gives, IsFound, Leaves, Takes, Writes};
ghost use Rattle.name_ranges.specs.Directory.{Directory, IsDirectory, IsSpare, from_place, key_of, number_bytes, object_of};
ghost use Rattle.name_ranges.specs.Listing.{in_order, names_read};
ghost use Rattle.name_ranges.specs.Named.{HasMaps, IsNamed, directory_of};
ghost use Rattle.name_ranges.specs.Putting.{IsWriting, Puts};

use page_map::{
    a_delete_is_done_or_refused, a_get_finds_what_the_map_has, a_set_is_done_or_refused,
    an_empty_root_is_an_empty_map, changes_are_those_of_the_map,
};

/// A put, a copy and an append each write one object.
pub fn operations_write_one_object()
    ensures put { (b : Bounds) (s : State) (x : ℕ) (bytes : List ℕ) → x < b.objects → length bytes ≤ b.cap → Writes b s (plain (Put x bytes)) x bytes }
    ensures copy { (b : Bounds) (s : State) (x y : ℕ) → x < b.objects → y < b.objects → x ≢ y → Writes b s (plain (Copy x y)) y (s x) }
    ensures append { (b : Bounds) (s : State) (x y : ℕ) → x < b.objects → y < b.objects → x ≢ y → length (s x) + length (s y) ≤ b.cap → Writes b s (plain (Append x y)) y (s y ++ s x) }
{}

/// An operation that writes the object of a name gives the name this value; one that writes an object of no name behind the range
/// changes no name.
pub fn a_value_is_written()
    ensures given { (b : Bounds) (lo hi : ℕ) (s : State) (names : Names) (is : IsNamed b lo hi s names) (op : AllOps) (name bytes : List ℕ) (x : ℕ) →
        Writes b s op x bytes → length bytes ≤ b.cap → object_of (directory_of is) name ≡ Some x → Leaves b s lo hi (op ∷ []) (insert names name bytes) (directory_of is) }
    ensures spare { (b : Bounds) (lo hi : ℕ) (s : State) (names : Names) (is : IsNamed b lo hi s names) (op : AllOps) (bytes : List ℕ) (x : ℕ) →
        Writes b s op x bytes → length bytes ≤ b.cap → IsSpare hi b.objects (directory_of is) x → Leaves b s lo hi (op ∷ []) names (directory_of is) }
{}

/// What a get of the key of a name finds is the number of its object.
pub fn a_name_is_found()
    ensures { (b : Bounds) (lo hi : ℕ) (s : State) (names : Names) (is : IsNamed b lo hi s names) (name : List ℕ) (found : Option (List ℕ)) → hi < 2 ^ 32 →
        get_answer lo hi s (key_of name) ≡ Ok found → IsFound b lo hi s names is name found }
{
    a_get_finds_what_the_map_has();
}

/// A set of the key of a name to the number of an object of no name gives the name this object, and its value; or it is refused, and
/// no name is changed.
pub fn a_name_is_given_an_object()
    ensures { (b : Bounds) (lo hi : ℕ) (s : State) (names : Names) (is : IsNamed b lo hi s names) (name : List ℕ) (x : ℕ) → HasMaps b hi →
        IsSpare hi b.objects (directory_of is) x → Gives b lo hi s names is name x }
{
    a_set_is_done_or_refused();
}

/// Where a name is given a value, the value is written first: to its object, or to one of no name, which it is given then. It has the
/// value, or it is refused, and no name is changed.
pub fn a_name_is_given_a_value()
    ensures { (b : Bounds) (lo hi : ℕ) (s : State) (names : Names) (is : IsNamed b lo hi s names) (name bytes : List ℕ) (spare : ℕ) (writing : ℕ → AllOps) → HasMaps b hi →
        IsWriting b lo hi s names is name bytes spare writing → Puts b lo hi s names is name bytes spare writing }
{
    a_name_is_given_an_object();
    a_get_finds_what_the_map_has();
}

/// A delete of the key of a name takes the name away, and is refused exactly where it is not there.
pub fn a_name_is_taken_away()
    ensures { (b : Bounds) (lo hi : ℕ) (s : State) (names : Names) (is : IsNamed b lo hi s names) (name : List ℕ) → HasMaps b hi → Takes b lo hi s names is name }
{
    a_delete_is_done_or_refused();
    changes_are_those_of_the_map();
}

/// What a directory has where a name is given an object, or is taken away, for this name and for others; and which objects no name
/// has then.
pub fn directories_change()
    ensures given { (directory : Directory) (name : List ℕ) (x : ℕ) → x < 2 ^ 32 → object_of (insert directory (key_of name) (number_bytes x)) name ≡ Some x }
    ensures given_other { (directory : Directory) (name other : List ℕ) (x : ℕ) → other ≢ name → object_of (insert directory (key_of name) (number_bytes x)) other ≡ object_of directory other }
    ensures taken { (directory : Directory) (name : List ℕ) → object_of (remove directory (key_of name)) name ≡ None }
    ensures taken_other { (directory : Directory) (name other : List ℕ) → other ≢ name → object_of (remove directory (key_of name)) other ≡ object_of directory other }
    ensures freed { (hi objects : ℕ) (directory : Directory) (name : List ℕ) (x : ℕ) → IsDirectory hi objects directory → object_of directory name ≡ Some x →
        IsSpare hi objects (remove directory (key_of name)) x }
    ensures replaced { (hi objects : ℕ) (directory : Directory) (name : List ℕ) (x y : ℕ) → objects ≤ 2 ^ 32 → IsDirectory hi objects directory → object_of directory name ≡ Some x →
        IsSpare hi objects directory y → IsSpare hi objects (insert directory (key_of name) (number_bytes y)) x }
{}

/// The names of a range, and their values, are those of its objects; an empty range has none.
pub fn a_range_has_one_map_of_names()
    ensures one { (b : Bounds) (lo hi : ℕ) (s : State) (names others : Names) → hi < 2 ^ 32 → IsNamed b lo hi s names → IsNamed b lo hi s others → names ≡ others }
    ensures none { (b : Bounds) (lo hi : ℕ) (s : State) → ((x : ℕ) → length (s x) ≤ b.cap) → lo ≤ hi → s lo ≡ [] → IsNamed b lo hi s empty }
{
    a_get_finds_what_the_map_has();
    an_empty_root_is_an_empty_map();
}

/// Keys are in the order of places: those of the names whose place is not before one are a span.
pub fn keys_are_in_the_order_of_places()
    ensures { (name : List ℕ) (place : ℕ) → place < 2 ^ 64 → is_within (from_place place) (key_of name) ≡ nat_le place (place_of name) }
{}

/// The names from a place on are those of the pairs that a range of the directory has from there on, in the order of names.
pub fn names_are_read_from_a_span()
    ensures { (b : Bounds) (lo hi : ℕ) (s : State) (names : Names) (is : IsNamed b lo hi s names) (place : ℕ) → place < 2 ^ 64 →
        names_from names place ≡ in_order (names_read (pairs_of (directory_of is) (from_place place))) }
{}
