//! What the calls tell of names and do to them, as laws on definitions.

ghost use Rattle.std.specs.Prelude.{◌≡◌, List, Ok, ℕ};
ghost use Rattle.std.specs.FinMap.{get};
ghost use Rattle.oper_core.specs.State.{State};
ghost use Rattle.oper_core.specs.declared.bounds.Bounds.{Bounds};
ghost use Rattle.formats.specs.Objects.{bounds_of};
ghost use Rattle.formats.specs.declared.params.Params.{Params};
ghost use Rattle.range_calls.specs.Store.{Command, state_of};
ghost use Rattle.named_words.specs.Effects.{Names};
ghost use Rattle.name_ranges.specs.Directory.{object_of};
ghost use Rattle.name_ranges.specs.Named.{HasMaps, IsNamed, directory_of};
ghost use Rattle.named_objects.specs.Acting.{IsGiving, PutActs, TakeActs};
ghost use Rattle.named_objects.specs.Answers.{find_told, value_told};
ghost use Rattle.named_objects.specs.declared.given.Given.{Given};

use map_client::calls_act_as_on_an_ordered_map;
use name_ranges::{
    a_name_is_given_an_object, a_name_is_taken_away, a_value_is_written,
    operations_write_one_object,
};

/// Where names stand in the range, each call is told what the name has.
pub fn calls_are_told_of_names()
    ensures object { (b : Bounds) (lo hi : ℕ) (s : State) (names : Names) (is : IsNamed b lo hi s names) (name : List ℕ) → HasMaps b hi →
        find_told b lo hi s name ≡ Ok (object_of (directory_of is) name) }
    ensures value { (b : Bounds) (lo hi : ℕ) (s : State) (names : Names) → IsNamed b lo hi s names → (name : List ℕ) → HasMaps b hi →
        value_told b lo hi s name ≡ Ok (get names name) }
{
    calls_act_as_on_an_ordered_map();
}

/// Where names stand in the range, a put gives the name the value, and a take takes it away. A put is refused only since the range
/// is full, and then no name is changed; a take exactly where the name is not there. What other objects behind the range have stays.
pub fn calls_act_on_names()
    ensures put { (p : Params) (commands : List Command) (lo hi : ℕ) (names : Names) (is : IsNamed (bounds_of p) lo hi (state_of p commands) names) (name : List ℕ) (given : Given) (spare : ℕ) → HasMaps (bounds_of p) hi →
        IsGiving p commands lo hi names is name given spare → PutActs p commands lo hi names is name given spare }
    ensures take { (p : Params) (commands : List Command) (lo hi : ℕ) (names : Names) (is : IsNamed (bounds_of p) lo hi (state_of p commands) names) (name : List ℕ) → HasMaps (bounds_of p) hi →
        TakeActs p commands lo hi names is name }
{
    calls_act_as_on_an_ordered_map();
    calls_are_told_of_names();
    operations_write_one_object();
    a_value_is_written();
    a_name_is_given_an_object();
    a_name_is_taken_away();
}
