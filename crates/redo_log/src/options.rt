//! What the words of the command line ask.
ghost use Rattle.std.specs.Prelude.{◌≡◌, ◌↔◌, ℕ, Option as Maybe, codes, map, string_bytes, IfErr, IfOk, IfSome, IfNone, IsTrue};
ghost use Rattle.clap.specs.Words.{first_of, found_of, kind_of, one_of, rows_of};
ghost use Rattle.command_words.specs.Refusals.{IsRefusal};
ghost use Rattle.redo_log.specs.Asking.{Asks, Gives, IsFlag, IsKind, IsNumber, kind_number};
ghost use Rattle.redo_log.specs.declared.asked.Asked.{Asked as Question};

use crate::asked::Asked;
use crate::choice::Choice;
use crate::command::redo_log;
use clap::ArgMatches;
use clap::error::ErrorKind;
use command_words::Unread;
use std::alloc::Global;

// The number of 64 bits, or of 32, that the option of this name has, if it is there; `None` where its text is none.
fn wide(matches: &ArgMatches<'_>, id: &str) -> Option<Option<u64>>
    ensures some { IfSome result (IsNumber 64 (one_of id.now (rows_of (found_of matches.now)))) }
    ensures none { IfNone result ((n : Maybe ℕ) → IsNumber 64 (one_of id.now (rows_of (found_of matches.now))) n → ⊥) }
{
    matches.try_get_one::<u64>(id).ok()
}

fn narrow(matches: &ArgMatches<'_>, id: &str) -> Option<Option<u32>>
    ensures some { IfSome result (IsNumber 32 (one_of id.now (rows_of (found_of matches.now)))) }
    ensures none { IfNone result ((n : Maybe ℕ) → IsNumber 32 (one_of id.now (rows_of (found_of matches.now))) n → ⊥) }
{
    matches.try_get_one::<u32>(id).ok()
}

// The number of the kind that has this word.
fn kind_named(word: &str) -> Option<u8>
    ensures { result ≡ kind_number word.now }
{
    match word {
        "put" => Some(0),
        "copy" => Some(1),
        "append" => Some(2),
        "cut" => Some(3),
        "sort" => Some(4),
        "swap" => Some(5),
        "exec" => Some(6),
        "aread" => Some(7),
        "awrite" => Some(8),
        "leaf_put" => Some(9),
        "leaf_delete" => Some(10),
        "split_child" => Some(11),
        "split_root" => Some(12),
        "pexec" => Some(13),
        "pread" => Some(14),
        "pwrite" => Some(15),
        "hash_begin" => Some(16),
        "bucket_put" => Some(17),
        "bucket_delete" => Some(18),
        "bucket_split" => Some(19),
        "page_put" => Some(20),
        "page_set" => Some(21),
        "page_delete" => Some(22),
        "page_part" => Some(23),
        "page_absorb" => Some(24),
        "page_join" => Some(25),
        "page_keep" => Some(26),
        "page_turn" => Some(27),
        "page_turn_two" => Some(28),
        "page_root" => Some(29),
        "page_free" => Some(30),
        "identity" => Some(31),
        "check" => Some(32),
        _ => None,
    }
}

// The kind that is asked, if one is; `None` where its word is none.
fn kind(matches: &ArgMatches<'_>) -> Option<Option<u8>>
    ensures some { IfSome result (IsKind (first_of (codes "kind") (rows_of (found_of matches.now)))) }
    ensures none { IfNone result ((k : Maybe ℕ) → IsKind (first_of (codes "kind") (rows_of (found_of matches.now))) k → ⊥) }
{
    match matches.get_str("kind") {
        Some(word) => Some(Some(kind_named(word)?)),
        None => Some(None),
    }
}

// Whether the option of this name is there, which has no value.
fn flag(matches: &ArgMatches<'_>, id: &str) -> bool
    ensures { IsFlag (one_of id.now (rows_of (found_of matches.now))) result }
{
    matches.get_flag(id)
}

// What the options ask; `None` where a number or a word is none.
fn asked(matches: &ArgMatches<'_>) -> Option<Asked>
    ensures some { IfSome result (Gives (rows_of (found_of matches.now))) }
    ensures none { IfNone result ((it : Question) → Gives (rows_of (found_of matches.now)) it → ⊥) }
{
    Some(Asked {
        choice: Choice {
            from: wide(matches, "from")?,
            to: wide(matches, "to")?,
            object: narrow(matches, "object")?,
            kind: kind(matches)?,
        },
        stats: flag(matches, "stats"),
        glance: flag(matches, "glance"),
    })
}

// Whether clap had no memory.
fn is_want_of_memory(error: &clap::Error) -> bool
    ensures { IsTrue result ↔ (kind_of error.now ≡ ErrorKind.OutOfMemory) }
{
    matches!(error.kind(), ErrorKind::OutOfMemory)
}

/// Reads the words of the command line, the program's name first. They are refused exactly where they ask nothing.
pub fn read_words(alloc: Global, words: &[String]) -> Result<Asked, Unread>
    ensures ok { IfOk result (Asks (map string_bytes words.now)) }
    ensures refused { IfErr result (λ unread. IsRefusal unread → (it : Question) → Asks (map string_bytes words.now) it → ⊥) }
{
    match redo_log(alloc)?.try_get_matches_from(words) {
        Ok(matches) => match asked(&matches) {
            Some(asked) => Ok(asked),
            None => Err(Unread::Refused(redo_log(alloc)?.error(
                ErrorKind::ValueValidation,
                "there is no such kind of record, or no such object",
            )?)),
        },
        Err(error) if is_want_of_memory(&error) => Err(Unread::Memory),
        Err(error) => Err(Unread::Refused(error)),
    }
}
