//! Reading the words.
ghost use Rattle.std.specs.Prelude.{◌≡◌, ◌↔◌, ◌<◌, ◌≤◌, ◌^◌, ℕ, codes, map, string_bytes, IfSome, IfNone, IfOk, IfErr, IsTrue, false};
ghost use Rattle.clap.specs.Words.{found_of, kind_of, rows_of, subcommand_rows_of};
ghost use Rattle.command_words.specs.declared.asked.Asked.{Asked};
ghost use Rattle.formats.specs.declared.params.Params.{Params};
ghost use Rattle.formats.specs.Objects.{IsInRange};
ghost use Rattle.command_words.specs.Words.{Asks, Gives, GivesParams, GivesDemo, IsGiven, NamesForm};
ghost use Rattle.command_words.specs.Refusals.{IsRefusal};

use crate::asked::Asked;
use crate::command::redo;
use crate::unread::Unread;
use clap::ArgMatches;
use clap::error::ErrorKind;
use formats::Params;
use std::alloc::Global;

/// Whether a store may have these limits.
fn is_in_range(params: &Params) -> bool
    ensures yes { IsTrue result → IsInRange params.now }
    ensures no { result ≡ false → IsInRange params.now → ⊥ }
{
    (1..=65535).contains(&params.objects)
        && (16..=1048576).contains(&params.cap)
        && (2 * params.cap + 4096..=536870912).contains(&params.limit)
}

// The number of 32 bits, or of 64, that the argument of this name has.
fn short(matches: &ArgMatches<'_>, id: &str) -> Option<u32>
    ensures some { IfSome result (Gives (rows_of (found_of matches.now)) id.now) }
    ensures none { IfNone result ((n : ℕ) → n < 2 ^ 32 → Gives (rows_of (found_of matches.now)) id.now n → ⊥) }
{
    matches.get_one::<u32>(id)
}

fn long(matches: &ArgMatches<'_>, id: &str) -> Option<u64>
    ensures some { IfSome result (Gives (rows_of (found_of matches.now)) id.now) }
    ensures none { IfNone result ((n : ℕ) → n < 2 ^ 64 → Gives (rows_of (found_of matches.now)) id.now n → ⊥) }
{
    matches.get_one::<u64>(id)
}

// Whether the flag of this name is among the words.
fn flag(matches: &ArgMatches<'_>, id: &str) -> bool
    ensures { IsGiven (rows_of (found_of matches.now)) id.now result }
{
    matches.get_one::<bool>(id).unwrap_or(false)
}

/// The numbers of a store, by the values of the three arguments and the flag.
fn params(values: &ArgMatches<'_>) -> Option<Params>
    ensures some { IfSome result (λ p. IsInRange p × GivesParams (rows_of (found_of values.now)) p) }
    ensures none { IfNone result ((p : Params) → IsInRange p → GivesParams (rows_of (found_of values.now)) p → ⊥) }
{
    let params = Params {
        objects: short(values, "N")?,
        cap: short(values, "CAP")?,
        limit: short(values, "LIMIT")?,
        more: flag(values, "pages"),
    };
    if is_in_range(&params) {
        Some(params)
    } else {
        None
    }
}

/// `demo --seed S --steps T`, by the values of the two options.
fn demo(values: &ArgMatches<'_>) -> Option<(u64, u32)>
    ensures some { IfSome result (λ d. (d.1 ≤ 1000000) × GivesDemo (rows_of (found_of values.now)) d.0 d.1) }
    ensures none { IfNone result ((seed steps : ℕ) → seed < 2 ^ 64 → steps ≤ 1000000 → GivesDemo (rows_of (found_of values.now)) seed steps → ⊥) }
{
    let seed = long(values, "seed")?;
    let steps = short(values, "steps")?;
    if steps <= 1000000 {
        Some((seed, steps))
    } else {
        None
    }
}

/// `ship FROM`, by the value of the argument.
fn first(values: &ArgMatches<'_>) -> Option<u64>
    ensures some { IfSome result (λ from. (1 ≤ from) × (from < 2 ^ 62) × Gives (rows_of (found_of values.now)) (codes "FROM") from) }
    ensures none { IfNone result ((from : ℕ) → 1 ≤ from → from < 2 ^ 62 → Gives (rows_of (found_of values.now)) (codes "FROM") from → ⊥) }
{
    let from = long(values, "FROM")?;
    if 1 <= from && from < 1 << 62 {
        Some(from)
    } else {
        None
    }
}

/// What the subcommand asks that was named. `None` exactly where it asks nothing: where its numbers are not those of a
/// store.
fn asked(matches: &ArgMatches<'_>) -> Option<Asked>
    ensures some { IfSome result (NamesForm (subcommand_rows_of matches.now)) }
    ensures none { IfNone result ((asked : Asked) → NamesForm (subcommand_rows_of matches.now) asked → ⊥) }
{
    let (name, values) = matches.subcommand()?;
    match name {
        "init" => Some(Asked::Init(params(values)?)),
        "run" => Some(Asked::Run {
            tend: flag(values, "tend"),
        }),
        "dump" => Some(Asked::Dump),
        "demo" => {
            let (seed, steps) = demo(values)?;
            Some(Asked::Demo { seed, steps })
        }
        "upgrade" => Some(Asked::Upgrade(params(values)?)),
        "ship" => Some(Asked::Ship {
            from: first(values)?,
        }),
        "follow" => Some(Asked::Follow {
            same: flag(values, "same"),
        }),
        _ => None,
    }
}

// Whether clap had no memory.
fn is_want_of_memory(error: &clap::Error) -> bool
    ensures { IsTrue result ↔ (kind_of error.now ≡ ErrorKind.OutOfMemory) }
{
    matches!(error.kind(), ErrorKind::OutOfMemory)
}

/// Reads the words of the command line, the program's name first. They are refused exactly where they ask nothing.
pub fn read_words(alloc: Global, words: &[String]) -> Result<Asked, Unread>
    ensures ok { IfOk result (Asks (map string_bytes words.now)) }
    ensures refused { IfErr result (λ unread. IsRefusal unread → (asked : Asked) → Asks (map string_bytes words.now) asked → ⊥) }
{
    match redo(alloc)?.try_get_matches_from(words) {
        Ok(matches) => match asked(&matches) {
            Some(asked) => Ok(asked),
            None => Err(Unread::Refused(redo(alloc)?.error(
                ErrorKind::ValueValidation,
                "LIMIT is below 2 x CAP + 4096",
            )?)),
        },
        Err(error) if is_want_of_memory(&error) => Err(Unread::Memory),
        Err(error) => Err(Unread::Refused(error)),
    }
}
