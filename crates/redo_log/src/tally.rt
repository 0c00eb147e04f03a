// How many records there are of each kind, and how long they are.
ghost use Rattle.std.specs.Prelude.{◌≡◌, ◌<◌, ◌≤◌, ◌+◌, ◌++◌, ◌∷◌, [], List, IfOk, OnOk, get_or, length, slice_set};
ghost use Rattle.formats.specs.Records.{record_code};
ghost use Rattle.formats.specs.declared.record.Record.{Record as Logged};
ghost use Rattle.op_codec.specs.AllOps.{AllOps as Ops, all_meaning};
ghost use Rattle.oper_core.specs.Meaning.{Meaning};
ghost use Rattle.oper_core.specs.declared.bounds.Bounds.{Bounds as Limits};
ghost use Rattle.redo_log.specs.Kinds.{kind_words};
ghost use Rattle.redo_log.specs.Tallying.{IsTally, Tallies, capped, kind_line, table};
ghost use Rattle.redo_log.specs.declared.choice.Choice.{Choice as Question};

use crate::choice::{Choice, admits};
use crate::kinds::kind_of;
use formats::Record;
use op_codec::AllOps;
use oper_core::Memory;
use std::alloc::Global;
use tool_output::push_spaced;

/// How many kinds there are.
const KINDS: usize = 33;

/// A tally of no record: of each kind how many, and how many bytes.
pub fn empty_tally(alloc: Global) -> Result<Vec<(u64, u64)>, Memory>
    ensures { (w : Question) (m : Meaning Ops) → IfOk result (λ tally. IsTally w m [] tally.items) }
{
    Ok(vec![in alloc; (0, 0); KINDS]?)
}

/// One record more, of so many bytes.
fn raised(numbers: (u64, u64), size: u64) -> (u64, u64)
    ensures count { result.0 ≡ capped (numbers.0 + 1) }
    ensures bytes { result.1 ≡ capped (numbers.1 + size) }
{
    (numbers.0.saturating_add(1), numbers.1.saturating_add(size))
}

/// One record more of a kind, if it has a line.
fn raise(tally: &mut Vec<(u64, u64)>, kind: usize, size: u64)
    ensures within { kind < length tally.old.items → tally.new.items ≡ slice_set tally.old.items kind (capped ((get_or tally.old.items kind (0, 0)).0 + 1), capped ((get_or tally.old.items kind (0, 0)).1 + size)) }
    ensures beyond { length tally.old.items ≤ kind → tally.new.items ≡ tally.old.items }
{
    if kind < tally.len() {
        tally[kind] = raised(tally[kind], size);
    }
}

/// Counts a record, whose code has so many bytes, where it is all that is asked.
pub fn count(choice: Choice, it: &Record<AllOps>, size: u64, tally: &mut Vec<(u64, u64)>)
    ensures { (b : Limits) → size ≡ length (record_code (all_meaning b) it.now) → Tallies choice (all_meaning b) (it.now ∷ []) tally.old.items tally.new.items }
{
    let asked = admits(choice, it);
    if asked {
        raise(tally, kind_of(it) as usize, size);
    }
}

/// The word of a kind.
fn kind_word(kind: usize) -> &'static [u8]
    ensures { result.now ≡ get_or kind_words kind [] }
{
    if kind < 20 {
        first_word(kind)
    } else if kind < 33 {
        later_word(kind)
    } else {
        b""
    }
}

/// The word of one of the first twenty kinds.
fn first_word(kind: usize) -> &'static [u8]
    ensures { kind < 20 → result.now ≡ get_or kind_words kind [] }
{
    match kind {
        0 => b"put",
        1 => b"copy",
        2 => b"append",
        3 => b"cut",
        4 => b"sort",
        5 => b"swap",
        6 => b"exec",
        7 => b"aread",
        8 => b"awrite",
        9 => b"leaf_put",
        10 => b"leaf_delete",
        11 => b"split_child",
        12 => b"split_root",
        13 => b"pexec",
        14 => b"pread",
        15 => b"pwrite",
        16 => b"hash_begin",
        17 => b"bucket_put",
        18 => b"bucket_delete",
        19 => b"bucket_split",
        _ => b"",
    }
}

/// The word of a later one.
fn later_word(kind: usize) -> &'static [u8]
    ensures { 20 ≤ kind → kind < 33 → result.now ≡ get_or kind_words kind [] }
{
    match kind {
        20 => b"page_put",
        21 => b"page_set",
        22 => b"page_delete",
        23 => b"page_part",
        24 => b"page_absorb",
        25 => b"page_join",
        26 => b"page_keep",
        27 => b"page_turn",
        28 => b"page_turn_two",
        29 => b"page_root",
        30 => b"page_free",
        31 => b"identity",
        32 => b"check",
        _ => b"",
    }
}

/// Adds the line of a kind.
fn push_kind(
    alloc: Global,
    text: &mut Vec<u8>,
    word: &[u8],
    numbers: (u64, u64),
) -> Result<(), Memory>
    ensures { OnOk result (text.new.items ≡ text.old.items ++ kind_line word.now numbers) }
{
    if numbers.0 == 0 {
        return Ok(());
    }
    text.extend_from_slice(word)?;
    push_spaced(alloc, text, numbers.0)?;
    push_spaced(alloc, text, numbers.1)?;
    text.push(b'\n')?;
    Ok(())
}

/// The lines of a tally.
pub fn tally_text(alloc: Global, tally: &[(u64, u64)]) -> Result<Vec<u8>, Memory>
    ensures { (w : Question) (m : Meaning Ops) (records : List (Logged Ops)) → IsTally w m records tally.now → IfOk result (λ text. text.items ≡ table w m records) }
{
    let mut text = Vec::new(alloc);
    let mut kind = 0;
    while kind < tally.len() {
        push_kind(alloc, &mut text, kind_word(kind), tally[kind])?;
        kind += 1;
    }
    Ok(text)
}
