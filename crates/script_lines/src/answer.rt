ghost use Rattle.std.specs.Prelude.{◌≡◌, ◌++◌, ◌∷◌, [], codes, OnOk, IfOk};
ghost use Rattle.std.specs.Fmt.{decimal};
ghost use Rattle.std.specs.List.{flat_map};
ghost use Rattle.script_lines.specs.Replies.{reply_of, pairs_reply, summary, text_of, said_line, name_of, spaced, numbers_of, pair_text, spaced_pair};

use crate::backup_denial::{BackupDenial, backup_denial_name};
use crate::denial::{Denial, denial_name};
use crate::hex::{push_hex, push_value};
use crate::number::{push_number, push_numbers};
use key_entries::Short;
use oper_core::{ByteList, Memory, Refusal};
use std::alloc::Global;

/// The counts of a store, in the order in which they are reported.
#[derive(Clone, Copy, Debug, Drop, PartialEq, Eq)]
pub struct StatLine {
    /// The nodes of the write graph.
    pub nodes: u64,
    /// The objects whose value is newer than what their slots hold.
    pub dirty: u64,
    /// The records that are not yet installed.
    pub uninstalled: u64,
    /// The commands that are stable.
    pub forced: u64,
    /// The commands that were accepted.
    pub accepted: u64,
    /// The bytes of the log, those that wait to be written too.
    pub used: u64,
    /// The identity writes since the restart.
    pub identities: u64,
}

/// What a generated script did.
#[derive(Clone, Copy, Debug, Drop, PartialEq, Eq)]
pub struct Totals {
    /// The number that the script was made from.
    pub seed: u64,
    /// The steps that were made.
    pub steps: u32,
    /// The lines that were answered.
    pub lines: u64,
    /// The bytes that were printed, newlines included.
    pub bytes: u64,
    /// The commands that were accepted.
    pub accepted: u64,
    /// The answers that are `bad`, `refused`, `full` or `end`.
    pub refused: u64,
    /// The sum, modulo 2^64, of each byte that was printed times its place, counted from 1.
    pub sum: u64,
}

/// What a line is answered, and what a dump or a generated script says.
#[derive(Clone, Copy, Drop)]
pub enum Answer<'a> {
    /// A command was done: `ok`.
    Done,
    /// The value of an object: lower-case hexadecimal, or `-` where it is empty.
    Value(&'a [u8]),
    /// So many commands are stable: `forced n`.
    Forced(u64),
    /// The line is outside the grammar: `bad`.
    Bad,
    /// A command was refused: `refused NAME`.
    Refused(Refusal),
    /// The log has no room for a record: `full used need limit`.
    Full { used: u64, need: u64, limit: u64 },
    /// No record number is left: `end number`.
    End { number: u64 },
    /// An object of a dump, and its value in lower-case hexadecimal: `X HEX`.
    Object { object: u32, value: &'a [u8] },
    /// So many commands were given to the dumped store: `commands n`.
    Commands(u64),
    /// The counts of the store: `stat` and seven numbers.
    Stat(StatLine),
    /// An application took so many steps: `ran k`.
    Ran(u64),
    /// The keys of a range and their values: `key:value` each, in lower-case hexadecimal, or `-` where there are none.
    Pairs(&'a [(Short, Short)]),
    /// The range of objects is no tree: `refused BadTree`.
    BadTree,
    /// The tree has too few free objects for an insert: `refused TreeFull`.
    TreeFull,
    /// A call on a hash file or a map is refused: `refused NAME`.
    Denied(Denial),
    /// A group is open, and does not allow what the line asks: `refused InGroup`.
    InGroup,
    /// No group is open that could end or be given up: `refused NoGroup`.
    NoGroup,
    /// So many objects are copied into the backup: `copied c`.
    Copied(u32),
    /// The backup is a store, which was given so many commands: `saved n`.
    Saved(u64),
    /// A line of a backup is refused, or a trim while one goes on: `refused NAME`.
    BackupDenied(BackupDenial),
    /// What a generated script did: `demo`, and seven numbers, each after its name.
    Summary(Totals),
    /// The key of a map is not there: `none`.
    Absent,
    /// So many keys of a map were counted: `counted n`.
    Counted(u64),
    /// Keys of a map and their values, as `Pairs`.
    Entries(&'a [(ByteList, ByteList)]),
}

/// The name of a refusal. Its `Display` prints the same, but what a derive of thiserror prints no clause says.
fn refusal_name(refusal: Refusal) -> &'static [u8]
    ensures { result.now ≡ name_of refusal }
{
    match refusal {
        Refusal::NoPages => b"NoPages",
        Refusal::NoObject => b"NoObject",
        Refusal::Same => b"Same",
        Refusal::BadPlace => b"BadPlace",
        Refusal::BadWidth => b"BadWidth",
        Refusal::NotApp => b"NotApp",
        Refusal::NotCode => b"NotCode",
        Refusal::Halted => b"Halted",
        Refusal::NoInput => b"NoInput",
        Refusal::NotNode => b"NotNode",
        Refusal::NoKey => b"NoKey",
        Refusal::NodeFull => b"NodeFull",
        Refusal::TooLarge => b"TooLarge",
    }
}

/// Adds a word, and a number in digits after a space.
fn push_counted(alloc: Global, text: &mut Vec<u8>, word: &[u8], number: u64) -> Result<(), Memory>
    ensures { OnOk result (text.new.items ≡ text.old.items ++ word.now ++ 32 ∷ decimal number) }
{
    text.extend_from_slice(word)?;
    text.push(b' ')?;
    push_number(alloc, text, number)
}

/// Adds `refused` and a name.
fn push_refused(text: &mut Vec<u8>, name: &[u8]) -> Result<(), Memory>
    ensures { OnOk result (text.new.items ≡ text.old.items ++ codes "refused " ++ name.now) }
{
    text.extend_from_slice(b"refused ")?;
    text.extend_from_slice(name)?;
    Ok(())
}

/// Adds `stat` and the counts.
fn push_counts(alloc: Global, text: &mut Vec<u8>, counts: &StatLine) -> Result<(), Memory>
    ensures { OnOk result (text.new.items ≡ text.old.items ++ codes "stat" ++ flat_map spaced (numbers_of counts.now)) }
{
    let StatLine {
        nodes,
        dirty,
        uninstalled,
        forced,
        accepted,
        used,
        identities,
    } = *counts;
    text.extend_from_slice(b"stat")?;
    push_numbers(
        alloc,
        text,
        &[
            nodes,
            dirty,
            uninstalled,
            forced,
            accepted,
            used,
            identities,
        ],
    )
}

/// Adds a key and its value in hexadecimal.
fn push_pair(text: &mut Vec<u8>, key: &[u8], value: &[u8]) -> Result<(), Memory>
    ensures { OnOk result (text.new.items ≡ text.old.items ++ pair_text (key.now, value.now)) }
{
    push_hex(text, key)?;
    text.push(b':')?;
    push_hex(text, value)
}

/// Adds each pair after a space.
fn push_spaced_pairs(text: &mut Vec<u8>, pairs: &[(Short, Short)]) -> Result<(), Memory>
    ensures { OnOk result (text.new.items ≡ text.old.items ++ flat_map spaced_pair pairs.now) }
{
    for pair in pairs {
        text.push(b' ')?;
        push_pair(text, pair.0.as_slice(), pair.1.as_slice())?;
    }
    Ok(())
}

/// Adds the pairs with a space between two, or `-` where there are none.
fn push_pairs(text: &mut Vec<u8>, pairs: &[(Short, Short)]) -> Result<(), Memory>
    ensures { OnOk result (text.new.items ≡ text.old.items ++ text_of (pairs_reply pairs.now)) }
{
    match pairs {
        [] => text.push(b'-')?,
        [first, others @ ..] => {
            push_pair(text, first.0.as_slice(), first.1.as_slice())?;
            push_spaced_pairs(text, others)?;
        }
    }
    Ok(())
}

/// Adds each pair of a map after a space.
fn push_spaced_entries(text: &mut Vec<u8>, pairs: &[(ByteList, ByteList)]) -> Result<(), Memory>
    ensures { OnOk result (text.new.items ≡ text.old.items ++ flat_map spaced_pair pairs.now) }
{
    for pair in pairs {
        text.push(b' ')?;
        push_pair(text, pair.0.as_slice(), pair.1.as_slice())?;
    }
    Ok(())
}

/// Adds the pairs of a map with a space between two, or `-` where there are none.
fn push_entries(text: &mut Vec<u8>, pairs: &[(ByteList, ByteList)]) -> Result<(), Memory>
    ensures { OnOk result (text.new.items ≡ text.old.items ++ text_of (pairs_reply pairs.now)) }
{
    match pairs {
        [] => text.push(b'-')?,
        [first, others @ ..] => {
            push_pair(text, first.0.as_slice(), first.1.as_slice())?;
            push_spaced_entries(text, others)?;
        }
    }
    Ok(())
}

/// Adds `demo` and the totals, each after its name.
fn push_totals(alloc: Global, text: &mut Vec<u8>, totals: &Totals) -> Result<(), Memory>
    ensures { OnOk result (text.new.items ≡ text.old.items ++ text_of (summary totals.now)) }
{
    push_counted(alloc, text, b"demo seed", totals.seed)?;
    push_counted(alloc, text, b" steps", u64::from(totals.steps))?;
    push_counted(alloc, text, b" lines", totals.lines)?;
    push_counted(alloc, text, b" bytes", totals.bytes)?;
    push_counted(alloc, text, b" accepted", totals.accepted)?;
    push_counted(alloc, text, b" refused", totals.refused)?;
    push_counted(alloc, text, b" sum", totals.sum)?;
    Ok(())
}

/// Writes the text of an answer into an empty one.
#[tactic(auto, unfolding(crate::specs::Replies::text_of))]
fn write_answer(alloc: Global, text: &mut Vec<u8>, answer: &Answer<'_>) -> Result<(), Memory>
    requires { text.old.items ≡ [] }
    ensures { OnOk result (text.new.items ≡ text_of (reply_of answer.now)) }
{
    match answer {
        Answer::Done => text.extend_from_slice(b"ok")?,
        Answer::Value(bytes) => push_value(text, bytes)?,
        Answer::Forced(count) => push_counted(alloc, text, b"forced", *count)?,
        Answer::Bad => text.extend_from_slice(b"bad")?,
        Answer::Refused(refusal) => push_refused(text, refusal_name(*refusal))?,
        Answer::Full { used, need, limit } => {
            push_counted(alloc, text, b"full", *used)?;
            text.push(b' ')?;
            push_number(alloc, text, *need)?;
            text.push(b' ')?;
            push_number(alloc, text, *limit)?;
        }
        Answer::End { number } => push_counted(alloc, text, b"end", *number)?,
        Answer::Object { object, value } => {
            push_number(alloc, text, u64::from(*object))?;
            text.push(b' ')?;
            push_value(text, value)?;
        }
        Answer::Commands(count) => push_counted(alloc, text, b"commands", *count)?,
        Answer::Stat(counts) => push_counts(alloc, text, counts)?,
        Answer::Ran(count) => push_counted(alloc, text, b"ran", *count)?,
        Answer::Pairs(pairs) => push_pairs(text, pairs)?,
        Answer::BadTree => text.extend_from_slice(b"refused BadTree")?,
        Answer::TreeFull => text.extend_from_slice(b"refused TreeFull")?,
        Answer::Denied(denial) => push_refused(text, denial_name(*denial))?,
        Answer::InGroup => text.extend_from_slice(b"refused InGroup")?,
        Answer::NoGroup => text.extend_from_slice(b"refused NoGroup")?,
        Answer::Copied(count) => push_counted(alloc, text, b"copied", u64::from(*count))?,
        Answer::Saved(count) => push_counted(alloc, text, b"saved", *count)?,
        Answer::BackupDenied(denial) => push_refused(text, backup_denial_name(*denial))?,
        Answer::Summary(totals) => push_totals(alloc, text, totals)?,
        Answer::Absent => text.extend_from_slice(b"none")?,
        Answer::Counted(count) => push_counted(alloc, text, b"counted", *count)?,
        Answer::Entries(pairs) => push_entries(text, pairs)?,
    }
    Ok(())
}

/// The text of an answer, without a newline.
pub fn answer_text(alloc: Global, answer: &Answer<'_>) -> Result<Vec<u8>, Memory>
    ensures { IfOk result (λ text. text.items ≡ text_of (reply_of answer.now)) }
{
    let mut text = Vec::new(alloc);
    write_answer(alloc, &mut text, answer)?;
    Ok(text)
}

/// The text of an answer and a newline, as it is printed.
pub fn answer_line(alloc: Global, answer: &Answer<'_>) -> Result<Vec<u8>, Memory>
    ensures { IfOk result (λ line. line.items ≡ said_line (reply_of answer.now)) }
{
    let mut line = answer_text(alloc, answer)?;
    line.push(b'\n')?;
    Ok(line)
}
