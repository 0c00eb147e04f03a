// The lines of a log.
ghost use Rattle.std.specs.Prelude.{◌≡◌, ◌++◌, OnOk, IfOk};
ghost use Rattle.std.specs.List.{flat_map};
ghost use Rattle.script_lines.specs.Replies.{spaced};
ghost use Rattle.op_codec.specs.AllOps.{all_meaning};
ghost use Rattle.oper_core.specs.declared.bounds.Bounds.{Bounds as Limits};
ghost use Rattle.redo_log.specs.Lines.{frame_line, header_words, line, line_if, record_line, record_words, start_words};

use crate::choice::{Choice, admits, is_all};
use crate::words::push_op;
use disk_model::FileNo;
use formats::Record;
use op_codec::AllOps;
use oper_core::Memory;
use std::alloc::Global;
use tool_output::{file_name, push_number, push_spaced};

/// How many bytes stand in a log's header.
const HEADER: u64 = 33;

/// Adds a word, and a number after a space.
fn push_counted(alloc: Global, text: &mut Vec<u8>, word: &[u8], number: u64) -> Result<(), Memory>
    ensures { OnOk result (text.new.items ≡ text.old.items ++ word.now ++ spaced number) }
{
    text.extend_from_slice(word)?;
    push_spaced(alloc, text, number)?;
    Ok(())
}

/// A line: a file, a place in it, how many bytes stand there, and what they are.
fn line_of(
    alloc: Global,
    file: FileNo,
    place: u64,
    count: u64,
    what: &[u8],
) -> Result<Vec<u8>, Memory>
    ensures { IfOk result (λ made. made.items ≡ line file place count what.now) }
{
    let mut text = Vec::new(alloc);
    text.extend_from_slice(file_name(file))?;
    push_spaced(alloc, &mut text, place)?;
    push_spaced(alloc, &mut text, count)?;
    text.push(b' ')?;
    text.extend_from_slice(what)?;
    text.push(b'\n')?;
    Ok(text)
}

/// The same, or nothing where it is not to be said.
fn line_if(
    alloc: Global,
    yes: bool,
    file: FileNo,
    place: u64,
    count: u64,
    what: &[u8],
) -> Result<Vec<u8>, Memory>
    ensures { IfOk result (λ made. made.items ≡ line_if yes file place count what.now) }
{
    if yes {
        line_of(alloc, file, place, count, what)
    } else {
        Ok(Vec::new(alloc))
    }
}

/// The line of the header, of a block or of the end.
pub fn frame_line(
    alloc: Global,
    choice: Choice,
    file: FileNo,
    place: u64,
    count: u64,
    what: &[u8],
) -> Result<Vec<u8>, Memory>
    ensures { IfOk result (λ made. made.items ≡ frame_line choice file place count what.now) }
{
    line_if(alloc, is_all(choice), file, place, count, what)
}

/// The line of a header.
pub fn header_line(
    alloc: Global,
    choice: Choice,
    file: FileNo,
    epoch: u64,
    base: u64,
    commands: u64,
) -> Result<Vec<u8>, Memory>
    ensures { IfOk result (λ made. made.items ≡ frame_line choice file 0 33 (header_words (record { epoch = epoch; base = base; commands = commands }))) }
{
    let mut text = Vec::new(alloc);
    push_counted(alloc, &mut text, b"header epoch", epoch)?;
    push_counted(alloc, &mut text, b" base", base)?;
    push_counted(alloc, &mut text, b" commands", commands)?;
    frame_line(alloc, choice, file, 0, HEADER, text.as_slice())
}

/// Adds the redo starts of a checkpoint.
fn push_starts(alloc: Global, text: &mut Vec<u8>, starts: &[(u32, u64)]) -> Result<(), Memory>
    ensures { OnOk result (text.new.items ≡ text.old.items ++ flat_map start_words starts.now) }
{
    for start in starts {
        push_start(alloc, text, start.0, start.1)?;
    }
    Ok(())
}

/// Adds an object, and where its redo starts.
fn push_start(alloc: Global, text: &mut Vec<u8>, object: u32, start: u64) -> Result<(), Memory>
    ensures { OnOk result (text.new.items ≡ text.old.items ++ start_words (object, start)) }
{
    push_spaced(alloc, text, u64::from(object))?;
    text.push(b':')?;
    push_number(alloc, text, start)?;
    Ok(())
}

/// What a record says.
fn push_record(alloc: Global, text: &mut Vec<u8>, it: &Record<AllOps>) -> Result<(), Memory>
    ensures { OnOk result (text.new.items ≡ text.old.items ++ record_words it.now) }
{
    match it {
        Record::Command(lsn, op) => {
            push_counted(alloc, text, b"command", *lsn)?;
            text.push(b' ')?;
            push_op(alloc, text, op)?;
        }
        Record::Identity(lsn, object, value) => {
            push_counted(alloc, text, b"identity", *lsn)?;
            push_counted(alloc, text, b" object", u64::from(*object))?;
            push_counted(alloc, text, b" length", value.as_slice().len() as u64)?;
        }
        Record::Checkpoint(table) => {
            push_counted(alloc, text, b"check", table.next)?;
            text.extend_from_slice(b" starts")?;
            push_starts(alloc, text, table.starts.as_slice())?;
        }
    }
    Ok(())
}

/// The line of a record, whose code has so many bytes, or nothing where it is not to be said.
fn said_line(
    alloc: Global,
    said: bool,
    file: FileNo,
    place: u64,
    count: u64,
    it: &Record<AllOps>,
) -> Result<Vec<u8>, Memory>
    ensures { IfOk result (λ made. made.items ≡ line_if said file place count (record_words it.now)) }
{
    let mut words = Vec::new(alloc);
    push_record(alloc, &mut words, it)?;
    line_if(alloc, said, file, place, count, words.as_slice())
}

/// The same, where the record is all that is asked.
pub fn record_line(
    alloc: Global,
    choice: Choice,
    file: FileNo,
    place: u64,
    count: u64,
    it: &Record<AllOps>,
) -> Result<Vec<u8>, Memory>
    ensures { (b : Limits) → IfOk result (λ made. made.items ≡ record_line choice (all_meaning b) file place count it.now) }
{
    let said = admits(choice, it);
    said_line(alloc, said, file, place, count, it)
}
