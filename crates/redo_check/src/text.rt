// Lines as text.
ghost use Rattle.std.specs.Prelude.{◌≡◌, ◌++◌, IfOk, OnOk};
ghost use Rattle.script_lines.specs.Replies.{spaced};
ghost use Rattle.redo_check.specs.Lines.{line, number_line, verdict as verdict_text};

use disk_model::FileNo;
use oper_core::Memory;
use std::alloc::Global;
use tool_output::{file_name, push_spaced};

fn verdict(good: bool) -> &'static [u8]
    ensures { result.now ≡ verdict_text good }
{
    if good { b" ok\n" } else { b" bad\n" }
}

/// Words, and a number after a space.
pub fn counted(alloc: Global, words: &[u8], number: u64) -> Result<Vec<u8>, Memory>
    ensures { IfOk result (λ made. made.items ≡ words.now ++ spaced number) }
{
    let mut text = Vec::new(alloc);
    text.extend_from_slice(words)?;
    push_spaced(alloc, &mut text, number)?;
    Ok(text)
}

/// A line: a file, a place in it, what stands there, and whether that is as it has to be.
pub fn line_of(
    alloc: Global,
    file: FileNo,
    place: u64,
    what: &[u8],
    good: bool,
) -> Result<Vec<u8>, Memory>
    ensures { IfOk result (λ made. made.items ≡ line file place what.now good) }
{
    let mut text = Vec::new(alloc);
    text.extend_from_slice(file_name(file))?;
    push_spaced(alloc, &mut text, place)?;
    text.push(b' ')?;
    text.extend_from_slice(what)?;
    text.extend_from_slice(verdict(good))?;
    Ok(text)
}

/// A line that says a number.
pub fn found_line(
    alloc: Global,
    file: FileNo,
    place: u64,
    what: &[u8],
    number: u64,
    good: bool,
) -> Result<Vec<u8>, Memory>
    ensures { IfOk result (λ made. made.items ≡ number_line file place what.now number good) }
{
    let words = counted(alloc, what, number)?;
    let line = line_of(alloc, file, place, words.as_slice(), good)?;
    Ok(line)
}

/// Adds a line.
pub fn push_line(
    alloc: Global,
    text: &mut Vec<u8>,
    file: FileNo,
    place: u64,
    what: &[u8],
    good: bool,
) -> Result<(), Memory>
    ensures { OnOk result (text.new.items ≡ text.old.items ++ line file place what.now good) }
{
    let line = line_of(alloc, file, place, what, good)?;
    text.extend_from_slice(line.as_slice())?;
    Ok(())
}

/// Adds a line that says a number.
pub fn push_found(
    alloc: Global,
    text: &mut Vec<u8>,
    file: FileNo,
    place: u64,
    what: &[u8],
    number: u64,
    good: bool,
) -> Result<(), Memory>
    ensures { OnOk result (text.new.items ≡ text.old.items ++ number_line file place what.now number good) }
{
    let words = counted(alloc, what, number)?;
    push_line(alloc, text, file, place, words.as_slice(), good)?;
    Ok(())
}
