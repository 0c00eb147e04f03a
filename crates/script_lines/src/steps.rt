// The lines of the demo's script.
ghost use Rattle.std.specs.Prelude.{◌≡◌, ◌++◌, OnOk, IfOk};
ghost use Rattle.std.specs.List.{flat_map};
ghost use Rattle.script_lines.specs.Draws.{next, draw, after_draws, bytes_from};
ghost use Rattle.script_lines.specs.DemoScript.{line, put_line, upkeep_word, text_of, own_draws, ended, line_at, behind, closing};

use crate::draws::Draws;
use crate::hex::push_value;
use crate::kind::{Kind, kind_of};
use crate::number::push_numbers;
use oper_core::Memory;
use std::alloc::Global;

/// Adds a word, and each number in digits after a space.
fn push_line(
    alloc: Global,
    script: &mut Vec<u8>,
    word: &[u8],
    numbers: &[u64],
) -> Result<(), Memory>
    ensures { OnOk result (script.new.items ≡ script.old.items ++ line word.now numbers.now) }
{
    script.extend_from_slice(word)?;
    push_numbers(alloc, script, numbers)?;
    Ok(())
}

/// So many bytes, as they are drawn.
fn drawn_bytes(alloc: Global, count: u64, draws: &mut Draws) -> Result<Vec<u8>, Memory>
    ensures bytes { IfOk result (λ bytes. bytes.items ≡ bytes_from count draws.old) }
    ensures draws { OnOk result (draws.new ≡ after_draws count draws.old) }
{
    let mut bytes = Vec::new(alloc);
    for _ in 0..count {
        bytes.push(draws.draw(256) as u8)?;
    }
    Ok(bytes)
}

/// Adds a put of bytes that are drawn, after their number.
fn push_put(
    alloc: Global,
    script: &mut Vec<u8>,
    object: u64,
    draws: &mut Draws,
) -> Result<(), Memory>
    ensures text { OnOk result (script.new.items ≡ script.old.items
        ++ put_line object (bytes_from (draw 17 draws.old) (next draws.old))) }
    ensures draws { OnOk result (draws.new ≡ after_draws (draw 17 draws.old) (next draws.old)) }
{
    let count = draws.draw(17);
    let bytes = drawn_bytes(alloc, count, draws)?;
    push_line(alloc, script, b"put", &[object])?;
    script.push(b' ')?;
    push_value(script, bytes.as_slice())?;
    Ok(())
}

/// What is asked of the whole store.
fn upkeep_word_of(n: u64) -> &'static [u8]
    ensures { result.now ≡ upkeep_word n }
{
    if n == 0 {
        b"install"
    } else if n == 1 {
        b"drain"
    } else if n == 2 {
        b"checkpoint"
    } else {
        b"force"
    }
}

/// Adds the line of the kind for two objects.
fn push_text(
    alloc: Global,
    script: &mut Vec<u8>,
    kind: Kind,
    a: u64,
    b: u64,
    draws: &mut Draws,
) -> Result<(), Memory>
    ensures text { OnOk result (script.new.items ≡ script.old.items ++ text_of kind a b draws.old) }
    ensures draws { OnOk result (draws.new ≡ after_draws (own_draws kind draws.old) draws.old) }
{
    match kind {
        Kind::Put => push_put(alloc, script, a, draws)?,
        Kind::Copy => push_line(alloc, script, b"copy", &[a, b])?,
        Kind::Append => push_line(alloc, script, b"append", &[a, b])?,
        Kind::Cut => push_line(alloc, script, b"cut", &[a, b, draws.draw(17)])?,
        Kind::Sort => push_line(alloc, script, b"sort", &[a, b, 1 + draws.draw(3)])?,
        Kind::Swap => push_line(alloc, script, b"swap", &[a, b])?,
        Kind::AppRead => push_line(alloc, script, b"aread", &[a, b])?,
        Kind::Exec => push_line(alloc, script, b"exec", &[a])?,
        Kind::AppWrite => push_line(alloc, script, b"awrite", &[a, b])?,
        Kind::Get => push_line(alloc, script, b"get", &[a])?,
        Kind::Upkeep => script.extend_from_slice(upkeep_word_of(draws.draw(4)))?,
    }
    Ok(())
}

/// Adds the line of one step, and its newline.
pub fn push_step(alloc: Global, script: &mut Vec<u8>, draws: &mut Draws) -> Result<(), Memory>
    ensures text { OnOk result (script.new.items ≡ script.old.items ++ ended (line_at draws.old)) }
    ensures draws { OnOk result (draws.new ≡ behind draws.old) }
{
    let kind = kind_of(draws.draw(16));
    let a = draws.draw(16);
    let b = draws.draw(16);
    push_text(alloc, script, kind, a, b, draws)?;
    script.push(b'\n')?;
    Ok(())
}

/// Adds the lines that end every script.
pub fn push_closing(alloc: Global, script: &mut Vec<u8>) -> Result<(), Memory>
    ensures { OnOk result (script.new.items ≡ script.old.items ++ flat_map ended closing) }
{
    script.extend_from_slice(b"force\ndrain\n")?;
    for object in 0..16 {
        push_line(alloc, script, b"get", &[object])?;
        script.push(b'\n')?;
    }
    Ok(())
}
