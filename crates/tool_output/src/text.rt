// Lines as text.
ghost use Rattle.std.specs.Prelude.{◌≡◌, ◌++◌, IfOk, OnOk};
ghost use Rattle.std.specs.Fmt.{decimal};
ghost use Rattle.script_lines.specs.Replies.{spaced};
ghost use Rattle.tool_output.specs.Lines.{damaged, name_of_file};

use disk_model::FileNo;
use oper_core::Memory;
use std::alloc::Global;

/// The name of a file.
pub fn file_name(file: FileNo) -> &'static [u8]
    ensures { result.now ≡ name_of_file file }
{
    match file {
        FileNo::Objects => b"objects",
        FileNo::LogA => b"log_a",
        FileNo::LogB => b"log_b",
    }
}

/// Adds a number in digits.
pub fn push_number(alloc: Global, text: &mut Vec<u8>, number: u64) -> Result<(), Memory>
    ensures { OnOk result (text.new.items ≡ text.old.items ++ decimal number) }
{
    let digits = number.to_string(alloc)?;
    text.extend_from_slice(digits.as_bytes())?;
    Ok(())
}

/// Adds a number in digits, after a space.
pub fn push_spaced(alloc: Global, text: &mut Vec<u8>, number: u64) -> Result<(), Memory>
    ensures { OnOk result (text.new.items ≡ text.old.items ++ spaced number) }
{
    text.push(b' ')?;
    push_number(alloc, text, number)?;
    Ok(())
}

/// The line that reports a fault in a file at a place.
pub fn damage_line(alloc: Global, file: FileNo, place: u64) -> Result<Vec<u8>, Memory>
    ensures { IfOk result (λ made. made.items ≡ damaged file place) }
{
    let mut text = Vec::new(alloc);
    text.extend_from_slice(b"damaged ")?;
    text.extend_from_slice(file_name(file))?;
    push_spaced(alloc, &mut text, place)?;
    text.push(b'\n')?;
    Ok(text)
}
