// The lines of the log files.
ghost use Rattle.std.specs.Prelude.{◌≡◌, ◌++◌, IfErr, OnOk, length, nat_lt};
ghost use Rattle.disk_model.specs.Disk.{Files, Rises, Stays};
ghost use Rattle.formats.specs.Reading.{FailsBy};
ghost use Rattle.redo_check.specs.Lines.{header_lines, is_numbered as number_fits, log_lines};
ghost use Rattle.redo_check.specs.Files.{log_file_lines};

use crate::numbers::{has_magic, is_gate, long_number};
use crate::text::{push_found, push_line};
use disk_model::{FileNo, Machine, read_padded};
use formats::{LSN_END, ReadErr};
use oper_core::Memory;
use std::alloc::Global;

/// How many bytes stand before the first block.
const HEAD: u64 = 33;

/// Whether a number of a header is within its range.
fn is_numbered(number: u64) -> bool
    ensures { result ≡ number_fits number }
{
    1 <= number && number <= LSN_END
}

fn is_below(number: u64, other: u64) -> bool
    ensures { result ≡ nat_lt number other }
{
    number < other
}

/// Adds the lines of a header whose gate is open.
fn push_header(
    alloc: Global,
    text: &mut Vec<u8>,
    file: FileNo,
    size: u64,
    head: &[u8],
) -> Result<(), Memory>
    requires { length head.now ≡ 33 }
    ensures { OnOk result (text.new.items ≡ text.old.items ++ header_lines file size head.now) }
{
    push_line(alloc, text, file, 1, b"magic", has_magic(head, b"RDOLOG01"))?;
    let epoch = long_number(head, 9);
    push_found(alloc, text, file, 9, b"epoch", epoch, is_numbered(epoch))?;
    let base = long_number(head, 17);
    push_found(alloc, text, file, 17, b"base", base, is_numbered(base))?;
    let commands = long_number(head, 25);
    push_found(
        alloc,
        text,
        file,
        25,
        b"commands",
        commands,
        is_below(commands, base),
    )?;
    push_line(alloc, text, file, HEAD, b"first gate", is_below(HEAD, size))?;
    Ok(())
}

/// Adds the lines of a log file of this length, which begins with these bytes.
fn push_lines(
    alloc: Global,
    text: &mut Vec<u8>,
    file: FileNo,
    size: u64,
    head: &[u8],
) -> Result<(), Memory>
    requires { length head.now ≡ 33 }
    ensures { OnOk result (text.new.items ≡ text.old.items ++ log_lines file size head.now) }
{
    push_found(alloc, text, file, 0, b"length", size, is_below(0, size))?;
    push_found(alloc, text, file, 0, b"gate", u64::from(head[0]), true)?;
    if !is_gate(head[0]) {
        return Ok(());
    }
    push_header(alloc, text, file, size, head)?;
    Ok(())
}

/// Adds the lines of a log file.
pub fn push_log<M: Machine>(
    alloc: Global,
    machine: &mut M,
    text: &mut Vec<u8>,
    file: FileNo,
) -> Result<(), ReadErr>
    ensures kept { Stays (M.disk machine.old) (M.disk machine.new) }
    ensures text { (files : Files) → (M.disk machine.new).agrees files → OnOk result (text.new.items ≡ text.old.items ++ log_file_lines file (files file)) }
    ensures cause { IfErr result (FailsBy (Rises (M.disk machine.old).disk_faults (M.disk machine.new).disk_faults) (λ file place. ⊥)) }
{
    let size = machine.size(file)?;
    let mut head = [0; HEAD as usize];
    read_padded(machine, file, 0, &mut head)?;
    push_lines(alloc, text, file, size, &head)?;
    Ok(())
}
