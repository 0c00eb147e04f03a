ghost use Rattle.std.specs.Prelude.{◌≡◌, ◌<◌, ◌≤◌, ◌^◌, ◌++◌, [], List, IfOk, IfErr, IfSome, IsErrOf, OnOk, string_bytes};
ghost use Rattle.script_lines.specs.Grammar.{lines_of};
ghost use Rattle.script_lines.specs.Reading.{ReadsOn, still_to_give};
ghost use Rattle.install_order.specs.declared.entry.Entry.{Entry};
ghost use Rattle.graph_view.specs.Dot.{IsGraph};
ghost use Rattle.graph_view.specs.Lines.{AreEntries, CountsFault, CountsRead, IsAdded, IsNextAsked, IsRefused, IsCause, IsGraphOf};

use crate::asked::Asked;
use crate::commands::Commands;
use crate::draw_error::DrawError;
use disk_model::Source;
use script_lines::{LineReader, Next, ReadError};
use std::alloc::Global;

/// What the next line is to the write graph; none where no line is left.
fn next_asked<S: Source>(
    alloc: Global,
    lines: &mut LineReader,
    input: &mut S,
) -> Result<Option<Asked>, ReadError>
    ensures told { S.tells input.old → S.tells input.new }
    ensures next { S.tells input.old → IfOk result (λ asked. IsNextAsked asked (lines.old.ahead ++ S.left input.old) (lines.new.ahead ++ S.left input.new)) }
    ensures takes { S.tells input.old → ReadsOn (S.left input.old) (S.left input.new) lines.old.taken lines.new.taken }
    ensures less { IfOk result (λ asked. IfSome asked (λ _. still_to_give lines.new < still_to_give lines.old)) }
    ensures long { IsErrOf result ReadError.TooLong → lines.new.taken ≡ 2 ^ 40 }
    ensures later { S.faults input.old ≤ S.faults input.new }
    ensures faults { IfErr result (CountsRead (S.faults input.old) (S.faults input.new)) }
{
    match lines.next(input)? {
        Next::Line => Ok(Some(Asked::of_line(alloc, lines.line())?)),
        Next::Long => Ok(Some(Asked::Bad)),
        Next::End => Ok(None),
    }
}

/// Adds what the line of the number asks.
fn add_asked(commands: &mut Commands, asked: Asked, line: u64) -> Result<(), DrawError>
    ensures ok { OnOk result (IsAdded commands.old asked commands.new) }
    ensures err { IfErr result (IsRefused asked line) }
{
    match asked {
        Asked::Command(accesses) => commands.add(&accesses)?,
        Asked::Nothing => {}
        Asked::Several => return Err(DrawError::Several(line)),
        Asked::Bad => return Err(DrawError::Bad(line)),
    }
    Ok(())
}

/// Adds the commands of all lines that are left.
fn read_lines<S: Source>(
    alloc: Global,
    lines: &mut LineReader,
    input: &mut S,
    commands: &mut Commands,
) -> Result<(), DrawError>
    requires fresh { lines.old.ahead ≡ [] }
    requires unread { lines.old.taken ≡ 0 }
    requires empty { commands.old ≡ [] }
    ensures entries { S.tells input.old → OnOk result (AreEntries 1 (lines_of (S.left input.old)) commands.new) }
    ensures cause { S.tells input.old → IfErr result (IsCause (S.left input.old)) }
    ensures faults { IfErr result (CountsFault (S.faults input.old) (S.faults input.new)) }
{
    for line in 1..u64::MAX {
        match next_asked(alloc, lines, input)? {
            Some(asked) => add_asked(commands, asked, line)?,
            None => return Ok(()),
        }
    }
    Err(DrawError::Read(ReadError::TooLong))
}

/// Adds the commands of a script.
fn read_script<S: Source>(
    alloc: Global,
    input: &mut S,
    commands: &mut Commands,
) -> Result<(), DrawError>
    requires empty { commands.old ≡ [] }
    ensures entries { S.tells input.old → OnOk result (AreEntries 1 (lines_of (S.left input.old)) commands.new) }
    ensures cause { S.tells input.old → IfErr result (IsCause (S.left input.old)) }
    ensures faults { IfErr result (CountsFault (S.faults input.old) (S.faults input.new)) }
{
    let mut lines = LineReader::new(alloc)?;
    read_lines(alloc, &mut lines, input, commands)
}

/// The write graph of the commands of a script, in the DOT language. All commands are taken as accepted, and none as
/// installed. Fails at the first line that is outside the grammar or makes as many commands as values ask for, where
/// the input fails or has 2^40 bytes, and where it is out of memory.
pub fn draw_script<S: Source>(alloc: Global, input: &mut S) -> Result<String, DrawError>
    ensures graph { S.tells input.old → IfOk result (λ text. IsGraphOf (lines_of (S.left input.old)) (string_bytes text)) }
    ensures cause { S.tells input.old → IfErr result (IsCause (S.left input.old)) }
    // A fault of the input is told only where the source counted one in this call.
    ensures faults { IfErr result (CountsFault (S.faults input.old) (S.faults input.new)) }
    // Whatever a source that reports nothing gave, the text is the graph of some entries.
    ensures some { IfOk result (λ text. (entries : List Entry) × IsGraph entries (string_bytes text)) }
{
    let mut commands = Commands::new(alloc)?;
    match read_script(alloc, input, &mut commands) {
        Ok(()) => Ok(commands.into_dot(alloc)?),
        Err(error) => {
            drop(commands);
            Err(error)
        }
    }
}
