ghost use Rattle.std.specs.Prelude.{◌≡◌, List, ℕ, IfOk};
ghost use Rattle.script_lines.specs.Grammar.{AsksFor};
ghost use Rattle.graph_view.specs.Lines.{IsAsked, accesses_of};

use crate::accesses::Accesses;
use op_codec::AllOps;
use oper_core::Memory;
use script_lines::{Line, LineErr, parse_line};
use std::alloc::Global;

/// What a line of a script is to the write graph.
#[derive(Drop)]
pub enum Asked {
    /// A command that reads and writes these objects.
    Command(Accesses),
    /// No command.
    Nothing,
    /// As many commands as the values of objects ask for.
    Several,
    /// The line is outside the grammar.
    Bad,
}

/// What an operation of a store reads, and what it writes.
fn accesses_of(op: AllOps) -> Accesses
    ensures { result ≡ accesses_of op }
{
    Accesses::of(op)
}

impl Asked {
    /// What a line is to the write graph. Out of memory is the only error.
    pub fn of_line(alloc: Global, line: &[u8]) -> Result<Self, Memory>
        ensures { IfOk result (IsAsked line.now) }
    {
        match parse_line(alloc, line) {
            Ok(asked) => Ok(Asked::of(asked)),
            Err(LineErr::Bad) => Ok(Asked::Bad),
            Err(LineErr::Memory) => Err(Memory),
        }
    }

    /// The same of a line that was taken apart.
    fn of(line: Line) -> Self
        ensures { (bytes : List ℕ) → AsksFor bytes line → IsAsked bytes result }
    {
        match line {
            Line::Run(op) => Asked::Command(accesses_of(op)),
            Line::Make(_) => Asked::Several,
            Line::Ask(_)
            | Line::Force
            | Line::Keep(_)
            | Line::Group(_)
            | Line::Save(_)
            | Line::Stat
            | Line::Skip => Asked::Nothing,
        }
    }
}
