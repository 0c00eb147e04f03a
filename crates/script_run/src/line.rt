// A line is answered.
ghost use Rattle.std.specs.Prelude.{◌≡◌, ◌≢◌, ◌<◌, ◌^◌, false, List, ℕ, IfOk};
ghost use Rattle.script_lines.specs.Reading.{IsLine};
ghost use Rattle.script_run.specs.Finding.{AnswersBeside, FindsBeside, IsLineOf, IsReadable, IsThis, outcome_reply};
ghost use Rattle.script_run.specs.Noted.{TakesLineIf};

use crate::answers::{command_answer, force_answer};
use crate::asking::answer_to;
use crate::grouping::group_answer;
use crate::making::made_answer;
use crate::notes::Notes;
use crate::outcome::{Outcome, say_outcome, told};
use crate::saving::saving_answer;
use crate::upkeep::{counts_answer, upkeep_answer};
use backup_copy::copies_go_on;
use disk_model::Machine;
use op_codec::AllOps;
use oper_core::Memory;
use script_lines::{Answer, Line, LineErr, Next, a_line_asks_one_thing, parse_line};
use shell_base::Stop;
use std::alloc::Global;
use store_engine::{
    Engine, calls_go_beside_a_copy, commands_log_no_identity, engine_stands, stop_is_said,
};

/// What a line asks; none where it is outside the grammar. Fails where memory for the bytes of a put runs out.
fn asked_by(alloc: Global, line: &[u8]) -> Result<Option<Line>, Memory>
    ensures { IfOk result (λ asked. IsLineOf asked line.now) }
{
    match parse_line(alloc, line) {
        Ok(line) => Ok(Some(line)),
        Err(LineErr::Bad) => Ok(None),
        Err(LineErr::Memory) => Err(Memory),
    }
}

/// The same of the line that a reader has found, whose bytes are these where it is not too long.
fn asked_by_next(alloc: Global, next: Next, bytes: &[u8]) -> Result<Option<Line>, Memory>
    ensures asks { IfOk result (λ asked. (line : List ℕ) → IsLine next bytes.now line → IsLineOf asked line) }
    // Whatever a source that reports nothing gave, it is some line.
    ensures some { next ≢ Next.End → IfOk result (λ asked. (line : List ℕ) × IsLineOf asked line) }
{
    match next {
        Next::Line => asked_by(alloc, bytes),
        Next::Long => Ok(None),
        Next::End => Ok(Some(Line::Skip)),
    }
}

/// Does what a line asks, and finds the answer. Fails where the disk does, and by lack of memory.
fn do_line<M: Machine, T: Machine>(
    alloc: Global,
    engine: &mut Engine<AllOps>,
    machine: &mut M,
    backup: &mut T,
    line: Line,
) -> Result<Outcome, Stop>
    requires { engine.old.broken ≡ false }
    ensures found { FindsBeside (outcome_reply engine.new) T.disk (IsLineOf (Some line)) (M.disk machine.old) (M.disk machine.new) engine.old engine.new backup.old backup.new result }
    ensures readable { IfOk result (IsReadable engine.new) }
{
    a_line_asks_one_thing();
    commands_log_no_identity::<AllOps>();
    calls_go_beside_a_copy::<AllOps>();
    copies_go_on::<AllOps, M, T>();
    match line {
        Line::Run(op) => told(command_answer(engine, machine, op)),
        Line::Make(making) => told(made_answer(alloc, engine, machine, making)),
        Line::Ask(question) => answer_to(alloc, engine, machine, question),
        Line::Force => told(force_answer(engine, machine)),
        Line::Keep(upkeep) => told(upkeep_answer(engine, machine, upkeep)),
        Line::Group(grouping) => told(group_answer(engine, machine, grouping)),
        Line::Save(saving) => told(saving_answer(engine, machine, backup, saving)),
        Line::Stat => Ok(Outcome::Told(counts_answer(engine, machine))),
        Line::Skip => Ok(Outcome::Nothing),
    }
}

/// The same of any line, by what it asks.
fn do_asked<M: Machine, T: Machine>(
    alloc: Global,
    engine: &mut Engine<AllOps>,
    machine: &mut M,
    backup: &mut T,
    asked: Option<Line>,
) -> Result<Outcome, Stop>
    requires { engine.old.broken ≡ false }
    ensures found { FindsBeside (outcome_reply engine.new) T.disk (IsLineOf asked) (M.disk machine.old) (M.disk machine.new) engine.old engine.new backup.old backup.new result }
    ensures readable { IfOk result (IsReadable engine.new) }
{
    calls_go_beside_a_copy::<AllOps>();
    copies_go_on::<AllOps, M, T>();
    match asked {
        Some(line) => do_line(alloc, engine, machine, backup, line),
        None => Ok(Outcome::Told(Answer::Bad)),
    }
}

/// Answers a line, by what it asks. It reports whether the answer is a refusal. Fails where the disk or the output does, and by
/// lack of memory.
fn answer_asked<M: Machine, T: Machine>(
    alloc: Global,
    engine: &mut Engine<AllOps>,
    machine: &mut M,
    backup: &mut T,
    asked: Option<Line>,
) -> Result<bool, Stop>
    requires { engine.old.broken ≡ false }
    ensures { AnswersBeside T.disk (IsLineOf asked) (M.disk machine.old) (M.disk machine.new) engine.old engine.new backup.old backup.new result }
{
    let outcome = do_asked(alloc, engine, machine, backup, asked)?;
    engine_stands(machine, engine);
    stop_is_said(machine, engine);
    say_outcome(alloc, engine, machine, &outcome)
}

/// Answers the line that a reader has found, whose bytes are these where it is not too long, and notes it.
pub fn answer_next<M: Machine, T: Machine>(
    alloc: Global,
    engine: &mut Engine<AllOps>,
    machine: &mut M,
    backup: &mut T,
    next: Next,
    bytes: &[u8],
    notes: &mut Notes,
) -> Result<bool, Stop>
    requires sound { engine.old.broken ≡ false }
    requires few { notes.old.lines < 2 ^ 40 }
    ensures answered { AnswersBeside T.disk (IsLine next bytes.now) (M.disk machine.old) (M.disk machine.new) engine.old engine.new backup.old backup.new result }
    // Whatever a source that reports nothing gave, it is the answer to some line.
    ensures some { next ≢ Next.End → (line : List ℕ) × AnswersBeside T.disk (IsThis line) (M.disk machine.old) (M.disk machine.new) engine.old engine.new backup.old backup.new result }
    ensures noted { TakesLineIf result next bytes.now notes.old notes.new }
{
    let asked = asked_by_next(alloc, next, bytes)?;
    notes.take(&asked, next, bytes);
    answer_asked(alloc, engine, machine, backup, asked)
}
