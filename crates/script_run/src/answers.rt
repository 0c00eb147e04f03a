// The answers to single commands and to a force, found before they are said.
ghost use Rattle.std.specs.Prelude.{◌≡◌, false, Some};
ghost use Rattle.script_lines.specs.declared.line.Line.TheVariants.{Force as force, Run as run};
ghost use Rattle.script_lines.specs.Replies.{reply_of};
ghost use Rattle.script_run.specs.Finding.{FindsAnswer, IsLineOf};

use crate::making::error_answer;
use crate::upkeep::refused;
use disk_model::Machine;
use op_codec::AllOps;
use script_lines::Answer;
use shell_base::Stop;
use store_engine::Engine;

/// Runs a command, and finds its answer.
pub fn command_answer<M: Machine>(
    engine: &mut Engine<AllOps>,
    machine: &mut M,
    op: AllOps,
) -> Result<Answer<'static>, Stop>
    requires { engine.old.broken ≡ false }
    ensures { FindsAnswer reply_of (IsLineOf (Some (run op))) (M.disk machine.old) (M.disk machine.new) engine.old engine.new result }
{
    explain_core::live_cache_is_the_map::<AllOps>();
    match engine.exec(machine, op) {
        Ok(_) => Ok(Answer::Done),
        Err(error) => error_answer(error),
    }
}

/// Forces the log, and finds the answer to that.
pub fn force_answer<M: Machine>(
    engine: &mut Engine<AllOps>,
    machine: &mut M,
) -> Result<Answer<'static>, Stop>
    requires { engine.old.broken ≡ false }
    ensures { FindsAnswer reply_of (IsLineOf (Some force)) (M.disk machine.old) (M.disk machine.new) engine.old engine.new result }
{
    match engine.force(machine) {
        Ok(count) => Ok(Answer::Forced(count)),
        Err(error) => refused(error),
    }
}
