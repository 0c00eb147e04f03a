// Groups of commands.
ghost use Rattle.std.specs.Prelude.{◌≡◌, false, IsTrue, Some};
ghost use Rattle.std.specs.Option.{is_some};
ghost use Rattle.script_lines.specs.declared.line.Line.TheVariants.{Group};
ghost use Rattle.script_lines.specs.declared.line.Grouping.TheVariants.{Abort as abort_group, End as end_group};
ghost use Rattle.script_lines.specs.Replies.{reply_of};
ghost use Rattle.script_run.specs.Finding.{FindsAnswer, IsLineOf};
ghost use Rattle.script_run.specs.Found.{stop_of_opening};

use crate::upkeep::worked;
use disk_model::Machine;
use op_codec::AllOps;
use restart::a_restart_may_be_made;
use script_lines::{Answer, Grouping};
use shell_base::{Budget, Stop};
use std::mem;
use store_engine::{Engine, OpenErr, group_is_closed, stop_is_said};

/// Closes the open group, and finds the answer to that.
fn end_answer<M: Machine>(
    engine: &mut Engine<AllOps>,
    machine: &mut M,
) -> Result<Answer<'static>, Stop>
    requires { engine.old.broken ≡ false }
    ensures { FindsAnswer reply_of (IsLineOf (Some (Group end_group))) (M.disk machine.old) (M.disk machine.new) engine.old engine.new result }
{
    group_is_closed(machine, engine);
    match engine.end() {
        Ok(_) => Ok(Answer::Done),
        Err(_) => Ok(Answer::NoGroup),
    }
}

/// Why a run ends where the store is not opened again: with the disk, or for want of memory. Files that stand for commands are not
/// damaged.
fn unopened(cause: OpenErr) -> Stop
    ensures { result ≡ stop_of_opening cause }
{
    match cause {
        OpenErr::DiskFault => Stop::DiskFault,
        _ => Stop::Memory,
    }
}

/// Gives up the open group, and finds the answer to that: the store is opened again, in place of the engine, as after a crash.
fn given_up<M: Machine>(
    engine: &mut Engine<AllOps>,
    machine: &mut M,
) -> Result<Answer<'static>, Stop>
    requires sound { engine.old.broken ≡ false }
    requires inside { IsTrue (is_some engine.old.group) }
    ensures { FindsAnswer reply_of (IsLineOf (Some (Group abort_group))) (M.disk machine.old) (M.disk machine.new) engine.old engine.new result }
{
    stop_is_said(machine, engine);
    a_restart_may_be_made::<AllOps>();
    match Engine::restart(engine.alloc(), machine, Budget::Usual.tuning()) {
        Ok(mut fresh) => {
            mem::swap(engine, &mut fresh);
            Ok(Answer::Done)
        }
        Err(cause) => Err(unopened(cause)),
    }
}

/// Gives up the open group, if there is one, and finds the answer to that.
fn abort_answer<M: Machine>(
    engine: &mut Engine<AllOps>,
    machine: &mut M,
) -> Result<Answer<'static>, Stop>
    requires { engine.old.broken ≡ false }
    ensures { FindsAnswer reply_of (IsLineOf (Some (Group abort_group))) (M.disk machine.old) (M.disk machine.new) engine.old engine.new result }
{
    match engine.group() {
        Some(_) => given_up(engine, machine),
        None => Ok(Answer::NoGroup),
    }
}

/// Opens or closes a group, or gives it up, and finds the answer to that.
pub fn group_answer<M: Machine>(
    engine: &mut Engine<AllOps>,
    machine: &mut M,
    grouping: Grouping,
) -> Result<Answer<'static>, Stop>
    requires { engine.old.broken ≡ false }
    ensures { FindsAnswer reply_of (IsLineOf (Some (Group grouping))) (M.disk machine.old) (M.disk machine.new) engine.old engine.new result }
{
    match grouping {
        Grouping::Begin => worked(engine.begin(machine)),
        Grouping::End => end_answer(engine, machine),
        Grouping::Abort => abort_answer(engine, machine),
    }
}
