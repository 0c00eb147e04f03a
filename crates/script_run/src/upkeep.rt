// Installs, checks and trims, and the counts of a store.
ghost use Rattle.std.specs.Prelude.{◌≡◌, false, List, ℕ, Some};
ghost use Rattle.formats.specs.declared.params.Params.{Params};
ghost use Rattle.script_lines.specs.Grammar.{AsksFor};
ghost use Rattle.script_lines.specs.declared.line.Line.TheVariants.{Keep, Stat as stat};
ghost use Rattle.script_lines.specs.Replies.{reply_of};
ghost use Rattle.shell_base.specs.Store.{Command, Holds};
ghost use Rattle.script_run.specs.Finding.{FindsAnswer, IsLineOf};
ghost use Rattle.script_run.specs.Found.{IsDone, answer_of_work, answer_of_work_error};

use disk_model::Machine;
use op_codec::AllOps;
use script_lines::{Answer, BackupDenial, StatLine, Upkeep};
use shell_base::Stop;
use store_engine::{Engine, WorkErr, identities_are_counted};

/// What is answered where a force, an install, a drain, a check or a trim is not done, or no group may begin.
pub fn refused(error: WorkErr) -> Result<Answer<'static>, Stop>
    ensures { result ≡ answer_of_work_error error }
{
    match error {
        WorkErr::InGroup { .. } => Ok(Answer::InGroup),
        WorkErr::InBackup { .. } => Ok(Answer::BackupDenied(BackupDenial::InBackup)),
        WorkErr::LogFull { used, need, limit } => Ok(Answer::Full { used, need, limit }),
        WorkErr::LsnEnd { lsn } => Ok(Answer::End { number: lsn }),
        WorkErr::Exhausted { epoch } => Ok(Answer::End { number: epoch }),
        WorkErr::Damaged { file, place } => Err(Stop::Damaged { file, place }),
        WorkErr::DiskFault => Err(Stop::DiskFault),
        WorkErr::Memory => Err(Stop::Memory),
    }
}

/// What is answered where one of these was done, or not.
pub fn worked<T: Drop>(answer: Result<T, WorkErr>) -> Result<Answer<'static>, Stop>
    ensures { result ≡ answer_of_work answer }
{
    match answer {
        Ok(_) => Ok(Answer::Done),
        Err(error) => refused(error),
    }
}

/// Installs, logs a check, or rewrites the log, and finds the answer to that.
pub fn upkeep_answer<M: Machine>(
    engine: &mut Engine<AllOps>,
    machine: &mut M,
    upkeep: Upkeep,
) -> Result<Answer<'static>, Stop>
    requires { engine.old.broken ≡ false }
    ensures { FindsAnswer reply_of (IsLineOf (Some (Keep upkeep))) (M.disk machine.old) (M.disk machine.new) engine.old engine.new result }
{
    identities_are_counted::<AllOps>();
    match upkeep {
        Upkeep::Install => worked(engine.install_one(machine)),
        Upkeep::Drain => worked(engine.drain(machine)),
        Upkeep::Checkpoint => worked(engine.checkpoint(machine)),
        Upkeep::Trim => worked(engine.trim(machine)),
    }
}

/// The counts of the store.
pub fn counts_answer<M: Machine>(engine: &Engine<AllOps>, machine: &M) -> Answer<'static>
    ensures { (p : Params) (commands : List Command) (line : List ℕ) → (holds : Holds p (M.disk machine.now) engine.now commands) → AsksFor line stat →
        IsDone p (M.disk machine.now) (M.disk machine.now) engine.now engine.now holds.world commands line (reply_of result) }
{
    standing::image_stands::<AllOps>();
    standing::files_stand_for_one_state::<AllOps>();
    let _ = machine;
    let stat = engine.stat();
    Answer::Stat(StatLine {
        nodes: stat.nodes,
        dirty: stat.dirty,
        uninstalled: stat.uninstalled,
        forced: stat.forced,
        accepted: stat.accepted,
        used: stat.used,
        identities: stat.identities,
    })
}
