// A backup is started, gone on with and ended.
ghost use Rattle.std.specs.Prelude.{◌≡◌, false, List, ℕ, IsTrue, Some};
ghost use Rattle.std.specs.Option.{is_some};
ghost use Rattle.formats.specs.declared.params.Params.{Params};
ghost use Rattle.script_lines.specs.Grammar.{AsksFor};
ghost use Rattle.script_lines.specs.Replies.{reply_of};
ghost use Rattle.script_lines.specs.declared.line.Line.TheVariants.{Save};
ghost use Rattle.script_lines.specs.declared.line.Saving.TheVariants.{Start as bstart, Copy as bcopy, Finish as bfinish};
ghost use Rattle.shell_base.specs.Store.{Command, Holds};
ghost use Rattle.script_run.specs.Saving.{IsSaving, IsSavingDone, answer_of_backup_error};
ghost use Rattle.script_run.specs.Finding.{FindsBeside, IsLineOf};

use backup_copy::BackupErr;
use disk_model::Machine;
use op_codec::AllOps;
use script_lines::{Answer, BackupDenial, Saving};
use shell_base::Stop;
use store_engine::Engine;

/// What is answered where a backup is not started, gone on with or ended.
fn denied(error: BackupErr) -> Result<Answer<'static>, Stop>
    ensures { result ≡ answer_of_backup_error error }
{
    match error {
        BackupErr::InGroup { .. } => Ok(Answer::InGroup),
        BackupErr::InBackup { .. } => Ok(Answer::BackupDenied(BackupDenial::InBackup)),
        BackupErr::NoBackup => Ok(Answer::BackupDenied(BackupDenial::NoBackup)),
        BackupErr::AlreadyStore => Ok(Answer::BackupDenied(BackupDenial::AlreadyStore)),
        BackupErr::NotCopied { .. } => Ok(Answer::BackupDenied(BackupDenial::NotCopied)),
        BackupErr::DiskFault => Err(Stop::DiskFault),
        BackupErr::TargetFault => Err(Stop::BackupFault),
        BackupErr::Damaged { file, place } => Err(Stop::Damaged { file, place }),
        BackupErr::LogFull { used, need, limit } => Ok(Answer::Full { used, need, limit }),
        BackupErr::Memory => Err(Stop::Memory),
    }
}

/// Starts a backup, and finds the answer to that.
fn started<M: Machine, T: Machine>(
    engine: &mut Engine<AllOps>,
    machine: &mut M,
    backup: &mut T,
) -> Result<Answer<'static>, Stop>
    requires { engine.old.broken ≡ false }
    ensures call { IsSaving (Save bstart) (M.disk machine.old) (M.disk machine.new) engine.old engine.new (T.disk backup.old) (T.disk backup.new) result }
    ensures inside { IsTrue (is_some engine.old.group) → machine.new ≡ machine.old }
    ensures done { (start : T) (p : Params) (commands : List Command) (line : List ℕ) → (holds : Holds p (M.disk machine.old) engine.old commands) → AsksFor line (Save bstart) →
        IsSavingDone p (T.disk start) (M.disk machine.old) (M.disk machine.new) engine.old engine.new holds.world commands line (T.disk backup.old) (T.disk backup.new) result }
{
    match backup_copy::start(engine, machine, backup) {
        Ok(()) => Ok(Answer::Done),
        Err(error) => denied(error),
    }
}

/// Copies so many objects more, or all that are left, and finds the answer to that.
fn copied<M: Machine, T: Machine>(
    engine: &mut Engine<AllOps>,
    machine: &mut M,
    backup: &mut T,
    count: u32,
) -> Result<Answer<'static>, Stop>
    requires { engine.old.broken ≡ false }
    ensures call { IsSaving (Save (bcopy count)) (M.disk machine.old) (M.disk machine.new) engine.old engine.new (T.disk backup.old) (T.disk backup.new) result }
    ensures inside { IsTrue (is_some engine.old.group) → machine.new ≡ machine.old }
    ensures done { (start : T) (p : Params) (commands : List Command) (line : List ℕ) → (holds : Holds p (M.disk machine.old) engine.old commands) → AsksFor line (Save (bcopy count)) →
        IsSavingDone p (T.disk start) (M.disk machine.old) (M.disk machine.new) engine.old engine.new holds.world commands line (T.disk backup.old) (T.disk backup.new) result }
{
    match backup_copy::copy(engine, machine, backup, count) {
        Ok(copied) => Ok(Answer::Copied(copied)),
        Err(error) => denied(error),
    }
}

/// Makes the backup a store, and finds the answer to that.
fn finished<M: Machine, T: Machine>(
    engine: &mut Engine<AllOps>,
    machine: &mut M,
    backup: &mut T,
) -> Result<Answer<'static>, Stop>
    requires { engine.old.broken ≡ false }
    ensures call { IsSaving (Save bfinish) (M.disk machine.old) (M.disk machine.new) engine.old engine.new (T.disk backup.old) (T.disk backup.new) result }
    ensures inside { IsTrue (is_some engine.old.group) → machine.new ≡ machine.old }
    ensures done { (start : T) (p : Params) (commands : List Command) (line : List ℕ) → (holds : Holds p (M.disk machine.old) engine.old commands) → AsksFor line (Save bfinish) →
        IsSavingDone p (T.disk start) (M.disk machine.old) (M.disk machine.new) engine.old engine.new holds.world commands line (T.disk backup.old) (T.disk backup.new) result }
{
    let _ = engine.copied();
    match backup_copy::finish(engine, machine, backup) {
        Ok(commands) => Ok(Answer::Saved(commands)),
        Err(error) => denied(error),
    }
}

/// Starts a backup, goes on with it or ends it, and finds the answer to that.
pub fn saving_answer<M: Machine, T: Machine>(
    engine: &mut Engine<AllOps>,
    machine: &mut M,
    backup: &mut T,
    saving: Saving,
) -> Result<Answer<'static>, Stop>
    requires { engine.old.broken ≡ false }
    ensures { FindsBeside reply_of T.disk (IsLineOf (Some (Save saving))) (M.disk machine.old) (M.disk machine.new) engine.old engine.new backup.old backup.new result }
{
    match saving {
        Saving::Start => started(engine, machine, backup),
        Saving::Copy { count } => copied(engine, machine, backup, count),
        Saving::Finish => finished(engine, machine, backup),
    }
}
