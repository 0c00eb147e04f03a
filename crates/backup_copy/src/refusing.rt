// Which calls are refused before anything is done.
ghost use Rattle.std.specs.Prelude.{◌≡◌, ◌≤◌, false, IfOk};
ghost use Rattle.store_engine.specs.Engine.{params_of};
ghost use Rattle.backup_copy.specs.Refusals.{judge_copy, judge_finish, judge_start};

use crate::BackupErr;
use oper_core::Oper;
use store_engine::Engine;

/// Whether a backup may be started.
pub fn may_start<O: Oper>(engine: &Engine<O>) -> Result<(), BackupErr>
    requires unbroken { engine.now.broken ≡ false }
    ensures { result ≡ judge_start engine.now }
{
    if let Some(commands) = engine.group() {
        return Err(BackupErr::InGroup { commands });
    }
    match engine.copied() {
        Some(copied) => Err(BackupErr::InBackup { copied }),
        None => Ok(()),
    }
}

/// How many objects the backup has that is being made.
pub fn copied_in<O: Oper>(engine: &Engine<O>) -> Result<u32, BackupErr>
    requires unbroken { engine.now.broken ≡ false }
    ensures answer { result ≡ judge_copy engine.now }
    ensures within { IfOk result (λ n. n ≤ (params_of engine.now).objects) }
{
    if let Some(commands) = engine.group() {
        return Err(BackupErr::InGroup { commands });
    }
    match engine.copied() {
        Some(copied) => Ok(copied),
        None => Err(BackupErr::NoBackup),
    }
}

/// Whether the backup that is being made has all objects.
pub fn may_finish<O: Oper>(engine: &Engine<O>) -> Result<(), BackupErr>
    requires unbroken { engine.now.broken ≡ false }
    ensures { result ≡ judge_finish engine.now }
{
    let copied = copied_in(engine)?;
    if copied < engine.params().objects {
        return Err(BackupErr::NotCopied { copied });
    }
    Ok(())
}
