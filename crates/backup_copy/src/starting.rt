// A backup is started: the store is forced, and the target laid out.
ghost use Rattle.std.specs.Prelude.{◌≡◌, ℕ, false, OnOk, IfErr, IfOk, IsErr};
ghost use Rattle.disk_model.specs.Disk.{LeavesOnly, Rises, Stays};
ghost use Rattle.disk_model.specs.declared.machine.FileNo.TheVariants.{Objects};
ghost use Rattle.oper_core.specs.Cell.{Cell};
ghost use Rattle.formats.specs.Objects.{BeginsStore, IsInRange};
ghost use Rattle.formats.specs.declared.params.Params.{Params as Numbers};
ghost use Rattle.explain_core.specs.World.{World, run};
ghost use Rattle.running_store.specs.Courses.{force_steps};
ghost use Rattle.restart.specs.Starts.{OrAtStart};
ghost use Rattle.store_engine.specs.Engine.{ShowsIn};
ghost use Rattle.store_engine.specs.Store.{meaning_in};
ghost use Rattle.backup_copy.specs.Calls.{BeginsNone, HasStartCause, IsQuiet, IsUntouched, LooksFirst, NoneIn, copied_by_start};
ghost use Rattle.backup_copy.specs.Copies.{Copies};
ghost use Rattle.backup_copy.specs.Refusals.{IsRefusedSo, judge_start};
ghost use Rattle.backup_copy.specs.Target.{IsPartCopy};

use crate::BackupErr;
use crate::forcing::force;
use crate::refusing::may_start;
use disk_model::{Failed, Machine, settle};
use formats::Params;
use log_records::RecordLog;
use oper_core::Oper;
use stable_objects::Slots;
use store_engine::Engine;

// Lays out a new store whose gate stays closed. It begins with a sync of each file, so what an earlier call left unsynced is
// there after each crash, or is written again.
fn lay_out<O: Oper, T: Machine>(target: &mut T, params: Params) -> Result<(), Failed>
    requires { IsInRange params }
    ensures quiet { IsQuiet (T.disk target.old) (T.disk target.new) }
    ensures laid_out { (T.disk target.old).tells_files → (cells : ℕ → Cell) → OnOk result (IsPartCopy params 0 cells (T.disk target.new)) }
    ensures moments { (T.disk target.old).tells_moments → BeginsNone (T.disk target.old).reads →
        LeavesOnly (T.disk target.old) (T.disk target.new) (OrAtStart (T.disk target.old) (NoneIn (T.disk target.old))) }
    ensures cause { IsErr result → Rises (T.disk target.old).disk_faults (T.disk target.new).disk_faults }
{
    stable_objects::a_file_is_filled();
    settle(target)?;
    Slots::close(target)?;
    RecordLog::<O>::create(target)?;
    Slots::lay_out(target, params)?;
    Ok(())
}

/// Starts a backup of a store: forces its log, and lays out a store with its numbers in the target, whose objects gate stays
/// closed. From then on, while commands and installs go on, [`copy`](crate::copy) copies the slots.
///
/// The first that applies is answered: `InGroup`; `InBackup`; `AlreadyStore`, where the target begins with an open gate and the
/// magic, and is left as it is. `DiskFault` comes where a machine call on the store failed, and `TargetFault` where one on the
/// target did; then no backup is being made.
pub fn start<O: Oper, M: Machine, T: Machine>(
    engine: &mut Engine<O>,
    machine: &mut M,
    target: &mut T,
) -> Result<(), BackupErr>
    requires unbroken { engine.old.broken ≡ false }
    ensures refused { IfErr (judge_start engine.old) (λ why. IsRefusedSo why machine.old machine.new target.old target.new engine.old engine.new result) }
    ensures forces { IfOk (judge_start engine.old) (λ done. LooksFirst O.meaning (M.disk machine.old) (M.disk machine.new) engine.old engine.new (IsUntouched machine.old machine.new engine.old engine.new) result) }
    ensures copied { engine.new.copied ≡ copied_by_start engine.old.copied result }
    ensures begun { (p : Numbers) (w : World O) → ShowsIn O.meaning p (M.disk machine.old) engine.old w →
        OnOk result (Copies O.meaning p (M.disk machine.new) engine.new (run (meaning_in O.meaning p) w (force_steps (meaning_in O.meaning p) w)) (T.disk target.new)) }

    // A store that is there is left as it is.
    ensures kept { (T.disk target.old).tells_files → BeginsStore ((T.disk target.old).reads Objects) → Stays (T.disk target.old) (T.disk target.new) }

    // Elsewhere none begins at any moment of the call.
    ensures moments { (T.disk target.old).tells_moments → BeginsNone (T.disk target.old).reads →
        LeavesOnly (T.disk target.old) (T.disk target.new) (OrAtStart (T.disk target.old) (NoneIn (T.disk target.old))) }

    ensures quiet { IsQuiet (T.disk target.old) (T.disk target.new) }
    ensures cause { IfOk (judge_start engine.old) (λ done. HasStartCause ((T.disk target.old).tells_files → BeginsStore ((T.disk target.old).reads Objects))
        ((T.disk target.old).tells_files → BeginsNone (T.disk target.old).reads) (Rises (M.disk machine.old).disk_faults (M.disk machine.new).disk_faults)
        (Rises (T.disk target.old).disk_faults (T.disk target.new).disk_faults) result) }
{
    explain_core::copying_goes_on::<O>();
    may_start(engine)?;
    match Slots::begins(target) {
        Ok(false) => {}
        Ok(true) => return Err(BackupErr::AlreadyStore),
        Err(Failed) => return Err(BackupErr::TargetFault),
    }
    force(engine, machine)?;
    match lay_out::<O, T>(target, engine.params()) {
        Ok(()) => {}
        Err(Failed) => return Err(BackupErr::TargetFault),
    }
    engine.set_copied(Some(0));
    Ok(())
}
