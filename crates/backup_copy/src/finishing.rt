// A backup is finished: the log is copied, and the gate opened.
ghost use Rattle.std.specs.Prelude.{◌≡◌, ◌⊎◌, ℕ, false, length, take, IfErr, IfOk, IsErr, IsErrOf, OnErr, OnOk};
ghost use Rattle.disk_model.specs.Disk.{IsSettledIn, LeavesOnly, Rises};
ghost use Rattle.disk_model.specs.declared.machine.FileNo.{FileNo as File};
ghost use Rattle.disk_model.specs.declared.machine.FileNo.TheVariants.{LogA, LogB};
ghost use Rattle.formats.specs.declared.params.Params.{Params as Numbers};
ghost use Rattle.log_records.specs.Loading.{IsTailFault};
ghost use Rattle.explain_core.specs.History.{commands_of};
ghost use Rattle.explain_core.specs.World.{World, run};
ghost use Rattle.running_store.specs.Courses.{force_steps};
ghost use Rattle.store_engine.specs.Engine.{InEachImage, IsAttached, IsEngineRead, ShowsIn};
ghost use Rattle.store_engine.specs.Store.{Stands, meaning_in};
ghost use Rattle.backup_copy.specs.Calls.{FinishFailsBy, ForcesFirst, HasLength, IsFault, IsQuiet, IsShutOrWhole, copied_by_finish};
ghost use Rattle.backup_copy.specs.Copies.{Copies};
ghost use Rattle.backup_copy.specs.Length.{backup_length};
ghost use Rattle.backup_copy.specs.Refusals.{IsRefusedSo, judge_finish};
ghost use Rattle.backup_copy.specs.Target.{AreShut, IsBackup, IsShutOrOpened, open_files};

use crate::BackupErr;
use crate::forcing::force;
use crate::refusing::may_finish;
use disk_model::{Failed, FileNo, Machine};
use oper_core::Oper;
use stable_objects::Slots;
use store_engine::Engine;

// Opens the objects gate of the target, once all else is on its disk.
fn open<T: Machine>(target: &mut T) -> Result<(), Failed>
    ensures quiet { IsQuiet (T.disk target.old) (T.disk target.new) }
    ensures opened { (T.disk target.old).tells_files → IsSettledIn LogA (T.disk target.old) → IsSettledIn LogB (T.disk target.old) →
        OnOk result (InEachImage (T.disk target.new) (λ files. files ≡ open_files (T.disk target.old).reads)) }
    ensures moments { (T.disk target.old).tells_moments → IsSettledIn LogA (T.disk target.old) → IsSettledIn LogB (T.disk target.old) → InEachImage (T.disk target.old) AreShut →
        LeavesOnly (T.disk target.old) (T.disk target.new) (IsShutOrOpened (T.disk target.old)) }
    ensures cause { IsErr result → Rises (T.disk target.old).disk_faults (T.disk target.new).disk_faults }
{
    target.sync(FileNo::Objects)?;
    Slots::open(target)?;
    Ok(())
}

// Puts the log of the store into the target, which has all objects, and opens the target's objects gate.
fn save<O: Oper, M: Machine, T: Machine>(
    engine: &mut Engine<O>,
    machine: &mut M,
    target: &mut T,
) -> Result<(), BackupErr>
    requires unbroken { engine.old.broken ≡ false }
    ensures read { IsEngineRead O.meaning (M.disk machine.old) (M.disk machine.new) engine.old engine.new (IsErrOf result BackupErr.DiskFault) }
    ensures saved { (p : Numbers) (w : World O) → (is : Copies O.meaning p (M.disk machine.old) engine.old w (T.disk target.old)) → is.done ≡ p.objects → (T.disk target.old).tells_files →
        OnOk result (InEachImage (T.disk target.new) (IsBackup (meaning_in O.meaning p) p (take w.forced w.history))) }
    ensures moments { (T.disk target.old).tells_moments → (p : Numbers) (w : World O) → (is : Copies O.meaning p (M.disk machine.old) engine.old w (T.disk target.old)) → is.done ≡ p.objects →
        LeavesOnly (T.disk target.old) (T.disk target.new) (IsShutOrWhole O.meaning p (commands_of (take w.forced w.history)) (T.disk target.old)) }
    ensures again { (p : Numbers) (w : World O) → Copies O.meaning p (M.disk machine.old) engine.old w (T.disk target.old) →
        OnErr result (IsFault result ⊎ Copies O.meaning p (M.disk machine.new) engine.new w (T.disk target.new)) }
    ensures quiet { IsQuiet (T.disk target.old) (T.disk target.new) }
    ensures undamaged { (M.disk machine.old).tells_files → IsAttached O.meaning (M.disk machine.old) engine.old →
        (file : File) (place : ℕ) → IsErrOf result (BackupErr.Damaged file place) → ⊥ }
    ensures cause { IfErr result (FinishFailsBy (Rises (M.disk machine.old).disk_faults (M.disk machine.new).disk_faults) (Rises (T.disk target.old).disk_faults (T.disk target.new).disk_faults)
        (IsTailFault (O.meaning engine.new.parts.log.bounds) (M.disk machine.new) engine.new.parts.log.log) engine.new) }
    ensures long { (p : Numbers) (w : World O) → ShowsIn O.meaning p (M.disk machine.old) engine.old w → HasLength (backup_length (meaning_in O.meaning p) w) result }
{
    explain_core::copy_stands::<O>();
    explain_core::stable_parts_stand::<O>();
    store_engine::a_copied_log_is_of_the_world::<O, M>();
    engine.copy_log(machine, target)?;
    match open(target) {
        Ok(()) => Ok(()),
        Err(Failed) => Err(BackupErr::TargetFault),
    }
}

// Notes that no backup is being made, where it was finished or the target failed.
fn note<O: Oper>(engine: &mut Engine<O>, saved: &Result<(), BackupErr>)
    ensures { engine.new ≡ record engine.old { copied = copied_by_finish engine.old.copied saved.now } }
{
    match saved {
        Ok(()) | Err(BackupErr::TargetFault) => engine.set_copied(None),
        Err(_) => {}
    }
}

/// Finishes a backup whose objects are all copied: forces the log of the store, puts its records into the log of the target, and
/// opens the target's objects gate. From then on the target is a store, and stands for the commands that the store stands for.
/// It answers how many these are.
///
/// The first that applies is answered: `InGroup`; `NoBackup`; `NotCopied`. It fails with `DiskFault`, after which the engine is
/// broken; with `TargetFault`, after which no backup is being made; and with `Damaged`, with `LogFull`, where the target's log
/// would be longer than a log may be, and with `Memory`, after which the call may be made again.
pub fn finish<O: Oper, M: Machine, T: Machine>(
    engine: &mut Engine<O>,
    machine: &mut M,
    target: &mut T,
) -> Result<u64, BackupErr>
    requires unbroken { engine.old.broken ≡ false }
    ensures refused { IfErr (judge_finish engine.old) (λ why. IsRefusedSo why machine.old machine.new target.old target.new engine.old engine.new result) }
    ensures forces { IfOk (judge_finish engine.old) (λ done. ForcesFirst O.meaning (M.disk machine.old) (M.disk machine.new) engine.old engine.new result) }
    ensures copied { engine.new.copied ≡ copied_by_finish engine.old.copied result }

    // The target stands for the commands of the world, and so does whatever a crash leaves of it.
    ensures saved { (p : Numbers) (w : World O) → Copies O.meaning p (M.disk machine.old) engine.old w (T.disk target.old) → IfOk result (λ n. (n ≡ length (commands_of w.history))
        × ((T.disk target.old).tells_files → InEachImage (T.disk target.new) (λ files. Stands O.meaning p files (commands_of w.history)))) }

    // Their history is that of the world, so the next record of the target has the LSN that it has in the store.
    ensures shows { (T.disk target.old).tells_files → (p : Numbers) (w : World O) → Copies O.meaning p (M.disk machine.old) engine.old w (T.disk target.old) →
        OnOk result (InEachImage (T.disk target.new) (IsBackup (meaning_in O.meaning p) p w.history)) }

    // Until it does its gate is closed.
    ensures moments { (T.disk target.old).tells_moments → (p : Numbers) (w : World O) → Copies O.meaning p (M.disk machine.old) engine.old w (T.disk target.old) →
        LeavesOnly (T.disk target.old) (T.disk target.new) (IsShutOrWhole O.meaning p (commands_of w.history) (T.disk target.old)) }

    // After an error that is no fault of a machine it may be made again.
    ensures again { (p : Numbers) (w : World O) → Copies O.meaning p (M.disk machine.old) engine.old w (T.disk target.old) → IfOk (judge_finish engine.old) (λ done. OnErr result
        (IsFault result ⊎ Copies O.meaning p (M.disk machine.new) engine.new (run (meaning_in O.meaning p) w (force_steps (meaning_in O.meaning p) w)) (T.disk target.new))) }

    ensures quiet { IsQuiet (T.disk target.old) (T.disk target.new) }
    ensures undamaged { (M.disk machine.old).tells_files → IsAttached O.meaning (M.disk machine.old) engine.old →
        (file : File) (place : ℕ) → IsErrOf result (BackupErr.Damaged file place) → ⊥ }
    ensures cause { IfOk (judge_finish engine.old) (λ done. IfErr result (FinishFailsBy (Rises (M.disk machine.old).disk_faults (M.disk machine.new).disk_faults)
        (Rises (T.disk target.old).disk_faults (T.disk target.new).disk_faults) (IsTailFault (O.meaning engine.new.parts.log.bounds) (M.disk machine.new) engine.new.parts.log.log) engine.new)) }

    // The target's log is too long exactly where that is answered.
    ensures long { (p : Numbers) (w : World O) → ShowsIn O.meaning p (M.disk machine.old) engine.old w →
        HasLength (backup_length (meaning_in O.meaning p) (run (meaning_in O.meaning p) w (force_steps (meaning_in O.meaning p) w))) result }
{
    standing::image_stands::<O>();
    store_engine::a_copy_goes_on::<O, M>();
    store_engine::calls_go_beside_a_copy::<O>();
    may_finish(engine)?;
    let commands = force(engine, machine)?;
    let saved = save(engine, machine, target);
    note(engine, &saved);
    saved?;
    Ok(commands)
}
