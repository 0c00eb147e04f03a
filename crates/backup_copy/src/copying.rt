// The slots of the store are copied, object by object.
ghost use Rattle.std.specs.Prelude.{◌≡◌, ◌⊎◌, ◌+◌, ◌<◌, ◌≤◌, ℕ, false, min, Some, IfErr, IfOk, IsErr, IsErrOf, OnOk, length};
ghost use Rattle.disk_model.specs.Disk.{In, Rises, Runs, Same};
ghost use Rattle.disk_model.specs.declared.machine.FileNo.{FileNo};
ghost use Rattle.disk_model.specs.declared.machine.FileNo.TheVariants.{Objects};
ghost use Rattle.oper_core.specs.Cell.{Cell};
ghost use Rattle.formats.specs.Objects.{IsInRange};
ghost use Rattle.formats.specs.declared.params.Params.{Params as Numbers};
ghost use Rattle.explain_core.specs.World.{World};
ghost use Rattle.stable_objects.specs.Making.{KeepsGate};
ghost use Rattle.store_engine.specs.Engine.{IsAttached, IsEngineRead, params_of};
ghost use Rattle.backup_copy.specs.Calls.{CopiesUpTo, CopyFailsBy, IsFault, but_copied};
ghost use Rattle.backup_copy.specs.Copies.{Copies};
ghost use Rattle.backup_copy.specs.Refusals.{IsRefusedSo, judge_copy};
ghost use Rattle.backup_copy.specs.Target.{IsTarget, MayPut};

use crate::BackupErr;
use crate::refusing::copied_in;
use disk_model::{Failed, Machine};
use formats::Params;
use oper_core::Oper;
use stable_objects::Slots;
use store_engine::Engine;

// Puts the pair of the next object into the target; one with the LSN 0 has no slot.
fn put_pair<T: Machine>(
    target: &mut T,
    params: Params,
    object: u32,
    lsn: u64,
    bytes: &[u8],
) -> Result<(), Failed>
    requires range { IsInRange params }
    requires below { object < params.objects }
    requires short { length bytes.now ≤ params.cap }
    ensures runs { Runs (In Objects KeepsGate) Same (T.disk target.old) (T.disk target.new) }
    ensures put { (T.disk target.old).tells_files → (cells : ℕ → Cell) → cells object ≡ record { lsn = lsn; value = bytes.now } → MayPut lsn bytes.now →
        IsTarget params object cells ((T.disk target.old).reads Objects) → OnOk result (IsTarget params (object + 1) cells ((T.disk target.new).reads Objects)) }
    ensures cause { IsErr result → Rises (T.disk target.old).disk_faults (T.disk target.new).disk_faults }
{
    stable_objects::a_file_is_filled();
    stable_objects::a_byte_is_written_later();
    if lsn == 0 {
        return Ok(());
    }
    Slots::put_first(target, Slots::new_layout(params), object, lsn, bytes)?;
    Ok(())
}

// Copies the next object, and counts it.
fn copy_next<O: Oper, M: Machine, T: Machine>(
    engine: &mut Engine<O>,
    machine: &mut M,
    target: &mut T,
    object: u32,
    bytes: &mut Vec<u8>,
) -> Result<(), BackupErr>
    requires unbroken { engine.old.broken ≡ false }
    requires next { engine.old.copied ≡ Some object }
    requires below { object < (params_of engine.old).objects }
    ensures read { IsEngineRead O.meaning (M.disk machine.old) (M.disk machine.new) engine.old (but_copied engine.old engine.new) (IsErrOf result BackupErr.DiskFault) }
    ensures runs { Runs (In Objects KeepsGate) Same (T.disk target.old) (T.disk target.new) }
    ensures count { CopiesUpTo object (object + 1) engine.new.copied result }
    ensures goes_on { (p : Numbers) (w : World O) → Copies O.meaning p (M.disk machine.old) engine.old w (T.disk target.old) →
        IsFault result ⊎ Copies O.meaning p (M.disk machine.new) engine.new w (T.disk target.new) }
    ensures undamaged { (M.disk machine.old).tells_files → IsAttached O.meaning (M.disk machine.old) engine.old →
        (file : FileNo) (place : ℕ) → IsErrOf result (BackupErr.Damaged file place) → ⊥ }
    ensures cause { IfErr result (CopyFailsBy (M.disk machine.new) engine.old engine.new.copied (Rises (M.disk machine.old).disk_faults (M.disk machine.new).disk_faults)
        (Rises (T.disk target.old).disk_faults (T.disk target.new).disk_faults)) }
{
    explain_core::copying_goes_on::<O>();
    let lsn = engine.held(machine, object, bytes)?;
    match put_pair(target, engine.params(), object, lsn, bytes) {
        Ok(()) => {
            engine.set_copied(Some(object + 1));
            Ok(())
        }
        Err(Failed) => {
            engine.set_copied(None);
            Err(BackupErr::TargetFault)
        }
    }
}

// Copies the objects up to an end.
fn copy_up_to<O: Oper, M: Machine, T: Machine>(
    engine: &mut Engine<O>,
    machine: &mut M,
    target: &mut T,
    copied: u32,
    end: u32,
) -> Result<u32, BackupErr>
    requires unbroken { engine.old.broken ≡ false }
    requires next { engine.old.copied ≡ Some copied }
    requires rising { copied ≤ end }
    requires within { end ≤ (params_of engine.old).objects }
    ensures read { IsEngineRead O.meaning (M.disk machine.old) (M.disk machine.new) engine.old (but_copied engine.old engine.new) (IsErrOf result BackupErr.DiskFault) }
    ensures runs { Runs (In Objects KeepsGate) Same (T.disk target.old) (T.disk target.new) }
    ensures count { CopiesUpTo copied end engine.new.copied result }
    ensures told { IfOk result (λ n. engine.new.copied ≡ Some n) }
    ensures goes_on { (p : Numbers) (w : World O) → Copies O.meaning p (M.disk machine.old) engine.old w (T.disk target.old) →
        IsFault result ⊎ Copies O.meaning p (M.disk machine.new) engine.new w (T.disk target.new) }
    ensures undamaged { (M.disk machine.old).tells_files → IsAttached O.meaning (M.disk machine.old) engine.old →
        (file : FileNo) (place : ℕ) → IsErrOf result (BackupErr.Damaged file place) → ⊥ }
    ensures cause { IfErr result (CopyFailsBy (M.disk machine.new) engine.old engine.new.copied (Rises (M.disk machine.old).disk_faults (M.disk machine.new).disk_faults)
        (Rises (T.disk target.old).disk_faults (T.disk target.new).disk_faults)) }
{
    let mut bytes = Vec::new(engine.alloc());
    for object in copied..end {
        copy_next(engine, machine, target, object, &mut bytes)?;
    }
    Ok(end)
}

/// Copies the pairs that the slots hold of the next `count` objects, fewer at the end, into the target. It answers how many
/// objects are copied. An object that was never installed has no pair, and counts as copied.
///
/// The first that applies is answered: `InGroup`; `NoBackup`. It fails with `DiskFault`, after which the engine is broken; with
/// `TargetFault`, after which no backup is being made; and with `Damaged` and `Memory`, after which the objects that were copied
/// are counted, and the call may be made again.
pub fn copy<O: Oper, M: Machine, T: Machine>(
    engine: &mut Engine<O>,
    machine: &mut M,
    target: &mut T,
    count: u32,
) -> Result<u32, BackupErr>
    requires unbroken { engine.old.broken ≡ false }
    ensures refused { IfErr (judge_copy engine.old) (λ why. IsRefusedSo why machine.old machine.new target.old target.new engine.old engine.new result) }
    ensures read { IsEngineRead O.meaning (M.disk machine.old) (M.disk machine.new) engine.old (but_copied engine.old engine.new) (IsErrOf result BackupErr.DiskFault) }

    ensures attached { IsAttached O.meaning (M.disk machine.old) engine.old → IsAttached O.meaning (M.disk machine.new) engine.new }

    // A closed gate stays closed at each moment.
    ensures runs { Runs (In Objects KeepsGate) Same (T.disk target.old) (T.disk target.new) }

    ensures count { IfOk (judge_copy engine.old) (λ copied. CopiesUpTo copied (min (copied + count) (params_of engine.old).objects) engine.new.copied result) }
    ensures told { IfOk result (λ n. engine.new.copied ≡ Some n) }
    ensures goes_on { (p : Numbers) (w : World O) → Copies O.meaning p (M.disk machine.old) engine.old w (T.disk target.old) →
        IsFault result ⊎ Copies O.meaning p (M.disk machine.new) engine.new w (T.disk target.new) }
    ensures undamaged { (M.disk machine.old).tells_files → IsAttached O.meaning (M.disk machine.old) engine.old →
        (file : FileNo) (place : ℕ) → IsErrOf result (BackupErr.Damaged file place) → ⊥ }
    ensures cause { IfOk (judge_copy engine.old) (λ copied. IfErr result (CopyFailsBy (M.disk machine.new) engine.old engine.new.copied (Rises (M.disk machine.old).disk_faults (M.disk machine.new).disk_faults)
        (Rises (T.disk target.old).disk_faults (T.disk target.new).disk_faults))) }
{
    let copied = copied_in(engine)?;
    let left = engine.params().objects - copied;
    let end = copied + count.min(left);
    copy_up_to(engine, machine, target, copied, end)
}
