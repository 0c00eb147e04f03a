// The log of the store is forced before the target is written.
ghost use Rattle.std.specs.Prelude.{◌≡◌, ℕ, false, None, Result};
ghost use Rattle.disk_model.specs.declared.machine.Failed.{Failed as ForceFailure};
ghost use Rattle.store_engine.specs.Calls.{IsForcing};
ghost use Rattle.backup_copy.specs.Calls.{backup_of_force};

use crate::BackupErr;
use disk_model::Machine;
use oper_core::Oper;
use store_engine::Engine;

/// Forces the log while no group is open.
pub fn force<O: Oper, M: Machine>(engine: &mut Engine<O>, machine: &mut M) -> Result<u64, BackupErr>
    requires unbroken { engine.old.broken ≡ false }
    requires alone { engine.old.group ≡ None }
    ensures { (answer : Result ℕ ForceFailure) × (result ≡ backup_of_force answer) × IsForcing O.meaning (M.disk machine.old) (M.disk machine.new) engine.old engine.new answer }
{
    match engine.force(machine) {
        Ok(commands) => Ok(commands),
        Err(_) => Err(BackupErr::DiskFault),
    }
}
