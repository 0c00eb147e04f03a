// Whether a command's record has a place in the log.
ghost use Rattle.std.specs.Prelude.{◌≡◌, ◌<◌, ◌+◌, ◌^◌, false, OnOk, IfErr};
ghost use Rattle.running_store.specs.Calls.{IsCall, Never, ending_of_force};
ghost use Rattle.running_store.specs.Courses.{course};
ghost use Rattle.running_store.specs.Courses.Stop.{Through};
ghost use Rattle.running_store.specs.StoreView.{store_params};
ghost use Rattle.running_store.specs.Taking.{Takes};
ghost use Rattle.running_store.specs.Calls.Commands.{HasPlaceBelow};
ghost use Rattle.running_store.specs.Calls.Logged.{HasPlace};
ghost use Rattle.execution.specs.Answers.{ending_of_exec, stop_of_exec};
ghost use Rattle.execution.specs.Courses.{unplaced_steps};
ghost use Rattle.execution.specs.Done.{IsForcedOutside, LogWithout};
ghost use Rattle.execution.specs.Failures.{LacksPlace, needed_by};
ghost use Rattle.execution.specs.Stops.{StopsCommand};

use crate::exec_err::ExecErr;
use disk_model::{Failed, Machine};
use formats::{BLOCK_HEAD, LSN_END};
use log_records::RecordLog;
use oper_core::Oper;
use running_store::Store;

// Forces all that waits, but nothing while a group is open.
fn force_outside<O: Oper, M: Machine>(
    store: &mut Store<O>,
    machine: &mut M,
    grouped: bool,
) -> Result<(), Failed>
    requires unbroken { store.old.broken ≡ false }
    ensures call { IsCall O.meaning (M.disk machine.old) (M.disk machine.new) store.old store.new 0 Never (ending_of_force result) }
    ensures takes { Takes O.meaning (M.disk machine.old) (M.disk machine.new) store.old.parts store.new.parts (λ m w used. course (unplaced_steps m grouped w) used Through) (ending_of_force result) }
    ensures forced { IsForcedOutside grouped store.old store.new result }
{
    if grouped {
        return Ok(());
    }
    store.force(machine)
}

// How many bytes a record of this length needs that has no place.
fn needed<O: Oper>(log: &RecordLog<O>, length: u64, grouped: bool) -> u64
    requires { length < 2 ^ 63 + 9 }
    ensures { result ≡ needed_by grouped log.now length }
{
    if grouped && log.buffered() > 0 {
        return length;
    }
    length + BLOCK_HEAD as u64
}

// Requires that the log has a place below the store's limit, and an LSN, for a record of this length. Where it has none,
// all that waits is forced, unless a group is open.
pub(crate) fn require_place<O: Oper, M: Machine>(
    store: &mut Store<O>,
    machine: &mut M,
    length: u64,
    grouped: bool,
) -> Result<(), ExecErr>
    requires unbroken { store.old.broken ≡ false }
    requires range { (0 < length) × (length < 2 ^ 63 + 9) }
    ensures has { OnOk result (HasPlaceBelow (store_params store.old).limit store.old.parts.log length × (machine.new ≡ machine.old) × (store.new ≡ store.old)) }
    ensures fits { OnOk result (HasPlace store.old.parts.log.log length) }
    ensures lacks { IfErr result (LacksPlace grouped (store_params store.old).limit store.old.parts.log length) }
    ensures left { IfErr result (λ e. LogWithout grouped store.old.parts.log store.new.parts.log e × (store.new.parts.volatile ≡ store.old.parts.volatile)) }
    ensures call { IsCall O.meaning (M.disk machine.old) (M.disk machine.new) store.old store.new 0 (StopsCommand grouped (store_params store.old).limit) (ending_of_exec result) }
    ensures takes { IfErr result (λ e. Takes O.meaning (M.disk machine.old) (M.disk machine.new) store.old.parts store.new.parts
        (λ m w used. course (unplaced_steps m grouped w) used (stop_of_exec e)) (ending_of_exec result)) }
{
    let limit = store.params().limit as u64;
    let used = store.log().used();
    if length > limit || limit.saturating_sub(used) < store.log().growth(length) {
        let need = needed(store.log(), length, grouped);
        force_outside(store, machine, grouped)?;
        return Err(ExecErr::LogFull { used, need, limit });
    }
    let lsn = store.log().next();
    if lsn >= LSN_END {
        force_outside(store, machine, grouped)?;
        return Err(ExecErr::LsnEnd { lsn });
    }
    Ok(())
}
