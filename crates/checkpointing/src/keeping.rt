// Upkeep: what is due of a trim and of a turn.
ghost use Rattle.std.specs.Prelude.{◌≡◌, ◌≤◌, ◌^◌, false, IfErr, IfOk, IfSome};
ghost use Rattle.formats.specs.Reading.{TellsDamage};
ghost use Rattle.formats.specs.declared.params.Params.{Params as Numbers};
ghost use Rattle.explain_core.specs.World.{World};
ghost use Rattle.running_store.specs.Calls.{IsCall, Never, ending_of_read};
ghost use Rattle.running_store.specs.Kept.{HasLog};
ghost use Rattle.running_store.specs.Parts.{Shows, meaning_in};
ghost use Rattle.running_store.specs.StoreView.{log_length, logged_since};
ghost use Rattle.running_store.specs.Taking.{Takes};
ghost use Rattle.checkpointing.specs.Courses.{trim_due, turn_due, unstopped, upkeep_course};
ghost use Rattle.checkpointing.specs.Told.{TellsUpkeep, outcome_of, outcome_of_trim, outcome_of_turn};

use crate::trimming::trim;
use crate::{Due, TaskOutcome, UpkeepReport};
use cache_manager::InstallErr;
use disk_model::Machine;
use formats::ReadErr;
use log_records::RewriteErr;
use oper_core::Oper;
use running_store::Store;

// What became of a trim.
fn outcome_of_trim(answer: Result<(), RewriteErr>) -> Result<TaskOutcome, ReadErr>
    ensures { result ≡ outcome_of_trim answer }
{
    match answer {
        Ok(()) => Ok(TaskOutcome::Done),
        Err(RewriteErr::LogFull { used, need, limit }) => Ok(TaskOutcome::LogFull {
            used,
            need,
            limit,
        }),
        Err(RewriteErr::Exhausted { epoch }) => Ok(TaskOutcome::Exhausted { epoch }),
        Err(RewriteErr::DiskFault) => Err(ReadErr::DiskFault),
        Err(RewriteErr::Damaged { file, place }) => Err(ReadErr::Damaged { file, place }),
        Err(RewriteErr::Memory) => Err(ReadErr::Memory),
    }
}

// What became of a turn.
fn outcome_of_turn(answer: Result<u64, InstallErr>) -> Result<TaskOutcome, ReadErr>
    ensures { result ≡ outcome_of_turn answer }
{
    match answer {
        Ok(_) => Ok(TaskOutcome::Done),
        Err(InstallErr::LogFull { used, need, limit }) => Ok(TaskOutcome::LogFull {
            used,
            need,
            limit,
        }),
        Err(InstallErr::LsnEnd { lsn }) => Ok(TaskOutcome::LsnEnd { lsn }),
        Err(InstallErr::DiskFault) => Err(ReadErr::DiskFault),
        Err(InstallErr::Memory) => Err(ReadErr::Memory),
    }
}

// A trim, where one is due.
fn trim_if_due<O: Oper, M: Machine>(
    store: &mut Store<O>,
    machine: &mut M,
    due: Option<u64>,
) -> Result<TaskOutcome, ReadErr>
    requires unbroken { store.old.broken ≡ false }
    requires most { IfSome due (λ most. most ≤ 2 ^ 48) }
    ensures call { IsCall O.meaning (M.disk machine.old) (M.disk machine.new) store.old store.new (logged_since store.old store.new) Never (ending_of_read result) }
    ensures takes { Takes O.meaning (M.disk machine.old) (M.disk machine.new) store.old.parts store.new.parts
        (λ m w used. unstopped (trim_due m due store.old.parts.log.log.header.epoch w used)) (ending_of_read result) }
    ensures told { (p : Numbers) (w : World O) → Shows (meaning_in O.meaning p) p (M.disk machine.old) store.old.parts w →
        IfOk result (λ it. it ≡ outcome_of due (trim_due (meaning_in O.meaning p) due store.old.parts.log.log.header.epoch w (log_length store.old)).stop) }
    ensures undamaged { (M.disk machine.old).tells_files → HasLog (O.meaning store.old.parts.log.bounds) (M.disk machine.old) store.old.parts.log → IfErr result (λ e. TellsDamage e → ⊥) }
{
    let Some(most) = due else {
        return Ok(TaskOutcome::NotDue);
    };
    let answer = trim(store, machine, most);
    outcome_of_trim(answer)
}

// A turn, where one is due.
fn turn_if_due<O: Oper, M: Machine>(
    store: &mut Store<O>,
    machine: &mut M,
    copied: u32,
    due: Option<usize>,
) -> Result<TaskOutcome, ReadErr>
    requires unbroken { store.old.broken ≡ false }
    ensures call { IsCall O.meaning (M.disk machine.old) (M.disk machine.new) store.old store.new (logged_since store.old store.new) Never (ending_of_read result) }
    ensures takes { Takes O.meaning (M.disk machine.old) (M.disk machine.new) store.old.parts store.new.parts (λ m w used. unstopped (turn_due m due copied w used)) (ending_of_read result) }
    ensures told { (p : Numbers) (w : World O) → Shows (meaning_in O.meaning p) p (M.disk machine.old) store.old.parts w →
        IfOk result (λ it. it ≡ outcome_of due (turn_due (meaning_in O.meaning p) due copied w (log_length store.old)).stop) }
    ensures undamaged { IfErr result (λ e. TellsDamage e → ⊥) }
{
    let Some(most) = due else {
        return Ok(TaskOutcome::NotDue);
    };
    let answer = cache_manager::tend(store, machine, copied, most);
    outcome_of_turn(answer)
}

/// Upkeep of what is due: first a trim, and then, also where that was stopped, a turn, beside a copy of the slots too. A trim or a
/// turn that is stopped is no failure: it is answered what stopped it, and all that waited is forced then. It fails with
/// `DiskFault`, with `Damaged` as [`trim`] does, and with `Memory`.
pub fn keep_up<O: Oper, M: Machine>(
    store: &mut Store<O>,
    machine: &mut M,
    due: Due,
    copied: u32,
) -> Result<UpkeepReport, ReadErr>
    requires unbroken { store.old.broken ≡ false }
    requires most { IfSome due.trim (λ most. most ≤ 2 ^ 48) }
    ensures call { IsCall O.meaning (M.disk machine.old) (M.disk machine.new) store.old store.new (logged_since store.old store.new) Never (ending_of_read result) }
    ensures takes { Takes O.meaning (M.disk machine.old) (M.disk machine.new) store.old.parts store.new.parts
        (λ m w used. upkeep_course m due store.old.parts.log.log.header.epoch copied w used) (ending_of_read result) }
    ensures told { (p : Numbers) (w : World O) → Shows (meaning_in O.meaning p) p (M.disk machine.old) store.old.parts w →
        IfOk result (TellsUpkeep (meaning_in O.meaning p) due store.old.parts.log.log.header.epoch copied w (log_length store.old)) }
    ensures undamaged { (M.disk machine.old).tells_files → HasLog (O.meaning store.old.parts.log.bounds) (M.disk machine.old) store.old.parts.log → IfErr result (λ e. TellsDamage e → ⊥) }
{
    let trim = trim_if_due(store, machine, due.trim)?;
    let turn = turn_if_due(store, machine, copied, due.turn)?;
    Ok(UpkeepReport { trim, turn })
}
