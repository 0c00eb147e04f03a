// A record of another log is taken as the next of this one.
ghost use Rattle.std.specs.Prelude.{◌≡◌, ◌≢◌, ◌≤◌, ◌<◌, ◌+◌, ◌^◌, false, true, is_ok, if◌then◌else◌, nat_lt, length, None, Some, Err as Error, Ok as Fine, IfErr, IfSome, OnErr, OnOk};
ghost use Rattle.disk_model.specs.Disk.{Rises, Stays};
ghost use Rattle.oper_core.specs.Meaning.{IsInGrammar};
ghost use Rattle.formats.specs.Limits.{block_limit, log_limit};
ghost use Rattle.formats.specs.Records.{lsn_of};
ghost use Rattle.formats.specs.declared.params.Params.{Params as Numbers};
ghost use Rattle.log_blocks.specs.LogView.{growth_of};
ghost use Rattle.explain_core.specs.History.Member.{Command, Identity};
ghost use Rattle.explain_core.specs.World.{World};
ghost use Rattle.running_store.specs.Calls.{IsCall};
ghost use Rattle.running_store.specs.Calls.Commands.{command_length};
ghost use Rattle.running_store.specs.Courses.{identity_length};
ghost use Rattle.running_store.specs.Calls.Logged.{HasPlace};
ghost use Rattle.running_store.specs.Parts.{Shows, meaning_in};
ghost use Rattle.running_store.specs.StoreView.{log_length, next_of, store_params};
ghost use Rattle.running_store.specs.Taking.{Takes};
ghost use Rattle.execution.specs.Following.{ForcesNone, HasFollowCause, HasMemberCause, IsFollowFailure, IsFollowable, LacksRoom, ending_of_follow, follow_course, identities_logged, member_course, room_course};
ghost use Rattle.execution.specs.RecordFailures.{record_from_exec};
ghost use Rattle.execution.specs.Stops.{StopsWithin};

use crate::admitting::admit;
use crate::exec_err::ExecErr;
use crate::record_err::RecordErr;
use disk_model::Machine;
use formats::{BLOCK_HEAD, IDENTITY_HEAD, MAX_LOG, MAX_PAYLOAD, Record};
use log_records::RecordLog;
use oper_core::Oper;
use running_store::Store;

// Why a command is not admitted, in the terms of a record with this LSN. No place is looked for then.
fn record_error(lsn: u64, e: ExecErr) -> RecordErr
    ensures { result ≡ record_from_exec lsn e }
{
    match e {
        ExecErr::Refused(_) | ExecErr::LsnEnd { .. } => RecordErr::Differs { lsn },
        ExecErr::DiskFault => RecordErr::DiskFault,
        ExecErr::Damaged { file, place } => RecordErr::Damaged { file, place },
        ExecErr::LogFull { used, need, limit } => RecordErr::LogFull { used, need, limit },
        ExecErr::Memory => RecordErr::Memory,
    }
}

// Whether a record with this LSN, if it has one, is the next; an error where there are others in between.
fn is_due(next: u64, lsn: Option<u64>) -> Result<bool, RecordErr>
    ensures none { lsn ≡ None → result ≡ Fine false }
    ensures some { IfSome lsn (λ n. result ≡ (if nat_lt n next then Fine false else (if nat_lt next n then Error (RecordErr.Gap next n) else Fine true))) }
{
    let Some(got) = lsn else {
        return Ok(false);
    };
    if got > next {
        return Err(RecordErr::Gap {
            expected: next,
            got,
        });
    }
    Ok(got == next)
}

// By how much a record of n bytes lets the log grow, where the block that waits is forced if it has no room for it.
fn growth<O: Oper>(log: &RecordLog<O>, n: u64) -> u64
    requires { n ≤ 2 ^ 30 }
    ensures { result ≡ (if nat_lt block_limit (length log.now.log.pending + n) then n + 5 else growth_of log.now.log.pending n) }
{
    let room = MAX_PAYLOAD as u64 - n;
    if log.buffered() > room {
        return n + BLOCK_HEAD as u64;
    }
    log.growth(n)
}

// Makes room for a record of n bytes: what waits is forced where the block has no room for it. Where the log has none, nothing
// is done.
fn require_room<O: Oper, M: Machine>(
    store: &mut Store<O>,
    machine: &mut M,
    n: u64,
) -> Result<(), RecordErr>
    requires unbroken { store.old.broken ≡ false }
    requires some { 0 < n }
    requires short { n ≤ 2 ^ 30 }
    ensures call { IsCall O.meaning (M.disk machine.old) (M.disk machine.new) store.old store.new 0 (StopsWithin log_limit) (ending_of_follow result) }
    ensures takes { Takes O.meaning (M.disk machine.old) (M.disk machine.new) store.old.parts store.new.parts (λ m w used. room_course m n w used) (ending_of_follow result) }
    ensures quiet { length store.old.parts.log.log.pending + n ≤ 2 ^ 30 → machine.new ≡ machine.old }
    ensures kept { (store.new.parts.volatile ≡ store.old.parts.volatile) × (next_of store.new ≡ next_of store.old) }
    ensures place { OnOk result (HasPlace store.new.parts.log.log n) }
    ensures cause { IfErr result (LacksRoom store.old.parts.log n (Rises (M.disk machine.old).disk_faults (M.disk machine.new).disk_faults)) }
{
    let used = store.log().used();
    let need = growth(store.log(), n);
    if MAX_LOG.saturating_sub(used) < need {
        return Err(RecordErr::LogFull {
            used,
            need,
            limit: MAX_LOG,
        });
    }
    let room = MAX_PAYLOAD as u64 - n;
    if store.log().buffered() <= room {
        return Ok(());
    }
    store.force(machine)?;
    Ok(())
}

// Takes a command as the next one.
fn follow_command<O: Oper, M: Machine>(
    store: &mut Store<O>,
    machine: &mut M,
    op: O,
) -> Result<(), RecordErr>
    requires unbroken { store.old.broken ≡ false }
    requires lsn { next_of store.old < 2 ^ 62 }
    requires grammar { IsInGrammar (meaning_in O.meaning (store_params store.old)) op }
    requires short { command_length (meaning_in O.meaning (store_params store.old)) op ≤ 2 ^ 30 }
    ensures call { IsCall O.meaning (M.disk machine.old) (M.disk machine.new) store.old store.new 0 (StopsWithin log_limit) (ending_of_follow result) }
    ensures takes { Takes O.meaning (M.disk machine.old) (M.disk machine.new) store.old.parts store.new.parts (λ m w used. member_course m (Command op) w used) (ending_of_follow result) }
    ensures in_world { (p : Numbers) (w : World O) → Shows (meaning_in O.meaning p) p (M.disk machine.old) store.old.parts w →
        HasMemberCause (meaning_in O.meaning p) w (log_length store.old) (Command op) result }
    ensures quiet { length store.old.parts.log.log.pending + command_length (meaning_in O.meaning (store_params store.old)) op ≤ 2 ^ 30 → Stays (M.disk machine.old) (M.disk machine.new) }
    ensures untaken { OnErr result ((next_of store.new ≡ next_of store.old) × (store.new.parts.volatile.objects.slots ≡ store.old.parts.volatile.objects.slots)) }
    ensures cause { IfErr result (IsFollowFailure (meaning_in O.meaning (store_params store.old)) (Record.Command (next_of store.old) op) (next_of store.old) (M.disk machine.old) (M.disk machine.new) store.old.parts.volatile.objects) }
{
    explain_core::append_keeps::<O>();
    let lsn = store.log().next();
    let (copies, length) = match admit(store, machine, &op) {
        Ok(admitted) => admitted,
        Err(e) => return Err(record_error(lsn, e)),
    };
    require_room(store, machine, length)?;
    store.append_command(op, copies)?;
    Ok(())
}

// Takes an identity write as the next record.
fn follow_identity<O: Oper, M: Machine>(
    store: &mut Store<O>,
    machine: &mut M,
    object: u32,
    value: &[u8],
) -> Result<(), RecordErr>
    requires unbroken { store.old.broken ≡ false }
    requires lsn { next_of store.old < 2 ^ 62 }
    requires below { object < (store_params store.old).objects }
    requires short { identity_length (length value.now) ≤ 2 ^ 30 }
    ensures call { IsCall O.meaning (M.disk machine.old) (M.disk machine.new) store.old store.new (if is_ok result then 1 else 0) (StopsWithin log_limit) (ending_of_follow result) }
    ensures takes { Takes O.meaning (M.disk machine.old) (M.disk machine.new) store.old.parts store.new.parts (λ m w used. member_course m (Identity object value.now) w used) (ending_of_follow result) }
    ensures in_world { (p : Numbers) (w : World O) → Shows (meaning_in O.meaning p) p (M.disk machine.old) store.old.parts w →
        HasMemberCause (meaning_in O.meaning p) w (log_length store.old) (Identity object value.now) result }
    ensures quiet { length store.old.parts.log.log.pending + identity_length (length value.now) ≤ 2 ^ 30 → Stays (M.disk machine.old) (M.disk machine.new) }
    ensures untaken { OnErr result ((next_of store.new ≡ next_of store.old) × (store.new.parts.volatile.objects.slots ≡ store.old.parts.volatile.objects.slots)) }
    ensures cause { IfErr result (IsFollowFailure (meaning_in O.meaning (store_params store.old)) (Record.Identity (next_of store.old) object value.now) (next_of store.old) (M.disk machine.old) (M.disk machine.new) store.old.parts.volatile.objects) }
{
    explain_core::append_keeps::<O>();
    let lsn = store.log().next();
    store.fetch(machine, object)?;
    let cached = store.objects().value(object);
    if value != cached {
        return Err(RecordErr::Differs { lsn });
    }
    require_room(store, machine, IDENTITY_HEAD as u64 + value.len() as u64)?;
    store.append_identity(object)?;
    Ok(())
}

// Takes a record with the next LSN.
fn take<O: Oper, M: Machine>(
    store: &mut Store<O>,
    machine: &mut M,
    logged: Record<O>,
) -> Result<bool, RecordErr>
    requires unbroken { store.old.broken ≡ false }
    requires logged { IsFollowable (meaning_in O.meaning (store_params store.old)) logged }
    requires due { lsn_of logged ≡ Some (next_of store.old) }
    ensures call { IsCall O.meaning (M.disk machine.old) (M.disk machine.new) store.old store.new (identities_logged logged result) (StopsWithin log_limit) (ending_of_follow result) }
    ensures takes { Takes O.meaning (M.disk machine.old) (M.disk machine.new) store.old.parts store.new.parts (λ m w used. follow_course m logged w used) (ending_of_follow result) }
    ensures in_world { (p : Numbers) (w : World O) → Shows (meaning_in O.meaning p) p (M.disk machine.old) store.old.parts w →
        HasFollowCause (meaning_in O.meaning p) w (log_length store.old) logged result }
    ensures quiet { ForcesNone (meaning_in O.meaning (store_params store.old)) (length store.old.parts.log.log.pending) logged (M.disk machine.old) (M.disk machine.new) }
    ensures untaken { OnErr result ((next_of store.new ≡ next_of store.old) × (store.new.parts.volatile.objects.slots ≡ store.old.parts.volatile.objects.slots)) }
    ensures cause { IfErr result (IsFollowFailure (meaning_in O.meaning (store_params store.old)) logged (next_of store.old) (M.disk machine.old) (M.disk machine.new) store.old.parts.volatile.objects) }
{
    match logged {
        Record::Command(_, op) => {
            follow_command(store, machine, op)?;
            Ok(true)
        }
        Record::Identity(_, object, value) => {
            follow_identity(store, machine, object, value.as_slice())?;
            Ok(true)
        }
        // It has no LSN.
        Record::Checkpoint(_) => Ok(false),
    }
}

/// Takes a record of another log as the next one of this log: a command that nothing refuses on the objects' values, or an
/// identity write of the value that its object has. False where the LSN is below the next one: the record is passed over.
///
/// It answers `Gap` where the LSN is above the next one, and `Differs` where the record is not what may come next. Nothing is
/// forced, but where the block that waits has no room for the record, and `LogFull` comes where the log would pass 2^48 bytes,
/// which is more than a command may let it have. Where it is not taken each object has the value that it had, and the graph is
/// as it was.
pub fn follow<O: Oper, M: Machine>(
    store: &mut Store<O>,
    machine: &mut M,
    logged: Record<O>,
) -> Result<bool, RecordErr>
    requires unbroken { store.old.broken ≡ false }
    requires logged { IsFollowable (meaning_in O.meaning (store_params store.old)) logged }
    ensures call { IsCall O.meaning (M.disk machine.old) (M.disk machine.new) store.old store.new (identities_logged logged result) (StopsWithin log_limit) (ending_of_follow result) }
    ensures takes { Takes O.meaning (M.disk machine.old) (M.disk machine.new) store.old.parts store.new.parts (λ m w used. follow_course m logged w used) (ending_of_follow result) }
    ensures in_world { (p : Numbers) (w : World O) → Shows (meaning_in O.meaning p) p (M.disk machine.old) store.old.parts w →
        HasFollowCause (meaning_in O.meaning p) w (log_length store.old) logged result }
    // A record with another number than the next costs nothing.
    ensures idle { lsn_of logged ≢ Some (next_of store.old) → (machine.new ≡ machine.old) × (store.new ≡ store.old) }
    ensures quiet { ForcesNone (meaning_in O.meaning (store_params store.old)) (length store.old.parts.log.log.pending) logged (M.disk machine.old) (M.disk machine.new) }
    // Where it is not taken the log has no record more, and the slots are those that it had.
    ensures untaken { OnErr result ((next_of store.new ≡ next_of store.old) × (store.new.parts.volatile.objects.slots ≡ store.old.parts.volatile.objects.slots)) }
    ensures cause { IfErr result (IsFollowFailure (meaning_in O.meaning (store_params store.old)) logged (next_of store.old) (M.disk machine.old) (M.disk machine.new) store.old.parts.volatile.objects) }
{
    let lsn = logged.lsn();
    if !is_due(store.log().next(), lsn)? {
        return Ok(false);
    }
    take(store, machine, logged)
}
