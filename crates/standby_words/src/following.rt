// A stream of frames is followed.
ghost use Rattle.std.specs.Prelude.{◌≡◌, ◌≢◌, ◌<◌, ◌≤◌, ◌+◌, ◌^◌, ◌⊎◌, ◌++◌, [], false, List, ℕ, None, Ok, Err, length, take, IfOk, IfErr, OnErr, OnOk, IsErrOf};
ghost use Rattle.disk_model.specs.Disk.{Passes, Rises};
ghost use Rattle.disk_model.specs.declared.machine.FileNo.{FileNo};
ghost use Rattle.formats.specs.declared.params.Params.{Params};
ghost use Rattle.frame_stream.specs.FrameBuffer.{first_kept, taken_by};
ghost use Rattle.explain_core.specs.History.{commands_of};
ghost use Rattle.script_lines.specs.Reading.{ReadsOn};
ghost use Rattle.standby_node.specs.declared.follow_err.FollowErr.TheVariants.{DiskFault as DiskFailed, Damaged as SlotDamaged};
ghost use Rattle.script_lines.specs.declared.read_error.ReadError.TheVariants.{ReadFault as InputFailed, TooLong as InputTooLong};
ghost use Rattle.shell_base.specs.Judging.{CountsFaults};
ghost use Rattle.shell_base.specs.Keeps.{SaysOnly};
ghost use Rattle.shell_base.specs.Open.{IsUnopened, OpensFiles};
ghost use Rattle.shell_base.specs.First.{Stage, IsFirst};
ghost use Rattle.shell_base.specs.Status.{IsOfFollow, IsOfOpened};
ghost use Rattle.shell_base.specs.Store.{Command, IsAttached, IsWellFormed, Opens, ShowsIn};
ghost use Rattle.standby_words.specs.Following.{Begins, IsOfMachine, IsFollowCall, IsFollowOpen, IsInputFollowed, IsUnsaid, StopsReading, at_end, notice_of, status_of_refusal};
ghost use Rattle.standby_words.specs.declared.cut.Cut.TheVariants.{Refused as IsRefused, Unread as IsUnread};

use crate::comparing::{compare_piece, mirror_for};
use crate::cut::Cut;
use disk_model::{Machine, Source};
use op_codec::AllOps;
use oper_core::Memory;
use restart::a_restart_may_be_made;
use script_lines::ReadError;
use shell_base::{Budget, Status, Stop, end_damaged, end_numbered, end_unopened};
use standby_node::{FollowErr, Standby, a_stream_is_compared, standby_stands};
use std::alloc::Global;
use store_engine::{opens_on_a_world, standing_files_meet_their_format};

/// So many bytes are taken at most.
const MAX_INPUT: u64 = 1 << 40;

/// So many bytes are asked for at once.
const PIECE: usize = 1 << 16;

/// Room for a piece of the input.
fn empty_piece(alloc: Global) -> Result<Vec<u8>, Memory>
    ensures { IfOk result (λ piece. length piece.items ≡ 65536) }
{
    Ok(vec![in alloc; 0; PIECE]?)
}

/// Reads the next piece of the input, of which so many bytes were taken: no byte at its end.
fn read_piece<S: Source>(input: &mut S, piece: &mut [u8], taken: u64) -> Result<usize, ReadError>
    requires some { 0 < length piece.old }
    ensures count { IfOk result (λ n. (n ≤ length piece.old) × (taken + n ≤ 2 ^ 40) × (taken < 2 ^ 40)) }
    ensures told { S.tells input.old → S.tells input.new }
    ensures bytes { S.tells input.old → IfOk result (λ n. S.left input.old ≡ take n piece.new ++ S.left input.new) }
    ensures end { S.tells input.old → result ≡ Ok 0 → S.left input.new ≡ [] }
    ensures kept { OnErr result (S.left input.new ≡ S.left input.old) }
    ensures later { S.faults input.old ≤ S.faults input.new }
    ensures cause { IfErr result (StopsReading taken (S.faults input.old) (S.faults input.new)) }
{
    if taken >= MAX_INPUT {
        return Err(ReadError::TooLong);
    }
    let room = (MAX_INPUT - taken).min(piece.len() as u64) as usize;
    match input.read(&mut piece[..room]) {
        Ok(count) => Ok(count),
        Err(_) => Err(ReadError::ReadFault),
    }
}

/// What is answered at the end of the input, where there are so many commands.
fn ended(standby: &Standby<AllOps>, commands: u64) -> Result<u64, Cut>
    ensures { result ≡ at_end (first_kept standby.now.frames.passed standby.now.frames.kept) commands }
{
    match standby.at_frame_start() {
        None => Ok(commands),
        Some(place) => Err(Cut::Short { place }),
    }
}

/// Follows the input to its end, piece by piece, each of which is compared before, where that is asked. It answers how many
/// commands were accepted since the store was made.
fn follow_input<M: Machine, S: Source>(
    alloc: Global,
    same: bool,
    standby: &mut Standby<AllOps>,
    machine: &mut M,
    input: &mut S,
) -> Result<u64, Cut>
    requires unbroken { standby.old.engine.broken ≡ false }
    requires fine { standby.old.stopped ≡ None }
    requires fresh { taken_by standby.old.frames ≡ 0 }
    ensures time { Passes (M.disk machine.old) (M.disk machine.new) }
    ensures quiet { (M.disk machine.old).tells_files → (M.disk machine.new).said ≡ (M.disk machine.old).said }
    ensures followed { IsInputFollowed same (S.tells input.old) (S.left input.old) (S.left input.new) (M.disk machine.old) (M.disk machine.new) standby.old standby.new result }
    ensures fault { IsErrOf result (IsRefused DiskFailed) → Rises (M.disk machine.old).disk_faults (M.disk machine.new).disk_faults }
    ensures undamaged { (M.disk machine.old).tells_files → IsAttached (M.disk machine.old) standby.old.engine → (file : FileNo) (place : ℕ) → IsErrOf result (IsRefused (SlotDamaged file place)) → ⊥ }
    ensures read_fault { IsErrOf result (IsUnread InputFailed) → Rises (S.faults input.old) (S.faults input.new) }
    ensures too_long { S.tells input.old → IsErrOf result (IsUnread InputTooLong) → ReadsOn (S.left input.old) (S.left input.new) 0 (2 ^ 40) }
{
    standby_stands(machine, standby);
    a_stream_is_compared::<AllOps>();
    let mut mirror = mirror_for(same, standby, machine)?;
    let mut piece = empty_piece(alloc)?;
    loop {
        let count = read_piece(input, piece.as_mut_slice(), standby.taken())?;
        let came = &piece[..count];
        compare_piece(&mut mirror, came)?;
        let commands = standby.feed(machine, came)?;
        if count == 0 {
            standby_stands(machine, standby);
            return ended(standby, commands);
        }
    }
}

/// Says why a standby refused its stream, where there is a line for that, and ends with the status that reports it. Without
/// memory for the line it ends with `Memory`, and where the output fails with `SayFault`.
fn end_refused<M: Machine>(alloc: Global, machine: &mut M, cause: FollowErr) -> Status
    ensures says { SaysOnly (M.disk machine.old) (M.disk machine.new) }
    ensures ends { IsUnsaid result ⊎ (result ≡ status_of_refusal cause) }
    ensures silent { (result ≡ Status.DiskFault) ⊎ (result ≡ Status.Memory) → machine.new ≡ machine.old }
    ensures failed { IsOfMachine cause → machine.new ≡ machine.old }
    ensures said { (M.disk machine.old).tells_files → (result ≡ Status.BadStream) ⊎ (result ≡ Status.StandbyFull) → (M.disk machine.new).said ≡ (M.disk machine.old).said ++ notice_of cause }
    ensures say_fault { result ≡ Status.SayFault → Rises (M.disk machine.old).say_faults (M.disk machine.new).say_faults }
{
    match cause {
        FollowErr::BadFrame { place } => {
            end_numbered(
                alloc,
                machine,
                b"stream BadFrame",
                &[place],
                Status::BadStream,
            )
        }
        FollowErr::Gap { expected, got } => {
            end_numbered(
                alloc,
                machine,
                b"stream Gap",
                &[expected, got],
                Status::BadStream,
            )
        }
        FollowErr::Differs { lsn } => {
            end_numbered(alloc, machine, b"stream Differs", &[lsn], Status::BadStream)
        }
        FollowErr::LogFull { used, need, limit } => {
            end_numbered(
                alloc,
                machine,
                b"full",
                &[used, need, limit],
                Status::StandbyFull,
            )
        }
        FollowErr::DiskFault => Status::DiskFault,
        FollowErr::Damaged { file, place } => end_damaged(alloc, machine, file, place),
        FollowErr::Memory | FollowErr::Stopped { .. } => Status::Memory,
    }
}

/// Follows the input with an open standby, to which nothing came yet, compares it before, where that is asked, and says how many
/// commands there are, or why the stream was not followed to its end.
fn follow_open<M: Machine, S: Source>(
    alloc: Global,
    same: bool,
    standby: &mut Standby<AllOps>,
    machine: &mut M,
    input: &mut S,
) -> Status
    requires unbroken { standby.old.engine.broken ≡ false }
    requires fine { standby.old.stopped ≡ None }
    requires fresh { taken_by standby.old.frames ≡ 0 }
    ensures time { Passes (M.disk machine.old) (M.disk machine.new) }
    ensures followed { IsFollowOpen same (S.tells input.old) (S.left input.old) (S.left input.new) (M.disk machine.old) (M.disk machine.new) standby.old result }
    // No slot of the files that were opened is damaged.
    ensures store { (M.disk machine.old).tells_files → IsAttached (M.disk machine.old) standby.old.engine → (result ≢ Status.NotAStore) × (result ≢ Status.Damaged) }
    ensures status { IsOfFollow result }
    ensures found { IsOfOpened result }
    ensures faults { CountsFaults (M.disk machine.old) (M.disk machine.new) result }
    ensures read_fault { result ≡ Status.ReadFault → Rises (S.faults input.old) (S.faults input.new) }
    ensures too_long { S.tells input.old → result ≡ Status.TooLong → ReadsOn (S.left input.old) (S.left input.new) 0 (2 ^ 40) }
{
    a_stream_is_compared::<AllOps>();
    match follow_input(alloc, same, standby, machine, input) {
        Ok(commands) => end_numbered(alloc, machine, b"followed", &[commands], Status::Done),
        Err(Cut::Short { place }) => {
            end_numbered(alloc, machine, b"stream Short", &[place], Status::BadStream)
        }
        Err(Cut::Unlike { lsn }) => {
            end_numbered(alloc, machine, b"stream Differs", &[lsn], Status::BadStream)
        }
        Err(Cut::Unknown { lsn }) => {
            end_numbered(alloc, machine, b"stream Unknown", &[lsn], Status::BadStream)
        }
        Err(Cut::Refused(cause)) => end_refused(alloc, machine, cause),
        Err(Cut::Unread(error)) => Stop::from(error).status(),
    }
}

/// Opens the store as a standby, with this budget. Where there is none to open it says a line, and answers the status that the
/// program ends with.
fn attach_store<M: Machine>(
    alloc: Global,
    budget: Budget,
    machine: &mut M,
) -> Result<Standby<AllOps>, Status>
    ensures time { Passes (M.disk machine.old) (M.disk machine.new) }
    ensures opens { (p : Params) (commands : List Command) → Opens p (M.disk machine.old) commands → OpensFiles budget p commands (M.disk machine.old) (M.disk machine.new) }
    ensures first { (p : Params) (commands : List Command) → Opens p (M.disk machine.old) commands → (first : Stage) × IsFirst budget p commands (M.disk machine.old) first × (commands_of first.world.history ≡ commands) }
    ensures begins { (p : Params) (commands : List Command) → Opens p (M.disk machine.old) commands →
        IfOk result (λ s. (first : Stage) → IsFirst budget p commands (M.disk machine.old) first → Begins p first.world.history (M.disk machine.new) s × ShowsIn p (M.disk machine.new) s.engine first.world) }
    ensures ready { IfOk result (λ s. (s.engine.broken ≡ false) × (s.stopped ≡ None) × (taken_by s.frames ≡ 0)) }
    ensures attached { IfOk result (λ s. IsAttached (M.disk machine.new) s.engine) }
    ensures quiet { (M.disk machine.old).tells_files → OnOk result ((M.disk machine.new).said ≡ (M.disk machine.old).said) }
    ensures read { (M.disk machine.old).tells_files → OnOk result (IsWellFormed (M.disk machine.old).reads) }
    ensures unopened { IfErr result (IsUnopened (M.disk machine.old) (M.disk machine.new)) }
{
    standing_files_meet_their_format::<AllOps>();
    opens_on_a_world::<AllOps>();
    a_restart_may_be_made::<AllOps>();
    match Standby::<AllOps>::attach(alloc, machine, budget.tuning()) {
        Ok(standby) => {
            standby_stands(machine, &standby);
            Ok(standby)
        }
        Err(cause) => Err(end_unopened(alloc, machine, cause)),
    }
}

/// Opens the store with this budget, and follows the stream of frames that the input is. Where that is asked (`same`), each piece
/// is compared before, and the first record that is not the store's own with its number ends it. It says a line at its end, also where
/// there is no store to open.
pub fn follow<M: Machine, S: Source>(
    alloc: Global,
    budget: Budget,
    same: bool,
    machine: &mut M,
    input: &mut S,
) -> Status
    ensures time { Passes (M.disk machine.old) (M.disk machine.new) }
    ensures call { IsFollowCall budget same (S.tells input.old) (S.left input.old) (S.left input.new) (M.disk machine.old) (M.disk machine.new) result }
    ensures unopened { result ≡ Status.RestartMemory → input.new ≡ input.old }
    ensures faults { CountsFaults (M.disk machine.old) (M.disk machine.new) result }
    ensures read_fault { result ≡ Status.ReadFault → Rises (S.faults input.old) (S.faults input.new) }
    ensures too_long { S.tells input.old → result ≡ Status.TooLong → ReadsOn (S.left input.old) (S.left input.new) 0 (2 ^ 40) }
{
    standing_files_meet_their_format::<AllOps>();
    match attach_store(alloc, budget, machine) {
        Ok(mut standby) => {
            let status = follow_open(alloc, same, &mut standby, machine, input);
            drop(standby);
            status
        }
        Err(status) => status,
    }
}
