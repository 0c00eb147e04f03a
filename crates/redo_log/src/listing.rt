// Lists the log of a store.
ghost use Rattle.std.specs.Prelude.{◌≡◌, ◌≢◌, ◌⊎◌, ⊤, ◌++◌, [], List, ℕ, Err as Error, IfErr, IfOk, IsOk, OnErr, OnOk, codes, drop};
ghost use Rattle.disk_model.specs.Disk.{Rises, SaysFront, Stays};
ghost use Rattle.disk_model.specs.declared.machine.FileNo.{FileNo as File};
ghost use Rattle.disk_model.specs.declared.machine.FileNo.TheVariants.{Objects};
ghost use Rattle.formats.specs.Bytes.{IsClosedAt};
ghost use Rattle.formats.specs.FirstFault.{IsFirstObjectsFault};
ghost use Rattle.formats.specs.InForce.{HoldsLog};
ghost use Rattle.formats.specs.Log.{Header, end_of};
ghost use Rattle.formats.specs.Reading.{FailsBy};
ghost use Rattle.log_records.specs.Loading.{IsLoadFault};
ghost use Rattle.op_codec.specs.AllOps.{all_meaning};
ghost use Rattle.oper_core.specs.Meaning.{IsSmall};
ghost use Rattle.redo_log.specs.Unreadable.{AreReadable, IsBroken};
ghost use Rattle.tool_output.specs.Faults.{CountsFaults, CountsStop, StopsBy};
ghost use Rattle.redo_log.specs.Fronts.{AreLinesBefore, AreLinesToNone, AreLogLines, IsDamage, IsDamageSaid, SaysNoMore, SaysOfLog};
ghost use Rattle.tool_output.specs.Lines.{damaged, not_a_store};
ghost use Rattle.redo_log.specs.Lines.{frame_line, header_words, used};
ghost use Rattle.redo_log.specs.Listing.{ArePlaced, IsListed, SaysLog, meaning_of};
ghost use Rattle.tool_output.specs.Found.{HasStore, IsLogStopped, IsStopped};
ghost use Rattle.tool_output.specs.Saying.{OnlySays};

use crate::choice::Choice;
use crate::left::left_behind;
use crate::lines::{frame_line, header_line};
use crate::saying::say_blocks;
use disk_model::{FileNo, Machine};
use formats::ReadErr;
use log_blocks::LogFile;
use log_records::RecordLog;
use op_codec::AllOps;
use oper_core::{Bounds, Memory, Oper};
use stable_objects::Slots;
use std::alloc::Global;
use tool_output::{Status, Stop, end_stopped, say_text};

/// How many objects the store has, and how long they may be.
pub fn read_bounds<M: Machine>(alloc: Global, machine: &mut M) -> Result<Bounds, Stop>
    ensures kept { Stays (M.disk machine.old) (M.disk machine.new) }
    ensures whole { (M.disk machine.old).tells_files → IfOk result (HasStore (M.disk machine.old).reads) }
    ensures cause { (M.disk machine.old).tells_files → IfErr result (IsStopped (M.disk machine.old).reads) }
    ensures damage { (M.disk machine.old).tells_files → IfErr result (λ stop. IsDamage stop → (place : ℕ) × IsFirstObjectsFault ((M.disk machine.old).reads Objects) place) }
    ensures faults { IfErr result (CountsStop (M.disk machine.old) (M.disk machine.new)) }
{
    let slots = Slots::load(alloc, machine)?;
    Ok(slots.bounds())
}

/// Says where a log ends, and what a torn force left there.
fn say_end<M: Machine>(
    alloc: Global,
    machine: &mut M,
    choice: Choice,
    file: FileNo,
    end: u64,
) -> Result<(), Stop>
    ensures runs { OnlySays (M.disk machine.old) (M.disk machine.new) }
    ensures said { (M.disk machine.old).tells_files
        → OnOk result ((M.disk machine.new).said ≡ (M.disk machine.old).said ++ frame_line choice file end (used (drop end ((M.disk machine.old).reads file))) (codes "end")) }
    ensures front { (M.disk machine.old).tells_files
        → SaysFront (frame_line choice file end (used (drop end ((M.disk machine.old).reads file))) (codes "end")) (M.disk machine.old).said (M.disk machine.new).said }
    ensures cause { IfErr result (StopsBy (M.disk machine.old) (M.disk machine.new) (λ file place. ⊥)) }
{
    let left = left_behind(alloc, machine, file, end)?;
    let line = frame_line(alloc, choice, file, end, left, b"end")?;
    say_text(machine, line.as_slice())?;
    Ok(())
}

/// Says the header of a log.
fn say_header<M: Machine>(
    alloc: Global,
    machine: &mut M,
    choice: Choice,
    log: &LogFile,
) -> Result<(), Stop>
    ensures runs { OnlySays (M.disk machine.old) (M.disk machine.new) }
    ensures said { (M.disk machine.old).tells_files
        → OnOk result ((M.disk machine.new).said ≡ (M.disk machine.old).said ++ frame_line choice log.now.active 0 33 (header_words log.now.header)) }
    ensures front { (M.disk machine.old).tells_files → SaysFront (frame_line choice log.now.active 0 33 (header_words log.now.header)) (M.disk machine.old).said (M.disk machine.new).said }
    ensures cause { IfErr result (StopsBy (M.disk machine.old) (M.disk machine.new) (λ file place. ⊥)) }
{
    let line = header_line(
        alloc,
        choice,
        log.active(),
        log.epoch(),
        log.base(),
        log.commands(),
    )?;
    say_text(machine, line.as_slice())?;
    Ok(())
}

/// Says a log from its header to its end.
fn say_log<M: Machine>(
    alloc: Global,
    machine: &mut M,
    choice: Choice,
    b: Bounds,
    log: &LogFile,
) -> Result<(), Stop>
    ensures runs { OnlySays (M.disk machine.old) (M.disk machine.new) }
    ensures said { (M.disk machine.old).tells_files → (payloads : List (List ℕ)) → HoldsLog log.now.active log.now.header payloads (M.disk machine.old).reads
        → log.now.end ≡ end_of payloads → log.now.pending ≡ []
        → OnOk result (SaysLog choice (all_meaning b) (M.disk machine.old).reads log.now.active log.now.header payloads (M.disk machine.old).said (M.disk machine.new).said) }
    ensures front { (M.disk machine.old).tells_files → (payloads : List (List ℕ)) → HoldsLog log.now.active log.now.header payloads (M.disk machine.old).reads
        → log.now.end ≡ end_of payloads → log.now.pending ≡ []
        → OnErr result ((text : List ℕ) × AreLogLines choice (all_meaning b) (M.disk machine.old).reads log.now.active log.now.header payloads text × SaysFront text (M.disk machine.old).said (M.disk machine.new).said) }
    ensures cause { IfErr result (StopsBy (M.disk machine.old) (M.disk machine.new) (λ file place. (M.disk machine.old).tells_files → (payloads : List (List ℕ))
        → HoldsLog log.now.active log.now.header payloads (M.disk machine.old).reads → (lines : List ℕ) × AreLinesToNone choice (all_meaning b) log.now.active payloads lines
        × ((M.disk machine.new).said ≡ (M.disk machine.old).said ++ (frame_line choice log.now.active 0 33 (header_words log.now.header) ++ lines)))) }
{
    say_header(alloc, machine, choice, log)?;
    let mut payloads = log.reader(alloc, machine)?;
    say_blocks(alloc, machine, choice, b, &mut payloads)?;
    say_end(alloc, machine, choice, log.active(), log.used())?;
    Ok(())
}

/// Reads the log once more, and checks that each of its records is right in its place.
fn check_records<O: Oper, M: Machine>(
    alloc: Global,
    machine: &mut M,
    b: Bounds,
) -> Result<(), ReadErr>
    ensures kept { Stays (M.disk machine.old) (M.disk machine.new) }
    ensures whole { (M.disk machine.old).tells_files → IsSmall b → OnOk result (ArePlaced (O.meaning b) (M.disk machine.old).reads × AreReadable (O.meaning b) (M.disk machine.old).reads) }
    ensures cause { (M.disk machine.old).tells_files → IfErr result (FailsBy ⊤ (IsLoadFault (O.meaning b) (M.disk machine.old).reads)) }
    ensures fault { IfErr result (FailsBy (Rises (M.disk machine.old).disk_faults (M.disk machine.new).disk_faults) (λ file place. ⊤)) }
{
    match RecordLog::<O>::load_checked(alloc, machine, b) {
        Ok(loaded) => {
            drop(loaded);
            Ok(())
        }
        Err(cause) => Err(cause),
    }
}

/// The same for the operations of a store.
fn check_log<M: Machine>(alloc: Global, machine: &mut M, b: Bounds) -> Result<(), ReadErr>
    ensures kept { Stays (M.disk machine.old) (M.disk machine.new) }
    ensures whole { (M.disk machine.old).tells_files → IsSmall b → OnOk result (ArePlaced (all_meaning b) (M.disk machine.old).reads × AreReadable (all_meaning b) (M.disk machine.old).reads) }
    ensures cause { (M.disk machine.old).tells_files → IfErr result (FailsBy ⊤ (IsLoadFault (all_meaning b) (M.disk machine.old).reads)) }
    ensures fault { IfErr result (FailsBy (Rises (M.disk machine.old).disk_faults (M.disk machine.new).disk_faults) (λ file place. ⊤)) }
{
    check_records::<AllOps, M>(alloc, machine, b)
}

/// The same, and a fault of the log is one of the store.
fn check_store<M: Machine>(alloc: Global, machine: &mut M, b: Bounds) -> Result<(), Stop>
    ensures kept { Stays (M.disk machine.old) (M.disk machine.new) }
    ensures whole { (M.disk machine.old).tells_files → HasStore (M.disk machine.old).reads b → OnOk result (ArePlaced (all_meaning b) (M.disk machine.old).reads × AreReadable (all_meaning b) (M.disk machine.old).reads) }
    ensures cause { (M.disk machine.old).tells_files → HasStore (M.disk machine.old).reads b → IfErr result (IsLogStopped (M.disk machine.old).reads) }
    ensures faults { IfErr result (CountsStop (M.disk machine.old) (M.disk machine.new)) }
{
    check_log(alloc, machine, b)?;
    Ok(())
}

/// Checks the log of which this was said. The first fault of the files is reported where the check finds one. Where it finds
/// none, bytes that were no record were read otherwise the second time, and it is their place that is reported.
pub fn end_listing<M: Machine>(
    alloc: Global,
    machine: &mut M,
    b: Bounds,
    said: Result<(), Stop>,
) -> Result<(), Stop>
    ensures kept { Stays (M.disk machine.old) (M.disk machine.new) }
    ensures whole { (M.disk machine.old).tells_files → HasStore (M.disk machine.old).reads b → OnOk result (ArePlaced (all_meaning b) (M.disk machine.old).reads) }
    ensures cause { (M.disk machine.old).tells_files → HasStore (M.disk machine.old).reads b → (active : File) (header : Header) (payloads : List (List ℕ))
        → HoldsLog active header payloads (M.disk machine.old).reads → IfErr said (IsBroken (all_meaning b) payloads) → IfErr result (IsLogStopped (M.disk machine.old).reads) }
    ensures faults { IfErr result (λ stop. CountsStop (M.disk machine.old) (M.disk machine.new) stop ⊎ (said ≡ Error stop)) }
    ensures damage { IfErr result (λ stop. IsDamage stop → IfErr said IsDamage) }
    ensures all { OnOk result (IsOk said) }
{
    match said {
        Ok(()) => check_store(alloc, machine, b),
        Err(Stop::Damaged { file, place }) => {
            check_store(alloc, machine, b)?;
            Err(Stop::Damaged { file, place })
        }
        Err(Stop::NotAStore) => Err(Stop::NotAStore),
        Err(Stop::DiskFault) => Err(Stop::DiskFault),
        Err(Stop::SayFault) => Err(Stop::SayFault),
        Err(Stop::Memory) => Err(Stop::Memory),
    }
}

/// Says the log of a store of these bounds, and checks it.
fn list_log<M: Machine>(
    alloc: Global,
    machine: &mut M,
    choice: Choice,
    b: Bounds,
) -> Result<(), Stop>
    ensures runs { OnlySays (M.disk machine.old) (M.disk machine.new) }
    ensures listed { (M.disk machine.old).tells_files → HasStore (M.disk machine.old).reads b
        → OnOk result (IsListed choice (M.disk machine.old).reads (M.disk machine.old).said (M.disk machine.new).said) }
    ensures cause { (M.disk machine.old).tells_files → HasStore (M.disk machine.old).reads b → IfErr result (IsLogStopped (M.disk machine.old).reads) }
    ensures damage { (M.disk machine.old).tells_files → HasStore (M.disk machine.old).reads b → IfErr result (λ stop. IsDamage stop → (lines : List ℕ) × AreLinesBefore choice (all_meaning b) (M.disk machine.old).reads lines
        × ((M.disk machine.new).said ≡ (M.disk machine.old).said ++ lines)) }
    ensures front { (M.disk machine.old).tells_files → SaysOfLog choice (all_meaning b) (M.disk machine.old).reads (M.disk machine.old).said (M.disk machine.new).said }
    ensures faults { IfErr result (CountsStop (M.disk machine.old) (M.disk machine.new)) }
{
    let log = LogFile::load(alloc, machine)?;
    let said = say_log(alloc, machine, choice, b, &log);
    drop(log);
    end_listing(alloc, machine, b, said)?;
    Ok(())
}

/// The same, and ends with the status that reports it.
fn list_open<M: Machine>(alloc: Global, machine: &mut M, choice: Choice, b: Bounds) -> Status
    ensures keeps { OnlySays (M.disk machine.old) (M.disk machine.new) }
    ensures listed { (M.disk machine.old).tells_files → HasStore (M.disk machine.old).reads b → result ≡ Status.Done
        → IsListed choice (M.disk machine.old).reads (M.disk machine.old).said (M.disk machine.new).said }
    ensures a_store { (M.disk machine.old).tells_files → HasStore (M.disk machine.old).reads b → result ≢ Status.NotAStore }
    ensures damaged { (M.disk machine.old).tells_files → HasStore (M.disk machine.old).reads b → result ≡ Status.Damaged
        → IsDamageSaid choice (all_meaning b) (M.disk machine.old).reads (M.disk machine.old).said (M.disk machine.new).said }
    ensures front { (M.disk machine.old).tells_files → HasStore (M.disk machine.old).reads b
        → SaysNoMore choice (all_meaning b) (M.disk machine.old).reads (M.disk machine.old).said (M.disk machine.new).said }
    ensures faults { CountsFaults (M.disk machine.old) (M.disk machine.new) result }
{
    match list_log(alloc, machine, choice, b) {
        Ok(()) => Status::Done,
        Err(stop) => end_stopped(alloc, machine, stop),
    }
}

/// Says the log of the store as lines, one for the header, each block, each record, and the end. It writes no file. Where there is
/// no store it says that; where the files break their format it says the lines before the damage, and its place.
pub fn list_store<M: Machine>(alloc: Global, machine: &mut M, choice: Choice) -> Status
    // No file changes, at no moment.
    ensures keeps { OnlySays (M.disk machine.old) (M.disk machine.new) }
    // The lines are those of all records that the log holds, in their order, and nothing else.
    ensures listed { (M.disk machine.old).tells_files → result ≡ Status.Done → IsListed choice (M.disk machine.old).reads (M.disk machine.old).said (M.disk machine.new).said }
    ensures no_store { (M.disk machine.old).tells_files → result ≡ Status.NotAStore
        → IsClosedAt 0 ((M.disk machine.old).reads Objects) × ((M.disk machine.new).said ≡ (M.disk machine.old).said ++ not_a_store) }
    // The lines before a damage are those of the records that stand before it, or of all records where it is the number of one.
    ensures damaged { (M.disk machine.old).tells_files → result ≡ Status.Damaged
        → IsDamageSaid choice (meaning_of (M.disk machine.old).reads) (M.disk machine.old).reads (M.disk machine.old).said (M.disk machine.new).said }
    // With any status no more is said than a front of these lines and of the last one.
    ensures front { (M.disk machine.old).tells_files → SaysNoMore choice (meaning_of (M.disk machine.old).reads) (M.disk machine.old).reads (M.disk machine.old).said (M.disk machine.new).said }
    // A fault is reported only where the machine counted it: where none was, and memory is not refused, the lines end with one of these.
    ensures faults { CountsFaults (M.disk machine.old) (M.disk machine.new) result }
{
    match read_bounds(alloc, machine) {
        Ok(b) => list_open(alloc, machine, choice, b),
        Err(stop) => end_stopped(alloc, machine, stop),
    }
}
