// Says how many records of each kind the log of a store holds.
ghost use Rattle.std.specs.Prelude.{◌≡◌, ◌≢◌, ◌++◌, List, ℕ, IfErr, IfOk, OnOk};
ghost use Rattle.disk_model.specs.Disk.{Stays};
ghost use Rattle.disk_model.specs.declared.machine.FileNo.{FileNo as File};
ghost use Rattle.disk_model.specs.declared.machine.FileNo.TheVariants.{Objects};
ghost use Rattle.formats.specs.Bytes.{IsClosedAt};
ghost use Rattle.formats.specs.FirstFault.{IsDamaged};
ghost use Rattle.op_codec.specs.AllOps.{all_meaning};
ghost use Rattle.redo_log.specs.Tallying.{HasTally, IsTable, SaysTallyPart};
ghost use Rattle.redo_log.specs.Fronts.{IsDamage};
ghost use Rattle.tool_output.specs.Faults.{CountsFaults, CountsStop};
ghost use Rattle.tool_output.specs.Found.{HasStore, IsLogStopped};
ghost use Rattle.tool_output.specs.Lines.{damaged, not_a_store};
ghost use Rattle.tool_output.specs.Saying.{OnlySays};

use crate::choice::Choice;
use crate::counting::count_log;
use crate::listing::{end_listing, read_bounds};
use crate::tally::{empty_tally, tally_text};
use disk_model::Machine;
use log_blocks::LogFile;
use oper_core::Bounds;
use std::alloc::Global;
use tool_output::{Status, Stop, end_stopped, say_text};

/// A tally of the log of a store of these bounds, which is checked.
fn tally_log<M: Machine>(
    alloc: Global,
    machine: &mut M,
    choice: Choice,
    b: Bounds,
) -> Result<Vec<(u64, u64)>, Stop>
    ensures kept { Stays (M.disk machine.old) (M.disk machine.new) }
    ensures counted { (M.disk machine.old).tells_files → HasStore (M.disk machine.old).reads b → IfOk result (λ tally. HasTally choice (M.disk machine.old).reads tally.items) }
    ensures cause { (M.disk machine.old).tells_files → HasStore (M.disk machine.old).reads b → IfErr result (IsLogStopped (M.disk machine.old).reads) }
    ensures faults { IfErr result (CountsStop (M.disk machine.old) (M.disk machine.new)) }
{
    let mut tally = empty_tally(alloc)?;
    let log = LogFile::load(alloc, machine)?;
    let counted = count_log(alloc, machine, choice, b, &log, &mut tally);
    drop(log);
    end_listing(alloc, machine, b, counted)?;
    Ok(tally)
}

/// Says it.
fn say_tally<M: Machine>(
    alloc: Global,
    machine: &mut M,
    choice: Choice,
    b: Bounds,
) -> Result<(), Stop>
    ensures runs { OnlySays (M.disk machine.old) (M.disk machine.new) }
    ensures counted { (M.disk machine.old).tells_files → HasStore (M.disk machine.old).reads b
        → OnOk result ((text : List ℕ) × IsTable choice (M.disk machine.old).reads text × ((M.disk machine.new).said ≡ (M.disk machine.old).said ++ text)) }
    ensures cause { (M.disk machine.old).tells_files → HasStore (M.disk machine.old).reads b → IfErr result (IsLogStopped (M.disk machine.old).reads) }
    ensures damage { (M.disk machine.old).tells_files → IfErr result (λ stop. IsDamage stop → (M.disk machine.new).said ≡ (M.disk machine.old).said) }
    ensures front { (M.disk machine.old).tells_files → HasStore (M.disk machine.old).reads b → SaysTallyPart choice (M.disk machine.old).reads (M.disk machine.old).said (M.disk machine.new).said }
    ensures faults { IfErr result (CountsStop (M.disk machine.old) (M.disk machine.new)) }
{
    let tally = tally_log(alloc, machine, choice, b)?;
    let text = tally_text(alloc, tally.as_slice())?;
    say_text(machine, text.as_slice())?;
    Ok(())
}

/// The same, and ends with the status that reports it.
fn tally_open<M: Machine>(alloc: Global, machine: &mut M, choice: Choice, b: Bounds) -> Status
    ensures keeps { OnlySays (M.disk machine.old) (M.disk machine.new) }
    ensures counted { (M.disk machine.old).tells_files → HasStore (M.disk machine.old).reads b → result ≡ Status.Done
        → (text : List ℕ) × IsTable choice (M.disk machine.old).reads text × ((M.disk machine.new).said ≡ (M.disk machine.old).said ++ text) }
    ensures a_store { (M.disk machine.old).tells_files → HasStore (M.disk machine.old).reads b → result ≢ Status.NotAStore }
    ensures damaged { (M.disk machine.old).tells_files → HasStore (M.disk machine.old).reads b → result ≡ Status.Damaged
        → (file : File) × (place : ℕ) × IsDamaged all_meaning (M.disk machine.old).reads file place × ((M.disk machine.new).said ≡ (M.disk machine.old).said ++ damaged file place) }
    ensures front { (M.disk machine.old).tells_files → HasStore (M.disk machine.old).reads b → SaysTallyPart choice (M.disk machine.old).reads (M.disk machine.old).said (M.disk machine.new).said }
    ensures faults { CountsFaults (M.disk machine.old) (M.disk machine.new) result }
{
    match say_tally(alloc, machine, choice, b) {
        Ok(()) => Status::Done,
        Err(stop) => end_stopped(alloc, machine, stop),
    }
}

/// Says how many records of each kind the log of the store holds, of those that are all that is asked, and how many bytes their codes
/// have: a line for each kind that there is. It writes no file. Where there is no store it says that; where the files break their
/// format, at which place.
pub fn tally_store<M: Machine>(alloc: Global, machine: &mut M, choice: Choice) -> Status
    // No file changes, at no moment.
    ensures keeps { OnlySays (M.disk machine.old) (M.disk machine.new) }
    // The numbers are those of all records that the log holds.
    ensures counted { (M.disk machine.old).tells_files → result ≡ Status.Done
        → (text : List ℕ) × IsTable choice (M.disk machine.old).reads text × ((M.disk machine.new).said ≡ (M.disk machine.old).said ++ text) }
    ensures no_store { (M.disk machine.old).tells_files → result ≡ Status.NotAStore
        → IsClosedAt 0 ((M.disk machine.old).reads Objects) × ((M.disk machine.new).said ≡ (M.disk machine.old).said ++ not_a_store) }
    ensures damaged { (M.disk machine.old).tells_files → result ≡ Status.Damaged
        → (file : File) × (place : ℕ) × IsDamaged all_meaning (M.disk machine.old).reads file place × ((M.disk machine.new).said ≡ (M.disk machine.old).said ++ damaged file place) }
    // With any status no more is said than a front of these lines, or of the last one.
    ensures front { (M.disk machine.old).tells_files → SaysTallyPart choice (M.disk machine.old).reads (M.disk machine.old).said (M.disk machine.new).said }
    // A fault is reported only where the machine counted it.
    ensures faults { CountsFaults (M.disk machine.old) (M.disk machine.new) result }
{
    match read_bounds(alloc, machine) {
        Ok(b) => tally_open(alloc, machine, choice, b),
        Err(stop) => end_stopped(alloc, machine, stop),
    }
}
