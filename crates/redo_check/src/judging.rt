// Judges the files as a restart does.
ghost use Rattle.std.specs.Prelude.{⊤, IfErr, IfOk};
ghost use Rattle.disk_model.specs.Disk.{Files, Rises, Stays};
ghost use Rattle.disk_model.specs.declared.machine.FileNo.TheVariants.{Objects};
ghost use Rattle.formats.specs.FirstFault.{IsFirstLogFault};
ghost use Rattle.formats.specs.Reading.{FailsBy};
ghost use Rattle.log_records.specs.Loading.{IsLoadFault};
ghost use Rattle.op_codec.specs.AllOps.{all_meaning};
ghost use Rattle.oper_core.specs.Meaning.{IsSmall};
ghost use Rattle.stable_objects.specs.SlotsView.{AreOf};
ghost use Rattle.redo_check.specs.Checking.{EndsLog, HasRecords, IsRestart};
ghost use Rattle.tool_output.specs.Found.{IsLogStopped, IsStopped};
ghost use Rattle.tool_output.specs.Faults.{CountsStop};

use crate::records::Records;
use crate::restart::Restart;
use analysis_pass::analyse;
use disk_model::{FileNo, Machine};
use formats::ReadErr;
use log_blocks::LogFile;
use log_records::RecordLog;
use op_codec::AllOps;
use oper_core::{Bounds, Oper};
use stable_objects::Slots;
use std::alloc::Global;
use tool_output::Stop;

/// The file of the log in force, and the place of the closed gate that ends it.
pub fn log_end<M: Machine>(alloc: Global, machine: &mut M) -> Result<(FileNo, u64), ReadErr>
    ensures kept { Stays (M.disk machine.old) (M.disk machine.new) }
    ensures ends { (files : Files) → (M.disk machine.new).agrees files → IfOk result (λ found. EndsLog files found.0 found.1) }
    ensures cause { (files : Files) → (M.disk machine.new).agrees files → IfErr result (FailsBy ⊤ (IsFirstLogFault files)) }
    ensures fault { IfErr result (FailsBy (Rises (M.disk machine.old).disk_faults (M.disk machine.new).disk_faults) (λ file place. ⊤)) }
{
    let log = LogFile::load(alloc, machine)?;
    Ok((log.active(), log.used()))
}

/// The records of the log in force, each of which is right in its place.
fn read_records<O: Oper, M: Machine>(
    alloc: Global,
    machine: &mut M,
    b: Bounds,
) -> Result<Records, ReadErr>
    ensures kept { Stays (M.disk machine.old) (M.disk machine.new) }
    ensures read { (M.disk machine.old).tells_files → IsSmall b → IfOk result (HasRecords (O.meaning b) (M.disk machine.old).reads) }
    ensures cause { (M.disk machine.old).tells_files → IfErr result (FailsBy ⊤ (IsLoadFault (O.meaning b) (M.disk machine.old).reads)) }
    ensures fault { IfErr result (FailsBy (Rises (M.disk machine.old).disk_faults (M.disk machine.new).disk_faults) (λ file place. ⊤)) }
{
    let found = log_end(alloc, machine)?;
    let (log, check) = RecordLog::<O>::load_checked(alloc, machine, b)?;
    let plan = analyse(alloc, log.base(), check);
    Ok(Records {
        file: found.0,
        end: found.1,
        start: plan.start(),
        next: log.next(),
    })
}

/// The same for the operations of a store.
pub fn store_records<M: Machine>(
    alloc: Global,
    machine: &mut M,
    b: Bounds,
) -> Result<Records, ReadErr>
    ensures kept { Stays (M.disk machine.old) (M.disk machine.new) }
    ensures read { (M.disk machine.old).tells_files → IsSmall b → IfOk result (HasRecords (all_meaning b) (M.disk machine.old).reads) }
    ensures cause { (M.disk machine.old).tells_files → IfErr result (FailsBy ⊤ (IsLoadFault (all_meaning b) (M.disk machine.old).reads)) }
    ensures fault { IfErr result (FailsBy (Rises (M.disk machine.old).disk_faults (M.disk machine.new).disk_faults) (λ file place. ⊤)) }
{
    read_records::<AllOps, M>(alloc, machine, b)
}

/// Judges the log, and that no slot is ahead of it.
fn judge_log<M: Machine>(alloc: Global, machine: &mut M, slots: &Slots) -> Result<Restart, Stop>
    ensures kept { Stays (M.disk machine.old) (M.disk machine.new) }
    ensures whole { (M.disk machine.old).tells_files → AreOf slots.now ((M.disk machine.old).reads Objects) → IfOk result (IsRestart (M.disk machine.old).reads) }
    ensures cause { (M.disk machine.old).tells_files → AreOf slots.now ((M.disk machine.old).reads Objects) → IfErr result (IsLogStopped (M.disk machine.old).reads) }
    ensures faults { IfErr result (CountsStop (M.disk machine.old) (M.disk machine.new)) }
{
    let bounds = slots.bounds();
    let records = store_records(alloc, machine, bounds)?;
    if let Some(place) = slots.first_at(records.next) {
        return Err(Stop::Damaged {
            file: FileNo::Objects,
            place,
        });
    }
    Ok(Restart { bounds, records })
}

/// What a restart does, or why none may be made: the first fault of the files, in the order of their checks.
pub fn judge<M: Machine>(alloc: Global, machine: &mut M) -> Result<Restart, Stop>
    ensures kept { Stays (M.disk machine.old) (M.disk machine.new) }
    ensures whole { (M.disk machine.old).tells_files → IfOk result (IsRestart (M.disk machine.old).reads) }
    ensures cause { (M.disk machine.old).tells_files → IfErr result (IsStopped (M.disk machine.old).reads) }
    ensures faults { IfErr result (CountsStop (M.disk machine.old) (M.disk machine.new)) }
{
    let slots = Slots::load(alloc, machine)?;
    let judged = judge_log(alloc, machine, &slots);
    drop(slots);
    judged
}
