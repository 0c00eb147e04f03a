// The files of a store are read.
ghost use Rattle.std.specs.Prelude.{◌<◌, IfOk, IfErr, IsErrOf};
ghost use Rattle.disk_model.specs.Disk.{Files, Stays};
ghost use Rattle.disk_model.specs.declared.machine.FileNo.TheVariants.{Objects as ObjectsFile};
ghost use Rattle.formats.specs.Bytes.{IsOpenAt};
ghost use Rattle.stable_objects.specs.Reading.{IsNoDamage};
ghost use Rattle.restart.specs.Loading.{IsFiled, IsFreshStore, IsRead, LoadsNot};
ghost use Rattle.restart.specs.WellFormed.{IsWellFormed};

use crate::Tuning;
use analysis_pass::{Plan, analyse};
use disk_model::{FileNo, Machine, settle};
use log_records::RecordLog;
use oper_core::{Memory, Oper};
use running_store::{Objects, Store};
use stable_objects::OpenErr;
use std::alloc::Global;
use write_graph::WriteGraph;

/// Syncs the files, and reads them: the slots, of which no object is cached yet, the log, and the plan that its last checkpoint
/// makes. Each record of the log is checked, and the last check's table is kept. The records are read once more as they are
/// done again.
pub(crate) fn load<O: Oper, M: Machine>(
    alloc: Global,
    machine: &mut M,
    tuning: Tuning,
) -> Result<(Store<O>, Plan), OpenErr>
    requires some { 0 < tuning.clean }
    ensures kept { Stays (M.disk machine.old) (M.disk machine.new) }
    ensures ready { IfOk result (λ it. IsFreshStore (M.disk machine.new) it.0) }
    ensures read { (M.disk machine.old).tells_files → IfOk result (λ it. IsRead O.meaning (M.disk machine.old).reads (M.disk machine.new) it.0.parts it.1) }
    ensures formed { (files : Files) → (M.disk machine.new).agrees files → IfOk result (λ it. IsFiled O.meaning files it.0.parts it.1) }
    ensures whole { (M.disk machine.old).tells_files → IsWellFormed O.meaning (M.disk machine.old).reads → IfErr result IsNoDamage }
    ensures cause { IfErr result (LoadsNot O.meaning (M.disk machine.old) (M.disk machine.new)) }
    ensures memory { (M.disk machine.old).tells_files → IsErrOf result OpenErr.Memory → IsOpenAt 0 ((M.disk machine.old).reads ObjectsFile) }
{
    settle(machine)?;
    let objects = Objects::load(alloc, machine, tuning.clean, tuning.clean_bytes)?;
    let (log, last) = RecordLog::<O>::load_checked(alloc, machine, objects.bounds())?;
    if let Some(place) = objects.first_late(log.next()) {
        drop((objects, log, last));
        return Err(OpenErr::Damaged {
            file: FileNo::Objects,
            place,
        });
    }
    let plan = analyse(alloc, log.base(), last);
    match WriteGraph::new(alloc) {
        Ok(graph) => Ok((Store::new(alloc, log, objects, graph), plan)),
        Err(Memory) => {
            drop((objects, log, plan));
            Err(OpenErr::Memory)
        }
    }
}
