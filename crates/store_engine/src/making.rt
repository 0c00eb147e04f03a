// A new store is laid out.
ghost use Rattle.std.specs.Prelude.{◌≡◌, OnOk, IsErrOf};
ghost use Rattle.disk_model.specs.Disk.{Files, Rises, Passes, Stays, LeavesOnly, IsSettled};
ghost use Rattle.disk_model.specs.declared.machine.FileNo.TheVariants.{Objects};
ghost use Rattle.formats.specs.Objects.{BeginsStore, IsInRange};
ghost use Rattle.store_engine.specs.Engine.{InEachImage, IsNew, IsNewStore};
ghost use Rattle.restart.specs.Starts.{OrAtStart};

use crate::Engine;
use crate::init_err::InitErr;
use disk_model::{Machine, settle};
use formats::Params;
use log_records::RecordLog;
use oper_core::{Bounds, Oper};
use stable_objects::Slots;

impl<O: Oper> Engine<O> {
    /// Lays out a store without commands. It begins with a sync of each file, so what an earlier call left unsynced is
    /// there after each crash, or is written again.
    pub fn init<M: Machine>(machine: &mut M, params: Params) -> Result<(), InitErr>
        requires { IsInRange params }
        ensures time { Passes (M.disk machine.old) (M.disk machine.new) }
        ensures quiet { (M.disk machine.old).tells_files → (M.disk machine.new).said ≡ (M.disk machine.old).said }
        ensures ok { (M.disk machine.old).tells_files → OnOk result (InEachImage (M.disk machine.new) (IsNewStore O.meaning params)) }
        ensures settled { OnOk result (IsSettled (M.disk machine.new)) }
        // Where there is a store, each image then begins it, and so do all files that may be there by what was read.
        ensures already { IsErrOf result InitErr.AlreadyStore → IsSettled (M.disk machine.new) × ((M.disk machine.old).tells_files → BeginsStore ((M.disk machine.old).reads Objects))
            × ((files : Files) → (M.disk machine.new).agrees files → BeginsStore (files Objects)) }
        ensures kept { (M.disk machine.old).tells_files → BeginsStore ((M.disk machine.old).reads Objects) → Stays (M.disk machine.old) (M.disk machine.new) }
        ensures images { (M.disk machine.old).tells_moments → (BeginsStore ((M.disk machine.old).reads Objects) → ⊥) →
            LeavesOnly (M.disk machine.old) (M.disk machine.new) (OrAtStart (M.disk machine.old) (λ files said. IsNew O.meaning params files × (said ≡ (M.disk machine.old).said))) }
        ensures fresh { (M.disk machine.old).tells_files → OnOk result (BeginsStore ((M.disk machine.old).reads Objects) → ⊥) }
        ensures fault { IsErrOf result InitErr.DiskFault → Rises (M.disk machine.old).disk_faults (M.disk machine.new).disk_faults }
    {
        standing::new_files_stand_for_nothing::<O>();
        settle(machine)?;
        if Slots::begins(machine)? {
            return Err(InitErr::AlreadyStore);
        }
        Slots::close(machine)?;
        RecordLog::<O>::create(machine)?;
        let bounds = Bounds {
            objects: params.objects,
            cap: params.cap,
            more: params.more,
        };
        Slots::create(machine, bounds, params.limit)?;
        Ok(())
    }
}
