// A store is laid out.
ghost use Rattle.disk_model.specs.Disk.{Passes};
ghost use Rattle.formats.specs.Objects.{IsInRange};
ghost use Rattle.shell_base.specs.Judging.{CountsFaults};
ghost use Rattle.store_words.specs.Making.{IsMaking};

use disk_model::Machine;
use formats::Params;
use op_codec::AllOps;
use shell_base::{Status, end_with};
use store_engine::{Engine, InitErr};

/// Lays out a store without commands, and says a line where there is a store already.
pub fn init<M: Machine>(machine: &mut M, params: Params) -> Status
    requires { IsInRange params }
    ensures time { Passes (M.disk machine.old) (M.disk machine.new) }
    ensures making { IsMaking params (M.disk machine.old) (M.disk machine.new) result }
    ensures faults { CountsFaults (M.disk machine.old) (M.disk machine.new) result }
{
    match Engine::<AllOps>::init(machine, params) {
        Ok(()) => Status::Done,
        Err(InitErr::AlreadyStore) => {
            end_with(machine, b"already a store\n", Status::AlreadyStore)
        }
        Err(InitErr::DiskFault) => Status::DiskFault,
    }
}
