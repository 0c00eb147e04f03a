// How a store is opened, and what is printed where it is not.
ghost use Rattle.std.specs.Prelude.{◌≡◌, ◌≢◌, ◌⊎◌, ◌++◌, false, List, ℕ, OnOk, IfOk, IfErr};
ghost use Rattle.disk_model.specs.Disk.{Files, Passes, IsSettled};
ghost use Rattle.disk_model.specs.declared.machine.FileNo.{FileNo};
ghost use Rattle.disk_model.specs.declared.machine.FileNo.TheVariants.{Objects};
ghost use Rattle.restart.specs.Opening.{KeepsLayout};
ghost use Rattle.formats.specs.declared.params.Params.{Params};
ghost use Rattle.stable_objects.specs.Reading.{IsNoDamage};
ghost use Rattle.shell_base.specs.Store.{IsAttached, Command, IsWellFormed, Opens};
ghost use Rattle.shell_base.specs.Open.{HandsOn, OpensFiles, IsOpen, IsUnopened};
ghost use Rattle.shell_base.specs.Keeps.{KeepsFiles};
ghost use Rattle.shell_base.specs.Notices.{not_a_store, damaged};
ghost use Rattle.shell_base.specs.Status.{IsOfUnopened, LacksMemory};

use crate::budget::Budget;
use crate::damage::end_damaged;
use crate::say::end_with;
use crate::status::Status;
use disk_model::Machine;
use op_codec::AllOps;
use restart::a_restart_may_be_made;
use std::alloc::Global;
use store_engine::{
    Engine, OpenErr, engine_stands, opens_on_a_world, standing_files_meet_their_format,
};

/// Says why a store was not opened, where there is a line for that, and ends with the status that reports it. Without memory
/// for the line it ends with `Memory`, and where the output fails with `SayFault`.
pub fn end_unopened<M: Machine>(alloc: Global, machine: &mut M, cause: OpenErr) -> Status
    ensures time { Passes (M.disk machine.old) (M.disk machine.new) }
    ensures keeps { KeepsFiles (M.disk machine.old) (M.disk machine.new) }
    ensures no_store { (M.disk machine.old).tells_files → result ≡ Status.NotAStore →
        (cause ≡ OpenErr.NotAStore) × ((M.disk machine.new).said ≡ (M.disk machine.old).said ++ not_a_store) }
    ensures damaged { (M.disk machine.old).tells_files → result ≡ Status.Damaged → (file : FileNo) × (place : ℕ) × (cause ≡ OpenErr.Damaged file place)
        × ((M.disk machine.new).said ≡ (M.disk machine.old).said ++ damaged file place) }
    // A fault of the disk and out of memory are reported by the status alone.
    ensures quiet { cause ≢ OpenErr.NotAStore → IsNoDamage cause → (machine.new ≡ machine.old) × (result ≢ Status.NotAStore) × (result ≢ Status.Damaged) × (result ≢ Status.SayFault) × (result ≢ Status.Memory) }
    ensures silent { (result ≡ Status.DiskFault) ⊎ LacksMemory result → machine.new ≡ machine.old }
    ensures read { result ≡ Status.NotAStore → (cause ≡ OpenErr.NotAStore) × ((files : Files) → (M.disk machine.new).agrees files → (M.disk machine.old).agrees files) }
    ensures status { IsOfUnopened result }
    ensures faults { HandsOn cause (M.disk machine.old) (M.disk machine.new) result }
    ensures memory { LacksMemory result → (cause ≡ OpenErr.Memory) ⊎ ((file : FileNo) × (place : ℕ) × (cause ≡ OpenErr.Damaged file place)) }
{
    match cause {
        OpenErr::NotAStore => end_with(machine, b"not a store\n", Status::NotAStore),
        OpenErr::Damaged { file, place } => end_damaged(alloc, machine, file, place),
        OpenErr::DiskFault => Status::DiskFault,
        OpenErr::Memory => Status::RestartMemory,
    }
}

/// Opens the store with this budget. Where there is none to open it says a line, and answers the status that the program ends
/// with.
pub fn open_store<M: Machine>(
    alloc: Global,
    budget: Budget,
    machine: &mut M,
) -> Result<Engine<AllOps>, Status>
    ensures time { Passes (M.disk machine.old) (M.disk machine.new) }
    ensures opens { (p : Params) (commands : List Command) → Opens p (M.disk machine.old) commands → OpensFiles budget p commands (M.disk machine.old) (M.disk machine.new) }
    ensures ok { (p : Params) (commands : List Command) → Opens p (M.disk machine.old) commands → IfOk result (IsOpen budget p commands (M.disk machine.old) (M.disk machine.new)) }
    ensures ready { IfOk result (λ engine. (engine.broken ≡ false) × IsAttached (M.disk machine.new) engine) }
    ensures layout { (M.disk machine.old).tells_files → OnOk result (KeepsLayout ((M.disk machine.old).reads Objects) ((M.disk machine.new).reads Objects)) }
    ensures settled { OnOk result (IsSettled (M.disk machine.new)) }
    ensures quiet { (M.disk machine.old).tells_files → OnOk result ((M.disk machine.new).said ≡ (M.disk machine.old).said) }
    ensures read { (M.disk machine.old).tells_files → OnOk result (IsWellFormed (M.disk machine.old).reads) }
    ensures unopened { IfErr result (IsUnopened (M.disk machine.old) (M.disk machine.new)) }
{
    standing_files_meet_their_format::<AllOps>();
    opens_on_a_world::<AllOps>();
    a_restart_may_be_made::<AllOps>();
    match Engine::restart(alloc, machine, budget.tuning()) {
        Ok(engine) => {
            engine_stands(machine, &engine);
            Ok(engine)
        }
        Err(cause) => Err(end_unopened(alloc, machine, cause)),
    }
}
