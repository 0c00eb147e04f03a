// A store is made larger, where it stands.
ghost use Rattle.std.specs.Prelude.{◌≡◌, ◌⊎◌, ◌++◌, List, length, IfOk};
ghost use Rattle.disk_model.specs.Disk.{Passes, Rises, Runs, Same, SaysFront};
ghost use Rattle.disk_model.specs.declared.machine.FileNo.TheVariants.{Objects};
ghost use Rattle.formats.specs.Objects.{IsInRange};
ghost use Rattle.formats.specs.declared.params.Params.{Params as Numbers};
ghost use Rattle.stable_objects.specs.Upgrades.Larger.{IsLarger};
ghost use Rattle.store_engine.specs.Engine.{InEachImage, forced_in};
ghost use Rattle.store_engine.specs.Upgrading.{IsSecond, IsUncut};
ghost use Rattle.shell_base.specs.Judging.{CountsFaults};
ghost use Rattle.shell_base.specs.Notices.{already_version_two, damaged, smaller};
ghost use Rattle.shell_base.specs.Status.{IsOfOpened, IsOfSecond, IsOfUpgrade};
ghost use Rattle.shell_base.specs.Store.{Command, Holds, IsAttached, IsUpgraded, Stands};
ghost use Rattle.store_words.specs.Cut.{last_length};
ghost use Rattle.store_words.specs.Upgrading.{IsSilentUpgrade, IsUpgradeCall, LeavesEither};

use disk_model::Machine;
use formats::Params;
use op_codec::AllOps;
use oper_core::Memory;
use shell_base::{Budget, Status, end_damaged, end_with, open_store};
use std::alloc::Global;
use store_engine::{Engine, UpgradeErr, standing_files_meet_their_format};

/// The line that says the numbers of a store that may not become smaller.
fn smaller_line(alloc: Global, objects: u32, cap: u32) -> Result<Vec<u8>, Memory>
    ensures { IfOk result (λ line. line.items ≡ smaller objects cap) }
{
    let mut line = Vec::new(alloc);
    line.extend_from_slice(b"smaller ")?;
    let objects = objects.to_string(alloc)?;
    line.extend_from_slice(objects.as_bytes())?;
    line.push(b' ')?;
    let cap = cap.to_string(alloc)?;
    line.extend_from_slice(cap.as_bytes())?;
    line.push(b'\n')?;
    Ok(line)
}

/// Says the numbers of a store that may not become smaller, and ends with that status, or out of memory for the line with
/// that, or where the output fails with that.
fn end_smaller<M: Machine>(alloc: Global, machine: &mut M, objects: u32, cap: u32) -> Status
    ensures runs { Runs Same (SaysFront (smaller objects cap)) (M.disk machine.old) (M.disk machine.new) }
    ensures all { (M.disk machine.old).tells_files → result ≡ Status.Smaller → (M.disk machine.new).said ≡ (M.disk machine.old).said ++ smaller objects cap }
    ensures status { (result ≡ Status.Smaller) ⊎ ((result ≡ Status.Memory) ⊎ (result ≡ Status.SayFault)) }
    ensures cause { result ≡ Status.SayFault → Rises (M.disk machine.old).say_faults (M.disk machine.new).say_faults }
    ensures silent { result ≡ Status.Memory → machine.new ≡ machine.old }
{
    match smaller_line(alloc, objects, cap) {
        Ok(line) => end_with(machine, line.as_slice(), Status::Smaller),
        Err(Memory) => Status::Memory,
    }
}

/// Makes an open store larger, and says a line where it is not made so.
fn upgrade_open<M: Machine>(
    alloc: Global,
    engine: Engine<AllOps>,
    machine: &mut M,
    params: Params,
) -> Status
    requires { IsInRange params }
    ensures time { Passes (M.disk machine.old) (M.disk machine.new) }
    ensures leaves { (p : Numbers) (commands : List Command) (holds : Holds p (M.disk machine.old) engine commands) → forced_in engine ≡ length commands →
        LeavesEither p params commands holds.world (M.disk machine.old) (M.disk machine.new) }
    ensures done { (p : Numbers) (commands : List Command) → Holds p (M.disk machine.old) engine commands → forced_in engine ≡ length commands → result ≡ Status.Done →
        InEachImage (M.disk machine.new) (IsUpgraded params commands) × IsLarger p params }
    ensures idle { (p : Numbers) (commands : List Command) → Holds p (M.disk machine.old) engine commands → forced_in engine ≡ length commands →
        (result ≡ Status.AlreadyTwo) ⊎ (result ≡ Status.Smaller) → InEachImage (M.disk machine.new) (λ files. Stands p files commands) }
    ensures second { (M.disk machine.old).tells_files → IsAttached (M.disk machine.old) engine → IsSecond (M.disk machine.old).reads → IsOfSecond result }
    ensures smaller { (p : Numbers) (commands : List Command) → Holds p (M.disk machine.old) engine commands → result ≡ Status.Smaller →
        (IsLarger p params → ⊥) × ((M.disk machine.new).said ≡ (M.disk machine.old).said ++ smaller p.objects p.cap) }
    ensures already { (M.disk machine.old).tells_files → IsAttached (M.disk machine.old) engine → result ≡ Status.AlreadyTwo →
        IsSecond (M.disk machine.old).reads × ((M.disk machine.new).said ≡ (M.disk machine.old).said ++ already_version_two) }
    ensures damaged { (M.disk machine.old).tells_files → IsAttached (M.disk machine.old) engine → result ≡ Status.Damaged →
        (IsUncut (M.disk machine.old) engine → ⊥) × ((M.disk machine.new).said ≡ (M.disk machine.old).said ++ damaged Objects (last_length ((M.disk machine.old).reads Objects))) }
    // A fault of the disk and out of memory are reported by the status alone.
    ensures quiet { (M.disk machine.old).tells_files → IsSilentUpgrade result → (M.disk machine.new).said ≡ (M.disk machine.old).said }
    ensures status { IsOfUpgrade result × IsOfOpened result }
    ensures faults { CountsFaults (M.disk machine.old) (M.disk machine.new) result }
{
    match engine.upgrade(machine, params) {
        Ok(()) => Status::Done,
        Err(UpgradeErr::AlreadyTwo) => {
            end_with(machine, b"already version 2\n", Status::AlreadyTwo)
        }
        Err(UpgradeErr::Smaller { objects, cap }) => end_smaller(alloc, machine, objects, cap),
        Err(UpgradeErr::DiskFault) => Status::DiskFault,
        Err(UpgradeErr::Damaged { file, place }) => end_damaged(alloc, machine, file, place),
        Err(UpgradeErr::Memory) => Status::Memory,
    }
}

/// Opens the store with this budget, and makes it larger. Where there is no store to open, or it is not made larger, it says a
/// line.
pub fn upgrade<M: Machine>(alloc: Global, budget: Budget, machine: &mut M, params: Params) -> Status
    requires { IsInRange params }
    ensures time { Passes (M.disk machine.old) (M.disk machine.new) }
    ensures call { IsUpgradeCall budget params (M.disk machine.old) (M.disk machine.new) result }
    ensures faults { CountsFaults (M.disk machine.old) (M.disk machine.new) result }
{
    standing_files_meet_their_format::<AllOps>();
    match open_store(alloc, budget, machine) {
        Ok(engine) => upgrade_open(alloc, engine, machine, params),
        Err(status) => status,
    }
}
