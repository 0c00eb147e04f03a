// What the program says.
ghost use Rattle.std.specs.Prelude.{◌≡◌, ◌≢◌, ◌⊎◌, ◌++◌, OnOk, IfErr};
ghost use Rattle.disk_model.specs.Disk.{Rises, Runs, Same, SaysFront};
ghost use Rattle.shell_base.specs.Stops.{IsCaused, IsUndamaged};

use crate::status::Status;
use crate::stop::Stop;
use disk_model::Machine;

/// Says a line, or other bytes. Fails where the output does.
pub fn say_line<M: Machine>(machine: &mut M, line: &[u8]) -> Result<(), Stop>
    ensures runs { Runs Same (SaysFront line.now) (M.disk machine.old) (M.disk machine.new) }
    ensures all { (M.disk machine.old).tells_files → OnOk result ((M.disk machine.new).said ≡ (M.disk machine.old).said ++ line.now) }
    ensures cause { IfErr result (λ stop. IsCaused stop (M.disk machine.old) (M.disk machine.new)) }
    ensures undamaged { IfErr result IsUndamaged }
{
    match machine.say(line) {
        Ok(()) => Ok(()),
        Err(_) => Err(Stop::SayFault),
    }
}

/// Says a line, and ends with this status, or where the output fails with that.
pub fn end_with<M: Machine>(machine: &mut M, line: &[u8], status: Status) -> Status
    ensures runs { Runs Same (SaysFront line.now) (M.disk machine.old) (M.disk machine.new) }
    ensures all { (M.disk machine.old).tells_files → result ≢ Status.SayFault → (M.disk machine.new).said ≡ (M.disk machine.old).said ++ line.now }
    ensures status { (result ≡ status) ⊎ (result ≡ Status.SayFault) }
    ensures cause { result ≡ Status.SayFault → (status ≡ Status.SayFault) ⊎ Rises (M.disk machine.old).say_faults (M.disk machine.new).say_faults }
{
    match machine.say(line) {
        Ok(()) => status,
        Err(_) => Status::SayFault,
    }
}
