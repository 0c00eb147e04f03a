// Says text.
ghost use Rattle.std.specs.Prelude.{◌≡◌, ◌++◌, IfErr, OnOk};
ghost use Rattle.disk_model.specs.Disk.{Runs, Same, SaysFront};
ghost use Rattle.tool_output.specs.Faults.{StopsBy};

use crate::stop::Stop;
use disk_model::Machine;

/// Says text.
pub fn say_text<M: Machine>(machine: &mut M, text: &[u8]) -> Result<(), Stop>
    ensures runs { Runs Same (SaysFront text.now) (M.disk machine.old) (M.disk machine.new) }
    ensures all { (M.disk machine.old).tells_files → OnOk result ((M.disk machine.new).said ≡ (M.disk machine.old).said ++ text.now) }
    ensures cause { IfErr result (StopsBy (M.disk machine.old) (M.disk machine.new) (λ file place. ⊥)) }
{
    match machine.say(text) {
        Ok(()) => Ok(()),
        Err(_) => Err(Stop::SayFault),
    }
}
