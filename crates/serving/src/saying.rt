// Answers are said.
ghost use Rattle.std.specs.Prelude.{IfErr, IsOk};
ghost use Rattle.disk_model.specs.Disk.{Passes};
ghost use Rattle.store_engine.specs.Engine.{EngineView};
ghost use Rattle.shell_base.specs.Stops.{IsCaused};
ghost use Rattle.serving.specs.Calls.{OfNames, SaysBeside};

use disk_model::Machine;
use shell_base::{Stop, say_line};

/// Says bytes.
pub fn say<M: Machine>(machine: &mut M, bytes: &[u8]) -> Result<(), Stop>
    ensures time { Passes (M.disk machine.old) (M.disk machine.new) }
    ensures cause { IfErr result (λ stop. IsCaused stop (M.disk machine.old) (M.disk machine.new)) }
    ensures says { (engine : EngineView) → OfNames (M.disk machine.old) engine (λ lo hi p commands names stable. SaysBeside lo hi p (M.disk machine.old) (M.disk machine.new) engine names stable (IsOk result) commands bytes.now) }
{
    say_line(machine, bytes)
}
