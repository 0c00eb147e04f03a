// The group of a turn is ended and forced.
ghost use Rattle.std.specs.Prelude.{◌≡◌, false, IsOk, IsTrue};
ghost use Rattle.std.specs.Option.{is_some};
ghost use Rattle.serving.specs.Calls.{GoesOn, MakesStable, OfNames};

use disk_model::Machine;
use op_codec::AllOps;
use shell_base::Stop;
use store_engine::{Engine, engine_stands, group_is_closed};

// Ends the group that is open, and forces the log.
fn close<M: Machine>(engine: &mut Engine<AllOps>, machine: &mut M) -> Result<(), Stop>
    requires unbroken { engine.old.broken ≡ false }
    requires inside { IsTrue (is_some engine.old.group) }
    ensures call { GoesOn (M.disk machine.old) (M.disk machine.new) engine.new result }
    ensures forces { OfNames (M.disk machine.old) engine.old (λ lo hi p commands names stable. MakesStable lo hi p (M.disk machine.old) (M.disk machine.new) engine.new names stable (IsOk result) commands) }
{
    group_is_closed(machine, engine);
    let _ = engine.end();
    let forced = engine.force(machine);
    engine_stands(machine, engine);
    match forced {
        Ok(_) => Ok(()),
        Err(_) => Err(Stop::DiskFault),
    }
}

/// Ends the group and forces it. Where none is open all is forced, and nothing is done.
pub fn commit<M: Machine>(engine: &mut Engine<AllOps>, machine: &mut M) -> Result<(), Stop>
    requires { engine.old.broken ≡ false }
    ensures call { GoesOn (M.disk machine.old) (M.disk machine.new) engine.new result }
    ensures forces { OfNames (M.disk machine.old) engine.old (λ lo hi p commands names stable. MakesStable lo hi p (M.disk machine.old) (M.disk machine.new) engine.new names stable (IsOk result) commands) }
{
    match engine.group() {
        Some(_) => close(engine, machine),
        None => Ok(()),
    }
}
