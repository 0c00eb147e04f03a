// The group of a turn is opened.
ghost use Rattle.std.specs.Prelude.{◌≡◌, false, IsOk, IsTrue, None, OnOk};
ghost use Rattle.std.specs.Option.{is_some};
ghost use Rattle.serving.specs.Calls.{GoesOn, KeepsStable, OfNames};

use disk_model::Machine;
use op_codec::AllOps;
use shell_base::Stop;
use store_engine::{Engine, engine_stands};

// Opens a group, where none is open.
fn open<M: Machine>(engine: &mut Engine<AllOps>, machine: &mut M) -> Result<(), Stop>
    requires unbroken { engine.old.broken ≡ false }
    requires alone { engine.old.group ≡ None }
    ensures call { GoesOn (M.disk machine.old) (M.disk machine.new) engine.new result }
    ensures inside { OnOk result (IsTrue (is_some engine.new.group)) }
    ensures keeps { OfNames (M.disk machine.old) engine.old (λ lo hi p commands names stable. KeepsStable lo hi p (M.disk machine.old) (M.disk machine.new) engine.new names stable (IsOk result) commands) }
{
    let begun = engine.begin(machine);
    engine_stands(machine, engine);
    match begun {
        Ok(_) => Ok(()),
        Err(_) => Err(Stop::DiskFault),
    }
}

/// Opens a group, where none is open. A group that is open goes on.
pub fn begin<M: Machine>(engine: &mut Engine<AllOps>, machine: &mut M) -> Result<(), Stop>
    requires { engine.old.broken ≡ false }
    ensures call { GoesOn (M.disk machine.old) (M.disk machine.new) engine.new result }
    ensures inside { OnOk result (IsTrue (is_some engine.new.group)) }
    ensures keeps { OfNames (M.disk machine.old) engine.old (λ lo hi p commands names stable. KeepsStable lo hi p (M.disk machine.old) (M.disk machine.new) engine.new names stable (IsOk result) commands) }
{
    match engine.group() {
        Some(_) => Ok(()),
        None => open(engine, machine),
    }
}
