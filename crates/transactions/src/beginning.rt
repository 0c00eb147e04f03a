// A group is opened for the commands of a transaction, and closed.
ghost use Rattle.std.specs.Prelude.{◌≡◌, ◌+◌, List, false, None, length, IfSome, IsTrue, OnOk};
ghost use Rattle.disk_model.specs.Disk.{LeavesOnly, Passes};
ghost use Rattle.formats.specs.declared.params.Params.{Params};
ghost use Rattle.store_engine.specs.Engine.{Between, Holds, forced_in, params_of};
ghost use Rattle.transactions.specs.Committing.{HasBegun};
ghost use Rattle.transactions.specs.Room.{HasRoomOf};

use disk_model::Machine;
use oper_core::Oper;
use store_engine::{Engine, WorkErr, engine_stands, group_is_closed};

// Forces the log and opens a group, where none is open. A crash meanwhile leaves those commands that were forced, or all.
pub(crate) fn begin<O: Oper, M: Machine>(
    engine: &mut Engine<O>,
    machine: &mut M,
) -> Result<(), WorkErr>
    requires unbroken { engine.old.broken ≡ false }
    requires alone { engine.old.group ≡ None }
    ensures unbroken { OnOk result (engine.new.broken ≡ false) }
    ensures params { params_of engine.new ≡ params_of engine.old }
    ensures time { Passes (M.disk machine.old) (M.disk machine.new) }
    ensures begun { (p : Params) (commands : List O) → Holds O.meaning p (M.disk machine.old) engine.old commands →
        OnOk result (HasBegun O.meaning p (M.disk machine.old) (M.disk machine.new) engine.old engine.new commands) }
    ensures images { (M.disk machine.old).tells_moments → (p : Params) (commands : List O) → Holds O.meaning p (M.disk machine.old) engine.old commands →
        LeavesOnly (M.disk machine.old) (M.disk machine.new) (Between O.meaning p (M.disk machine.old) None (forced_in engine.old) (length commands) commands) }
{
    engine_stands(machine, engine);
    let answer = engine.begin(machine);
    engine_stands(machine, engine);
    answer
}

/// Whether records of so many bytes fit below the limit of the log, also where the first of them begins a block.
pub fn has_room<O: Oper>(engine: &Engine<O>, bytes: u64) -> bool
    ensures roomy { IsTrue result → HasRoomOf engine.now bytes }
    ensures seen { HasRoomOf engine.now bytes → IsTrue result }
{
    let limit = engine.params().limit as u64;
    let used = engine.used();
    used <= limit && bytes <= limit && bytes + 5 <= limit - used
}

// Closes the open group.
pub(crate) fn close<O: Oper, M: Machine>(engine: &mut Engine<O>, machine: &M)
    requires unbroken { engine.old.broken ≡ false }
    ensures kept { IfSome engine.old.group (λ begun. engine.new ≡ record engine.old { group = None }) }
    ensures holds { (p : Params) (commands : List O) → Holds O.meaning p (M.disk machine.now) engine.old commands → IfSome engine.old.group (λ begun. Holds O.meaning p (M.disk machine.now) engine.new commands) }
{
    group_is_closed(machine, engine);
    let _ = engine.end();
}
