// Objects are fetched before their values are reported.
ghost use Rattle.std.specs.Prelude.{◌≡◌, ◌≤◌, ◌<◌, List, ℕ, true, false, OnOk, IfOk, IfErr};
ghost use Rattle.disk_model.specs.Disk.{Stays};
ghost use Rattle.formats.specs.declared.params.Params.{Params};
ghost use Rattle.store_engine.specs.Engine.{IsCached};
ghost use Rattle.running_store.specs.Laid.{values_in};
ghost use Rattle.shell_base.specs.First.{stage_of};
ghost use Rattle.shell_base.specs.Store.{Command, Holds, IsAttached, Kept, state_of};
ghost use Rattle.shell_base.specs.Stops.{IsCaused, IsUndamaged};

use crate::stop::Stop;
use disk_model::Machine;
use op_codec::AllOps;
use store_engine::{Engine, engine_stands};

/// Sees that an object is cached, so that its value can be reported. It reports whether there is such an object.
pub fn fetched<M: Machine>(
    engine: &mut Engine<AllOps>,
    machine: &mut M,
    object: u32,
) -> Result<bool, Stop>
    requires { engine.old.broken ≡ false }
    ensures kept { Stays (M.disk machine.old) (M.disk machine.new) }
    ensures cached { IfOk result (λ there. there ≡ true → IsCached engine.new object) }
    ensures holds { (p : Params) (commands : List Command) → (holds : Holds p (M.disk machine.old) engine.old commands) →
        OnOk result ((kept : Kept p engine.old (M.disk machine.new) engine.new commands) × (stage_of engine.new kept.holds.world ≡ stage_of engine.old holds.world)) }
    ensures value { (p : Params) (commands : List Command) → Holds p (M.disk machine.old) engine.old commands →
        IfOk result (λ there. there ≡ true → (object < p.objects) × ((file : List ℕ) → values_in engine.new.parts.volatile.objects file object ≡ state_of p commands object)) }
    ensures none { (p : Params) (commands : List Command) → Holds p (M.disk machine.old) engine.old commands → IfOk result (λ there. there ≡ false → p.objects ≤ object) }
    ensures cause { IfErr result (λ stop. IsCaused stop (M.disk machine.old) (M.disk machine.new)) }
    ensures undamaged { (M.disk machine.old).tells_files → IsAttached (M.disk machine.old) engine.old → IfErr result IsUndamaged }
    ensures attached { IsAttached (M.disk machine.old) engine.old → OnOk result (IsAttached (M.disk machine.new) engine.new) }
    ensures unbroken { OnOk result (engine.new.broken ≡ false) }
{
    let there = engine.fetch(machine, object)?;
    engine_stands(machine, engine);
    Ok(there)
}
