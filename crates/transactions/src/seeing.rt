// The values of objects are read, as the staged commands leave them.
ghost use Rattle.std.specs.Prelude.{◌≡◌, ◌≤◌, ◌<◌, ◌++◌, ◌∷◌, [], ℕ, All, List, true, false, length, map, IfOk, OnOk};
ghost use Rattle.formats.specs.declared.params.Params.{Params};
ghost use Rattle.execution.specs.Answers.{ending_of_exec};
ghost use Rattle.running_store.specs.Calls.{IsFailed};
ghost use Rattle.running_store.specs.Laid.{values_in};
ghost use Rattle.store_engine.specs.Engine.{Holds, IsCached, params_of};
ghost use Rattle.store_engine.specs.Store.{state_of};
ghost use Rattle.transactions.specs.Staged.{OnlyReads, overlaid};

use crate::overlay::push_short;
use dirty_cache::Cache;
use disk_model::Machine;
use oper_core::{Oper, Values};
use std::alloc::Global;
use store_engine::{Engine, ExecErr};

// Sees that an object is cached. It answers whether there is such an object.
pub(crate) fn see<O: Oper, M: Machine>(
    engine: &mut Engine<O>,
    machine: &mut M,
    object: u32,
) -> Result<bool, ExecErr>
    requires unbroken { engine.old.broken ≡ false }
    ensures reads { OnlyReads O.meaning (M.disk machine.old) (M.disk machine.new) engine.old engine.new (IsFailed (ending_of_exec result)) }
    ensures cached { IfOk result (λ there. there ≡ true → IsCached engine.new object) }
    ensures value { (p : Params) (commands : List O) → Holds O.meaning p (M.disk machine.old) engine.old commands →
        IfOk result (λ there. there ≡ true → (file : List ℕ) → values_in engine.new.parts.volatile.objects file object ≡ state_of O.meaning p commands object) }
{
    match engine.fetch(machine, object) {
        Ok(there) => Ok(there),
        Err(e) => Err(e.into()),
    }
}

// Adds the value of an object, as the staged commands leave it.
pub(crate) fn push_value<O: Oper, M: Machine>(
    made: &Cache,
    engine: &mut Engine<O>,
    machine: &mut M,
    object: u32,
    values: &mut Values,
) -> Result<(), ExecErr>
    requires unbroken { engine.old.broken ≡ false }
    requires few { length values.old < 4 }
    ensures reads { OnlyReads O.meaning (M.disk machine.old) (M.disk machine.new) engine.old engine.new (IsFailed (ending_of_exec result)) }
    ensures pushed { OnOk result ((v : List ℕ) × (values.new ≡ values.old ++ v ∷ []) × (length v ≤ (params_of engine.old).cap)) }
    ensures value { (p : Params) (commands : List O) → Holds O.meaning p (M.disk machine.old) engine.old commands →
        OnOk result (values.new ≡ values.old ++ overlaid made.now (state_of O.meaning p commands) object ∷ []) }
{
    let cap = engine.params().cap;
    if let Some(entry) = made.entry(object) {
        return push_short(values, entry.bytes.as_slice(), cap);
    }
    match see(engine, machine, object) {
        Ok(true) => push_short(values, engine.get(object), cap),
        Ok(false) => Err(ExecErr::Memory),
        Err(e) => Err(e),
    }
}

// The values of these objects, in their order.
pub(crate) fn values_of<O: Oper, M: Machine>(
    alloc: Global,
    made: &Cache,
    engine: &mut Engine<O>,
    machine: &mut M,
    objects: &[u32],
) -> Result<Values, ExecErr>
    requires unbroken { engine.old.broken ≡ false }
    requires few { length objects.now ≤ 4 }
    ensures reads { OnlyReads O.meaning (M.disk machine.old) (M.disk machine.new) engine.old engine.new (IsFailed (ending_of_exec result)) }
    ensures fits { IfOk result (λ values. (length values ≡ length objects.now) × All (λ v. length v ≤ (params_of engine.old).cap) values) }
    ensures values { (p : Params) (commands : List O) → Holds O.meaning p (M.disk machine.old) engine.old commands →
        IfOk result (λ values. values ≡ map (overlaid made.now (state_of O.meaning p commands)) objects.now) }
{
    let mut values = Values::new(alloc);
    for object in objects {
        if let Err(e) = push_value(made, engine, machine, *object, &mut values) {
            return Err(e);
        }
    }
    Ok(values)
}
