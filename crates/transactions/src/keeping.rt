// The values that objects have are kept, before they are changed.
ghost use Rattle.std.specs.Prelude.{◌≡◌, ◌⊎◌, ◌<◌, ℕ, List, false, true, nat_eq, None, Some, IsSome, IsTrue};
ghost use Rattle.dirty_cache.specs.Contents.{held};
ghost use Rattle.formats.specs.declared.params.Params.{Params};
ghost use Rattle.store_engine.specs.Engine.{Holds, params_of};
ghost use Rattle.transactions.specs.Keeping.{AddsValues, KeepsOld};
ghost use Rattle.transactions.specs.Snapshots.{AreKept};
ghost use Rattle.transactions.specs.Staged.{OnlyReads};

use dirty_cache::Cache;
use disk_model::Machine;
use oper_core::Oper;
use std::alloc::Global;
use store_engine::Engine;

// Whether a value of an object is kept.
fn is_kept(kept: &Cache, object: u32) -> bool
    ensures yes { IsTrue result → IsSome (held kept.now object) }
    ensures no { result ≡ false → held kept.now object ≡ None }
{
    kept.entry(object).is_some()
}

// Keeps a copy of a value for an object. False where memory is refused; what was kept is kept then.
fn keep_value(alloc: Global, kept: &mut Cache, object: u32, value: &[u8]) -> bool
    ensures kept { IsTrue result → IsSome (held kept.new object) }
    ensures here { (held kept.new object ≡ Some (record { lsn = 0; bytes = value.now })) ⊎ (held kept.new object ≡ held kept.old object) }
    ensures others { (y : ℕ) → nat_eq object y ≡ false → held kept.new y ≡ held kept.old y }
{
    let Ok(copy) = Vec::from_slice(alloc, value) else {
        return false;
    };
    match kept.make_room(object) {
        Ok(()) => {
            kept.set(object, 0, copy);
            true
        }
        Err(_) => false,
    }
}

// Sees that the value which an object has is kept, where there is such an object and nothing is kept of it. False where memory, the
// object's slot or the disk refuses it.
fn keep_one<O: Oper, M: Machine>(
    kept: &mut Cache,
    engine: &mut Engine<O>,
    machine: &mut M,
    object: u32,
) -> bool
    requires unbroken { engine.old.broken ≡ false }
    ensures reads { OnlyReads O.meaning (M.disk machine.old) (M.disk machine.new) engine.old engine.new (engine.new.broken ≡ true) }
    ensures whole { IsTrue result → engine.new.broken ≡ false }
    ensures kept { IsTrue result → object < (params_of engine.old).objects → IsSome (held kept.new object) }
    ensures stands { (object < (params_of engine.old).objects → IsSome (held kept.old object)) → IsTrue result × (kept.new ≡ kept.old) }
    ensures same { KeepsOld kept.old kept.new }
    ensures values { (p : Params) (commands : List O) → Holds O.meaning p (M.disk machine.old) engine.old commands → AddsValues O.meaning p commands kept.old kept.new }
{
    if is_kept(kept, object) {
        return true;
    }
    match engine.fetch(machine, object) {
        Ok(true) => keep_value(engine.alloc(), kept, object, engine.get(object)),
        Ok(false) => true,
        Err(_) => false,
    }
}

// Does so for each of these objects, as far as it is not refused.
pub(crate) fn keep_all<O: Oper, M: Machine>(
    kept: &mut Cache,
    engine: &mut Engine<O>,
    machine: &mut M,
    objects: &[u32],
) -> bool
    requires unbroken { engine.old.broken ≡ false }
    ensures reads { OnlyReads O.meaning (M.disk machine.old) (M.disk machine.new) engine.old engine.new (engine.new.broken ≡ true) }
    ensures whole { IsTrue result → engine.new.broken ≡ false }
    ensures kept { IsTrue result → AreKept (params_of engine.old).objects kept.new objects.now }
    ensures stands { AreKept (params_of engine.old).objects kept.old objects.now → IsTrue result × (kept.new ≡ kept.old) }
    ensures same { KeepsOld kept.old kept.new }
    ensures values { (p : Params) (commands : List O) → Holds O.meaning p (M.disk machine.old) engine.old commands → AddsValues O.meaning p commands kept.old kept.new }
{
    for object in objects {
        if !keep_one(kept, engine, machine, *object) {
            return false;
        }
    }
    true
}
