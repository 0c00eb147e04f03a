// The values that staged commands make, laid over those of the store.
ghost use Rattle.std.specs.Prelude.{◌≡◌, ◌≤◌, ◌<◌, ◌++◌, ◌∷◌, [], ℕ, All, length, OnOk};
ghost use Rattle.dirty_cache.specs.Contents.{HasRoom, held};
ghost use Rattle.execution.specs.Answers.{ending_of_exec};
ghost use Rattle.running_store.specs.Calls.{IsFailed};
ghost use Rattle.running_store.specs.Laid.{with_entries};

use dirty_cache::Cache;
use oper_core::{Memory, Values};
use store_engine::ExecErr;

// Takes the memory that new values of these objects need. Each has the value that it had.
pub(crate) fn make_rooms(made: &mut Cache, objects: &[u32]) -> Result<(), Memory>
    ensures room { OnOk result (All (HasRoom made.new) objects.now) }
    ensures held { (x : ℕ) → held made.new x ≡ held made.old x }
{
    for object in objects {
        made.make_room(*object)?;
    }
    Ok(())
}

// Gives these objects new values, which stand side by side with them. No memory.
pub(crate) fn set_all(made: &mut Cache, objects: &[u32], values: Values)
    requires room { All (HasRoom made.old) objects.now }
    requires count { length values ≡ length objects.now }
    ensures { (x : ℕ) → held made.new x ≡ with_entries (held made.old) 0 objects.now values x }
{
    let mut values = values;
    while let Some(value) = values.pop() {
        made.set(objects[values.len()], 0, value.into_vec());
    }
}

// Adds a copy of a value, where it is not too long, which it never is.
pub(crate) fn push_short(values: &mut Values, value: &[u8], cap: u32) -> Result<(), ExecErr>
    requires few { length values.old < 4 }
    ensures pushed { OnOk result (values.new ≡ values.old ++ value.now ∷ []) }
    ensures short { OnOk result (length value.now ≤ cap) }
    ensures no_fault { IsFailed (ending_of_exec result) → ⊥ }
{
    if value.len() > cap as usize {
        return Err(ExecErr::Memory);
    }
    if values.push(value).is_err() {
        return Err(ExecErr::Memory);
    }
    Ok(())
}
