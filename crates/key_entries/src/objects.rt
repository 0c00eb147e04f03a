//! The objects that an operation names, and the values that it writes.

ghost use Rattle.std.specs.Prelude.{◌≡◌, ◌≤◌, IfOk, length, map, true, [], ◌∷◌};
ghost use Rattle.std.specs.Result.{result_err};
ghost use Rattle.key_entries.specs.Objects.{named};

use oper_core::{Bounds, Memory, Objs, Refusal, Values};
use std::alloc::Global;

/// In a store whose objects hold fewer bytes, operations on nodes and buckets are refused.
pub const LEAST_CAP: u32 = 1024;

/// Three objects, in this order.
pub fn three(first: u32, second: u32, third: u32) -> Objs
    ensures { result ≡ first ∷ second ∷ third ∷ [] }
{
    let mut objects = Objs::one(first);
    objects.push(second);
    objects.push(third);
    objects
}

/// That two objects are there, and are not one.
pub fn require_two(b: Bounds, first: u32, second: u32) -> Result<(), Refusal>
    ensures { result_err result ≡ named b.objects (first ∷ second ∷ []) true }
{
    if first >= b.objects || second >= b.objects {
        return Err(Refusal::NoObject);
    }
    if first == second {
        return Err(Refusal::Same);
    }
    Ok(())
}

/// That three objects are there, and none is another.
pub fn require_three(b: Bounds, first: u32, second: u32, third: u32) -> Result<(), Refusal>
    ensures { result_err result ≡ named b.objects (first ∷ second ∷ third ∷ []) true }
{
    if first >= b.objects || second >= b.objects || third >= b.objects {
        return Err(Refusal::NoObject);
    }
    if first == second || first == third || second == third {
        return Err(Refusal::Same);
    }
    Ok(())
}

/// An empty value for each object.
pub fn no_values(alloc: Global, objects: &[u32]) -> Result<Values, Memory>
    requires { length objects.now ≤ 4 }
    ensures { IfOk result (λ values. values ≡ map (λ x. []) objects.now) }
{
    let mut values = Values::new(alloc);
    for _object in objects {
        values.push(&[])?;
    }
    Ok(values)
}
