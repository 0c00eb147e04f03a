// Which objects are empty, as far as memory tells.
ghost use Rattle.std.specs.Prelude.{◌≡◌, ◌==◌, ◌<◌, ℕ, List, Option, length};
ghost use Rattle.formats.specs.declared.params.Params.{Params};
ghost use Rattle.running_store.specs.Laid.Lengths.{IsNextEmpty, length_at};
ghost use Rattle.store_engine.specs.Engine.{Holds, params_of};
ghost use Rattle.store_engine.specs.Store.{state_of};

use crate::Engine;
use disk_model::Machine;
use oper_core::Oper;

impl<O: Oper> Engine<O> {
    /// Whether an object's value is empty. The lengths of all values are known, so no device call is made.
    pub fn is_empty(&self, object: u32) -> bool
        requires { object < (params_of self.now).objects }
        ensures { result ≡ (length_at self.now.parts.volatile.objects object == 0) }
    {
        self.store.is_empty(object)
    }

    /// The least object at or above a number whose value is empty; none exactly where there is none. No device call is made.
    pub fn next_empty(&self, from: u32) -> Option<u32>
        ensures { IsNextEmpty (params_of self.now).objects (length_at self.now.parts.volatile.objects) from result }
    {
        self.store.next_empty(from)
    }
}

/// The lengths that an engine knows without a read are those of the values that engine and files stand for. So the next
/// empty object is that of these values.
pub fn lengths_are_told<O: Oper, M: Machine>(machine: &M, engine: &Engine<O>)
    ensures lengths { (p : Params) (commands : List O) → Holds O.meaning p (M.disk machine.now) engine.now commands → (x : ℕ) → x < p.objects →
        length_at engine.now.parts.volatile.objects x ≡ length (state_of O.meaning p commands x) }
    ensures next { (p : Params) (commands : List O) → Holds O.meaning p (M.disk machine.now) engine.now commands → (from : ℕ) (found : Option ℕ) →
        IsNextEmpty (params_of engine.now).objects (length_at engine.now.parts.volatile.objects) from found →
        IsNextEmpty p.objects (λ x. length (state_of O.meaning p commands x)) from found }
{
    explain_core::live_cache_is_the_map::<O>();
}
