// What holds of every operation type.
ghost use Rattle.std.specs.Prelude.{◌≡◌, ◌≤◌, ℕ, length};
ghost use Rattle.oper_core.specs.State.{State};
ghost use Rattle.oper_core.specs.Meaning.{AreWithin, Accepts, after};
ghost use Rattle.oper_core.specs.declared.bounds.Bounds.{Bounds};

use crate::Oper;

/// A command that is accepted on a state under some bounds is accepted on it under wider ones, and leads to the same
/// state.
pub fn wider_bounds_keep_commands<O: Oper>()
    ensures accepted { (b c : Bounds) (s : State) (op : O) → AreWithin b c → ((x : ℕ) → length (s x) ≤ b.cap) →
        Accepts (O.meaning b) s op → Accepts (O.meaning c) s op }
    ensures after { (b c : Bounds) (s : State) (op : O) → AreWithin b c → ((x : ℕ) → length (s x) ≤ b.cap) →
        Accepts (O.meaning b) s op → after (O.meaning c) s op ≡ after (O.meaning b) s op }
{}
