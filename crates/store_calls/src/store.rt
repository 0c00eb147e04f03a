// What calls on a store are made of.
ghost use Rattle.std.specs.Prelude.{◌≡◌, ◌≤◌, List, [], true, length, nat_lt, None, IfOk};
ghost use Rattle.std.specs.Result.{result_err};
ghost use Rattle.formats.specs.Objects.{IsInRange};
ghost use Rattle.formats.specs.declared.params.Params.{Params as Numbers};
ghost use Rattle.running_store.specs.Laid.Lengths.{IsNextEmpty};
ghost use Rattle.running_store.specs.Taking.Ending.{Done};
ghost use Rattle.store_engine.specs.Lists.{as_exec};
ghost use Rattle.store_engine.specs.Store.{state_of};
ghost use Rattle.store_calls.specs.Laws.{GoOn};
ghost use Rattle.store_calls.specs.Making.{Calls, Reads, Runs};
ghost use Rattle.store_calls.specs.View.{View};

use disk_model::Machine;
use formats::{Params, ReadErr};
use oper_core::Oper;
use store_engine::ExecErr;

/// A store with these operations, on which calls fetch objects and run commands. The machine is passed to each call.
pub trait Store<O: Oper> {
    /// What contracts know of it.
    ghost view: { View O Self };

    /// How many objects it has, how many bytes each may hold, and how long its log may be.
    fn params(&self) -> Params
        ensures value { result ≡ view.params self.now }
        ensures range { IsInRange (view.params self.now) };

    /// Runs a command. It answers `Refused` where it is refused. Where it answers an error nothing is added.
    fn exec<M: Machine>(&mut self, machine: &mut M, op: O) -> Result<(), ExecErr>
        requires unbroken { view.unbroken self.old }
        ensures { Runs view (M.disk machine.old) (M.disk machine.new) self.old self.new O.meaning op (result_err result) };

    /// Sees that an object's value is in memory, so that `get` reports it. It answers whether there is such an object.
    fn fetch<M: Machine>(&mut self, machine: &mut M, object: u32) -> Result<bool, ReadErr>
        requires unbroken { view.unbroken self.old }
        ensures reads { Reads view (M.disk machine.old) (M.disk machine.new) self.old self.new (as_exec (result_err result)) }
        ensures there { IfOk result (λ there. there ≡ nat_lt object (view.params self.old).objects) }
        ensures cached { IfOk result (λ there. there ≡ true → view.cached self.new object) }
        ensures value { (p : Numbers) (commands : List O) → view.holds p (M.disk machine.old) self.old commands →
            IfOk result (λ there. there ≡ true → view.value self.new object ≡ state_of O.meaning p commands object) }
        ensures known { view.cached self.old object → machine.new ≡ machine.old };

    /// The value of an object that was fetched and is still in memory.
    fn get(&self, object: u32) -> &[u8]
        requires { view.cached self.now object }
        ensures value { result.now ≡ view.value self.now object }
        ensures short { length result.now ≤ (view.params self.now).cap };

    /// The least object at or above a number whose value is empty; none exactly where there is none. No device call is made.
    fn next_empty<M: Machine>(&self, machine: &M, from: u32) -> Option<u32>
        ensures { (p : Numbers) (commands : List O) → view.holds p (M.disk machine.now) self.now commands →
            IsNextEmpty p.objects (λ x. length (state_of O.meaning p commands x)) from result };

    /// Before the first call no command is added, and no call was made.
    fn nothing_is_made<M: Machine>(&self, machine: &M)
        ensures front { (p : Numbers) (commands : List O) → view.holds p (M.disk machine.now) self.now commands →
            view.adds p (M.disk machine.now) (M.disk machine.now) self.now self.now commands [] Done }
        ensures calls { view.unbroken self.now → Calls view (M.disk machine.now) (M.disk machine.now) self.now self.now None };

    /// How calls go on over further ones.
    fn calls_go_on<M: Machine>()
        ensures { GoOn view M.disk };
}
