ghost use Rattle.std.specs.Prelude.{◌≡◌, false, List};
ghost use Rattle.std.specs.Result.{result_err};
ghost use Rattle.formats.specs.declared.params.Params.{Params};
ghost use Rattle.op_codec.specs.AllOps.{AllOps as Command, all_meaning};
ghost use Rattle.store_engine.specs.Lists.{AreCalls, ending_of};
ghost use Rattle.store_engine.specs.Commands.{HasRun};
ghost use Rattle.store_calls.specs.Making.{Calls};
ghost use Rattle.app_steps.specs.Steps.{HasAnswer, drain_of, feed_of, step_of, steps};

use crate::steps::{self, Steps};
use disk_model::Machine;
use op_codec::{AllOps, plain_op};
use op_meaning::PlainOp;
use store_calls::Store;
use store_engine::{Engine, ExecErr};

/// An application: the object that holds its state.
#[derive(Clone, Copy)]
pub struct App {
    pub app: u32,
}

impl Steps for App {
    ghost use Rattle.app_steps.specs.Steps.{step_of};

    ghost command = { λ s. step_of s.app };

    fn next(&self) -> AllOps {
        plain_op(PlainOp::Exec { app: self.app })
    }
}

impl App {
    /// The application whose state is the value of this object.
    pub fn new(app: u32) -> Self
        ensures { result.app ≡ app }
    {
        App { app }
    }

    /// Adds the value of an object to the application's input. It answers as `Engine::exec` does.
    pub fn feed<M: Machine>(
        &self,
        engine: &mut Engine<AllOps>,
        machine: &mut M,
        from: u32,
    ) -> Result<u64, ExecErr>
        requires unbroken { engine.old.broken ≡ false }
        ensures run { HasRun all_meaning (M.disk machine.old) (M.disk machine.new) engine.old engine.new (feed_of self.now.app from) result }
        ensures calls { AreCalls all_meaning (M.disk machine.old) (M.disk machine.new) engine.old engine.new (result_err result) }
    {
        engine.exec(
            machine,
            plain_op(PlainOp::AppRead {
                app: self.app,
                from,
            }),
        )
    }

    /// Does one step: the application takes the first byte of its input. It answers as `Engine::exec` does.
    pub fn step<M: Machine>(
        &self,
        engine: &mut Engine<AllOps>,
        machine: &mut M,
    ) -> Result<u64, ExecErr>
        requires unbroken { engine.old.broken ≡ false }
        ensures run { HasRun all_meaning (M.disk machine.old) (M.disk machine.new) engine.old engine.new (step_of self.now.app) result }
        ensures calls { AreCalls all_meaning (M.disk machine.old) (M.disk machine.new) engine.old engine.new (result_err result) }
    {
        steps::step(self, engine, machine)
    }

    /// Makes the application's output the value of an object. It answers as `Engine::exec` does.
    pub fn drain_to<M: Machine>(
        &self,
        engine: &mut Engine<AllOps>,
        machine: &mut M,
        to: u32,
    ) -> Result<u64, ExecErr>
        requires unbroken { engine.old.broken ≡ false }
        ensures run { HasRun all_meaning (M.disk machine.old) (M.disk machine.new) engine.old engine.new (drain_of self.now.app to) result }
        ensures calls { AreCalls all_meaning (M.disk machine.old) (M.disk machine.new) engine.old engine.new (result_err result) }
    {
        engine.exec(machine, plain_op(PlainOp::AppWrite { app: self.app, to }))
    }

    /// Does steps until `most` are done or one is refused. It answers how many were done.
    ///
    /// Where the first is refused for another reason than `NoInput`, and `most` is not 0, it answers that: `Refused` with
    /// `NoObject` or `NotApp`. Where a step is stopped or fails it answers as `exec` of the store does, and the steps before it
    /// stay.
    pub fn run<S: Store<AllOps>, M: Machine>(
        &self,
        store: &mut S,
        machine: &mut M,
        most: u64,
    ) -> Result<u64, ExecErr>
        requires unbroken { S.view.unbroken store.old }
        ensures calls { Calls S.view (M.disk machine.old) (M.disk machine.new) store.old store.new (result_err result) }
        ensures adds { (p : Params) (commands : List Command) → S.view.holds p (M.disk machine.old) store.old commands →
            S.view.adds p (M.disk machine.old) (M.disk machine.new) store.old store.new commands (steps p commands (step_of self.now.app) most) (ending_of (result_err result)) }
        ensures answer { (p : Params) (commands : List Command) → S.view.holds p (M.disk machine.old) store.old commands →
            HasAnswer p commands (step_of self.now.app) most result }
    {
        steps::run(self, store, machine, most)
    }
}
