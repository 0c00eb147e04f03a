ghost use Rattle.std.specs.Prelude.{◌≡◌, false, IfOk, List};
ghost use Rattle.std.specs.Result.{result_err};
ghost use Rattle.formats.specs.declared.params.Params.{Params};
ghost use Rattle.op_codec.specs.AllOps.{AllOps as Command, all_meaning};
ghost use Rattle.store_engine.specs.Lists.{AreCalls, ending_of};
ghost use Rattle.store_engine.specs.Commands.{HasRun};
ghost use Rattle.store_calls.specs.Making.{Calls};
ghost use Rattle.app_steps.specs.Programs.{RunsOn};
ghost use Rattle.app_steps.specs.Steps.{HasAnswer, program_drain, program_feed, program_step, steps};

use crate::steps::{self, Steps};
use app_program::ProgramOp;
use disk_model::Machine;
use op_codec::{AllOps, program_op};
use store_calls::Store;
use store_engine::{Engine, ExecErr};

/// An interpreted application: the object that holds its state, and the one that holds its program.
#[derive(Clone, Copy)]
pub struct ProgApp {
    pub app: u32,
    pub program: u32,
}

impl Steps for ProgApp {
    ghost use Rattle.app_steps.specs.Steps.{program_step};

    ghost command = { λ s. program_step s.app s.program };

    fn next(&self) -> AllOps {
        program_op(ProgramOp::Step {
            app: self.app,
            program: self.program,
        })
    }
}

impl ProgApp {
    /// The application whose state is the value of the first object, and whose program that of the second.
    pub fn new(app: u32, program: u32) -> Self
        ensures app { result.app ≡ app }
        ensures program { result.program ≡ program }
    {
        ProgApp { app, program }
    }

    /// Adds the value of an object to the application's input. It answers as `Engine::exec` does.
    pub fn feed<M: Machine>(
        &self,
        engine: &mut Engine<AllOps>,
        machine: &mut M,
        from: u32,
    ) -> Result<u64, ExecErr>
        requires unbroken { engine.old.broken ≡ false }
        ensures run { HasRun all_meaning (M.disk machine.old) (M.disk machine.new) engine.old engine.new (program_feed self.now.app from) result }
        ensures calls { AreCalls all_meaning (M.disk machine.old) (M.disk machine.new) engine.old engine.new (result_err result) }
    {
        engine.exec(
            machine,
            program_op(ProgramOp::Feed {
                app: self.app,
                from,
            }),
        )
    }

    /// Does one instruction of the program. It answers as `Engine::exec` does.
    pub fn step<M: Machine>(
        &self,
        engine: &mut Engine<AllOps>,
        machine: &mut M,
    ) -> Result<u64, ExecErr>
        requires unbroken { engine.old.broken ≡ false }
        ensures run { HasRun all_meaning (M.disk machine.old) (M.disk machine.new) engine.old engine.new (program_step self.now.app self.now.program) result }
        ensures calls { AreCalls all_meaning (M.disk machine.old) (M.disk machine.new) engine.old engine.new (result_err result) }
    {
        steps::step(self, engine, machine)
    }

    /// Makes the application's output the value of an object. It answers as `Engine::exec` does.
    pub fn drain_to<M: Machine>(
        &self,
        engine: &mut Engine<AllOps>,
        machine: &mut M,
        to: u32,
    ) -> Result<u64, ExecErr>
        requires unbroken { engine.old.broken ≡ false }
        ensures run { HasRun all_meaning (M.disk machine.old) (M.disk machine.new) engine.old engine.new (program_drain self.now.app to) result }
        ensures calls { AreCalls all_meaning (M.disk machine.old) (M.disk machine.new) engine.old engine.new (result_err result) }
    {
        engine.exec(machine, program_op(ProgramOp::Drain { app: self.app, to }))
    }

    /// Does steps until `most` are done or one is refused. It answers how many were done.
    ///
    /// Where the first is refused for another reason than `Halted`, `NoInput` or `TooLarge`, and `most` is not 0, it answers
    /// that. Where a step is stopped or fails it answers as `exec` of the store does, and the steps before it stay.
    pub fn run<S: Store<AllOps>, M: Machine>(
        &self,
        store: &mut S,
        machine: &mut M,
        most: u64,
    ) -> Result<u64, ExecErr>
        requires unbroken { S.view.unbroken store.old }
        ensures calls { Calls S.view (M.disk machine.old) (M.disk machine.new) store.old store.new (result_err result) }
        ensures adds { (p : Params) (commands : List Command) → S.view.holds p (M.disk machine.old) store.old commands →
            S.view.adds p (M.disk machine.old) (M.disk machine.new) store.old store.new commands (steps p commands (program_step self.now.app self.now.program) most) (ending_of (result_err result)) }
        ensures answer { (p : Params) (commands : List Command) → S.view.holds p (M.disk machine.old) store.old commands →
            HasAnswer p commands (program_step self.now.app self.now.program) most result }
        // So a run goes on with what the program does on all that was fed.
        ensures machine { (p : Params) (commands : List Command) → S.view.holds p (M.disk machine.old) store.old commands →
            IfOk result (λ k. RunsOn p self.now.app self.now.program commands k) }
    {
        steps::run(self, store, machine, most)
    }
}
