// Applications whose state is an object's value.
ghost use Rattle.std.specs.Prelude.{◌≡◌, true, false, IfOk, List};
ghost use Rattle.std.specs.Result.{result_err};
ghost use Rattle.disk_model.specs.Disk.{Passes};
ghost use Rattle.formats.specs.declared.params.Params.{Params};
ghost use Rattle.op_codec.specs.AllOps.{AllOps as Command, all_meaning};
ghost use Rattle.store_engine.specs.Commands.{HasRun};
ghost use Rattle.store_engine.specs.Engine.{Holds};
ghost use Rattle.store_engine.specs.Lists.{AddsFront, AreCalls, ending_of};
ghost use Rattle.app_steps.specs.Programs.{RunsOn, RunsOnBytes};
ghost use Rattle.app_steps.specs.Steps.{HasAnswer, drain_of, feed_of, program_drain as drain_program, program_feed as feed_program, program_step, step_of, steps};
ghost use Rattle.embed.specs.Embedded.{IsStillBroken};

use crate::Store;
use app_steps::{App, ProgApp, runs_ask_for_bytes};
use disk_model::Machine;
use store_engine::ExecErr;

impl<M: Machine + Drop> Store<M> {
    /// Adds the value of an object to an application's input, as `App::feed`.
    pub fn app_feed(&mut self, app: &App, from: u32) -> Result<u64, ExecErr>
        ensures time { Passes (M.disk self.old.machine) (M.disk self.new.machine) }
        ensures run { self.old.engine.broken ≡ false → HasRun all_meaning (M.disk self.old.machine) (M.disk self.new.machine) self.old.engine self.new.engine (feed_of app.now.app from) result }
        ensures calls { self.old.engine.broken ≡ false → AreCalls all_meaning (M.disk self.old.machine) (M.disk self.new.machine) self.old.engine self.new.engine (result_err result) }
        ensures broken { self.old.engine.broken ≡ true → IsStillBroken ExecErr.DiskFault self.old self.new result }
    {
        if self.is_broken() {
            return Err(ExecErr::DiskFault);
        }
        app.feed(&mut self.engine, &mut self.machine, from)
    }

    /// Makes an application's output the value of an object, as `App::drain_to`.
    pub fn app_drain(&mut self, app: &App, to: u32) -> Result<u64, ExecErr>
        ensures time { Passes (M.disk self.old.machine) (M.disk self.new.machine) }
        ensures run { self.old.engine.broken ≡ false → HasRun all_meaning (M.disk self.old.machine) (M.disk self.new.machine) self.old.engine self.new.engine (drain_of app.now.app to) result }
        ensures calls { self.old.engine.broken ≡ false → AreCalls all_meaning (M.disk self.old.machine) (M.disk self.new.machine) self.old.engine self.new.engine (result_err result) }
        ensures broken { self.old.engine.broken ≡ true → IsStillBroken ExecErr.DiskFault self.old self.new result }
    {
        if self.is_broken() {
            return Err(ExecErr::DiskFault);
        }
        app.drain_to(&mut self.engine, &mut self.machine, to)
    }

    /// Does steps of an application until `most` are done or one is refused, as `App::run`.
    pub fn app_run(&mut self, app: &App, most: u64) -> Result<u64, ExecErr>
        ensures time { Passes (M.disk self.old.machine) (M.disk self.new.machine) }
        ensures calls { self.old.engine.broken ≡ false → AreCalls all_meaning (M.disk self.old.machine) (M.disk self.new.machine) self.old.engine self.new.engine (result_err result) }
        ensures adds { (p : Params) (commands : List Command) → (holds : Holds all_meaning p (M.disk self.old.machine) self.old.engine commands) →
            AddsFront all_meaning p (M.disk self.old.machine) (M.disk self.new.machine) self.old.engine self.new.engine holds.world commands (steps p commands (step_of app.now.app) most) (ending_of (result_err result)) }
        ensures answer { (p : Params) (commands : List Command) → Holds all_meaning p (M.disk self.old.machine) self.old.engine commands →
            HasAnswer p commands (step_of app.now.app) most result }
        ensures broken { self.old.engine.broken ≡ true → IsStillBroken ExecErr.DiskFault self.old self.new result }
    {
        if self.is_broken() {
            return Err(ExecErr::DiskFault);
        }
        app.run(&mut self.engine, &mut self.machine, most)
    }

    /// Adds the value of an object to the input of an interpreted application, as `ProgApp::feed`.
    pub fn program_feed(&mut self, app: &ProgApp, from: u32) -> Result<u64, ExecErr>
        ensures time { Passes (M.disk self.old.machine) (M.disk self.new.machine) }
        ensures run { self.old.engine.broken ≡ false → HasRun all_meaning (M.disk self.old.machine) (M.disk self.new.machine) self.old.engine self.new.engine (feed_program app.now.app from) result }
        ensures calls { self.old.engine.broken ≡ false → AreCalls all_meaning (M.disk self.old.machine) (M.disk self.new.machine) self.old.engine self.new.engine (result_err result) }
        ensures broken { self.old.engine.broken ≡ true → IsStillBroken ExecErr.DiskFault self.old self.new result }
    {
        if self.is_broken() {
            return Err(ExecErr::DiskFault);
        }
        app.feed(&mut self.engine, &mut self.machine, from)
    }

    /// Makes the output of an interpreted application the value of an object, as `ProgApp::drain_to`.
    pub fn program_drain(&mut self, app: &ProgApp, to: u32) -> Result<u64, ExecErr>
        ensures time { Passes (M.disk self.old.machine) (M.disk self.new.machine) }
        ensures run { self.old.engine.broken ≡ false → HasRun all_meaning (M.disk self.old.machine) (M.disk self.new.machine) self.old.engine self.new.engine (drain_program app.now.app to) result }
        ensures calls { self.old.engine.broken ≡ false → AreCalls all_meaning (M.disk self.old.machine) (M.disk self.new.machine) self.old.engine self.new.engine (result_err result) }
        ensures broken { self.old.engine.broken ≡ true → IsStillBroken ExecErr.DiskFault self.old self.new result }
    {
        if self.is_broken() {
            return Err(ExecErr::DiskFault);
        }
        app.drain_to(&mut self.engine, &mut self.machine, to)
    }

    /// Does steps of an interpreted application until `most` are done or one is refused, as `ProgApp::run`.
    pub fn program_run(&mut self, app: &ProgApp, most: u64) -> Result<u64, ExecErr>
        ensures time { Passes (M.disk self.old.machine) (M.disk self.new.machine) }
        ensures calls { self.old.engine.broken ≡ false → AreCalls all_meaning (M.disk self.old.machine) (M.disk self.new.machine) self.old.engine self.new.engine (result_err result) }
        ensures adds { (p : Params) (commands : List Command) → (holds : Holds all_meaning p (M.disk self.old.machine) self.old.engine commands) →
            AddsFront all_meaning p (M.disk self.old.machine) (M.disk self.new.machine) self.old.engine self.new.engine holds.world commands (steps p commands (program_step app.now.app app.now.program) most) (ending_of (result_err result)) }
        ensures answer { (p : Params) (commands : List Command) → Holds all_meaning p (M.disk self.old.machine) self.old.engine commands →
            HasAnswer p commands (program_step app.now.app app.now.program) most result }
        ensures machine { (p : Params) (commands : List Command) → Holds all_meaning p (M.disk self.old.machine) self.old.engine commands →
            IfOk result (λ k. RunsOn p app.now.app app.now.program commands k) }
        ensures of_bytes { (p : Params) (commands : List Command) → Holds all_meaning p (M.disk self.old.machine) self.old.engine commands →
            IfOk result (λ k. RunsOnBytes p app.now.app app.now.program commands k) }
        ensures broken { self.old.engine.broken ≡ true → IsStillBroken ExecErr.DiskFault self.old self.new result }
    {
        if self.is_broken() {
            return Err(ExecErr::DiskFault);
        }
        runs_ask_for_bytes(&self.machine, &self.engine);
        app.run(&mut self.engine, &mut self.machine, most)
    }
}
