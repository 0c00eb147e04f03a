// Runs of applications within a transaction.
ghost use Rattle.std.specs.Prelude.{IfOk};
ghost use Rattle.std.specs.Result.{result_err};
ghost use Rattle.app_steps.specs.Programs.{RunsOn};
ghost use Rattle.app_steps.specs.Steps.{HasAnswer, program_step, step_of, steps};
ghost use Rattle.embed.specs.Within.{IsCallWithin};

use crate::Store;
use app_steps::{App, ProgApp};
use disk_model::Machine;
use op_codec::AllOps;
use store_engine::ExecErr;
use transactions::{Transaction, Within};

impl<M: Machine + Drop> Store<M> {
    /// Stages steps of an application until `most` are staged or one is refused, as `App::run` makes them.
    pub fn app_run_within(
        &mut self,
        transaction: &mut Transaction<AllOps>,
        app: &App,
        most: u64,
    ) -> Result<u64, ExecErr>
        ensures { IsCallWithin M.disk self.old self.new transaction.old transaction.new
            (λ p commands. steps p commands (step_of app.now.app) most)
            (λ p commands. HasAnswer p commands (step_of app.now.app) most result)
            ExecErr.DiskFault (result_err result) result }
    {
        if self.is_broken() {
            return Err(ExecErr::DiskFault);
        }
        let mut within = Within {
            engine: &mut self.engine,
            transaction,
        };
        app.run(&mut within, &mut self.machine, most)
    }

    /// Stages steps of an interpreted application until `most` are staged or one is refused, as `ProgApp::run` makes them.
    pub fn program_run_within(
        &mut self,
        transaction: &mut Transaction<AllOps>,
        app: &ProgApp,
        most: u64,
    ) -> Result<u64, ExecErr>
        ensures { IsCallWithin M.disk self.old self.new transaction.old transaction.new
            (λ p commands. steps p commands (program_step app.now.app app.now.program) most)
            (λ p commands. HasAnswer p commands (program_step app.now.app app.now.program) most result
            × IfOk result (λ k. RunsOn p app.now.app app.now.program commands k))
            ExecErr.DiskFault (result_err result) result }
    {
        if self.is_broken() {
            return Err(ExecErr::DiskFault);
        }
        let mut within = Within {
            engine: &mut self.engine,
            transaction,
        };
        app.run(&mut within, &mut self.machine, most)
    }
}
