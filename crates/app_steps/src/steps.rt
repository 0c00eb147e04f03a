// A run: the same step again and again.
ghost use Rattle.std.specs.Prelude.{◌≡◌, false, List};
ghost use Rattle.std.specs.Result.{result_err};
ghost use Rattle.formats.specs.declared.params.Params.{Params};
ghost use Rattle.op_codec.specs.AllOps.{AllOps as Command, all_meaning};
ghost use Rattle.store_engine.specs.Lists.{AreCalls, ending_of};
ghost use Rattle.store_engine.specs.Commands.{HasRun};
ghost use Rattle.store_calls.specs.Making.{Calls};
ghost use Rattle.app_steps.specs.Steps.{EndsSo, HasAnswer, ends_a_run, steps};

use disk_model::Machine;
use op_codec::AllOps;
use oper_core::Refusal;
use store_calls::Store;
use store_engine::{Engine, ExecErr};

/// What takes steps, each of which is the same command.
pub(crate) trait Steps {
    /// The command.
    ghost command: { Self → Command };

    /// The command, made anew.
    fn next(&self) -> AllOps
        ensures { result ≡ command self.now };
}

// Whether a step that is refused so ends a run, also where it is the first.
fn is_an_end(refusal: Refusal) -> bool
    ensures { result ≡ ends_a_run refusal }
{
    matches!(
        refusal,
        Refusal::Halted | Refusal::NoInput | Refusal::TooLarge
    )
}

// What a run answers that has done some steps, and whose next one is not done.
fn ended(done: u64, e: ExecErr) -> Result<u64, ExecErr>
    ensures { EndsSo done e result }
{
    match e {
        ExecErr::Refused(refusal) if done != 0 || is_an_end(refusal) => Ok(done),
        e => Err(e),
    }
}

/// Does one step. It answers as `exec` of the store does.
pub(crate) fn step<A: Steps, M: Machine>(
    app: &A,
    engine: &mut Engine<AllOps>,
    machine: &mut M,
) -> Result<u64, ExecErr>
    requires unbroken { engine.old.broken ≡ false }
    ensures run { HasRun all_meaning (M.disk machine.old) (M.disk machine.new) engine.old engine.new (A.command app.now) result }
    ensures calls { AreCalls all_meaning (M.disk machine.old) (M.disk machine.new) engine.old engine.new (result_err result) }
{
    engine.exec(machine, app.next())
}

/// Does steps until `most` are done or one is refused, and answers how many were done, or why none was, as `ended` says.
pub(crate) fn run<A: Steps, S: Store<AllOps>, M: Machine>(
    app: &A,
    store: &mut S,
    machine: &mut M,
    most: u64,
) -> Result<u64, ExecErr>
    requires unbroken { S.view.unbroken store.old }
    ensures calls { Calls S.view (M.disk machine.old) (M.disk machine.new) store.old store.new (result_err result) }
    ensures adds { (p : Params) (commands : List Command) → S.view.holds p (M.disk machine.old) store.old commands →
        S.view.adds p (M.disk machine.old) (M.disk machine.new) store.old store.new commands (steps p commands (A.command app.now) most) (ending_of (result_err result)) }
    ensures answer { (p : Params) (commands : List Command) → S.view.holds p (M.disk machine.old) store.old commands →
        HasAnswer p commands (A.command app.now) most result }
{
    S::calls_go_on::<M>();
    store.nothing_is_made(machine);
    for done in 0..most {
        if let Err(e) = store.exec(machine, app.next()) {
            return ended(done, e);
        }
    }
    Ok(most)
}
