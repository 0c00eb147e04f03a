// What many steps make of an application, and when one is refused.
ghost use Rattle.std.specs.Prelude.{◌≡◌, ◌<◌, ◌≤◌, ◌^◌, ◌++◌, ◌⊎◌, ℕ, [], List, Some, length, min, replicate};
ghost use Rattle.disk_model.specs.Disk.{Files};
ghost use Rattle.oper_core.specs.Meaning.{IsSmall, state_after};
ghost use Rattle.oper_core.specs.declared.bounds.Bounds.{Bounds};
ghost use Rattle.oper_core.specs.declared.refusal.Refusal.{Refusal};
ghost use Rattle.oper_core.specs.declared.refusal.Refusal.TheVariants.{NoObject, NotApp, NoInput};
ghost use Rattle.formats.specs.Objects.{IsInRange};
ghost use Rattle.formats.specs.declared.params.Params.{Params};
ghost use Rattle.op_meaning.specs.AppState.{Application, state_in};
ghost use Rattle.op_codec.specs.AllOps.{AllOps as Command, all_meaning};
ghost use Rattle.app_program.specs.State.{HasDone};
ghost use Rattle.explain_core.specs.History.{IsHistory, Member, commands_of};
ghost use Rattle.store_engine.specs.Engine.{Holds};
ghost use Rattle.store_engine.specs.Store.{Stands, refusal_after, state_of};
ghost use Rattle.app_steps.specs.Programs.{AreOfBytes, AreOfProgram, HasOnlyThese, IsValue, RunsOn, RunsOnBytes, fed_to, steps_done};
ghost use Rattle.app_steps.specs.Runs.{IsRunnable, after_steps, has_read};
ghost use Rattle.app_steps.specs.Steps.{step_of, steps_accepted};

use disk_model::Machine;
use op_codec::AllOps;
use oper_core::Oper;
use store_engine::Engine;

/// So many steps read as many bytes of the input: the number of steps grows by so many modulo 2^64, and sum and output are
/// those that these bytes give, one after the other. It is so on the map too; there as many steps are accepted as there are
/// bytes of input, and at most so many as are asked for.
pub fn a_run_reads_the_input()
    ensures steps { (k : ℕ) (s : Application) → s.steps < 2 ^ 64 → k ≤ length s.input → after_steps k s ≡ has_read k s }
    ensures state { (p : Params) (commands : List Command) (app k : ℕ) (s : Application) → app < p.objects → IsRunnable s →
        state_in (state_of all_meaning p commands app) ≡ Some s → k ≤ length s.input →
        state_in (state_of all_meaning p (commands ++ replicate k (step_of app)) app) ≡ Some (has_read k s) }
    ensures accepted { (p : Params) (commands : List Command) (app n : ℕ) (s : Application) → app < p.objects → IsRunnable s →
        state_in (state_of all_meaning p commands app) ≡ Some s → steps_accepted p commands (step_of app) n ≡ min n (length s.input) }
{}

/// A step of an application is refused for these reasons and no others, so a run of it ends early only for lack of input.
pub fn why_a_step_is_refused()
    ensures { (p : Params) (commands : List Command) (app : ℕ) (refusal : Refusal) → refusal_after all_meaning p commands (step_of app) ≡ Some refusal →
        (refusal ≡ NoObject) ⊎ ((refusal ≡ NotApp) ⊎ (refusal ≡ NoInput)) }
{}

/// An interpreted application whose object was empty, and was then written only by accepted feeds and by accepted steps of one
/// program, has done so many steps of the program on all that it was fed, in whatever order they came, and whatever became of
/// the other objects in between. The program may have been in one object or in another, if only its bytes were these.
pub fn a_program_runs_on_all_that_is_fed()
    ensures { (p : Params) (before commands : List Command) (app : ℕ) (code : List ℕ) → IsInRange p → IsValue p code →
        state_of all_meaning p before app ≡ [] → AreOfProgram p app code before commands →
        HasDone code (fed_to p app before commands) (steps_done p app before commands) (state_of all_meaning p (before ++ commands) app) }
{}

// After some first commands of a history no value is too long.
fn values_fit<O: Oper>()
    ensures { (b : Bounds) (h : List (Member O)) (before since : List O) → IsSmall b → IsHistory (O.meaning b) h → commands_of h ≡ before ++ since →
        (x : ℕ) → length (state_after (O.meaning b) before x) ≤ b.cap }
{}

/// The values of a store, and those that it had after some first commands, are lists of at most CAP bytes, where the commands
/// consist of bytes, as all do that a program has ([`known_as_bytes`](crate::known_as_bytes)). So what a run asks of the commands
/// before it is given at each engine that stands for them.
pub fn values_are_bytes<M: Machine>(machine: &M, engine: &Engine<AllOps>)
    ensures range { (p : Params) (commands : List Command) → Holds all_meaning p (M.disk machine.now) engine.now commands → IsInRange p }
    ensures values { (p : Params) (commands before since : List Command) → Holds all_meaning p (M.disk machine.now) engine.now commands →
        commands ≡ before ++ since → AreOfBytes p before → (x : ℕ) → IsValue p (state_of all_meaning p before x) }
    ensures given { (p : Params) (commands before since : List Command) (app : ℕ) (code : List ℕ) → Holds all_meaning p (M.disk machine.now) engine.now commands →
        commands ≡ before ++ since → AreOfBytes p commands → HasOnlyThese p app code before since → AreOfProgram p app code before since }
{
    values_fit::<AllOps>();
    let _ = machine;
    let _ = engine.params();
}

/// So a run that goes on with what the program does on all that was fed asks no more of the commands before it than that they
/// consist of bytes.
pub fn runs_ask_for_bytes<M: Machine>(machine: &M, engine: &Engine<AllOps>)
    ensures { (p : Params) (commands : List Command) (app program k : ℕ) → Holds all_meaning p (M.disk machine.now) engine.now commands →
        RunsOn p app program commands k → RunsOnBytes p app program commands k }
{
    values_are_bytes(machine, engine);
}

/// The values of files that stand for commands, such as a crash leaves, are such lists, too.
pub fn stored_values_are_bytes()
    ensures { (p : Params) (files : Files) (commands before since : List Command) → Stands all_meaning p files commands →
        commands ≡ before ++ since → AreOfBytes p before → (x : ℕ) → IsValue p (state_of all_meaning p before x) }
{
    values_fit::<AllOps>();
}
