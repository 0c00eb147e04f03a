// What a loop keeps that runs commands and fetches objects, and what it has at its exits.
ghost use Rattle.std.specs.Prelude.{◌≡◌, ℕ, false, [], List, None};
ghost use Rattle.oper_core.specs.declared.bounds.Bounds.{Bounds};
ghost use Rattle.formats.specs.declared.params.Params.{Params};
ghost use Rattle.explain_core.specs.World.{World};
ghost use Rattle.cache_manager.specs.InstallCourses.{logged_in};
ghost use Rattle.running_store.specs.Taking.Ending.{Done};
ghost use Rattle.store_engine.specs.Engine.{Holds};
ghost use Rattle.store_engine.specs.Lists.{AddsFront, AreCalls, commands_course};
ghost use Rattle.store_engine.specs.ListSteps.{AddsBehind, CallsBehind, ExecDone, ExecFailed, ExecRefused, ExecStopped, FetchDone, FetchFailed, RunsShort};

use crate::Engine;
use crate::engine_laws::engine_stands;
use disk_model::Machine;
use oper_core::Oper;

/// Before the first call no command is added, and no call was made.
pub fn nothing_is_made<O: Oper, M: Machine>(machine: &M, engine: &Engine<O>)
    ensures front { (p : Params) (commands : List O) → (holds : Holds O.meaning p (M.disk machine.now) engine.now commands) →
        AddsFront O.meaning p (M.disk machine.now) (M.disk machine.now) engine.now engine.now holds.world commands [] Done }
    ensures calls { engine.now.broken ≡ false → AreCalls O.meaning (M.disk machine.now) (M.disk machine.now) engine.now engine.now None }
{
    engine_stands(machine, engine);
}

/// A command after others: one more is done, or it is refused and nothing is added, or the log stops it, whatever would have
/// come after it, or memory or the disk ends it there, where it comes next or is refused.
pub fn exec_goes_on<O: Oper, M: Machine>()
    ensures done { ExecDone O.meaning M.disk }
    ensures refused { ExecRefused O.meaning M.disk }
    ensures stopped { ExecStopped O.meaning M.disk }
    ensures failed { ExecFailed O.meaning M.disk }
{
    explain_core::live_cache_is_the_map::<O>();
}

/// An object is fetched after commands, or there is none, and nothing is added; or the fetch fails, or memory runs out in
/// between, whatever was to come.
pub fn fetch_goes_on<O: Oper, M: Machine>()
    ensures done { FetchDone O.meaning M.disk }
    ensures failed { FetchFailed O.meaning M.disk }
    ensures memory { RunsShort O.meaning M.disk }
{}

/// Calls that add commands, after others.
pub fn fronts_are_joined<O: Oper, M: Machine>()
    ensures { AddsBehind O.meaning M.disk }
{}

/// What holds of calls on every machine holds of calls after others.
pub fn calls_go_on<O: Oper, M: Machine>()
    ensures { CallsBehind O.meaning M.disk }
{}

/// The course of commands logs no identity write.
pub fn commands_log_no_identity<O: Oper>()
    ensures { (b : Bounds) (limit : ℕ) (ops : List O) (w : World O) (used : ℕ) → logged_in (commands_course (O.meaning b) limit ops w used).steps ≡ [] }
{}
