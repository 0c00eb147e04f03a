// A script is run on a store.
ghost use Rattle.std.specs.Prelude.{◌≡◌, ◌≢◌, ◌^◌, ◌⊎◌, false, List, ℕ, None, length};
ghost use Rattle.disk_model.specs.Disk.{Rises, Passes};
ghost use Rattle.formats.specs.declared.params.Params.{Params};
ghost use Rattle.script_lines.specs.Grammar.{lines_of};
ghost use Rattle.script_lines.specs.Reading.{ReadsOn};
ghost use Rattle.store_engine.specs.Engine.{forced_in};
ghost use Rattle.shell_base.specs.Store.{IsAttached, Command, Holds};
ghost use Rattle.shell_base.specs.First.{stage_of};
ghost use Rattle.shell_base.specs.Judging.{CountsFaults};
ghost use Rattle.shell_base.specs.Status.{IsOfOpened, IsOfRun};
ghost use Rattle.script_run.specs.RunCalls.{IsRunCall};
ghost use Rattle.script_run.specs.Noted.{HasNoted, TakesInput, none_noted};
ghost use Rattle.script_run.specs.Run.{IsRun, IsComplete};
ghost use Rattle.script_run.specs.Saving.{IsBackedUp, IsBackupOfRun, IsBesideRun};

use crate::notes::Notes;
use crate::script::answer_script;
use crate::tending::Tending;
use disk_model::{Machine, Source};
use op_codec::AllOps;
use shell_base::{Budget, Status, Stop, end_damaged, open_store, status_after};
use std::alloc::Global;
use store_engine::{Engine, standing_files_meet_their_format};

/// Answers the lines of a script on an open store, of which no backup is made yet, notes them, and forces the log at its end.
/// Where a slot breaks its format it says a line.
fn run_open<M: Machine, T: Machine, S: Source>(
    alloc: Global,
    tending: Tending,
    engine: &mut Engine<AllOps>,
    machine: &mut M,
    backup: &mut T,
    input: &mut S,
    notes: &mut Notes,
) -> Status
    requires sound { engine.old.broken ≡ false }
    requires fresh { notes.old ≡ none_noted }
    ensures time { Passes (M.disk machine.old) (M.disk machine.new) }
    ensures beside { IsBesideRun (T.disk backup.old) (T.disk backup.new) result }
    ensures answers { (p : Params) (commands : List Command) → (holds : Holds p (M.disk machine.old) engine.old commands) → forced_in engine.old ≡ length commands → engine.old.group ≡ None → S.tells input.old →
        IsRun tending p (stage_of engine.old holds.world) (M.disk machine.old) (M.disk machine.new) commands (lines_of (S.left input.old)) result }
    ensures complete { (p : Params) (commands : List Command) → (holds : Holds p (M.disk machine.old) engine.old commands) → forced_in engine.old ≡ length commands → engine.old.group ≡ None → S.tells input.old →
        (result ≡ Status.Done) ⊎ (result ≡ Status.DoneWithRefusals) →
        IsComplete tending p (stage_of engine.old holds.world) (M.disk machine.old) (M.disk machine.new) commands (lines_of (S.left input.old)) result }
    ensures backup { (p : Params) (commands : List Command) → (holds : Holds p (M.disk machine.old) engine.old commands) → forced_in engine.old ≡ length commands → engine.old.group ≡ None → engine.old.copied ≡ None → S.tells input.old →
        IsBackedUp tending T.disk p (stage_of engine.old holds.world) commands (lines_of (S.left input.old)) (M.disk machine.old) (M.disk machine.new) backup.old backup.new }
    // Whatever a source that reports nothing gave, it is some script.
    ensures some { (script : List (List ℕ)) × ((p : Params) (commands : List Command) → (holds : Holds p (M.disk machine.old) engine.old commands) → forced_in engine.old ≡ length commands → engine.old.group ≡ None →
        IsRun tending p (stage_of engine.old holds.world) (M.disk machine.old) (M.disk machine.new) commands script result
        × ((result ≡ Status.Done) ⊎ (result ≡ Status.DoneWithRefusals) → IsComplete tending p (stage_of engine.old holds.world) (M.disk machine.old) (M.disk machine.new) commands script result))
        × ((p : Params) (commands : List Command) → (holds : Holds p (M.disk machine.old) engine.old commands) → forced_in engine.old ≡ length commands → engine.old.group ≡ None → engine.old.copied ≡ None →
        IsBackedUp tending T.disk p (stage_of engine.old holds.world) commands script (M.disk machine.old) (M.disk machine.new) backup.old backup.new) }
    ensures input { S.tells input.old → TakesInput (S.left input.old) (S.left input.new) notes.new result }
    // No slot of the files that were opened is damaged.
    ensures store { (M.disk machine.old).tells_files → IsAttached (M.disk machine.old) engine.old → (result ≢ Status.NotAStore) × (result ≢ Status.Damaged) }
    ensures status { IsOfRun result × IsOfOpened result }
    ensures faults { CountsFaults (M.disk machine.old) (M.disk machine.new) result }
    ensures read_fault { result ≡ Status.ReadFault → Rises (S.faults input.old) (S.faults input.new) }
    ensures too_long { S.tells input.old → result ≡ Status.TooLong → ReadsOn (S.left input.old) (S.left input.new) 0 (2 ^ 40) }
{
    let outcome = answer_script(alloc, tending, engine, machine, backup, input, notes);
    match outcome {
        Err(Stop::Damaged { file, place }) => end_damaged(alloc, machine, file, place),
        _ => status_after(outcome),
    }
}

/// Opens the store with this budget, answers the lines of a script, notes them, and forces the log at its end. Meanwhile the store
/// is tended so. Where there is no store to open it says a line.
pub fn run<M: Machine, T: Machine, S: Source>(
    alloc: Global,
    budget: Budget,
    tending: Tending,
    machine: &mut M,
    backup: &mut T,
    input: &mut S,
    notes: &mut Notes,
) -> Status
    requires { notes.old ≡ none_noted }
    ensures time { Passes (M.disk machine.old) (M.disk machine.new) }
    ensures beside { IsBesideRun (T.disk backup.old) (T.disk backup.new) result }
    ensures backup { IsBackupOfRun tending budget T.disk (S.tells input.old) (lines_of (S.left input.old)) (M.disk machine.old) (M.disk machine.new) backup.old backup.new }
    ensures call { IsRunCall tending budget (S.tells input.old) (S.left input.old) (S.left input.new) (M.disk machine.old) (M.disk machine.new) result }
    ensures noted { S.tells input.old → HasNoted (lines_of (S.left input.old)) notes.new result }
    ensures unopened { result ≡ Status.RestartMemory → (input.new ≡ input.old) × (backup.new ≡ backup.old) }
    ensures faults { CountsFaults (M.disk machine.old) (M.disk machine.new) result }
    ensures read_fault { result ≡ Status.ReadFault → Rises (S.faults input.old) (S.faults input.new) }
    ensures too_long { S.tells input.old → result ≡ Status.TooLong → ReadsOn (S.left input.old) (S.left input.new) 0 (2 ^ 40) }
{
    standing_files_meet_their_format::<AllOps>();
    match open_store(alloc, budget, machine) {
        Ok(mut engine) => {
            let status = run_open(alloc, tending, &mut engine, machine, backup, input, notes);
            drop(engine);
            status
        }
        Err(status) => status,
    }
}
