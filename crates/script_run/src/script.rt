// A script is answered, line by line.
ghost use Rattle.std.specs.Prelude.{◌≡◌, ◌^◌, [], false, List, ℕ, length, None, Ok, OnOk, IfOk, IfErr, IsErrOf};
ghost use Rattle.disk_model.specs.Disk.{LeavesOnly, Passes, Rises};
ghost use Rattle.formats.specs.declared.params.Params.{Params};
ghost use Rattle.script_lines.specs.Grammar.{lines_of};
ghost use Rattle.script_lines.specs.Reading.{ReadsOn};
ghost use Rattle.op_codec.specs.AllOps.{all_meaning};
ghost use Rattle.explain_core.specs.World.{World};
ghost use Rattle.standing.specs.Moments.{TakesSome};
ghost use Rattle.store_engine.specs.Engine.{IsAfterIn, forced_in, used_in};
ghost use Rattle.shell_base.specs.Store.{IsAttached, Between, Command, Holds, ShowsIn, meaning_in};
ghost use Rattle.shell_base.specs.First.{stage_of};
ghost use Rattle.shell_base.specs.Status.{status_after};
ghost use Rattle.shell_base.specs.Stops.{IsUndamaged};
ghost use Rattle.script_run.specs.Stages.{finish_course};
ghost use Rattle.script_run.specs.Noted.{TakesScript, none_noted};
ghost use Rattle.script_run.specs.Run.{IsRun, IsComplete, StopsWith};
ghost use Rattle.script_run.specs.Saving.{IsBackedUp};

use crate::line::answer_next;
use crate::notes::Notes;
use crate::tending::{Tending, tend};
use backup_copy::copies_go_on;
use disk_model::{Machine, Source};
use op_codec::AllOps;
use script_lines::{LineReader, Next, a_line_asks_one_thing};
use shell_base::Stop;
use std::alloc::Global;
use store_engine::{
    Engine, Pace, engine_stands, group_is_closed, standing_files_meet_their_format,
};

/// Closes the group that is open, if there is one, and forces the log. Fails where the disk does.
fn close_script<M: Machine>(engine: &mut Engine<AllOps>, machine: &mut M) -> Result<(), Stop>
    requires { engine.old.broken ≡ false }
    ensures time { Passes (M.disk machine.old) (M.disk machine.new) }
    ensures quiet { (M.disk machine.old).tells_files → (M.disk machine.new).said ≡ (M.disk machine.old).said }
    // All commands are forced then, and the log ends where the engine says.
    ensures forced { (p : Params) (commands : List Command) → Holds p (M.disk machine.old) engine.old commands →
        OnOk result (Holds p (M.disk machine.new) engine.new commands × (forced_in engine.new ≡ length commands) × (engine.new.parts.log.log.pending ≡ [])) }
    ensures follows { (p : Params) (w : World Command) → ShowsIn p (M.disk machine.old) engine.old w →
        OnOk result (IsAfterIn all_meaning p (M.disk machine.new) engine.new w (finish_course (meaning_in p) w (used_in engine.old))) }
    ensures images { (p : Params) (commands : List Command) → Holds p (M.disk machine.old) engine.old commands → (M.disk machine.old).tells_moments →
        LeavesOnly (M.disk machine.old) (M.disk machine.new) (Between p (M.disk machine.old) None (forced_in engine.old) (length commands) commands) }
    ensures steps { (M.disk machine.old).tells_moments → (p : Params) (w : World Command) → ShowsIn p (M.disk machine.old) engine.old w →
        TakesSome (meaning_in p) p (M.disk machine.old) (M.disk machine.new) w (finish_course (meaning_in p) w (used_in engine.old)).steps }
    ensures cause { IfErr result (λ stop. (stop ≡ Stop.DiskFault) × Rises (M.disk machine.old).disk_faults (M.disk machine.new).disk_faults) }
{
    group_is_closed(machine, engine);
    let _ = engine.end();
    let forced = engine.force(machine);
    engine_stands(machine, engine);
    match forced {
        Ok(_) => Ok(()),
        Err(_) => Err(Stop::DiskFault),
    }
}

/// Answers the lines of a script, where no group is open and no backup is made, and notes them; before each is read the store is
/// tended, if it is by line. At its end an open group is closed, and the log is forced. It reports whether some answer was a refusal.
pub fn answer_script<M: Machine, T: Machine, S: Source>(
    alloc: Global,
    tending: Tending,
    engine: &mut Engine<AllOps>,
    machine: &mut M,
    backup: &mut T,
    input: &mut S,
    notes: &mut Notes,
) -> Result<bool, Stop>
    requires sound { engine.old.broken ≡ false }
    requires fresh { notes.old ≡ none_noted }
    ensures time { Passes (M.disk machine.old) (M.disk machine.new) }
    ensures backup_time { Passes (T.disk backup.old) (T.disk backup.new) }
    ensures answers { (p : Params) (commands : List Command) → (holds : Holds p (M.disk machine.old) engine.old commands) → forced_in engine.old ≡ length commands → engine.old.group ≡ None → S.tells input.old →
        IsRun tending p (stage_of engine.old holds.world) (M.disk machine.old) (M.disk machine.new) commands (lines_of (S.left input.old)) (status_after result) }
    ensures complete { (p : Params) (commands : List Command) → (holds : Holds p (M.disk machine.old) engine.old commands) → forced_in engine.old ≡ length commands → engine.old.group ≡ None → S.tells input.old →
        IfOk result (λ refusing. IsComplete tending p (stage_of engine.old holds.world) (M.disk machine.old) (M.disk machine.new) commands (lines_of (S.left input.old)) (status_after (Ok refusing))) }
    ensures backup { (p : Params) (commands : List Command) → (holds : Holds p (M.disk machine.old) engine.old commands) → forced_in engine.old ≡ length commands → engine.old.group ≡ None → engine.old.copied ≡ None → S.tells input.old →
        IsBackedUp tending T.disk p (stage_of engine.old holds.world) commands (lines_of (S.left input.old)) (M.disk machine.old) (M.disk machine.new) backup.old backup.new }
    // Whatever a source that reports nothing gave, it is some script.
    ensures some { (script : List (List ℕ)) × ((p : Params) (commands : List Command) → (holds : Holds p (M.disk machine.old) engine.old commands) → forced_in engine.old ≡ length commands → engine.old.group ≡ None →
        IsRun tending p (stage_of engine.old holds.world) (M.disk machine.old) (M.disk machine.new) commands script (status_after result)
        × IfOk result (λ refusing. IsComplete tending p (stage_of engine.old holds.world) (M.disk machine.old) (M.disk machine.new) commands script (status_after (Ok refusing))))
        × ((p : Params) (commands : List Command) → (holds : Holds p (M.disk machine.old) engine.old commands) → forced_in engine.old ≡ length commands → engine.old.group ≡ None → engine.old.copied ≡ None →
        IsBackedUp tending T.disk p (stage_of engine.old holds.world) commands script (M.disk machine.old) (M.disk machine.new) backup.old backup.new) }
    ensures input { S.tells input.old → TakesScript (S.left input.old) (S.left input.new) notes.new result }
    ensures cause { IfErr result (λ stop. StopsWith stop (M.disk machine.old) (M.disk machine.new) (S.faults input.old) (S.faults input.new) (T.disk backup.old) (T.disk backup.new)) }
    ensures undamaged { (M.disk machine.old).tells_files → IsAttached (M.disk machine.old) engine.old → IfErr result IsUndamaged }
    ensures too_long { S.tells input.old → IsErrOf result Stop.TooLong → ReadsOn (S.left input.old) (S.left input.new) 0 (2 ^ 40) }
{
    standing_files_meet_their_format::<AllOps>();
    a_line_asks_one_thing();
    copies_go_on::<AllOps, M, T>();
    let mut lines = LineReader::new(alloc)?;
    let mut pace = Pace::new();
    let mut refusing = false;
    loop {
        tend(engine, machine, tending, &mut pace)?;
        match lines.next(input)? {
            Next::End => break,
            next => {
                refusing |= answer_next(alloc, engine, machine, backup, next, lines.line(), notes)?;
            }
        }
    }
    close_script(engine, machine)?;
    Ok(refusing)
}
