// What is not forced is undone: the files are opened again.
ghost use Rattle.std.specs.Prelude.{◌≡◌, ◌<◌, ◌++◌, List, false, None, Some, length, take, IfErr, IfOk};
ghost use Rattle.disk_model.specs.Disk.{LeavesOnly};
ghost use Rattle.disk_model.specs.Silent.{IsSilent};
ghost use Rattle.formats.specs.declared.params.Params.{Params};
ghost use Rattle.stable_objects.specs.Reading.{IsNoDamage};
ghost use Rattle.restart.specs.Opening.{IsOpening};
ghost use Rattle.store_engine.specs.Engine.{Between, Holds, IsAttached, Opens, forced_in, group_size, opened};
ghost use Rattle.store_engine.specs.Store.{Stands};

use disk_model::Machine;
use oper_core::Oper;
use restart::Tuning;
use stable_objects::OpenErr;
use std::alloc::Global;
use store_engine::{Engine, engine_stands, standing_files_meet_their_format};

/// Undoes what is not forced: the engine is given up, and the files are opened again, as after a crash at this moment. Just the
/// forced commands are there then.
///
/// It fails only for want of memory or with the disk, as `Engine::restart` does. Whatever it answers, the files stand for these
/// commands, and so does whatever a crash leaves of them meanwhile.
pub fn reopen<O: Oper, M: Machine>(
    alloc: Global,
    machine: &mut M,
    tuning: Tuning,
    engine: Engine<O>,
) -> Result<Engine<O>, OpenErr>
    requires { 0 < tuning.clean }
    ensures opening { IsOpening O.meaning (M.disk machine.old) (M.disk machine.new) (opened result) }
    ensures ready { IfOk result (λ after. (after.broken ≡ false) × (after.group ≡ None) × (after.copied ≡ None) × (after.identities ≡ 0) × IsAttached O.meaning (M.disk machine.new) after) }
    ensures back { (M.disk machine.old).tells_files → (p : Params) (commands : List O) → Holds O.meaning p (M.disk machine.old) engine commands →
        IfOk result (λ after. Holds O.meaning p (M.disk machine.new) after (take (forced_in engine) commands) × (forced_in after ≡ forced_in engine)) }
    ensures images { (M.disk machine.old).tells_moments → (p : Params) (commands : List O) → Holds O.meaning p (M.disk machine.old) engine commands →
        LeavesOnly (M.disk machine.old) (M.disk machine.new) (IsSilent (λ files. Stands O.meaning p files (take (forced_in engine) commands)) (M.disk machine.old).said) }
    ensures again { (M.disk machine.old).tells_moments → (p : Params) (commands : List O) → Holds O.meaning p (M.disk machine.old) engine commands →
        Opens O.meaning p (M.disk machine.new) (take (forced_in engine) commands) }
    ensures undamaged { (M.disk machine.old).tells_files → (p : Params) (commands : List O) → Holds O.meaning p (M.disk machine.old) engine commands → IfErr result IsNoDamage }
{
    standing_files_meet_their_format::<O>();
    engine_stands(machine, &engine);
    drop(engine);
    Engine::restart(alloc, machine, tuning)
}

/// Undoes the open group: the engine is given up, and the files are opened again, as after a crash at this moment. All
/// commands before the group's first are there, and are forced, and none of the group's.
///
/// It fails only for want of memory or with the disk, as `Engine::restart` does. Whatever it answers, the files stand for these
/// commands, and so does whatever a crash leaves of them meanwhile.
pub fn roll_back<O: Oper, M: Machine>(
    alloc: Global,
    machine: &mut M,
    tuning: Tuning,
    engine: Engine<O>,
) -> Result<Engine<O>, OpenErr>
    requires { 0 < tuning.clean }
    ensures opening { IsOpening O.meaning (M.disk machine.old) (M.disk machine.new) (opened result) }
    ensures ready { IfOk result (λ after. (after.broken ≡ false) × (after.group ≡ None) × (after.copied ≡ None) × (after.identities ≡ 0) × IsAttached O.meaning (M.disk machine.new) after) }
    ensures undone { (M.disk machine.old).tells_files → (p : Params) (commands ops : List O) → Holds O.meaning p (M.disk machine.old) engine (commands ++ ops) → group_size engine ≡ Some (length ops) →
        IfOk result (λ after. Holds O.meaning p (M.disk machine.new) after commands × (forced_in after ≡ length commands) × (after.group ≡ None)) }
    ensures images { (M.disk machine.old).tells_moments → (p : Params) (commands ops : List O) → Holds O.meaning p (M.disk machine.old) engine (commands ++ ops) → group_size engine ≡ Some (length ops) →
        LeavesOnly (M.disk machine.old) (M.disk machine.new) (Between O.meaning p (M.disk machine.old) None (length commands) (length commands) commands) }
    ensures again { (M.disk machine.old).tells_moments → (p : Params) (commands ops : List O) → Holds O.meaning p (M.disk machine.old) engine (commands ++ ops) → group_size engine ≡ Some (length ops) →
        Opens O.meaning p (M.disk machine.new) commands }
    ensures undamaged { (M.disk machine.old).tells_files → (p : Params) (commands ops : List O) → Holds O.meaning p (M.disk machine.old) engine (commands ++ ops) → group_size engine ≡ Some (length ops) →
        IfErr result IsNoDamage }
{
    engine_stands(machine, &engine);
    reopen(alloc, machine, tuning, engine)
}
