// What a store in memory is worth for the real files.
ghost use Rattle.std.specs.Prelude.{◌≡◌, ◌⊎◌, ℕ, List, [], None, Option, length};
ghost use Rattle.disk_model.specs.Disk.{Files, In, IsSettled, LeavesOnly, Passes, Runs, Same};
ghost use Rattle.disk_model.specs.declared.machine.FileNo.TheVariants.{Objects};
ghost use Rattle.formats.specs.declared.params.Params.{Params};
ghost use Rattle.op_codec.specs.AllOps.{AllOps as Command, all_meaning};
ghost use Rattle.explain_core.specs.History.{Member};
ghost use Rattle.explain_core.specs.World.{World};
ghost use Rattle.stable_objects.specs.Making.{KeepsGate};
ghost use Rattle.restart.specs.Starts.{OrAtStart};
ghost use Rattle.store_engine.specs.Engine.{Between, EngineView, InEachImage, Opens};
ghost use Rattle.store_engine.specs.Store.{Stands};
ghost use Rattle.backup_copy.specs.Calls.{BeginsNone, IsShutOrWhole, NoneIn};
ghost use Rattle.backup_copy.specs.Copies.{Copies};
ghost use Rattle.backup_copy.specs.Target.{AreShut};
ghost use Rattle.write_queue.specs.Memory.{disk_of, waiting_in, IsLeftByFront, LooksTheSame};
ghost use Rattle.write_queue.specs.declared.queue_mem.QueueMem.{QueueMem};
ghost use Rattle.embed.specs.Embedded.{AreSaved};
ghost use Rattle.embed.specs.Real.{IsSinceTaken};

use disk_model::Machine;

/// What a crash leaves of real files on which some front of what a call queued was made, in order, is among what the machine says
/// that it leaves since the call began (`each`). So what the call says of its moments is true of them: they stand for such a front
/// of the commands, none that was forced is lost, and no group is split. Where the call opens a store they stand for its commands.
/// Those of a backup are no store while it is started, have a closed gate while objects are copied, and while it is finished have
/// that or stand for the commands. Once all calls are made, the real files stand for the commands that each image stands for, and
/// those of a backup that was finished show its history.
/// Nothing is taken within a call: that is the caller's to do.
pub fn real_files_keep_what_is_forced()
    ensures since { (old new : QueueMem) → waiting_in old ≡ [] → Passes (disk_of old) (disk_of new) → IsSinceTaken old new }
    ensures each { (old new : QueueMem) → IsSinceTaken old new → (files : Files) (said : List ℕ) → IsLeftByFront new files said →
        (disk_of new).left_since (disk_of old).clock files said }
    ensures calls { (p : Params) (old new : QueueMem) (group : Option ℕ) (forced start : ℕ) (commands : List Command) → IsSinceTaken old new →
        LeavesOnly (disk_of old) (disk_of new) (Between all_meaning p (disk_of old) group forced start commands) →
        (files : Files) (said : List ℕ) → IsLeftByFront new files said → Between all_meaning p (disk_of old) group forced start commands files said }
    ensures opening { (p : Params) (old new : QueueMem) (commands : List Command) → IsSinceTaken old new → IsSettled (disk_of old) → Opens all_meaning p (disk_of old) commands →
        LeavesOnly (disk_of old) (disk_of new) (OrAtStart (disk_of old) (Between all_meaning p (disk_of old) None (length commands) (length commands) commands)) →
        (files : Files) (said : List ℕ) → IsLeftByFront new files said → Stands all_meaning p files commands }
    ensures starting { (old new : QueueMem) → IsSinceTaken old new → IsSettled (disk_of old) → BeginsNone (disk_of old).reads →
        LeavesOnly (disk_of old) (disk_of new) (OrAtStart (disk_of old) (NoneIn (disk_of old))) →
        (files : Files) (said : List ℕ) → IsLeftByFront new files said → BeginsNone files }
    ensures copying { (p : Params) (source old new : QueueMem) (engine : EngineView) (w : World Command) → IsSinceTaken old new →
        Copies all_meaning p (disk_of source) engine w (disk_of old) → Runs (In Objects KeepsGate) Same (disk_of old) (disk_of new) →
        (files : Files) (said : List ℕ) → IsLeftByFront new files said → AreShut files }
    ensures backup { (p : Params) (old new : QueueMem) (commands : List Command) → IsSinceTaken old new →
        LeavesOnly (disk_of old) (disk_of new) (IsShutOrWhole all_meaning p commands (disk_of old)) →
        (files : Files) (said : List ℕ) → IsLeftByFront new files said → AreShut files ⊎ Stands all_meaning p files commands }
    ensures made { (p : Params) (m : QueueMem) (commands : List Command) → waiting_in m ≡ [] → InEachImage (disk_of m) (λ files. Stands all_meaning p files commands) →
        (files : Files) (said : List ℕ) → IsLeftByFront m files said → Stands all_meaning p files commands }
    ensures saved { (p : Params) (m : QueueMem) (history : List (Member Command)) → waiting_in m ≡ [] → InEachImage (disk_of m) (AreSaved p history) →
        (files : Files) (said : List ℕ) → IsLeftByFront m files said → AreSaved p history files }
{
    write_queue::fronts_are_what_is_left();
}

/// A queue that is taken from the machine of a store, or from that to which it is copied, leaves the copying as it stands.
pub fn takes_leave_a_copy<M: Machine>()
    ensures source { (p : Params) (old new : QueueMem) (engine : EngineView) (w : World Command) (target : M) → LooksTheSame old new →
        Copies all_meaning p (disk_of old) engine w (M.disk target) → Copies all_meaning p (disk_of new) engine w (M.disk target) }
    ensures target { (p : Params) (source : M) (engine : EngineView) (w : World Command) (old new : QueueMem) → LooksTheSame old new →
        Copies all_meaning p (M.disk source) engine w (disk_of old) → Copies all_meaning p (M.disk source) engine w (disk_of new) }
{}
