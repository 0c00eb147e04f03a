ghost use Rattle.std.specs.Prelude.{◌≡◌, ◌<◌, ◌≤◌, ◌+◌, List, [], ℕ, true, false, None, Some, length, map};
ghost use Rattle.disk_model.specs.Disk.{Files};
ghost use Rattle.disk_model.specs.declared.machine.FileNo.TheVariants.{Objects};
ghost use Rattle.oper_core.specs.State.{is_among};
ghost use Rattle.oper_core.specs.declared.bounds.Bounds.{Bounds};
ghost use Rattle.dirty_page_table.specs.declared.table.DirtyPageTable.{DirtyPageTable};
ghost use Rattle.dirty_cache.specs.Contents.{held};
ghost use Rattle.formats.specs.Objects.{bounds_of};
ghost use Rattle.formats.specs.Records.{records_of};
ghost use Rattle.formats.specs.declared.params.Params.{Params};
ghost use Rattle.formats.specs.declared.record.Record.{Record};
ghost use Rattle.log_records.specs.Rewriting.{from_lsn};
ghost use Rattle.stable_objects.specs.SlotsView.{SlotsView, AreOf};
ghost use Rattle.explain_core.specs.History.{Member, with_lsn, reads_of, writes_of, effect_of};
ghost use Rattle.explain_core.specs.Sound.{IsSound};
ghost use Rattle.explain_core.specs.World.{World, step, run, is_redone, IsLive};
ghost use Rattle.explain_core.specs.World.Step.{Replay, Crash};
ghost use Rattle.explain_core.specs.Turns.{must_install, turns};
ghost use Rattle.explain_core.specs.declared.marks.Marks.{Marks};
ghost use Rattle.standing.specs.Standing.{FilesShow, IsFound};
ghost use Rattle.analysis_pass.specs.Analysis.{PlanView, plan_table, least_start};
ghost use Rattle.running_store.specs.Parts.{Volatile, ShowsVolatile};
ghost use Rattle.redo_pass.specs.Progress.{HasTurned, SoFar, IsLimited};
ghost use Rattle.redo_pass.specs.Redo.{IsRedoDue, IsRedone, redone_world};
ghost use Rattle.redo_pass.specs.Replayed.{IsReplayed, IsNext, is_due};
ghost use Rattle.redo_pass.specs.Rising.{AreMembers};

use oper_core::Oper;

/// The redo of the world that a restart finds is due, with the slots of the objects file, the plan that `analyse` answers
/// for the records of the log in force, and those of them that are commands or identity writes from its start on.
pub fn a_found_world_is_due<O: Oper>()
    ensures { (p : Params) (files : Files) (commands : List O) (w : World O)
        (found : IsFound (O.meaning (bounds_of p)) p files commands w) (slots : SlotsView) (plan : PlanView) →
        slots.params ≡ p → AreOf slots (files Objects) →
        plan.table ≡ plan_table found.shows.header.base (records_of found.shows.groups) →
        plan.start ≡ least_start plan.table.next plan.table.starts →
        IsRedoDue (O.meaning (bounds_of p)) p files slots plan (from_lsn plan.start (records_of found.shows.groups)) w }
{
    analysis_pass::a_plan_starts_at_the_least_start::<O>();
}

/// The records of the log in force are the members of the world that a restart finds, from its base on, each with its
/// LSN.
pub fn records_are_members<O: Oper>()
    ensures { (p : Params) (files : Files) (commands : List O) (w : World O) →
        (found : IsFound (O.meaning (bounds_of p)) p files commands w) → AreMembers w.history w.base (records_of found.shows.groups) }
{}

/// A store that shows a world in the middle of a redo shows, with the next member replayed, the world after that step.
pub fn a_replay_is_shown<O: Oper>()
    ensures { (p : Params) (file : List ℕ) (before after : Volatile) (w : World O) (it : Member O) (made : List (List ℕ)) →
        IsSound (O.meaning (bounds_of p)) w → ShowsVolatile (O.meaning (bounds_of p)) p file before w →
        with_lsn w.history w.next ≡ Some it →
        made ≡ effect_of (O.meaning (bounds_of p)) it (map (λ x. (w.cache x).value) (reads_of (O.meaning (bounds_of p)) it)) →
        IsReplayed (O.meaning (bounds_of p)) w it made before after → ((x : ℕ) → is_among x (writes_of (O.meaning (bounds_of p)) it) ≡ true → x < p.objects) →
        ShowsVolatile (O.meaning (bounds_of p)) p file after (step (O.meaning (bounds_of p)) w Replay) }
{}

/// A store in which nothing is cached, and whose graph is empty, shows the world whose redo is due.
pub fn an_empty_store_shows_it<O: Oper>()
    ensures { (p : Params) (files : Files) (slots : SlotsView) (plan : PlanView) (records : List (Record O)) (w : World O) (it : Volatile) →
        IsRedoDue (O.meaning (bounds_of p)) p files slots plan records w →
        it.objects.slots ≡ slots → ((x : ℕ) → held it.objects.cache x ≡ None) → it.entries ≡ [] →
        ShowsVolatile (O.meaning (bounds_of p)) p (files Objects) it w }
{}

/// What is due in a store that shows a world is what the replay of the next member sets in the world.
pub fn what_is_due_is_set<O: Oper>()
    ensures { (p : Params) (file : List ℕ) (it : Volatile) (w : World O) (table : DirtyPageTable) (n : ℕ) (member : Member O) (x : ℕ) →
        ShowsVolatile (O.meaning (bounds_of p)) p file it w → IsNext w table n member → x < p.objects →
        is_due table it.objects n (writes_of (O.meaning (bounds_of p)) member) x ≡ is_redone (O.meaning (bounds_of p)) w x }
{}

/// Where no records are left and nothing is to be installed, the redo of the world that a restart finds is over.
pub fn a_redo_ends<O: Oper>()
    ensures { (p : Params) (files : Files) (it : Volatile) (marks : Marks) (w : World O) →
        IsSound (O.meaning (bounds_of p)) w → step (O.meaning (bounds_of p)) w Crash ≡ w →
        SoFar (O.meaning (bounds_of p)) p files it marks w [] → IsRedone (O.meaning (bounds_of p)) p files it marks w }
{
    explain_core::turns_keep::<O>();
}

/// After all steps of its redo, nothing is left to replay of a world just after a crash.
pub fn a_redo_leaves_nothing<O: Oper>()
    ensures { (b : Bounds) (w : World O) (marks : Marks) → step (O.meaning b) w Crash ≡ w →
        IsLive (redone_world (O.meaning b) marks w) }
{}

/// The parts of the redo's loop, of the world that a restart finds. A member that is replayed is one turn more, and what
/// is installed after it are further turns.
pub fn a_redo_goes_on<O: Oper>()
    ensures replayed { (p : Params) (files : Files) (after : Volatile) (marks : Marks) (turned : ℕ) (w : World O) →
        IsSound (O.meaning (bounds_of p)) w → step (O.meaning (bounds_of p)) w Crash ≡ w →
        must_install (O.meaning (bounds_of p)) marks (run (O.meaning (bounds_of p)) w (turns (O.meaning (bounds_of p)) marks turned w)) ≡ false →
        (run (O.meaning (bounds_of p)) w (turns (O.meaning (bounds_of p)) marks turned w)).next ≤ length w.history →
        FilesShow (O.meaning (bounds_of p)) p files (run (O.meaning (bounds_of p)) w (turns (O.meaning (bounds_of p)) marks turned w)) →
        ShowsVolatile (O.meaning (bounds_of p)) p (files Objects) after (step (O.meaning (bounds_of p)) (run (O.meaning (bounds_of p)) w (turns (O.meaning (bounds_of p)) marks turned w)) Replay) →
        HasTurned (O.meaning (bounds_of p)) p files after marks w (turned + 1) }
    ensures limited { (p : Params) (files : Files) (it : Volatile) (marks : Marks) (turned : ℕ) (w : World O) (rest : List (Record O)) →
        IsLimited (O.meaning (bounds_of p)) p files it marks (run (O.meaning (bounds_of p)) w (turns (O.meaning (bounds_of p)) marks turned w)) →
        AreMembers w.history (run (O.meaning (bounds_of p)) w (turns (O.meaning (bounds_of p)) marks turned w)).next rest →
        SoFar (O.meaning (bounds_of p)) p files it marks w rest }
{
    explain_core::turns_keep::<O>();
    standing::unseen_steps_change_nothing::<O>();
}
