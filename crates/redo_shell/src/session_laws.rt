// What any number of calls leave, and a call that is made again.
ghost use Rattle.std.specs.Prelude.{◌≡◌, ◌↔◌, ℕ, List};
ghost use Rattle.formats.specs.declared.params.Params.{Params};
ghost use Rattle.disk_model.specs.Disk.{Passes, IsSettled};
ghost use Rattle.disk_model.specs.Fuse.{disk_through};
ghost use Rattle.disk_model.specs.declared.fuse.Fuse.{Fuse};
ghost use Rattle.store_engine.specs.Engine.{InEachImage};
ghost use Rattle.command_words.specs.declared.asked.Asked.{Asked};
ghost use Rattle.shell_base.specs.Again.{StandsStill};
ghost use Rattle.shell_base.specs.declared.budget.Budget.{Budget as OfRestart};
ghost use Rattle.shell_base.specs.declared.budget.Budget.TheVariants.{Usual, Least};
ghost use Rattle.shell_base.specs.declared.status.Status.{Status};
ghost use Rattle.shell_base.specs.declared.status.Status.TheVariants.{RestartMemory};
ghost use Rattle.shell_base.specs.Store.{Command, Opens, Stands, IsNew};
ghost use Rattle.redo_shell.specs.Calls.{IsCall, IsCallFor, IsLeftByRun, IsRun};
ghost use Rattle.redo_shell.specs.Twice.{IsCallTwice};
ghost use Rattle.redo_shell.specs.Sessions.{Ran, Sizing, Follows, Survives, Arises, Sessions};
ghost use Rattle.redo_shell.specs.Beside.{BackupCalls};

use disk_model::{Machine, Source};
use op_codec::AllOps;
use store_engine::standing_files_meet_their_format;

/// Any calls of the program, one after the other, each ended in any way and followed by nothing, a kill or a crash: what
/// is left stands for the commands of the start and those that the runs have added, which split no group of any run, and no
/// fewer than any run has printed to be forced; and those that some whole frames of each stream that was followed have added.
/// From files that are no store the same holds from the first `init` on that has made one, with the numbers that an
/// `init` has asked for. Only an `upgrade` gives a store others.
pub fn sessions_keep_what_was_forced<M: Machine>()
    ensures from_store { (p : Params) (commands : List Command) (first last : M) (sizes : List Sizing) (runs : List Ran) → (M.disk first).tells_moments →
        InEachImage (M.disk first) (λ files. Stands p files commands) → Sessions M.disk first sizes runs last →
        InEachImage (M.disk last) (Survives sizes p commands runs) }
    ensures from_none { (first last : M) (sizes : List Sizing) (runs : List Ran) → (M.disk first).tells_moments →
        InEachImage (M.disk first) (λ files. (p : Params) × IsNew p files) → Sessions M.disk first sizes runs last →
        InEachImage (M.disk last) (Arises (M.disk first) sizes runs) }
{}

/// What may follow a call: nothing, or at a moment of it, which may be that between two calls to the machine or the last one, a
/// kill, or a crash, after which the machine is settled on an image.
pub fn a_call_is_followed<M: Machine>()
    ensures nothing { (old new : M) → Passes (M.disk old) (M.disk new) → Follows (M.disk old) (M.disk new) (M.disk new) (M.disk new).said }
    ensures kill { (old mid new : M) → Passes (M.disk old) (M.disk mid) → Passes (M.disk mid) (M.disk new) → Follows (M.disk old) (M.disk new) (M.disk mid) (M.disk mid).said }
    ensures crash { (old mid new next : M) → Passes (M.disk old) (M.disk mid) → Passes (M.disk mid) (M.disk new) → ((M.disk mid).tells_moments ↔ (M.disk next).tells_moments) → IsSettled (M.disk next) →
        (M.disk mid).left_since (M.disk mid).clock (M.disk next).reads (M.disk mid).said → Follows (M.disk old) (M.disk new) (M.disk next) (M.disk mid).said }
{}

/// A fuse may be the machine of a call in a list of calls on the machine that it passes its own to: a process that is
/// killed after some calls is one on a fuse. What the files of a fuse stand for, those of its machine stand for.
pub fn a_fuse_is_its_machine<M: Machine>()
    ensures inside { (first last : Fuse M) (sizes : List Sizing) (runs : List Ran) → Sessions (disk_through M.disk) first sizes runs last → Sessions M.disk first.inner sizes runs last.inner }
    ensures around { (first last : M) (end : Fuse M) (sizes : List Sizing) (runs : List Ran) → end.inner ≡ last → Sessions M.disk first sizes runs last →
        (begin : Fuse M) × (begin.inner ≡ first) × Sessions (disk_through M.disk) begin sizes runs end }
    ensures stands { (p : Params) (commands : List Command) (fuse : Fuse M) → InEachImage (disk_through M.disk fuse) (λ files. Stands p files commands) → InEachImage (M.disk fuse.inner) (λ files. Stands p files commands) }
{}

/// What `call` of [`top`](crate::top) says of a run, by itself: what it does, and what a crash at any moment of it leaves.
pub fn a_run_is_a_call<M: Machine, S: Source>()
    ensures run { (budget : OfRestart) (words : List (List ℕ)) (old new : M) (input rest : S) (status : Status) →
        IsCall budget words (S.tells input) (S.left input) (S.left rest) (M.disk old) (M.disk new) status → IsRun budget words (S.tells input) (S.left input) (S.left rest) (M.disk old) (M.disk new) status }
    ensures images { (budget : OfRestart) (words : List (List ℕ)) (old new : M) (input rest : S) (status : Status) →
        IsCall budget words (S.tells input) (S.left input) (S.left rest) (M.disk old) (M.disk new) status → IsLeftByRun words (S.tells input) (S.left input) (M.disk old) (M.disk new) }
{}

/// What is saved lasts: a backup that stands for commands in each image, as a call leaves it that has printed `saved`, stands for
/// them after any calls, each ended in any way and followed by nothing, a kill or a crash.
pub fn a_saved_backup_lasts<T: Machine>()
    ensures { (p : Params) (commands : List Command) (first last : T) → (T.disk first).tells_moments → InEachImage (T.disk first) (λ files. Stands p files commands) → BackupCalls T.disk first last →
        InEachImage (T.disk last) (λ files. Stands p files commands) }
{}

/// A call whose restart was refused memory may be made again with the least budget: the files stand for the commands that they
/// stood for, and what a crash leaves of the two calls, and what they say, is as of one.
pub fn a_second_start_goes_on<M: Machine, S: Source>()
    ensures stands { (budget : OfRestart) (asked : Asked) (p : Params) (commands : List Command) (old mid : M) (input : S) → (M.disk old).tells_moments → Opens p (M.disk old) commands →
        IsCallFor budget asked (S.tells input) (S.left input) (S.left input) (M.disk old) (M.disk mid) RestartMemory → StandsStill p commands (M.disk old) (M.disk mid) }
    ensures twice { (asked : Asked) (p : Params) (commands : List Command) (old mid new : M) (input end : S) (status : Status) → (M.disk old).tells_moments → Opens p (M.disk old) commands → Passes (M.disk old) (M.disk mid) →
        IsCallFor Usual asked (S.tells input) (S.left input) (S.left input) (M.disk old) (M.disk mid) RestartMemory →
        IsCallFor Least asked (S.tells input) (S.left input) (S.left end) (M.disk mid) (M.disk new) status →
        IsCallTwice asked p commands (S.tells input) (S.left input) (M.disk old) (M.disk mid) (M.disk new) status }
{
    standing_files_meet_their_format::<AllOps>();
}
