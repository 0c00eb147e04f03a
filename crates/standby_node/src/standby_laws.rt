ghost use Rattle.std.specs.Prelude.{◌≡◌, ◌≤◌, ◌+◌, ◌-◌, ◌++◌, ℕ, List, None, max, length, take, drop};
ghost use Rattle.std.specs.List.{AllByRecursion};
ghost use Rattle.disk_model.specs.Disk.{Files};
ghost use Rattle.disk_model.specs.declared.machine.FileNo.{FileNo};
ghost use Rattle.oper_core.specs.Meaning.{AreWithin, IsSmall};
ghost use Rattle.oper_core.specs.declared.bounds.Bounds.{Bounds};
ghost use Rattle.formats.specs.Log.{Header, IsPayload};
ghost use Rattle.formats.specs.Objects.{bounds_of};
ghost use Rattle.formats.specs.Records.{AreRecords, HoldsRecordLog, records_of};
ghost use Rattle.frame_stream.specs.Frames.{HasBadLength, Splits, frames};
ghost use Rattle.log_records.specs.BlockReader.{blocks_from, payloads_from};
ghost use Rattle.formats.specs.declared.params.Params.{Params};
ghost use Rattle.formats.specs.declared.record.Record.{Record};
ghost use Rattle.explain_core.specs.History.{IsHistory, Member, commands_of};
ghost use Rattle.explain_core.specs.World.{Step, World, run};
ghost use Rattle.explain_core.specs.declared.marks.Marks.{Marks};
ghost use Rattle.execution.specs.Judged.{first_refused, follows};
ghost use Rattle.standing.specs.Members.{members_of};
ghost use Rattle.standing.specs.Standing.{FilesShow};
ghost use Rattle.restart.specs.Courses.{restart_course};
ghost use Rattle.store_engine.specs.Engine.{EngineView, Holds, Says, ShowsIn};
ghost use Rattle.store_engine.specs.Shipping.{AreFramesFrom, base_of};
ghost use Rattle.store_engine.specs.Store.{Stands, meaning_in};
ghost use Rattle.standby_node.specs.Feeding.{HasRefusedIn, IsAtFrameEnd, IsOfStream};
ghost use Rattle.standby_node.specs.OnePrimary.{IsFedBy, IsFront, IsGap, IsShipped, ShipsOnTo, stable_in};
ghost use Rattle.standby_node.specs.declared.follow_err.FollowErr.{FollowErr as FollowFailure};
ghost use Rattle.standby_node.specs.Standby.{AreFramesOf, IsBetweenPieces, IsFollowing, StandbyView};

use crate::Standby;
use disk_model::Machine;
use oper_core::Oper;

/// A standby and files that stand for commands say so, as an engine does: each image of the moment stands for those that are
/// forced, and the map has the values after all.
pub fn standby_stands<O: Oper, M: Machine>(machine: &M, standby: &Standby<O>)
    ensures { (p : Params) (commands : List O) → Holds O.meaning p (M.disk machine.now) standby.now.engine commands →
        Says O.meaning p (M.disk machine.now) standby.now.engine commands }
{
    store_engine::engine_stands(machine, &standby.engine);
}

/// Whatever the pieces were in which a stream came, and wherever memory ran out: two standbys that began with one history, and
/// have followed all whole frames of it, have one history.
pub fn a_stream_is_followed_in_one_way<O: Oper, M: Machine>()
    ensures { (p : Params) (first : List (Member O)) (bytes : List ℕ) (now then : M) (one other : StandbyView)
        → (a : IsFollowing O.meaning p first bytes (M.disk now) one) → (b : IsFollowing O.meaning p first bytes (M.disk then) other) → IsBetweenPieces one → IsBetweenPieces other
        → a.world.history ≡ b.world.history }
{
    frame_stream::frames_are_told_apart();
    log_records::one_record::<O>();
}

/// A stream of whole frames, each of records in their grammar, which the definition refuses nowhere, and of a rest that may become a
/// frame: no standby answers to first bytes of it that it is refused. So each of the three refusals of a stream comes just where the
/// stream has its cause, in whatever pieces it comes.
pub fn a_stream_without_fault_is_not_refused<O: Oper, M: Machine>()
    ensures { (p : Params) (first : List (Member O)) (bytes more : List ℕ) (payloads : List (List ℕ)) (groups : List (List (Record O))) (rest : List ℕ) → Splits (bytes ++ more) payloads rest → (HasBadLength rest → ⊥)
        → AreFramesOf (meaning_in O.meaning p) payloads groups → first_refused (meaning_in O.meaning p) first (records_of groups) ≡ None
        → (now : M) (other : StandbyView) (e : FollowFailure) → HasRefusedIn O.meaning p first bytes (M.disk now) other e → IsOfStream e → ⊥ }
{
    log_records::one_record::<O>();
}

/// However a stream came, and however much of it: two standbys that began with one history, and were refused first bytes of it for
/// what they are, have one answer, and none has followed these bytes and what came behind them. A log without room, which depends
/// on its length, may stop one of them before.
pub fn a_stream_is_refused_in_one_way<O: Oper, M: Machine>()
    ensures answer { (p : Params) (first : List (Member O)) (bytes more others rest : List ℕ) → bytes ++ more ≡ others ++ rest
        → (now then : M) (one other : StandbyView) (e f : FollowFailure) → HasRefusedIn O.meaning p first bytes (M.disk now) one e → HasRefusedIn O.meaning p first others (M.disk then) other f
        → IsOfStream e → IsOfStream f → e ≡ f }
    ensures followed { (p : Params) (first : List (Member O)) (bytes more : List ℕ) (now then : M) (one other : StandbyView) (e : FollowFailure) → HasRefusedIn O.meaning p first bytes (M.disk now) one e → IsOfStream e
        → IsFollowing O.meaning p first (bytes ++ more) (M.disk then) other → IsBetweenPieces other → ⊥ }
{
    log_records::one_record::<O>();
}

/// The records of a store's own log are refused nowhere by a standby that has the same bounds or larger ones, and a first part
/// of the store's history: from any number up to its next one on, it comes to have as much of the history as they do.
pub fn a_primary_is_followed<O: Oper>()
    ensures fine { (b c : Bounds) (history : List (Member O)) (n from : ℕ) (records : List (Record O)) → IsSmall b → IsSmall c → AreWithin b c → IsHistory (O.meaning b) history
        → n ≤ length history → 1 ≤ from → from ≤ n + 1 → AreRecords (O.meaning b) from from records → members_of records ≡ take (length (members_of records)) (drop (from - 1) history)
        → first_refused (O.meaning c) (take n history) records ≡ None }
    ensures followed { (b c : Bounds) (history : List (Member O)) (n from : ℕ) (records : List (Record O)) → IsSmall b → IsSmall c → AreWithin b c → IsHistory (O.meaning b) history
        → n ≤ length history → 1 ≤ from → from ≤ n + 1 → AreRecords (O.meaning b) from from records → members_of records ≡ take (length (members_of records)) (drop (from - 1) history)
        → follows (O.meaning c) (take n history) records ≡ take (max n (from - 1 + length (members_of records))) history }
{
    explain_core::wider_bounds_keep_stable_parts::<O>();
    store_engine::records_are_judged::<O>();
}

/// What a store ships are frames for each store of its bounds or larger ones, and their records are those of its log from the LSN
/// on, as [`a_primary_is_followed`] asks for them.
pub fn what_is_shipped_is_followed<O: Oper>()
    ensures frames { (b c : Bounds) (base from : ℕ) (groups : List (List (Record O))) → IsSmall b → IsSmall c → AreWithin b c → AreRecords (O.meaning b) base base (records_of groups)
        → AreFramesOf (O.meaning c) (payloads_from (O.meaning b) from groups) (blocks_from from groups) }
    ensures placed { (b : Bounds) (base from : ℕ) (groups : List (List (Record O))) → base ≤ from → AreRecords (O.meaning b) base base (records_of groups)
        → AreRecords (O.meaning b) from from (records_of (blocks_from from groups)) }
    ensures members { (b : Bounds) (base from : ℕ) (groups : List (List (Record O))) → base ≤ from → AreRecords (O.meaning b) base base (records_of groups)
        → members_of (records_of (blocks_from from groups)) ≡ drop (from - base) (members_of (records_of groups)) }
{}

/// What is stable of a store stays a front of what is stable of it, whatever steps it takes, trims and crashes among them; and a
/// restart makes just that its history. So files that show what was stable of a primary at some time, as a backup does, all of it
/// stable there, begin a standby with a front of it.
pub fn what_is_stable_stays<O: Oper>()
    ensures steps { (b : Bounds) (w : World O) (steps : List (Step O)) → w.forced ≤ length w.history → IsFront (stable_in w) (stable_in (run (O.meaning b) w steps)) }
    ensures restart { (b : Bounds) (w : World O) (marks : Marks) (used : ℕ) → w.forced ≤ length w.history → (run (O.meaning b) w (restart_course (O.meaning b) marks w used).steps).history ≡ stable_in w }
    ensures begins { (b c : Bounds) (w v : World O) (steps : List (Step O)) (marks : Marks) (used : ℕ) → w.forced ≤ length w.history → v.forced ≡ length v.history → v.history ≡ stable_in w
        → IsFront (run (O.meaning c) v (restart_course (O.meaning c) marks v used).steps).history (stable_in (run (O.meaning b) w steps)) }
{}

/// The frames of an engine's log, and those of the log in files, are what a store ships in the world that these show.
pub fn a_log_is_shipped<O: Oper, M: Machine>()
    ensures engine { (p : Params) (now : M) (engine : EngineView) (w : World O) (from : ℕ) (bytes : List ℕ) → ShowsIn O.meaning p (M.disk now) engine w → base_of engine ≤ from → AreFramesFrom O.meaning (M.disk now) engine from bytes
        → IsShipped (meaning_in O.meaning p) w from bytes }
    ensures files { (p : Params) (files : Files) (w : World O) (active : FileNo) (header : Header) (groups : List (List (Record O))) (from : ℕ) → FilesShow (meaning_in O.meaning p) p files w → HoldsRecordLog (meaning_in O.meaning p) active header groups files
        → header.base ≤ from → IsShipped (meaning_in O.meaning p) w from (frames (payloads_from (meaning_in O.meaning p) from groups)) }
{}

/// However often a primary ships its log, from whichever LSNs, and whatever it does in between, a trim too; whichever of these
/// ships are lost whole, come twice, or in another order, the last one perhaps in part: a standby that began with a front of what is
/// stable of the primary has such a front, its files stand at each moment for commands that the primary's begin with, and it refuses
/// nothing but an LSN that leaves a gap. Of a ship that loses bytes and goes on behind them nothing is said.
pub fn one_primary_is_followed<O: Oper, M: Machine>()
    ensures followed { (p q : Params) (w : World O) (first : List (Member O)) (bytes : List ℕ) → IsFedBy O.meaning p q w first bytes
        → (now : M) (standby : StandbyView) → (is : IsFollowing O.meaning q first bytes (M.disk now) standby) → IsFront is.world.history (stable_in w) }
    ensures refused { (p q : Params) (w : World O) (first : List (Member O)) (bytes : List ℕ) → IsFedBy O.meaning p q w first bytes
        → (now : M) (standby : StandbyView) (e : FollowFailure) → HasRefusedIn O.meaning q first bytes (M.disk now) standby e → IsOfStream e → IsGap e }
    ensures images { (p q : Params) (w : World O) (first : List (Member O)) (bytes : List ℕ) → IsFedBy O.meaning p q w first bytes
        → (old : M) (least : ℕ) (files : Files) (said : List ℕ) → IsAtFrameEnd O.meaning q (M.disk old) least first bytes files said
        → (commands : List O) × Stands O.meaning q files commands × IsFront commands (commands_of (stable_in w)) }
    // What whole frames that came make of its first history is a front of the primary's.
    ensures frames { (p q : Params) (w : World O) (first : List (Member O)) (bytes : List ℕ) → IsFedBy O.meaning p q w first bytes → IsSmall (bounds_of q)
        → (payloads : List (List ℕ)) (groups : List (List (Record O))) (rest : List ℕ) → AllByRecursion IsPayload payloads → AreFramesOf (meaning_in O.meaning q) payloads groups → bytes ≡ frames payloads ++ rest
        → IsFront (follows (meaning_in O.meaning q) first (records_of groups)) (stable_in w) }
{
    explain_core::stable_parts_stand::<O>();
    explain_core::wider_bounds_keep_stable_parts::<O>();
    log_records::one_record::<O>();
    store_engine::records_are_judged::<O>();
}

/// What a primary ships now from an LSN up to the standby's next one is refused nowhere, and where all of it came the standby has
/// all that is stable of the primary. So does one that begins with a backup: [`what_is_stable_stays`] makes its history a front.
pub fn a_standby_catches_up<O: Oper, M: Machine>()
    ensures unrefused { (p q : Params) (w : World O) (first : List (Member O)) (bytes more : List ℕ) → ShipsOnTo O.meaning p q w first (bytes ++ more)
        → (now : M) (standby : StandbyView) (e : FollowFailure) → HasRefusedIn O.meaning q first bytes (M.disk now) standby e → IsOfStream e → ⊥ }
    ensures all { (p q : Params) (w : World O) (first : List (Member O)) (bytes : List ℕ) → ShipsOnTo O.meaning p q w first bytes
        → (now : M) (standby : StandbyView) → (is : IsFollowing O.meaning q first bytes (M.disk now) standby) → IsBetweenPieces standby → is.world.history ≡ stable_in w }
    // So do its frames by themselves: none of their records is refused, and they make all of that of its first history.
    ensures frames { (p q : Params) (w : World O) (first : List (Member O)) (bytes : List ℕ) → ShipsOnTo O.meaning p q w first bytes → IsSmall (bounds_of q)
        → (payloads : List (List ℕ)) (groups : List (List (Record O))) → AllByRecursion IsPayload payloads → AreFramesOf (meaning_in O.meaning q) payloads groups → bytes ≡ frames payloads
        → (first_refused (meaning_in O.meaning q) first (records_of groups) ≡ None) × (follows (meaning_in O.meaning q) first (records_of groups) ≡ stable_in w) }
{
    explain_core::stable_parts_stand::<O>();
    explain_core::wider_bounds_keep_stable_parts::<O>();
    frame_stream::frames_are_told_apart();
    log_records::one_record::<O>();
    store_engine::records_are_judged::<O>();
}
