// The checkpoint that may be taken now, and where the log may begin.
ghost use Rattle.std.specs.Prelude.{◌≡◌, ◌≤◌, ℕ, All, [], IfOk, false};
ghost use Rattle.std.specs.List.{filter};
ghost use Rattle.running_store.specs.Calls.Checkpoints.{IsCheckpointHere};
ghost use Rattle.checkpointing.specs.Checkpoints.{is_in_log, IsTakenBy};

use dirty_page_table::{DirtyPageTable, Starts};
use oper_core::{Memory, Oper};
use running_store::Store;

/// Whether a checkpoint may have this start: its object is there, and its LSN is not below the log's base.
fn is_in_log(object: u32, start: u64, objects: u32, base: u64) -> bool
    ensures { result ≡ is_in_log objects base (object, start) }
{
    object < objects && base <= start
}

/// Keeps the starts that a checkpoint may have. Where the store shows a world, these are all.
fn keep_in_log(starts: &mut Vec<(u32, u64)>, objects: u32, base: u64)
    ensures { starts.new.items ≡ filter (is_in_log objects base) starts.old.items }
{
    starts.retain(|it| is_in_log(it.0, it.1, objects, base));
}

/// The checkpoint that may be taken now.
pub(crate) fn checkpoint_now<O: Oper>(store: &Store<O>) -> Result<DirtyPageTable, Memory>
    requires unbroken { store.now.broken ≡ false }
    ensures here { IfOk result (IsCheckpointHere (O.meaning store.now.parts.log.bounds) store.now.parts.log) }
    ensures none { store.now.parts.volatile.entries ≡ [] → IfOk result (λ table. table.starts ≡ []) }
    ensures now { IfOk result (IsTakenBy O.meaning store.now.parts) }
{
    running_store::a_checkpoint_taken_now::<O>();
    let objects = store.params().objects;
    let log = store.log();
    let mut starts = store.graph().redo_starts()?;
    keep_in_log(&mut starts, objects, log.base());
    Ok(DirtyPageTable {
        next: log.next(),
        starts: Starts::new(starts),
    })
}

/// The least of a number and of the starts.
pub(crate) fn least_start(next: u64, starts: &[(u32, u64)]) -> u64
    ensures next { result ≤ next }
    ensures each { All (λ s. result ≤ s.1) starts.now }
    ensures greatest { (k : ℕ) → k ≤ next → All (λ s. k ≤ s.1) starts.now → k ≤ result }
{
    let mut least = next;
    for (_, start) in starts {
        least = least.min(*start);
    }
    least
}
