// Which of the objects that a record writes are set by its replay.
ghost use Rattle.std.specs.Prelude.{◌≡◌, ◌<◌, ◌≤◌, ◌+◌, ◌==◌, ◌&&◌, ◌||◌, ℕ, All, nat_lt, nat_le, length};
ghost use Rattle.oper_core.specs.State.{is_among};
ghost use Rattle.dirty_page_table.specs.RedoStarts.{redo_from};
ghost use Rattle.running_store.specs.Laid.{object_lsn};
ghost use Rattle.redo_pass.specs.Replayed.{is_due};

use analysis_pass::Plan;
use oper_core::Objs;
use running_store::Objects;

/// Those of the objects that a replay of the record with this LSN, which writes them, sets.
pub(crate) fn due_among(plan: &Plan, objects: &Objects, lsn: u64, writes: &[u32]) -> Objs
    requires few { length writes.now ≤ 4 }
    requires below { All (λ x. x < objects.now.slots.params.objects) writes.now }
    ensures { (x : ℕ) → is_among x result ≡ is_due plan.now.table objects.now lsn writes.now x }
{
    let mut due = Objs::new();
    for x in writes {
        push_due(plan, objects, lsn, *x, &mut due);
    }
    due
}

/// Adds the object where its LSN is below the record's, and its redo start is not above it.
fn push_due(plan: &Plan, objects: &Objects, lsn: u64, object: u32, due: &mut Objs)
    requires below { object < objects.now.slots.params.objects }
    requires few { length due.old < 4 }
    ensures among { (x : ℕ) → is_among x due.new
        ≡ (is_among x due.old || ((x == object) && (nat_lt (object_lsn objects.now object) lsn && nat_le (redo_from plan.now.table object) lsn))) }
    ensures count { length due.new ≤ length due.old + 1 }
{
    if objects.lsn(object) < lsn && plan.redo_from(object) <= lsn {
        due.push(object);
    }
}
