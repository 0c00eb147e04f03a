// One record is done again.
ghost use Rattle.std.specs.Prelude.{◌≡◌, ◌<◌, ◌≤◌, ℕ, All, List, false, IfErr, OnOk, length};
ghost use Rattle.disk_model.specs.Disk.{Rises};
ghost use Rattle.disk_model.specs.declared.machine.FileNo.TheVariants.{Objects as ObjectsFile};
ghost use Rattle.oper_core.specs.Meaning.{IsInGrammar};
ghost use Rattle.formats.specs.Objects.{bounds_of};
ghost use Rattle.formats.specs.declared.params.Params.{Params};
ghost use Rattle.formats.specs.Reading.{FailsBy};
ghost use Rattle.formats.specs.Records.{IsRecord};
ghost use Rattle.write_graph.specs.Graph.{lsns};
ghost use Rattle.explain_core.specs.History.Member.{Command as a_command, Identity as an_identity};
ghost use Rattle.explain_core.specs.Sound.{IsSound};
ghost use Rattle.explain_core.specs.World.{World, step};
ghost use Rattle.explain_core.specs.World.Step.{Replay};
ghost use Rattle.running_store.specs.Calls.{IsFailed, ending_of_read};
ghost use Rattle.running_store.specs.Laid.LongSlot.{HasLongSlot};
ghost use Rattle.running_store.specs.Parts.{ShowsVolatile};
ghost use Rattle.running_store.specs.StoreView.{next_of, store_params};
ghost use Rattle.redo_pass.specs.Progress.{IsAbove};
ghost use Rattle.redo_pass.specs.Replayed.{IsInMemory, IsNext, IsNextRecord, IsReplay, after_record, read_by};
ghost use Rattle.redo_pass.specs.Rising.{IsBelow};

use crate::choosing::due_among;
use analysis_pass::Plan;
use disk_model::Machine;
use formats::{ReadErr, Record};
use install_order::Entry;
use oper_core::{Memory, Objs, Oper, Values};
use running_store::Store;

/// Does the command with this LSN again, on the objects that are due; where none is, nothing is read.
fn replay_command<O: Oper, M: Machine>(
    plan: &Plan,
    store: &mut Store<O>,
    machine: &mut M,
    lsn: u64,
    op: &O,
) -> Result<(), ReadErr>
    requires unbroken { store.old.broken ≡ false }
    requires grammar { IsInGrammar (O.meaning (bounds_of (store_params store.old))) op.now }
    requires above { All (λ n. n < lsn) (lsns store.old.parts.volatile.entries) × (lsn < next_of store.old) }
    ensures replayed { IsReplay (M.disk machine.old) (M.disk machine.new) store.old store.new (λ k. lsn < k) (IsFailed (ending_of_read result)) }
    ensures shown { (M.disk machine.old).tells_files → OnOk result ((p : Params) (w : World O) → IsSound (O.meaning (bounds_of p)) w →
        ShowsVolatile (O.meaning (bounds_of p)) p ((M.disk machine.old).reads ObjectsFile) store.old.parts.volatile w →
        IsNext w plan.now.table lsn (a_command op.now) →
        ShowsVolatile (O.meaning (bounds_of p)) p ((M.disk machine.old).reads ObjectsFile) store.new.parts.volatile (step (O.meaning (bounds_of p)) w Replay)) }
    ensures cause { IfErr result (FailsBy (Rises (M.disk machine.old).disk_faults (M.disk machine.new).disk_faults)
        (HasLongSlot (M.disk machine.new) store.old.parts.volatile.objects.slots ((O.meaning (bounds_of (store_params store.old))).reads op.now))) }
{
    let bounds = store.objects().bounds();
    // Called for its clauses: the store is in use, and its numbers are small.
    let _params = store.params();
    let writes = op.writes();
    let due = due_among(plan, store.objects(), lsn, writes.as_slice());
    if due.as_slice().is_empty() {
        return Ok(());
    }
    let reads = op.reads();
    let values = store.values_of(machine, reads.as_slice())?;
    let made = op.apply(store.alloc(), bounds, &values)?;
    let entry = Entry {
        lsn,
        reads,
        writes,
        identity: false,
    };
    store.enter(due.as_slice(), entry, made)?;
    Ok(())
}

/// Does the identity write with this LSN again, where its object is due.
fn replay_identity<O: Oper>(
    plan: &Plan,
    store: &mut Store<O>,
    lsn: u64,
    object: u32,
    value: &[u8],
) -> Result<(), Memory>
    requires unbroken { store.old.broken ≡ false }
    requires below { object < (store_params store.old).objects }
    requires short { length value.now ≤ (store_params store.old).cap }
    requires above { All (λ n. n < lsn) (lsns store.old.parts.volatile.entries) × (lsn < next_of store.old) }
    ensures same { IsInMemory store.old store.new (λ k. lsn < k) }
    ensures shown { OnOk result ((p : Params) (file : List ℕ) (w : World O) → IsSound (O.meaning (bounds_of p)) w →
        ShowsVolatile (O.meaning (bounds_of p)) p file store.old.parts.volatile w →
        IsNext w plan.now.table lsn (an_identity object value.now) →
        ShowsVolatile (O.meaning (bounds_of p)) p file store.new.parts.volatile (step (O.meaning (bounds_of p)) w Replay)) }
{
    let writes = Objs::one(object);
    let chosen = due_among(plan, store.objects(), lsn, writes.as_slice());
    if chosen.as_slice().is_empty() {
        return Ok(());
    }
    let mut made = Values::new(store.alloc());
    made.push(value)?;
    let entry = Entry {
        lsn,
        reads: Objs::new(),
        writes,
        identity: true,
    };
    store.enter(chosen.as_slice(), entry, made)?;
    Ok(())
}

/// Does a record again: it is applied to each object that it writes whose LSN is below its own and whose redo
/// start is not above it; it enters the graph exactly where it is applied to some. A checkpoint changes nothing.
pub(crate) fn replay<O: Oper, M: Machine>(
    plan: &Plan,
    store: &mut Store<O>,
    machine: &mut M,
    record: Record<O>,
) -> Result<(), ReadErr>
    requires unbroken { store.old.broken ≡ false }
    requires grammar { IsRecord (O.meaning (bounds_of (store_params store.old))) «record» }
    requires above { IsAbove store.old «record» }
    ensures replayed { IsReplay (M.disk machine.old) (M.disk machine.new) store.old store.new (λ k. IsBelow k «record») (IsFailed (ending_of_read result)) }
    ensures shown { (M.disk machine.old).tells_files → OnOk result ((p : Params) (w : World O) → IsSound (O.meaning (bounds_of p)) w →
        ShowsVolatile (O.meaning (bounds_of p)) p ((M.disk machine.old).reads ObjectsFile) store.old.parts.volatile w →
        IsNextRecord w plan.now.table «record» →
        ShowsVolatile (O.meaning (bounds_of p)) p ((M.disk machine.old).reads ObjectsFile) store.new.parts.volatile
        (after_record (O.meaning (bounds_of p)) w «record»)) }
    ensures cause { IfErr result (FailsBy (Rises (M.disk machine.old).disk_faults (M.disk machine.new).disk_faults)
        (HasLongSlot (M.disk machine.new) store.old.parts.volatile.objects.slots (read_by (O.meaning (bounds_of (store_params store.old))) «record»))) }
{
    match record {
        Record::Command(lsn, op) => replay_command(plan, store, machine, lsn, &op),
        Record::Identity(lsn, object, value) => {
            // Called for its clauses, which bound the numbers of a store.
            let _params = store.params();
            replay_identity(plan, store, lsn, object, value.as_slice())?;
            Ok(())
        }
        Record::Checkpoint(_) => Ok(()),
    }
}
