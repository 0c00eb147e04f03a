ghost use Rattle.std.specs.Prelude.{◌≡◌, List, ℕ};
ghost use Rattle.oper_core.specs.declared.bounds.Bounds.{Bounds};
ghost use Rattle.dirty_page_table.specs.RedoStarts.{redo_from};
ghost use Rattle.dirty_page_table.specs.declared.table.DirtyPageTable.{DirtyPageTable};
ghost use Rattle.formats.specs.Records.{IsCheckpointAt, AreRecords};
ghost use Rattle.formats.specs.declared.record.Record.{Record};
ghost use Rattle.explain_core.specs.World.{start_of};
ghost use Rattle.analysis_pass.specs.Analysis.{plan_table, least_start};

use oper_core::Oper;

/// Where a checkpoint is right in its place, the least of its next LSN and its redo starts is where the redo of a world
/// with its table starts: at the least LSN from which it applies what is written to an object of the store. So it is
/// for the plan of records that are right in their places, with a checkpoint among them or none.
pub fn a_plan_starts_at_the_least_start<O: Oper>()
    ensures checkpoint { (b : Bounds) (base next : ℕ) (table : DirtyPageTable) → IsCheckpointAt (O.meaning b) base next table →
        least_start table.next table.starts
        ≡ start_of (O.meaning b).objects (record { redo_from = redo_from table; next = table.next }) }
    ensures plan { (b : Bounds) (base : ℕ) (records : List (Record O)) → AreRecords (O.meaning b) base base records →
        least_start (plan_table base records).next (plan_table base records).starts
        ≡ start_of (O.meaning b).objects (record { redo_from = redo_from (plan_table base records); next = (plan_table base records).next }) }
{}
