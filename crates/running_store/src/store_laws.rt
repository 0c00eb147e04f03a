ghost use Rattle.std.specs.Prelude.{◌≡◌, All, IsTrue, List, ℕ, length, map};
ghost use Rattle.disk_model.specs.Disk.{Files, OthersStay};
ghost use Rattle.disk_model.specs.declared.machine.FileNo.TheVariants.{Objects};
ghost use Rattle.oper_core.specs.Cell.{Cell};
ghost use Rattle.oper_core.specs.State.{is_among};
ghost use Rattle.formats.specs.Objects.{bounds_of};
ghost use Rattle.formats.specs.declared.params.Params.{Params};
ghost use Rattle.dirty_page_table.specs.declared.table.DirtyPageTable.{DirtyPageTable};
ghost use Rattle.install_order.specs.Entries.{accesses};
ghost use Rattle.write_graph.specs.Graph.{Lists, IsLeast};
ghost use Rattle.write_graph.specs.Objects.{IsWriter, IsWritten};
ghost use Rattle.stable_objects.specs.Ready.{AreOldOrNew};
ghost use Rattle.dirty_cache.specs.Contents.{AreDirty};
ghost use Rattle.explain_core.specs.RoundGates.{Gate, gates_of};
ghost use Rattle.explain_core.specs.Sound.{IsSound};
ghost use Rattle.explain_core.specs.Turns.{dirty_in};
ghost use Rattle.explain_core.specs.World.{World, table_now, end_of};
ghost use Rattle.standing.specs.Members.{table_of};
ghost use Rattle.standing.specs.Moments.{ShowsSome};
ghost use Rattle.standing.specs.Standing.{FilesShow};
ghost use Rattle.running_store.specs.Parts.{Volatile, ShowsVolatile};
ghost use Rattle.running_store.specs.Steps.RoundImages.{objects_of};

use oper_core::Oper;

/// A table of the redo starts that the graph of a store answers, and of the next LSN, is the checkpoint that the world
/// which the store shows would take now.
pub fn a_checkpoint_taken_now<O: Oper>()
    ensures { (p : Params) (file : List ℕ) (it : Volatile) (w : World O) (table : DirtyPageTable) →
        IsSound (O.meaning (bounds_of p)) w → ShowsVolatile (O.meaning (bounds_of p)) p file it w →
        Lists (IsWritten (accesses it.entries)) (map (λ s. s.0) table.starts) →
        All (λ s. IsLeast (IsWriter (accesses it.entries) s.0) s.1) table.starts →
        table.next ≡ end_of w → table_of table ≡ table_now (O.meaning (bounds_of p)) w }
{}

/// In a store that shows a world as many objects are dirty as in the world: the listed ones, which are the dirty ones of
/// the cache, each once.
pub fn dirty_objects_are_counted<O: Oper>()
    ensures { (p : Params) (file : List ℕ) (it : Volatile) (w : World O) (objects : List ℕ) →
        ShowsVolatile (O.meaning (bounds_of p)) p file it w → AreDirty it.objects.cache objects →
        dirty_in (O.meaning (bounds_of p)) w ≡ length objects }
{}

/// While the gates of several nodes are opened together, each image shows the world after the opening of some of them.
pub fn any_gates_are_shown<O: Oper>()
    ensures { (p : Params) (old files : Files) (w : World O) (gates : List Gate) (pairs : ℕ → Cell) → let m = O.meaning (bounds_of p) in
        FilesShow m p old w → ((x : ℕ) → IsTrue (is_among x (objects_of gates)) → w.cache x ≡ pairs x) →
        AreOldOrNew p (objects_of gates) pairs (old Objects) (files Objects) → OthersStay Objects old files → ShowsSome m p w (gates_of gates) files }
{}
