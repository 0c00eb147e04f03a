// What a redo enters of a record.
ghost use Rattle.std.specs.Prelude.{◌≡◌, ◌<◌, ◌≤◌, false, All, length};
ghost use Rattle.write_graph.specs.Graph.{lsns};
ghost use Rattle.running_store.specs.Calls.Entered.{HasEntered};
ghost use Rattle.running_store.specs.Laid.{object_lsn};
ghost use Rattle.running_store.specs.StoreView.{next_of, store_params};

use crate::store::Store;
use install_order::Entry;
use oper_core::{Memory, Oper, Values};

impl<O: Oper> Store<O> {
    /// Gives the objects that are due the values made for them, which stand side by side with all that the entry writes, and
    /// adds the entry to the graph: what a redo does with a record of the log. Without memory nothing changes but room.
    pub fn enter(&mut self, due: &[u32], entry: Entry, made: Values) -> Result<(), Memory>
        requires unbroken { self.old.broken ≡ false }
        requires below { All (λ x. x < (store_params self.old).objects) entry.writes }
        requires values { (length made ≡ length entry.writes) × All (λ v. length v ≤ (store_params self.old).cap) made }
        requires above { All (λ n. n < entry.lsn) (lsns self.old.parts.volatile.entries) × (entry.lsn < next_of self.old) }
        requires later { All (λ x. object_lsn self.old.parts.volatile.objects x < entry.lsn) due.now }
        ensures { HasEntered self.old self.new due.now entry made result }
    {
        self.objects.make_room(entry.writes.as_slice())?;
        self.graph.make_room(&entry)?;
        self.objects
            .set_chosen(entry.lsn, due, entry.writes.as_slice(), made);
        self.graph.add(entry);
        Ok(())
    }
}
