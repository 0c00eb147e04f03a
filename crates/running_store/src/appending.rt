// An identity write is appended to the log's buffer.
ghost use Rattle.std.specs.Prelude.{◌≡◌, ◌<◌, ◌^◌, Some, IsSome, length, false};
ghost use Rattle.dirty_cache.specs.Contents.{held};
ghost use Rattle.dirty_cache.specs.declared.entry.Entry.{Entry as Pair};
ghost use Rattle.running_store.specs.Courses.{identity_length};
ghost use Rattle.running_store.specs.Calls.Logged.{HasPlace};
ghost use Rattle.running_store.specs.StoreView.{next_of};
ghost use Rattle.running_store.specs.Calls.Writes.{HasWritten};

use crate::store::Store;
use formats::Record;
use install_order::Entry;
use oper_core::{ByteList, Memory, Objs, Oper};

impl<O: Oper> Store<O> {
    /// Logs an identity write of a cached object, in the buffer alone. The object is dirty then, also where it was clean.
    /// Without memory nothing changes but room.
    pub fn append_identity(&mut self, x: u32) -> Result<(), Memory>
        requires unbroken { self.old.broken ≡ false }
        requires cached { IsSome (held self.old.parts.volatile.objects.cache x) }
        requires lsn { next_of self.old < 2 ^ 62 }
        requires place { (pair : Pair) → held self.old.parts.volatile.objects.cache x ≡ Some pair → HasPlace self.old.parts.log.log (identity_length (length pair.bytes)) }
        ensures { HasWritten O.meaning self.old self.new x result }
    {
        self.objects.room_for(x)?;
        let logged = self.objects.value(x).to_vec(self.alloc)?;
        let kept = self.objects.value(x).to_vec(self.alloc)?;
        let lsn = self.log.next();
        let entry = Entry {
            lsn,
            reads: Objs::new(),
            writes: Objs::one(x),
            identity: true,
        };
        self.graph.make_room(&entry)?;
        let record = Record::Identity(lsn, x, ByteList::new(logged));
        self.log.append(record)?;
        self.objects.set(x, lsn, ByteList::new(kept));
        self.graph.add(entry);
        self.identities += 1;
        Ok(())
    }
}
