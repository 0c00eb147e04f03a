ghost use Rattle.std.specs.Prelude.{◌≡◌};
ghost use Rattle.oper_core.specs.declared.bounds.Bounds.{Bounds};
ghost use Rattle.graph_view.specs.Lines.{entry_of};

use install_order::Entry;
use oper_core::{Objs, Oper};

/// What a command reads, and what it writes.
#[derive(Drop)]
pub struct Accesses {
    pub reads: Objs,
    pub writes: Objs,
}

/// The same objects once more.
fn copied(objects: &Objs) -> Objs
    ensures { result ≡ objects.now }
{
    let mut copy = Objs::new();
    for object in objects.as_slice() {
        copy.push(*object);
    }
    copy
}

impl Accesses {
    /// What an operation reads, and what it writes.
    pub fn of<O: Oper>(op: O) -> Self
        ensures { (b : Bounds) → result ≡ (record { reads = (O.meaning b).reads op; writes = (O.meaning b).writes op }) }
    {
        Accesses {
            reads: op.reads(),
            writes: op.writes(),
        }
    }

    /// The entry of the command under the number.
    pub fn entry(&self, lsn: u64) -> Entry
        ensures { result ≡ entry_of lsn self.now }
    {
        Entry {
            lsn,
            reads: copied(&self.reads),
            writes: copied(&self.writes),
            identity: false,
        }
    }
}
