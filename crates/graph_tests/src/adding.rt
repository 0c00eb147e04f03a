ghost use Rattle.std.specs.Prelude.{◌+◌, ◌<◌, All, OnOk};
ghost use Rattle.write_graph.specs.Graph.{lsns};

use install_order::Entry;
use oper_core::{Memory, Objs};
use write_graph::WriteGraph;

/// What an operation reads, and what it writes: at most two objects each.
pub(crate) type Accesses<'a> = (&'a [u32], &'a [u32]);

/// Adds an operation, whose number is above all others.
pub(crate) fn add(graph: &mut WriteGraph, lsn: u64, operation: Accesses) -> Result<(), Memory>
    requires { All (λ n. n < lsn) (lsns graph.old.entries) }
    ensures { OnOk result (All (λ n. n < lsn + 1) (lsns graph.new.entries)) }
{
    let (reads, writes) = operation;
    let entry = Entry {
        lsn,
        reads: objs(reads),
        writes: objs(writes),
        identity: false,
    };
    graph.make_room(&entry)?;
    graph.add(entry);
    Ok(())
}

/// One or two objects, or none.
fn objs(objects: &[u32]) -> Objs {
    match objects {
        [] => Objs::new(),
        [x] => Objs::one(*x),
        [x, y, ..] => {
            let mut both = Objs::one(*x);
            both.push(*y);
            both
        }
    }
}
