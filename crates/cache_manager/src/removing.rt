// Nodes whose objects are flushed leave the graph.
ghost use Rattle.std.specs.Prelude.{◌≡◌, false};
ghost use Rattle.running_store.specs.Calls.{ending_of_force};
ghost use Rattle.cache_manager.specs.RoundNodes.{AreRemoved, NameMinimal};

use disk_model::{Failed, Machine};
use oper_core::Oper;
use running_store::Store;
use write_graph::NodeNo;

/// Takes minimal nodes out of the graph one after the other, which have nothing to flush. No call of the device is made.
pub(crate) fn remove_nodes<O: Oper, M: Machine>(
    store: &mut Store<O>,
    machine: &mut M,
    names: &[NodeNo],
) -> Result<(), Failed>
    requires unbroken { store.old.broken ≡ false }
    requires minimal { NameMinimal store.old.parts.volatile.entries names.now }
    ensures { AreRemoved O.meaning (M.disk machine.old) (M.disk machine.new) store.old store.new names.now (ending_of_force result) }
{
    for n in names {
        store.finish(machine, *n, &[])?;
    }
    Ok(())
}
